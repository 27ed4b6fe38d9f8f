// What a world has room for from the start, and what is kept in such room.
ghost use Rattle.std.specs.Prelude.{◌≡◌, ◌<◌, ◌++◌, [], ◌∷◌, IfOk, vec_len, vec_capacity};

use crate::queues::channel::Channel;
use std::alloc::{AllocError, Allocator};

/// What a world has room for from the start: octets of each queue, those that are lent, and a report, a `T`.
#[derive(Drop)]
pub struct Room<A: Allocator + Copy, T: Drop> {
    pub control_to_server: Channel<A>,
    pub control_to_client: Channel<A>,
    pub data_to_server: Channel<A>,
    pub data_to_client: Channel<A>,
    pub taken: Channel<A>,
    pub reports: Vec<T, A>,
}

impl<A: Allocator + Copy, T: Drop> Room<A, T> {
    /// Nothing is in flight or lent yet.
    pub fn new(alloc: A) -> Result<Room<A, T>, AllocError>
        ensures to_server { IfOk result (λ room. room.control_to_server.octets.items ≡ []) }
        ensures to_client { IfOk result (λ room. room.control_to_client.octets.items ≡ []) }
        ensures up { IfOk result (λ room. room.data_to_server.octets.items ≡ []) }
        ensures down { IfOk result (λ room. room.data_to_client.octets.items ≡ []) }
        ensures lent { IfOk result (λ room. room.taken.octets.items ≡ []) }
        ensures none { IfOk result (λ room. room.reports.items ≡ []) }
        // Witness of report: `edits/no_room_for_the_first_report`.
        ensures report { IfOk result (λ room. vec_len room.reports < vec_capacity room.reports) }
    {
        let mut reports = Vec::new(alloc);
        reports.reserve(1)?;
        Ok(Room {
            control_to_server: Channel::new(alloc)?,
            control_to_client: Channel::new(alloc)?,
            data_to_server: Channel::new(alloc)?,
            data_to_client: Channel::new(alloc)?,
            taken: Channel::new(alloc)?,
            reports,
        })
    }
}

/// Adds an item, for which there is room.
pub fn keep<A: Allocator + Copy, T: Drop>(items: &mut Vec<T, A>, item: T)
    requires { vec_len items.old < vec_capacity items.old }
    ensures { items.new.items ≡ items.old.items ++ item ∷ [] }
{
    if items.push(item).is_err() {
        unreachable!()
    }
}
