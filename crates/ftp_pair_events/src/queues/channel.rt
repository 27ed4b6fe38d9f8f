// Octets on their way.
ghost use Rattle.std.specs.Prelude.{◌≡◌, ◌+◌, ◌≤◌, ◌++◌, [], IfOk, OnOk, length, take, drop, vec_len, vec_capacity};

use std::alloc::{AllocError, Allocator};

/// For how many octets a channel has room from the start; one output call is given no more (own choice).
pub const ROOM: usize = 4096;

/// Octets on their way, with room for 4,096 at least from the start on.
#[derive(Drop)]
pub struct Channel<A: Allocator + Copy> {
    pub octets: Vec<u8, A>,
    pub ghost roomy: { 4096 ≤ vec_capacity octets },
}

impl<A: Allocator + Copy> Channel<A> {
    /// No octets yet, and room for 4,096.
    pub fn new(alloc: A) -> Result<Channel<A>, AllocError>
        ensures { IfOk result (λ channel. channel.octets.items ≡ []) }
    {
        let octets = Vec::with_capacity(alloc, ROOM)?;
        Ok(Channel { octets })
    }

    /// How many octets there are.
    pub fn len(&self) -> usize
        ensures { result ≡ vec_len self.now.octets }
    {
        self.octets.len()
    }

    /// The octets.
    pub fn as_slice(&self) -> &[u8]
        ensures { result.now ≡ self.now.octets.items }
    {
        self.octets.as_slice()
    }

    /// Room for so many octets more. The octets stay, and room that was there stays.
    pub fn reserve(&mut self, count: usize) -> Result<(), AllocError>
        ensures items { self.new.octets.items ≡ self.old.octets.items }
        // Witness of ok: equations.
        ensures ok { OnOk result (vec_len self.new.octets + count ≤ vec_capacity self.new.octets) }
    {
        self.octets.reserve(count)
    }

    /// Adds octets, for which there is room.
    pub fn append(&mut self, more: &[u8])
        requires { vec_len self.old.octets + length more.now ≤ vec_capacity self.old.octets }
        // Witness: `edits/one_octet_is_added`.
        ensures items { self.new.octets.items ≡ self.old.octets.items ++ more.now }
        ensures capacity { vec_capacity self.old.octets ≤ vec_capacity self.new.octets }
    {
        if self.octets.extend_from_slice(more).is_err() {
            unreachable!()
        }
    }

    /// The first octets, so many at most.
    pub fn front(&self, most: usize) -> &[u8]
        ensures { result.now ≡ take most self.now.octets.items }
    {
        &self.octets[..most.min(self.octets.len())]
    }

    /// Has the first octets of another channel in place of its own, with room for so many; they leave the other.
    pub fn take_front(&mut self, from: &mut Channel<A>, count: usize)
        requires few { count ≤ vec_len from.old.octets }
        requires room { count ≤ vec_capacity self.old.octets }
        ensures items { self.new.octets.items ≡ take count from.old.octets.items }
        // Witness of left: `edits/an_octet_stays`.
        ensures left { from.new.octets.items ≡ drop count from.old.octets.items }
    {
        self.clear();
        self.append(&from.as_slice()[..count]);
        from.octets.drain(..count);
    }

    /// Drops all octets.
    pub fn clear(&mut self)
        ensures items { self.new.octets.items ≡ [] }
        ensures len { vec_len self.new.octets ≡ 0 }
        ensures capacity { vec_capacity self.new.octets ≡ vec_capacity self.old.octets }
    {
        self.octets.clear();
    }
}
