// How a world begins.
ghost use Rattle.std.specs.Prelude.{◌≡◌, IfOk, IfErr, true};
ghost use Rattle.laws_world.specs.World.{world};
ghost use Rattle.ftp_pair_events.specs.events.Calm.{tally_of};
ghost use Rattle.ftp_pair_events.specs.events.Shown.{shown, HasRoom};

use crate::events::parts::Parts;
use crate::queues::{Control, Link, Room};
use ftp_client_model::Near;
use ftp_server_model::SureFar;
use ftp_tree::Tree;
use std::alloc::Allocator;
use std::marker::PhantomData;

impl<A: Allocator + Copy, T: Tree<A>, N: Near<A>, F: SureFar<A, T>> Parts<A, T, N, F> {
    /// Two ends as they begin, with room for 4,096 octets in each queue and of those that are lent, and for a report. Refused that, it hands both back.
    pub fn new(alloc: A, near: N, far: F) -> Result<Self, (N, F)>
        ensures ok { IfOk result (λ parts. shown N.client F.server parts ≡ world (N.client near).view (F.server far).view) }
        ensures calm { IfOk result (λ parts. parts.calm ≡ true) }
        ensures counted { IfOk result (λ parts. tally_of N.client F.server parts ≡ record { near = (N.client near).refusals; far = (F.server far).counts }) }
        // Witness of report: equations.
        ensures report { IfOk result (λ parts. HasRoom N.client parts) }
        ensures err { IfErr result (λ ends. ends ≡ (near, far)) }
    {
        let Ok(room) = Room::new(alloc) else {
            return Err((near, far));
        };
        Ok(Parts {
            near,
            far,
            control_to_server: room.control_to_server,
            control_to_client: room.control_to_client,
            data_to_server: room.data_to_server,
            data_to_client: room.data_to_client,
            control: Control::Stands,
            link: Link::Gone,
            came: 0,
            listens: 0,
            marks: Vec::new(alloc),
            reports: room.reports,
            cutoff: None,
            taken: room.taken,
            calm: true,
            tree: PhantomData,
        })
    }
}
