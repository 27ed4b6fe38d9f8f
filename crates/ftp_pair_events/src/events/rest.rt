// What a queue is asked, whichever it is, and whether nothing is in flight.
ghost use Rattle.std.specs.Prelude.{◌≡◌, true};
ghost use Rattle.ftp_ends.specs.Octets.{has_octets};
ghost use Rattle.laws_world.specs.Events.{IsQuiet, due, may_take};
ghost use Rattle.ftp_pair_events.specs.events.Shown.{shown, all_rest, all_told, is_quiet, queue_of, len_of, rests};

use crate::events::parts::Parts;
use crate::queues::Queue;
use ftp_client_model::Near;
use ftp_server_model::SureFar;
use ftp_tree::Tree;
use std::alloc::Allocator;

impl<A: Allocator + Copy, T: Tree<A>, N: Near<A>, F: SureFar<A, T>> Parts<A, T, N, F> {
    /// How many octets are on their way.
    pub(crate) fn len_of(&self, queue: Queue) -> usize
        ensures { result ≡ len_of queue self.now }
    {
        match queue {
            Queue::ControlToServer => self.control_to_server.len(),
            Queue::ControlToClient => self.control_to_client.len(),
            Queue::DataToServer => self.data_to_server.len(),
            Queue::DataToClient => self.data_to_client.len(),
        }
    }

    /// Whether its sender has octets to give.
    pub(crate) fn owes(&self, queue: Queue) -> bool
        ensures { result ≡ has_octets (due (queue_of queue) (shown N.client F.server self.now)) }
    {
        match queue {
            Queue::ControlToServer => self.near.owes(),
            Queue::ControlToClient => self.far.owes(),
            Queue::DataToServer => self.near.has_data(),
            Queue::DataToClient => self.far.has_data(),
        }
    }

    /// Whether its receiver may take an octet.
    pub(crate) fn may_take(&self, queue: Queue) -> bool
        ensures { result ≡ may_take (queue_of queue) (shown N.client F.server self.now) }
    {
        match queue {
            Queue::ControlToServer => self.far.may_hear(),
            Queue::ControlToClient => self.near.may_hear(),
            Queue::DataToServer => self.far.may_receive(),
            Queue::DataToClient => self.near.may_receive(),
        }
    }

    /// No octet of a queue moves, and none of it may be taken.
    #[tactic(auto, using(crate::proofs::events::Filling::len_is, crate::proofs::events::Filling::is_empty))]
    fn rests(&self, queue: Queue) -> bool
        ensures { result ≡ rests (queue_of queue) (shown N.client F.server self.now) }
    {
        !self.owes(queue) && !(self.len_of(queue) != 0 && self.may_take(queue))
    }

    /// So it is of each queue.
    fn all_rest(&self) -> bool
        ensures { result ≡ all_rest (shown N.client F.server self.now) }
    {
        self.rests(Queue::ControlToServer)
            && self.rests(Queue::ControlToClient)
            && self.rests(Queue::DataToServer)
            && self.rests(Queue::DataToClient)
    }

    /// Nobody is to be told of an end.
    fn all_told(&self) -> bool
        ensures { result ≡ all_told (shown N.client F.server self.now) }
    {
        !self.can_end(Queue::ControlToServer)
            && !self.can_end(Queue::ControlToClient)
            && !self.can_end(Queue::DataToServer)
            && !self.can_end(Queue::DataToClient)
    }

    /// Nothing is in flight.
    pub fn is_quiet(&self) -> bool
        // Witness: `edits/octets_to_the_client_may_move_in_quiet`, `no_world_is_quiet`.
        ensures quiet { result ≡ true → IsQuiet (shown N.client F.server self.now) }
        ensures not { IsQuiet (shown N.client F.server self.now) → result ≡ true }
    {
        self.passes()
    }

    /// All that a quiet world is asked.
    fn passes(&self) -> bool
        ensures { result ≡ is_quiet (shown N.client F.server self.now) }
    {
        self.all_rest() && !self.is_asked_for() && self.all_told()
    }
}
