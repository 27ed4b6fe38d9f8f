// One turn of a world that comes to rest by itself: what is possible is found first, and then happens.
ghost use Rattle.std.specs.Prelude.{◌≡◌, ◌<◌, true, false, IfSome, IfNone, IsTrue};
ghost use Rattle.laws_world.specs.Events.{can_happen, Deliver, End, Happens};
ghost use Rattle.laws_world.specs.Still.{IsStill};
ghost use Rattle.ftp_pair_events.specs.events.Calm.{Counted, most_in};
ghost use Rattle.ftp_pair_events.specs.events.Happening.{event_of_turn, Progresses};
ghost use Rattle.ftp_pair_events.specs.events.Shown.{shown, HasRoom, NoneEnds, NoneFlows, Steps, queue_of};

use crate::events::parts::Parts;
use crate::queues::{Queue, ROOM};
use ftp_client_model::Near;
use ftp_server_model::SureFar;
use ftp_tree::Tree;
use std::alloc::Allocator;

/// What a world does by itself: as many octets of a queue as it has room for from the start are delivered, a wanted link opens, an end is told.
#[derive(Clone, Copy)]
pub enum Turn {
    Deliver(Queue),
    Open,
    End(Queue),
}

impl<A: Allocator + Copy, T: Tree<A>, N: Near<A>, F: SureFar<A, T>> Parts<A, T, N, F> {
    /// One delivery of at most 4,096 octets, opening or end happens, if one is possible; it answers whether one was. Takes no memory.
    pub fn turn(&mut self) -> bool
        requires report { HasRoom N.client self.old }
        // Witness of does, still, same: `edits/an_end_is_no_turn` (still).
        ensures does { result ≡ true → Progresses self.old.calm self.new.calm (shown N.client F.server self.old) (shown N.client F.server self.new) }
        ensures still { result ≡ false → IsStill (shown N.client F.server self.old) }
        // Witness of progresses: `edits/a_still_world_that_failed_turns`.
        ensures progresses { result ≡ true → ¬ IsStill (shown N.client F.server self.old) }
        ensures same { result ≡ false → self.new ≡ self.old }
        // Witness of counted: as that of `step`.
        ensures counted { Counted 12312 N.client F.server self.old self.new }
        // Witness of report: `World::settle` of `ftp_pair`, whose world keeps it between two calls.
        ensures report { HasRoom N.client self.new }
    {
        let Some(turn) = self.next_turn() else {
            return false;
        };
        self.take_turn(turn);
        true
    }

    /// What may happen next.
    fn next_turn(&self) -> Option<Turn>
        ensures some { IfSome result (λ turn. IsTrue (can_happen (event_of_turn turn) (shown N.client F.server self.now))) }
        ensures none { IfNone result (IsStill (shown N.client F.server self.now)) }
    {
        if let Some(queue) = self.next_delivery() {
            return Some(Turn::Deliver(queue));
        }
        if self.is_asked_for() {
            return Some(Turn::Open);
        }
        let Some(queue) = self.next_end() else {
            return None;
        };
        Some(Turn::End(queue))
    }

    /// A queue of which octets can be moved or taken.
    fn next_delivery(&self) -> Option<Queue>
        ensures some { IfSome result (λ queue. IsTrue (can_happen (Deliver (queue_of queue) 4096) (shown N.client F.server self.now))) }
        ensures none { IfNone result (NoneFlows (shown N.client F.server self.now)) }
    {
        if self.can_deliver(Queue::ControlToServer, ROOM) {
            return Some(Queue::ControlToServer);
        }
        if self.can_deliver(Queue::ControlToClient, ROOM) {
            return Some(Queue::ControlToClient);
        }
        if self.can_deliver(Queue::DataToServer, ROOM) {
            return Some(Queue::DataToServer);
        }
        if self.can_deliver(Queue::DataToClient, ROOM) {
            return Some(Queue::DataToClient);
        }
        None
    }

    /// A queue whose receiver can be told of its end.
    fn next_end(&self) -> Option<Queue>
        ensures some { IfSome result (λ queue. IsTrue (can_happen (End (queue_of queue)) (shown N.client F.server self.now))) }
        ensures none { IfNone result (NoneEnds (shown N.client F.server self.now)) }
    {
        if self.can_end(Queue::ControlToServer) {
            return Some(Queue::ControlToServer);
        }
        if self.can_end(Queue::ControlToClient) {
            return Some(Queue::ControlToClient);
        }
        if self.can_end(Queue::DataToServer) {
            return Some(Queue::DataToServer);
        }
        if self.can_end(Queue::DataToClient) {
            return Some(Queue::DataToClient);
        }
        None
    }

    /// It happens.
    #[tactic(auto, using(crate::proofs::events::Filling::roomy, crate::proofs::events::Filling::lends_some))]
    fn take_turn(&mut self, turn: Turn)
        requires report { HasRoom N.client self.old }
        requires possible { IsTrue (can_happen (event_of_turn turn) (shown N.client F.server self.old)) }
        ensures does { Steps self.old.calm self.new.calm (λ read. Happens read (event_of_turn turn) (shown N.client F.server self.old) true (shown N.client F.server self.new)) }
        ensures report { HasRoom N.client self.new }
        ensures counted { Counted (most_in (event_of_turn turn)) N.client F.server self.old self.new }
    {
        match turn {
            Turn::Deliver(queue) => self.deliver(queue, ROOM),
            Turn::Open => {
                self.step_open();
            }
            Turn::End(queue) => {
                self.step_end(queue);
            }
        }
    }
}
