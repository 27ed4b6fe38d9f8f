// The end of the control connection, and ends that are told that the other has closed.
ghost use Rattle.std.specs.Prelude.{◌≡◌, ◌<◌, false};
ghost use Rattle.laws_world.specs.Events.{Happens, EndControl, End, DataToServer, DataToClient, ends_control, told, is_closed, can_happen, lends_none};
ghost use Rattle.ftp_pair_events.specs.events.Calm.{Counted};
ghost use Rattle.ftp_pair_events.specs.events.Shown.{shown, Calmly, HasRoom, Steps, queue_of};

use crate::events::counts::{both_stay, stays};
use crate::events::parts::Parts;
use crate::queues::{Control, Link, Queue};
use ftp_client_model::Near;
use ftp_server_model::SureFar;
use ftp_tree::Tree;
use std::alloc::Allocator;

impl<A: Allocator + Copy, T: Tree<A>, N: Near<A>, F: SureFar<A, T>> Parts<A, T, N, F> {
    /// The control connection ends; it answers whether an end was on it. Takes no memory.
    pub(crate) fn step_end_control(&mut self) -> bool
        requires report { HasRoom N.client self.old }
        ensures does { Steps self.old.calm self.new.calm (λ read. Happens read EndControl (shown N.client F.server self.old) result (shown N.client F.server self.new)) }
        ensures possible { result ≡ can_happen EndControl (shown N.client F.server self.old) }
        ensures idle { result ≡ false → (shown N.client F.server self.new ≡ shown N.client F.server self.old) × (self.new.calm ≡ self.old.calm) }
        ensures report { HasRoom N.client self.new }
        ensures counted { Counted 24 N.client F.server self.old self.new }
    {
        if !self.is_joined() {
            return false;
        }
        self.lend_none();
        self.end_control();
        self.finish();
        true
    }

    /// An end is on the control connection.
    fn is_joined(&self) -> bool
        ensures { result ≡ can_happen EndControl (shown N.client F.server self.now) }
    {
        !matches!(self.control, Control::Parted)
    }

    /// Both ends are told that the control connection ended.
    #[tactic(auto, using(crate::proofs::events::Busy::control_end_busy, crate::proofs::events::Marking::length_map))]
    fn end_control(&mut self)
        ensures moved { shown N.client F.server self.new ≡ ends_control (shown N.client F.server self.old) }
        ensures calm { self.new.calm ≡ self.old.calm }
        ensures report { HasRoom N.client self.old → HasRoom N.client self.new }
        ensures counted { Counted 0 N.client F.server self.old self.new }
    {
        self.near.control_end();
        self.far.control_end();
        self.cutoff = Some(self.marks.len());
        self.part();
    }

    /// The receiver of a queue is told of its end; it answers whether it could be. Takes no memory.
    pub(crate) fn step_end(&mut self, queue: Queue) -> bool
        requires report { HasRoom N.client self.old }
        ensures does { Steps self.old.calm self.new.calm (λ read. Happens read (End (queue_of queue)) (shown N.client F.server self.old) result (shown N.client F.server self.new)) }
        ensures possible { result ≡ can_happen (End (queue_of queue)) (shown N.client F.server self.old) }
        ensures idle { result ≡ false → (shown N.client F.server self.new ≡ shown N.client F.server self.old) × (self.new.calm ≡ self.old.calm) }
        ensures report { HasRoom N.client self.new }
        ensures counted { Counted 24 N.client F.server self.old self.new }
    {
        if !self.can_end(queue) {
            return false;
        }
        self.lend_none();
        self.tell(queue);
        self.finish();
        true
    }

    /// Its receiver can be told: nothing is on its way or due.
    #[tactic(auto, using(crate::proofs::events::Filling::len_is, crate::proofs::events::Filling::is_empty))]
    pub(crate) fn can_end(&self, queue: Queue) -> bool
        ensures { result ≡ can_happen (End (queue_of queue)) (shown N.client F.server self.now) }
    {
        self.is_closed(queue) && self.len_of(queue) == 0 && !self.owes(queue)
    }

    /// The sender of a queue has closed its connection.
    fn is_closed(&self, queue: Queue) -> bool
        ensures { result ≡ is_closed (queue_of queue) (shown N.client F.server self.now) }
    {
        match queue {
            Queue::ControlToServer => matches!(self.control, Control::LeftByNear),
            Queue::ControlToClient => matches!(self.control, Control::LeftByFar),
            Queue::DataToServer => matches!(self.link, Link::ClosedByNear),
            Queue::DataToClient => matches!(self.link, Link::ClosedByFar),
        }
    }

    /// The receiver of a queue is told that its sender has closed.
    #[tactic(auto, using(crate::proofs::events::Busy::control_end_busy))]
    pub(crate) fn tell(&mut self, queue: Queue)
        ensures moved { Calmly self.old self.new (shown N.client F.server self.new ≡ told (queue_of queue) (shown N.client F.server self.old)) }
        ensures report { HasRoom N.client self.old → HasRoom N.client self.new }
        ensures counted { Counted 3 N.client F.server self.old self.new }
    {
        match queue {
            Queue::ControlToServer => self.far.control_end(),
            Queue::ControlToClient => self.near.control_end(),
            Queue::DataToServer => self.tell_data_to_server(),
            Queue::DataToClient => self.tell_data_to_client(),
        }
    }

    #[tactic(auto, unfolding(ftp_server_model::specs::Calls::data_end))]
    pub(crate) fn tell_data_to_server(&mut self)
        ensures moved { Calmly self.old self.new (shown N.client F.server self.new ≡ told DataToServer (shown N.client F.server self.old)) }
        ensures report { HasRoom N.client self.old → HasRoom N.client self.new }
        ensures counted { Counted 3 N.client F.server self.old self.new }
    {
        let counts = self.far_counts();
        self.far.data_end();
        self.calm = both_stay(self.calm, counts, self.far_counts());
        self.lose_link();
    }

    #[tactic(auto, using(crate::proofs::events::Busy::data_end_busy))]
    fn tell_data_to_client(&mut self)
        ensures moved { Calmly self.old self.new (shown N.client F.server self.new ≡ told DataToClient (shown N.client F.server self.old)) }
        ensures report { HasRoom N.client self.old → HasRoom N.client self.new }
        ensures counted { Counted 3 N.client F.server self.old self.new }
    {
        let refusals = self.near.refusals();
        self.near.data_end();
        self.calm = stays(self.calm, refusals, self.near.refusals());
        self.lose_link();
    }
}
