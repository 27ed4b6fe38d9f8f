// The first octets of a queue are offered to its receiver.
ghost use Rattle.std.specs.Prelude.{◌≡◌, ◌≤◌, vec_capacity};
ghost use Rattle.ftp_server_model.specs.Machine.{Reading, IsReading};
ghost use Rattle.laws_world.specs.Events.{pushed, taking, Takes, ControlToServer, ControlToClient, DataToServer, DataToClient};
ghost use Rattle.ftp_pair_events.specs.events.Calm.{Counted};
ghost use Rattle.ftp_pair_events.specs.events.Shown.{shown, Calmly, HasRoom, queue_of};

use crate::events::counts::{both_stay, count_on, stays};
use crate::events::parts::Parts;
use crate::queues::Queue;
use ftp_client_model::Near;
use ftp_server_model::SureFar;
use ftp_tree::Tree;
use std::alloc::Allocator;

impl<A: Allocator + Copy, T: Tree<A>, N: Near<A>, F: SureFar<A, T>> Parts<A, T, N, F> {
    pub(crate) fn push_control_to_client(&mut self, most: usize) -> usize
        requires room { most ≤ vec_capacity self.old.taken.octets }
        ensures moved { Calmly self.old self.new ((read : Reading) → IsReading read → shown N.client F.server self.new ≡ pushed read ControlToClient result (taking ControlToClient result (shown N.client F.server self.old))) }
        ensures report { HasRoom N.client self.old → HasRoom N.client self.new }
        ensures takes { Calmly self.old self.new ((read : Reading) → IsReading read → Takes read ControlToClient most (shown N.client F.server self.old) result) }
        ensures counted { Counted 3 N.client F.server self.old self.new }
    {
        let refusals = self.near.refusals();
        let taken = self.near.hear(self.control_to_client.front(most));
        self.taken.take_front(&mut self.control_to_client, taken);
        self.calm = stays(self.calm, refusals, self.near.refusals());
        taken
    }

    #[tactic(auto, using(crate::proofs::events::Taking::heard_front))]
    pub(crate) fn push_control_to_server(&mut self, most: usize) -> usize
        requires room { most ≤ vec_capacity self.old.taken.octets }
        ensures moved { Calmly self.old self.new ((read : Reading) → IsReading read → shown N.client F.server self.new ≡ pushed read ControlToServer result (taking ControlToServer result (shown N.client F.server self.old))) }
        ensures report { HasRoom N.client self.old → HasRoom N.client self.new }
        ensures takes { Calmly self.old self.new ((read : Reading) → IsReading read → Takes read ControlToServer most (shown N.client F.server self.old) result) }
        ensures counted { Counted 3 N.client F.server self.old self.new }
    {
        let counts = self.far_counts();
        let taken = self.far.hear(self.control_to_server.front(most));
        self.taken.take_front(&mut self.control_to_server, taken);
        self.calm = both_stay(self.calm, counts, self.far_counts());
        taken
    }

    pub(crate) fn push_data_to_client(&mut self, most: usize) -> usize
        requires room { most ≤ vec_capacity self.old.taken.octets }
        ensures moved { Calmly self.old self.new ((read : Reading) → IsReading read → shown N.client F.server self.new ≡ pushed read DataToClient result (taking DataToClient result (shown N.client F.server self.old))) }
        ensures report { HasRoom N.client self.old → HasRoom N.client self.new }
        ensures takes { Calmly self.old self.new ((read : Reading) → IsReading read → Takes read DataToClient most (shown N.client F.server self.old) result) }
        ensures counted { Counted 3 N.client F.server self.old self.new }
    {
        let refusals = self.near.refusals();
        let taken = self.near.data_hear(self.data_to_client.front(most));
        self.taken.take_front(&mut self.data_to_client, taken);
        self.came = count_on(self.came, taken);
        self.calm = stays(self.calm, refusals, self.near.refusals());
        taken
    }

    #[tactic(auto, using(crate::proofs::events::Taking::heard_front))]
    pub(crate) fn push_data_to_server(&mut self, most: usize) -> usize
        requires room { most ≤ vec_capacity self.old.taken.octets }
        ensures moved { Calmly self.old self.new ((read : Reading) → IsReading read → shown N.client F.server self.new ≡ pushed read DataToServer result (taking DataToServer result (shown N.client F.server self.old))) }
        ensures report { HasRoom N.client self.old → HasRoom N.client self.new }
        ensures takes { Calmly self.old self.new ((read : Reading) → IsReading read → Takes read DataToServer most (shown N.client F.server self.old) result) }
        ensures counted { Counted 3 N.client F.server self.old self.new }
    {
        let counts = self.far_counts();
        let taken = self.far.data_hear(self.data_to_server.front(most));
        self.taken.take_front(&mut self.data_to_server, taken);
        self.came = count_on(self.came, taken);
        self.calm = both_stay(self.calm, counts, self.far_counts());
        taken
    }

    /// The first octets of a queue, so many at most, are offered to its receiver.
    pub(crate) fn push(&mut self, queue: Queue, most: usize) -> usize
        requires room { most ≤ vec_capacity self.old.taken.octets }
        ensures moved { Calmly self.old self.new ((read : Reading) → IsReading read → shown N.client F.server self.new ≡ pushed read (queue_of queue) result (taking (queue_of queue) result (shown N.client F.server self.old))) }
        ensures takes { Calmly self.old self.new ((read : Reading) → IsReading read → Takes read (queue_of queue) most (shown N.client F.server self.old) result) }
        ensures report { HasRoom N.client self.old → HasRoom N.client self.new }
        ensures counted { Counted 3 N.client F.server self.old self.new }
    {
        match queue {
            Queue::ControlToServer => self.push_control_to_server(most),
            Queue::ControlToClient => self.push_control_to_client(most),
            Queue::DataToServer => self.push_data_to_server(most),
            Queue::DataToClient => self.push_data_to_client(most),
        }
    }
}
