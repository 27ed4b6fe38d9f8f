// One output call of a sender fills its queue.
ghost use Rattle.std.specs.Prelude.{◌≡◌, ◌+◌, ◌≤◌, vec_len, vec_capacity};
ghost use Rattle.laws_world.specs.Events.{pulled, due, Gives, ControlToServer, ControlToClient, DataToServer, DataToClient};
ghost use Rattle.ftp_pair_events.specs.events.Calm.{Counted};
ghost use Rattle.ftp_pair_events.specs.events.Shown.{shown, Calmly, HasRoom, queue_of, len_of, queue_room_of};

use crate::events::counts::{both_stay, stays};
use crate::events::parts::Parts;
use crate::queues::{Queue, ROOM};
use ftp_client_model::Near;
use ftp_server_model::SureFar;
use ftp_tree::Tree;
use std::alloc::Allocator;

impl<A: Allocator + Copy, T: Tree<A>, N: Near<A>, F: SureFar<A, T>> Parts<A, T, N, F> {
    #[tactic(auto, using(crate::proofs::events::Busy::control_out_busy))]
    pub(crate) fn pull_control_to_server(&mut self, most: usize) -> usize
        requires few { most ≤ 4096 }
        requires room { vec_len self.old.control_to_server.octets + most ≤ vec_capacity self.old.control_to_server.octets }
        ensures moved { Calmly self.old self.new (shown N.client F.server self.new ≡ pulled ControlToServer (shown N.client F.server self.old) result) }
        ensures gives { Gives most (due ControlToServer (shown N.client F.server self.old)) result }
        ensures within { result ≤ most }
        ensures taken { self.new.taken ≡ self.old.taken }
        ensures report { HasRoom N.client self.old → HasRoom N.client self.new }
        ensures len { vec_len self.new.control_to_server.octets ≡ vec_len self.old.control_to_server.octets + result }
        ensures room { vec_capacity self.old.control_to_server.octets ≤ vec_capacity self.new.control_to_server.octets }
        ensures counted { Counted 3 N.client F.server self.old self.new }
    {
        let mut octets = [0u8; ROOM];
        let room = &mut octets[..most];
        let given = self.near.control_out(room);
        self.control_to_server.append(&room[..given]);
        given
    }

    #[tactic(auto, unfolding(ftp_server_model::specs::Calls::gives_control))]
    pub(crate) fn pull_control_to_client(&mut self, most: usize) -> usize
        requires few { most ≤ 4096 }
        requires room { vec_len self.old.control_to_client.octets + most ≤ vec_capacity self.old.control_to_client.octets }
        ensures moved { Calmly self.old self.new (shown N.client F.server self.new ≡ pulled ControlToClient (shown N.client F.server self.old) result) }
        ensures gives { Gives most (due ControlToClient (shown N.client F.server self.old)) result }
        ensures within { result ≤ most }
        ensures taken { self.new.taken ≡ self.old.taken }
        ensures report { HasRoom N.client self.old → HasRoom N.client self.new }
        ensures len { vec_len self.new.control_to_client.octets ≡ vec_len self.old.control_to_client.octets + result }
        ensures room { vec_capacity self.old.control_to_client.octets ≤ vec_capacity self.new.control_to_client.octets }
        ensures counted { Counted 3 N.client F.server self.old self.new }
    {
        let mut octets = [0u8; ROOM];
        let room = &mut octets[..most];
        let counts = self.far_counts();
        let given = self.far.control_out(room);
        self.control_to_client.append(&room[..given]);
        self.calm = both_stay(self.calm, counts, self.far_counts());
        given
    }

    #[tactic(auto, using(crate::proofs::events::Busy::data_out_busy))]
    pub(crate) fn pull_data_to_server(&mut self, most: usize) -> usize
        requires few { most ≤ 4096 }
        requires room { vec_len self.old.data_to_server.octets + most ≤ vec_capacity self.old.data_to_server.octets }
        ensures moved { Calmly self.old self.new (shown N.client F.server self.new ≡ pulled DataToServer (shown N.client F.server self.old) result) }
        ensures gives { Gives most (due DataToServer (shown N.client F.server self.old)) result }
        ensures within { result ≤ most }
        ensures taken { self.new.taken ≡ self.old.taken }
        ensures report { HasRoom N.client self.old → HasRoom N.client self.new }
        ensures len { vec_len self.new.data_to_server.octets ≡ vec_len self.old.data_to_server.octets + result }
        ensures room { vec_capacity self.old.data_to_server.octets ≤ vec_capacity self.new.data_to_server.octets }
        ensures counted { Counted 3 N.client F.server self.old self.new }
    {
        let mut octets = [0u8; ROOM];
        let room = &mut octets[..most];
        let refusals = self.near.refusals();
        let given = self.near.data_out(room);
        self.data_to_server.append(&room[..given]);
        self.calm = stays(self.calm, refusals, self.near.refusals());
        given
    }

    #[tactic(auto, unfolding(ftp_server_model::specs::Calls::gives_data))]
    pub(crate) fn pull_data_to_client(&mut self, most: usize) -> usize
        requires few { most ≤ 4096 }
        requires room { vec_len self.old.data_to_client.octets + most ≤ vec_capacity self.old.data_to_client.octets }
        ensures moved { Calmly self.old self.new (shown N.client F.server self.new ≡ pulled DataToClient (shown N.client F.server self.old) result) }
        ensures gives { Calmly self.old self.new (Gives most (due DataToClient (shown N.client F.server self.old)) result) }
        ensures within { result ≤ most }
        ensures taken { self.new.taken ≡ self.old.taken }
        ensures report { HasRoom N.client self.old → HasRoom N.client self.new }
        ensures len { vec_len self.new.data_to_client.octets ≡ vec_len self.old.data_to_client.octets + result }
        ensures room { vec_capacity self.old.data_to_client.octets ≤ vec_capacity self.new.data_to_client.octets }
        ensures counted { Counted 3 N.client F.server self.old self.new }
    {
        let mut octets = [0u8; ROOM];
        let room = &mut octets[..most];
        let counts = self.far_counts();
        let given = self.far.data_out(room);
        self.data_to_client.append(&room[..given]);
        self.calm = both_stay(self.calm, counts, self.far_counts());
        given
    }

    /// One output call of the sender, for a queue with so much room.
    pub(crate) fn pull(&mut self, queue: Queue, most: usize) -> usize
        requires few { most ≤ 4096 }
        requires room { len_of queue self.old + most ≤ queue_room_of queue self.old }
        ensures moved { Calmly self.old self.new (shown N.client F.server self.new ≡ pulled (queue_of queue) (shown N.client F.server self.old) result) }
        ensures gives { Calmly self.old self.new (Gives most (due (queue_of queue) (shown N.client F.server self.old)) result) }
        ensures within { result ≤ most }
        ensures taken { self.new.taken ≡ self.old.taken }
        ensures report { HasRoom N.client self.old → HasRoom N.client self.new }
        ensures len { len_of queue self.new ≡ len_of queue self.old + result }
        ensures room { queue_room_of queue self.old ≤ queue_room_of queue self.new }
        ensures counted { Counted 3 N.client F.server self.old self.new }
    {
        match queue {
            Queue::ControlToServer => self.pull_control_to_server(most),
            Queue::ControlToClient => self.pull_control_to_client(most),
            Queue::DataToServer => self.pull_data_to_server(most),
            Queue::DataToClient => self.pull_data_to_client(most),
        }
    }
}
