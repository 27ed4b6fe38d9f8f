// A delivery: a queue is filled, and its first octets are offered.
ghost use Rattle.std.specs.Prelude.{◌≡◌, ◌+◌, ◌*◌, ◌<◌, ◌≤◌, true, false, vec_capacity, IfOk, IsTrue, OnErr, OnOk};
ghost use Rattle.ftp_server_model.specs.Machine.{Reading, IsReading};
ghost use Rattle.laws_world.specs.Events.{can_happen, Deliver, Happens, filled};
ghost use Rattle.ftp_pair_events.specs.events.Calm.{Counted, tally_of};
ghost use Rattle.ftp_pair_events.specs.events.Shown.{shown, Calmly, FillsTo, HasRoom, Offers, Carries, Steps, queue_of, len_of, queue_room_of};

use crate::events::parts::Parts;
use crate::queues::{Queue, ROOM};
use ftp_client_model::Near;
use ftp_server_model::SureFar;
use ftp_tree::Tree;
use std::alloc::{AllocError, Allocator};

impl<A: Allocator + Copy, T: Tree<A>, N: Near<A>, F: SureFar<A, T>> Parts<A, T, N, F> {
    /// So many octets go over a queue; it answers whether any could. Room for them is made first.
    pub(crate) fn step_deliver(&mut self, queue: Queue, count: usize) -> Result<bool, AllocError>
        requires report { HasRoom N.client self.old }
        ensures ok { IfOk result (λ possible. Steps self.old.calm self.new.calm (λ read. Happens read (Deliver (queue_of queue) count) (shown N.client F.server self.old) possible (shown N.client F.server self.new))) }
        ensures possible { IfOk result (λ possible. possible ≡ can_happen (Deliver (queue_of queue) count) (shown N.client F.server self.old)) }
        ensures idle { IfOk result (λ possible. possible ≡ false → (shown N.client F.server self.new ≡ shown N.client F.server self.old) × (self.new.calm ≡ self.old.calm)) }
        ensures err { OnErr result ((shown N.client F.server self.new ≡ shown N.client F.server self.old) × (self.new.calm ≡ self.old.calm)) }
        ensures report { HasRoom N.client self.new }
        ensures unmoved { OnErr result (tally_of N.client F.server self.new ≡ tally_of N.client F.server self.old) }
        ensures counted { Counted (3 * (count + 8)) N.client F.server self.old self.new }
    {
        if !self.can_deliver(queue, count) {
            return Ok(false);
        }
        self.ready(queue, count)?;
        self.deliver(queue, count);
        Ok(true)
    }

    /// Whether octets of a queue can be moved or taken.
    #[tactic(auto, using(crate::proofs::events::Filling::is_empty, crate::proofs::events::Filling::len_is))]
    pub(crate) fn can_deliver(&self, queue: Queue, count: usize) -> bool
        ensures { result ≡ can_happen (Deliver (queue_of queue) count) (shown N.client F.server self.now) }
    {
        let moves = self.owes(queue) && (count == 0 || self.len_of(queue) < count);
        moves || (count != 0 && self.len_of(queue) != 0 && self.may_take(queue))
    }

    /// Room for a delivery of so many octets.
    fn ready(&mut self, queue: Queue, count: usize) -> Result<(), AllocError>
        ensures same { shown N.client F.server self.new ≡ shown N.client F.server self.old }
        ensures some { OnOk result (len_of queue self.new + 4096 ≤ queue_room_of queue self.new) }
        ensures room { OnOk result (count ≤ queue_room_of queue self.new) }
        ensures lent { OnOk result (count ≤ vec_capacity self.new.taken.octets) }
        ensures calm { self.new.calm ≡ self.old.calm }
        ensures report { HasRoom N.client self.old → HasRoom N.client self.new }
        ensures ends { tally_of N.client F.server self.new ≡ tally_of N.client F.server self.old }
        ensures counted { Counted 0 N.client F.server self.old self.new }
    {
        self.reserve_in(queue, count.max(ROOM))?;
        self.taken.reserve(count)
    }

    /// Room for so many octets more.
    fn reserve_in(&mut self, queue: Queue, count: usize) -> Result<(), AllocError>
        ensures same { shown N.client F.server self.new ≡ shown N.client F.server self.old }
        ensures ok { OnOk result (len_of queue self.new + count ≤ queue_room_of queue self.new) }
        ensures calm { self.new.calm ≡ self.old.calm }
        ensures report { HasRoom N.client self.old → HasRoom N.client self.new }
        ensures ends { tally_of N.client F.server self.new ≡ tally_of N.client F.server self.old }
        ensures counted { Counted 0 N.client F.server self.old self.new }
    {
        match queue {
            Queue::ControlToServer => self.control_to_server.reserve(count),
            Queue::ControlToClient => self.control_to_client.reserve(count),
            Queue::DataToServer => self.data_to_server.reserve(count),
            Queue::DataToClient => self.data_to_client.reserve(count),
        }
    }

    /// A delivery that is possible, and for which there is room. Takes no memory.
    #[tactic(auto, using(crate::proofs::events::Filling::same_len, crate::proofs::events::Filling::same_room))]
    pub(crate) fn deliver(&mut self, queue: Queue, count: usize)
        requires report { HasRoom N.client self.old }
        requires possible { IsTrue (can_happen (Deliver (queue_of queue) count) (shown N.client F.server self.old)) }
        requires some { count ≡ 0 → len_of queue self.old + 4096 ≤ queue_room_of queue self.old }
        requires room { count ≤ queue_room_of queue self.old }
        requires lent { count ≤ vec_capacity self.old.taken.octets }
        ensures does { Steps self.old.calm self.new.calm (λ read. Happens read (Deliver (queue_of queue) count) (shown N.client F.server self.old) true (shown N.client F.server self.new)) }
        ensures report { HasRoom N.client self.new }
        ensures counted { Counted (3 * (count + 8)) N.client F.server self.old self.new }
    {
        self.lend_none();
        self.carry(queue, count);
        self.finish();
    }

    /// Octets are moved, and offered where some are asked for.
    fn carry(&mut self, queue: Queue, count: usize)
        requires some { count ≡ 0 → len_of queue self.old + 4096 ≤ queue_room_of queue self.old }
        requires room { count ≤ queue_room_of queue self.old }
        requires lent { count ≤ vec_capacity self.old.taken.octets }
        ensures done { Calmly self.old self.new ((read : Reading) → IsReading read → Carries read (queue_of queue) count (shown N.client F.server self.old) (shown N.client F.server self.new)) }
        ensures report { HasRoom N.client self.old → HasRoom N.client self.new }
        ensures counted { Counted (3 * (count + 2)) N.client F.server self.old self.new }
    {
        if count == 0 {
            self.pull(queue, ROOM);
        } else {
            self.offer(queue, count);
        }
    }

    /// Octets, one at least, are moved and offered.
    #[tactic(auto, using(crate::proofs::events::Filling::offers))]
    fn offer(&mut self, queue: Queue, count: usize)
        requires room { count ≤ queue_room_of queue self.old }
        requires lent { count ≤ vec_capacity self.old.taken.octets }
        ensures done { Calmly self.old self.new ((read : Reading) → IsReading read → Offers read (queue_of queue) count (shown N.client F.server self.old) (shown N.client F.server self.new)) }
        ensures report { HasRoom N.client self.old → HasRoom N.client self.new }
        ensures counted { Counted (3 * (count + 2)) N.client F.server self.old self.new }
    {
        self.fill(queue, count);
        self.push(queue, count);
    }

    /// A queue is filled up to so many octets, while its sender has some.
    fn fill(&mut self, queue: Queue, count: usize)
        requires room { count ≤ queue_room_of queue self.old }
        ensures taken { self.new.taken ≡ self.old.taken }
        ensures report { HasRoom N.client self.old → HasRoom N.client self.new }
        ensures filled { Calmly self.old self.new (FillsTo (queue_of queue) count (shown N.client F.server self.old) (shown N.client F.server self.new)) }
        ensures counted { Counted (3 * (count + 1)) N.client F.server self.old self.new }
    {
        while self.len_of(queue) < count && self.owes(queue) {
            let most = (count - self.len_of(queue)).min(ROOM);
            if self.pull(queue, most) == 0 {
                return;
            }
        }
    }
}
