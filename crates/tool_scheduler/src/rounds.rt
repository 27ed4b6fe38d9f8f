// The rounds: one poll, and then those who leave, a turn of each session that is ready, and the clients that came.
ghost use Rattle.std.specs.Global.{Global};
ghost use Rattle.std.specs.Prelude.{◌≡◌, ◌≢◌, ◌∷◌, [], ℕ, min, None, false, true};
ghost use Rattle.ftp_ports.specs.Asking.{Adds};
ghost use Rattle.tool_scheduler.specs.Order.{first_ready};
ghost use Rattle.tool_scheduler.specs.Rounds.{AreRounds, ComesMeanwhile, Gave, GoesOnTo, HaveSlots, IsRoundDone, LeavesAddress, LeavesPlace, RoundStanding};
ghost use Rattle.tool_scheduler.specs.Rounds.{Spares};
ghost use Rattle.tool_scheduler.specs.Rounds.{is_slot_taken, place_of, round_standing, told_if};
ghost use Rattle.tool_scheduler.specs.Sharing.{AreHosts, IsServed, OnlyShared, occupants_of, rules_of, shared};

use crate::listening_port::{Caller, ListeningPort};
use crate::order::TurnOrder;
use crate::rows::Rows;
use crate::session_limits::{Full, SessionLimits};
use crate::slot::{Slot, Slots, Turn, TurnResult};
use crate::stopping::StopState;
use crate::table::{Table, TakenSlot, awaits_at, crowded_in, spare_in};
use crate::waiting::{MOST_SLOTS, WaitQueue, leave_one};
use ftp_ports::TURNS;
use std::alloc::{AllocError, Global};
use std::net::{SocketAddr, TcpListener, TcpStream};
use tool_polling::{Awaits, Leaving, TimeoutReason};
use tool_sockets::monotonic_millis;

/// The most connections that are kept a moment behind their last reply; others are dropped at once.
const MOST_LEAVING: usize = 64;

/// How long a round is, in milliseconds, in which a second session of an address has its turn.
const ROUND_MILLIS: u64 = 20;

/// The most clients that are taken in one round.
const MOST_CALLERS: u32 = 16;

/// Where the door and standard input stand among those who wait, and the first slot.
const DOOR: usize = 0;

const INPUT: usize = 1;

const FIRST_SLOT: usize = 2;

/// Serves clients at a port, as many at once as the house has slots, over one tree, until the house has had its sessions or stops. Gives whether all of
/// them went well.
#[tactic(auto, using(crate::proofs::RoundLemmas::goes_rounds, crate::proofs::RoundLemmas::no_rounds, crate::proofs::RoundLemmas::rounds_begin, crate::proofs::SharingLemmas::served_none, crate::proofs::SharingLemmas::served_all, crate::proofs::SharingLemmas::served_nobody))]
pub fn serve_rounds<M: Slots>(
    alloc: Global,
    session_limits: SessionLimits,
    listener: &TcpListener,
    slots: &M,
    tree: &mut M::Tree,
) -> Result<bool, AllocError>
    // Witness of rounds: `edits/a_slot_that_is_next_has_no_turn.edit`, `one_slot_has_two_turns`, `the_order_is_not_asked`, `who_had_a_turn_is_still_ready`,
    // `an_address_has_a_second_turn_first`.
    ensures rounds { AreRounds (min session_limits.at_once 64) (M.Slot.history tree.old) (M.Slot.history tree.new) }
    // Witness of shares: `edits/a_session_that_goes_on_is_ended.edit`, `a_session_moves_to_another_slot`, `a_session_takes_the_slot_of_another`,
    // `all_addresses_count_as_one`, `a_round_is_told_of_other_addresses`.
    ensures shares { IsServed (rules_of M.begins M.starts M.Slot.takes) tree.old tree.new }
{
    let count = session_limits.at_once.min(MOST_SLOTS);
    let mut order = TurnOrder::new(alloc, count)?;
    let mut table = Table::new(alloc, count)?;
    let mut rounds = Rounds::new(alloc, session_limits, listener, slots)?;
    for _ in 0..TURNS {
        if rounds.is_over(&table) {
            break;
        }
        rounds.round(&mut order, &mut table, tree);
    }
    Ok(rounds.went_well)
}

/// All that is served, and who waits to be.
struct Rounds<'a, M: Slots> {
    session_limits: SessionLimits,
    slots: &'a M,
    listening_port: ListeningPort<'a>,
    stop: StopState,
    leaving: Vec<Leaving, Global>,
    rows: Rows,
    went_well: bool,
}

impl<'a, M: Slots> Drop for Rounds<'a, M> {
    fn drop(self) {
        let Self {
            session_limits: _,
            slots: _,
            listening_port: _,
            stop: _,
            leaving: _,
            rows: _,
            went_well: _,
        } = self;
    }
}

impl<'a, M: Slots> Rounds<'a, M> {
    /// Nobody is served yet.
    fn new(
        alloc: Global,
        session_limits: SessionLimits,
        listener: &'a TcpListener,
        slots: &'a M,
    ) -> Result<Rounds<'a, M>, AllocError> {
        let leaving = Vec::with_capacity(alloc, MOST_LEAVING)?;
        let rows = Rows::new(alloc, FIRST_SLOT + MOST_SLOTS + MOST_LEAVING)?;
        Ok(Rounds {
            session_limits,
            slots,
            listening_port: ListeningPort::new(listener),
            stop: StopState::new(session_limits.input, session_limits.finish),
            leaving,
            rows,
            went_well: true,
        })
    }

    /// Whether nobody is served, and nobody will be.
    fn is_over(&self, table: &Table<M::Slot>) -> bool {
        self.takes_nobody() && table.taken() == 0 && self.leaving.is_empty()
    }

    /// Whether no client is taken any more.
    fn takes_nobody(&self) -> bool {
        self.stop.until().is_some() || self.session_limits.sessions == Some(0)
    }

    /// One round.
    fn round(
        &mut self,
        order: &mut TurnOrder<Global>,
        table: &mut Table<M::Slot>,
        tree: &mut M::Tree,
    )
        ensures goes { (old : RoundStanding) → IsRoundDone old → old.order ≡ order.old → GoesOnTo (M.Slot.history tree.old) (M.Slot.history tree.new) old order.new }
        ensures shares { OnlyShared (rules_of M.begins M.starts M.Slot.takes) (shared tree.old table.old.slots.items) (shared tree.new table.new.slots.items) }
    {
        self.stop_some(table);
        self.await_all(table);
        self.rows.poll();
        self.look_for_stop();
        self.let_go();
        self.turns(order, table, tree);
        self.welcome_all(table, tree);
    }

    /// Looks whether the server is to stop, by the end of standard input or by a request.
    fn look_for_stop(&mut self) {
        let now = self.rows.now();
        if self.rows.is_told(INPUT) {
            self.stop = self.stop.read_input(now);
        }
        if self.stop.looks(now) {
            self.stop = self.stop.hear(self.slots.stop_request(), now);
        }
    }

    /// Where the server stops, ends each session that does nothing, and all of them once transfers may go on no longer.
    fn stop_some(&self, table: &Table<M::Slot>) {
        let Some(until) = self.stop.until() else {
            return;
        };
        let is_late = until <= self.rows.now();
        for place in 0..table.count() {
            if let Some(taken) = table.at(place) {
                if is_late || !taken.session.is_busy() {
                    taken.session.timeouts().end(TimeoutReason::Stopped);
                }
            }
        }
    }

    /// Puts together what all wait for.
    fn await_all(&mut self, table: &Table<M::Slot>) {
        let at_door = self.door_awaits(table);
        self.rows.clear();
        self.rows.add(at_door);
        let at_input = self.stop.awaits(self.rows.now());
        self.rows.add(at_input);
        for place in 0..table.count() {
            let awaits = awaits_at(table, place);
            self.rows.add(awaits);
        }
        for leaving in self.leaving.iter() {
            self.rows.add(leaving.awaits());
        }
    }

    /// What is waited for at the door: clients that may be taken; of one who serves one at a time, beside a session, that another client waits.
    fn door_awaits(&self, table: &Table<M::Slot>) -> Awaits {
        let is_looked_at = match self.only_one(table) {
            Some(taken) => !taken.session.timeouts().is_waited(),
            None => !self.takes_nobody(),
        };
        if is_looked_at {
            self.listening_port.awaits(self.rows.now())
        } else {
            Awaits::nothing()
        }
    }

    /// The session beside which others wait at the door, of one who serves one at a time.
    fn only_one<'t>(&self, table: &'t Table<M::Slot>) -> Option<&'t TakenSlot<M::Slot>> {
        if self.session_limits.at_once == 1 {
            table.at(0)
        } else {
            None
        }
    }

    /// Lets go what is over of those who leave.
    fn let_go(&mut self) {
        self.leaving.retain_mut(|leaving| leaving.stays());
    }

    /// A turn of one session of each address, of those that are ready; and then, while the round is short, of the others. Of those whose next turn may hash a
    /// password only one is ready.
    #[tactic(auto, using(crate::proofs::RoundLemmas::taken_one))]
    fn turns(
        &mut self,
        order: &mut TurnOrder<Global>,
        table: &mut Table<M::Slot>,
        tree: &mut M::Tree,
    )
        ensures goes { (old : RoundStanding) → IsRoundDone old → old.order ≡ order.old → GoesOnTo (M.Slot.history tree.old) (M.Slot.history tree.new) old order.new }
        ensures shares { OnlyShared (rules_of M.begins M.starts M.Slot.takes) (shared tree.old table.old.slots.items) (shared tree.new table.new.slots.items) }
    {
        let mut ready = self.ready(table);
        let hashing = hashing(table);
        leave_one(order, &hashing, &mut ready);
        let hosts = hosts(table);
        self.slots.begin_round(&ready, &hosts, tree);
        let mut waiting = WaitQueue {
            first: ready,
            ready,
            hosts,
        };
        self.first_turns(order, &mut waiting, table, tree);
        self.other_turns(order, &mut waiting, table, tree);
    }

    /// A turn of one session of each address.
    #[tactic(auto, using(crate::proofs::RoundLemmas::comes_nothing, crate::proofs::SharingLemmas::shares_nothing))]
    fn first_turns(
        &mut self,
        order: &mut TurnOrder<Global>,
        waiting: &mut WaitQueue,
        table: &mut Table<M::Slot>,
        tree: &mut M::Tree,
    )
        requires first { HaveSlots waiting.old.first table.old.slots.items }
        requires ready { HaveSlots waiting.old.ready table.old.slots.items }
        ensures told { ComesMeanwhile (M.Slot.history tree.old) (M.Slot.history tree.new)
            (round_standing waiting.old order.old false) (round_standing waiting.new order.new false) }
        ensures done { first_ready waiting.new.first order.new ≡ None }
        ensures taken { HaveSlots waiting.new.ready table.new.slots.items }
        ensures shares { OnlyShared (rules_of M.begins M.starts M.Slot.takes) (shared tree.old table.old.slots.items) (shared tree.new table.new.slots.items) }
    {
        while let Some(place) = order.take(&waiting.first) {
            self.give(place, waiting, table, tree);
        }
    }

    /// Turns of the others, until the round is long. Who is ready after that has a turn in the next one.
    #[tactic(auto, using(crate::proofs::RoundLemmas::others_begin, crate::proofs::RoundLemmas::others_go, crate::proofs::SharingLemmas::shares_nothing))]
    fn other_turns(
        &mut self,
        order: &mut TurnOrder<Global>,
        waiting: &mut WaitQueue,
        table: &mut Table<M::Slot>,
        tree: &mut M::Tree,
    )
        requires done { first_ready waiting.old.first order.old ≡ None }
        requires ready { HaveSlots waiting.old.ready table.old.slots.items }
        ensures goes { GoesOnTo (M.Slot.history tree.old) (M.Slot.history tree.new) (round_standing waiting.old order.old false) order.new }
        ensures shares { OnlyShared (rules_of M.begins M.starts M.Slot.takes) (shared tree.old table.old.slots.items) (shared tree.new table.new.slots.items) }
    {
        let until = self.rows.now().saturating_add(ROUND_MILLIS);
        for _ in 0..MOST_SLOTS {
            if until <= monotonic_millis() {
                return;
            }
            let Some(place) = order.take(&waiting.ready) else {
                return;
            };
            self.give(place, waiting, table, tree);
        }
    }

    /// A turn of one that is ready, in order.
    #[tactic(auto, using(crate::proofs::RoundLemmas::taken_place, crate::proofs::RoundLemmas::taken_address, crate::proofs::RoundLemmas::told_taken))]
    fn give(
        &mut self,
        place: usize,
        waiting: &mut WaitQueue,
        table: &mut Table<M::Slot>,
        tree: &mut M::Tree,
    )
        requires { is_slot_taken table.old.slots.items place ≡ true }
        ensures told { Adds (M.Slot.history tree.old) (M.Slot.history tree.new) (Gave place ∷ []) }
        ensures first { LeavesAddress waiting.old.hosts place waiting.old.first waiting.new.first }
        ensures ready { LeavesPlace place waiting.old.ready waiting.new.ready }
        ensures hosts { waiting.new.hosts ≡ waiting.old.hosts }
        ensures taken { HaveSlots waiting.old.ready table.old.slots.items → HaveSlots waiting.new.ready table.new.slots.items }
        ensures taken_first { HaveSlots waiting.old.first table.old.slots.items → HaveSlots waiting.new.first table.new.slots.items }
        ensures shares { OnlyShared (rules_of M.begins M.starts M.Slot.takes) (shared tree.old table.old.slots.items) (shared tree.new table.new.slots.items) }
    {
        waiting.had_turn(place);
        self.turn(Turn::Next(place), table, tree);
    }

    /// Who is ready.
    fn ready(&self, table: &Table<M::Slot>) -> [bool; MOST_SLOTS]
        ensures { HaveSlots result table.now.slots.items }
    {
        let mut ready = [false; MOST_SLOTS];
        for place in 0..MOST_SLOTS {
            ready[place] = self.is_ready(table, place);
        }
        ready
    }

    /// Whether a session goes on.
    fn is_ready(&self, table: &Table<M::Slot>, place: usize) -> bool
        ensures { result ≡ true → is_slot_taken table.now.slots.items place ≡ true }
    {
        let Some(taken) = table.at(place) else {
            return false;
        };
        if let TurnResult::More = taken.course {
            return true;
        }
        taken.session.awaits().until <= self.rows.now()
            || self.rows.is_told(FIRST_SLOT.saturating_add(place))
            || taken.session.timeouts().left() == Some(0)
    }

    /// A turn of the session in a slot; that is free where it is over.
    fn turn(&mut self, turn: Turn, table: &mut Table<M::Slot>, tree: &mut M::Tree)
        ensures told { Adds (M.Slot.history tree.old) (M.Slot.history tree.new)
            (told_if (is_slot_taken table.old.slots.items (place_of turn)) turn) }
        ensures others { (other : ℕ) → other ≢ place_of turn
            → is_slot_taken table.new.slots.items other ≡ is_slot_taken table.old.slots.items other }
        ensures shares { OnlyShared (rules_of M.begins M.starts M.Slot.takes) (shared tree.old table.old.slots.items) (shared tree.new table.new.slots.items) }
    {
        let place = turn.place();
        let told = self.rows.take(FIRST_SLOT.saturating_add(place));
        let Some(mut taken) = table.free(place) else {
            return;
        };
        taken.course = taken.session.turn(turn, told, tree);
        match taken.course {
            TurnResult::Over => self.leave(taken),
            TurnResult::Later | TurnResult::More => table.put(place, taken),
        }
    }

    /// A session is over. A session is large, and a function pays at each call for the room of all that it may hold: so this one, which drops one, and
    /// `slot`, which makes one, are no part of a turn and of a round.
    #[inline(never)]
    fn leave(&mut self, taken: TakenSlot<M::Slot>) {
        let mut taken = taken;
        let (leaving, went_well) = taken.session.leave();
        self.went_well &= went_well;
        self.keep(leaving);
    }

    /// Keeps connections a moment behind their last reply, where any stays.
    fn keep(&mut self, leaving: Leaving) {
        let mut leaving = leaving;
        if self.leaving.len() < MOST_LEAVING && leaving.stays() {
            let _kept = self.leaving.push(leaving);
        }
    }

    /// Takes the clients that came.
    #[tactic(auto, using(crate::proofs::RoundLemmas::spares_nothing, crate::proofs::RoundLemmas::spares_then, crate::proofs::RoundLemmas::spares_one, crate::proofs::SharingLemmas::shares_nothing, crate::proofs::SharingLemmas::shares_then))]
    fn welcome_all(&mut self, table: &mut Table<M::Slot>, tree: &mut M::Tree)
        ensures spares { Spares (M.Slot.history tree.old) (M.Slot.history tree.new) }
        ensures shares { OnlyShared (rules_of M.begins M.starts M.Slot.takes) (shared tree.old table.old.slots.items) (shared tree.new table.new.slots.items) }
    {
        if !self.rows.is_told(DOOR) {
            return;
        }
        if let Some(taken) = self.only_one(table) {
            taken.session.timeouts().others_wait();
        }
        for _ in 0..MOST_CALLERS {
            if self.takes_nobody() || self.only_one(table).is_some() {
                return;
            }
            match self.listening_port.next() {
                Caller::Nobody => return,
                Caller::Failed(error) => self.slots.none_came(error),
                Caller::Client(stream, peer) => self.welcome(stream, peer, table, tree),
            }
        }
    }

    /// A client came. Where there is no slot for it, another session is ended, if one may be.
    #[tactic(auto, using(crate::proofs::RoundLemmas::spares_nothing, crate::proofs::RoundLemmas::spares_then, crate::proofs::RoundLemmas::spares_one, crate::proofs::SharingLemmas::shares_nothing, crate::proofs::SharingLemmas::shares_then))]
    fn welcome(
        &mut self,
        stream: TcpStream,
        peer: SocketAddr,
        table: &mut Table<M::Slot>,
        tree: &mut M::Tree,
    )
        ensures spares { Spares (M.Slot.history tree.old) (M.Slot.history tree.new) }
        ensures shares { OnlyShared (rules_of M.begins M.starts M.Slot.takes) (shared tree.old table.old.slots.items) (shared tree.new table.new.slots.items) }
    {
        let host = self.slots.host(peer);
        self.make_room(host, table, tree);
        match self.full(table, host) {
            None => self.slot(stream, peer, table, tree),
            Some(why) => self.turn_away(stream, peer, why),
        }
    }

    /// Where there is no slot for a client, ends another session, if one may be.
    #[tactic(auto, using(crate::proofs::RoundLemmas::spares_nothing, crate::proofs::RoundLemmas::spares_then, crate::proofs::RoundLemmas::spares_one, crate::proofs::SharingLemmas::shares_nothing, crate::proofs::SharingLemmas::shares_then))]
    fn make_room(&mut self, host: u128, table: &mut Table<M::Slot>, tree: &mut M::Tree)
        ensures spares { Spares (M.Slot.history tree.old) (M.Slot.history tree.new) }
        ensures shares { OnlyShared (rules_of M.begins M.starts M.Slot.takes) (shared tree.old table.old.slots.items) (shared tree.new table.new.slots.items) }
    {
        let Some(why) = self.full(table, host) else {
            return;
        };
        self.spare(why, host, table, tree);
    }

    /// Why there is no slot for a client that counts as this one.
    fn full(&self, table: &Table<M::Slot>, host: u128) -> Option<Full> {
        self.session_limits.full(table.taken(), table.of_host(host))
    }

    /// Ends the session that might be ended for another client, if there is one.
    #[tactic(auto, using(crate::proofs::RoundLemmas::spares_nothing, crate::proofs::RoundLemmas::spares_then, crate::proofs::RoundLemmas::spares_one, crate::proofs::SharingLemmas::shares_nothing, crate::proofs::SharingLemmas::shares_then))]
    fn spare(&mut self, why: Full, host: u128, table: &mut Table<M::Slot>, tree: &mut M::Tree)
        ensures spares { Spares (M.Slot.history tree.old) (M.Slot.history tree.new) }
        ensures shares { OnlyShared (rules_of M.begins M.starts M.Slot.takes) (shared tree.old table.old.slots.items) (shared tree.new table.new.slots.items) }
    {
        if let Some((place, over)) = spared(table, why, host) {
            if let Some(taken) = table.at(place) {
                taken.session.timeouts().end(over);
            }
            self.turn(Turn::Last(place), table, tree);
        }
    }

    /// Slots a client; one that could not be in a slot counts as a session that failed.
    #[inline(never)]
    #[tactic(auto, using(crate::proofs::SharingLemmas::shares_nothing, crate::proofs::SharingLemmas::shares_seat))]
    fn slot(
        &mut self,
        stream: TcpStream,
        peer: SocketAddr,
        table: &mut Table<M::Slot>,
        tree: &M::Tree,
    )
        ensures { OnlyShared (rules_of M.begins M.starts M.Slot.takes) (shared tree.now table.old.slots.items) (shared tree.now table.new.slots.items) }
    {
        self.session_limits.sessions = self
            .session_limits
            .sessions
            .map(|count| count.saturating_sub(1));
        match self.slots.slot(stream, peer, tree) {
            Some(session) => table.take(session, self.slots.host(peer)),
            None => self.went_well = false,
        }
    }

    /// Tells a client that there is no slot.
    fn turn_away(&mut self, stream: TcpStream, peer: SocketAddr, why: Full) {
        if let Some(line) = self.slots.turn_away(stream, peer, why) {
            self.keep(Leaving::new(Some(line), None));
        }
    }
}

/// Whose next turn may hash a password.
fn hashing<T, S: Slot<T>>(table: &Table<S>) -> [bool; MOST_SLOTS] {
    let mut hashing = [false; MOST_SLOTS];
    for (place, hashes) in hashing.iter_mut().enumerate() {
        if let Some(taken) = table.at(place) {
            *hashes = taken.session.may_hash();
        }
    }
    hashing
}

/// As whom the client in each slot counts.
fn hosts<S: Drop>(table: &Table<S>) -> [u128; MOST_SLOTS]
    ensures { AreHosts result (occupants_of table.now.slots.items) }
{
    let mut hosts = [0; MOST_SLOTS];
    for place in 0..MOST_SLOTS {
        hosts[place] = table.host_at(place);
    }
    hosts
}

/// The session that might be ended for another client for the longest time, and why: of those from its address, where that has too many. Where there is
/// none, and its address has no slot, one of the address that has the most.
fn spared<T, S: Slot<T>>(
    table: &Table<S>,
    why: Full,
    host: u128,
) -> Option<(usize, TimeoutReason)> {
    if let Full::Host = why {
        return spare_in(table, Some(host));
    }
    match spare_in(table, None) {
        Some(spare) => Some(spare),
        None if table.of_host(host) == 0 => crowded_in(table),
        None => None,
    }
}
