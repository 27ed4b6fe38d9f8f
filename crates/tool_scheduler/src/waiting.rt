// Who waits for a turn in a round.
ghost use Rattle.std.specs.Prelude.{◌≡◌, ℕ, eqb, not, ◌&&◌};
ghost use Rattle.std.specs.Global.{Global};
ghost use Rattle.tool_scheduler.specs.Order.{LeavesOne, is_let, is_ready};
ghost use Rattle.tool_scheduler.specs.Rounds.{LeavesAddress, LeavesPlace, host_in};

use crate::order::{TurnOrder, is_ready};
use std::alloc::Global;

/// The most slots.
pub(crate) const MOST_SLOTS: usize = 64;

/// Who waits for a turn in a round.
#[derive(Clone, Copy)]
pub(crate) struct WaitQueue {
    /// The sessions that are ready, and of whose address none had a turn.
    pub(crate) first: [bool; MOST_SLOTS],
    /// The sessions that are ready and had none themselves.
    pub(crate) ready: [bool; MOST_SLOTS],
    /// As whom the client of each counts.
    pub(crate) hosts: [u128; MOST_SLOTS],
}

impl WaitQueue {
    /// One of them had a turn.
    pub(crate) fn had_turn(&mut self, place: usize)
        ensures first { LeavesAddress self.old.hosts place self.old.first self.new.first }
        ensures ready { LeavesPlace place self.old.ready self.new.ready }
        ensures hosts { self.new.hosts ≡ self.old.hosts }
    {
        let host = host_at(&self.hosts, place);
        unset_host(&self.hosts, host, &mut self.first);
        unset(&mut self.ready, place);
    }
}

/// Of the sessions that are ready and may hash a password in their next turn only the one whose last turn is the oldest stays ready.
pub(crate) fn leave_one(
    order: &TurnOrder<Global>,
    hashing: &[bool; MOST_SLOTS],
    ready: &mut [bool; MOST_SLOTS],
)
    ensures { LeavesOne hashing.now order.now ready.old ready.new }
{
    let first = order.first_hashing(ready, hashing);
    leave_first(hashing, first, ready);
}

/// Of those that may hash a password only this one stays ready.
fn leave_first(hashing: &[bool; MOST_SLOTS], first: Option<usize>, ready: &mut [bool; MOST_SLOTS])
    ensures { (other : ℕ) → is_ready ready.new other ≡ is_ready ready.old other && is_let hashing.now first other }
{
    for other in 0..MOST_SLOTS {
        ready[other] = stays(ready[other], hashing, first, other);
    }
}

/// Whether one is ready and may have a turn.
fn stays(is_ready: bool, hashing: &[bool], first: Option<usize>, place: usize) -> bool
    ensures { result ≡ is_ready && is_let hashing.now first place }
{
    is_ready && is_let(hashing, first, place)
}

/// Whether one may have a turn: who may hash a password only where it is the first.
fn is_let(hashing: &[bool], first: Option<usize>, place: usize) -> bool
    ensures { result ≡ is_let hashing.now first place }
{
    match first {
        Some(first) => !is_ready(hashing, place) || place == first,
        None => !is_ready(hashing, place),
    }
}

/// As whom the client in a place counts.
fn host_at(hosts: &[u128], place: usize) -> u128
    ensures { result ≡ host_in hosts.now place }
{
    hosts.get(place).copied().unwrap_or(0)
}

/// None that counts as this one is ready.
fn unset_host(hosts: &[u128; MOST_SLOTS], host: u128, ready: &mut [bool; MOST_SLOTS])
    ensures { (other : ℕ) → is_ready ready.new other ≡ is_ready ready.old other && not (eqb (host_in hosts.now other) host) }
{
    for other in 0..MOST_SLOTS {
        ready[other] = is_left(ready[other], hosts, other, host);
    }
}

/// A place is not ready.
fn unset(ready: &mut [bool; MOST_SLOTS], place: usize)
    ensures { LeavesPlace place ready.old ready.new }
{
    for other in 0..MOST_SLOTS {
        ready[other] = is_other(ready[other], other, place);
    }
}

/// Whether one is ready and counts as another one than this.
fn is_left(is_ready: bool, hosts: &[u128], one: usize, gone: u128) -> bool
    ensures { result ≡ is_ready && not (eqb (host_in hosts.now one) gone) }
{
    is_ready && host_at(hosts, one) != gone
}

/// Whether one is ready and another one than this.
fn is_other(is_ready: bool, one: usize, gone: usize) -> bool
    ensures { result ≡ is_ready && not (eqb one gone) }
{
    is_ready && one != gone
}
