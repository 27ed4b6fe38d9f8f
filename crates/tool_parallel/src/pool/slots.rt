// All control connections of a pool: which of them may take a request, which has an answer that was prefetched, and a round of their turns.
ghost use Rattle.std.specs.Prelude.{◌≡◌, take};

use crate::connection::TakesTurns;
use crate::pool::ahead::wants_login_of;
use crate::pool::poll::{found_at, is_ready, poll_all};
use crate::pool::slot::PoolSlot;
use std::alloc::Global;
use tool_session::{Request, Ticket};
use tool_sockets::monotonic_millis;

/// The most control connections at once.
pub const MOST_CONNECTIONS: usize = 8;

/// The control connections, each at its place from 0; as many as one poll has rows for.
pub(crate) struct PoolSlots<L> {
    pub(crate) list: Vec<PoolSlot<L>, Global>,
}

/// By hand: a derived drop is proved again, part by part, wherever they are let go.
impl<L: Drop> Drop for PoolSlots<L> {
    fn drop(self) {
        let Self { list: _ } = self;
    }
}

impl<L: TakesTurns + Drop> PoolSlots<L> {
    /// The first of these, of which nothing is asked; others are closed.
    pub(crate) fn new(list: Vec<PoolSlot<L>, Global>) -> PoolSlots<L>
        ensures { result.list.items ≡ take 8 list.items }
    {
        let mut list = list;
        list.truncate(MOST_CONNECTIONS);
        PoolSlots { list }
    }

    /// Where this is prefetched and given next, by this ticket or by none.
    pub(crate) fn ahead_place(&self, request: &Request, ticket: Option<Ticket>) -> Option<usize> {
        self.list
            .iter()
            .position(|slot| slot.has_ahead(request, ticket))
    }

    /// Whether something of the same path is prefetched.
    pub(crate) fn is_ahead(&self, request: &Request) -> bool {
        self.list.iter().any(|slot| slot.is_at(request))
    }

    /// What is asked in its turn now may change or bring a file: facts of files that were prefetched are given no more, nor what comes behind one in its batch.
    pub(crate) fn forget_facts(&mut self) {
        for slot in self.list.iter_mut() {
            slot.forget_facts();
        }
    }

    /// One over which something may be asked in its turn now.
    pub(crate) fn free_place(&self) -> Option<usize> {
        self.list.iter().position(|slot| slot.may_ask())
    }

    /// Whether any is left over which something may be asked in its turn, once it is idle.
    pub(crate) fn has_reliable(&self) -> bool {
        self.list.iter().any(|slot| slot.is_reliable())
    }

    /// One over which this may be prefetched: first one of whose login nothing is known, so that what is asked in its turn has others, then another one.
    pub(crate) fn idle_place(&self, request: &Request) -> Option<usize> {
        let wants_login = wants_login_of(request);
        if !wants_login {
            let untried = self.list.iter().position(|slot| slot.is_untried());
            if untried.is_some() {
                return untried;
            }
        }
        self.list
            .iter()
            .position(|slot| slot.may_prefetch(wants_login))
    }

    /// Tries the login of each idle one of whose login nothing is known.
    pub(crate) fn try_logins(&mut self) {
        for slot in self.list.iter_mut() {
            if slot.is_untried() {
                slot.try_login();
            }
        }
    }

    /// Whether the one at a place has something under way.
    pub(crate) fn is_busy(&self, place: usize) -> bool {
        match self.list.get(place) {
            Some(slot) => slot.is_busy(),
            None => false,
        }
    }

    /// Whether any has something under way.
    pub(crate) fn is_any_busy(&self) -> bool {
        self.list.iter().any(|slot| slot.is_busy())
    }

    /// Whether what is given next of the one at a place is still under way.
    pub(crate) fn is_awaited(&self, place: usize) -> bool {
        match self.list.get(place) {
            Some(slot) => slot.is_awaited(),
            None => false,
        }
    }

    /// Over how many something may still be asked.
    pub(crate) fn left(&self) -> usize {
        self.list.iter().filter(|slot| !slot.is_unusable()).count()
    }

    /// A round: a wait where no turn is due, and a turn of each that is ready. Gives the place of one that is over since, behind what was prefetched over it.
    pub(crate) fn round(&mut self) -> Option<usize> {
        let rows = poll_all(self.list.as_slice());
        let now = monotonic_millis();
        let mut over: Option<usize> = None;
        for (place, slot) in self.list.iter_mut().enumerate() {
            let found = found_at(&rows, place);
            if is_ready(slot, &found, now) && slot.turn(found) {
                over = Some(place);
            }
        }
        over
    }
}
