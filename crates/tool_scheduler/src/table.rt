// The slots of all sessions.
ghost use Rattle.std.specs.Global.{Global};
ghost use Rattle.std.specs.Prelude.{◌≡◌, ◌≢◌, ◌↔◌, ℕ, IsTrue, IsSome, IfOk, Some, is_none, position, slice_get, slice_set};
ghost use Rattle.tool_scheduler.specs.Rounds.{is_slot_taken};
ghost use Rattle.tool_scheduler.specs.Sharing.{AreFree, Frees, Seats, host_of, occupants_of};

use crate::crowd::{Sitting, crowded_place};
use crate::slot::{Slot, TurnResult};
use crate::waiting::MOST_SLOTS;
use std::alloc::{AllocError, Global};
use tool_polling::{Awaits, TimeoutReason};
use tool_sockets::monotonic_millis;

/// A slot that is taken.
#[derive(Drop)]
pub(crate) struct TakenSlot<S: Drop> {
    pub(crate) session: Box<S, Global>,
    /// As whom its client counts.
    pub(crate) host: u128,
    /// How its last turn ended.
    pub(crate) course: TurnResult,
}

/// Slots, each with a session or without.
#[derive(Drop)]
pub(crate) struct Table<S: Drop> {
    pub(crate) slots: Vec<Option<TakenSlot<S>>, Global>,
}

impl<S: Drop> Table<S> {
    /// So many free slots.
    pub(crate) fn new(alloc: Global, count: usize) -> Result<Table<S>, AllocError>
        ensures { IfOk result (λ table. AreFree (occupants_of table.slots.items)) }
    {
        let mut slots = Vec::new(alloc);
        for _ in 0..count {
            slots.push(None)?;
        }
        Ok(Table { slots })
    }

    /// How many are taken.
    pub(crate) fn taken(&self) -> usize {
        self.slots.iter().filter(|slot| slot.is_some()).count()
    }

    /// How many are taken by clients that count as this one.
    pub(crate) fn of_host(&self, host: u128) -> usize {
        self.slots
            .iter()
            .filter(|slot| slot.as_ref().is_some_and(|taken| taken.host == host))
            .count()
    }

    /// How many slots there are.
    pub(crate) fn count(&self) -> usize {
        self.slots.len()
    }

    /// The session in a slot.
    pub(crate) fn at(&self, place: usize) -> Option<&TakenSlot<S>>
        ensures { IsTrue (is_slot_taken self.now.slots.items place) ↔ IsSome result }
    {
        self.slots.get(place)?.as_ref()
    }

    /// As whom the client in a slot counts; nobody is 0.
    pub(crate) fn host_at(&self, place: usize) -> u128
        ensures { result ≡ host_of (slice_get (occupants_of self.now.slots.items) place) }
    {
        match self.slots.get(place) {
            Some(Some(taken)) => taken.host,
            Some(None) | None => 0,
        }
    }

    /// Frees a slot, and gives the session that had it.
    pub(crate) fn free(&mut self, place: usize) -> Option<TakenSlot<S>>
        ensures had { IsTrue (is_slot_taken self.old.slots.items place) ↔ IsSome result }
        ensures others { (other : ℕ) → other ≢ place → is_slot_taken self.new.slots.items other ≡ is_slot_taken self.old.slots.items other }
        ensures freed { Frees place result self.old.slots.items self.new.slots.items }
    {
        self.slots.get_mut(place)?.take()
    }

    /// Puts back a session into its slot.
    pub(crate) fn put(&mut self, place: usize, taken: TakenSlot<S>)
        ensures others { (other : ℕ) → other ≢ place → is_slot_taken self.new.slots.items other ≡ is_slot_taken self.old.slots.items other }
        ensures put { self.new.slots.items ≡ slice_set self.old.slots.items place (Some taken) }
    {
        if let Some(slot) = self.slots.get_mut(place) {
            *slot = Some(taken);
        }
    }

    /// The first slot that is free.
    fn first_free(&self) -> Option<usize>
        ensures { result ≡ position is_none self.now.slots.items }
    {
        self.slots.iter().position(|slot| slot.is_none())
    }

    /// Takes a free slot; where there is none, the session is let go.
    pub(crate) fn take(&mut self, session: Box<S, Global>, host: u128)
        ensures { Seats session.value self.old.slots.items self.new.slots.items }
    {
        if let Some(place) = self.first_free() {
            let taken = TakenSlot {
                session,
                host,
                course: TurnResult::More,
            };
            self.put(place, taken);
        }
    }
}

/// What the session in a slot waits for.
pub(crate) fn awaits_at<T, S: Slot<T>>(table: &Table<S>, place: usize) -> Awaits {
    let Some(taken) = table.at(place) else {
        return Awaits::nothing();
    };
    let mut awaits = taken.session.awaits();
    if let TurnResult::More = taken.course {
        awaits.until = 0;
    }
    if let Some(left) = taken.session.timeouts().left() {
        awaits.until = awaits.until.min(monotonic_millis().saturating_add(left));
    }
    awaits
}

/// The session that gives its slot to an address that has none, and why, where one does.
pub(crate) fn crowded_in<T, S: Slot<T>>(table: &Table<S>) -> Option<(usize, TimeoutReason)> {
    let mut slots = [None; MOST_SLOTS];
    for (place, slot) in slots.iter_mut().enumerate() {
        *slot = sitting_at(table, place);
    }
    let place = crowded_place(&slots)?;
    Some((place, TimeoutReason::Crowded))
}

/// The session in a slot, as far as it tells whether it gives that away.
fn sitting_at<T, S: Slot<T>>(table: &Table<S>, place: usize) -> Option<Sitting> {
    let taken = table.at(place)?;
    let timeouts = taken.session.timeouts();
    Some(Sitting {
        host: taken.host,
        moves: timeouts.moves(),
        quiet: timeouts.quiet(),
    })
}

/// The session that might be ended for another client for the longest time, and why: any, or one whose client counts as this one.
pub(crate) fn spare_in<T, S: Slot<T>>(
    table: &Table<S>,
    of_host: Option<u128>,
) -> Option<(usize, TimeoutReason)> {
    let mut longest = None;
    for place in 0..table.count() {
        let spare = table
            .at(place)
            .filter(|taken| of_host.is_none() || of_host == Some(taken.host))
            .and_then(|taken| taken.session.timeouts().spare());
        if let Some((over, since)) = spare {
            longest = match longest {
                Some((_, _, most)) if most >= since => longest,
                _ => Some((place, over, since)),
            };
        }
    }
    let (place, over, _) = longest?;
    Some((place, over))
}
