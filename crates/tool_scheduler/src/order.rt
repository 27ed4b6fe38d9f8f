// Whose turn is next: of the places that are ready the one whose last turn is the oldest.
ghost use Rattle.std.specs.Prelude.{◌≡◌, ◌<◌, IfSome, IfNone, IfOk, None, length};
ghost use Rattle.std.specs.List.{range_with_len};
ghost use Rattle.tool_scheduler.specs.Order.{Takes, first_both, first_hashing, first_ready, is_ready};

use std::alloc::{AllocError, Allocator};
use std::marker::Model;

/// Places, the one whose last turn is the oldest first.
#[derive(Drop)]
pub struct TurnOrder<A: Allocator> {
    places: Vec<usize, A>,
}

impl<A: Allocator> Model for TurnOrder<A> {
    ghost use Rattle.std.specs.Prelude.{List, ℕ};

    ghost Value = { List ℕ };

    ghost view = { λ order. order.places.items };
}

impl<A: Allocator> TurnOrder<A> {
    /// So many places, from 0 on.
    pub fn new(alloc: A, count: usize) -> Result<TurnOrder<A>, AllocError>
        ensures places { IfOk result (λ order. order ≡ range_with_len 0 count) }
    {
        let places = places_below(alloc, count)?;
        Ok(TurnOrder { places })
    }

    /// The first place that is ready and whose next turn may hash a password, if one is.
    pub fn first_hashing(&self, ready: &[bool], hashing: &[bool]) -> Option<usize>
        ensures { result ≡ first_hashing ready.now hashing.now self.now }
    {
        match first_both(self.places.as_slice(), ready, hashing) {
            Some(at) => self.places.get(at).copied(),
            None => None,
        }
    }

    /// The first place that is ready takes its turn, and comes after all others from then on.
    pub fn take(&mut self, ready: &[bool]) -> Option<usize>
        // Witness of taken: `edits/the_second_that_is_ready_is_next.edit`, `who_takes_a_turn_keeps_its_place`, `the_first_that_is_not_ready_is_next`.
        ensures taken { IfSome result (λ place. Takes ready.now self.old place self.new) }

        // Where none is ready, nothing changes.
        ensures none { IfNone result (first_ready ready.now self.old ≡ None) }
        ensures same { IfNone result (self.new ≡ self.old) }
    {
        let at = first_ready(self.places.as_slice(), ready)?;
        let taken = self.places.remove(at);
        self.places.push_reserved(taken);
        Some(taken)
    }
}

/// Each place below a count once, the least first.
fn places_below<A: Allocator>(alloc: A, count: usize) -> Result<Vec<usize, A>, AllocError>
    ensures { IfOk result (λ places. places.items ≡ range_with_len 0 count) }
{
    (0..count).collect(alloc)
}

/// Where the first of these places is that is ready.
#[tactic(auto, unfolding(crate::specs::Order::first_ready))]
fn first_ready(places: &[usize], ready: &[bool]) -> Option<usize>
    ensures first { result ≡ first_ready ready.now places.now }
    ensures within { IfSome result (λ at. at < length places.now) }
{
    places.iter().position(|place| is_ready(ready, *place))
}

/// Where the first of these places is that both say.
#[tactic(auto, unfolding(crate::specs::Order::first_both))]
fn first_both(places: &[usize], ready: &[bool], hashing: &[bool]) -> Option<usize>
    ensures { result ≡ first_both ready.now hashing.now places.now }
{
    places.iter().position(|place| is_ready(ready, *place) && is_ready(hashing, *place))
}

/// Whether a place is ready.
pub(crate) fn is_ready(ready: &[bool], place: usize) -> bool
    ensures { result ≡ is_ready ready.now place }
{
    match ready.get(place) {
        Some(is_ready) => *is_ready,
        None => false,
    }
}
