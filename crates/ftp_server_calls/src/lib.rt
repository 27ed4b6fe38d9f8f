//! A list of calls, run on one server or several.
#![tactic(auto)]

pub mod one;
pub mod several;

pub use one::{Cue, Gift, Played, Plays, calm_after, is_same, keep, make, make_into, room_for};
pub use several::{InSlot, Sessions, Turn};
