// Calls of a server made by a list, and what they give (own choice). No IO.

mod calling;
mod cue;
mod playing;

pub use calling::{make, make_into, room_for};
pub use cue::{Cue, Gift, Played};
pub use playing::{Plays, calm_after, is_same, keep};
