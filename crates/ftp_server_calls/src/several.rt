// Sessions over one tree: it is lent to the session that is called, and taken back after the call. No IO (own choice).

mod playing;
mod sessions;

pub use crate::one::{Cue, Gift, Played};
pub use playing::Turn;
pub use sessions::{InSlot, Sessions};
