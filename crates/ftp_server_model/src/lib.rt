//! What a server is, as definitions: its states, what each call does, and the trait that a server meets. No code that does
//! anything; laws and worked rows are functions that do nothing (RFC 959; RFC 2389, RFC 2428, RFC 3659).
#![tactic(auto)]

mod counts;
mod far;
mod heard;
pub mod laws;
mod reply;
mod room;
pub mod rows;
mod session;

pub use counts::Counts;
pub use far::{Far, SureFar};
pub use heard::{Answered, HeardLine, TOLD_LIMIT};
pub use reply::{FixedReply, ReplyKind};
pub use room::{FREE_ROOM, OUTPUT_ROOM};
pub use session::{Access, Keep, Life, PassiveVerb, Pending, ServerLink, Standing, Transfer, Way};
