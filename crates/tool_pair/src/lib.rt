//! The program `pair`: a script of operations between a client and a server in one world over memory (RFC 959).
#![tactic(auto)]

mod beginning;
mod ends;
mod making;
mod orders;
mod playing;
mod rounds;
pub mod rows;
mod transcript;
mod typed;

pub use beginning::{Beginning, Unfair};
pub use ends::{Ends, world_of};
pub use making::beginning_of;
pub use playing::{PairSettings, pair, play_in};
pub use transcript::Transcript;
