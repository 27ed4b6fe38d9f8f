//! What stands between an end and its connections (RFC 959, section 2.3): a control connection as a reader and a writer, with what was read of
//! it and is not heard yet; data connections and a clock by traits; one read, and all of a text written. No IO of its own.
#![tactic(auto)]

mod cause;
mod control;
mod data;
mod limits;
mod pieces;
mod ports;
mod whole;

pub use cause::{Cause, Spent, Turns};
pub use control::Control;
pub use data::{DataConnection, Halt};
pub use limits::{DATA_PIECE_LIMIT, PIECE_LIMIT, TURNS};
pub use pieces::{Failed, get, put};
pub use ports::{Accepted, Awaited, Beside, Duplex, For, Ports, Ready, Spoken, Watch};
pub use whole::{Fate, Rest, Whole};
