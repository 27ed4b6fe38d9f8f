//! The driver of a server, whose tree may be borrowed.
#![tactic(auto)]

pub mod alone;
pub mod shared;

pub use alone::{Clocked, Control, Data, Turned, Watches, drive_server, drive_some};
pub use shared::lent_turns;
