//! Real connections of a server that serves several clients in one thread: each is looked at, and none is waited for. What a client is waited for, the
//! round of all polls (RFC 959, section 2.3).
#![tactic(auto)]

mod awaits;
mod control;
mod establishing;
mod hangup;
pub mod laws;
mod leaving;
mod line;
mod link;
mod link_look;
mod opening;
mod passive;
mod pending_input;
mod ports;
mod session_timeouts;
mod timeouts;
mod turn_share;

pub use awaits::Awaits;
pub use control::{LineReader, LineWriter};
pub use leaving::Leaving;
pub use line::ControlLine;
pub use link::LineLink;
pub use passive::PassivePorts;
pub use ports::LinePorts;
pub use session_timeouts::{TimeLimits, TimeoutReason};
pub use timeouts::Timeouts;
