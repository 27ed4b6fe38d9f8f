//! A drive: what stands between either end of a session and its control connection and data connections (RFC 959, section 2.3). It knows the end
//! by its calls alone. No IO of its own.
#![tactic(auto)]

mod calls;
mod carry;
mod control;
mod data;
mod drive;
mod hand;
mod meet;
mod wait;

pub use calls::{EndCalls, Given};
pub use data::Data;
pub use drive::{Turned, drive_end, drive_on};
