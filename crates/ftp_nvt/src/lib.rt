//! Octets of a control connection to lines and owed Telnet answers, and lines to octets, without IO (RFC 854;
//! RFC 959, section 4).
#![tactic(auto)]

mod ear;
mod event;
mod fault;
pub mod laws;
mod line;
mod put;
mod run;
mod telnet;

pub use ear::Ear;
pub use event::{Event, Heard};
pub use fault::NvtFault;
pub use put::put_line;
