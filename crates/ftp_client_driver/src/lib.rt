//! A client between its connections: the control connection as a reader and a writer, and data connections by the trait `Ports` of
//! `ftp_ports` (RFC 959, section 2.3). No IO of its own.
#![tactic(auto)]

mod asks;
mod drive;
mod turns;

pub use drive::{Driven, drive_client};
pub use ftp_driver::{Data, Turned};
pub use ftp_ports::Control;
pub use turns::drive_some;
