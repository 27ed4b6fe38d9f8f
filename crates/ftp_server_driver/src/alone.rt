// A server between its connections: the control connection as a reader and a writer, data connections and a clock by the traits `Ports` and
// `Watch` of `ftp_ports` (RFC 959, section 2.3). No IO of its own.

mod clocked;
mod drive;
mod serves;
mod turns;

pub use clocked::{Clocked, Watches};
pub use drive::drive_server;
pub use ftp_driver::{Data, Turned};
pub use ftp_ports::Control;
pub use turns::drive_some;
