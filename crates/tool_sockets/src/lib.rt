//! Real connections: `Ports` of `ftp_ports` over sockets, the reader and the writer of a control connection, for one who asks and waits; and what
//! a server's have in common with them. One thread waits for the control connection and a data connection together (RFC 959, section 2.3).
#![tactic(auto)]

mod control;
mod host;
mod last_activity;
mod link;
mod options;
mod ports;
mod sockets;
mod timeouts;
mod wait;
mod watch;

pub use control::{ControlReader, ControlWriter, say_goodbye, send_now};
pub use host::{addr_of, host_of};
pub use last_activity::LastActivity;
pub use link::DataSocket;
pub use options::{drop_connection, keep_alive, limit_room, limit_untaken};
pub use ports::{OPENING_MILLIS, SocketPorts};
pub use sockets::Sockets;
pub use timeouts::{ClientTimeouts, monotonic_millis};
pub use wait::{Heeds, Other, Woke, asking, has_room_now, pause, spoken_by, woken};
pub use watch::SystemWatch;
