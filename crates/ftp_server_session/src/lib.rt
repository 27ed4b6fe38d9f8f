//! What commands and the data connection change of a server's session, over any tree and any transfer; no IO (RFC 959, sections 3.2
//! and 4.1; RFC 2389, RFC 2428, RFC 3659).
#![tactic(auto)]

mod act;
mod ask;
mod context;
mod decide;
mod login;
mod look;
mod octets;
mod options;
mod port_and_pasv;
mod session;
mod settings;
mod transfers;
mod walk;

pub use context::Context;
pub use ftp_ends::is_same_host;
pub use ftp_server_replies::{Fault, Given, ServerTransfer};
pub use session::Session;
