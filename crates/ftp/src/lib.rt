//! What a program names that embeds a server or a client: both ends with their drivers, trees, and connections (RFC 959; RFC 3659).
#![tactic(auto)]

pub mod client;
pub mod net;
pub mod server;
pub mod tree;
