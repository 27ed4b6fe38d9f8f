//! The server's machine, without IO: octets and events in, octets and wants out (RFC 959; RFC 2389, RFC 2428, RFC 3659).
#![tactic(auto)]

mod abort;
mod begin;
mod calls;
mod connect;
mod data;
mod ending;
mod entry;
mod events;
mod far;
mod hear;
mod held;
mod lend;
mod line;
mod reader;
mod reading;
mod say;
mod server;
mod wants;

pub use begin::NotBegun;
pub use server::Server;
