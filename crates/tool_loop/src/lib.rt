//! Scripts of operations over loopback sockets, with a client and a server in one thread (RFC 959).
#![tactic(auto)]

mod between;
mod client;
mod joining;
mod orders;
mod pair;
mod passive_listener;
mod pipe;
mod playing;
mod ports;
mod server;
mod socket;
mod way;

pub use playing::play;
