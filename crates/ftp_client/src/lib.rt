//! A client of FTP: the calls of its owner over its dialogue with a server, without input or output (RFC 959, sections 2.3 and 5.4).
#![tactic(auto)]

mod client;
mod counted;
mod held;
mod near;
mod task;

pub use client::Client;
pub use task::{ClientTask, NewClient, play_client};
