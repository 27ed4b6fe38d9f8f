//! What a client does in its dialogue with a server, operation after operation, without input or output (RFC 959, sections 2.3 and 5.4).
#![tactic(auto)]

mod carrying;
mod control;
mod dialogue;
mod events;
mod finishing;
mod holding;
mod letting_go;
mod link;
mod login;
mod octets;
mod replies;
mod sending;
mod starting;
mod steps;
mod task;
mod transfer;

pub use dialogue::Dialogue;
pub use events::{data_end, data_fault, data_opened, data_refused, listen_refused, listening};
pub use replies::hear_octet;
pub use task::{Task, Transfer};
