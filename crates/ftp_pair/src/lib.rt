//! A world of two ends: a client's and a server's, and what lies between them.
#![tactic(auto)]

mod settle;
mod world;

pub use ftp_client_model::Near;
pub use ftp_pair_events::{Control, Event, Link, Mark, Queue};
pub use ftp_server_model::{Far, SureFar};
pub use world::World;
