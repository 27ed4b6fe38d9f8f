//! A file's octets to items and back, in any pieces, without IO: line ends and records (RFC 959, sections 3.1.1.1,
//! 3.1.2 and 3.4).
#![tactic(auto)]

mod fault;
mod item;
pub mod laws;
mod receiver;
mod run;
mod sender;
mod size;
mod skipping;

pub use fault::ReprFault;
pub use ftp_settings::{Kind, Structure};
pub use item::{Item, Lent};
pub use receiver::Receiver;
pub use run::{first_ff, plain_run};
pub use sender::Sender;
pub use size::wire_size;
pub use skipping::{Skipped, skip};
