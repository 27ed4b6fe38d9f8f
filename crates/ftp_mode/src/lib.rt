//! Modes and restart markers, without IO: items to octets of the wire, and the wire in pieces to items (RFC 959, sections 3.4 and 3.5).
#![tactic(auto)]

mod block_output;
mod deframer;
pub mod descriptor;
pub mod escape;
mod fault;
mod framer;
pub mod laws;
mod step;
mod stored;
pub mod written;

pub use deframer::Deframer;
pub use fault::FrameFault;
pub use framer::{Framer, Manner, Moved};
pub use ftp_settings::Mode;
pub use step::{Part, Step};
