//! A file in pieces to the octets of a data connection and back, in rooms of any size, without IO: the writer and the reader of the mode,
//! and those of type and structure (RFC 959, sections 3.1 to 3.5).
#![tactic(auto)]

mod decoded;
mod decoder;
mod encoder;
mod intake;
pub mod laws;
mod sink;
mod stored;

pub use decoded::{Decoded, Taken};
pub use decoder::Decoder;
pub use encoder::{Encoded, Encoder};
pub use sink::Sink;
