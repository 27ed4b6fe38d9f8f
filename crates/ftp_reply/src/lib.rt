//! Replies of the control connection: lines to a reply and back (RFC 959, section 4.2), and the values that
//! their texts carry. No IO.
#![tactic(auto)]

pub mod code;
mod endpoint;
mod fault;
pub mod laws;
mod lines;
mod number;
mod place;
mod quoted;
mod reader;
mod reply;
mod writing;

pub use endpoint::{extended_of, passive_of};
pub use fault::ReplyFault;
pub use lines::Lines;
pub use number::{mark_of, moment_of, size_of};
pub use quoted::quoted_of;
pub use reader::Reader;
pub use reply::Reply;
pub use writing::write;
