//! How a file goes over a data connection: type, structure and transmission mode, the three settings of a transfer, and the text
//! of a restart marker (RFC 959, sections 3.1 to 3.5 and 4.1.2). Values alone, no IO.
#![tactic(auto)]

mod marker;
mod representation;
pub mod rows;

pub use marker::{MARKER_LIMIT, is_marker_octet};
pub use representation::{Kind, Mode, Representation, Structure};
