//! For tests alone: what programs of rows read and write, a reader and a writer that fail at one call, and an allocator that refuses one growth.
#![tactic(auto)]

mod failing;
mod octets;
mod paper;
mod refusing;
mod tally;
mod words;

pub use failing::{FailingReader, FailingWriter};
pub use octets::{number, octet_in_front, octets_of};
pub use paper::Paper;
pub use refusing::Refusing;
pub use tally::{Tally, fixed};
pub use words::{cut, first_other, found, quoted, row_in_front, said, split};
