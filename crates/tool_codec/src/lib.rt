//! The programs of files and listings as functions over readers and writers: the entries of a machine listing, and a file
//! as the octets of a data connection and back.
#![tactic(auto)]

mod fact_lines;
mod frames;
mod receiving;
mod words;

pub use fact_lines::facts;
pub use frames::{Direction, frame};
pub use ftp_settings::Representation;
pub use words::{number_of, representation_of};
