//! The facts of a machine listing and the text of a moment, read and written (RFC 3659, sections 2.3 and 7.2).
//! No IO.
#![tactic(auto)]

mod civil;
mod cutting;
mod digits;
mod entry;
mod facts;
mod fault;
pub mod laws;
mod moment;
mod name;
mod reading;
mod sink;
mod text;
mod writing;

pub use cutting::cut_at;
pub use entry::{Entry, EntryKind, LentEntry};
pub use fault::FactFault;
pub use moment::{Moment, moment_of_text, moment_text};
pub use name::{FactName, Facts};
pub use reading::read_entry;
pub use sink::LineSink;
pub use text::Text;
pub use writing::{write_entry, write_entry_line};
