//! Lines of a log on standard error, in one of three formats. None is waited for: what can't be written at once is lost.
#![tactic(auto)]

mod entry;
mod format;
mod json;
mod lines;
mod lost;
mod named;
mod room;
pub mod rows;
mod xferlog;

pub use entry::{DataClose, LineOutcome, LogEntry, SessionNote};
pub use format::LogFormat;
pub use lines::LogLines;
pub use named::{Placed, QuotedName};
