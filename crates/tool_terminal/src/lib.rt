//! What a person is told: foreign octets escaped, messages that `--quiet` leaves out, progress, and exit statuses.
#![tactic(auto)]

pub mod escaped;
pub mod progress;
mod status;
pub mod verbosity;

pub use escaped::{Shown, put_shown};
pub use progress::{Measure, Pace, Remaining, Span, Unit, measured, pace_of, unit_for};
pub use status::Status;
pub use verbosity::{QuietHandle, Verbosity, is_told};
