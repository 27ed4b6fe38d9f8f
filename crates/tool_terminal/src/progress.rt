// How far a transfer is, by values alone: its pace, and sizes as people read them. No IO.

mod measure;
mod progress_line;

pub use measure::{Measure, Unit, measured, unit_for};
pub use progress_line::{Pace, Remaining, Span, pace_of};
