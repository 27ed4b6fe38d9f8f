//! Rows of what the programs read and write.
mod row;
mod run;
mod tries;

pub use tries::play_row;
