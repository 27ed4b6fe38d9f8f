//! A server on which rows are played.
pub mod begun;
pub mod cued;
mod played;
mod playing;
mod told;

pub use playing::run;
