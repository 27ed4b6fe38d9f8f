//! A client on which rows are played.
mod answer;
mod played;
mod playing;

pub use playing::run;
