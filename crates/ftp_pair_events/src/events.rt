// What a world of two ends is made of, and what each event does to it.

mod begin;
mod copying;
mod counts;
mod deliver;
mod ending;
mod event;
mod link;
mod make;
mod parts;
mod pull;
mod push;
mod rest;
mod serve;
mod step;
mod turn;

pub use event::Event;
pub use parts::Parts;
