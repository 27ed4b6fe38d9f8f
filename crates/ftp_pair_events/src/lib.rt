//! What each event does to a world of both ends.
#![tactic(auto)]

pub mod events;
pub mod queues;

pub use events::{Event, Parts};
pub use queues::{Channel, Control, Link, Mark, Queue, ROOM, Room, keep};
