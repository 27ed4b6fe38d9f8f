// What lies between a client and a server: octets on their way, and how the two connections stand.

mod between;
mod channel;
mod room;

pub use between::{Control, Link, Mark, Queue};
pub use channel::{Channel, ROOM};
pub use room::{Room, keep};
