// Both drives in turns over connections in memory: the ends, their turns, and an operation.

mod slots;
mod taking;
mod turn_ending;
mod turns;

pub use slots::{MemoryControl, Slot};
pub use taking::ask;
