// Data connections in memory: a stream, ports that tell what was asked of them, and the ways of a control connection.

pub mod laws;
mod memory_end;
mod memory_ports;
mod port_table;
mod way;
mod wire;

pub use memory_end::{MemoryEnd, meet};
pub use memory_ports::MemoryPorts;
pub use way::{ReadHalf, WriteHalf};
pub use wire::Wire;
