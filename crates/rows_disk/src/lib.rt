//! For tests alone: plays rows of a script on the tree of a disk over a folder in memory, whose calls fail or stray and which others change, and writes
//! what each operation answers and what then stands in the folder.
#![tactic(auto)]

mod hand;
mod memory_host;
mod memory_shelf;
mod row;

pub use memory_host::{HostTrouble, MemoryFile, MemoryHost, MemoryPart};
pub use row::play_all;
