//! A session over connections in memory: `ask` begins an operation of a client, and both drivers take turns until it is
//! answered. No IO. The order of turns is an order of events over both connections of RFC 959, section 2.3, and the
//! clause of `ask` says which: `AsksAnswered`, or `AsksUnanswered` where there is no answer.
#![tactic(auto)]

pub mod steps;
pub mod streams;

pub use steps::{MemoryControl, Slot, ask};
pub use streams::{MemoryEnd, MemoryPorts, ReadHalf, Wire, WriteHalf, meet};
