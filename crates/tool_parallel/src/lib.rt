//! The pool of a client's control connections, in one thread: what will be asked is prefetched over those that are idle (own choice). No socket is waited
//! for, but by one poll of all (RFC 959, section 2.3).
#![tactic(auto)]

pub mod connection;
pub mod pool;

pub use connection::{PooledClient, PooledLink, PooledPorts, TakesTurns};
pub use pool::{ConnectionPool, MOST_CONNECTIONS, PoolSlot, Reliability};
