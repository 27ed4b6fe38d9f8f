// Several control connections of which each has its turn: what will be asked is prefetched over those that are idle, and given in its turn (own choice).

mod ahead;
mod batch;
mod connection_pool;
mod ends;
mod poll;
mod slot;
mod slots;

pub use connection_pool::ConnectionPool;
pub use slot::{PoolSlot, Reliability};
pub use slots::MOST_CONNECTIONS;
