// One control connection of several in one thread: a client that takes turns between those of others, and whose data connections are never waited for
// (RFC 959, section 2.3).

mod pooled_client;
mod pooled_ports;

pub use pooled_client::{PooledClient, TakesTurns};
pub use pooled_ports::{PooledLink, PooledPorts};
