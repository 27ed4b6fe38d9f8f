// What no command changes.
use ftp_endpoint::Host;
use ftp_facts::Moment;
use ftp_operation::Accounts;
use std::alloc::Allocator;

/// What no command changes: who may log in, the hosts of the control connection, and the moment in force.
#[derive(Drop)]
pub struct Context<A: Allocator + Copy> {
    pub accounts: Accounts<A>,
    /// The server's host.
    pub here: Host,
    /// The client's host.
    pub peer: Host,
    pub moment: Moment,
}
