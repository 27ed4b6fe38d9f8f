// The address of a server, beside the limits of time, rate and connections within which it is asked.

/// Which server is asked, and on which terms.
#[derive(Clone, Copy)]
pub struct ServerAddress<'a> {
    /// An address or a name.
    pub host: &'a str,
    /// The port of its control connections.
    pub port: u16,
    /// For how many seconds the server may say, take and send nothing, before its control connection counts as ended; 0: without a limit.
    pub timeout: u32,
    /// Until when all that is asked is to be done, over all control connections, in milliseconds of the system's monotonic clock; none: without a limit.
    pub until: Option<u64>,
    /// Whether a transfer that takes more than a second is told of, each second at most.
    pub progress: bool,
    /// The most octets a second over all data connections at once; 0: without a limit.
    pub rate: u64,
    /// How many control connections there are at once, where so much can be asked; 8 at most.
    pub at_once: u32,
}
