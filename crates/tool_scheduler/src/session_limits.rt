// How many clients are served at once, and who is told that there is no slot.
/// How many are served.
#[derive(Clone, Copy)]
pub struct SessionLimits {
    /// How many at once, from 1 to 64.
    pub at_once: usize,
    /// How many of them from one address.
    pub per_host: usize,
    /// How many in all; none: without an end.
    pub sessions: Option<u32>,
    /// Whether the end of standard input stops the server: then nobody more is taken.
    pub input: Input,
    /// How many seconds transfers may go on once the server stops.
    pub finish: u32,
}

/// What the end of standard input means.
#[derive(Clone, Copy)]
pub enum Input {
    /// Nothing: it is not read.
    Unread,
    /// That the server stops.
    Stops,
}

/// Why there is no slot for a client.
#[derive(Clone, Copy)]
pub enum Full {
    /// All are taken.
    House,
    /// As many as may be are taken by clients from its address.
    Host,
}

impl SessionLimits {
    /// Why there is no slot for a client that comes while so many are taken, so many of them by clients from its address; none where there is one.
    pub(crate) fn full(self, taken: usize, of_host: usize) -> Option<Full> {
        if of_host >= self.per_host && of_host < self.at_once {
            Some(Full::Host)
        } else if taken >= self.at_once {
            Some(Full::House)
        } else {
            None
        }
    }
}
