/// What the octets taken by a call settled.
#[derive(Clone, Copy, PartialEq, Eq)]
pub enum Event {
    /// Nothing yet: the whole piece was taken.
    More,
    /// A line ended; the ear lends it until the next feed.
    Line,
    /// A line passed the limit. It is reported once, and skipped up to its LF.
    TooLong,
    /// Telnet octets that are owed this answer: IAC WONT x to DO x, IAC DONT x to WILL x.
    Owed([u8; 3]),
}

/// How many octets of a piece were taken, and what they settled.
#[derive(Clone, Copy, PartialEq, Eq)]
pub struct Heard {
    pub taken: usize,
    pub event: Event,
}
