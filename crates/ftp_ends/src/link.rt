// What an end asks of who owns the connections.
use ftp_endpoint::Endpoint;

/// What an end wants of the connections at a moment. Control octets go both ways whatever is wanted.
#[derive(Clone, Copy, Debug, PartialEq, Eq)]
pub enum Wants {
    /// Nothing of the data connection.
    Nothing,
    /// A port to listen at, until it is told or refused.
    Listen,
    /// The link that the other end opens to the port told last, until it is there or given up.
    Accept,
    /// A link to this endpoint, until it is there or given up.
    Connect(Endpoint),
    /// The data octets that come over the open link, and its end.
    Receive,
    /// Room for the data octets that go over the open link.
    Send,
    /// That the link, or the port that is listened at, is closed: it is not needed.
    CloseData,
    /// That the control connection is closed: the end is done with it.
    CloseAll,
}
