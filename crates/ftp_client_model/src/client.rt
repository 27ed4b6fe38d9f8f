// The places of the client's dialogue.
use ftp_endpoint::Endpoint;

/// Why a client has failed for good: every later operation answers the same.
#[derive(Clone, Copy)]
pub enum Failure {
    /// The control connection ended, or the service said that it closes it.
    Lost,
    /// The server said what has no place.
    Strange,
    /// A growth was refused.
    Memory,
}

/// How far a client has come with the server.
#[derive(Clone, Copy)]
pub enum Standing {
    /// The greeting is awaited.
    Greeting,
    /// The reply to USER is awaited.
    User,
    /// The reply to PASS is awaited.
    Pass,
    /// The login's last reply came, whatever it said: operations are sent.
    Entered,
    /// Nothing more is sent or heard.
    Failed(Failure),
}

/// A step of an operation: a command of which the reply is awaited, or an event of the data connection.
#[derive(Clone, Copy)]
pub enum Step {
    /// TYPE.
    Kind,
    /// STRU.
    Structure,
    /// MODE.
    Mode,
    /// A port to listen at is awaited.
    Listen,
    /// PORT or EPRT.
    Port,
    /// PASV or EPSV.
    Passive,
    /// The link to the endpoint that the server named is awaited.
    Connect,
    /// REST.
    Restart,
    /// RNFR.
    Source,
    /// The operation's own command, which ends it.
    Last,
}

/// How a link came to its end.
#[derive(Clone, Copy)]
pub enum Ending {
    /// The server closed it.
    Clean,
    /// The client closed it, or gave its opening up.
    Ours,
    /// It broke.
    Broken,
    /// It came from another host, and was closed.
    Foreign,
}

/// Where the client's data connection is.
#[derive(Clone, Copy)]
pub enum ClientLink {
    /// There is none.
    Free,
    /// A port to listen at is wanted.
    ListenWanted,
    /// This port is listened at; the server was not told yet to connect.
    Listening(u16),
    /// The link to this endpoint is to be opened.
    Connecting(Endpoint),
    /// The server is to connect to this port.
    Accepting(u16),
    /// The link is open.
    Open,
    /// The link came to its end, or was given up.
    Over(Ending),
}

/// Which replies to a transfer's command came.
#[derive(Clone, Copy)]
pub enum Replied {
    /// None.
    Nothing,
    /// One that says that the transfer begins.
    Begun,
    /// The last, with its code.
    Final(u16),
}

/// Whether a transfer was given up by an ABOR, as a Peek that has its octets is.
#[derive(Clone, Copy)]
pub enum Abort {
    /// None was sent.
    Unsent,
    /// Its reply is awaited.
    Sent,
    /// It was answered.
    Answered,
}
