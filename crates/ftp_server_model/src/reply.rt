// The replies of a server as values: which of them is said. Their codes, lines and octets are definitions.
use ftp_endpoint::Endpoint;

/// A reply whose text is always the same; `specs/Texts` has the table (RFC 959, section 4.2).
#[derive(Clone, Copy)]
pub enum FixedReply {
    Ready,
    Unknown,
    LineTooLong,
    BadArgument,
    NotImplemented,
    BadSequence,
    BadParameter,
    Protocol,
    OnlyIpv4,
    OnlyIpv6,
    NotLoggedIn,
    PasswordNeeded,
    LoggedIn,
    LoginRefused,
    NotNeeded,
    Done,
    NewName,
    Refused,
    NotAllowed,
    NameRefused,
    NoRoom,
    TooMuch,
    Opens,
    Complete,
    NoConnection,
    Broken,
    LocalFault,
    AbortDone,
    TypeSet,
    StructureSet,
    ModeSet,
    Utf8Set,
    Fine,
    EndpointTaken,
    OnlyExtended,
    System,
    Help,
    Serving,
    Goodbye,
}

/// Which reply is said to a command; `P` is how a path is held. The values that are not here are those of the session.
#[derive(Drop)]
pub enum ReplyKind<P> {
    /// Nothing yet: the reply follows once a port is had.
    Nothing,
    Fixed(FixedReply),
    /// The current directory.
    Here,
    /// The directory that was made.
    Made(P),
    /// The place of a REST.
    Restarting(u64),
    /// The endpoint that PASV opened.
    Passive(Endpoint),
    /// The port that EPSV opened.
    Extended(u16),
    /// The octets that a transfer would have.
    Size(u64),
    /// The fourteen digits of a file's moment.
    Stamp([u8; 14]),
    /// The entry of what stands at a path.
    Entry(P),
    /// What is done beyond RFC 959, with the facts in force.
    Features,
    /// The facts that OPTS MLST has put in force.
    Chosen,
}
