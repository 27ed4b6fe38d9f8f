// The states of a server's parts; `P` is how a path is held, `T` how a text.
use ftp_endpoint::Endpoint;

/// Who is logged in (RFC 959, section 4.1.1).
#[derive(Drop)]
pub enum Access<T> {
    Nobody,
    /// A USER was answered that a password is needed: its name.
    AwaitsPass(T),
    Known,
}

/// What is pending for the next line only (RFC 959, sections 4.1.2 and 4.1.3).
#[derive(Drop)]
pub enum Pending<P> {
    Nothing,
    /// The path that an accepted RNFR named.
    Rename(P),
    /// The number that an accepted REST named.
    Restart(u64),
}

/// Whether a session goes on.
#[derive(Clone, Copy)]
pub enum Life {
    Running,
    /// QUIT was heard: the control connection is closed once the reply is out.
    Quit,
    /// The control connection ended.
    Cut,
}

/// The command that asked for a port to listen at.
#[derive(Clone, Copy)]
pub enum PassiveVerb {
    Pasv,
    Epsv,
}

/// How the data connection of a transfer is opened.
#[derive(Clone, Copy)]
pub enum Way {
    /// The server connects to this endpoint.
    Connect(Endpoint),
    /// The client connects to the port that is listened at.
    Accept,
}

/// The data connection of a session; `J` is its transfer (RFC 959, sections 3.2 and 4.1.2).
#[derive(Drop)]
pub enum ServerLink<J> {
    /// No endpoint is set.
    Free,
    /// A port to listen at was asked for.
    Asked(PassiveVerb),
    /// The endpoint that the client named by PORT or EPRT.
    Active(Endpoint),
    /// A port is listened at.
    Passive,
    /// The client has opened it, and no transfer was asked for yet.
    Ready,
    /// A transfer was begun, and it is not open yet.
    Opening(J, Way),
    /// It is open, and a transfer is under way.
    Transferring(J),
}

/// What an upload keeps of the file that stands at its path, in front of what comes; and whether others changed what stands there since it began.
#[derive(Clone, Copy)]
pub enum Keep {
    /// The octets before a place: none at 0.
    First(u64),
    /// All that stand there when it ends (APPE); so many stood when it began, which its restart markers count.
    All(u64),
    /// As `First`, of an upload at whose path others changed what stands. It is put there only if it is whole.
    FirstOvertaken(u64),
    /// As `All`, of such an upload.
    AllOvertaken(u64),
}

/// What stands at the path of an upload, as far as a change of it is seen.
#[derive(Clone, Copy)]
pub enum Standing {
    Nothing,
    Dir,
    /// A file of so many octets, installed at a moment in seconds.
    File { size: u64, moment: u64 },
}

/// A transfer; `D` is what came of an upload, `W` what is still to be given of a download, `L` of a listing.
#[derive(Drop)]
pub enum Transfer<P, D, W, L> {
    /// An upload to a path.
    Upload { path: P, keep: Keep, decoder: D },
    /// An upload that passed a limit of octets.
    OverLimit,
    Download(W),
    Listing(L),
}
