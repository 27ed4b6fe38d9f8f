// What a user asks of a server.
ghost use Rattle.std.specs.Prelude.{◌≡◌};

use ftp_settings::Representation;

/// How a transfer goes: the representation (RFC 959, sections 3.1 and 3.4) and the data connection.
#[derive(Clone, Copy, Debug, PartialEq, Eq)]
pub struct How {
    pub representation: Representation,
    /// Restart markers are asked for, in an upload in image, file structure and block mode.
    pub marks: bool,
    /// The server opens the data connection, and else the client.
    pub active: bool,
    /// By EPRT and EPSV (RFC 2428) also over IPv4.
    pub extended: bool,
}

/// The command by which a listing is asked for (RFC 959, section 4.1.3; RFC 3659, section 7).
#[derive(Clone, Copy, Debug, PartialEq, Eq)]
pub enum ListVerb {
    List,
    Nlst,
    Mlsd,
}

/// An operation of a user; `P` is how a text is held. Path texts are those of `ftp_path`.
pub enum Op<P> {
    /// Which directory is the current one.
    Where,
    ChangeDir(P),
    Up,
    MakeDir(P),
    RemoveDir(P),
    Delete(P),
    /// From the first path to the second.
    Rename(P, P),
    /// A path and the octets of the file.
    Put(P, P, How),
    /// A path and the octets that go behind those of the file.
    Append(P, P, How),
    /// A path, how many octets of the file's transfer stay, and the octets that go behind them.
    PutFrom(P, u64, P, How),
    Get(P, How),
    /// A path, and how many octets of the file's transfer are left out.
    GetFrom(P, u64, How),
    /// A path, and how many of the file's first octets are asked for: all where it has fewer.
    Peek(P, u64, How),
    /// How many octets a transfer in that type would have, in file structure and stream mode.
    Size(P, How),
    Modified(P),
    /// An empty text is the current directory.
    Facts(P),
    /// The entries of a directory; an empty text is the current one.
    List(P, How),
    /// The pathnames of a directory's files; an empty text is the current directory.
    Names(P, How),
    /// The listing that a command gives, as text: its octets as they came, with LF at the end of each line; an empty text is the current directory.
    Text(ListVerb, P, How),
}

/// By hand: a derived drop is proved again, variant by variant, wherever an operation is let go.
impl<P: Drop> Drop for Op<P> {
    fn drop(self) {
        match self {
            Op::Where | Op::Up => {}
            Op::ChangeDir(_) | Op::MakeDir(_) | Op::RemoveDir(_) | Op::Delete(_) => {}
            Op::Rename(_, _) => {}
            Op::Put(_, _, _) | Op::Append(_, _, _) | Op::PutFrom(_, _, _, _) => {}
            Op::Get(_, _) | Op::GetFrom(_, _, _) | Op::Peek(_, _, _) | Op::Size(_, _) => {}
            Op::Modified(_) | Op::Facts(_) => {}
            Op::List(_, _) | Op::Names(_, _) | Op::Text(_, _, _) => {}
        }
    }
}

impl<P: Drop> Op<P> {
    ghost use Rattle.ftp_operation.specs.Operation.{octets_put};

    /// The octets of a Put, which are taken out of it; no other operation has any.
    pub fn into_put(self) -> Option<P>
        ensures { result ≡ octets_put self }
    {
        match self {
            Op::Put(_, octets, _) => Some(octets),
            _ => None,
        }
    }
}
