// Type, structure and mode, and all three.
ghost use Rattle.std.specs.Prelude.{◌≡◌};
ghost use Rattle.ftp_settings.specs.Representation.{defaults, has_markers};

/// The type of a representation: what a line end is on the wire (RFC 959, section 3.1.1).
#[derive(Clone, Copy, Debug, PartialEq, Eq)]
pub enum Kind {
    /// TYPE A. A line end LF goes as CR LF, a CR as CR NUL.
    Ascii,
    /// TYPE I. Each octet goes as itself.
    Image,
}

/// The structure of a file: a row of octets, or records (RFC 959, section 3.1.2).
#[derive(Clone, Copy, Debug, PartialEq, Eq)]
pub enum Structure {
    /// STRU F. A row of octets.
    File,
    /// STRU R. Records, cut at each LF, and a tail.
    Record,
}

/// The transmission mode: how a file's octets and ends go over the data connection (RFC 959, section 3.4).
#[derive(Clone, Copy, Debug, PartialEq, Eq)]
pub enum Mode {
    /// MODE S. A stream of octets, with escape octets where there are records.
    Stream,
    /// MODE B. Blocks, each with a header of three octets.
    Block,
}

/// How a file goes over a data connection: what TYPE, STRU and MODE set (RFC 959, sections 3.1 to 3.4 and 4.1.2).
#[derive(Clone, Copy, Debug, PartialEq, Eq)]
pub struct Representation {
    pub kind: Kind,
    pub structure: Structure,
    pub mode: Mode,
}

impl Default for Representation {
    ghost is_default = { λ representation. representation ≡ defaults };

    /// What holds before any TYPE, STRU and MODE: ASCII, file, stream (RFC 959, section 5.1).
    fn default() -> Representation {
        Representation {
            kind: Kind::Ascii,
            structure: Structure::File,
            mode: Mode::Stream,
        }
    }
}

impl Representation {
    /// Whether own restart markers are written: in type I, file structure and block mode alone (own choice; RFC 959,
    /// section 3.5).
    pub fn has_markers(self) -> bool
        ensures { result ≡ has_markers self }
    {
        matches!(
            self,
            Representation {
                kind: Kind::Image,
                structure: Structure::File,
                mode: Mode::Block,
            }
        )
    }
}
