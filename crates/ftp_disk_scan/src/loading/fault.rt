// Why a folder is not loaded, and what of it is left out.
ghost use Rattle.std.specs.Prelude.{◌≡◌, None};

use ftp_tree::TreeFault;
use std::alloc::Global;
use std::fmt::{Display, Formatter};
use std::io::{Error, ErrorKind};
use std::{fmt, io};

/// What is told of a name that no tree has.
const NO_NAME: &str = "its name is no name of a tree";

/// What is told of what is neither file nor directory.
const NO_KIND: &str = "neither a file nor a directory";

/// What is done about what can't be served.
#[derive(Clone, Copy, Debug, PartialEq, Eq)]
pub enum Unserved {
    /// The first of it is the fault.
    Refuse,
    /// It is left out, and counted.
    LeaveOut,
}

/// What is wrong with what stands at a place.
#[derive(Clone, Copy)]
pub enum Reason {
    /// Its name is none of a tree: no UTF-8, octets 0 to 31 or 127, or over 255 octets.
    Name,
    /// A link, a device, a pipe or a socket.
    Kind,
    /// A limit is passed: of a path, of a file, of all files or of their number.
    Tree(TreeFault),
    /// The system refused to look at it, or to tell what is in it.
    System(io::Error),
}

impl Reason {
    /// What stands at the place that was asked for, as a look tells of it.
    pub fn error(self) -> io::Error {
        match self {
            Reason::Name => Error::new(ErrorKind::InvalidFilename, NO_NAME),
            Reason::Kind => Error::new(ErrorKind::Unsupported, NO_KIND),
            Reason::Tree(TreeFault::TooBig) => {
                Error::new(
                    ErrorKind::FileTooLarge,
                    "past a limit of a file or of a path",
                )
            }
            Reason::Tree(TreeFault::Full) => Error::new(
                ErrorKind::QuotaExceeded,
                "past a limit of all files or of their number",
            ),
            Reason::Tree(_) => Error::new(ErrorKind::Other, "the tree refuses it"),
            Reason::System(error) => error,
        }
    }
}

impl Display for Reason {
    fn fmt<W: fmt::Write>(&self, formatter: &mut Formatter<W>) -> fmt::Result {
        match self {
            Reason::Name => formatter.write_str(NO_NAME),
            Reason::Kind => formatter.write_str(NO_KIND),
            Reason::Tree(fault) => write!(formatter, "{fault}"),
            Reason::System(error) => write!(formatter, "{error}"),
        }
    }
}

/// Why a folder is not loaded: which file or directory, and what is wrong with it.
pub enum LoadFault {
    /// The place is below the folder, as octets: it may be no UTF-8.
    Refused { place: Vec<u8, Global>, why: Reason },
    /// The allocator refused a growth.
    Memory,
}

impl Display for LoadFault {
    fn fmt<W: fmt::Write>(&self, formatter: &mut Formatter<W>) -> fmt::Result {
        match self {
            LoadFault::Refused { place, why } => {
                let place = Place(place.as_slice());
                write!(formatter, "{place}: {why}")
            }
            LoadFault::Memory => write!(formatter, "out of memory"),
        }
    }
}

/// A place as it is told: in quotation marks, and by escaped octets where it is no UTF-8.
#[derive(Clone, Copy)]
struct Place<'a>(&'a [u8]);

impl<'a> Display for Place<'a> {
    fn fmt<W: fmt::Write>(&self, formatter: &mut Formatter<W>) -> fmt::Result {
        match std::str::from_utf8(self.0) {
            Ok(text) => write!(formatter, "{text:?}"),
            Err(_) => write_escaped(self.0, formatter),
        }
    }
}

/// Writes octets in quotation marks, those that are no visible ASCII as `\xHH`, and so a quotation mark and a backslash.
fn write_escaped<W: fmt::Write>(octets: &[u8], formatter: &mut Formatter<W>) -> fmt::Result {
    formatter.write_str("\"")?;
    for octet in octets {
        let octet = *octet;
        if (32..127).contains(&octet) && octet != b'"' && octet != b'\\' {
            formatter.write_char(char::from(octet))?;
        } else {
            write!(formatter, "\\x{octet:02x}")?;
        }
    }
    formatter.write_str("\"")
}

/// By hand: a derived drop is proved again wherever a fault is let go.
impl Drop for LoadFault {
    fn drop(self) {
        match self {
            LoadFault::Refused { place: _, why: _ } | LoadFault::Memory => {}
        }
    }
}

impl LoadFault {
    /// The fault that tells of a place.
    pub(crate) fn at(alloc: Global, place: &[u8], why: Reason) -> LoadFault {
        match Vec::from_slice(alloc, place) {
            Ok(place) => LoadFault::Refused { place, why },
            Err(_) => LoadFault::Memory,
        }
    }

    /// The same, as a look tells of it.
    pub(crate) fn error(&self) -> io::Error {
        match self {
            LoadFault::Refused { place: _, why } => why.error(),
            LoadFault::Memory => Error::from(ErrorKind::OutOfMemory),
        }
    }
}

/// What of a folder is left out.
#[derive(Drop)]
pub struct LeftOut {
    /// How many entries.
    pub count: u64,
    /// Why the first one.
    pub first: Option<LoadFault>,
}

impl LeftOut {
    /// Nothing is.
    pub fn nothing() -> LeftOut
        // Witness: equations; `edits/something_is_left_out_of_nothing`.
        ensures count { result.count ≡ 0 }
        ensures first { result.first ≡ None }
    {
        LeftOut {
            count: 0,
            first: None,
        }
    }

    /// Whether as many entries are left out, and the same first one.
    pub fn is_same(&self, other: &LeftOut) -> bool {
        self.count == other.count && self.first_place() == other.first_place()
    }

    /// The place of the first one.
    fn first_place(&self) -> &[u8] {
        match &self.first {
            Some(LoadFault::Refused { place, why: _ }) => place.as_slice(),
            Some(LoadFault::Memory) | None => b"".as_slice(),
        }
    }

    /// One more is left out.
    fn put(&mut self, alloc: Global, place: &[u8], why: Reason) {
        self.count = self.count.saturating_add(1);
        if self.first.is_none() {
            self.first = Some(LoadFault::at(alloc, place, why));
        }
    }
}

/// What becomes of what can't be served, and what was left out so far.
pub(crate) enum UnservedHandling {
    /// The first of it ends the walk.
    Refuse,
    /// It is left out.
    LeaveOut(LeftOut),
    /// It is left out, and why what stands at a place that was asked for, or above it, is; what passes a limit is counted, too.
    Asked {
        place: String<Global>,
        why: Option<Reason>,
        left: LeftOut,
    },
}

/// By hand, as that of a fault.
impl Drop for UnservedHandling {
    fn drop(self) {
        match self {
            UnservedHandling::Refuse
            | UnservedHandling::LeaveOut(_)
            | UnservedHandling::Asked {
                place: _,
                why: _,
                left: _,
            } => {}
        }
    }
}

impl UnservedHandling {
    /// What stands at a place can't be served.
    pub(crate) fn meet(
        &mut self,
        alloc: Global,
        place: &[u8],
        why: Reason,
    ) -> Result<(), LoadFault> {
        match self {
            UnservedHandling::Refuse => return Err(LoadFault::at(alloc, place, why)),
            UnservedHandling::LeaveOut(left) => left.put(alloc, place, why),
            UnservedHandling::Asked {
                place: asked,
                why: first,
                left,
            } => {
                if let Reason::Tree(_) = why {
                    left.put(alloc, place, why);
                }
                if first.is_none() && is_at_or_above(place, asked.as_bytes()) {
                    *first = Some(why);
                }
            }
        }
        Ok(())
    }

    /// Whether a look is taken up.
    pub(crate) fn is_look(&self) -> bool {
        matches!(self, UnservedHandling::Asked { .. })
    }

    /// What was left out; at a look, what passed a limit.
    pub(crate) fn into_left(self) -> LeftOut {
        match self {
            UnservedHandling::LeaveOut(left) => left,
            UnservedHandling::Asked {
                place: _place,
                why: _,
                left,
            } => left,
            UnservedHandling::Refuse => LeftOut::nothing(),
        }
    }

    /// Why what was asked for can't be served.
    pub(crate) fn why(&self) -> Option<Reason> {
        match self {
            UnservedHandling::Asked { why, .. } => *why,
            UnservedHandling::Refuse | UnservedHandling::LeaveOut(_) => None,
        }
    }
}

/// Whether names joined are those of a place, or of one above it.
pub(crate) fn is_at_or_above(above: &[u8], place: &[u8]) -> bool {
    match place.strip_prefix(above) {
        Some(rest) => rest.is_empty() || rest[0] == b'/',
        None => false,
    }
}
