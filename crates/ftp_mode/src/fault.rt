ghost use Rattle.std.specs.Prelude.{Some};
ghost use Rattle.ftp_mode.specs.FaultText.{frame_fault_text};

use std::error::Error;
use std::fmt;

/// Why a wire can be no text. Places are those of wire octets, from 0.
#[derive(Clone, Copy, Debug, PartialEq, Eq)]
pub enum FrameFault {
    /// The octet after an escape octet is no code. Its place.
    BadEscape(u64),
    /// A block is marked as one of suspected errors. The place of its descriptor.
    Suspect(u64),
    /// An octet of a restart marker is not printable, or a marker has no octets or more than 255. The place of the
    /// first wrong octet, or of the descriptor.
    BadMarker(u64),
    /// The connection ended without an end of file.
    EndedEarly,
}

/// The number, the name and the place, as `M1 BadEscape(2)`.
impl fmt::Display for FrameFault {
    ghost output = { λ fault. Some (frame_fault_text fault) };

    fn fmt<W: fmt::Write>(&self, f: &mut fmt::Formatter<W>) -> fmt::Result {
        match self {
            FrameFault::BadEscape(place) => write!(f, "M1 BadEscape({place})"),
            FrameFault::Suspect(place) => write!(f, "M2 Suspect({place})"),
            FrameFault::BadMarker(place) => write!(f, "M3 BadMarker({place})"),
            FrameFault::EndedEarly => f.write_str("M4 EndedEarly"),
        }
    }
}

impl Error for FrameFault {}
