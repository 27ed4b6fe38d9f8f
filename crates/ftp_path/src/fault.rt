// Why a text leads to no path.
use thiserror::Error;

/// Whether a text is a path text is told first, then whether its path is too long, and only then is memory asked for.
#[derive(Clone, Copy, Debug, PartialEq, Eq, Error)]
pub enum PathFault {
    /// It is no path text: it is empty, has over 900 octets, an octet of 0 to 31 or 127, or is no UTF-8.
    #[error("no path")]
    NotText,
    /// A name of over 255 octets, or a canonical text of over 900.
    #[error("too long")]
    TooBig,
    /// The allocator refused a growth.
    #[error("out of memory")]
    Memory,
}
