use std::error::Error;
use std::fmt;

/// Why a receiver refuses.
#[derive(Clone, Copy, Debug, PartialEq, Eq)]
pub enum ReprFault {
    /// A growth of the file was refused.
    Memory,
}

impl fmt::Display for ReprFault {
    fn fmt<W: fmt::Write>(&self, f: &mut fmt::Formatter<W>) -> fmt::Result {
        write!(f, "P1 Memory")
    }
}

impl Error for ReprFault {}
