// Why a `.netrc` is refused.

/// Why a `.netrc` is not read.
#[derive(Clone, Copy)]
pub enum NetrcFault {
    /// A word in quotes that does not end on its line.
    Quote,
    Memory,
}
