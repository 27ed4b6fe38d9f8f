//! The escape octet of stream mode with records, and the codes behind it (RFC 959, section 3.4.1).

/// A code follows. As a code it stands for a data octet of this value.
pub const ESCAPE: u8 = 255;

/// The record ends here.
pub const RECORD_CODE: u8 = 1;

/// The file ends here.
pub const FILE_CODE: u8 = 2;

/// The record and the file end here: both bits.
pub const BOTH_CODE: u8 = 3;
