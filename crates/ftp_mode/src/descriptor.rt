//! The descriptors of blocks, bit by bit (RFC 959, section 3.4.2).

/// No end stands behind the block.
pub const GOES_ON: u8 = 0;

/// A record ends with the block.
pub const END_OF_RECORD: u8 = 128;

/// The file ends with the block.
pub const END_OF_FILE: u8 = 64;

/// The record and the file end with the block: both bits.
pub const END_OF_BOTH: u8 = 192;

/// The data may be wrong.
pub const SUSPECTED_ERRORS: u8 = 32;

/// The octets of the block are a restart marker.
pub const RESTART_MARKER: u8 = 16;
