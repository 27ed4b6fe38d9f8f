// The most octets of a path text and of a name (own choices: RFC 959 has no limit).

/// The most octets of a path text and of a canonical text.
pub const TEXT_LIMIT: usize = 900;

/// The most octets of a name.
pub(crate) const NAME_LIMIT: usize = 255;
