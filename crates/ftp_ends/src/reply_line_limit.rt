// The limit of a reply line.

/// The most octets of a reply line, its end included (own choice).
pub const REPLY_LIMIT: usize = 4096;
