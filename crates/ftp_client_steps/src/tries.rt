// How often a transfer is tried (own choice: RFC 959, section 3.5, leaves the recovery of a transfer to the user).

/// The most tries of a download or of an upload, the first among them. Of an upload over breaks these are the Put and PutFrom.
pub const MOST_TRIES: u64 = 16;
