// How many octets one call moves at most, and how many turns a loop makes.

/// A loop over reads or writes ends, as after a failed one, once it has made so many turns.
pub const TURNS: u64 = 1_099_511_627_776;

/// The most octets that a program asks one read for.
pub const PIECE_LIMIT: usize = 4096;

/// The most octets that an end asks one read or one write of a data connection for.
pub const DATA_PIECE_LIMIT: usize = 262_144;
