// The room for control octets that are owed.

/// How many control octets can be owed at once (own choice).
pub const OUTPUT_ROOM: usize = 8192;

/// How much of that room is free before an octet is taken or a line is acted on: enough for whatever comes of it (own choice).
pub const FREE_ROOM: usize = 4096;
