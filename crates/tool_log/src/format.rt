// How the lines of the log are written.

/// The format of the log.
#[derive(Clone, Copy)]
pub enum LogFormat {
    /// Words for people.
    Text,
    /// An object of JSON a line (RFC 8259).
    Json,
    /// The lines of `xferlog`, as wu-ftpd and vsftpd write them: one for each transfer of a file, and none of anything else.
    Xferlog,
}
