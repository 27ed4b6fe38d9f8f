// What a line of the control connection asks of a server.
use ftp_command::{Command, CommandFault, Verb};

/// How many octets of what a line names are told at most (own choice).
pub const TOLD_LIMIT: usize = 512;

/// A line of the control connection as a server has read it; `T` is how a text is held.
#[derive(Drop)]
pub enum HeardLine<T> {
    /// It was longer than its limit.
    TooLong,
    /// It says no command, and why.
    Bad(CommandFault),
    /// It says this command.
    Asks(Command<T>),
}

/// A line that the last call acted on, lent; no password is told.
#[derive(Clone, Copy)]
pub struct Answered<'a> {
    /// None: the line says no command.
    pub verb: Option<Verb>,
    /// At most 512 octets of the path text that it gives, or of the name of a user; empty where it gives neither.
    pub text: &'a [u8],
    /// The code of the reply that it made at once, 150 for a transfer that begins; none where the reply follows once a port is had.
    pub code: Option<u16>,
}
