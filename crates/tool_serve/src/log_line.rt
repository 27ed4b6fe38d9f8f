// Who tells of sessions on standard error, and what a line says of the server itself.
use ftp_disk_tree::LeftOut;
use std::fmt::{Display, Formatter};
use std::time::Clock;
use std::{fmt, io};
use tool_log::{LogEntry, LogLines, SessionNote};
use tool_terminal::Shown;

/// A clock as one trait without types of its own: what stands on it is proved for less.
pub(crate) trait Tells {
    /// Writes a line of the log that tells of the server itself.
    fn tell<T: Display>(&self, lines: &LogLines, what: &T);

    /// Writes one that tells how a session goes.
    fn tell_session(&self, lines: &LogLines, note: &SessionNote<'_>);

    /// Writes one that tells of a line of a client.
    fn tell_command(&self, lines: &LogLines, entry: &LogEntry<'_>);
}

impl<R: Clock> Tells for R {
    fn tell<T: Display>(&self, lines: &LogLines, what: &T) {
        lines.tell(self, what);
    }

    fn tell_session(&self, lines: &LogLines, note: &SessionNote<'_>) {
        lines.tell_session(self, note);
    }

    fn tell_command(&self, lines: &LogLines, entry: &LogEntry<'_>) {
        lines.tell_command(self, entry);
    }
}

/// What is told of the server itself, behind how it begins.
#[derive(Clone, Copy)]
pub(crate) struct ServerNotice<'a, T>(pub(crate) &'static str, pub(crate) &'a T);

impl<'a, T: Display> Display for ServerNotice<'a, T> {
    fn fmt<W: fmt::Write>(&self, formatter: &mut Formatter<W>) -> fmt::Result {
        write!(formatter, "{}{}", self.0, self.1)
    }
}

/// What others brought into the folder and is not served, since it passes a limit: how many entries, and which is the first.
#[derive(Clone, Copy)]
pub(crate) struct NotTaken<'a>(pub(crate) &'a LeftOut);

impl<'a> Display for NotTaken<'a> {
    fn fmt<W: fmt::Write>(&self, formatter: &mut Formatter<W>) -> fmt::Result {
        let count = self.0.count;
        write!(
            formatter,
            "note: {count} entries that came to the folder are not served"
        )?;
        match &self.0.first {
            Some(first) => write!(formatter, "; the first is {first}"),
            None => Ok(()),
        }
    }
}

/// What is told of a file, behind its name; of none where it is not known.
#[derive(Clone, Copy)]
pub(crate) struct OfFile<'a, T>(pub(crate) Option<&'a str>, pub(crate) &'a T);

impl<'a, T: Display> Display for OfFile<'a, T> {
    fn fmt<W: fmt::Write>(&self, formatter: &mut Formatter<W>) -> fmt::Result {
        if let Some(file) = self.0 {
            write!(formatter, "{}: ", Shown(file.as_bytes()))?;
        }
        write!(formatter, "{}", self.1)
    }
}

/// Why the system gives no connection.
#[derive(Drop)]
pub(crate) struct NoClient(pub(crate) io::Error);

impl Display for NoClient {
    fn fmt<W: fmt::Write>(&self, formatter: &mut Formatter<W>) -> fmt::Result {
        write!(
            formatter,
            "error: no client can be taken: {}; it is tried again each second",
            self.0
        )
    }
}
