// What is told of a session: how it goes, and each line that was acted on.
use crate::named::QuotedName;
use ftp_command::Verb;
use std::fmt::{Display, Formatter};
use std::net::SocketAddr;
use std::{fmt, io};

/// How the last data connection was closed.
#[derive(Clone, Copy)]
pub enum DataClose {
    Ended,
    /// By a reset, since octets that were to go did not.
    Reset,
}

/// How a session goes, in a word or two, and whose it is.
#[derive(Clone, Copy)]
pub struct SessionNote<'a> {
    pub peer: SocketAddr,
    pub what: &'a str,
}

impl<'a> Display for SessionNote<'a> {
    fn fmt<W: fmt::Write>(&self, formatter: &mut Formatter<W>) -> fmt::Result {
        write!(formatter, "{} {}", self.peer, self.what)
    }
}

/// What is told of a line: whose it is, what it names, the octets that went over data connections for it, and how it ended.
#[derive(Drop)]
pub struct LogEntry<'a> {
    pub peer: SocketAddr,
    pub user: &'a [u8],
    pub verb: Option<Verb>,
    pub names: &'a [u8],
    pub moved: u64,
    /// How many milliseconds its transfer took; none where none began.
    pub took: Option<u64>,
    pub outcome: LineOutcome,
}

impl<'a> Display for LogEntry<'a> {
    fn fmt<W: fmt::Write>(&self, formatter: &mut Formatter<W>) -> fmt::Result {
        let verb = verb_text(self.verb);
        write!(formatter, "{} {} {verb} ", self.peer, QuotedName(self.user))?;
        write!(
            formatter,
            "{} {} {}",
            QuotedName(self.names),
            self.moved,
            self.outcome
        )
    }
}

/// The letters of a verb; a hyphen for one that is not known.
fn verb_text(verb: Option<Verb>) -> &'static str {
    match verb {
        Some(verb) => str::from_utf8(verb.letters()).unwrap_or("-"),
        None => "-",
    }
}

/// The letters of a verb; none of one that is not known.
pub(crate) fn letters_of(verb: Option<Verb>) -> &'static [u8] {
    match verb {
        Some(verb) => verb.letters(),
        None => b"",
    }
}

/// How a line ended: the code of its last reply, `reset`, and the system's reason.
#[derive(Drop)]
pub struct LineOutcome {
    pub code: Option<u16>,
    pub fate: DataClose,
    pub why: Option<io::Error>,
}

impl Display for LineOutcome {
    fn fmt<W: fmt::Write>(&self, formatter: &mut Formatter<W>) -> fmt::Result {
        match self.code {
            Some(code) => write!(formatter, "{code}")?,
            None => write!(formatter, "unanswered")?,
        }
        if self.fate == DataClose::Reset {
            write!(formatter, " reset")?;
        }
        match &self.why {
            Some(why) => write!(formatter, " {why}"),
            None => Ok(()),
        }
    }
}
