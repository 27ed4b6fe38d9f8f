// What is told of a server beside its answer: the line that it said last, how many data connections were opened, and that it fell silent.
ghost use Rattle.std.specs.Prelude.{◌≡◌, ◌+◌, ◌&&◌, min, not, is_some, true, false, Some, None, []};
ghost use Rattle.tool_session.specs.Noticed.{is_silence};

use ftp_reply::code::{GIVEN_UP, NOT_AVAILABLE, NOT_LOGGED_IN};
use std::fmt;
use std::fmt::{Display, Formatter};
use tool_terminal::Shown;

/// The most octets of a line that are kept: more than a client tells.
const LINE_LIMIT: usize = 512;

/// What this end waited for no longer.
#[derive(Clone, Copy)]
enum Over {
    /// A server that was silent for so many seconds.
    Silence(u32),
    /// Anything: the time was over that there was for all.
    Time,
}

/// What is known so far.
#[derive(Drop)]
pub struct LastReply {
    /// The first octets of the line that was said last, without its end.
    line: [u8; LINE_LIMIT],
    len: usize,
    /// Whether a line was said, over any control connection.
    is_heard: bool,
    /// How many data connections were opened, over all control connections.
    opened: u32,
    /// What this end waited for no longer, where that ended the last control connection.
    over: Option<Over>,
    /// Whether octets moved over a data connection, beside the last control connection.
    has_moved: bool,
    /// How many whole seconds went by over all control connections, from the first address that was tried on.
    spent: u32,
}

impl LastReply {
    /// Nothing yet.
    pub fn new() -> LastReply {
        LastReply {
            line: [0; LINE_LIMIT],
            len: 0,
            is_heard: false,
            opened: 0,
            over: None,
            has_moved: false,
            spent: 0,
        }
    }

    /// The same, with so many data connections opened.
    pub fn with_opened(&self, opened: u32) -> LastReply
        // Witness: an equation; `edits/what_is_taken_has_no_line`.
        ensures { result ≡ record self.now { opened = opened } }
    {
        LastReply {
            line: self.line,
            len: self.len,
            is_heard: self.is_heard,
            opened,
            over: self.over,
            has_moved: self.has_moved,
            spent: self.spent,
        }
    }

    /// The control connection ended since the server was silent for so many seconds.
    pub fn fell_silent(&mut self, seconds: u32)
        // Witness: an equation; `edits/a_silent_server_counts_as_the_time_for_all`.
        ensures { self.new ≡ record self.old { over = Some (Over.Silence seconds) } }
    {
        self.over = Some(Over::Silence(seconds));
    }

    /// The control connection ended since the time was over that there was for all.
    pub fn ran_out(&mut self)
        ensures { self.new ≡ record self.old { over = Some Over.Time } }
    {
        self.over = Some(Over::Time);
    }

    /// Octets moved over a data connection, beside the control connection that is there or was there last.
    pub fn octets_moved(&mut self)
        // Witness: an equation; `edits/octets_that_moved_are_forgotten`.
        ensures { self.new ≡ record self.old { has_moved = true } }
    {
        self.has_moved = true;
    }

    /// So many data connections more were opened.
    pub fn add_opened(&mut self, count: u32)
        // Witness: an equation; `edits/the_last_control_connection_counts_alone`.
        ensures { self.new ≡ record self.old { opened = min (self.old.opened + count) 4294967295 } }
    {
        self.opened = self.opened.saturating_add(count);
    }

    /// So many seconds more went by.
    pub fn add_spent(&mut self, seconds: u32)
        // Witness: an equation; `edits/seconds_of_before_are_forgotten`.
        ensures { self.new ≡ record self.old { spent = min (self.old.spent + seconds) 4294967295 } }
    {
        self.spent = self.spent.saturating_add(seconds);
    }

    /// How many whole seconds went by.
    pub fn spent(&self) -> u32
        ensures { result ≡ self.now.spent }
    {
        self.spent
    }

    /// Whether the server said a line, over any control connection.
    pub fn is_heard(&self) -> bool
        ensures { result ≡ self.now.is_heard }
    {
        self.is_heard
    }

    /// Whether the server never said a line, and the last control connection ended since this end waited no longer.
    pub fn is_mute(&self) -> bool
        // Witness: an equation; `edits/a_server_that_spoke_is_mute`.
        ensures { result ≡ (not self.now.is_heard && is_some self.now.over) }
    {
        !self.is_heard && self.over.is_some()
    }

    /// Whether the last control connection ended since the server was silent.
    pub fn is_silent(&self) -> bool
        // Witness: an equation; `edits/the_time_for_all_counts_as_silence`.
        ensures { result ≡ is_silence self.now.over }
    {
        matches!(self.over, Some(Over::Silence(_)))
    }

    /// Whether octets moved over a data connection, beside the last control connection.
    pub fn has_moved(&self) -> bool
        ensures { result ≡ self.now.has_moved }
    {
        self.has_moved
    }

    /// How many data connections were opened.
    pub fn opened(&self) -> u32
        ensures { result ≡ self.now.opened }
    {
        self.opened
    }

    /// A refusal by a code, as it is told: the line of the reply, and where that is not known the code alone.
    pub fn refusal(&self, code: u16) -> ServerRefusal<'_>
        ensures { result.code ≡ code }
    {
        ServerRefusal {
            code,
            line: self.last(code),
        }
    }

    /// Why the control connection ended, as it is told behind a sentence: the server was silent, or says why; nothing where neither is known.
    pub fn farewell(&self) -> Said<'_> {
        Said {
            line: self.last(NOT_AVAILABLE),
            over: self.over,
        }
    }

    /// Why a further control connection is over, as it is told behind a sentence: the server says why; nothing where it does not.
    pub fn parting(&self) -> Said<'_> {
        let line = self.line();
        Said {
            line: match code_of(line) {
                Some(NOT_AVAILABLE | NOT_LOGGED_IN) => line,
                _ => &[],
            },
            over: None,
        }
    }

    /// What the server said last, as it is told behind a sentence.
    pub fn said(&self) -> Said<'_> {
        Said {
            line: self.line(),
            over: None,
        }
    }

    /// The line that was said last; an empty one where none was.
    fn line(&self) -> &[u8] {
        self.line.get(..self.len).unwrap_or(&[])
    }

    /// The same where it begins with this code; else an empty one.
    fn last(&self, code: u16) -> &[u8] {
        let line = self.line();
        if code_of(line) == Some(code) {
            line
        } else {
            &[]
        }
    }

    /// Whether the line that was said last stays: it refuses a login, and what is asked behind it is refused by the same code with less to say; or it
    /// gives up what was asked, and the size of what came is asked behind it.
    fn stays(&self) -> bool {
        let line = self.line();
        matches!(code_of(line), Some(NOT_LOGGED_IN | GIVEN_UP))
            && !matches!(line.get(3), Some(b'-'))
    }

    /// A control connection begins, on which no line was said.
    pub fn begin(&mut self)
        // Witness: an equation; `edits/a_new_control_connection_counts_as_silent`.
        ensures { self.new ≡ record self.old { len = 0; over = None; has_moved = false } }
    {
        self.len = 0;
        self.over = None;
        self.has_moved = false;
    }

    /// This line was said last, without its end; an empty one is none.
    pub fn keep(&mut self, line: &[u8])
        // Witness of empty: `edits/an_empty_line_takes_the_place_of_the_last`.
        ensures empty { line.now ≡ [] → self.new ≡ self.old }
        // Witness of rest: `edits/a_line_ends_the_silence`.
        ensures rest { self.new ≡ record self.old { line = self.new.line; len = self.new.len; is_heard = self.new.is_heard } }
    {
        if line.is_empty() || self.stays() {
            return;
        }
        let count = line.len().min(LINE_LIMIT);
        self.line[..count].copy_from_slice(&line[..count]);
        self.len = count;
        self.is_heard = true;
    }
}

/// The code that a line of a reply begins with (RFC 959, section 4.2).
fn code_of(line: &[u8]) -> Option<u16> {
    let digits = line.get(..3)?;
    std::str::from_utf8(digits).ok()?.parse().ok()
}

/// The text of a server, or its code where the text is not known.
#[derive(Clone, Copy)]
pub struct ServerRefusal<'a> {
    code: u16,
    /// Empty where the text is not known.
    line: &'a [u8],
}

impl<'a> Display for ServerRefusal<'a> {
    fn fmt<W: fmt::Write>(&self, formatter: &mut Formatter<W>) -> fmt::Result {
        if self.line.is_empty() {
            return write!(formatter, "{}", self.code);
        }
        Shown(self.line).fmt(formatter)
    }
}

/// A colon and that a server was silent, or what it said; nothing where neither is known.
#[derive(Clone, Copy)]
pub struct Said<'a> {
    line: &'a [u8],
    over: Option<Over>,
}

impl<'a> Display for Said<'a> {
    fn fmt<W: fmt::Write>(&self, formatter: &mut Formatter<W>) -> fmt::Result {
        match self.over {
            Some(Over::Silence(seconds)) => return write!(
                formatter,
                ": the server was silent for {seconds} s"
            ),
            Some(Over::Time) => return formatter.write_str(": the time of --max-time is over"),
            None => {}
        }
        if self.line.is_empty() {
            return Ok(());
        }
        formatter.write_str(": ")?;
        Shown(self.line).fmt(formatter)
    }
}
