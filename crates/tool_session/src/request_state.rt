// What is asked over one control connection, as its data connections know it, and how the last of these ended.
ghost use Rattle.std.specs.Prelude.{◌≡◌};
ghost use Rattle.tool_session.specs.Course.{is_past, is_unended, says_done};

use crate::request::{Request, most_of, span_of};
use crate::stream_body::StreamBody;
use ftp_operation::Answer;
use ftp_ports::Ready;
use std::alloc::Global;
use std::cell::Cell;
use tool_terminal::Span;

/// The first octet of a reply that all is done (RFC 959, section 4.2.1).
const COMPLETION: u8 = b'2';

/// The most that a data connection may bring.
#[derive(Clone, Copy)]
pub struct DataLimits {
    /// Of the data connection.
    pub octets: u64,
    /// Of a listing; of a file none are counted.
    pub lines: Option<u64>,
}

/// How the last data connection ended, beside what was answered.
#[derive(Clone, Copy)]
pub enum DataEnding {
    /// As the answer says.
    Answered,
    /// It did not end although the server said that all is done: the last wait for its octets found none, mostly since a server may be silent no longer.
    Unended,
    /// This end cut it off, since more came than may.
    PastLimit,
}

/// What is known of the request under way.
#[derive(Drop)]
pub struct RequestState {
    most: Cell<DataLimits>,
    span: Cell<Span>,
    /// Whether the last wait for its data connection found nothing: no octet, no room and no end.
    is_silent: Cell<bool>,
    ending: Cell<DataEnding>,
    /// Whether octets moved over any of its data connections, of this request or one before.
    has_moved: Cell<bool>,
    /// What goes over its data connection, where that is carried, while none has it.
    pub stream_body: Cell<Option<StreamBody>>,
}

impl RequestState {
    /// Nothing is asked yet.
    pub fn new() -> RequestState {
        RequestState::around(Cell::new(None))
    }

    /// Nothing is asked yet, and this will hold what goes over its data connection. It is handed in, so that who makes a list of these
    /// names its type, without which the list has no proof.
    pub fn around(stream_body: Cell<Option<StreamBody>>) -> RequestState {
        RequestState {
            most: Cell::new(DataLimits {
                octets: 0,
                lines: None,
            }),
            span: Cell::new(Span {
                start: 0,
                total: None,
            }),
            is_silent: Cell::new(false),
            ending: Cell::new(DataEnding::Answered),
            has_moved: Cell::new(false),
            stream_body,
        }
    }

    /// This is asked now.
    pub fn begin(&self, request: &Request) {
        self.most.set(most_of(request));
        self.span.set(span_of(request));
        self.is_silent.set(false);
        self.ending.set(DataEnding::Answered);
    }

    /// A wait for the data connection ended so. It is lost where the server was silent for as long as it may be, and also where its control connection
    /// ended or the system's call failed.
    pub fn waited(&self, ready: Ready) {
        if ready == Ready::Lost {
            self.is_silent.set(true);
        }
    }

    /// So many octets moved over a data connection: it is silent no longer.
    pub fn moved(&self, count: usize) {
        if count > 0 {
            self.has_moved.set(true);
            self.is_silent.set(false);
        }
    }

    /// Whether octets moved over a data connection, of this request or one before.
    pub fn has_moved(&self) -> bool {
        self.has_moved.get()
    }

    /// This is reported, and the server said this line last.
    pub fn reported(&self, report: &Option<Answer<Global>>, line: &[u8]) {
        if is_unended(self.is_silent.get(), report, line) {
            self.ending.set(DataEnding::Unended);
        }
    }

    /// Whether lines of the data connection are counted.
    pub fn counts_lines(&self) -> bool {
        self.most.get().lines.is_some()
    }

    /// Whether so many octets and lines of the data connection are more than may come; then it is cut off.
    pub fn cuts_off(&self, octets: u64, lines: u64) -> bool {
        let is_past = is_past(self.most.get(), octets, lines);
        if is_past {
            self.ending.set(DataEnding::PastLimit);
        }
        is_past
    }

    /// What the request moves.
    pub fn span(&self) -> Span {
        self.span.get()
    }

    /// How the last data connection ended.
    pub fn ending(&self) -> DataEnding {
        self.ending.get()
    }
}

/// Whether a data connection did not end although the server says that all is done: what it brought is reported as broken off, and the last wait for more
/// found nothing.
fn is_unended(is_silent: bool, report: &Option<Answer<Global>>, line: &[u8]) -> bool
    // Witness: an equation; `edits/a_data_connection_that_broke_counts_as_unended`.
    ensures { result ≡ is_unended is_silent report.now line.now }
{
    match report {
        Some(Answer::Broken { got: _, mark: _ }) => is_silent && says_done(line),
        _ => false,
    }
}

/// Whether a line says that all is done.
fn says_done(line: &[u8]) -> bool
    // Witness: an equation; `edits/any_line_says_that_all_is_done`.
    ensures { result ≡ says_done line.now }
{
    match line.first() {
        Some(octet) => *octet == COMPLETION,
        None => false,
    }
}

/// Whether so many octets and lines are more than the most.
fn is_past(most: DataLimits, octets: u64, lines: u64) -> bool
    // Witness: an equation; `edits/lines_past_the_limit_are_taken`.
    ensures { result ≡ is_past most octets lines }
{
    let has_more_lines = match most.lines {
        Some(most) => most < lines,
        None => false,
    };
    most.octets < octets || has_more_lines
}
