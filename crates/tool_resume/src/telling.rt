// What an answer that is none of those wished for tells, in a sentence and an exit status.
ghost use Rattle.std.specs.Prelude.{◌≡◌, ◌≢◌, IfOk};
ghost use Rattle.tool_resume.specs.Telling.{told_status};

use ftp_operation::Answer;
use std::alloc::Global;
use std::fmt::{Display, Formatter};
use std::io::Eprint;
use std::{fmt, io};
use tool_session::{LastReply, ServerRefusal, Stranger, say};
use tool_terminal::{Shown, Status};

/// Tells on standard error why an operation at a path was not done, and gives the exit status; `stranger` is how another host may have come to be at the
/// other end of its data connection, `last_reply` what the server said last. Fails where standard error can't be written.
pub fn tell<R: Eprint>(
    rt: &R,
    path: &str,
    stranger: Stranger,
    answer: &Answer<Global>,
    last_reply: &LastReply,
) -> io::Result<Status>
    // Witness of status: an equation; `edits/a_lost_control_connection_is_a_refusal`.
    ensures status { IfOk result (λ status. status ≡ told_status answer.now) }
    // Witness of fails: `leave` of `tool_job` needs it.
    ensures fails { IfOk result (λ status. status ≢ Status.Done) }
{
    let status = status_of(answer);
    tell_why(rt, path, stranger, answer, last_reply)?;
    Ok(status)
}

/// Tells on standard error why it was not done.
fn tell_why<R: Eprint>(
    rt: &R,
    path: &str,
    stranger: Stranger,
    answer: &Answer<Global>,
    last_reply: &LastReply,
) -> io::Result<()> {
    match answer {
        Answer::Refused(code) => {
            let why = Refused {
                path: Shown(path.as_bytes()),
                refusal: last_reply.refusal(*code),
            };
            say(rt, "error: ", &why, "")
        }
        Answer::Lost => say(
            rt,
            "error: the control connection ended",
            &last_reply.farewell(),
            extent_of(last_reply.is_mute()),
        ),
        Answer::Foreign => say(rt, "error: ", &stranger.sentence(), ""),
        Answer::Strange => say(
            rt,
            "error: the server says what has no place",
            &last_reply.said(),
            "",
        ),
        other => say(rt, "error: ", &sentence(other), ""),
    }
}

/// What a server refuses, and how it says so.
#[derive(Clone, Copy)]
struct Refused<'a> {
    path: Shown<'a>,
    refusal: ServerRefusal<'a>,
}

impl<'a> Display for Refused<'a> {
    fn fmt<W: fmt::Write>(&self, formatter: &mut Formatter<W>) -> fmt::Result {
        let Refused { path, refusal } = self;
        write!(formatter, "{path}: the server refuses it: {refusal}")
    }
}

/// How much may be done where a control connection ended, by whether the server said nothing at all.
fn extent_of(is_mute: bool) -> &'static str {
    if is_mute {
        "; nothing is done"
    } else {
        "; it may be done in part"
    }
}

/// Why an operation was not done of which the server says nothing more.
fn sentence(answer: &Answer<Global>) -> &'static str {
    match answer {
        Answer::BadOperation => "the path is no path that can be sent",
        Answer::Unopened => "no data connection was opened, and nothing is done",
        Answer::Broken { got: _, mark: _ } => "the data connection broke; it may be done in part",
        Answer::Memory => "out of memory",
        _ => "the server answers what was not asked",
    }
}

/// The exit status of an answer that is told.
fn status_of(answer: &Answer<Global>) -> Status
    ensures status { result ≡ told_status answer.now }
    ensures fails { result ≢ Status.Done }
{
    match answer {
        Answer::BadOperation => Status::BadWords,
        Answer::Refused(_) | Answer::Broken { got: _, mark: _ } => Status::Refused,
        Answer::Unopened | Answer::Foreign | Answer::Strange => Status::Refused,
        _ => Status::Failed,
    }
}

/// Tells that a file of `size` octets has more than `limit`, and gives the exit status. Fails where standard error can't be written.
pub fn tell_too_large<R: Eprint>(rt: &R, name: &str, size: u64, limit: u64) -> io::Result<Status>
    // Witness: `edits/a_file_that_is_too_large_is_a_failure`.
    ensures { IfOk result (λ status. status ≡ Status.Refused) }
{
    let part = TooLarge {
        name: Shown(name.as_bytes()),
        part: ToldPart {
            count: size,
            between: " octets are past the limit of ",
            total: limit,
        },
    };
    say(rt, "error: ", &part, ", which --limit sets")?;
    Ok(Status::Refused)
}

/// A file that has too many octets.
#[derive(Clone, Copy)]
struct TooLarge<'a> {
    name: Shown<'a>,
    part: ToldPart<'a>,
}

impl<'a> Display for TooLarge<'a> {
    fn fmt<W: fmt::Write>(&self, formatter: &mut Formatter<W>) -> fmt::Result {
        write!(formatter, "{}: {}", self.name, self.part)
    }
}

/// How much of a file there is, as it is told: both numbers, and a text between them.
#[derive(Clone, Copy)]
pub struct ToldPart<'a> {
    pub count: u64,
    pub between: &'a str,
    pub total: u64,
}

impl<'a> Display for ToldPart<'a> {
    fn fmt<W: fmt::Write>(&self, formatter: &mut Formatter<W>) -> fmt::Result {
        write!(formatter, "{}{}{}", self.count, self.between, self.total)
    }
}

/// How much of a file a server has, as it is told.
#[derive(Clone, Copy)]
pub(crate) struct Had<'a> {
    pub(crate) part: ToldPart<'a>,
}

impl<'a> Display for Had<'a> {
    fn fmt<W: fmt::Write>(&self, formatter: &mut Formatter<W>) -> fmt::Result {
        write!(formatter, "the server has {}", self.part)
    }
}
