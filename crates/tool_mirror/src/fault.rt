// Why something of a mirror was not done, and the sentence that is told of it behind its path.
ghost use Rattle.std.specs.Prelude.{◌≡◌};
ghost use Rattle.tool_mirror.specs.Fault.{effect_of, ended_by, fault_by, means_missing, of_download, parts_of, side_of, told_of};

use ftp_operation::Answer;
use ftp_reply::code::{BAD_ARGUMENT, UNAVAILABLE};
use std::alloc::{AllocError, Global};
use std::fmt::{Display, Formatter};
use std::io::ErrorKind;
use std::{fmt, io};
use tool_mirror_plan::RefusalReason;
use tool_session::Stranger;

/// Why something was not done.
#[derive(Clone, Copy)]
pub(crate) enum MirrorFault {
    /// The server refuses it, by this code.
    Refused(u16),
    /// The server knows neither MLSD nor LIST: the code of its reply.
    NoListing(u16),
    /// The control connection ended.
    Lost,
    /// Memory was refused.
    Memory,
    /// Another host than the server's was at the other end of a data connection, or was named for it.
    Foreign,
    /// The same, and how it came to be there.
    Stranger(Stranger),
    /// The path can't be sent.
    BadPath,
    /// No data connection was opened.
    Unopened,
    /// The data connection broke.
    Broken,
    /// The server said what has no place.
    Strange,
    /// The server answers another question.
    Unasked,
    /// The file changed at the server each time that it came.
    Changed,
    /// So many octets went one way or the other of a file that has so many, as the server says.
    OtherSize(u64, u64),
    /// The server says that it is done, and then that there is no such file.
    Vanished,
    /// The file has so many octets, which are more than these, the most.
    TooLarge(u64, u64),
    /// The file has more octets than these, the most.
    PastLimit(u64),
    /// The control connection ended in the last try that there is of a file.
    LastTry,
    /// The source has it, though its listing lacked it.
    StandsAtSource,
    /// What stands there is not to be replaced: entries below it are left alone, or can't be looked at.
    KeepsEntries,
    /// No name is free beside it.
    NoFreeName,
    /// Something failed since this was renamed aside.
    FailedSince,
    /// This machine refused it.
    Here(io::Error),
    /// More is to be done than a mirror takes on.
    TooManySteps,
}

/// What becomes of a mirror that met a fault.
#[derive(Clone, Copy)]
pub(crate) enum FaultEffect {
    /// The same is done again, over another control connection.
    Again,
    /// Nothing more is done.
    Stop,
    /// It is told and counted, and what comes next is done.
    Told,
}

/// An end of a mirror.
#[derive(Clone, Copy)]
pub(crate) enum FaultSide {
    /// This machine, at its folder.
    Here,
    /// The server, at its directory.
    There,
    Neither,
}

impl MirrorFault {
    /// What an answer says that is not what was asked for.
    pub(crate) fn of(answer: &Answer<Global>) -> MirrorFault
        // Witness: an equation; `edits/a_path_that_cant_be_sent_is_a_broken_connection`.
        ensures { result ≡ fault_by answer.now }
    {
        match answer {
            Answer::Refused(code) => MirrorFault::Refused(*code),
            Answer::Lost => MirrorFault::Lost,
            Answer::Memory => MirrorFault::Memory,
            Answer::Foreign => MirrorFault::Foreign,
            Answer::BadOperation => MirrorFault::BadPath,
            Answer::Unopened => MirrorFault::Unopened,
            Answer::Broken { got: _, mark: _ } => MirrorFault::Broken,
            Answer::Strange => MirrorFault::Strange,
            _ => MirrorFault::Unasked,
        }
    }

    /// What a mirror answers that does nothing more for this reason.
    pub(crate) fn answer(self) -> Answer<Global>
        // Witness: an equation; `edits/a_server_without_listings_is_short_of_memory`.
        ensures { result ≡ ended_by self }
    {
        match self {
            MirrorFault::Lost => Answer::Lost,
            MirrorFault::NoListing(code) => Answer::Refused(code),
            _ => Answer::Memory,
        }
    }

    /// Whether a directory is not there.
    pub(crate) fn is_missing(self) -> bool {
        match self {
            MirrorFault::Refused(code) => means_missing(code),
            MirrorFault::Here(error) => error.kind() == ErrorKind::NotFound,
            _ => false,
        }
    }

    /// What becomes of a mirror in which this was met.
    pub(crate) fn effect(self) -> FaultEffect
        // Witness: an equation; `edits/the_end_of_the_connection_is_told_of_a_file`.
        ensures { result ≡ effect_of self }
    {
        match self {
            MirrorFault::Lost => FaultEffect::Again,
            MirrorFault::Memory | MirrorFault::NoListing(_) => FaultEffect::Stop,
            _ => FaultEffect::Told,
        }
    }

    /// The same of a download that this ended: over another control connection it goes on, unless that was its last try.
    pub(crate) fn of_download(self, is_spent: bool) -> MirrorFault
        // Witness: an equation; `edits/a_download_goes_on_behind_its_last_try`.
        ensures { result ≡ of_download self is_spent }
    {
        match self {
            MirrorFault::Lost => {
                if is_spent {
                    MirrorFault::LastTry
                } else {
                    MirrorFault::Lost
                }
            }
            _ => self,
        }
    }

    /// At which end it was refused, as far as that has a root of its own to tell of.
    pub(crate) fn side(self) -> FaultSide
        // Witness: an equation; `edits/a_changed_file_is_of_no_end`.
        ensures { result ≡ side_of self }
    {
        match self {
            MirrorFault::Here(_) => FaultSide::Here,
            MirrorFault::Refused(_) | MirrorFault::Stranger(_) | MirrorFault::BadPath => {
                FaultSide::There
            }
            MirrorFault::Unopened | MirrorFault::Broken | MirrorFault::Strange => FaultSide::There,
            MirrorFault::Unasked | MirrorFault::Changed => FaultSide::There,
            _ => FaultSide::Neither,
        }
    }

    /// The sentence that is told of it; of an error of this machine, and of another host, more is known.
    pub(crate) fn sentence(self) -> Sentence
        // Witness: an equation; `edits/the_end_of_the_connection_is_told_as_want_of_memory`.
        ensures { parts_of result ≡ told_of self }
    {
        match self {
            MirrorFault::Refused(code) | MirrorFault::NoListing(code) => {
                Sentence::Around("the server refuses it: ", u64::from(code), "")
            }
            MirrorFault::Lost => Sentence::Plain("the control connection ended"),
            MirrorFault::Memory => Sentence::Plain("out of memory"),
            MirrorFault::Foreign | MirrorFault::Stranger(_) => {
                Sentence::Plain("another host than the server's was named, or came")
            }
            MirrorFault::BadPath => Sentence::Plain("the path is no path that can be sent"),
            MirrorFault::Unopened => Sentence::Plain("no data connection was opened"),
            MirrorFault::Broken => Sentence::Plain("the data connection broke"),
            MirrorFault::Strange => Sentence::Plain("the server says what has no place"),
            MirrorFault::Unasked => Sentence::Plain("the server answers what was not asked"),
            MirrorFault::Changed => {
                Sentence::Plain("it changed at the server each time that it came")
            }
            MirrorFault::OtherSize(went, total) => {
                Sentence::Between(went, " octets went, and the server tells a size of ", total)
            }
            MirrorFault::Vanished => Sentence::Plain(
                "the server says that it is done, and then that there is no such file",
            ),
            MirrorFault::TooLarge(size, limit) => {
                Sentence::Between(size, " octets are past the limit of ", limit)
            }
            MirrorFault::PastLimit(limit) => Sentence::Around(
                "the file has more than ",
                limit,
                " octets, which is the limit",
            ),
            MirrorFault::LastTry => {
                Sentence::Plain("the control connection ended in the last of 16 tries")
            }
            MirrorFault::StandsAtSource => Sentence::Plain(
                "the source has it, though its listing lacked it; it is not removed",
            ),
            MirrorFault::KeepsEntries => Sentence::Plain(
                "what stands there has entries that are left alone or can't be looked at; it stays",
            ),
            MirrorFault::FailedSince => Sentence::Plain(
                "it stood where something else is now, and stays under this name, since not all went well",
            ),
            MirrorFault::NoFreeName => Sentence::Plain("no name is free beside it; it stays"),
            MirrorFault::Here(_) => Sentence::Plain("this machine refuses it"),
            MirrorFault::TooManySteps => Sentence::Plain(
                "more is to be done than a mirror takes on; another run goes on",
            ),
        }
    }
}

/// Whether a code says that no directory stands at a path: 550 (RFC 959, section 4.2.2), or 501 (RFC 3659, section 7.2.1).
fn means_missing(code: u16) -> bool
    // Witness: an equation; `edits/a_bad_argument_stands`.
    ensures { result ≡ means_missing code }
{
    code == UNAVAILABLE || code == BAD_ARGUMENT
}

impl From<io::Error> for MirrorFault {
    fn from(error: io::Error) -> MirrorFault {
        MirrorFault::Here(error)
    }
}

impl From<AllocError> for MirrorFault {
    fn from(_error: AllocError) -> MirrorFault {
        MirrorFault::Memory
    }
}

/// A sentence with up to two numbers.
#[derive(Clone, Copy)]
pub(crate) enum Sentence {
    Plain(&'static str),
    /// A number between two texts.
    Around(&'static str, u64, &'static str),
    /// A text between two numbers.
    Between(u64, &'static str, u64),
}

impl Display for Sentence {
    fn fmt<W: fmt::Write>(&self, formatter: &mut Formatter<W>) -> fmt::Result {
        match *self {
            Sentence::Plain(text) => formatter.write_str(text),
            Sentence::Around(text, number, end) => write!(formatter, "{text}{number}{end}"),
            Sentence::Between(first, text, second) => write!(formatter, "{first}{text}{second}"),
        }
    }
}

/// Why an entry is refused, as it is told.
pub(crate) fn reason_told(reason: RefusalReason) -> Sentence {
    match reason {
        RefusalReason::Emptied(count) => Sentence::Around(
            "the source lists nothing there, and ",
            count as u64,
            " entries of the target would be removed; nothing is, without --delete-any",
        ),
        _ => Sentence::Plain(reason.sentence()),
    }
}
