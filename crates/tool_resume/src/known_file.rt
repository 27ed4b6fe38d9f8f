// What a server told of a file that is downloaded: its size and its moment (RFC 3659, sections 3 and 4), and when it was asked for them.
ghost use Rattle.std.specs.Prelude.{◌≡◌};
ghost use Rattle.tool_resume.specs.Known.{answers_more, asks_moment, asks_size, moment_by, size_by};
ghost use Rattle.tool_resume.specs.Known.{is_moment_told, moment_told, seconds_told, unknown_file, version_of};

use crate::retry::is_counted;
use crate::version::{FileVersion, Size, last_change};
use ftp_facts::Moment;
use ftp_operation::{Answer, How};
use std::alloc::Global;

/// What is known of the moment of the file's last change.
#[derive(Clone, Copy)]
pub enum KnownMoment {
    /// The server is not asked for it.
    Unasked,
    /// The server does not tell it, or was not asked yet.
    Untold,
    /// The server was asked, and answered with what has no place.
    Strange,
    /// The server told it, in UTC.
    Told(Moment),
}

/// What a server told last of a file.
#[derive(Clone, Copy)]
pub(crate) struct KnownFile {
    pub(crate) size: Size,
    pub(crate) moment: KnownMoment,
    /// When it was asked for both, or before that, in seconds from the beginning of 1970, by this machine's clock.
    pub(crate) asked_at: u64,
}

impl KnownFile {
    /// Nothing is known yet of a file that is transferred so; its moment is not asked for.
    pub(crate) fn new(how: How) -> KnownFile
        // Witness: an equation; `edits/no_size_is_asked_for_in_type_i`.
        ensures { result ≡ unknown_file how }
    {
        let size = if is_counted(how) {
            Size::Untold
        } else {
            Size::Uncounted
        };
        KnownFile {
            size,
            moment: KnownMoment::Unasked,
            asked_at: 0,
        }
    }

    /// Which file that is: its size, and whether its moment is old enough that a later change has another one.
    pub(crate) fn version(self) -> FileVersion
        ensures { result ≡ version_of self }
    {
        FileVersion {
            size: self.size,
            changed: last_change(seconds_told(self.moment), self.asked_at),
        }
    }
}

/// The moment, where the server told one.
pub(crate) fn moment_told(moment: KnownMoment) -> Option<Moment>
    ensures { result ≡ moment_told moment }
{
    match moment {
        KnownMoment::Told(moment) => Some(moment),
        KnownMoment::Unasked | KnownMoment::Untold | KnownMoment::Strange => None,
    }
}

/// The same in seconds from the beginning of 1970.
fn seconds_told(moment: KnownMoment) -> Option<u64>
    ensures { result ≡ seconds_told moment }
{
    match moment {
        KnownMoment::Told(moment) => Some(moment.seconds),
        KnownMoment::Unasked | KnownMoment::Untold | KnownMoment::Strange => None,
    }
}

/// Whether the server is asked for the size: not where it would not count the octets of the transfer, answered nonsense before, or too many came.
pub(crate) fn asks_size(size: Size) -> bool
    ensures { result ≡ asks_size size }
{
    match size {
        Size::Told(_) | Size::Untold => true,
        Size::Strange | Size::Uncounted | Size::Past => false,
    }
}

/// Whether the server is asked for the moment: not where that is not wanted, nor where it answered nonsense before.
pub(crate) fn asks_moment(moment: KnownMoment) -> bool
    ensures { result ≡ asks_moment moment }
{
    match moment {
        KnownMoment::Told(_) | KnownMoment::Untold => true,
        KnownMoment::Unasked | KnownMoment::Strange => false,
    }
}

/// Whether the server told the moment.
pub(crate) fn is_moment_told(moment: KnownMoment) -> bool
    ensures { result ≡ is_moment_told moment }
{
    match moment {
        KnownMoment::Told(_) => true,
        KnownMoment::Unasked | KnownMoment::Untold | KnownMoment::Strange => false,
    }
}

/// What is known of the size once SIZE is answered so, where this was known before.
pub(crate) fn size_by(answer: &Answer<Global>, before: Size) -> Size
    // Witness: an equation; `edits/a_refused_size_is_the_one_of_before`.
    ensures { result ≡ size_by answer.now before }
{
    match answer {
        Answer::Number(count) => Size::Told(*count),
        Answer::Strange => Size::Strange,
        Answer::Lost => before,
        _ => Size::Untold,
    }
}

/// What is known of the moment once MDTM is answered so, where this was known before.
pub(crate) fn moment_by(answer: &Answer<Global>, before: KnownMoment) -> KnownMoment
    // Witness: an equation; `edits/a_refused_moment_is_the_one_of_before`.
    ensures { result ≡ moment_by answer.now before }
{
    match answer {
        Answer::Stamp(moment) => KnownMoment::Told(*moment),
        Answer::Strange => KnownMoment::Strange,
        Answer::Lost => before,
        _ => KnownMoment::Untold,
    }
}

/// Whether more is answered over a control connection that answered a question so.
pub(crate) fn answers_more(answer: &Answer<Global>) -> bool
    ensures { result ≡ answers_more answer.now }
{
    match answer {
        Answer::Lost | Answer::Strange => false,
        _ => true,
    }
}
