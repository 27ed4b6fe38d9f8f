// What is told of a download that is not whole, and its exit status.
ghost use Rattle.std.specs.Prelude.{◌≡◌, ◌≢◌, IfOk};
ghost use Rattle.tool_job.specs.single.Leaving.{has_end};

use crate::single::leaving::DownloadEnd;
use crate::single::target::Target;
use ftp_operation::{Answer, How};
use ftp_settings::{Mode, Structure};
use std::alloc::Global;
use std::io;
use std::io::{Eprint, Error};
use tool_files::LocalFiles;
use tool_resume::{Downloading, ReceivedOctets, ToldPart, tell, tell_too_large};
use tool_session::{LastReply, Phase, at, say};
use tool_terminal::Status;

/// Tells on standard error how a download ended that is not whole, and gives the exit status. Fails where standard error can't be written.
pub(crate) fn tell_end<R: LocalFiles + Eprint>(
    rt: &R,
    asked: &Target<'_>,
    file: &str,
    end: DownloadEnd,
    answer: &Answer<Global>,
    downloading: &Downloading<'_, R>,
    last_reply: &LastReply,
) -> io::Result<Status>
    // Witness: `leave` needs it.
    ensures { IfOk result (λ status. status ≢ Status.Done) }
{
    let limit = downloading.limit();
    let status = match end {
        DownloadEnd::Unwritten(error) => tell_unwritten(rt, asked, file, error)?,
        DownloadEnd::Wrong(total) => tell_wrong(rt, downloading.came(), total)?,
        DownloadEnd::TooLarge(total) => tell_too_large(rt, asked.place.path, total, limit)?,
        DownloadEnd::Past => tell_past(rt, limit)?,
        DownloadEnd::Broken => tell_broken(rt, downloading.came())?,
        _ => tell(rt, asked.place.path, asked.stranger(), answer, last_reply)?,
    };
    Ok(status)
}

/// Tells that the octets that came could not be written into a file of this end, and gives the exit status. Fails where standard error can't be written.
pub fn tell_unwritten<R: Eprint>(
    rt: &R,
    asked: &Target<'_>,
    file: &str,
    error: Error,
) -> io::Result<Status>
    // Witness: `edits/what_is_not_written_is_refused`.
    ensures { IfOk result (λ status. status ≡ Status.Failed) }
{
    let failed: io::Result<()> = Err(error);
    if let Err(stop) = at(Phase::Writing, failed) {
        stop.tell(rt, asked.subject(file))?;
    }
    Ok(Status::Failed)
}

/// Whether the end of the file is among the octets of the transfer: in block mode and in record structure (RFC 959, sections 3.4.1 and 3.4.2).
fn has_end(how: How) -> bool
    ensures { result ≡ has_end how }
{
    match how.representation.mode {
        Mode::Block => true,
        Mode::Stream => match how.representation.structure {
            Structure::Record => true,
            Structure::File => false,
        },
    }
}

/// Tells, where progress is told, that a file may have been cut where nobody could notice.
pub(crate) fn tell_unknown<R: Eprint>(rt: &R, asked: &Target<'_>) {
    if asked.progress && !has_end(asked.how) {
        let _told = rt.eprintln(
            "note: the size of the file is not known; whether all of it came is not known either",
        );
    }
}

/// Tells that another number of octets came than the server says that the file has.
fn tell_wrong<R: Eprint>(rt: &R, came: &ReceivedOctets, total: u64) -> io::Result<Status>
    ensures { IfOk result (λ status. status ≡ Status.Refused) }
{
    let told = ToldPart {
        count: came.count(),
        between: " octets came of a file that has ",
        total,
    };
    say(rt, "error: ", &told, ", as the server says")?;
    Ok(Status::Refused)
}

/// Tells that more octets came than the limit, and gives the exit status.
fn tell_past<R: Eprint>(rt: &R, limit: u64) -> io::Result<Status>
    ensures { IfOk result (λ status. status ≡ Status.Refused) }
{
    say(
        rt,
        "error: the file has more than ",
        &limit,
        " octets, which is the limit",
    )?;
    Ok(Status::Refused)
}

/// Tells that the file was another one after each try, so that what came may be of two files, and gives the exit status.
pub(crate) fn tell_changed<R: Eprint>(rt: &R) -> io::Result<Status>
    ensures { IfOk result (λ status. status ≡ Status.Refused) }
{
    rt.eprintln("error: the file changed at the server each time that it came")?;
    Ok(Status::Refused)
}

/// Tells behind how many octets the data connection broke, and gives the exit status.
fn tell_broken<R: Eprint>(rt: &R, came: &ReceivedOctets) -> io::Result<Status>
    ensures { IfOk result (λ status. status ≡ Status.Refused) }
{
    say(
        rt,
        "error: the data connection broke behind ",
        &came.count(),
        " octets",
    )?;
    Ok(Status::Refused)
}
