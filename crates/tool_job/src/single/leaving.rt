// What is left of a download at this end, as the server answered: the file, its part, or nothing.
ghost use Rattle.std.specs.Prelude.{◌≡◌, IfOk, IsTrue};
ghost use Rattle.ftp_operation.specs.declared.answer.Answer.{Answer};
ghost use Rattle.tool_job.specs.single.Leaving.{end_by, end_of_answer, end_of_arrival, is_written};

use crate::single::download::{DownloadJob, Job, is_output};
use crate::single::part::{discard, keep_part};
use crate::single::target::Target;
use crate::single::telling::{tell_changed, tell_end, tell_unknown, tell_unwritten};
use ftp_facts::Moment;
use ftp_operation::Answer;
use std::alloc::Global;
use std::io;
use std::io::{Eprint, Error, Print, Write};
use tool_files::{Flush, LocalFiles};
use tool_resume::{Arrival, Downloading, ReceivedOctets};
use tool_session::LastReply;
use tool_terminal::Status;

/// How a download ended.
#[derive(Clone, Copy)]
pub(crate) enum DownloadEnd {
    /// The octets that came could not be written, for this reason.
    Unwritten(Error),
    /// All of the file came.
    Whole,
    /// All that the server sent came; the size of the file is not known.
    Unchecked,
    /// The server tells this size, and another number of octets came.
    Wrong(u64),
    /// The server tells this size, which is past the limit.
    TooLarge(u64),
    /// More octets came than the limit.
    Past,
    /// The file was another one after each try.
    Changed,
    /// Its data connection broke.
    Broken,
    /// It was answered otherwise, and that is told.
    Told,
}

/// Leaves at this end what came, as the server answered: over the file, in its part, or nowhere. Gives the exit status, and tells on standard error why the
/// file is not written, if it is not; `last_reply` is what the server said last. Fails where standard error can't be written.
pub fn leave<R: LocalFiles + Print + Eprint>(
    rt: &R,
    asked: &Target<'_>,
    job: &Job<'_>,
    answer: &Answer<Global>,
    downloading: &Downloading<'_, R>,
    last_reply: &LastReply,
) -> io::Result<Status>
    // Witness: `edits/a_download_that_broke_is_done`.
    ensures { IfOk result (λ status. status ≡ Status.Done → answer.now ≡ Answer.Done) }
{
    let end = end_of(downloading.came().fault(), answer, downloading.arrived());
    let status = leave_as(rt, asked, job, end, answer, downloading, last_reply)?;
    Ok(status)
}

/// How a download ended whose part has this fault, or none, which was answered so, and which stands so where the server says that it is done.
fn end_of(fault: Option<Error>, answer: &Answer<Global>, arrival: Arrival) -> DownloadEnd
    // Witness of end: an equation; `edits/what_is_not_written_is_whole`.
    ensures end { result ≡ end_by fault answer.now arrival }
    ensures done { IsTrue (is_written result) → answer.now ≡ Answer.Done }
{
    match fault {
        Some(error) => DownloadEnd::Unwritten(error),
        None => end_of_answer(answer, arrival),
    }
}

/// The same where all that came is written.
fn end_of_answer(answer: &Answer<Global>, arrival: Arrival) -> DownloadEnd
    ensures end { result ≡ end_of_answer answer.now arrival }
    ensures done { IsTrue (is_written result) → answer.now ≡ Answer.Done }
{
    match answer {
        Answer::Done => end_of_arrival(arrival),
        Answer::Broken { got: _, mark: _ } => DownloadEnd::Broken,
        _ => DownloadEnd::Told,
    }
}

/// The same where the server says that it is done.
fn end_of_arrival(arrival: Arrival) -> DownloadEnd
    // Witness: an equation; `edits/a_file_of_another_size_is_whole`.
    ensures { result ≡ end_of_arrival arrival }
{
    match arrival {
        Arrival::Whole => DownloadEnd::Whole,
        Arrival::Unknown => DownloadEnd::Unchecked,
        Arrival::Wrong(total) => DownloadEnd::Wrong(total),
        Arrival::TooLarge(total) => DownloadEnd::TooLarge(total),
        Arrival::Past => DownloadEnd::Past,
        Arrival::Changed => DownloadEnd::Changed,
    }
}

/// Leaves at this end what came of a download that ended so: the answer is told where it is neither whole nor why it is not.
fn leave_as<R: LocalFiles + Print + Eprint>(
    rt: &R,
    asked: &Target<'_>,
    job: &Job<'_>,
    end: DownloadEnd,
    answer: &Answer<Global>,
    downloading: &Downloading<'_, R>,
    last_reply: &LastReply,
) -> io::Result<Status>
    ensures { IfOk result (λ status. status ≡ Status.Done → IsTrue (is_written end)) }
{
    match end {
        DownloadEnd::Whole => {
            let status = write(rt, asked, job, downloading)?;
            Ok(status)
        }
        DownloadEnd::Unchecked => {
            tell_unknown(rt, asked);
            let status = write(rt, asked, job, downloading)?;
            Ok(status)
        }
        DownloadEnd::Changed => {
            discard(rt, job, downloading);
            let status = tell_changed(rt)?;
            Ok(status)
        }
        _ => {
            let file = job.download.file;
            let told = tell_end(rt, asked, file, end, answer, downloading, last_reply)?;
            let status = keep_part(rt, job, downloading, told)?;
            Ok(status)
        }
    }
}

/// Moves the part over the file, or writes the octets that are held to standard output or into a device.
fn write<R: LocalFiles + Print + Eprint>(
    rt: &R,
    asked: &Target<'_>,
    job: &Job<'_>,
    downloading: &Downloading<'_, R>,
) -> io::Result<Status> {
    match written(rt, job, downloading) {
        Ok(()) => Ok(Status::Done),
        Err(error) => {
            let status = tell_unwritten(rt, asked, job.download.file, error)?;
            keep_part(rt, job, downloading, status)
        }
    }
}

/// The same, with why it can't be written as a fault.
fn written<R: LocalFiles + Print + Eprint>(
    rt: &R,
    job: &Job<'_>,
    downloading: &Downloading<'_, R>,
) -> io::Result<()> {
    let file = job.download.file;
    let came = downloading.came();
    if is_output(file) {
        return put_out(rt, came);
    }
    let moment = moment_for(rt, job.download, downloading);
    match came.part() {
        Some(part) => rt.finish_part(file, part, came.count(), moment, Flush::First),
        None => rt.write_over(file, came.pieces(), moment, Flush::First),
    }
}

/// The moment that the file's last change is to be at; where the server does not tell it, that is told.
fn moment_for<R: LocalFiles + Eprint>(
    rt: &R,
    download: DownloadJob<'_>,
    downloading: &Downloading<'_, R>,
) -> Option<Moment> {
    if !download.moment {
        return None;
    }
    let moment = downloading.moment();
    if moment.is_none() {
        let _told = rt.eprintln("note: the server tells no moment of the file");
    }
    moment
}

/// Writes what came to standard output.
fn put_out<R: Print>(rt: &R, came: &ReceivedOctets) -> io::Result<()> {
    let mut out = io::writer(rt);
    for piece in came.pieces() {
        out.write_all(piece.as_slice())?;
    }
    out.flush()
}
