// The part of a download: made or taken up before anything is asked, and kept or removed where the download is not whole.
ghost use Rattle.std.specs.Prelude.{◌≡◌, ◌≢◌, IfOk};
ghost use Rattle.tool_job.specs.single.Download.{is_continued, is_noted, part_end};

use crate::single::download::{Job, PartHandling, is_output};
use ftp_facts::Moment;
use std::alloc::{AllocError, Global};
use std::io;
use std::io::Eprint;
use tool_files::{KeptPart, LocalFiles, OpenPart, PartBeside};
use tool_resume::Downloading;
use tool_session::say;
use tool_terminal::Status;

/// What becomes of the part of a download that is not whole.
#[derive(Clone, Copy)]
pub(crate) enum PartEnd {
    Removed,
    Kept,
}

/// Makes the part of the file to which its octets go as they come, or takes up one that was kept. What goes to standard output or into a device is held in
/// memory. Fails where the part can't be made or read, or memory is refused.
pub fn prepare<R: LocalFiles + Eprint>(
    rt: &R,
    job: &Job<'_>,
    downloading: &mut Downloading<'_, R>,
) -> io::Result<()> {
    let file = job.download.file;
    let parts = job.download.parts;
    if is_output(file) {
        return Ok(());
    }
    if !is_continued(parts) || !resume(rt, job, downloading)? {
        let passed = passed_over(job)?;
        match rt.begin_part(file, is_noted(parts), passed.as_slice())? {
            Some(part) => downloading.pour_into(part),
            None => return Ok(()),
        }
    }
    if is_noted(parts) {
        downloading.note_as(file, job.place.as_str())?;
    }
    Ok(())
}

/// Whether a part that an earlier run left is taken up.
fn is_continued(parts: PartHandling) -> bool
    // Witness: an equation; `edits/a_part_is_taken_up_unasked`.
    ensures { result ≡ is_continued parts }
{
    match parts {
        PartHandling::Continued => true,
        PartHandling::Dropped | PartHandling::Kept => false,
    }
}

/// Whether a note stands beside the part.
fn is_noted(parts: PartHandling) -> bool
    // Witness: an equation; `edits/a_part_that_is_kept_has_no_note`.
    ensures { result ≡ is_noted parts }
{
    match parts {
        PartHandling::Dropped => false,
        PartHandling::Kept | PartHandling::Continued => true,
    }
}

/// The numbers of parts whose names are those of other files of the command line.
fn passed_over(job: &Job<'_>) -> Result<Vec<u32, Global>, AllocError> {
    match job.download.targets {
        Some(targets) => targets.parts(job.download.file),
        None => Ok(Vec::new(job.alloc)),
    }
}

/// Takes up a part that is kept beside the file, and says whether there is one; where it has no note that fits, that is told.
fn resume<R: LocalFiles + Eprint>(
    rt: &R,
    job: &Job<'_>,
    downloading: &mut Downloading<'_, R>,
) -> io::Result<bool> {
    match rt.kept_beside(job.download.file, job.place.as_bytes())? {
        PartBeside::Kept(kept) => {
            let KeptPart { part, count, note } = kept;
            downloading.go_on_in(part, count, note.size, Moment::new(note.moment))?;
            Ok(true)
        }
        PartBeside::Refused(name) => {
            let _told = say(
                rt,
                "note: ",
                &name,
                " is a link, or no file of one name; it stays, and the download begins anew beside it",
            );
            Ok(false)
        }
        PartBeside::Unnoted => {
            let _told = say(
                rt,
                "note: no part beside ",
                &job.download.file,
                " has a note of this file; the download begins anew",
            );
            Ok(false)
        }
        PartBeside::Nothing => Ok(false),
    }
}

/// Keeps the part with the octets that came where they are to be kept, tells where it is, and gives the status; else it is removed. Where it can't be kept,
/// that is told, and the status is that of a failure. Fails where standard error can't be written.
pub fn keep_part<R: LocalFiles + Eprint>(
    rt: &R,
    job: &Job<'_>,
    downloading: &Downloading<'_, R>,
    status: Status,
) -> io::Result<Status>
    // Witness: `leave` needs it; `edits/what_is_kept_is_done`.
    ensures { IfOk result (λ given. status ≢ Status.Done → given ≢ Status.Done) }
{
    let came = downloading.came();
    let Some(part) = came.part() else {
        return Ok(status);
    };
    match part_end(job.download.parts, came.count()) {
        PartEnd::Removed => {
            discard(rt, job, downloading);
            Ok(status)
        }
        PartEnd::Kept => tell_kept(rt, job.download.file, part, downloading, status),
    }
}

/// What becomes of a part that has so many octets: none is kept without any.
fn part_end(parts: PartHandling, count: u64) -> PartEnd
    // Witness: an equation; `edits/a_part_without_octets_is_kept`.
    ensures { result ≡ part_end parts count }
{
    match parts {
        PartHandling::Dropped => PartEnd::Removed,
        PartHandling::Kept | PartHandling::Continued => {
            if count == 0 {
                PartEnd::Removed
            } else {
                PartEnd::Kept
            }
        }
    }
}

/// Keeps the part, and tells where it is, or why it is not kept.
fn tell_kept<R: LocalFiles + Eprint>(
    rt: &R,
    file: &str,
    part: &OpenPart,
    downloading: &Downloading<'_, R>,
    status: Status,
) -> io::Result<Status>
    ensures { IfOk result (λ given. status ≢ Status.Done → given ≢ Status.Done) }
{
    match kept(rt, file, part, downloading) {
        Ok(name) => {
            say(rt, "note: the octets that came are in ", &name, "")?;
            Ok(status)
        }
        Err(error) => {
            say(rt, "error: the octets that came are not kept: ", &error, "")?;
            Ok(Status::Failed)
        }
    }
}

/// What a part is called, which is kept. Fails where its octets can't be written to the disk, or its note.
fn kept<R: LocalFiles + Eprint>(
    rt: &R,
    file: &str,
    part: &OpenPart,
    downloading: &Downloading<'_, R>,
) -> io::Result<String<Global>> {
    downloading.keep()?;
    rt.name_of_part(file, part)
}

/// Removes the part, with its note; that it can't be removed is not told.
pub fn discard<R: LocalFiles + Eprint>(rt: &R, job: &Job<'_>, downloading: &Downloading<'_, R>) {
    if let Some(part) = downloading.came().part() {
        let _gone = rt.discard_part(job.download.file, part);
    }
}
