// A download over a control connection of its own: what is asked for, and on which terms.
ghost use Rattle.std.specs.Prelude.{◌≡◌};
ghost use Rattle.tool_job.specs.single.Download.{is_output, limit_by, moment_wanted};
ghost use Rattle.tool_resume.specs.Retry.{is_counted};

use crate::single::leaving::leave;
use crate::single::part::{keep_part, prepare};
use crate::single::single::ask_at;
use crate::single::target::Target;
use crate::single::targets::Targets;
use ftp_operation::How;
use std::alloc::Global;
use std::io;
use std::io::{Eprint, Print};
use tool_connect::{Converses, Logins};
use tool_files::LocalFiles;
use tool_resume::{Downloading, KnownMoment, is_counted, limit_held};
use tool_session::{LastReply, Phase, SessionFault, at};
use tool_terminal::Status;

/// The file that stands for standard output.
pub const OUTPUT: &str = "-";

/// What becomes of the octets of a download that is not whole.
#[derive(Clone, Copy)]
pub enum PartHandling {
    /// They are removed.
    Dropped,
    /// They are kept beside the file, in one of its name with `.ftp-part` behind.
    Kept,
    /// They are kept so, and the download goes on behind those of an earlier one, where the server has the same file still.
    Continued,
}

/// A download.
#[derive(Clone, Copy)]
pub struct DownloadJob<'a> {
    /// The file of this end: written beside its name, and moved over it once it is whole; `-` is standard output.
    pub file: &'a str,
    pub parts: PartHandling,
    /// Whether its last change is to be at the server's moment of the file.
    pub moment: bool,
    /// Where the files of the same command line go, where there are several.
    pub targets: Option<&'a Targets>,
}

/// A download, and the place of its file at a server.
pub struct Job<'a> {
    pub alloc: Global,
    pub download: DownloadJob<'a>,
    /// Host, port and path, as the note of a part has them (`place_text`).
    pub place: String<Global>,
}

/// By hand: a derived drop is proved again, part by part, wherever a job is let go.
impl<'a> Drop for Job<'a> {
    fn drop(self) {
        let Self {
            alloc: _,
            download: _,
            place: _,
        } = self;
    }
}

/// Asks for the file, and leaves it at this end. Gives the exit status; why it is not done is told on standard error, and `last_reply` is what the server
/// said last. Fails where nothing could be asked, the part can't be made, or a report can't be written.
pub fn get<R>(
    rt: &R,
    alloc: Global,
    asked: &Target<'_>,
    download: DownloadJob<'_>,
    last_reply: &mut LastReply,
) -> Result<Status, SessionFault>
where
    R: Converses + Logins + LocalFiles + Print + Eprint,
{
    let mut downloading = at(Phase::Asking, begun(rt, alloc, asked, download))?;
    let job = Job {
        alloc,
        download,
        place: at(Phase::Asking, place_text(alloc, asked))?,
    };
    at(Phase::Writing, prepare(rt, &job, &mut downloading))?;
    get_by(rt, asked, &job, &mut downloading, last_reply)
}

/// A download of which nothing came yet.
fn begun<'a, R: LocalFiles + Eprint>(
    rt: &'a R,
    alloc: Global,
    asked: &Target<'a>,
    download: DownloadJob<'_>,
) -> io::Result<Downloading<'a, R>> {
    let path = asked.place.path;
    let mut downloading = Downloading::new(rt, alloc, path, asked.how, asked.openings)?;
    let limit = limit_of(download.file, asked.limit);
    downloading.put_terms(limit, stamp_of(asked.how, download.moment));
    Ok(downloading)
}

/// Whether a file of this end stands for standard output.
pub(crate) fn is_output(file: &str) -> bool
    ensures { result ≡ is_output file.now }
{
    file.as_bytes() == b"-".as_slice()
}

/// The most octets that come of a file, of which `limit` are asked for at most: what goes to standard output is held in memory.
pub fn limit_of(file: &str, limit: u64) -> u64
    // Witness: an equation; `edits/what_goes_to_standard_output_has_no_limit`.
    ensures { result ≡ limit_by (is_output file.now) limit }
{
    if is_output(file) {
        limit_held(limit)
    } else {
        limit
    }
}

/// The moment is asked for where it is wanted, and where the size of the file tells whether it is the same still.
pub fn stamp_of(how: How, moment: bool) -> KnownMoment
    // Witness: an equation; `edits/a_moment_is_asked_for_where_it_is_wanted_alone`.
    ensures { result ≡ moment_wanted moment (is_counted how) }
{
    if moment || is_counted(how) {
        KnownMoment::Untold
    } else {
        KnownMoment::Unasked
    }
}

/// The place of a file at a server, as its note has it: host, port and path. Fails where memory is refused.
pub fn place_text(alloc: Global, asked: &Target<'_>) -> io::Result<String<Global>> {
    let place = asked.place;
    Ok(format!(in alloc; "{}:{}/{}", place.host, place.port, place.path)?)
}

/// Does a download, and leaves what came at this end.
fn get_by<R>(
    rt: &R,
    asked: &Target<'_>,
    job: &Job<'_>,
    downloading: &mut Downloading<'_, R>,
    last_reply: &mut LastReply,
) -> Result<Status, SessionFault>
where
    R: Converses + Logins + LocalFiles + Print + Eprint,
{
    match ask_at(rt, asked, last_reply, downloading) {
        Ok(answer) => {
            let left = leave(rt, asked, job, &answer, downloading, last_reply);
            drop(answer);
            at(Phase::Report, left)
        }
        Err(stop) => {
            let _kept = keep_part(rt, job, downloading, Status::Failed);
            Err(stop)
        }
    }
}
