// An upload over a control connection of its own: what goes, and what is told of it.
ghost use Rattle.std.specs.Prelude.{◌≡◌, ◌<◌, ◌≤◌, IfErr, IfOk, IfSome, string_bytes};
ghost use Rattle.tool_job.specs.single.Simple.{IsAnswered};
ghost use Rattle.tool_job.specs.single.Upload.{other_name, renaming};

use crate::single::simple::{Simple, do_simple};
use crate::single::single::ask_at;
use crate::single::target::Target;
use std::alloc::Global;
use std::io;
use std::io::{Eprint, Print};
use std::time::SystemTime;
use tool_connect::{Converses, Logins};
use tool_files::{LimitedContent, LocalFiles, OpenSource, read_most};
use tool_resume::{UploadSource, Uploading, limit_held, tell_too_large};
use tool_session::{LastReply, Phase, SessionFault, at};
use tool_terminal::Status;

/// The file that stands for standard input.
const INPUT: &str = "-";

/// Uploads a file, or standard input, and gives the exit status; why it is not done is told on standard error, and `last_reply` is what the server said last.
/// Fails where the file can't be read, nothing could be asked, or a report can't be written.
pub fn put<R>(
    rt: &R,
    alloc: Global,
    asked: &Target<'_>,
    file: &str,
    last_reply: &mut LastReply,
) -> Result<Status, SessionFault>
where
    R: Converses + Logins + LocalFiles + Input + Eprint,
{
    let mut loaded = match at(Phase::Reading, load(rt, alloc, file, asked.limit))? {
        Ok(loaded) => loaded,
        Err(UploadTooLarge { size, limit }) => return at(
            Phase::Report,
            tell_too_large(rt, file, size, limit),
        ),
    };
    let Some(source) = loaded.take_source() else {
        return Ok(Status::Failed);
    };
    let path = asked.place.path;
    let mut uploading = Uploading::new(rt, alloc, source, path, asked.how, asked.openings);
    put_by(rt, asked, &mut uploading, last_reply)
}

/// Uploads a file under another name, which is its path and `.ftp-part`, and gives it its path once the server has all of it: nobody finds a part of it
/// there. Where it is not done, or the path can't be given, what came stays under the other name. Else as `put`.
pub fn put_renamed<R>(
    rt: &R,
    alloc: Global,
    asked: &Target<'_>,
    file: &str,
    last_reply: &mut LastReply,
) -> Result<Status, SessionFault>
where
    R: Converses + Logins + LocalFiles + Input + Print + Eprint,
    // Witness: `edits/a_file_keeps_its_other_name`.
    ensures { IfOk result (λ status. status ≡ Status.Done → IsAnswered (R.hears rt.now 1) (renaming asked.now.place.path.now)) }
{
    let path = asked.place.path;
    let other = at(Phase::Asking, other_name(alloc, path))?;
    let aside = asked.at(other.as_str());
    let status = put(rt, alloc, &aside, file, last_reply)?;
    if status != Status::Done {
        return Ok(status);
    }
    do_simple(rt, alloc, &aside, Simple::Move(path), last_reply)
}

/// The name under which a file goes up that gets its path afterwards. Fails where memory is refused.
fn other_name(alloc: Global, path: &str) -> io::Result<String<Global>>
    // Witness: an equation; `edits/a_file_goes_up_under_its_own_name`.
    ensures { IfOk result (λ name. string_bytes name ≡ other_name path.now) }
{
    let mut name = String::from_str(alloc, path)?;
    name.push_str(".ftp-part")?;
    Ok(name)
}

/// What is not uploaded: it has more octets than may be.
#[derive(Clone, Copy)]
pub struct UploadTooLarge {
    /// How many octets it has; of what is held in memory, as far as it was read.
    pub size: u64,
    pub limit: u64,
}

/// A file as it was opened.
#[derive(Clone, Copy)]
pub struct FileSeen {
    /// How many octets it has.
    pub total: u64,
    /// When it was changed last, where that is known.
    pub changed: Option<SystemTime>,
}

/// What is uploaded.
pub struct Loaded<'a> {
    source: Option<UploadSource<'a>>,
    /// The file; none of what is held in memory.
    pub seen: Option<FileSeen>,
}

/// By hand: a derived drop is proved again, part by part, wherever octets are let go.
impl<'a> Drop for Loaded<'a> {
    fn drop(self) {
        let Self { source: _, seen: _ } = self;
    }
}

impl<'a> Loaded<'a> {
    /// Its octets, once.
    pub fn take_source(&mut self) -> Option<UploadSource<'a>> {
        self.source.take()
    }
}

/// What is to be uploaded, of at most `limit` octets: a file is read as it goes; what comes of standard input, or is no file of a known size, is held in
/// memory. Fails where it can't be read, or memory is refused.
pub fn load<'a, R: LocalFiles + Input>(
    rt: &R,
    alloc: Global,
    file: &'a str,
    limit: u64,
) -> io::Result<Result<Loaded<'a>, UploadTooLarge>> {
    if file != INPUT {
        if let Some(opened) = rt.open_source(file, 0)? {
            return Ok(streamed(file, opened, limit));
        }
    }
    held(rt, alloc, file, limit_held(limit))
}

/// A file that is read as it goes.
fn streamed<'a>(file: &'a str, opened: OpenSource, limit: u64) -> Result<Loaded<'a>, UploadTooLarge>
    // Witness of fits: `edits/a_file_past_the_limit_is_sent`.
    ensures fits { IfOk result (λ loaded. IfSome loaded.seen (λ seen. (seen.total ≡ opened.total) × (seen.total ≤ limit))) }
    // Witness of large: `edits/a_file_as_large_as_the_limit_is_not_sent`.
    ensures large { IfErr result (λ large. (large.size ≡ opened.total) × (limit < large.size)) }
    ensures limit { IfErr result (λ large. large.limit ≡ limit) }
{
    let size = opened.total;
    if size > limit {
        return Err(UploadTooLarge { size, limit });
    }
    Ok(Loaded {
        seen: Some(FileSeen {
            total: size,
            changed: opened.changed,
        }),
        source: Some(UploadSource::file(file, opened)),
    })
}

/// What is held in memory.
fn held<'a, R: LocalFiles + Input>(
    rt: &R,
    alloc: Global,
    file: &str,
    limit: u64,
) -> io::Result<Result<Loaded<'a>, UploadTooLarge>> {
    match read(rt, alloc, file, limit)? {
        LimitedContent::Content(content) => Ok(Ok(Loaded {
            source: Some(UploadSource::Kept(content.octets)),
            seen: None,
        })),
        LimitedContent::TooLarge(size) => Ok(Err(UploadTooLarge { size, limit })),
    }
}

/// Reads what is held in memory.
fn read<R: LocalFiles + Input>(
    rt: &R,
    alloc: Global,
    file: &str,
    limit: u64,
) -> io::Result<LimitedContent> {
    if file == INPUT {
        read_most(alloc, &mut rt.reader(), limit)
    } else {
        rt.read_from(file, 0, limit)
    }
}

/// Does an upload that has its octets, and gives the exit status.
fn put_by<R>(
    rt: &R,
    asked: &Target<'_>,
    uploading: &mut Uploading<'_, R>,
    last_reply: &mut LastReply,
) -> Result<Status, SessionFault>
where
    R: Converses + Logins + LocalFiles + Eprint,
{
    match ask_at(rt, asked, last_reply, uploading) {
        Ok(answer) => {
            let finished = uploading.finish(&answer, last_reply);
            drop(answer);
            at(Phase::Report, finished)
        }
        Err(stop) => Err(stop),
    }
}
