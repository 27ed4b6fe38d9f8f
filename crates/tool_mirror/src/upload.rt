// One file that is copied to the server.
ghost use Rattle.std.specs.Prelude.{◌≡◌};
ghost use Rattle.tool_mirror.specs.Transfer.{agreed_by, counted_by, is_drawn, is_large, sent_by};

use crate::facts::size_request;
use crate::fault::MirrorFault;
use crate::request::MirrorRequest;
use crate::telling::shown;
use ftp_facts::Text;
use ftp_operation::Answer;
use std::alloc::{AllocError, Global};
use std::io::Eprint;
use tool_files::{FileContent, LimitedContent, LocalFiles, OpenBelow, Places};
use tool_resume::{Sending, UploadSource, Uploading, Wrong, limit_held};
use tool_session::{ClientSession, Request, Ticket};

/// The most octets of a file that is held in memory although it could be read as it goes: no more than are held of such a one anyway.
const SMALL: u64 = 65_536;

/// The most octets of a file that is asked ahead where it is held in memory until its turn, or where an upload that breaks begins anew.
const AHEAD: u64 = 67_108_864;

/// A file below the folder, and where it goes below the directory of the server.
#[derive(Clone, Copy)]
pub(crate) struct Upward<'a> {
    pub(crate) below: &'a str,
    pub(crate) to: &'a str,
    /// How many octets it was listed with.
    pub(crate) size: Option<u64>,
    /// By which its upload is answered, where it was asked ahead (`foresee_drawn`).
    pub(crate) ahead: Option<Ticket>,
}

/// Uploads a file, over breaks, and gives how many octets it has; the server has to have that size then. A file that is not small is read as it goes.
/// `is_blind` is as of the upload before, and of this one then. Over several control connections the size of what stands there is not asked for before: it may
/// be of the upload that was asked ahead.
pub(crate) fn copy_up<R, S>(
    rt: &R,
    alloc: Global,
    slot: &mut S,
    mirror: &MirrorRequest<'_>,
    file: Upward<'_>,
    is_blind: &mut bool,
) -> Result<u64, MirrorFault>
where
    R: Places + LocalFiles + Eprint,
    S: ClientSession,
{
    if is_drawn(file.size) {
        if let Some(opened) = rt.open_below(mirror.folder, file.below)? {
            return copy_drawn(rt, alloc, slot, mirror, (opened, file), is_blind);
        }
    }
    let count = uploaded(rt, alloc, slot, mirror, file.below, file.to)?;
    agreed(&slot.answer(size_request(alloc, mirror, file.to)?), count)
}

/// Whether a file that was listed with so many octets is read as it goes: one that is not small.
pub(crate) fn is_drawn(size: Option<u64>) -> bool
    // Witness: an equation; `edits/a_file_of_unknown_size_is_read_whole`.
    ensures { result ≡ is_drawn size }
{
    match size {
        Some(octets) => octets > SMALL,
        None => true,
    }
}

/// Uploads a file that is read as it goes.
fn copy_drawn<R, S>(
    rt: &R,
    alloc: Global,
    slot: &mut S,
    mirror: &MirrorRequest<'_>,
    (opened, file): (OpenBelow, Upward<'_>),
    is_blind: &mut bool,
) -> Result<u64, MirrorFault>
where
    R: Places + LocalFiles + Eprint,
    S: ClientSession,
{
    let OpenBelow { source, path, dir } = opened;
    let total = source.total;
    if total > mirror.limit {
        return Err(MirrorFault::TooLarge(total, mirror.limit));
    }
    let there = mirror.there(alloc, file.to)?;
    let head = note_head(alloc, file.to)?;
    let source = UploadSource::file(path.as_str(), source);
    let mut uploading = Uploading::new(
        rt,
        alloc,
        source,
        there.as_str(),
        mirror.how,
        mirror.openings,
    );
    uploading.begin_notes(head.as_str());
    uploading.go_by(file.ahead);
    let may_be_ahead = slot.ahead() > 0 && total <= AHEAD;
    if *is_blind || may_be_ahead {
        uploading.blind();
    }
    let answered = uploading.answer(slot);
    if !may_be_ahead {
        *is_blind = uploading.is_blind();
    }
    let sent = match &answered {
        Ok(answer) => sent(answer, uploading.wrong(), total),
        Err(error) => Err(MirrorFault::Here(*error)),
    };
    drop(uploading);
    drop(dir);
    sent
}

/// Asks ahead that a file goes, which is read as it goes, and then how many octets of it the server has. Gives by which ticket that is answered, where it was
/// asked.
pub(crate) fn foresee_drawn<R, S>(
    rt: &R,
    alloc: Global,
    slot: &mut S,
    mirror: &MirrorRequest<'_>,
    below: &str,
) -> Result<Option<Ticket>, MirrorFault>
where
    R: Places + LocalFiles,
    S: ClientSession,
{
    let Some(opened) = rt.open_below(mirror.folder, below)? else {
        return Ok(None);
    };
    if opened.source.total > mirror.limit {
        return Ok(None);
    }
    let there = mirror.there(alloc, below)?;
    let sending = Sending {
        file: opened.path.as_str(),
        total: opened.source.total,
        changed: opened.source.changed,
        path: there.as_str(),
        how: mirror.how,
        openings: mirror.openings,
    };
    Ok(sending.foresee(rt, alloc, slot)?)
}

/// What a note of an upload begins with.
fn note_head(alloc: Global, below: &str) -> Result<String<Global>, AllocError> {
    let mut head = String::from_str(alloc, "note: ")?;
    head.push_str(shown(alloc, below)?.as_str())?;
    head.push_str(": ")?;
    Ok(head)
}

/// So many octets, where an upload that was answered so is done, and the server has that file.
fn sent(answer: &Answer<Global>, wrong: Option<Wrong>, total: u64) -> Result<u64, MirrorFault>
    // Witness: an equation; `edits/a_file_that_vanished_is_sent`.
    ensures { result ≡ sent_by answer.now wrong total }
{
    match (answer, wrong) {
        (Answer::Done, Some(Wrong::Octets(count))) => Err(MirrorFault::OtherSize(total, count)),
        (Answer::Done, Some(Wrong::Nothing)) => Err(MirrorFault::Vanished),
        _ => counted(answer, total),
    }
}

/// The octets of a file here.
pub(crate) fn octets_of<R: Places>(
    rt: &R,
    mirror: &MirrorRequest<'_>,
    below: &str,
) -> Result<Text<Global>, MirrorFault> {
    let limit = limit_held(mirror.limit);
    match rt.read_below(mirror.folder, below, limit)? {
        LimitedContent::Content(FileContent { octets, changed: _ }) => Ok(Text::from_vec(octets)),
        LimitedContent::TooLarge(size) => Err(MirrorFault::TooLarge(size, limit)),
    }
}

/// Uploads a file, and gives how many octets it has. Where the server does not know how the data connection is asked for, the file is read once more, and the
/// same is asked for otherwise.
fn uploaded<R, S>(
    rt: &R,
    alloc: Global,
    slot: &mut S,
    mirror: &MirrorRequest<'_>,
    below: &str,
    to: &str,
) -> Result<u64, MirrorFault>
where
    R: Places,
    S: ClientSession,
{
    let opened = slot.opened();
    let (answer, count) = upload(rt, alloc, slot, mirror, below, to)?;
    if !mirror
        .openings
        .hear(&answer, mirror.how, slot.opened() > opened)
    {
        return counted(&answer, count);
    }
    drop(answer);
    let (answer, count) = upload(rt, alloc, slot, mirror, below, to)?;
    counted(&answer, count)
}

/// What the server answers to an upload of a file, and how many octets that has.
fn upload<R, S>(
    rt: &R,
    alloc: Global,
    slot: &mut S,
    mirror: &MirrorRequest<'_>,
    below: &str,
    to: &str,
) -> Result<(Answer<Global>, u64), MirrorFault>
where
    R: Places,
    S: ClientSession,
{
    let octets = octets_of(rt, mirror, below)?;
    let count = octets.as_slice().len() as u64;
    let path = mirror.path(alloc, to)?;
    let how = mirror.openings.how(mirror.how);
    Ok((
        slot.answer(Request::Upload(Some((path, octets)), how)),
        count,
    ))
}

/// So many octets, where the answer is that they are done.
fn counted(answer: &Answer<Global>, count: u64) -> Result<u64, MirrorFault>
    // Witness: an equation; `edits/a_refused_upload_is_counted`.
    ensures { result ≡ counted_by answer.now count }
{
    match answer {
        Answer::Done => Ok(count),
        _ => Err(MirrorFault::of(answer)),
    }
}

/// So many octets, unless the answer to SIZE tells another number of them, or the control connection ended.
fn agreed(answer: &Answer<Global>, count: u64) -> Result<u64, MirrorFault>
    // Witness: an equation; `edits/another_size_at_the_server_is_agreed`.
    ensures { result ≡ agreed_by answer.now count }
{
    match answer {
        Answer::Number(total) => {
            if *total == count {
                Ok(count)
            } else {
                Err(MirrorFault::OtherSize(count, *total))
            }
        }
        Answer::Lost => Err(MirrorFault::Lost),
        _ => Ok(count),
    }
}

/// Whether a file has more octets than are held ahead, or it is not known how many.
pub(crate) fn is_large(size: Option<u64>) -> bool
    // Witness: an equation; `edits/a_large_file_is_held_ahead`.
    ensures { result ≡ is_large size }
{
    let Some(octets) = size else {
        return true;
    };
    octets > AHEAD
}
