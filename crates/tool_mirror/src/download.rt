// One file that is copied to this machine.
ghost use Rattle.std.specs.Prelude.{◌≡◌};
ghost use Rattle.tool_mirror.specs.Transfer.{whole_by};

use crate::facts::moment_of;
use crate::fault::MirrorFault;
use crate::request::MirrorRequest;
use crate::telling::shown;
use ftp_operation::Answer;
use std::alloc::{AllocError, Global};
use std::io::Eprint;
use tool_files::{LimitedContent, LocalFiles, Places};
use tool_listing::ItemFacts;
use tool_resume::{Arrival, Downloading, KnownMoment, ReceivedOctets};
use tool_session::ClientSession;

/// The download of a file that is listed so, of which nothing came yet, and which may have `limit` octets at most. What comes goes to a part of the file that
/// is to be here, and where there is none it is held in memory.
pub(crate) fn begun<'a, R: Places + LocalFiles + Eprint>(
    rt: &'a R,
    alloc: Global,
    mirror: &MirrorRequest<'a>,
    below: &str,
    facts: ItemFacts,
    limit: u64,
    to: Option<&str>,
) -> Result<Downloading<'a, R>, MirrorFault> {
    let there = mirror.there(alloc, below)?;
    let mut downloading = Downloading::new(rt, alloc, there.as_str(), mirror.how, mirror.openings)?;
    name(&mut downloading, alloc, below)?;
    downloading.put_terms(limit, KnownMoment::Untold);
    if let Some(to) = to {
        downloading.pour_into(rt.begin_below(mirror.folder, to)?);
    }
    expect(&mut downloading, facts, mirror.begun);
    Ok(downloading)
}

/// A download is told of by its path below the roots.
fn name<R: LocalFiles + Eprint>(
    downloading: &mut Downloading<'_, R>,
    alloc: Global,
    below: &str,
) -> Result<(), AllocError> {
    let name = shown(alloc, below)?;
    downloading.name_as(name.as_str())
}

/// A download is of a file that is listed so, at this second or later.
fn expect<R: LocalFiles + Eprint>(
    downloading: &mut Downloading<'_, R>,
    facts: ItemFacts,
    asked_at: u64,
) {
    if let (Some(size), Some(moment)) = (facts.size, moment_of(facts)) {
        downloading.expect(size, moment, asked_at);
    }
}

/// Goes on with a download until all of it came, and gives how many octets that are.
pub(crate) fn download<R, S>(
    downloading: &mut Downloading<'_, R>,
    slot: &mut S,
) -> Result<u64, MirrorFault>
where
    R: LocalFiles + Eprint,
    S: ClientSession,
{
    let answer = downloading.answer(slot);
    if let Some(error) = downloading.came().fault() {
        return Err(MirrorFault::Here(error));
    }
    match &answer {
        Answer::Done => whole(
            downloading.arrived(),
            downloading.came().count(),
            downloading.limit(),
        ),
        answer => Err(MirrorFault::of(answer)),
    }
}

/// How many octets a download has that the server says is done, of which so many came, and so many may. Fails where not all came.
fn whole(arrived: Arrival, count: u64, limit: u64) -> Result<u64, MirrorFault>
    // Witness: an equation; `edits/a_download_of_another_size_is_whole`.
    ensures { result ≡ whole_by arrived count limit }
{
    match arrived {
        Arrival::Whole | Arrival::Unknown => Ok(count),
        Arrival::Wrong(total) => Err(MirrorFault::OtherSize(count, total)),
        Arrival::TooLarge(size) => Err(MirrorFault::TooLarge(size, limit)),
        Arrival::Past => Err(MirrorFault::PastLimit(limit)),
        Arrival::Changed => Err(MirrorFault::Changed),
    }
}

/// Moves the part of a file that came over its name here, last changed at the moment that the server told last of it. Gives how many octets it has.
pub(crate) fn leave<R: Places + LocalFiles + Eprint>(
    rt: &R,
    mirror: &MirrorRequest<'_>,
    below: &str,
    facts: ItemFacts,
    downloading: &Downloading<'_, R>,
) -> Result<u64, MirrorFault> {
    let moment = match downloading.moment() {
        Some(moment) => Some(moment),
        None => moment_of(facts),
    };
    let came = downloading.came();
    if let Some(part) = came.part() {
        rt.finish_below(
            mirror.folder,
            below,
            part,
            came.count(),
            moment,
            mirror.flush,
        )?;
    }
    Ok(came.count())
}

/// Removes the part of a file that is to be here, where it has one.
pub(crate) fn discard<R: Places + LocalFiles + Eprint>(
    rt: &R,
    mirror: &MirrorRequest<'_>,
    below: &str,
    downloading: &Downloading<'_, R>,
) {
    if let Some(part) = downloading.came().part() {
        let _gone = rt.discard_below(mirror.folder, below, part);
    }
}

/// Whether a file here has the octets that came.
pub(crate) fn is_same<R: Places>(
    rt: &R,
    mirror: &MirrorRequest<'_>,
    below: &str,
    came: &ReceivedOctets,
) -> Result<bool, MirrorFault> {
    match rt.read_below(mirror.folder, below, came.count())? {
        LimitedContent::Content(content) => Ok(came.is(content.octets.as_slice())),
        LimitedContent::TooLarge(_) => Ok(false),
    }
}
