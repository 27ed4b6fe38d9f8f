// What will be asked of a server for what waits to be done.
ghost use Rattle.std.specs.Prelude.{◌≡◌};
ghost use Rattle.tool_mirror.specs.Prefetch.{copied_ahead, prefetch_of, sent_ahead};

use crate::entries::{facts_here, is_alike, listing_request};
use crate::facts::{moment_of, size_request};
use crate::fault::MirrorFault;
use crate::machine::LocalMachine;
use crate::prefetch::prefetched::Prefetched;
use crate::queue::{QueueEntry, QueuedAction};
use crate::request::{Doing, MirrorRequest};
use crate::upload::{is_drawn, is_large, octets_of};
use ftp_facts::Text;
use ftp_operation::Op;
use std::alloc::{AllocError, Global};
use tool_files::Places;
use tool_listing::ItemFacts;
use tool_mirror_plan::CopyDirection;
use tool_resume::{download_row, limit_held};
use tool_session::{ClientSession, Request, Terms};

/// What is asked ahead for a queued action.
#[derive(Clone, Copy)]
pub(crate) enum Prefetch {
    /// The octets of a file that is fetched to a part.
    Download(ItemFacts),
    /// Those of one that is compared, which are held in memory.
    Compared(ItemFacts),
    /// That a file is sent which is read as it goes.
    Upload,
    /// That a file is sent which is held in memory.
    HeldUpload,
    /// The entries of a directory.
    Listing,
}

/// What will surely be asked of the server for an action, of what is done so and in this direction; nothing of what depends on more than is known now.
fn prefetch_of(action: QueuedAction, way: CopyDirection, doing: Doing) -> Option<Prefetch>
    // Witness: an equation; `edits/what_is_entered_is_not_listed_ahead`.
    ensures { result ≡ prefetch_of action way doing }
{
    match action {
        QueuedAction::Copy(facts) => copied_ahead(facts, way, doing),
        QueuedAction::Compare(facts) => {
            if is_large(facts.size) {
                None
            } else {
                Some(Prefetch::Compared(facts))
            }
        }
        QueuedAction::MakeDir => match way {
            CopyDirection::Down => Some(Prefetch::Listing),
            CopyDirection::Up => None,
        },
        QueuedAction::Enter => Some(Prefetch::Listing),
        _ => None,
    }
}

/// What is asked ahead for a file that is copied.
fn copied_ahead(facts: ItemFacts, way: CopyDirection, doing: Doing) -> Option<Prefetch>
    // Witness: an equation; `edits/what_is_told_only_is_asked_ahead`.
    ensures { result ≡ copied_ahead facts way doing }
{
    match (doing, way) {
        (Doing::Nothing, _) => None,
        (Doing::All, CopyDirection::Down) => Some(Prefetch::Download(facts)),
        (Doing::All, CopyDirection::Up) => sent_ahead(facts.size),
    }
}

/// What is asked ahead for a file that is sent, which was listed with so many octets.
fn sent_ahead(size: Option<u64>) -> Option<Prefetch>
    // Witness: an equation; `edits/a_small_file_is_read_as_it_goes`.
    ensures { result ≡ sent_ahead size }
{
    if is_large(size) {
        None
    } else if is_drawn(size) {
        Some(Prefetch::Upload)
    } else {
        Some(Prefetch::HeldUpload)
    }
}

/// Tells what will surely be asked of the server for this, where it can be asked ahead: the octets of a file that is fetched, those of one that is sent, with
/// the questions for size and moment beside them, or the entries of a directory that is gone into.
pub(crate) fn foresee<'a, R, S>(
    (rt, alloc): (&'a R, Global),
    slot: &mut S,
    mirror: &MirrorRequest<'a>,
    prefetched: &mut Prefetched<'a, R>,
    entry: &QueueEntry,
)
where
    R: LocalMachine,
    S: ClientSession,
{
    let below = entry.below.as_str();
    let Some(prefetch) = prefetch_of(entry.action, mirror.rules.way, mirror.doing) else {
        return;
    };
    let Ok(asked) = request_of(alloc, mirror, below, prefetch) else {
        return;
    };
    if !slot.takes(&asked) {
        return;
    }
    match prefetch {
        Prefetch::Download(facts) => {
            if !is_here(rt, mirror, below, facts) {
                let _asked = prefetched.ask_download((rt, alloc), slot, mirror, (below, facts));
            }
        }
        Prefetch::Upload => {
            let _asked = prefetched.ask_upload((rt, alloc), slot, mirror, below);
        }
        Prefetch::Compared(_) | Prefetch::HeldUpload | Prefetch::Listing => {
            if let Ok(requests) = row_of(rt, alloc, mirror, below, prefetch, asked) {
                slot.foresee_row(requests);
            }
        }
    }
}

/// What is asked first, of what is sent without its octets.
fn request_of(
    alloc: Global,
    mirror: &MirrorRequest<'_>,
    below: &str,
    prefetch: Prefetch,
) -> Result<Request, AllocError> {
    match prefetch {
        Prefetch::Download(facts) | Prefetch::Compared(facts) => {
            download_request(alloc, mirror, below, facts)
        }
        Prefetch::Upload | Prefetch::HeldUpload => {
            sending(alloc, mirror, below, Text::from_vec(Vec::new(alloc)))
        }
        Prefetch::Listing => listing_request(alloc, mirror, below),
    }
}

/// What is asked one directly behind another where this is asked first, beside which of a download the server may be asked for facts.
fn row_of<R: Places>(
    rt: &R,
    alloc: Global,
    mirror: &MirrorRequest<'_>,
    below: &str,
    prefetch: Prefetch,
    asked: Request,
) -> Result<Vec<Request, Global>, MirrorFault> {
    match prefetch {
        Prefetch::Compared(facts) | Prefetch::Download(facts) => {
            let there = mirror.there(alloc, below)?;
            Ok(download_row(alloc, there.as_str(), mirror.how, asked, is_listed(facts))?)
        }
        Prefetch::HeldUpload | Prefetch::Upload => {
            drop(asked);
            let octets = octets_of(rt, mirror, below)?;
            let sent = sending(alloc, mirror, below, octets)?;
            let size = size_request(alloc, mirror, below)?;
            Ok(row_from(alloc, sent, Some(size))?)
        }
        Prefetch::Listing => Ok(row_from(alloc, asked, None)?),
    }
}

/// One thing, and perhaps another behind it.
fn row_from(
    alloc: Global,
    first: Request,
    next: Option<Request>,
) -> Result<Vec<Request, Global>, AllocError> {
    let mut row = Vec::new(alloc);
    row.push(first)?;
    if let Some(next) = next {
        row.push(next)?;
    }
    Ok(row)
}

/// Whether a file is listed with its size and its moment, which are not asked for then before its first try.
fn is_listed(facts: ItemFacts) -> bool {
    facts.size.is_some() && moment_of(facts).is_some()
}

/// Whether a file that would be fetched stands here with the size that is listed: it is asked for only where the server says more of it.
fn is_here<R: Places>(rt: &R, mirror: &MirrorRequest<'_>, below: &str, facts: ItemFacts) -> bool {
    match facts_here(rt, mirror, below) {
        Some(here) => is_alike(here.size, facts.size),
        None => false,
    }
}

/// What the first try of a download asks for.
fn download_request(
    alloc: Global,
    mirror: &MirrorRequest<'_>,
    below: &str,
    facts: ItemFacts,
) -> Result<Request, AllocError> {
    let path = mirror.path(alloc, below)?;
    let how = mirror.openings.how(mirror.how);
    let terms = Terms {
        most: limit_held(mirror.limit),
        total: facts.size,
    };
    Ok(Request::Download(Some(Op::Get(path, how)), terms))
}

/// What sends these octets to a file.
fn sending(
    alloc: Global,
    mirror: &MirrorRequest<'_>,
    below: &str,
    octets: Text<Global>,
) -> Result<Request, AllocError> {
    let path = mirror.path(alloc, below)?;
    let how = mirror.openings.how(mirror.how);
    Ok(Request::Upload(Some((path, octets)), how))
}
