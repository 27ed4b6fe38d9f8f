// The size and the moment of a file, as far as its server's listing does not tell them.
ghost use Rattle.std.specs.Prelude.{◌≡◌};
ghost use Rattle.tool_mirror.specs.Answering.{moment_told, size_told};
ghost use Rattle.tool_mirror.specs.Facts.{asks_moment};

use crate::fault::MirrorFault;
use crate::request::MirrorRequest;
use ftp_facts::{Moment, Text};
use ftp_operation::{Answer, Op};
use std::alloc::{AllocError, Global};
use tool_listing::{ItemFacts, ItemKind, ListedItem, is_name};
use tool_location::joined;
use tool_mirror_plan::CopyDirection;
use tool_session::{ClientSession, Request};

/// The moment of a file, where it is known.
pub(crate) fn moment_of(facts: ItemFacts) -> Option<Moment> {
    Moment::new(facts.moment?)
}

/// Asks for what LIST does not tell of files; with several control connections of the next ones ahead.
pub(crate) fn ask_facts<S: ClientSession>(
    alloc: Global,
    slot: &mut S,
    mirror: &MirrorRequest<'_>,
    below: &str,
    items: &mut Vec<ListedItem<Global>, Global>,
) -> Result<(), MirrorFault> {
    for place in 0..items.len() {
        let (_, coming) = items.as_slice().split_at(place.min(items.len()));
        foresee_moments(alloc, slot, mirror, below, coming)?;
        let Some(item) = items.get_mut(place) else {
            return Ok(());
        };
        if let ItemKind::File(facts) = item.kind {
            item.kind = ItemKind::File(facts_asked(alloc, slot, mirror, below, item, facts)?);
        }
    }
    Ok(())
}

/// Tells of which of the next files the moment will be asked for.
fn foresee_moments<S: ClientSession>(
    alloc: Global,
    slot: &mut S,
    mirror: &MirrorRequest<'_>,
    below: &str,
    coming: &[ListedItem<Global>],
) -> Result<(), AllocError> {
    for item in coming.iter().take(slot.ahead()) {
        let ItemKind::File(facts) = item.kind else {
            continue;
        };
        let (Some(name), true) = (
            asked_name(item),
            asks_moment(mirror.rules.way, facts.moment),
        ) else {
            continue;
        };
        let below = joined(alloc, below, name)?;
        let asked = moment_request(mirror.path(alloc, below.as_str())?);
        if slot.takes(&asked) {
            slot.foresee(asked);
        }
    }
    Ok(())
}

/// The name of a file of which more may be asked.
fn asked_name(item: &ListedItem<Global>) -> Option<&str> {
    match std::str::from_utf8(item.name.as_slice()) {
        Ok(name) if is_name(name.as_bytes()) => Some(name),
        _ => None,
    }
}

/// Whether a file's moment is asked for: where LIST does not tell it, and where the file may be fetched, since of a moment LIST tells the day at most.
fn asks_moment(way: CopyDirection, moment: Option<u64>) -> bool
    ensures { result ≡ asks_moment way moment }
{
    match way {
        CopyDirection::Down => true,
        CopyDirection::Up => moment.is_none(),
    }
}

/// What is known of a file, and what the server tells of it beyond that (SIZE and MDTM, RFC 3659, sections 3 and 4).
fn facts_asked<S: ClientSession>(
    alloc: Global,
    slot: &mut S,
    mirror: &MirrorRequest<'_>,
    below: &str,
    item: &ListedItem<Global>,
    facts: ItemFacts,
) -> Result<ItemFacts, MirrorFault> {
    let Some(name) = asked_name(item) else {
        return Ok(facts);
    };
    let below = joined(alloc, below, name)?;
    let size = match facts.size {
        Some(size) => Some(size),
        None => size_told(&slot.answer(size_request(alloc, mirror, below.as_str())?))?,
    };
    if !asks_moment(mirror.rules.way, facts.moment) {
        return Ok(ItemFacts { size, ..facts });
    }
    let asked = moment_request(mirror.path(alloc, below.as_str())?);
    let moment = match moment_told(&slot.answer(asked))? {
        Some(moment) => Some(moment),
        None => facts.moment,
    };
    Ok(ItemFacts { size, moment })
}

/// A question for the size of a file of the server (RFC 3659, section 4).
pub(crate) fn size_request(
    alloc: Global,
    mirror: &MirrorRequest<'_>,
    below: &str,
) -> Result<Request, AllocError> {
    let path = mirror.path(alloc, below)?;
    Ok(Request::One(Some(Op::Size(path, mirror.how))))
}

/// A question for the moment of a file's last change (RFC 3659, section 3).
fn moment_request(path: Text<Global>) -> Request {
    Request::One(Some(Op::Modified(path)))
}

/// The size of a file, by the answer to SIZE; none where the server refuses to tell it.
fn size_told(answer: &Answer<Global>) -> Result<Option<u64>, MirrorFault>
    // Witness: an equation; `edits/a_size_is_half_of_what_is_told`.
    ensures { result ≡ size_told answer.now }
{
    match answer {
        Answer::Number(size) => Ok(Some(*size)),
        Answer::Refused(_) => Ok(None),
        answer => Err(MirrorFault::of(answer)),
    }
}

/// When a file was changed last, by the answer to MDTM, in seconds from the beginning of 1970; none where the server refuses to tell it.
fn moment_told(answer: &Answer<Global>) -> Result<Option<u64>, MirrorFault>
    // Witness: an equation; `edits/a_moment_is_half_of_what_is_told`.
    ensures { result ≡ moment_told answer.now }
{
    match answer {
        Answer::Stamp(moment) => Ok(Some(moment.seconds)),
        Answer::Refused(_) => Ok(None),
        answer => Err(MirrorFault::of(answer)),
    }
}
