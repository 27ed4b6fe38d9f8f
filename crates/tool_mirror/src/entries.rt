// What stands in a directory, or under one path, at either end.
ghost use Rattle.std.specs.Prelude.{◌≡◌};
ghost use Rattle.tool_mirror.specs.Answering.{is_moment, is_unlisted};
ghost use Rattle.tool_mirror.specs.Facts.{changed_at, is_alike};

use crate::facts::ask_facts;
use crate::fault::MirrorFault;
use crate::request::MirrorRequest;
use ftp_facts::Text;
use ftp_operation::{Answer, ListVerb, Op};
use ftp_reply::code::{NOT_IMPLEMENTED, UNKNOWN};
use std::alloc::{AllocError, Global};
use std::fs::Metadata;
use std::io;
use std::os::unix::fs::MetadataExt;
use tool_files::{DirectoryEntry, Places, Sightings};
use tool_listing::{
    DirectoryListing, ItemFacts, ItemKind, ListedItem, is_excluded, items_of_columns,
    items_of_facts,
};
use tool_mirror_plan::CopyDirection;
use tool_session::{ClientSession, DataEnding, MOST_ENTRIES, Request};

/// The entries of the directory `below` the folder of a mirror. Links are not followed.
pub(crate) fn entries_here<R: Places>(
    rt: &R,
    alloc: Global,
    mirror: &MirrorRequest<'_>,
    below: &str,
) -> io::Result<DirectoryListing<Global>> {
    match rt.sightings(mirror.folder, below, MOST_ENTRIES)? {
        Sightings::All(all) => Ok(items_of(alloc, all.as_slice(), mirror, below)?),
        Sightings::TooMany => Ok(DirectoryListing::CutOff),
    }
}

fn items_of(
    alloc: Global,
    all: &[DirectoryEntry],
    mirror: &MirrorRequest<'_>,
    below: &str,
) -> Result<DirectoryListing<Global>, AllocError> {
    let mut items = Vec::new(alloc);
    for finding in all {
        let kind = match &finding.found {
            Some(found) => kind_of(found, mirror.rules.way, mirror.begun),
            None => ItemKind::Other,
        };
        put_item(
            alloc,
            &mut items,
            finding.name.as_slice(),
            kind,
            below,
            mirror.excluded,
        )?;
    }
    Ok(DirectoryListing::Whole(items))
}

/// Puts an entry of this name and this kind; one that is left alone is put as such.
fn put_item(
    alloc: Global,
    items: &mut Vec<ListedItem<Global>, Global>,
    name: &[u8],
    kind: ItemKind,
    below: &str,
    excluded: &[&str],
) -> Result<(), AllocError> {
    let mut path: Vec<u8, Global> = Vec::new(alloc);
    path.extend_from_slice(below.as_bytes())?;
    if !below.is_empty() {
        path.extend_from_slice(b"/")?;
    }
    path.extend_from_slice(name)?;
    let kind = if is_excluded(excluded, path.as_slice(), name) {
        ItemKind::Excluded
    } else {
        kind
    };
    let name = Text::copy_of(alloc, name)?;
    items.push(ListedItem { name, kind })?;
    Ok(())
}

/// What is known of the file `below` the folder of a mirror; none where no file stands there, or the system tells nothing of it.
pub(crate) fn facts_here<R: Places>(
    rt: &R,
    mirror: &MirrorRequest<'_>,
    below: &str,
) -> Option<ItemFacts> {
    match rt.found(mirror.folder, below) {
        Ok(Some(found)) => match kind_of(&found, mirror.rules.way, mirror.begun) {
            ItemKind::File(facts) => Some(facts),
            ItemKind::Dir | ItemKind::Other | ItemKind::Excluded | ItemKind::Odd => None,
        },
        Ok(None) | Err(_) => None,
    }
}

/// What the system found, for a copy in this direction that began at this second.
fn kind_of(found: &Metadata, way: CopyDirection, now: u64) -> ItemKind {
    if found.is_dir() {
        ItemKind::Dir
    } else if found.is_file() {
        ItemKind::File(ItemFacts {
            size: Some(found.len()),
            moment: moment_here(found, way, now),
        })
    } else {
        ItemKind::Other
    }
}

/// The moment by which a file counts as changed last, where the system tells one from 1970 on.
fn moment_here(found: &Metadata, way: CopyDirection, now: u64) -> Option<u64> {
    let moment = u64::try_from(found.mtime()).ok()?;
    let touched = u64::try_from(found.ctime()).unwrap_or(moment);
    Some(changed_at(way, now, moment, touched))
}

/// The moment by which a file here counts as changed last: its own; of one that is sent, where its own lies in the future, that of the last change of its
/// inode (`touched`), which no program sets. All in seconds from the beginning of 1970.
fn changed_at(way: CopyDirection, now: u64, moment: u64, touched: u64) -> u64
    // Witness: an equation; `edits/a_moment_in_the_future_is_sent_again`.
    ensures { result ≡ changed_at way now moment touched }
{
    match way {
        CopyDirection::Up if now < moment => touched,
        CopyDirection::Up | CopyDirection::Down => moment,
    }
}

/// The entries of a directory of a server, which is called `below` in the tree (MLSD, RFC 3659, section 7; LIST, RFC 959, section 4.1.3).
pub(crate) fn entries_there<S: ClientSession>(
    alloc: Global,
    slot: &mut S,
    mirror: &MirrorRequest<'_>,
    below: &str,
) -> Result<DirectoryListing<Global>, MirrorFault> {
    let answer = listed(alloc, slot, mirror, below)?;
    if slot.ending() == DataEnding::PastLimit {
        return Ok(DirectoryListing::CutOff);
    }
    match &answer {
        Answer::Octets(text) => told_there(alloc, slot, mirror, below, text.as_slice()),
        Answer::Refused(code) if is_unlisted(*code) => Err(MirrorFault::NoListing(*code)),
        _ => Err(MirrorFault::of(&answer)),
    }
}

/// Whether a code says that a server does not know how to list (RFC 959, section 4.2.2).
fn is_unlisted(code: u16) -> bool
    // Witness: an equation; `edits/a_server_that_implements_no_listing_goes_on`.
    ensures { result ≡ is_unlisted code }
{
    code == UNKNOWN || code == NOT_IMPLEMENTED
}

/// What the server answers to the question for them; where it does not know MLSD, to that by LIST.
fn listed<S: ClientSession>(
    alloc: Global,
    slot: &mut S,
    mirror: &MirrorRequest<'_>,
    below: &str,
) -> Result<Answer<Global>, AllocError> {
    let answer = opened(alloc, slot, mirror, below)?;
    if !mirror.openings.hear_listing(&answer) {
        return Ok(answer);
    }
    drop(answer);
    opened(alloc, slot, mirror, below)
}

/// What the server answers; where it does not know how the data connection is asked for, to the same asked for otherwise.
fn opened<S: ClientSession>(
    alloc: Global,
    slot: &mut S,
    mirror: &MirrorRequest<'_>,
    below: &str,
) -> Result<Answer<Global>, AllocError> {
    let opened = slot.opened();
    let answer = slot.answer(listing_request(alloc, mirror, below)?);
    if !mirror
        .openings
        .hear(&answer, mirror.how, slot.opened() > opened)
    {
        return Ok(answer);
    }
    drop(answer);
    Ok(slot.answer(listing_request(alloc, mirror, below)?))
}

/// What asks for the entries of a directory.
pub(crate) fn listing_request(
    alloc: Global,
    mirror: &MirrorRequest<'_>,
    below: &str,
) -> Result<Request, AllocError> {
    let path = mirror.path(alloc, below)?;
    let how = mirror.openings.how(mirror.how);
    let verb = mirror.openings.list_verb();
    Ok(Request::One(Some(Op::Text(verb, path, how))))
}

/// What stands in a directory, which is called `below` in the tree, by this text. Of a file that LIST tells its size and its moment are asked for, where LIST
/// does not tell them well enough.
fn told_there<S: ClientSession>(
    alloc: Global,
    slot: &mut S,
    mirror: &MirrorRequest<'_>,
    below: &str,
    text: &[u8],
) -> Result<DirectoryListing<Global>, MirrorFault> {
    let is_columns = matches!(mirror.openings.list_verb(), ListVerb::List);
    let told = if is_columns {
        items_of_columns(alloc, text)?
    } else {
        items_of_facts(alloc, text)?
    };
    if told.len() >= MOST_ENTRIES {
        return Ok(DirectoryListing::CutOff);
    }
    let mut items = kept(alloc, mirror, below, told.as_slice())?;
    if is_columns {
        ask_facts(alloc, slot, mirror, below, &mut items)?;
    }
    Ok(DirectoryListing::Whole(items))
}

/// The items, of which some are left alone.
fn kept(
    alloc: Global,
    mirror: &MirrorRequest<'_>,
    below: &str,
    told: &[ListedItem<Global>],
) -> Result<Vec<ListedItem<Global>, Global>, AllocError> {
    let mut items = Vec::new(alloc);
    for item in told {
        put_item(
            alloc,
            &mut items,
            item.name.as_slice(),
            item.kind,
            below,
            mirror.excluded,
        )?;
    }
    Ok(items)
}

/// Whether the file here is the server's still, though the listing tells another moment: it has the size that is listed, and the moment that the server
/// tells when it is asked for this file alone, which is what a copy is given (RFC 3659, section 3).
pub(crate) fn is_current<R, S>(
    rt: &R,
    alloc: Global,
    slot: &mut S,
    mirror: &MirrorRequest<'_>,
    below: &str,
    facts: ItemFacts,
) -> Result<bool, MirrorFault>
where
    R: Places,
    S: ClientSession,
{
    let Some(here) = facts_here(rt, mirror, below) else {
        return Ok(false);
    };
    let Some(moment) = here.moment else {
        return Ok(false);
    };
    if !is_alike(here.size, facts.size) {
        return Ok(false);
    }
    let asked = Request::One(Some(Op::Modified(mirror.path(alloc, below)?)));
    is_moment(&slot.answer(asked), moment)
}

/// Whether two sizes are the same, or neither is known.
pub(crate) fn is_alike(one: Option<u64>, other: Option<u64>) -> bool
    // Witness: an equation; `edits/two_unknown_sizes_differ`.
    ensures { result ≡ is_alike one other }
{
    match (one, other) {
        (Some(one), Some(other)) => one == other,
        (None, None) => true,
        _ => false,
    }
}

/// Whether the answer to MDTM is this moment. Fails where the control connection ended.
fn is_moment(answer: &Answer<Global>, moment: u64) -> Result<bool, MirrorFault>
    // Witness: an equation; `edits/a_file_without_a_moment_is_current`.
    ensures { result ≡ is_moment answer.now moment }
{
    match answer {
        Answer::Stamp(told) => Ok(told.seconds == moment),
        Answer::Lost => Err(MirrorFault::Lost),
        _ => Ok(false),
    }
}
