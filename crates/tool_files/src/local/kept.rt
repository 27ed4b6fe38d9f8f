// A part that was kept of a download before, with a note of which file it is.
ghost use Rattle.std.specs.Prelude.{◌≡◌};
ghost use Rattle.tool_files.specs.local.Note.{is_part_of};

use crate::local::content::LimitedContent;
use crate::local::disk::{Disk, Reopened};
use crate::local::identity::{is_lone_file, is_own_part};
use crate::local::note::{GROWING, Note, note_in};
use crate::local::open_part::OpenPart;
use crate::local::part::beside;
use crate::local::place::{Destination, FileKind, place_of};
use crate::local::writing::PARTS;
use std::alloc::{AllocError, Global};
use std::io;
use std::io::ErrorKind;

/// What stands behind the name of a part in that of its note.
const NOTE: &str = ".note";

/// The most octets of a note.
const NOTE_LIMIT: u64 = 65_536;

/// A part of a download, open to be gone on with.
#[derive(Drop)]
pub struct KeptPart {
    pub part: OpenPart,
    /// How many octets it has.
    pub count: u64,
    pub note: Note,
}

/// What stands beside a file.
#[derive(Drop)]
pub enum PartBeside {
    /// A part with its note.
    Kept(KeptPart),
    /// A part of this name, which has a note that fits and is not gone on with, since it is a link, no regular file, or called otherwise too.
    Refused(String<Global>),
    /// A part of which there is no note, or one that does not fit.
    Unnoted,
    Nothing,
}

/// What stands at the name of a part.
#[derive(Drop)]
enum FoundPart {
    Kept(KeptPart),
    /// A link, what is no regular file, or a file that has another name too: nothing is written there.
    Foreign,
    /// No part that is gone on with.
    Other,
}

/// The first part beside a file that is what its note says, of the file at this place of a server, that has one name, and that no other process has open.
pub(crate) fn kept_beside<D: Disk>(
    disk: &D,
    alloc: Global,
    file: &str,
    place: &[u8],
) -> io::Result<PartBeside> {
    match &place_of(disk, alloc, file)? {
        Destination::File { name, mode } => kept_at(disk, alloc, name.as_str(), place, *mode),
        Destination::Device { is_pipe: _ } => Ok(PartBeside::Nothing),
    }
}

/// The same, of a file whose name is no link's.
fn kept_at<D: Disk>(
    disk: &D,
    alloc: Global,
    name: &str,
    place: &[u8],
    mode: Option<u32>,
) -> io::Result<PartBeside> {
    let mut refused = None;
    for number in 0..PARTS {
        match kept_as(disk, alloc, name, number, place, mode)? {
            FoundPart::Kept(kept) => return Ok(PartBeside::Kept(kept)),
            FoundPart::Foreign if refused.is_none() => refused = Some(number),
            FoundPart::Foreign | FoundPart::Other => {}
        }
    }
    if let Some(number) = refused {
        return Ok(PartBeside::Refused(beside(alloc, name, number)?));
    }
    let first = beside(alloc, name, 0)?;
    Ok(if disk.exists(first.as_str())? {
        PartBeside::Unnoted
    } else {
        PartBeside::Nothing
    })
}

/// The part of this number, where it has such a note.
fn kept_as<D: Disk>(
    disk: &D,
    alloc: Global,
    name: &str,
    number: u32,
    place: &[u8],
    mode: Option<u32>,
) -> io::Result<FoundPart> {
    let part = beside(alloc, name, number)?;
    let Some(note) = noted(disk, alloc, part.as_str(), place)? else {
        return Ok(FoundPart::Other);
    };
    match disk.look_at(part.as_str())? {
        Some(look) if is_lone_file(look) => {}
        Some(_) => return Ok(FoundPart::Foreign),
        None => return Ok(FoundPart::Other),
    }
    let Some(again) = disk.open_again(part.as_str())? else {
        return Ok(FoundPart::Other);
    };
    let named = disk.look_at(part.as_str())?.map(|look| look.id);
    if !is_own_part(again.look, named) {
        return Ok(FoundPart::Foreign);
    }
    taken_up(alloc, again, note, number, mode)
}

/// A part that is open again, where it is what its note says.
fn taken_up(
    alloc: Global,
    again: Reopened,
    note: Note,
    number: u32,
    mode: Option<u32>,
) -> io::Result<FoundPart> {
    let Reopened {
        opened,
        count,
        look: _,
    } = again;
    if !is_part_of(note, count) {
        return Ok(FoundPart::Other);
    }
    Ok(FoundPart::Kept(KeptPart {
        part: OpenPart::new(alloc, number, opened, mode)?,
        count,
        note,
    }))
}

/// Whether a part of so many octets is what its note says.
fn is_part_of(note: Note, count: u64) -> bool
    ensures { result ≡ is_part_of note count }
{
    note.count == count || (note.count == GROWING && count <= note.size)
}

/// What the note of a part says, where it is of the file at this place.
fn noted<D: Disk>(disk: &D, alloc: Global, part: &str, place: &[u8]) -> io::Result<Option<Note>> {
    let name = name_of_note(alloc, part)?;
    match &octets_of(disk, name.as_str(), NOTE_LIMIT)? {
        Some(text) => Ok(note_in(text.as_slice(), place)),
        None => Ok(None),
    }
}

/// The octets of a file; none where there is no such file, or one of too many octets. What is none, as a pipe, is not waited for.
fn octets_of<D: Disk>(disk: &D, file: &str, limit: u64) -> io::Result<Option<Vec<u8, Global>>> {
    if !matches!(disk.standing_at(file)?, FileKind::File(_)) {
        return Ok(None);
    }
    match disk.read(file, limit) {
        Ok(LimitedContent::Content(content)) => Ok(Some(content.octets)),
        Ok(LimitedContent::TooLarge(_)) => Ok(None),
        Err(error) if error.kind() == ErrorKind::NotFound => Ok(None),
        Err(error) => Err(error),
    }
}

/// Writes the note of a part, and flushes it; never over what has its name.
pub(crate) fn write_note<D: Disk>(
    disk: &D,
    alloc: Global,
    part: &str,
    note: &[u8],
) -> io::Result<()> {
    let name = name_of_note(alloc, part)?;
    disk.write_new(name.as_str(), note)
}

/// Removes the note of a part, if there is one.
pub(crate) fn forget_note<D: Disk>(disk: &D, alloc: Global, part: &str) -> Result<(), AllocError> {
    let name = name_of_note(alloc, part)?;
    let _gone = disk.remove(name.as_str());
    Ok(())
}

/// What the note of a part is called.
pub(crate) fn name_of_note(alloc: Global, part: &str) -> Result<String<Global>, AllocError> {
    let mut name: String<Global> = String::from_str(alloc, part)?;
    name.push_str(NOTE)?;
    Ok(name)
}
