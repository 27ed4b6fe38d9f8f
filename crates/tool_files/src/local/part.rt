// A file of this end, as it is written: beside its name, and moved over it.
ghost use Rattle.std.specs.Prelude.{◌≡◌, IfOk, OnOk, string_bytes};
ghost use Rattle.tool_files.specs.local.Part.{part_name};

use crate::local::disk::Disk;
use crate::local::identity::is_same_file;
use crate::local::kept::{forget_note, name_of_note, write_note};
use crate::local::open_part::OpenPart;
use crate::local::place::{Destination, place_of};
use crate::local::writing::{FileWriting, Flush, settle, write_to};
use ftp_facts::{Moment, Text};
use itoa::Buffer;
use std::alloc::{AllocError, Global};
use std::io;
use std::io::{Error, ErrorKind};
use std::path::PathBuf;

/// What a file is called behind its own name while it is written, and where a part of it is kept.
const BESIDE: &str = ".ftp-part";

/// Writes the octets of a file: beside its name, to where links lead, and moved over it; into what is no file, as it stands.
pub(crate) fn write_over<D: Disk>(
    disk: &D,
    alloc: Global,
    file: &str,
    pieces: &[Text<Global>],
    moment: Option<Moment>,
    flush: Flush,
) -> io::Result<()> {
    match &place_of(disk, alloc, file)? {
        Destination::File { name, mode } => {
            let writing = FileWriting {
                pieces,
                kept: *mode,
                moment,
                flush,
            };
            replace(disk, alloc, name.as_str(), writing)
        }
        Destination::Device { is_pipe } => disk.write_into(file, *is_pipe, pieces),
    }
}

/// Writes the octets of a file beside this very name, and moves it over what has the name: no link is followed.
pub(crate) fn write_at<D: Disk>(
    disk: &D,
    alloc: Global,
    name: &str,
    pieces: &[Text<Global>],
    moment: Option<Moment>,
    flush: Flush,
) -> io::Result<()> {
    let writing = FileWriting {
        pieces,
        kept: disk.mode_at(name)?,
        moment,
        flush,
    };
    replace(disk, alloc, name, writing)
}

/// Writes a file beside its name, flushes it where that comes first, and moves it over the name. Where that fails, what was written beside is removed
/// again.
fn replace<D: Disk>(
    disk: &D,
    alloc: Global,
    file: &str,
    writing: FileWriting<'_>,
) -> io::Result<()> {
    let part = disk.create_beside(file, writing.kept, false, &[])?;
    let name = beside(alloc, file, part.number)?;
    let done = match write_to(&part, writing) {
        Ok(()) => move_named(disk, &part, name.as_str(), file),
        Err(error) => Err(error),
    };
    if done.is_err() {
        let _gone = remove_own(disk, &part, name.as_str());
    }
    done
}

/// Gives a part the name of its file, where its own name leads to it still. Between the look and the rename another program can change that.
fn move_named<D: Disk>(disk: &D, part: &OpenPart, name: &str, file: &str) -> io::Result<()> {
    check_named(disk, part, name)?;
    disk.rename(name, file)
}

/// Removes a part by its name, where that leads to it still.
fn remove_own<D: Disk>(disk: &D, part: &OpenPart, name: &str) -> io::Result<()> {
    check_named(disk, part, name)?;
    disk.remove(name)
}

/// Fails where a name does not lead to this part: another file has it, or a link, or none has.
fn check_named<D: Disk>(disk: &D, part: &OpenPart, name: &str) -> io::Result<()> {
    let named = disk.look_at(name)?.map(|look| look.id);
    if is_same_file(part.look()?.id, named) {
        return Ok(());
    }
    Err(Error::new(
        ErrorKind::Other,
        "its part was replaced or removed by others",
    ))
}

/// Makes the part of a file beside its name; none where octets go into what is no file, as it stands.
pub(crate) fn begin_part<D: Disk>(
    disk: &D,
    alloc: Global,
    file: &str,
    is_noted: bool,
    passed: &[u32],
) -> io::Result<Option<OpenPart>> {
    match &place_of(disk, alloc, file)? {
        Destination::File { name, mode } => {
            Ok(Some(disk.create_beside(name.as_str(), *mode, is_noted, passed)?))
        }
        Destination::Device { is_pipe: _ } => Ok(None),
    }
}

/// Makes the part of a file beside this very name: no link is followed.
pub(crate) fn begin_at<D: Disk>(disk: &D, name: &str) -> io::Result<OpenPart> {
    disk.create_beside(name, disk.mode_at(name)?, false, &[])
}

/// Moves a part that has so many octets over what has this very name, be it a link. Where that fails, the part stands as it was.
pub(crate) fn finish_at<D: Disk>(
    disk: &D,
    alloc: Global,
    name: &str,
    part: &OpenPart,
    count: u64,
    moment: Option<Moment>,
    flush: Flush,
) -> io::Result<()>
    ensures { OnOk result (D.has_length part.now count) }
{
    settle(part, moment, flush)?;
    let made = beside(alloc, name, part.number)?;
    move_over(disk, part, count, made.as_str(), name)
}

/// Moves a part over a name, where its own name leads to it still and it has as many octets as came of its file; else it fails, and what has the name stays.
fn move_over<D: Disk>(
    disk: &D,
    part: &OpenPart,
    count: u64,
    made: &str,
    name: &str,
) -> io::Result<()>
    ensures { OnOk result (D.has_length part.now count) }
{
    check_named(disk, part, made)?;
    let length = disk.length(part)?;
    if length != count {
        return Err(Error::new(
            ErrorKind::InvalidData,
            "its part has not as many octets as came of it; what stood there stays",
        ));
    }
    disk.rename_whole(part, count, made, name)
}

/// Removes a part beside this very name.
pub(crate) fn discard_at<D: Disk>(
    disk: &D,
    alloc: Global,
    name: &str,
    part: &OpenPart,
) -> io::Result<()> {
    let made = beside(alloc, name, part.number)?;
    remove_own(disk, part, made.as_str())
}

/// Moves a part that has so many octets over its file, with the permissions of that; its note goes then. Where that fails, the part stands as it was: nothing
/// behind the rename can fail.
pub(crate) fn finish_part<D: Disk>(
    disk: &D,
    alloc: Global,
    file: &str,
    part: &OpenPart,
    count: u64,
    moment: Option<Moment>,
    flush: Flush,
) -> io::Result<()>
    ensures { OnOk result (D.has_length part.now count) }
{
    settle(part, moment, flush)?;
    let file = file_of(disk, alloc, file)?;
    let name = beside(alloc, file.as_str(), part.number)?;
    let note = name_of_note(alloc, name.as_str())?;
    move_over(disk, part, count, name.as_str(), file.as_str())?;
    let _gone = disk.remove(note.as_str());
    Ok(())
}

/// Removes a part, and its note, which goes first.
pub(crate) fn discard_part<D: Disk>(
    disk: &D,
    alloc: Global,
    file: &str,
    part: &OpenPart,
) -> io::Result<()> {
    let name = name_of(disk, alloc, file, part)?;
    forget_note(disk, alloc, name.as_str())?;
    remove_own(disk, part, name.as_str())
}

/// Writes the note of a part, and flushes it, in the place of the one that it had.
pub(crate) fn note_part<D: Disk>(
    disk: &D,
    alloc: Global,
    file: &str,
    part: &OpenPart,
    note: &[u8],
) -> io::Result<()> {
    let name = own_name(disk, alloc, file, part)?;
    forget_note(disk, alloc, name.as_str())?;
    write_note(disk, alloc, name.as_str(), note)
}

/// What a part of a file is called; fails where that name does not lead to it.
pub(crate) fn own_name<D: Disk>(
    disk: &D,
    alloc: Global,
    file: &str,
    part: &OpenPart,
) -> io::Result<String<Global>> {
    let name = name_of(disk, alloc, file, part)?;
    check_named(disk, part, name.as_str())?;
    Ok(name)
}

/// The name that a part of a file got.
fn name_of<D: Disk>(
    disk: &D,
    alloc: Global,
    file: &str,
    part: &OpenPart,
) -> io::Result<String<Global>> {
    let file = file_of(disk, alloc, file)?;
    Ok(beside(alloc, file.as_str(), part.number)?)
}

/// The name beside which a file is written.
fn file_of<D: Disk>(disk: &D, alloc: Global, file: &str) -> io::Result<PathBuf<Global>> {
    match place_of(disk, alloc, file)? {
        Destination::File { name, mode: _ } => Ok(name),
        Destination::Device { is_pipe: _ } => Err(Error::new(
            ErrorKind::InvalidInput,
            "no file stands beside a device",
        )),
    }
}

/// A name beside a file, by its number from 0.
pub fn beside(alloc: Global, file: &str, number: u32) -> Result<String<Global>, AllocError>
    ensures { IfOk result (λ name. string_bytes name ≡ part_name file.now number) }
{
    let mut name: String<Global> = String::from_str(alloc, file)?;
    put_part(&mut name, number)?;
    Ok(name)
}

/// Appends what stands behind the name of a file in that of its part of a number.
fn put_part(name: &mut String<Global>, number: u32) -> Result<(), AllocError>
    ensures { OnOk result (string_bytes name.new ≡ part_name (string_bytes name.old) number) }
{
    name.push_str(BESIDE)?;
    if number == 0 {
        return Ok(());
    }
    name.push_str("-")?;
    name.push_str(Buffer::new().format(number))
}
