// A file of a system that is read where it lies.
ghost use Rattle.std.specs.Prelude.{◌≤◌, ◌<◌, IfOk, length, take};
ghost use Rattle.std.specs.Io.KnownBytes.{Consumes};

use crate::host::Look;
use crate::standing::Standing;
use std::alloc::Global;
use std::fs::{File, Files, Metadata, OpenFile};
use std::io::{Error, ErrorKind, Read, Seek, SeekFrom};
use std::os::unix::fs::MetadataExt;
use std::{fs, io};

/// A reading that a signal interrupts is tried again so often.
const TURNS: u64 = 1_048_576;

/// A file that is open, where it was opened, how it stood then, and where its next octet is read.
#[derive(Drop)]
pub struct SystemFile<F: Drop> {
    file: F,
    place: String<Global>,
    opened: Standing,
    /// Where the system goes on; it is not known after a failure.
    at: Option<u64>,
}

impl<F: Read + Seek + OpenFile + Drop> SystemFile<F> {
    /// Opens the file at a place that looked so, of which nothing is read yet.
    pub(crate) fn open<R: Files<File = F>>(
        files: &R,
        place: String<Global>,
        look: Look,
    ) -> io::Result<SystemFile<F>> {
        let file = open_same(files, place.as_str(), look)?;
        let opened = Standing::of(&file.metadata()?, true);
        Ok(SystemFile {
            file,
            place,
            opened,
            at: Some(0),
        })
    }

    /// Reads octets from a place on. With the last of them it is looked at once more: where others changed its octets meanwhile, this fails.
    pub(crate) fn read<R: Files>(
        &mut self,
        files: &R,
        at: u64,
        room: &mut [u8],
    ) -> io::Result<usize>
        ensures most { IfOk result (λ count. count ≤ length room.old) }
        ensures some { IfOk result (λ count. 0 < length room.old → 0 < count) }
    {
        let count = self.read_at(at, room)?;
        if at.saturating_add(count as u64) >= self.opened.look.len {
            self.check_unchanged(files)?;
        }
        Ok(count)
    }

    /// Fails where others changed the octets of the file since it was opened.
    fn check_unchanged<R: Files>(&self, files: &R) -> io::Result<()> {
        let found = self.file.metadata()?;
        let is_named = fs::symlink_metadata(files, self.place.as_str()).is_ok_and(
            |there| there.dev() == found.dev() && there.ino() == found.ino(),
        );
        if self.opened.keeps_octets(&Standing::of(&found, is_named)) {
            Ok(())
        } else {
            Err(changed())
        }
    }

    /// Reads octets from a place on; the system is told of the place only where it would not go on there.
    fn read_at(&mut self, at: u64, room: &mut [u8]) -> io::Result<usize>
        ensures most { IfOk result (λ count. count ≤ length room.old) }
        ensures some { IfOk result (λ count. 0 < length room.old → 0 < count) }
    {
        if room.is_empty() {
            return Ok(0);
        }
        if self.at != Some(at) {
            self.at = None;
            self.file.seek(SeekFrom::Start(at))?;
        }
        self.at = None;
        let count = read_some(&mut self.file, room)?;
        self.at = at.checked_add(count as u64);
        Ok(count)
    }
}

/// Reads at least one octet.
pub(crate) fn read_some<F: Read>(file: &mut F, room: &mut [u8]) -> io::Result<usize>
    requires { 0 < length room.old }
    ensures count { IfOk result (λ count. (0 < count) × (count ≤ length room.old)) }
    ensures octets { IfOk result (λ count. Consumes (F.remaining file.old) (F.remaining file.new) (take count room.new)) }
{
    for _ in 0..TURNS {
        match file.read(room) {
            Ok(0) => return Err(Error::from(ErrorKind::UnexpectedEof)),
            Ok(count) => return Ok(count),
            Err(error) if error.kind() == ErrorKind::Interrupted => {}
            Err(error) => return Err(error),
        }
    }
    Err(Error::from(ErrorKind::TimedOut))
}

/// Opens the file at a place that looked so, and no other. It is looked at before, so that what would make the call wait is not opened, and after it.
pub(crate) fn open_same<R: Files>(files: &R, place: &str, look: Look) -> io::Result<R::File> {
    check_same(&fs::symlink_metadata(files, place)?, look)?;
    let file = File::open(files, place)?;
    check_same(&file.metadata()?, look)?;
    Ok(file)
}

/// Fails where a file is another one than what looked so, or was changed since. That its inode was touched is no change: a new name does that.
pub(crate) fn check_same(found: &Metadata, look: Look) -> io::Result<()> {
    let is_it = found.is_file() && found.dev() == look.device && found.ino() == look.inode;
    let is_as_it_was = found.len() == look.len
        && found.mtime() == look.modified.seconds
        && found.mtime_nsec() == look.modified.nanos;
    if is_it && is_as_it_was {
        Ok(())
    } else {
        Err(changed())
    }
}

/// The failure of a file that is no longer as it was.
fn changed() -> Error {
    Error::new(ErrorKind::Other, "it was changed by others")
}
