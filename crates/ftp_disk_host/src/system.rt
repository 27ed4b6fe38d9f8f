// The folder of a system that has the files of a tree.
ghost use Rattle.std.specs.Prelude.{◌≡◌, ◌≤◌, ◌<◌, ◌++◌, IfOk, length, string_bytes};
ghost use Rattle.ftp_disk_host.specs.Place.{folder_text};

use crate::copying::{COPIED_AT_ONCE, Fronts};
use crate::folder::SystemFolder;
use crate::front::{put_front, put_written};
use crate::host::{Found, Host, Look, Stamp};
use crate::installing::{name_new, name_over};
use crate::left::{is_left, leave_at, part_in};
use crate::listing::names_in;
use crate::moment::now;
use crate::moving::{make_at, move_at, move_onto};
use crate::part::{SystemPart, begun_at, discard, mode_at};
use crate::place::{above, check_way, dir_text, found_of, look_of, place_of, sync_above};
use crate::reading::{SystemFile, open_same};
use crate::writing::Writing;
use ftp_facts::Moment;
use std::alloc::{AllocError, Global};
use std::cell::Cell;
use std::fs::{Files, OpenFile};
use std::io::{Error, ErrorKind};
use std::time::Clock;
use std::{fs, io, mem};

/// How many names are tried for a part.
const TRIES: u32 = 1_000;

/// The files and directories below a directory of a system. No clause says what they keep. Links of the directory's own path are followed, none below it.
pub struct SystemHost<'a, R: Files + Clock + AllocGlobal> {
    files: &'a R,
    dir: String<Global>,
    /// What the next part is called by. It begins with the time, so that two programs on one folder, one after the other too, call no parts alike.
    number: Cell<u64>,
    /// The parts that are written.
    writing: Writing,
    /// The fronts that are copied to some of them.
    fronts: Fronts<R::File>,
    /// Why the last call that was blamed failed.
    reason: Cell<Option<io::Error>>,
}

/// By hand, since what has the files need not be let go of.
impl<'a, R: Files + Clock + AllocGlobal> Drop for SystemHost<'a, R> {
    fn drop(self) {
        let Self {
            files: _,
            dir: _,
            number: _,
            writing: _,
            fronts: _,
            reason: _,
        } = self;
    }
}

impl<'a, R: Files + Clock + AllocGlobal> SystemHost<'a, R> {
    /// The folder below a directory, which is the current one for an empty text. Nothing is looked at.
    pub fn new(files: &'a R, dir: &str) -> Result<SystemHost<'a, R>, AllocError>
        ensures dir { IfOk result (λ host. string_bytes host.dir ≡ folder_text dir.now) }
    {
        let dir = String::from_str(files.alloc(), dir_text(dir))?;
        Ok(SystemHost {
            files,
            dir,
            number: Cell::new(first_number(now(files))),
            writing: Writing::new(files.alloc()),
            fronts: Fronts::new(files.alloc()),
            reason: Cell::new(None),
        })
    }

    /// Where a place below the folder is.
    fn place(&self, below: &str) -> Result<String<Global>, AllocError>
        ensures { IfOk result (λ place. string_bytes place ≡ string_bytes self.now.dir ++ below.now) }
    {
        place_of(self.files.alloc(), self.dir.as_str(), below)
    }

    /// The same, where directories alone lead to it.
    fn way(&self, below: &str) -> io::Result<String<Global>>
        ensures { IfOk result (λ place. string_bytes place ≡ string_bytes self.now.dir ++ below.now) }
    {
        let place = self.place(below)?;
        check_way(self.files, place.as_str(), self.dir.len())?;
        Ok(place)
    }

    /// Begins a part beside a place, with room for so many octets in front, in the place of a file of these permissions, if one is there.
    fn part_at(
        &self,
        place: &str,
        kept: Option<u32>,
        front: u64,
    ) -> io::Result<SystemPart<R::File>> {
        let alloc = self.files.alloc();
        for _ in 0..TRIES {
            let number = self.number.get();
            self.number.set(number.wrapping_add(1));
            let beside = part_in(alloc, above(place), number)?;
            self.writing.add(number, beside.as_str())?;
            match begun_at(self.files, alloc, number, beside, kept, front) {
                Ok(Some(part)) => return Ok(part),
                Ok(None) => self.writing.remove(number),
                Err(error) => {
                    self.writing.remove(number);
                    return Err(error);
                }
            }
        }
        Err(Error::from(ErrorKind::AlreadyExists))
    }

    /// A part that has its name, or is gone, is written no more.
    fn note(&self, part: &SystemPart<R::File>) {
        if part.beside.is_none() {
            self.writing.remove(part.number);
            self.fronts.remove(part.number);
        }
    }

    /// Copies the first octets of the file at a place, `count` of them, and what was written of a part into a fresh one, which takes its place.
    fn copy_front(
        &self,
        part: &mut SystemPart<R::File>,
        place: &str,
        old: &mut R::File,
        count: u64,
    ) -> io::Result<()> {
        let kept = mode_at(self.files, place)?;
        let mut fresh = self.part_at(place, kept, 0)?;
        let put = put_front(self.files, self.files.alloc(), old, count, part, &mut fresh);
        self.replace(part, fresh, put)
    }

    /// Where the room in front of what was written of a part is nobody's, it is closed, before the part gets the name of a place.
    fn close_room(&self, part: &mut SystemPart<R::File>, place: &str) -> io::Result<()> {
        if part.owed == 0 {
            return Ok(());
        }
        let mut fresh = self.part_at(place, part.kept, 0)?;
        let put = put_written(self.files, self.files.alloc(), part, &mut fresh);
        self.replace(part, fresh, put)
    }

    /// A fresh part takes the place of another, where it has all of it; the one of them that is of no use goes.
    fn replace(
        &self,
        part: &mut SystemPart<R::File>,
        fresh: SystemPart<R::File>,
        put: io::Result<()>,
    ) -> io::Result<()> {
        let mut fresh = fresh;
        if put.is_ok() {
            mem::swap(part, &mut fresh);
        }
        self.discarded(&mut fresh);
        put
    }

    /// Removes a part that got no name.
    fn discarded(&self, part: &mut SystemPart<R::File>) {
        discard(self.files, part);
        self.note(part);
    }
}

/// The nanoseconds since 1970, as far as they fit.
fn first_number(now: Stamp) -> u64 {
    let seconds = u64::try_from(now.seconds).unwrap_or(0);
    seconds
        .wrapping_mul(1_000_000_000)
        .wrapping_add(u64::try_from(now.nanos).unwrap_or(0))
}

impl<'a, R: Files + Clock + AllocGlobal> Host for SystemHost<'a, R> {
    type Folder = SystemFolder;

    type File = SystemFile<R::File>;

    type Part = SystemPart<R::File>;

    fn memory(&self) -> Global {
        self.files.alloc()
    }

    fn now(&self) -> Stamp {
        now(self.files)
    }

    fn found(&self, below: &str) -> io::Result<Found> {
        let place = self.place(below)?;
        found_of(if below.is_empty() {
            fs::metadata(self.files, place.as_str())
        } else {
            fs::symlink_metadata(self.files, place.as_str())
        })
    }

    fn folder(&self, below: &str) -> io::Result<SystemFolder> {
        match SystemFolder::reach(self.files.alloc(), self.dir.as_str(), below) {
            Err(error) if error.kind() == ErrorKind::PermissionDenied && !below.is_empty() => {
                SystemFolder::at(self.way(below)?)
            }
            reached => reached,
        }
    }

    fn names(&self, folder: &SystemFolder) -> io::Result<Vec<u8, Global>> {
        names_in(self.files.alloc(), folder)
    }

    fn found_in(&self, folder: &SystemFolder, name: &str) -> io::Result<Found> {
        let place = folder.place_of(self.files.alloc(), name)?;
        found_of(self.files.symlink_metadata(place.as_str()))
    }

    fn open(&self, below: &str, look: Look) -> io::Result<SystemFile<R::File>> {
        let place = self.way(below)?;
        SystemFile::open(self.files, place, look)
    }

    fn read(&self, file: &mut SystemFile<R::File>, at: u64, room: &mut [u8]) -> io::Result<usize> {
        file.read(self.files, at, room)
    }

    fn begin(&self, below: &str) -> io::Result<SystemPart<R::File>> {
        let place = self.way(below)?;
        let kept = mode_at(self.files, place.as_str())?;
        self.part_at(place.as_str(), kept, 0)
    }

    fn begin_after(&self, below: &str, look: Look, count: u64) -> io::Result<SystemPart<R::File>> {
        if count <= COPIED_AT_ONCE {
            return self.begin(below);
        }
        let place = self.way(below)?;
        let kept = mode_at(self.files, place.as_str())?;
        let part = self.part_at(place.as_str(), kept, count)?;
        let _begun = self
            .fronts
            .begin(self.files, &part, place.as_str(), look, count);
        Ok(part)
    }

    fn begun(&self) -> Option<u64> {
        self.fronts.begun()
    }

    fn copy_on(&self, number: u64) -> bool {
        self.fronts.copy_on(number)
    }

    fn write(&self, part: &mut SystemPart<R::File>, octets: &[u8]) -> io::Result<()> {
        part.write(octets)
    }

    fn keep(
        &self,
        part: &mut SystemPart<R::File>,
        below: &str,
        look: Look,
        count: u64,
    ) -> io::Result<()> {
        let place = self.way(below)?;
        let mut old = open_same(self.files, place.as_str(), look)?;
        let found = look_of(&old.metadata()?);
        if self.fronts.is_whole(part.number, found, count) {
            self.fronts.remove(part.number);
            part.owed = 0;
            return Ok(());
        }
        self.copy_front(part, place.as_str(), &mut old, count)
    }

    fn put_new(
        &self,
        part: &mut SystemPart<R::File>,
        below: &str,
        moment: Moment,
    ) -> io::Result<Look> {
        let place = self.way(below)?;
        self.close_room(part, place.as_str())?;
        let named = name_new(self.files, part, place.as_str(), moment);
        self.note(part);
        named
    }

    fn put_over(
        &self,
        part: &mut SystemPart<R::File>,
        below: &str,
        moment: Moment,
    ) -> io::Result<Look> {
        let place = self.way(below)?;
        self.close_room(part, place.as_str())?;
        let named = name_over(self.files, part, place.as_str(), moment);
        self.note(part);
        named
    }

    fn discard(&self, part: &mut SystemPart<R::File>) {
        self.discarded(part);
    }

    fn make_dir(&self, below: &str) -> io::Result<()> {
        make_at(self.files, self.way(below)?.as_str())
    }

    fn remove_dir(&self, below: &str) -> io::Result<()> {
        let place = self.way(below)?;
        fs::remove_dir(self.files, place.as_str())?;
        sync_above(self.files, place.as_str())
    }

    fn delete(&self, below: &str) -> io::Result<()> {
        let place = self.way(below)?;
        fs::remove_file(self.files, place.as_str())?;
        sync_above(self.files, place.as_str())
    }

    fn rename(&self, from: &str, to: &str) -> io::Result<()> {
        let from = self.way(from)?;
        let to = self.way(to)?;
        if self.writing.is_below(from.as_str()) {
            return Err(Error::new(
                ErrorKind::ResourceBusy,
                "an upload goes on below the directory",
            ));
        }
        move_at(self.files, from.as_str(), to.as_str())
    }

    fn rename_onto(&self, from: &str, to: &str) -> io::Result<()> {
        let from = self.way(from)?;
        let to = self.way(to)?;
        move_onto(self.files, from.as_str(), to.as_str())
    }

    fn is_left(&self, name: &str) -> bool {
        is_left(name.as_bytes())
    }

    fn leave(&self, below: &str, len: u64) -> io::Result<()> {
        let place = self.place(below)?;
        leave_at(self.files, self.files.alloc(), place.as_str(), len)
    }

    fn blame(&self, error: io::Error) {
        self.reason.set(Some(error));
    }

    fn reason(&self) -> Option<io::Error> {
        self.reason.replace(None)
    }
}
