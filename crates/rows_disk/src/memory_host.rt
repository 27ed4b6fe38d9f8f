// A folder in memory as a tree of a disk asks it: a call of it may fail or stray, and others change what stands there.
ghost use Rattle.std.specs.Prelude.{◌≤◌, ◌<◌, IfOk, length};

use crate::memory_shelf::{Shelf, StoredKind, above};
use ftp_disk_host::{Found, Host, Look, Stamp};
use ftp_facts::Moment;
use std::alloc::{AllocError, Global};
use std::cell::{Cell, RefCell, RefMut};
use std::io;
use std::io::{Error, ErrorKind};

/// What goes wrong, and at which call of all that a tree makes, counted from 1.
#[derive(Clone, Copy, PartialEq, Eq)]
pub enum HostTrouble {
    Nothing,
    /// The call fails, and nothing has happened.
    Fails(u64),
    /// The call fails after it is done, if it is one of which a system says so: a file put over another or moved onto it, what is removed or deleted.
    /// Each other one fails, and nothing has happened.
    FailsLate(u64),
    /// The call gives other octets than stand there, if it is a reading; it keeps other ones than came, if it writes.
    Strays(u64),
}

/// A folder in memory.
#[derive(Drop)]
pub struct MemoryHost {
    alloc: Global,
    shelf: RefCell<Shelf>,
    trouble: Cell<HostTrouble>,
    calls: Cell<u64>,
    parts: Cell<u64>,
    /// How many milliseconds it takes to list names.
    slow: Cell<u64>,
    reason: Cell<Option<io::Error>>,
}

/// An open directory, by its place.
#[derive(Drop)]
pub struct MemoryFolder {
    place: String<Global>,
}

/// An open file: it is read where its octets are, whatever becomes of its name.
#[derive(Drop)]
pub struct MemoryFile {
    inode: usize,
}

/// A part: it stands beside its place by a name of its own until it gets that.
#[derive(Drop)]
pub struct MemoryPart {
    inode: usize,
    beside: Option<String<Global>>,
}

/// What a tree asks is done by the calls of `Host`; a row does the rest by those that follow. These are not counted, and always go well where memory does.
impl MemoryHost {
    /// An empty folder, in the second 1,000,000; nothing goes wrong.
    pub fn new(alloc: Global) -> Result<MemoryHost, AllocError> {
        let shelf = Shelf::new(alloc)?;
        Ok(MemoryHost {
            alloc,
            shelf: RefCell::new(shelf),
            trouble: Cell::new(HostTrouble::Nothing),
            calls: Cell::new(0),
            parts: Cell::new(0),
            slow: Cell::new(0),
            reason: Cell::new(None),
        })
    }

    /// From here on calls are counted anew, and this goes wrong.
    pub fn meet(&self, trouble: HostTrouble) {
        self.calls.set(0);
        self.trouble.set(trouble);
    }

    /// How many calls a tree made since then.
    pub fn calls(&self) -> u64 {
        self.calls.get()
    }

    /// The clock goes on by so many milliseconds. It stands still else: what is changed twice without that looks changed once.
    pub fn pass(&self, millis: u64) {
        if let Ok(mut shelf) = self.shelf() {
            shelf.pass(millis);
        }
    }

    /// From here on the clock goes on by so many milliseconds where names are listed.
    pub fn slow(&self, millis: u64) {
        self.slow.set(millis);
    }

    /// Another hand writes a file: in the one that stands there, or a new one.
    pub fn write_file(&self, place: &str, octets: &[u8]) -> io::Result<()> {
        let copy = Vec::from_slice(self.alloc, octets)?;
        let mut shelf = self.shelf()?;
        match shelf.file_at(place) {
            Ok(inode) => shelf.write_over(inode, copy),
            Err(_) => {
                shelf.check_free(place)?;
                let inode = shelf.make(StoredKind::File)?;
                shelf.write_over(inode, copy);
                shelf.name(place, inode)?;
            }
        }
        Ok(())
    }

    /// Another hand writes a file beside, and moves it to a place where a file or nothing stands.
    pub fn replace_file(&self, place: &str, octets: &[u8]) -> io::Result<()> {
        let copy = Vec::from_slice(self.alloc, octets)?;
        let mut shelf = self.shelf()?;
        shelf.dir_at(above(place))?;
        let inode = shelf.make(StoredKind::File)?;
        shelf.write_over(inode, copy);
        Ok(shelf.name(place, inode)?)
    }

    /// The octets of a file decay: it looks as it did where there are as many.
    pub fn decay(&self, place: &str, octets: &[u8]) -> io::Result<()> {
        let copy = Vec::from_slice(self.alloc, octets)?;
        let mut shelf = self.shelf()?;
        let inode = shelf.file_at(place)?;
        shelf.write_unseen(inode, copy);
        Ok(())
    }

    /// Another hand gives a file a moment.
    pub fn stamp(&self, place: &str, moment: Moment) -> io::Result<()> {
        let mut shelf = self.shelf()?;
        let inode = shelf.file_at(place)?;
        shelf.stamp(inode, moment);
        Ok(())
    }

    /// Another hand makes a directory.
    pub fn put_dir(&self, place: &str) -> io::Result<()> {
        self.put(place, StoredKind::Dir)
    }

    /// Another hand makes a link, a pipe or a device.
    pub fn put_odd(&self, place: &str) -> io::Result<()> {
        self.put(place, StoredKind::Other)
    }

    fn put(&self, place: &str, kind: StoredKind) -> io::Result<()> {
        let mut shelf = self.shelf()?;
        shelf.check_free(place)?;
        let inode = shelf.make(kind)?;
        Ok(shelf.name(place, inode)?)
    }

    /// Another hand takes away what stands at a place, and all below it; the folder itself is not taken.
    pub fn take(&self, place: &str) -> io::Result<()> {
        if place.is_empty() {
            return Err(Error::from(ErrorKind::ResourceBusy));
        }
        let mut shelf = self.shelf()?;
        shelf.take(place);
        Ok(())
    }

    /// Another hand moves what stands at a place to one where nothing does.
    pub fn move_to(&self, from: &str, to: &str) -> io::Result<()> {
        let mut shelf = self.shelf()?;
        shelf.check_free(to)?;
        Ok(shelf.move_all(from, to)?)
    }

    /// The octets of the file at a place; none where no file is there.
    pub fn octets(&self, place: &str) -> io::Result<Option<Vec<u8, Global>>> {
        let shelf = self.shelf()?;
        match shelf.file_at(place) {
            Ok(inode) => Ok(Some(Vec::from_slice(self.alloc, shelf.octets_of(inode))?)),
            Err(_) => Ok(None),
        }
    }

    /// What stands in the folder, while nobody else uses it.
    fn shelf(&self) -> io::Result<RefMut<'_, Shelf>> {
        match self.shelf.try_borrow_mut() {
            Ok(shelf) => Ok(shelf),
            Err(_) => Err(Error::from(ErrorKind::ResourceBusy)),
        }
    }

    /// Counts a call.
    fn count(&self) {
        self.calls.set(self.calls.get().wrapping_add(1));
    }

    /// Counts a call which has done nothing where it fails.
    fn begins(&self) -> io::Result<RefMut<'_, Shelf>> {
        self.count();
        let at = self.calls.get();
        if self.trouble.get() == HostTrouble::Fails(at)
            || self.trouble.get() == HostTrouble::FailsLate(at)
        {
            return Err(failure());
        }
        self.shelf()
    }

    /// Counts a call which may fail after it is done.
    fn begins_lasting(&self) -> io::Result<RefMut<'_, Shelf>> {
        self.count();
        if self.trouble.get() == HostTrouble::Fails(self.calls.get()) {
            return Err(failure());
        }
        self.shelf()
    }

    /// The end of such a call.
    fn ends(&self) -> io::Result<()> {
        if self.trouble.get() == HostTrouble::FailsLate(self.calls.get()) {
            return Err(failure());
        }
        Ok(())
    }

    /// Whether the call strays.
    fn strays(&self) -> bool {
        self.trouble.get() == HostTrouble::Strays(self.calls.get())
    }
}

fn failure() -> io::Error {
    Error::new(ErrorKind::Other, "the device failed")
}

/// Octets none of which is what it was.
fn turn(octets: &mut [u8]) {
    for octet in octets.iter_mut() {
        *octet ^= 0xff;
    }
}

/// Whether a look is that of a file which was not changed since another.
fn is_same(look: Look, before: Look) -> bool {
    look.inode == before.inode && look.len == before.len && look.modified == before.modified
}

impl Host for MemoryHost {
    type Folder = MemoryFolder;

    type File = MemoryFile;

    type Part = MemoryPart;

    fn memory(&self) -> Global {
        self.alloc
    }

    fn now(&self) -> Stamp {
        match self.shelf() {
            Ok(shelf) => shelf.now(),
            Err(_) => Stamp {
                seconds: 0,
                nanos: 0,
            },
        }
    }

    fn found(&self, below: &str) -> io::Result<Found> {
        self.begins()?.found(below)
    }

    /// It is not counted: where a directory can't be opened, that is seen as where its names can't be listed.
    fn folder(&self, below: &str) -> io::Result<MemoryFolder> {
        let place = String::from_str(self.alloc, below)?;
        Ok(MemoryFolder { place })
    }

    fn names(&self, folder: &MemoryFolder) -> io::Result<Vec<u8, Global>> {
        let mut shelf = self.begins()?;
        shelf.pass(self.slow.get());
        shelf.names(folder.place.as_str())
    }

    fn found_in(&self, folder: &MemoryFolder, name: &str) -> io::Result<Found> {
        let dir = folder.place.as_str();
        let place = format!(in self.alloc; "{dir}/{name}")?;
        self.begins()?.found(place.as_str())
    }

    fn open(&self, below: &str, look: Look) -> io::Result<MemoryFile> {
        let shelf = self.begins()?;
        let inode = shelf.file_at(below)?;
        if !is_same(shelf.look_of(inode)?, look) {
            return Err(Error::new(ErrorKind::Other, "it was changed by others"));
        }
        Ok(MemoryFile { inode })
    }

    fn read(&self, file: &mut MemoryFile, at: u64, room: &mut [u8]) -> io::Result<usize> {
        let shelf = self.begins()?;
        let octets = shelf.octets_of(file.inode);
        let place = usize::try_from(at).unwrap_or(usize::MAX).min(octets.len());
        let rest = &octets[place..];
        let count = rest.len().min(room.len());
        if count == 0 && !room.is_empty() {
            return Err(Error::from(ErrorKind::UnexpectedEof));
        }
        let (front, _) = room.split_at_mut(count);
        front.copy_from_slice(&rest[..count]);
        if self.strays() {
            turn(front);
        }
        Ok(count)
    }

    fn begin(&self, below: &str) -> io::Result<MemoryPart> {
        let mut shelf = self.begins()?;
        let dir = above(below);
        shelf.dir_at(dir)?;
        let number = self.parts.get().wrapping_add(1);
        self.parts.set(number);
        let beside = format!(in self.alloc; "{dir}/.ftp-writing-{number}\x7f")?;
        let inode = shelf.make(StoredKind::File)?;
        shelf.name(beside.as_str(), inode)?;
        Ok(MemoryPart {
            inode,
            beside: Some(beside),
        })
    }

    fn write(&self, part: &mut MemoryPart, octets: &[u8]) -> io::Result<()> {
        let mut copy = Vec::from_slice(self.alloc, octets)?;
        let mut shelf = self.begins()?;
        if self.strays() {
            turn(copy.as_mut_slice());
        }
        shelf.write(part.inode, copy.as_slice())
    }

    fn keep(&self, part: &mut MemoryPart, below: &str, look: Look, count: u64) -> io::Result<()> {
        let mut shelf = self.begins()?;
        let inode = shelf.file_at(below)?;
        if !is_same(shelf.look_of(inode)?, look) {
            return Err(Error::new(ErrorKind::Other, "it was changed by others"));
        }
        let Some(front) = shelf
            .octets_of(inode)
            .get(..usize::try_from(count).unwrap_or(usize::MAX))
        else {
            return Err(Error::from(ErrorKind::UnexpectedEof));
        };
        let mut octets = Vec::from_slice(self.alloc, front)?;
        octets.extend_from_slice(shelf.octets_of(part.inode))?;
        shelf.write_over(part.inode, octets);
        Ok(())
    }

    fn put_new(&self, part: &mut MemoryPart, below: &str, moment: Moment) -> io::Result<Look> {
        let mut shelf = self.begins()?;
        shelf.check_free(below)?;
        put_at(&mut shelf, part, below, moment)
    }

    fn put_over(&self, part: &mut MemoryPart, below: &str, moment: Moment) -> io::Result<Look> {
        let mut shelf = self.begins_lasting()?;
        if shelf.dir_at(below).is_ok() {
            return Err(Error::from(ErrorKind::IsADirectory));
        }
        let look = put_at(&mut shelf, part, below, moment)?;
        self.ends()?;
        Ok(look)
    }

    fn discard(&self, part: &mut MemoryPart) {
        if let (Some(beside), Ok(mut shelf)) = (&part.beside, self.shelf()) {
            shelf.take(beside.as_str());
        }
        part.beside = None;
    }

    fn make_dir(&self, below: &str) -> io::Result<()> {
        let mut shelf = self.begins()?;
        shelf.check_free(below)?;
        let inode = shelf.make(StoredKind::Dir)?;
        Ok(shelf.name(below, inode)?)
    }

    fn remove_dir(&self, below: &str) -> io::Result<()> {
        let mut shelf = self.begins_lasting()?;
        if !shelf.names(below)?.is_empty() {
            return Err(Error::from(ErrorKind::DirectoryNotEmpty));
        }
        shelf.take(below);
        self.ends()
    }

    fn delete(&self, below: &str) -> io::Result<()> {
        let mut shelf = self.begins_lasting()?;
        shelf.file_at(below)?;
        shelf.take(below);
        self.ends()
    }

    fn rename(&self, from: &str, to: &str) -> io::Result<()> {
        let mut shelf = self.begins()?;
        shelf.check_free(to)?;
        if shelf.inode_at(from).is_none() {
            return Err(Error::from(ErrorKind::NotFound));
        }
        Ok(shelf.move_all(from, to)?)
    }

    fn rename_onto(&self, from: &str, to: &str) -> io::Result<()> {
        let mut shelf = self.begins_lasting()?;
        let inode = shelf.file_at(from)?;
        if shelf.file_at(to)? == inode {
            return Err(Error::from(ErrorKind::AlreadyExists));
        }
        shelf.name(to, inode)?;
        shelf.take(from);
        self.ends()
    }

    fn is_left(&self, name: &str) -> bool {
        name.ends_with('\x7f')
    }

    fn leave(&self, below: &str, len: u64) -> io::Result<()> {
        let mut shelf = self.begins()?;
        if len == 0 {
            shelf.take(below);
            return Ok(());
        }
        if !is_part(below) {
            return Ok(());
        }
        let dir = above(below);
        for number in 1..100u64 {
            let left = format!(in self.alloc; "{dir}/ftp-left-{number}\x7f")?;
            if shelf.check_free(left.as_str()).is_ok() {
                return Ok(shelf.move_all(below, left.as_str())?);
            }
        }
        Err(Error::from(ErrorKind::AlreadyExists))
    }

    fn blame(&self, error: io::Error) {
        self.reason.set(Some(error));
    }

    fn reason(&self) -> Option<io::Error> {
        self.reason.replace(None)
    }
}

/// Gives a part its moment and the name of a place, from which that of a file there is taken.
fn put_at(
    shelf: &mut Shelf,
    part: &mut MemoryPart,
    place: &str,
    moment: Moment,
) -> io::Result<Look> {
    shelf.dir_at(above(place))?;
    shelf.name(place, part.inode)?;
    if let Some(beside) = &part.beside {
        shelf.take(beside.as_str());
    }
    part.beside = None;
    shelf.stamp(part.inode, moment);
    shelf.look_of(part.inode)
}

/// Whether a place is that of a part.
fn is_part(place: &str) -> bool {
    match place.rsplit_once('/') {
        Some((_, name)) => name.starts_with(".ftp-writing-"),
        None => false,
    }
}
