// What stands in a folder that is kept in memory.
use ftp_disk_host::{Found, Look, Stamp};
use ftp_facts::Moment;
use std::alloc::{AllocError, Global};
use std::io;
use std::io::{Error, ErrorKind};

/// What something is, by a place or by an open file.
#[derive(Clone, Copy, PartialEq, Eq)]
pub(crate) enum StoredKind {
    Dir,
    File,
    /// A link, or what else is neither.
    Other,
}

/// What stands under one name or several, or under none any more while it is open: an inode.
#[derive(Drop)]
struct Body {
    kind: StoredKind,
    octets: Vec<u8, Global>,
    modified: Stamp,
    touched: Stamp,
}

/// A place, and the number of what stands there.
#[derive(Drop)]
struct PlacedNode {
    place: String<Global>,
    inode: usize,
}

/// Places and what stands there. A place is a `/` before each name, and empty for the folder itself, which always stands.
#[derive(Drop)]
pub(crate) struct Shelf {
    alloc: Global,
    placed: Vec<PlacedNode, Global>,
    bodies: Vec<Body, Global>,
    now: Stamp,
}

impl Shelf {
    /// The folder alone, in the second 1,000,000.
    pub(crate) fn new(alloc: Global) -> Result<Shelf, AllocError> {
        let mut shelf = Shelf {
            alloc,
            placed: Vec::new(alloc),
            bodies: Vec::new(alloc),
            now: Stamp {
                seconds: 1_000_000,
                nanos: 0,
            },
        };
        let inode = shelf.make(StoredKind::Dir)?;
        shelf.name("", inode)?;
        Ok(shelf)
    }

    pub(crate) fn now(&self) -> Stamp {
        self.now
    }

    /// Its clock goes on by so many milliseconds.
    pub(crate) fn pass(&mut self, millis: u64) {
        let seconds = i64::try_from(millis / 1_000).unwrap_or(0);
        let nanos = i64::try_from(millis % 1_000)
            .unwrap_or(0)
            .wrapping_mul(1_000_000);
        let all = self.now.nanos.wrapping_add(nanos);
        self.now = Stamp {
            seconds: self
                .now
                .seconds
                .wrapping_add(seconds)
                .wrapping_add(all / 1_000_000_000),
            nanos: all % 1_000_000_000,
        };
    }

    /// The number of what stands at a place.
    pub(crate) fn inode_at(&self, place: &str) -> Option<usize> {
        for placed in self.placed.iter() {
            if placed.place.as_str() == place {
                return Some(placed.inode);
            }
        }
        None
    }

    pub(crate) fn kind_of(&self, inode: usize) -> Option<StoredKind> {
        Some(self.bodies.get(inode)?.kind)
    }

    pub(crate) fn octets_of(&self, inode: usize) -> &[u8] {
        match self.bodies.get(inode) {
            Some(body) => body.octets.as_slice(),
            None => &[],
        }
    }

    pub(crate) fn look_of(&self, inode: usize) -> io::Result<Look> {
        match self.bodies.get(inode) {
            Some(body) => Ok(Look {
                device: 1,
                inode: inode as u64,
                len: body.octets.len() as u64,
                modified: body.modified,
                touched: body.touched,
            }),
            None => Err(Error::from(ErrorKind::NotFound)),
        }
    }

    pub(crate) fn found(&self, place: &str) -> io::Result<Found> {
        let Some(inode) = self.inode_at(place) else {
            return Ok(Found::Nothing);
        };
        let look = self.look_of(inode)?;
        Ok(match self.kind_of(inode) {
            Some(StoredKind::Dir) => Found::Dir(look),
            Some(StoredKind::File) => Found::File(look),
            Some(StoredKind::Other) => Found::Other,
            None => Found::Nothing,
        })
    }

    /// The number of a file at a place.
    pub(crate) fn file_at(&self, place: &str) -> io::Result<usize> {
        self.at(place, StoredKind::File, ErrorKind::IsADirectory)
    }

    /// The number of a directory at a place.
    pub(crate) fn dir_at(&self, place: &str) -> io::Result<usize> {
        self.at(place, StoredKind::Dir, ErrorKind::NotADirectory)
    }

    /// The number of what stands at a place, where it is of this kind.
    fn at(&self, place: &str, kind: StoredKind, wrong: ErrorKind) -> io::Result<usize> {
        match self.inode_at(place) {
            Some(inode) if self.kind_of(inode) == Some(kind) => Ok(inode),
            Some(_) => Err(Error::from(wrong)),
            None => Err(Error::from(ErrorKind::NotFound)),
        }
    }

    /// Fails where something stands at a place, or no directory above it.
    pub(crate) fn check_free(&self, place: &str) -> io::Result<()> {
        self.dir_at(above(place))?;
        match self.inode_at(place) {
            Some(_) => Err(Error::from(ErrorKind::AlreadyExists)),
            None => Ok(()),
        }
    }

    /// The names in a directory, a NUL after each, the newest last.
    pub(crate) fn names(&self, dir: &str) -> io::Result<Vec<u8, Global>> {
        self.dir_at(dir)?;
        let mut names = Vec::new(self.alloc);
        for placed in self.placed.iter() {
            if let Some((front, name)) = placed.place.as_str().rsplit_once('/') {
                if front == dir {
                    names.extend_from_slice(name.as_bytes())?;
                    names.push(0)?;
                }
            }
        }
        Ok(names)
    }

    /// Makes what has no name yet.
    pub(crate) fn make(&mut self, kind: StoredKind) -> Result<usize, AllocError> {
        let inode = self.bodies.len();
        self.bodies.push(Body {
            kind,
            octets: Vec::new(self.alloc),
            modified: self.now,
            touched: self.now,
        })?;
        Ok(inode)
    }

    /// Gives what has this number the name of a place, from which the name of what stands there is taken.
    pub(crate) fn name(&mut self, place: &str, inode: usize) -> Result<(), AllocError> {
        let text = String::from_str(self.alloc, place)?;
        self.placed.push(PlacedNode { place: text, inode })?;
        let last = self.placed.len();
        let mut at = 0usize;
        self.placed.retain(|placed| {
            at = at.wrapping_add(1);
            at == last || placed.place.as_str() != place
        });
        self.change_above(place);
        Ok(())
    }

    /// Takes away what stands at a place, and all below it.
    pub(crate) fn take(&mut self, place: &str) {
        self.placed
            .retain(|placed| !is_within(placed.place.as_str(), place));
        self.change_above(place);
    }

    /// Moves what stands at a place, and all below it, to one where nothing does.
    pub(crate) fn move_all(&mut self, from: &str, to: &str) -> Result<(), AllocError> {
        let mut moved = Vec::new(self.alloc);
        for placed in self.placed.iter() {
            let text = moved_text(self.alloc, placed.place.as_str(), from, to)?;
            moved.push(PlacedNode {
                place: text,
                inode: placed.inode,
            })?;
        }
        self.placed = moved;
        self.change_above(from);
        self.change_above(to);
        Ok(())
    }

    /// Puts octets after those of a file.
    pub(crate) fn write(&mut self, inode: usize, octets: &[u8]) -> io::Result<()> {
        let now = self.now;
        match self.bodies.get_mut(inode) {
            Some(body) => {
                body.octets.extend_from_slice(octets)?;
                body.modified = now;
                body.touched = now;
                Ok(())
            }
            None => Err(Error::from(ErrorKind::NotFound)),
        }
    }

    /// Puts octets in the place of those of a file.
    pub(crate) fn write_over(&mut self, inode: usize, octets: Vec<u8, Global>) {
        let now = self.now;
        if let Some(body) = self.bodies.get_mut(inode) {
            body.octets = octets;
            body.modified = now;
            body.touched = now;
        }
    }

    /// Puts other octets in a file, and it looks as it did.
    pub(crate) fn write_unseen(&mut self, inode: usize, octets: Vec<u8, Global>) {
        if let Some(body) = self.bodies.get_mut(inode) {
            body.octets = octets;
        }
    }

    /// Gives a file its moment.
    pub(crate) fn stamp(&mut self, inode: usize, moment: Moment) {
        let now = self.now;
        if let Some(body) = self.bodies.get_mut(inode) {
            body.modified = Stamp {
                seconds: i64::try_from(moment.seconds).unwrap_or(0),
                nanos: 0,
            };
            body.touched = now;
        }
    }

    /// The directory in which a place is looks changed.
    fn change_above(&mut self, place: &str) {
        let now = self.now;
        if let Some(inode) = self.inode_at(above(place)) {
            if let Some(body) = self.bodies.get_mut(inode) {
                body.modified = now;
                body.touched = now;
            }
        }
    }
}

/// The place of the directory in which a place is.
pub(crate) fn above(place: &str) -> &str {
    match place.rsplit_once('/') {
        Some((dir, _)) => dir,
        None => place,
    }
}

/// Whether a place is another one, or below it.
pub(crate) fn is_within(place: &str, top: &str) -> bool {
    match place.strip_prefix(top) {
        Some(rest) => rest.is_empty() || rest.starts_with('/'),
        None => false,
    }
}

/// What a place is called once `from` is called `to`.
fn moved_text(
    alloc: Global,
    place: &str,
    from: &str,
    to: &str,
) -> Result<String<Global>, AllocError> {
    match place.strip_prefix(from) {
        Some(rest) if rest.is_empty() || rest.starts_with('/') => {
            let mut text = String::from_str(alloc, to)?;
            text.push_str(rest)?;
            Ok(text)
        }
        _ => String::from_str(alloc, place),
    }
}
