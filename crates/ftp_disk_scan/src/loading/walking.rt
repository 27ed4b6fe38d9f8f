// A walk over directories of a disk, whose files and directories are taken into a tree. No file is opened.
mod putting;

use crate::loading::changes::Thing;
use crate::loading::counting::RootCount;
use crate::loading::directory::Directory;
use crate::loading::dirs::{Dirs, Seen};
use crate::loading::fault::{LoadFault, Reason, UnservedHandling};
use crate::loading::names::sorted;
use crate::loading::version::{Held, Version};
use ftp_disk_host::{Found, Host, Look};
use ftp_path::{Name, PathFault};
use ftp_tree::{Limits, TreeFault};
use ftp_tree_nodes::Nodes;
use std::alloc::{AllocError, Global};
use std::io;
use std::io::ErrorKind;

/// The loop over directories ends, as at a limit, once it has made so many turns.
pub(crate) const DIR_TURNS: u64 = 1_099_511_627_776;

/// The nodes have no limits while a walk counts by roots.
const ANY: Limits = Limits {
    file: u64::MAX,
    total: u64::MAX,
    nodes: u64::MAX,
};

/// What a tree of a disk has in memory: its nodes, how its directories looked, and the number of its last version of a file.
pub(crate) struct Kept<K: Held> {
    pub(crate) nodes: Nodes<Global, Version<K>>,
    pub(crate) dirs: Dirs,
    pub(crate) version: u64,
}

/// By hand, as that of a tree.
impl<K: Held> Drop for Kept<K> {
    fn drop(self) {
        let Self {
            nodes: _,
            dirs: _,
            version: _,
        } = self;
    }
}

impl<K: Held> Kept<K> {
    /// The nodes, how directories looked, and the number of the last version.
    pub(crate) fn into_parts(self) -> (Nodes<Global, Version<K>>, Dirs, u64) {
        let Self {
            nodes,
            dirs,
            version,
        } = self;
        (nodes, dirs, version)
    }
}

/// A directory whose names are still to be listed, and how it looked.
struct Waiting {
    below: String<Global>,
    look: Look,
}

/// By hand, as that of a tree.
impl Drop for Waiting {
    fn drop(self) {
        let Self { below: _, look: _ } = self;
    }
}

/// Whether what others took away below a root was looked for, which is done once in a rescan.
#[derive(Clone, Copy)]
pub(crate) enum Freeing {
    Due,
    Done,
}

/// Whether all of a directory came into the nodes, as far as limits go.
#[derive(Clone, Copy)]
pub(crate) enum Fit {
    Whole,
    /// Something in it passed a limit.
    Short,
}

/// Files and directories that are taken in. Directories wait in a list, so no depth exhausts the stack.
pub(crate) struct Walk<'a, H: Host, K: Held> {
    host: &'a H,
    kept: Kept<K>,
    /// The limits that hold.
    limits: Limits,
    handling: UnservedHandling,
    /// The directory in which something is taken in.
    directory: Directory,
    /// What stands below its root.
    root_count: RootCount,
    /// Of that root.
    freeing: Freeing,
    /// Of the directory.
    fit: Fit,
    /// The place of what is taken in.
    place: String<Global>,
    waiting: Vec<Waiting, Global>,
}

/// By hand, as that of a tree.
impl<'a, H: Host, K: Held> Drop for Walk<'a, H, K> {
    fn drop(self) {
        let Self {
            host: _,
            kept: _,
            limits: _,
            handling: _,
            directory: _,
            root_count: _,
            freeing: _,
            fit: _,
            place: _,
            waiting: _,
        } = self;
    }
}

impl<'a, H: Host, K: Held> Walk<'a, H, K> {
    /// A walk that has taken in nothing yet, within the limits of the nodes. The nodes have none until they are given some again.
    pub(crate) fn new(host: &'a H, kept: Kept<K>, handling: UnservedHandling) -> Walk<'a, H, K> {
        let alloc = host.memory();
        let limits = kept.nodes.limits();
        let mut kept = kept;
        kept.nodes.limit(ANY);
        let directory = Directory::top(alloc);
        let root_count = RootCount::of(&kept.nodes, &kept.dirs.roots, &directory.root);
        Walk {
            host,
            kept,
            limits,
            handling,
            directory,
            root_count,
            freeing: Freeing::Due,
            fit: Fit::Whole,
            place: String::new(alloc),
            waiting: Vec::new(alloc),
        }
    }

    /// What was taken in, and what could not be.
    pub(crate) fn into_parts(self) -> (Kept<K>, UnservedHandling) {
        let Self {
            host: _,
            kept,
            limits: _,
            handling,
            directory: _,
            root_count: _,
            freeing: _,
            fit: _,
            place: _,
            waiting: _,
        } = self;
        (kept, handling)
    }

    /// Lists each directory that waits, and takes in what is in it.
    pub(crate) fn load_all(&mut self) -> Result<(), LoadFault> {
        for _ in 0..DIR_TURNS {
            let Some(dir) = self.waiting.pop() else {
                return Ok(());
            };
            self.load_dir(&dir)?;
        }
        Err(LoadFault::at(
            self.host.memory(),
            b"".as_slice(),
            Reason::Tree(TreeFault::Full),
        ))
    }

    /// A directory that the tree has waits.
    pub(crate) fn await_dir(&mut self, below: &str, look: Look) -> Result<(), AllocError> {
        let below = String::from_str(self.host.memory(), below)?;
        self.waiting.push(Waiting { below, look })?;
        Ok(())
    }

    /// The directory at the place of what is taken in waits.
    fn await_place(&mut self, look: Look) -> Result<(), LoadFault> {
        let Ok(below) = self.place.clone() else {
            return Err(LoadFault::Memory);
        };
        match self.waiting.push(Waiting { below, look }) {
            Ok(()) => Ok(()),
            Err(_) => Err(LoadFault::Memory),
        }
    }

    /// Takes in what is in a directory, in the order of the names' octets. One that can't be listed stays empty.
    fn load_dir(&mut self, dir: &Waiting) -> Result<(), LoadFault> {
        let alloc = self.host.memory();
        self.enter(dir.below.as_str())?;
        let seen = Seen::of(dir.look, self.host.now());
        let (folder, octets) = match opened(self.host, dir.below.as_str()) {
            Ok(opened) => opened,
            Err(error) => return self.meet(dir.below.as_bytes(), reason_of(error)?),
        };
        let Ok(names) = sorted(alloc, octets.as_slice()) else {
            return Err(LoadFault::Memory);
        };
        for name in &names {
            self.load(&folder, name)?;
        }
        self.note(seen)
    }

    /// Turns to a directory.
    pub(crate) fn enter(&mut self, below: &str) -> Result<(), LoadFault> {
        self.fit = Fit::Whole;
        let directory = match Directory::at(self.host.memory(), &self.kept.dirs.roots, below) {
            Ok(directory) => directory,
            Err(PathFault::Memory) => return Err(LoadFault::Memory),
            Err(_) => return Err(self.too_long(below)),
        };
        if directory.root.key() != self.directory.root.key() {
            self.root_count = RootCount::of(
                &self.kept.nodes,
                &self.kept.dirs.roots,
                &directory.root,
            );
            self.freeing = Freeing::Due;
        }
        self.directory = directory;
        Ok(())
    }

    /// The fault of a place whose path is past its limit.
    fn too_long(&self, place: &str) -> LoadFault {
        let why = Reason::Tree(TreeFault::TooBig);
        LoadFault::at(self.host.memory(), place.as_bytes(), why)
    }

    /// The names in the directory were taken in, which looked so before they were listed.
    pub(crate) fn note(&mut self, seen: Seen) -> Result<(), LoadFault> {
        let seen = seen.by(self.host.now());
        let seen = match self.fit {
            Fit::Whole => seen,
            Fit::Short => seen.short(),
        };
        let below = self.directory.below.as_bytes();
        match self.kept.dirs.note(below, seen) {
            Ok(()) => Ok(()),
            Err(AllocError) => Err(LoadFault::Memory),
        }
    }

    /// Takes in what stands in the directory by a name.
    fn load(&mut self, folder: &H::Folder, octets: &[u8]) -> Result<(), LoadFault> {
        match std::str::from_utf8(octets) {
            Ok(name) => self.load_name(folder, name),
            Err(_) => self.meet_name(octets),
        }
    }

    /// Takes in what stands in the directory by a name that is a text.
    fn load_name(&mut self, folder: &H::Folder, name: &str) -> Result<(), LoadFault> {
        if self.directory.put_place(name, &mut self.place).is_err() {
            return Err(LoadFault::Memory);
        }
        let found = match self.host.found_in(folder, name) {
            Ok(found) => found,
            Err(error) => return self.leave_out(reason_of(error)?),
        };
        match found {
            Found::File(look) if self.host.is_left(name) => {
                self.leave(look.len);
                Ok(())
            }
            Found::Nothing => Ok(()),
            _ if Name::new(name.as_bytes()).is_none() => self.leave_out(Reason::Name),
            Found::Other => self.leave_out(Reason::Kind),
            Found::File(look) => self.put(name, Thing::File(look)),
            Found::Dir(look) => self.put(name, Thing::Dir(look)),
        }
    }

    /// Keeps a part that an interrupted write left, which is no part of the tree: where that fails, it stays as it is. At a look it may be one that is
    /// written now.
    fn leave(&mut self, len: u64) {
        if self.handling.is_look() {
            return;
        }
        let _kept = self.host.leave(self.place.as_str(), len);
    }

    /// Counts anew what stands below the root.
    pub(crate) fn count(&mut self) {
        self.root_count = RootCount::of(
            &self.kept.nodes,
            &self.kept.dirs.roots,
            &self.directory.root,
        );
    }

    /// What is taken in can't be served.
    fn leave_out(&mut self, why: Reason) -> Result<(), LoadFault> {
        if let Reason::Tree(_) = why {
            self.fit = Fit::Short;
        }
        let place = self.place.as_bytes();
        self.handling.meet(self.host.memory(), place, why)
    }

    /// What stands at a place can't be served.
    pub(crate) fn meet(&mut self, place: &[u8], why: Reason) -> Result<(), LoadFault> {
        self.handling.meet(self.host.memory(), place, why)
    }

    /// What stands in the directory by a name that is no text can't be served.
    fn meet_name(&mut self, octets: &[u8]) -> Result<(), LoadFault> {
        match place_of(self.host.memory(), self.directory.below.as_bytes(), octets) {
            Ok(place) => self.meet(place.as_slice(), Reason::Name),
            Err(AllocError) => Err(LoadFault::Memory),
        }
    }
}

/// The directory at a place, opened, and the names in it.
fn opened<H: Host>(host: &H, below: &str) -> io::Result<(H::Folder, Vec<u8, Global>)> {
    let folder = host.folder(below)?;
    let names = host.names(&folder)?;
    Ok((folder, names))
}

/// The place of a name that is no text.
fn place_of(alloc: Global, below: &[u8], name: &[u8]) -> Result<Vec<u8, Global>, AllocError> {
    let mut place = Vec::from_slice(alloc, below)?;
    place.push(b'/')?;
    place.extend_from_slice(name)?;
    Ok(place)
}

/// Why the system refused something; memory that was refused ends a walk.
pub(crate) fn reason_of(error: io::Error) -> Result<Reason, LoadFault> {
    match error.kind() {
        ErrorKind::OutOfMemory => Err(LoadFault::Memory),
        _ => Ok(Reason::System(error)),
    }
}
