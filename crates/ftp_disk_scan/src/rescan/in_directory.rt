// What others changed in a directory: its names, compared with those that the tree has.
use crate::loading::{
    Changes, Directory, Dirs, Held, Seen, TreeEntry, Version, entry_at, served, sorted,
};
use crate::rescan::finding::{Finding, compare};
use ftp_disk_host::{Found, Host, Look};
use ftp_path::{Path, PathFault};
use ftp_tree::Sight;
use ftp_tree_nodes::Nodes;
use std::alloc::Global;
use std::io;
use std::io::{Error, ErrorKind};

/// What a look at a directory found.
pub(crate) struct DirectoryFindings {
    changes: Changes,
    /// How it looked before its names were listed, if they were.
    listed: Option<Seen>,
}

/// By hand, as that of a tree.
impl Drop for DirectoryFindings {
    fn drop(self) {
        let Self {
            changes: _,
            listed: _,
        } = self;
    }
}

impl DirectoryFindings {
    /// The changes, and how it looked.
    pub(crate) fn into_parts(self) -> (Changes, Option<Seen>) {
        let Self { changes, listed } = self;
        (changes, listed)
    }

    /// No change, and no names.
    pub(crate) fn none(alloc: Global) -> DirectoryFindings {
        DirectoryFindings {
            changes: Changes::none(alloc),
            listed: None,
        }
    }
}

/// Looks at a directory that is on the disk, where it looks so, and in the tree.
pub(crate) fn look_in<H: Host, K: Held>(
    host: &H,
    nodes: &Nodes<Global, Version<K>>,
    dirs: &mut Dirs,
    directory: Directory,
    look: Look,
    sight: Sight,
) -> io::Result<DirectoryFindings> {
    let are_known = dirs.has(directory.below.as_bytes(), look, sight);
    if are_known && sight == Sight::Path {
        return Ok(DirectoryFindings::none(host.memory()));
    }
    let folder = host.folder(directory.below.as_str())?;
    let opened = OpenDirectory {
        host,
        nodes,
        directory,
        folder,
    };
    let mut changes = Changes::none(host.memory());
    let mut listed = None;
    if !are_known {
        listed = Some(Seen::of(look, host.now()));
        opened.look_at_names(sight, &mut changes)?;
    }
    if sight == Sight::Files {
        opened.look_at_children(&mut changes)?;
    }
    if let Some(seen) = listed {
        if changes.is_empty() {
            // Refused memory, its names are listed again at the next look.
            let place = opened.directory.below.as_bytes();
            let _noted = dirs.note(place, seen.by(host.now()));
        }
    }
    Ok(DirectoryFindings { changes, listed })
}

/// A directory that is looked at, and open.
struct OpenDirectory<'a, H: Host, K: Held> {
    host: &'a H,
    nodes: &'a Nodes<Global, Version<K>>,
    directory: Directory,
    folder: H::Folder,
}

/// By hand, as that of a tree.
impl<'a, H: Host, K: Held> Drop for OpenDirectory<'a, H, K> {
    fn drop(self) {
        let Self {
            host: _,
            nodes: _,
            directory: _,
            folder: _,
        } = self;
    }
}

impl<'a, H: Host, K: Held> OpenDirectory<'a, H, K> {
    /// Lists the names in it, and compares them with those that the tree has. Which of these are gone is seen by a look at each file as well.
    fn look_at_names(&self, sight: Sight, changes: &mut Changes) -> io::Result<()> {
        let octets = self.host.names(&self.folder)?;
        let names = sorted(self.host.memory(), octets.as_slice())?;
        self.find_new(names.as_slice(), changes)?;
        match sight {
            Sight::Path => self.find_gone(names.as_slice(), changes),
            Sight::Files => Ok(()),
        }
    }

    /// What of some names the tree has not.
    fn find_new(&self, names: &[&[u8]], changes: &mut Changes) -> io::Result<()> {
        for octets in names {
            if let Some(name) = served(self.host, octets) {
                self.look_at_name(name, changes)?;
            }
        }
        Ok(())
    }

    /// Looks at a name, unless the tree has it. A path past its limits can't be served.
    fn look_at_name(&self, name: &str, changes: &mut Changes) -> io::Result<()> {
        let path = match self.directory.child(self.host.memory(), name) {
            Ok(path) => path,
            Err(PathFault::Memory) => return Err(error_of(PathFault::Memory)),
            Err(_) => return Ok(()),
        };
        if self.nodes.kind(&self.directory.root, &path).is_some() {
            return Ok(());
        }
        self.look_by_name(name, &path, changes)
    }

    /// What the tree has and is none of some names, which are in order.
    fn find_gone(&self, names: &[&[u8]], changes: &mut Changes) -> io::Result<()> {
        for at in 0..usize::MAX {
            let Some(name) = self
                .nodes
                .nth_name(&self.directory.root, &self.directory.path, at)
            else {
                return Ok(());
            };
            if !is_among(name.octets(), names) {
                self.find_none(text_of(name.octets())?, changes)?;
            }
        }
        Ok(())
    }

    /// Looks at each name that the tree has.
    fn look_at_children(&self, changes: &mut Changes) -> io::Result<()> {
        for at in 0..usize::MAX {
            let Some(name) = self
                .nodes
                .nth_name(&self.directory.root, &self.directory.path, at)
            else {
                return Ok(());
            };
            self.look_at_child(text_of(name.octets())?, changes)?;
        }
        Ok(())
    }

    /// Looks at a name that the tree has.
    fn look_at_child(&self, name: &str, changes: &mut Changes) -> io::Result<()> {
        let path = self.path_of(name)?;
        self.look_by_name(name, &path, changes)
    }

    /// Looks at a name, whose path is this.
    fn look_by_name(
        &self,
        name: &str,
        path: &Path<Global>,
        changes: &mut Changes,
    ) -> io::Result<()> {
        let found = self.host.found_in(&self.folder, name)?;
        let entry = entry_at(self.nodes, &self.directory.root, path);
        self.compare(name, found, entry, changes)
    }

    /// A name that the tree has is not among those that the host told: nothing stands there.
    fn find_none(&self, name: &str, changes: &mut Changes) -> io::Result<()> {
        let path = self.path_of(name)?;
        let entry = entry_at(self.nodes, &self.directory.root, &path);
        self.compare(name, Found::Nothing, entry, changes)
    }

    /// The path of a name that the tree has.
    fn path_of(&self, name: &str) -> io::Result<Path<Global>> {
        match self.directory.child(self.host.memory(), name) {
            Ok(path) => Ok(path),
            Err(fault) => Err(error_of(fault)),
        }
    }

    /// Compares what was found by a name with what the tree has. Its place is written for a change alone.
    #[tactic(auto, unfolding(crate::specs::rescan::Finding::difference_in))]
    fn compare(
        &self,
        name: &str,
        found: Found,
        entry: TreeEntry,
        changes: &mut Changes,
    ) -> io::Result<()> {
        if let Finding::SameFile | Finding::SameDir(_) = Finding::of(found, entry) {
            changes.same(found, entry);
            return Ok(());
        }
        let alloc = self.host.memory();
        let mut place = String::new(alloc);
        self.directory.put_place(name, &mut place)?;
        Ok(compare(changes, alloc, place.as_str(), found, entry)?)
    }
}

/// A name that a tree has, as a text.
fn text_of(name: &[u8]) -> io::Result<&str> {
    match std::str::from_utf8(name) {
        Ok(name) => Ok(name),
        Err(_) => Err(Error::from(ErrorKind::InvalidFilename)),
    }
}

/// Why a place has no path.
pub(crate) fn error_of(fault: PathFault) -> io::Error {
    match fault {
        PathFault::Memory => Error::from(ErrorKind::OutOfMemory),
        PathFault::NotText | PathFault::TooBig => Error::from(ErrorKind::InvalidFilename),
    }
}

/// Whether a name is among some that are in order.
fn is_among(name: &[u8], names: &[&[u8]]) -> bool {
    names.binary_search_by(|other| (*other).cmp(name)).is_ok()
}
