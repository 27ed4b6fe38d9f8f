// What others took away below a root, anywhere there: it counts for limits until it is found.
use crate::loading::changes::Changes;
use crate::loading::directory::Directory;
use crate::loading::fault::LoadFault;
use crate::loading::roots::Roots;
use crate::loading::tree_entry::entry_at;
use crate::loading::version::{Held, Version};
use crate::loading::walking::DIR_TURNS;
use crate::rescan::Finding;
use ftp_disk_host::Host;
use ftp_path::{Path, PathFault};
use ftp_tree_nodes::Nodes;
use std::alloc::Global;

/// What the nodes have below a root, and below no lower root, and the disk has not; and each file that has fewer octets there. What can't be looked at
/// counts on.
pub(crate) fn freed_below<'a, H: Host, K: Held>(
    host: &'a H,
    nodes: &'a Nodes<Global, Version<K>>,
    roots: &Roots,
    root: &Path<Global>,
) -> Result<Changes, LoadFault> {
    let alloc = host.memory();
    let mut search = Search {
        host,
        nodes,
        freed: Changes::none(alloc),
        place: String::new(alloc),
        waiting: Vec::new(alloc),
    };
    search.await_at(text_of(root.key())?)?;
    for _ in 0..DIR_TURNS {
        let Some(below) = search.waiting.pop() else {
            break;
        };
        let directory = directory_at(alloc, roots, below.as_str())?;
        if directory.root.key() == root.key() {
            search.look_in(&directory)?;
        }
    }
    Ok(search.into_freed())
}

/// A search of what was taken away. Directories wait in a list, so no depth exhausts the stack.
struct Search<'a, H: Host, K: Held> {
    host: &'a H,
    nodes: &'a Nodes<Global, Version<K>>,
    freed: Changes,
    /// The place of what is looked at.
    place: String<Global>,
    waiting: Vec<String<Global>, Global>,
}

/// By hand, as that of a tree.
impl<'a, H: Host, K: Held> Drop for Search<'a, H, K> {
    fn drop(self) {
        let Self {
            host: _,
            nodes: _,
            freed: _,
            place: _,
            waiting: _,
        } = self;
    }
}

impl<'a, H: Host, K: Held> Search<'a, H, K> {
    /// What was found.
    fn into_freed(self) -> Changes {
        let Self {
            host: _,
            nodes: _,
            freed,
            place: _,
            waiting: _,
        } = self;
        freed
    }

    /// A directory waits.
    fn await_at(&mut self, below: &str) -> Result<(), LoadFault> {
        let Ok(below) = String::from_str(self.host.memory(), below) else {
            return Err(LoadFault::Memory);
        };
        match self.waiting.push(below) {
            Ok(()) => Ok(()),
            Err(_) => Err(LoadFault::Memory),
        }
    }

    /// Looks at each name that the nodes have in a directory.
    fn look_in(&mut self, directory: &Directory) -> Result<(), LoadFault> {
        let Ok(folder) = self.host.folder(directory.below.as_str()) else {
            return Ok(());
        };
        for at in 0..usize::MAX {
            let Some(name) = self.nodes.nth_name(&directory.root, &directory.path, at) else {
                return Ok(());
            };
            self.look_at(directory, &folder, text_of(name.octets())?)?;
        }
        Ok(())
    }

    /// Looks at what stands in a directory by a name.
    #[tactic(auto, unfolding(crate::specs::rescan::Finding::difference_in))]
    fn look_at(
        &mut self,
        directory: &Directory,
        folder: &H::Folder,
        name: &str,
    ) -> Result<(), LoadFault> {
        let alloc = self.host.memory();
        let Ok(path) = directory.child(alloc, name) else {
            return Err(LoadFault::Memory);
        };
        if directory.put_place(name, &mut self.place).is_err() {
            return Err(LoadFault::Memory);
        }
        let Ok(found) = self.host.found_in(folder, name) else {
            return Ok(());
        };
        let entry = entry_at(self.nodes, &directory.root, &path);
        let place = self.place.as_str();
        let added = match Finding::of(found, entry) {
            Finding::SameDir(_) => return self.await_directory(),
            Finding::NotLonger(look) if look.len < entry.len() => {
                self.freed.add_not_longer(alloc, place, look, found, entry)
            }
            Finding::Gone => self.freed.add_gone(alloc, place, found, entry),
            Finding::TurnedOther => self.freed.add_gone(alloc, place, found, entry),
            Finding::Replaced(_) => self.freed.add_gone(alloc, place, found, entry),
            _ => return Ok(()),
        };
        match added {
            Ok(()) => Ok(()),
            Err(_) => Err(LoadFault::Memory),
        }
    }

    /// The directory that is looked at waits.
    fn await_directory(&mut self) -> Result<(), LoadFault> {
        let Ok(below) = self.place.clone() else {
            return Err(LoadFault::Memory);
        };
        match self.waiting.push(below) {
            Ok(()) => Ok(()),
            Err(_) => Err(LoadFault::Memory),
        }
    }
}

/// Names that a tree has, as a text.
fn text_of(names: &[u8]) -> Result<&str, LoadFault> {
    match std::str::from_utf8(names) {
        Ok(names) => Ok(names),
        Err(_) => Err(LoadFault::Memory),
    }
}

/// A directory that the nodes have, as a path below a root.
fn directory_at(alloc: Global, roots: &Roots, below: &str) -> Result<Directory, LoadFault> {
    match Directory::at(alloc, roots, below) {
        Ok(directory) => Ok(directory),
        Err(PathFault::Memory | PathFault::NotText | PathFault::TooBig) => Err(LoadFault::Memory),
    }
}
