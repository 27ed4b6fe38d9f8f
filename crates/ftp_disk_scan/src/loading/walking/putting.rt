// What was found on a disk is put into the nodes of a tree, within limits; and what is gone is cut.
use crate::loading::changes::{Changes, Thing};
use crate::loading::directory::Directory;
use crate::loading::fault::{LoadFault, Reason};
use crate::loading::freed::freed_below;
use crate::loading::version::{Held, Version};
use crate::loading::walking::{Freeing, Walk};
use ftp_disk_host::{Host, Look, moment_of};
use ftp_path::{Path, PathFault};
use ftp_tree::{NodeKind, TreeFault};
use std::alloc::Global;
use std::mem;

impl<'a, H: Host, K: Held> Walk<'a, H, K> {
    /// Turns to the directory that a place is in, and gives the name that the place has there; the folder itself has none.
    fn turn_to<'p>(&mut self, place: &'p str) -> Result<Option<&'p str>, LoadFault> {
        let Some((above, name)) = place.rsplit_once('/') else {
            return Ok(None);
        };
        if self.directory.below.as_str() != above {
            self.enter(above)?;
        }
        Ok(Some(name))
    }

    /// Takes in what was found at a place: in the directory, or in another one, to which the walk turns then.
    pub(crate) fn put_found(&mut self, place: &str, thing: Thing) -> Result<(), LoadFault> {
        let Some(name) = self.turn_to(place)? else {
            return Ok(());
        };
        if self.directory.put_place(name, &mut self.place).is_err() {
            return Err(LoadFault::Memory);
        }
        self.put(name, thing)
    }

    /// Takes in what was found in the directory by a name.
    pub(crate) fn put(&mut self, name: &str, thing: Thing) -> Result<(), LoadFault> {
        let path = match self.directory.child(self.host.memory(), name) {
            Ok(path) => path,
            Err(PathFault::Memory) => return Err(LoadFault::Memory),
            Err(PathFault::NotText) => return self.leave_out(Reason::Name),
            Err(PathFault::TooBig) => return self.leave_out(Reason::Tree(TreeFault::TooBig)),
        };
        match thing {
            Thing::Dir(look) => self.put_dir(&path, look),
            Thing::File(look) => self.put_file(&path, look),
        }
    }

    /// Makes a directory, which then waits.
    fn put_dir(&mut self, path: &Path<Global>, look: Look) -> Result<(), LoadFault> {
        if self.root_count.dir_refusal(self.limits).is_some() {
            self.free()?;
        }
        if let Some(fault) = self.root_count.dir_refusal(self.limits) {
            return self.leave_out(Reason::Tree(fault));
        }
        if let Err(fault) = self.kept.nodes.make_dir(&self.directory.root, path) {
            return self.refused(fault);
        }
        self.root_count = self.root_count.with_one(0);
        self.await_place(look)
    }

    /// Puts a version of a file, in the place of the one that stands there. Where that passes a limit, none does any more.
    fn put_file(&mut self, path: &Path<Global>, look: Look) -> Result<(), LoadFault> {
        let old = self.kept.nodes.size(&self.directory.root, path);
        if self.root_count.file_refusal(self.limits, old, look.len) == Some(TreeFault::Full) {
            self.free()?;
        }
        let old = self.kept.nodes.size(&self.directory.root, path);
        let refusal = self.root_count.file_refusal(self.limits, old, look.len);
        if let Some(len) = old {
            self.root_count = self.root_count.without_one(len);
        }
        match refusal {
            None => self.install(path, look),
            Some(fault) => self.refuse_file(path, fault),
        }
    }

    /// Looks once for what others took away below the root, at a look, and takes that up: it counts for limits no more. The walk goes on where it was.
    fn free(&mut self) -> Result<(), LoadFault> {
        if matches!(self.freeing, Freeing::Done) || !self.handling.is_look() {
            return Ok(());
        }
        let freed = freed_below(
            self.host,
            &self.kept.nodes,
            &self.kept.dirs.roots,
            &self.directory.root,
        )?;
        let top = Directory::top(self.host.memory());
        let directory = mem::replace(&mut self.directory, top);
        let place = mem::replace(&mut self.place, String::new(self.host.memory()));
        let fit = self.fit;
        let taken = self.take_freed(&freed);
        self.directory = directory;
        self.place = place;
        self.fit = fit;
        self.freeing = Freeing::Done;
        self.count();
        taken
    }

    /// Takes up what was taken away: first what is gone, the last first, so that little moves.
    fn take_freed(&mut self, freed: &Changes) -> Result<(), LoadFault> {
        for place in freed.gone.iter().rev() {
            self.cut(place.as_str())?;
        }
        for stands in &freed.not_longer {
            if let Thing::File(look) = stands.thing {
                self.shorten(stands.place.as_str(), look)?;
            }
        }
        Ok(())
    }

    /// Puts a version of a file that has fewer octets than the one that stands at its place.
    fn shorten(&mut self, place: &str, look: Look) -> Result<(), LoadFault> {
        let Some(name) = self.turn_to(place)? else {
            return Ok(());
        };
        let Ok(path) = self.directory.child(self.host.memory(), name) else {
            return Err(LoadFault::Memory);
        };
        self.install(&path, look)
    }

    /// Puts a version of a file that passes no limit.
    fn install(&mut self, path: &Path<Global>, look: Look) -> Result<(), LoadFault> {
        let number = self.kept.version.wrapping_add(1);
        let version = Version::new(number, look);
        let moment = moment_of(look.modified.seconds);
        let root = &self.directory.root;
        if let Err(fault) = self.kept.nodes.install(root, path, version, moment) {
            return self.refuse_file(path, fault);
        }
        self.kept.version = number;
        self.root_count = self.root_count.with_one(look.len);
        Ok(())
    }

    /// No file stands at a path, since it is refused.
    fn refuse_file(&mut self, path: &Path<Global>, fault: TreeFault) -> Result<(), LoadFault> {
        self.kept.nodes.cut(&self.directory.root, path);
        self.refused(fault)
    }

    /// The nodes refuse what is taken in.
    fn refused(&mut self, fault: TreeFault) -> Result<(), LoadFault> {
        match fault {
            TreeFault::Memory => Err(LoadFault::Memory),
            other => self.leave_out(Reason::Tree(other)),
        }
    }

    /// What stands at a place is no more in the tree, with all below it.
    pub(crate) fn cut(&mut self, place: &str) -> Result<(), LoadFault> {
        let Some(name) = self.turn_to(place)? else {
            return Ok(());
        };
        let Ok(path) = self.directory.child(self.host.memory(), name) else {
            return Err(LoadFault::Memory);
        };
        if self.kept.nodes.kind(&self.directory.root, &path) == Some(NodeKind::Dir) {
            self.kept.dirs.forget(place.as_bytes());
        }
        self.kept.nodes.cut(&self.directory.root, &path);
        Ok(())
    }
}
