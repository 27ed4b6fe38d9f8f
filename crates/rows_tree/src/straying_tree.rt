// A tree in memory whose device strays.
ghost use Rattle.std.specs.Prelude.{◌≡◌, ◌+◌};
ghost use Rattle.ftp_tree.specs.Change.{never_strayed};

use crate::failing_tree::FailingTree;
use crate::stray::{Due, Stray, StrayChange};
use ftp_facts::Moment;
use ftp_path::{Name, Path};
use ftp_tree::{Broken, DirEntries, NodeKind, Sight, Tree, TreeFault};
use ftp_tree_memory::{Content, MemTree};
use std::alloc::{AllocError, Allocator};

/// A tree in memory, as one on a device that strays once at a look, at a read and at a put, each at the call of its kind that it is told. It may
/// fail as a `FailingTree` does.
#[derive(Drop)]
pub struct StrayingTree<A: Allocator + Copy> {
    tree: FailingTree<A>,
    found: Due<StrayChange<A>>,
    given: Due<u8>,
    kept: Due<Content<A>>,
}

impl<A: Allocator + Copy> StrayingTree<A> {
    /// This tree, which strays at no call so far.
    pub fn new(tree: FailingTree<A>) -> StrayingTree<A>
        ensures { result.tree ≡ tree }
    {
        StrayingTree {
            tree,
            found: Due::never(),
            given: Due::never(),
            kept: Due::never(),
        }
    }

    /// It strays so at the look, the read or the put of that number, counted from 1 from here on.
    pub fn strays_at(&mut self, left: u64, stray: Stray<A>)
        // Witness: the tree stays; at which call the device strays, and how, is tested.
        ensures { self.new.tree ≡ self.old.tree }
    {
        match stray {
            Stray::Found(change) => self.found.set(left, change),
            Stray::Given(octet) => self.given.set(left, octet),
            Stray::Kept(content) => self.kept.set(left, content),
        }
    }

    /// Its device fails at the call of that number, as that of a `FailingTree`.
    pub fn fails_at(&mut self, left: u64)
        // Witness: the tree and the count stay.
        ensures tree { self.new.tree.tree ≡ self.old.tree.tree }
        ensures failures { self.new.tree.failures ≡ self.old.tree.failures }
    {
        self.tree.fails_at(left);
    }

    /// The tree.
    pub fn memory(&self) -> &MemTree<A>
        ensures { result.now ≡ self.now.tree.tree }
    {
        self.tree.memory()
    }

    /// How often its device strayed, or the last number of 64 bits.
    pub fn strays(&self) -> u64 {
        self.found
            .times
            .saturating_add(self.given.times)
            .saturating_add(self.kept.times)
    }
}

impl<A: Allocator + Copy> Tree<A> for StrayingTree<A> {
    type Open = Content<A>;

    type Draft = Content<A>;

    ghost table = { λ it. it.tree.tree };

    ghost failures = { λ it. record (never_strayed it.tree.failures) { strays = it.found.times + it.given.times + it.kept.times } };

    ghost opened = { λ file. file };

    fn look<B: Allocator + Copy, C: Allocator + Copy>(
        &mut self,
        root: &Path<B>,
        path: &Path<C>,
        sight: Sight,
    ) -> Result<bool, Broken> {
        let Some(change) = self.found.counted() else {
            return self.tree.look(root, path, sight);
        };
        let kind = self.kind(root, path);
        let size = self.size(root, path);
        let stamp = self.stamp(root, path);
        let _ = change.apply(root, &mut self.tree.tree);
        let _ = self.tree.look(root, path, sight)?;
        let is_alike = self.kind(root, path) == kind && self.size(root, path) == size;
        Ok(!is_alike || self.stamp(root, path) != stamp)
    }

    fn look_since<B: Allocator + Copy, C: Allocator + Copy>(
        &mut self,
        root: &Path<B>,
        path: &Path<C>,
        _draft: &Content<A>,
    ) -> Result<bool, Broken> {
        self.look(root, path, Sight::Path)
    }

    fn kind<B: Allocator + Copy, C: Allocator + Copy>(
        &self,
        root: &Path<B>,
        path: &Path<C>,
    ) -> Option<NodeKind> {
        self.tree.kind(root, path)
    }

    fn size<B: Allocator + Copy, C: Allocator + Copy>(
        &self,
        root: &Path<B>,
        path: &Path<C>,
    ) -> Option<u64> {
        self.tree.size(root, path)
    }

    fn stamp<B: Allocator + Copy, C: Allocator + Copy>(
        &self,
        root: &Path<B>,
        path: &Path<C>,
    ) -> Option<Moment> {
        self.tree.stamp(root, path)
    }

    fn open<B: Allocator + Copy, C: Allocator + Copy>(
        &mut self,
        root: &Path<B>,
        path: &Path<C>,
    ) -> Result<Content<A>, TreeFault> {
        self.tree.open(root, path)
    }

    fn open_len(file: &Content<A>) -> u64 {
        file.len()
    }

    fn read(&mut self, file: &mut Content<A>, at: u64, room: &mut [u8]) -> Result<usize, Broken> {
        let count = self.tree.read(file, at, room)?;
        if let Some(octet) = self.given.counted() {
            room[..count].fill(octet);
        }
        Ok(count)
    }

    fn nth_name<B: Allocator + Copy, C: Allocator + Copy>(
        &self,
        root: &Path<B>,
        path: &Path<C>,
        place: usize,
    ) -> Option<Name<'_>> {
        self.tree.nth_name(root, path, place)
    }

    fn entries<B: Allocator + Copy, C: Allocator + Copy>(
        &self,
        root: &Path<B>,
        path: &Path<C>,
    ) -> Result<DirEntries<A>, AllocError> {
        self.tree.entries(root, path)
    }

    fn room<B: Allocator + Copy, C: Allocator + Copy>(
        &self,
        root: &Path<B>,
        path: &Path<C>,
    ) -> Result<u64, TreeFault> {
        self.tree.room(root, path)
    }

    fn most<B: Allocator + Copy, C: Allocator + Copy>(
        &self,
        root: &Path<B>,
        path: &Path<C>,
    ) -> u64 {
        self.tree.most(root, path)
    }

    fn device_failures(&self) -> u64 {
        self.tree.device_failures()
    }

    fn fits<B: Allocator + Copy>(&self, root: &Path<B>) -> bool {
        self.tree.fits(root)
    }

    fn make_dir<B: Allocator + Copy, C: Allocator + Copy>(
        &mut self,
        root: &Path<B>,
        path: &Path<C>,
    ) -> Result<(), TreeFault> {
        self.tree.make_dir(root, path)
    }

    fn remove_dir<B: Allocator + Copy, C: Allocator + Copy>(
        &mut self,
        root: &Path<B>,
        path: &Path<C>,
    ) -> Result<(), TreeFault> {
        self.tree.remove_dir(root, path)
    }

    fn delete<B: Allocator + Copy, C: Allocator + Copy>(
        &mut self,
        root: &Path<B>,
        path: &Path<C>,
    ) -> Result<(), TreeFault> {
        self.tree.delete(root, path)
    }

    fn rename<B: Allocator + Copy, C: Allocator + Copy, D: Allocator + Copy>(
        &mut self,
        root: &Path<B>,
        from: &Path<C>,
        to: &Path<D>,
    ) -> Result<(), TreeFault> {
        self.tree.rename(root, from, to)
    }

    fn rename_onto<B: Allocator + Copy, C: Allocator + Copy, D: Allocator + Copy>(
        &mut self,
        root: &Path<B>,
        from: &Path<C>,
        to: &Path<D>,
    ) -> Result<(), TreeFault> {
        self.tree.rename_onto(root, from, to)
    }

    fn begin<B: Allocator + Copy, C: Allocator + Copy>(
        &mut self,
        root: &Path<B>,
        path: &Path<C>,
        keep: u64,
    ) -> Result<Content<A>, TreeFault> {
        self.tree.begin(root, path, keep)
    }

    fn put<B: Allocator + Copy, C: Allocator + Copy>(
        &mut self,
        root: &Path<B>,
        path: &Path<C>,
        keep: u64,
        came: Content<A>,
        moment: Moment,
    ) -> Result<(), TreeFault> {
        let Some(other) = self.kept.counted() else {
            return self.tree.put(root, path, keep, came, moment);
        };
        self.tree.put(root, path, keep, other, moment)
    }
}
