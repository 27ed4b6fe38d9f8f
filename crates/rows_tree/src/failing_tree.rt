// A tree in memory whose device fails.
ghost use Rattle.std.specs.Prelude.{◌≡◌, false, true};
ghost use Rattle.ftp_tree.specs.Change.{never_strayed, next_count};

use ftp_facts::Moment;
use ftp_path::{Name, Path};
use ftp_tree::{Broken, DirEntries, NodeKind, Sight, SureTree, Tree, TreeFault};
use ftp_tree_memory::{Content, MemTree};
use std::alloc::{AllocError, Allocator};

/// A tree in memory, as one on a device that never strays: it fails once, at the call whose number it is given among those that a device may fail, a
/// look among them, of which a put that keeps octets is none.
#[derive(Drop)]
pub struct FailingTree<A: Allocator + Copy> {
    pub(crate) tree: MemTree<A>,
    /// How many calls are still counted until it fails; none at 0.
    left: u64,
    failures: u64,
}

impl<A: Allocator + Copy> FailingTree<A> {
    /// This tree. It fails at the call of that number, counted from 1, or at none for 0. The count of its failures starts at
    /// `u64::MAX`, so that it wraps.
    pub fn new(tree: MemTree<A>, fails_at: u64) -> FailingTree<A>
        ensures { result.tree ≡ tree }
    {
        FailingTree {
            tree,
            left: fails_at,
            failures: u64::MAX,
        }
    }

    /// It fails at the call of that number, counted from 1 from here on, or at none for 0.
    pub fn fails_at(&mut self, left: u64)
        // Witness: the tree and the count stay; at which call the device fails is tested.
        ensures tree { self.new.tree ≡ self.old.tree }
        ensures failures { self.new.failures ≡ self.old.failures }
    {
        self.left = left;
    }

    /// The tree.
    pub fn memory(&self) -> &MemTree<A>
        ensures { result.now ≡ self.now.tree }
    {
        &self.tree
    }

    /// Counts a call; whether the device fails at it, which is counted too.
    fn fails(&mut self) -> bool
        ensures tree { self.new.tree ≡ self.old.tree }
        ensures steady { result ≡ false → self.new.failures ≡ self.old.failures }
        ensures failed { result ≡ true → self.new.failures ≡ next_count self.old.failures }
    {
        let fails = self.left == 1;
        self.left = self.left.saturating_sub(1);
        if fails {
            self.failures = self.failures.wrapping_add(1);
        }
        fails
    }
}

impl<A: Allocator + Copy> Tree<A> for FailingTree<A> {
    type Open = Content<A>;

    type Draft = Content<A>;

    ghost table = { λ it. it.tree };

    ghost failures = { λ it. never_strayed it.failures };

    ghost opened = { λ file. file };

    fn look<B: Allocator + Copy, C: Allocator + Copy>(
        &mut self,
        _root: &Path<B>,
        _path: &Path<C>,
        _sight: Sight,
    ) -> Result<bool, Broken> {
        if self.fails() {
            return Err(Broken);
        }
        Ok(false)
    }

    fn look_since<B: Allocator + Copy, C: Allocator + Copy>(
        &mut self,
        root: &Path<B>,
        path: &Path<C>,
        _draft: &Content<A>,
    ) -> Result<bool, Broken> {
        self.look(root, path, Sight::Path)
    }

    fn kind<B: Allocator + Copy, C: Allocator + Copy>(
        &self,
        root: &Path<B>,
        path: &Path<C>,
    ) -> Option<NodeKind> {
        self.tree.kind(root, path)
    }

    fn size<B: Allocator + Copy, C: Allocator + Copy>(
        &self,
        root: &Path<B>,
        path: &Path<C>,
    ) -> Option<u64> {
        self.tree.size(root, path)
    }

    fn stamp<B: Allocator + Copy, C: Allocator + Copy>(
        &self,
        root: &Path<B>,
        path: &Path<C>,
    ) -> Option<Moment> {
        self.tree.stamp(root, path)
    }

    fn open<B: Allocator + Copy, C: Allocator + Copy>(
        &mut self,
        root: &Path<B>,
        path: &Path<C>,
    ) -> Result<Content<A>, TreeFault> {
        let file = self.tree.open(root, path)?;
        if self.fails() {
            return Err(TreeFault::Device);
        }
        Ok(file)
    }

    fn open_len(file: &Content<A>) -> u64 {
        file.len()
    }

    fn read(&mut self, file: &mut Content<A>, at: u64, room: &mut [u8]) -> Result<usize, Broken> {
        if self.fails() {
            return Err(Broken);
        }
        self.tree.read(file, at, room)
    }

    fn nth_name<B: Allocator + Copy, C: Allocator + Copy>(
        &self,
        root: &Path<B>,
        path: &Path<C>,
        place: usize,
    ) -> Option<Name<'_>> {
        self.tree.nth_name(root, path, place)
    }

    fn entries<B: Allocator + Copy, C: Allocator + Copy>(
        &self,
        root: &Path<B>,
        path: &Path<C>,
    ) -> Result<DirEntries<A>, AllocError> {
        self.tree.entries(root, path)
    }

    fn room<B: Allocator + Copy, C: Allocator + Copy>(
        &self,
        root: &Path<B>,
        path: &Path<C>,
    ) -> Result<u64, TreeFault> {
        self.tree.room(root, path)
    }

    fn most<B: Allocator + Copy, C: Allocator + Copy>(
        &self,
        root: &Path<B>,
        path: &Path<C>,
    ) -> u64 {
        self.tree.most(root, path)
    }

    fn device_failures(&self) -> u64 {
        self.failures
    }

    fn fits<B: Allocator + Copy>(&self, root: &Path<B>) -> bool {
        self.tree.fits(root)
    }

    fn make_dir<B: Allocator + Copy, C: Allocator + Copy>(
        &mut self,
        root: &Path<B>,
        path: &Path<C>,
    ) -> Result<(), TreeFault> {
        if let Some(fault) = self.tree.make_refusal(root, path) {
            return Err(fault);
        }
        if self.fails() {
            return Err(TreeFault::Device);
        }
        self.tree.make_dir(root, path)
    }

    fn remove_dir<B: Allocator + Copy, C: Allocator + Copy>(
        &mut self,
        root: &Path<B>,
        path: &Path<C>,
    ) -> Result<(), TreeFault> {
        if let Some(fault) = self.tree.remove_refusal(root, path) {
            return Err(fault);
        }
        if self.fails() {
            return Err(TreeFault::Device);
        }
        self.tree.remove_dir(root, path)
    }

    fn delete<B: Allocator + Copy, C: Allocator + Copy>(
        &mut self,
        root: &Path<B>,
        path: &Path<C>,
    ) -> Result<(), TreeFault> {
        if let Some(fault) = self.tree.delete_refusal(root, path) {
            return Err(fault);
        }
        if self.fails() {
            return Err(TreeFault::Device);
        }
        self.tree.delete(root, path)
    }

    fn rename<B: Allocator + Copy, C: Allocator + Copy, D: Allocator + Copy>(
        &mut self,
        root: &Path<B>,
        from: &Path<C>,
        to: &Path<D>,
    ) -> Result<(), TreeFault> {
        if let Some(fault) = self.tree.rename_refusal(root, from, to) {
            return Err(fault);
        }
        if self.fails() {
            return Err(TreeFault::Device);
        }
        self.tree.rename(root, from, to)
    }

    fn rename_onto<B: Allocator + Copy, C: Allocator + Copy, D: Allocator + Copy>(
        &mut self,
        root: &Path<B>,
        from: &Path<C>,
        to: &Path<D>,
    ) -> Result<(), TreeFault> {
        if let Some(fault) = self.tree.onto_refusal(root, from, to) {
            return Err(fault);
        }
        if self.fails() {
            return Err(TreeFault::Device);
        }
        self.tree.rename_onto(root, from, to)
    }

    fn begin<B: Allocator + Copy, C: Allocator + Copy>(
        &mut self,
        root: &Path<B>,
        path: &Path<C>,
        keep: u64,
    ) -> Result<Content<A>, TreeFault> {
        if self.fails() {
            return Err(TreeFault::Device);
        }
        self.tree.begin(root, path, keep)
    }

    fn put<B: Allocator + Copy, C: Allocator + Copy>(
        &mut self,
        root: &Path<B>,
        path: &Path<C>,
        keep: u64,
        came: Content<A>,
        moment: Moment,
    ) -> Result<(), TreeFault> {
        if keep > 0 {
            return self.tree.put(root, path, keep, came, moment);
        }
        if let Some(fault) = self.tree.install_refusal(root, path, came.len()) {
            return Err(fault);
        }
        if self.fails() {
            return Err(TreeFault::Device);
        }
        self.tree.put(root, path, keep, came, moment)
    }
}

impl<A: Allocator + Copy> SureTree<A> for FailingTree<A> {
    ghost use Rattle.std.specs.Prelude.{refl};

    ghost never = { λ tree. refl };
}
