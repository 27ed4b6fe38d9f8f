// A folder in memory that fails.
ghost use Rattle.std.specs.Prelude.{◌≡◌, IfOk, OnErr, OnOk, Some};
ghost use Rattle.ftp_tree.specs.Change.{next_count};
ghost use Rattle.ftp_tree_memory.specs.trees.Folder.{HasFailed, IsKept, changed_below};
ghost use Rattle.ftp_tree.specs.Tree.{installed, root_alone};

use ftp_facts::Moment;
use ftp_path::Path;
use ftp_tree::Tree;
use ftp_tree_memory::{Content, Folder, FolderFault, HeldTree, MemTree};
use std::alloc::{AllocError, Allocator};

/// A folder that is kept in memory. It fails once, at the call whose number it is given, and where its tree refuses.
#[derive(Drop)]
pub struct FailingFolder<A: Allocator + Copy> {
    tree: MemTree<A>,
    alloc: A,
    /// How many calls are still counted until it fails; none at 0.
    left: u64,
    failures: u64,
}

impl<A: Allocator + Copy> FailingFolder<A> {
    /// The root alone. It fails at the call of that number, counted from 1, or at none for 0. The count of its failures
    /// starts at `u64::MAX`, so that it wraps. Takes no memory.
    pub fn new(alloc: A, fails_at: u64) -> FailingFolder<A>
        // Witness: an equation; at which call the folder fails is tested.
        ensures { result.tree ≡ root_alone }
    {
        FailingFolder {
            tree: MemTree::new(alloc),
            alloc,
            left: fails_at,
            failures: u64::MAX,
        }
    }

    /// Counts a call; whether the folder fails at it.
    fn fails(&mut self) -> bool
        ensures tree { self.new.tree ≡ self.old.tree }
        ensures failures { self.new.failures ≡ self.old.failures }
    {
        let fails = self.left == 1;
        self.left = self.left.saturating_sub(1);
        fails
    }

    /// Counts a failure.
    fn failed(&mut self) -> FolderFault
        ensures tree { self.new.tree ≡ self.old.tree }
        ensures failures { self.new.failures ≡ next_count self.old.failures }
    {
        self.failures = next(self.failures);
        FolderFault
    }

    /// Writes a file, in the place of one that stands there.
    fn written<E: Allocator + Copy, B: Allocator + Copy, C: Allocator + Copy>(
        &mut self,
        root: &Path<B>,
        path: &Path<C>,
        content: &Content<E>,
        moment: Moment,
    ) -> Result<(), FolderFault>
        ensures done { OnOk result (IsKept (changed_below root.now (λ part. installed part path.now content.now moment.seconds)) (Some self.old.tree) (Some self.new.tree) self.old.failures self.new.failures) }
        ensures failed { OnErr result (HasFailed (Some self.old.tree) (Some self.new.tree) self.old.failures self.new.failures) }
    {
        let Ok(mut copy) = copy_of(self.alloc, content) else {
            return Err(self.failed());
        };
        match self.tree.install(root, path, &mut copy, moment) {
            Ok(()) => Ok(()),
            Err(_) => Err(self.failed()),
        }
    }
}

/// The count behind a failure.
fn next(count: u64) -> u64
    ensures { result ≡ next_count count }
{
    if count == u64::MAX { 0 } else { count + 1 }
}

impl<A: Allocator + Copy> Folder for FailingFolder<A> {
    ghost kept = { λ folder. Some folder.tree };

    ghost failures = { λ folder. folder.failures };

    fn failures(&self) -> u64 {
        self.failures
    }

    fn make_dir<B: Allocator + Copy, C: Allocator + Copy>(
        &mut self,
        root: &Path<B>,
        path: &Path<C>,
    ) -> Result<(), FolderFault> {
        if self.fails() {
            return Err(self.failed());
        }
        match self.tree.make_dir(root, path) {
            Ok(()) => Ok(()),
            Err(_) => Err(self.failed()),
        }
    }

    fn remove_dir<B: Allocator + Copy, C: Allocator + Copy>(
        &mut self,
        root: &Path<B>,
        path: &Path<C>,
    ) -> Result<(), FolderFault> {
        if self.fails() {
            return Err(self.failed());
        }
        match self.tree.remove_dir(root, path) {
            Ok(()) => Ok(()),
            Err(_) => Err(self.failed()),
        }
    }

    fn delete<B: Allocator + Copy, C: Allocator + Copy>(
        &mut self,
        root: &Path<B>,
        path: &Path<C>,
    ) -> Result<(), FolderFault> {
        if self.fails() {
            return Err(self.failed());
        }
        match self.tree.delete(root, path) {
            Ok(()) => Ok(()),
            Err(_) => Err(self.failed()),
        }
    }

    fn rename<B: Allocator + Copy, C: Allocator + Copy, D: Allocator + Copy>(
        &mut self,
        root: &Path<B>,
        from: &Path<C>,
        to: &Path<D>,
    ) -> Result<(), FolderFault> {
        if self.fails() {
            return Err(self.failed());
        }
        match self.tree.rename(root, from, to) {
            Ok(()) => Ok(()),
            Err(_) => Err(self.failed()),
        }
    }

    fn rename_onto<B: Allocator + Copy, C: Allocator + Copy, D: Allocator + Copy>(
        &mut self,
        root: &Path<B>,
        from: &Path<C>,
        to: &Path<D>,
    ) -> Result<(), FolderFault> {
        if self.fails() {
            return Err(self.failed());
        }
        match self.tree.rename_onto(root, from, to) {
            Ok(()) => Ok(()),
            Err(_) => Err(self.failed()),
        }
    }

    fn write<E: Allocator + Copy, B: Allocator + Copy, C: Allocator + Copy>(
        &mut self,
        root: &Path<B>,
        path: &Path<C>,
        content: &Content<E>,
        moment: Moment,
    ) -> Result<(), FolderFault> {
        if self.fails() {
            return Err(self.failed());
        }
        self.written(root, path, content, moment)
    }

    fn write_new<E: Allocator + Copy, B: Allocator + Copy, C: Allocator + Copy>(
        &mut self,
        root: &Path<B>,
        path: &Path<C>,
        content: &Content<E>,
        moment: Moment,
    ) -> Result<(), FolderFault> {
        if self.fails() {
            return Err(self.failed());
        }
        if self.tree.kind(root, path).is_some() {
            return Err(self.failed());
        }
        self.written(root, path, content, moment)
    }
}

/// The octets of a content once more.
fn copy_of<A: Allocator + Copy, B: Allocator + Copy>(
    alloc: A,
    content: &Content<B>,
) -> Result<Content<A>, AllocError>
    ensures { IfOk result (λ copy. copy ≡ content.now) }
{
    let mut copy = Content::new(alloc);
    while copy.len() < content.len() {
        let piece = content.piece(copy.len(), usize::MAX);
        let Ok(_) = copy.push(piece) else {
            return Err(AllocError);
        };
    }
    Ok(copy)
}
