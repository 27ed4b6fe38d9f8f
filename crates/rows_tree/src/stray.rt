// How a device strays: what others did to its files, and what it gives and keeps in the place of what it should.
ghost use Rattle.std.specs.Prelude.{◌≡◌, ◌+◌, MatchOption};

use ftp_facts::Moment;
use ftp_path::Path;
use ftp_tree::{NodeKind, Tree, TreeFault};
use ftp_tree_memory::{Content, MemTree};
use std::alloc::Allocator;

/// What others did to a tree's files, of which nobody was told.
#[derive(Drop)]
pub enum StrayChange<A: Allocator + Copy> {
    /// They wrote a file of these octets, in the place of one that stood there.
    Written(Path<A>, Content<A>, Moment),
    /// They removed a file, or an empty directory.
    Removed(Path<A>),
    /// They made a directory.
    Made(Path<A>),
}

impl<A: Allocator + Copy> StrayChange<A> {
    /// Does it to a tree below a root, where the tree takes it.
    pub(crate) fn apply<B: Allocator + Copy>(
        self,
        root: &Path<B>,
        tree: &mut MemTree<A>,
    ) -> Result<(), TreeFault> {
        match self {
            StrayChange::Written(path, content, moment) => tree.put(
                root, &path, 0, content, moment,
            ),
            StrayChange::Removed(path) => match tree.kind(root, &path) {
                Some(NodeKind::Dir) => tree.remove_dir(root, &path),
                Some(NodeKind::File) | None => tree.delete(root, &path),
            },
            StrayChange::Made(path) => tree.make_dir(root, &path),
        }
    }
}

/// What a device does as it strays: at a look, at a read or at a put.
#[derive(Drop)]
pub enum Stray<A: Allocator + Copy> {
    /// A look finds what others did.
    Found(StrayChange<A>),
    /// A read gives this octet in the place of each that it reads.
    Given(u8),
    /// A put keeps these octets in the place of those that came.
    Kept(Content<A>),
}

/// What is due at one call of a kind.
#[derive(Drop)]
pub(crate) struct Due<X: Drop> {
    /// How many calls are still counted until then; none at 0.
    left: u64,
    what: Option<X>,
    /// How often something was due; past the last number of 64 bits nothing is.
    pub(crate) times: u64,
}

impl<X: Drop> Due<X> {
    /// Nothing is due.
    pub(crate) fn never() -> Due<X> {
        Due {
            left: 0,
            what: None,
            times: 0,
        }
    }

    /// This is due at the call of that number, counted from 1 from here on.
    pub(crate) fn set(&mut self, left: u64, what: X)
        ensures { self.new.times ≡ self.old.times }
    {
        self.left = left;
        self.what = Some(what);
    }

    /// Counts a call: what is due at it.
    pub(crate) fn counted(&mut self) -> Option<X>
        ensures { MatchOption result (self.new.times ≡ self.old.times) (λ what. self.new.times ≡ self.old.times + 1) }
    {
        let is_now = self.left == 1;
        self.left = self.left.saturating_sub(1);
        if !is_now {
            return None;
        }
        let Some(times) = self.times.checked_add(1) else {
            return None;
        };
        let Some(what) = self.what.take() else {
            return None;
        };
        self.times = times;
        Some(what)
    }
}
