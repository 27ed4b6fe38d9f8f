// What refuses a change of a tree in memory, and each change alone, as its nodes say.
ghost use Rattle.std.specs.Prelude.{◌≡◌, ◌<◌, ◌+◌, ◌^◌, ◌++◌, ◌⊎◌, ◌↔◌, [], None, Some, IsTrue, OnErr, OnOk, length, take, true};
ghost use Rattle.std.specs.FinMap as fin;
ghost use Rattle.ftp_path.specs.Path.{parent};
ghost use Rattle.ftp_tree.specs.Map.{Dir};
ghost use Rattle.ftp_tree.specs.Sound.{IsSoundTree};
ghost use Rattle.ftp_tree.specs.Tree.{freed, installed, made, moved, node_at, octets_in, octets_or_none, removed, under, with_part};
ghost use Rattle.ftp_tree.specs.Tree.{delete_refusal, install_refusal, make_refusal, onto_refusal, remove_refusal, rename_refusal};

use crate::trees::content::Content;
use crate::trees::memory::MemTree;
use ftp_facts::Moment;
use ftp_path::Path;
use ftp_tree::TreeFault;
use std::alloc::{AllocError, Allocator};

impl<A: Allocator + Copy> MemTree<A> {
    /// The first reason, memory and a device aside, why no directory can be made at a path.
    pub fn make_refusal<B: Allocator + Copy, C: Allocator + Copy>(
        &self,
        root: &Path<B>,
        path: &Path<C>,
    ) -> Option<TreeFault>
        ensures { result ≡ make_refusal (under self.now root.now) path.now }
    {
        self.nodes.make_refusal(root, path)
    }

    /// The same, why no directory can be removed.
    pub fn remove_refusal<B: Allocator + Copy, C: Allocator + Copy>(
        &self,
        root: &Path<B>,
        path: &Path<C>,
    ) -> Option<TreeFault>
        ensures { result ≡ remove_refusal (under self.now root.now) path.now }
    {
        self.nodes.remove_refusal(root, path)
    }

    /// The same, why no file can be deleted.
    pub fn delete_refusal<B: Allocator + Copy, C: Allocator + Copy>(
        &self,
        root: &Path<B>,
        path: &Path<C>,
    ) -> Option<TreeFault>
        ensures { result ≡ delete_refusal (under self.now root.now) path.now }
    {
        self.nodes.delete_refusal(root, path)
    }

    /// The same, why what stands at a path cannot be moved to another.
    pub fn rename_refusal<B: Allocator + Copy, C: Allocator + Copy, D: Allocator + Copy>(
        &self,
        root: &Path<B>,
        from: &Path<C>,
        to: &Path<D>,
    ) -> Option<TreeFault>
        ensures { result ≡ rename_refusal (under self.now root.now) from.now to.now }
    {
        self.nodes.rename_refusal(root, from, to)
    }

    /// The same, why no file can be moved into the place of another.
    pub fn onto_refusal<B: Allocator + Copy, C: Allocator + Copy, D: Allocator + Copy>(
        &self,
        root: &Path<B>,
        from: &Path<C>,
        to: &Path<D>,
    ) -> Option<TreeFault>
        // Witness: an equation; as of `fits` of `ftp_tree`.
        ensures refusal { result ≡ onto_refusal (under self.now root.now) from.now to.now }
        ensures sound { IsSoundTree self.now }
    {
        self.nodes.onto_refusal(root, from, to)
    }

    /// The same, why no file of so many octets can be put at a path.
    pub fn install_refusal<B: Allocator + Copy, C: Allocator + Copy>(
        &self,
        root: &Path<B>,
        path: &Path<C>,
        count: u64,
    ) -> Option<TreeFault>
        ensures { result ≡ install_refusal (under self.now root.now) path.now count }
    {
        self.nodes.install_refusal(root, path, count)
    }

    /// The same, why those that came can't be put at a path after the first octets of the file there, `keep` of them if it has
    /// so many.
    pub(crate) fn put_refusal<B: Allocator + Copy, C: Allocator + Copy>(
        &self,
        root: &Path<B>,
        path: &Path<C>,
        keep: u64,
        came: &Content<A>,
    ) -> Option<TreeFault>
        ensures { let part = under self.now root.now in result ≡ install_refusal part path.now (length (take keep (octets_or_none part path.now) ++ came.now)) }
    {
        self.nodes.put_refusal(root, path, keep, came.len())
    }

    /// Whether the counts of all nodes and of all octets can count one file more, of so many octets.
    pub fn can_count(&self, octets: u64) -> bool
        // Witness: an equivalence.
        ensures { IsTrue result ↔ (fin.len self.now.map + 1 < 2 ^ 64) × (octets_in self.now + octets < 2 ^ 128) }
    {
        self.nodes.can_count(octets)
    }

    /// Puts an empty directory where nothing stands, in a directory: one that is made, or the place of what is to come.
    pub(crate) fn make_place<B: Allocator + Copy, C: Allocator + Copy>(
        &mut self,
        root: &Path<B>,
        path: &Path<C>,
    ) -> Result<(), AllocError>
        requires absent { node_at (under self.old root.now) path.now ≡ None }
        requires above { node_at (under self.old root.now) (parent path.now) ≡ Some Dir }
        ensures ok { OnOk result (self.new ≡ with_part self.old root.now (made (under self.old root.now) path.now)) }
        ensures loose { OnOk result (remove_refusal (under self.new root.now) path.now ≡ None) }
        ensures err { OnErr result (self.new ≡ self.old) }
    {
        self.nodes.make_place(root, path)
    }

    /// Puts a file in the place of a file or of an empty directory. Its octets are taken out of the content. Takes no memory.
    pub(crate) fn put_over<B: Allocator + Copy, C: Allocator + Copy>(
        &mut self,
        root: &Path<B>,
        path: &Path<C>,
        content: &mut Content<A>,
        moment: Moment,
    )
        requires loose { let part = under self.old root.now in (delete_refusal part path.now ≡ None) ⊎ (remove_refusal part path.now ≡ None) }
        requires nodes { fin.len self.old.map + 1 < 2 ^ 64 }
        requires octets { octets_in self.old + length content.old < 2 ^ 128 }
        ensures file { self.new ≡ with_part self.old root.now (installed (under self.old root.now) path.now content.old moment.seconds) }
        ensures taken { content.new ≡ [] }
    {
        let octets = content.take(self.alloc);
        self.nodes.put_over(root, path, octets, moment);
    }

    /// Takes away what stands at a path, where no refusal applies to a file or to a directory there. Takes no memory.
    pub(crate) fn take_away<B: Allocator + Copy, C: Allocator + Copy>(
        &mut self,
        root: &Path<B>,
        path: &Path<C>,
    )
        requires { let part = under self.old root.now in (delete_refusal part path.now ≡ None) ⊎ (remove_refusal part path.now ≡ None) }
        ensures { self.new ≡ with_part self.old root.now (removed (under self.old root.now) path.now) }
    {
        self.nodes.take_away(root, path);
    }

    /// Moves what stands at a path into the place of a file or of an empty directory, where no refusal applies without that. Takes no memory.
    pub(crate) fn move_over<B: Allocator + Copy, C: Allocator + Copy, D: Allocator + Copy>(
        &mut self,
        root: &Path<B>,
        from: &Path<C>,
        to: &Path<D>,
    )
        requires loose { let part = under self.old root.now in (delete_refusal part to.now ≡ None) ⊎ (remove_refusal part to.now ≡ None) }
        requires free { rename_refusal (removed (under self.old root.now) to.now) from.now to.now ≡ None }
        ensures { self.new ≡ with_part self.old root.now (moved (removed (under self.old root.now) to.now) from.now to.now) }
    {
        self.nodes.move_over(root, from, to);
    }

    /// Moves a file into the place of another, where no refusal applies. Takes no memory.
    pub(crate) fn move_onto<B: Allocator + Copy, C: Allocator + Copy, D: Allocator + Copy>(
        &mut self,
        root: &Path<B>,
        from: &Path<C>,
        to: &Path<D>,
    )
        requires { onto_refusal (under self.old root.now) from.now to.now ≡ None }
        ensures { let part = under self.old root.now in self.new ≡ with_part self.old root.now (moved (freed true part from.now to.now) from.now to.now) }
    {
        self.nodes.move_onto(root, from, to);
    }
}
