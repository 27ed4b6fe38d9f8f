// Why a change is refused, before anything is changed.
ghost use Rattle.std.specs.Prelude.{◌≡◌, ◌+◌, length, take, true};
ghost use Rattle.std.specs.Option.{option_map};
ghost use Rattle.ftp_path.specs.Kept.{names_of};
ghost use Rattle.ftp_path.specs.Path.{fits, parent};
ghost use Rattle.ftp_tree.specs.Sound.{IsSoundTree};
ghost use Rattle.ftp_tree.specs.Text.{IsPlace};
ghost use Rattle.ftp_tree.specs.Tree.{moves_fit, node_at, octets_or_none, or_else, under};
ghost use Rattle.ftp_tree.specs.Tree.{delete_refusal, directory_refusal, install_refusal, make_refusal, nodes_refusal, onto_refusal};
ghost use Rattle.ftp_tree.specs.Tree.{place_refusal, remove_refusal, rename_refusal, room_refusal, source_refusal, target_refusal};
ghost use Rattle.ftp_tree_nodes.specs.Store.{standing_node};

use crate::holder::Holder;
use crate::node::Standing;
use crate::nodes::Nodes;
use crate::place::Joined;
use ftp_path::key::is_within;
use ftp_path::{Path, TEXT_LIMIT};
use ftp_tree::TreeFault;
use std::alloc::Allocator;

impl<A: Allocator + Copy, C: Holder> Nodes<A, C> {
    /// The first reason, memory and a device aside, why no directory can be made at a path.
    #[tactic(auto, unfolding(ftp_tree::specs::Tree::make_refusal))]
    pub fn make_refusal<B: Allocator + Copy, D: Allocator + Copy>(
        &self,
        root: &Path<B>,
        path: &Path<D>,
    ) -> Option<TreeFault>
        ensures { result ≡ make_refusal (under self.now root.now) path.now }
    {
        match self.standing(root, path) {
            Some(_) => Some(TreeFault::Exists),
            None => self.new_refusal(root, path),
        }
    }

    /// The same, why no directory can be removed.
    #[tactic(auto, unfolding(ftp_tree::specs::Tree::remove_refusal))]
    pub fn remove_refusal<B: Allocator + Copy, D: Allocator + Copy>(
        &self,
        root: &Path<B>,
        path: &Path<D>,
    ) -> Option<TreeFault>
        ensures { result ≡ remove_refusal (under self.now root.now) path.now }
    {
        if let Some(fault) = directory_refusal(self.standing(root, path)) {
            return Some(fault);
        }
        if self.nth_name(root, path, 0).is_some() {
            return Some(TreeFault::NotEmpty);
        }
        if path.key().is_empty() {
            return Some(TreeFault::Busy);
        }
        None
    }

    /// The same, why no file can be deleted.
    #[tactic(auto, unfolding(ftp_tree::specs::Tree::delete_refusal))]
    pub fn delete_refusal<B: Allocator + Copy, D: Allocator + Copy>(
        &self,
        root: &Path<B>,
        path: &Path<D>,
    ) -> Option<TreeFault>
        ensures { result ≡ delete_refusal (under self.now root.now) path.now }
    {
        match self.standing(root, path) {
            None => Some(TreeFault::Absent),
            Some(Standing::Dir) => Some(TreeFault::WrongKind),
            Some(Standing::File(..)) => None,
        }
    }

    /// The same, why what stands at a path cannot be moved to another.
    #[tactic(auto, unfolding(ftp_tree::specs::Tree::rename_refusal))]
    pub fn rename_refusal<B: Allocator + Copy, D: Allocator + Copy, E: Allocator + Copy>(
        &self,
        root: &Path<B>,
        from: &Path<D>,
        to: &Path<E>,
    ) -> Option<TreeFault>
        ensures { result ≡ rename_refusal (under self.now root.now) from.now to.now }
    {
        match self.source_refusal(root, from) {
            Some(fault) => Some(fault),
            None => self.target_refusal(root, from, to),
        }
    }

    /// The same, why no file can be moved into the place of another.
    #[tactic(auto, unfolding(ftp_tree::specs::Tree::onto_refusal, ftp_tree::specs::Tree::takes_place, ftp_tree::specs::Tree::delete_refusal))]
    pub fn onto_refusal<B: Allocator + Copy, D: Allocator + Copy, E: Allocator + Copy>(
        &self,
        root: &Path<B>,
        from: &Path<D>,
        to: &Path<E>,
    ) -> Option<TreeFault>
        // Witness: the same.
        ensures refusal { result ≡ onto_refusal (under self.now root.now) from.now to.now }
        ensures sound { IsSoundTree self.now }
    {
        // The count says of what stands in the whole tree that it is sound.
        let _all = self.count_below(root);
        if self.delete_refusal(root, from).is_none()
            && self.delete_refusal(root, to).is_none()
            && !is_within(from.key(), to.key())
        {
            return None;
        }
        Some(TreeFault::WrongKind)
    }

    /// The same, why no file of so many octets can be put at a path.
    #[tactic(auto, unfolding(ftp_tree::specs::Tree::install_refusal, ftp_tree::specs::Tree::under))]
    pub fn install_refusal<B: Allocator + Copy, D: Allocator + Copy>(
        &self,
        root: &Path<B>,
        path: &Path<D>,
        count: u64,
    ) -> Option<TreeFault>
        ensures { result ≡ install_refusal (under self.now root.now) path.now count }
    {
        if let Some(fault) = self.room_refusal(root, path) {
            return Some(fault);
        }
        if count > self.file_limit() {
            return Some(TreeFault::TooBig);
        }
        if count > self.most(root, path) {
            return Some(TreeFault::Full);
        }
        None
    }

    /// The same, why so many octets that came can't be put at a path after the first octets of the file there, `keep` of them if it has
    /// so many.
    pub fn put_refusal<B: Allocator + Copy, D: Allocator + Copy>(
        &self,
        root: &Path<B>,
        path: &Path<D>,
        keep: u64,
        came: u64,
    ) -> Option<TreeFault>
        ensures { let part = under self.now root.now in result ≡ install_refusal part path.now (length (take keep (octets_or_none part path.now)) + came) }
    {
        let kept = keep.min(self.len_at(root, path));
        // More than 64 bits can count are too many octets for a file as well.
        self.install_refusal(root, path, kept.saturating_add(came))
    }

    /// What stands at the place whose names a text joins.
    fn at(&self, key: &[u8]) -> Option<Standing<'_, C>>
        requires { IsPlace key.now }
        ensures { option_map (standing_node C.octets) result ≡ node_at self.now (names_of key.now) }
    {
        self.root.at(key)
    }

    /// What stands above a path below a root.
    fn standing_above<B: Allocator + Copy, D: Allocator + Copy>(
        &self,
        root: &Path<B>,
        path: &Path<D>,
    ) -> Option<Standing<'_, C>>
        ensures node { option_map (standing_node C.octets) result ≡ node_at (under self.now root.now) (parent path.now) }
        ensures fits { fits path.now ≡ true }
    {
        self.at(Joined::above(root, path).key())
    }

    /// Why nothing new can stand at a path: a `Path` is within its limits.
    fn new_refusal<B: Allocator + Copy, D: Allocator + Copy>(
        &self,
        root: &Path<B>,
        path: &Path<D>,
    ) -> Option<TreeFault>
        ensures { let part = under self.now root.now in result ≡ or_else (place_refusal part path.now) (nodes_refusal part) }
    {
        if let Some(fault) = directory_refusal(self.standing_above(root, path)) {
            return Some(fault);
        }
        self.nodes_refusal(root)
    }

    /// Why no node can come anew below a root.
    #[tactic(auto, unfolding(ftp_tree::specs::Tree::under))]
    fn nodes_refusal<B: Allocator + Copy>(&self, root: &Path<B>) -> Option<TreeFault>
        ensures { result ≡ nodes_refusal (under self.now root.now) }
    {
        if self.count_below(root).nodes > self.limits.nodes {
            return Some(TreeFault::Full);
        }
        None
    }

    /// The first reason, memory aside, why what stands at a path cannot be moved.
    #[tactic(auto, unfolding(ftp_tree::specs::Tree::source_refusal))]
    fn source_refusal<B: Allocator + Copy, D: Allocator + Copy>(
        &self,
        root: &Path<B>,
        path: &Path<D>,
    ) -> Option<TreeFault>
        ensures { result ≡ source_refusal (under self.now root.now) path.now }
    {
        if self.standing(root, path).is_none() {
            return Some(TreeFault::Absent);
        }
        if path.key().is_empty() {
            return Some(TreeFault::Busy);
        }
        None
    }

    /// The same, why it cannot be moved there.
    #[tactic(auto, unfolding(ftp_tree::specs::Tree::target_refusal))]
    fn target_refusal<B: Allocator + Copy, D: Allocator + Copy, E: Allocator + Copy>(
        &self,
        root: &Path<B>,
        from: &Path<D>,
        to: &Path<E>,
    ) -> Option<TreeFault>
        ensures { result ≡ target_refusal (under self.now root.now) from.now to.now }
    {
        if self.standing(root, to).is_some() {
            return Some(TreeFault::Exists);
        }
        if is_within(from.key(), to.key()) {
            return Some(TreeFault::WrongKind);
        }
        if let Some(fault) = directory_refusal(self.standing_above(root, to)) {
            return Some(fault);
        }
        if !self.moves_fit(root, from, to) {
            return Some(TreeFault::TooBig);
        }
        None
    }

    /// Whether each path that is moved is within the limits then.
    fn moves_fit<B: Allocator + Copy, D: Allocator + Copy, E: Allocator + Copy>(
        &self,
        root: &Path<B>,
        from: &Path<D>,
        to: &Path<E>,
    ) -> bool
        ensures { result ≡ moves_fit (under self.now root.now) from.now to.now }
    {
        let above = Joined::of(root, from);
        let Some(node) = self.root.find(above.key()) else {
            return true;
        };
        node.fits(TEXT_LIMIT - to.key().len())
    }

    /// The same, why no file can be put at a path.
    #[tactic(auto, unfolding(ftp_tree::specs::Tree::room_refusal))]
    pub(crate) fn room_refusal<B: Allocator + Copy, D: Allocator + Copy>(
        &self,
        root: &Path<B>,
        path: &Path<D>,
    ) -> Option<TreeFault>
        ensures { result ≡ room_refusal (under self.now root.now) path.now }
    {
        match self.standing(root, path) {
            Some(Standing::Dir) => Some(TreeFault::WrongKind),
            Some(Standing::File(..)) => None,
            None => self.new_refusal(root, path),
        }
    }
}

/// Why what stands there is no directory.
fn directory_refusal<C: Holder>(standing: Option<Standing<'_, C>>) -> Option<TreeFault>
    ensures { result ≡ directory_refusal (option_map (standing_node C.octets) standing.entry) }
{
    match standing {
        None => Some(TreeFault::Absent),
        Some(Standing::Dir) => None,
        Some(Standing::File(..)) => Some(TreeFault::WrongKind),
    }
}
