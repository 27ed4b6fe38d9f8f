// The finite map of a tree, as nodes from its root on, and what it answers.
ghost use Rattle.std.specs.Prelude.{◌≡◌, None, Some, IfErr, IfOk, OnOk, length, nat_le};
ghost use Rattle.std.specs.FinMap as fin;
ghost use Rattle.std.specs.List.{slice_get};
ghost use Rattle.std.specs.Option.{option_map};
ghost use Rattle.ftp_tree.specs.Rows.{whole};
ghost use Rattle.ftp_tree.specs.Sound.{IsSoundTree};
ghost use Rattle.ftp_tree.specs.Tree.{children, entries_at, file_limit, file_refusal, kind_at, node_at, octets_in};
ghost use Rattle.ftp_tree.specs.Tree.{octets_or_none, room_at, room_refusal, root_within, size_at, stamp_at, total_limit, under};
ghost use Rattle.ftp_tree_nodes.specs.Store.{standing_node};

use crate::holder::Holder;
use crate::node::{Count, Node, Standing};
use crate::place::Joined;
use ftp_facts::Moment;
use ftp_path::{Name, Path};
use ftp_tree::{DirEntries, Limits, NodeKind, TreeFault};
use std::alloc::{AllocError, Allocator};
use std::marker::Model;

/// The most octets that any limit lets a file have, or all files together (own choice).
const MOST_OCTETS: u64 = 100_000_000_000_000_000;

/// The finite map of a tree (RFC 959, section 4.1.3), whose files hold their octets in any way. A path is one below a root, as it is of
/// a `Tree`. What refuses a change is asked first; a change is told where nothing refuses it.
pub struct Nodes<A: Allocator + Copy, C: Holder> {
    pub(crate) root: Node<A, C>,
    pub(crate) limits: Limits,
    pub(crate) alloc: A,
}

/// By hand: a derived drop is made anew in each crate that lets a tree go, and with it all that is generic over trees.
impl<A: Allocator + Copy, C: Holder> Drop for Nodes<A, C> {
    fn drop(self) {
        let Self {
            root: _,
            limits: _,
            alloc: _,
        } = self;
    }
}

impl<A: Allocator + Copy, C: Holder> Model for Nodes<A, C> {
    ghost use Rattle.ftp_tree.specs.Tree.{Table};
    ghost use Rattle.ftp_tree.specs.Rows.{table_code};

    ghost Value = { Table };

    ghost coded = { table_code };

    ghost use Rattle.ftp_tree.specs.Sound.{IsSoundTree};
    ghost use Rattle.ftp_tree.specs.Rows.{whole};

    ghost view = { λ nodes. whole nodes.limits nodes.root };

    ghost invariant = { λ nodes. IsSoundTree (whole nodes.limits nodes.root) };
}

impl<A: Allocator + Copy, C: Holder> Nodes<A, C> {
    /// The root alone, within some limits. Takes no memory.
    #[tactic(auto, unfolding(ftp_tree::specs::Tree::root_within))]
    pub fn within(alloc: A, limits: Limits) -> Nodes<A, C>
        ensures { result ≡ root_within limits }
    {
        Nodes {
            root: Node::dir(alloc),
            limits,
            alloc,
        }
    }

    /// How much they may hold.
    pub fn limits(&self) -> Limits
        ensures { result ≡ self.now.limits }
    {
        self.limits
    }

    /// The same files and directories, within other limits.
    pub fn limit(&mut self, limits: Limits)
        // Witness: an equation: the map stays.
        ensures { self.new ≡ whole limits self.old.map }
    {
        self.limits = limits;
    }

    /// What stands at a path, if anything does.
    #[tactic(auto, unfolding(ftp_tree::specs::Tree::kind_at))]
    pub fn kind<B: Allocator + Copy, D: Allocator + Copy>(
        &self,
        root: &Path<B>,
        path: &Path<D>,
    ) -> Option<NodeKind>
        ensures { result ≡ kind_at (under self.now root.now) path.now }
    {
        match self.standing(root, path) {
            Some(Standing::Dir) => Some(NodeKind::Dir),
            Some(Standing::File(..)) => Some(NodeKind::File),
            None => None,
        }
    }

    /// How many octets the file at a path has, where one stands there.
    #[tactic(auto, unfolding(ftp_tree::specs::Tree::size_at, ftp_tree::specs::Tree::octets_at))]
    pub fn size<B: Allocator + Copy, D: Allocator + Copy>(
        &self,
        root: &Path<B>,
        path: &Path<D>,
    ) -> Option<u64>
        ensures { result ≡ size_at (under self.now root.now) path.now }
    {
        match self.standing(root, path) {
            Some(Standing::File(content, _)) => Some(content.len()),
            Some(Standing::Dir) | None => None,
        }
    }

    /// When the file at a path was installed, where one stands there.
    #[tactic(auto, unfolding(ftp_tree::specs::Tree::stamp_at))]
    pub fn stamp<B: Allocator + Copy, D: Allocator + Copy>(
        &self,
        root: &Path<B>,
        path: &Path<D>,
    ) -> Option<Moment>
        ensures { option_map (λ moment. moment.seconds) result ≡ stamp_at (under self.now root.now) path.now }
    {
        match self.standing(root, path) {
            Some(Standing::File(_, moment)) => Some(moment),
            Some(Standing::Dir) | None => None,
        }
    }

    /// What holds the octets of the file at a path.
    ///
    /// Refused: `Absent`, `WrongKind` of a directory.
    #[tactic(auto, unfolding(ftp_tree::specs::Tree::octets_or_none, ftp_tree::specs::Tree::octets_at))]
    pub fn file<B: Allocator + Copy, D: Allocator + Copy>(
        &self,
        root: &Path<B>,
        path: &Path<D>,
    ) -> Result<&C, TreeFault>
        ensures octets { IfOk result (λ content. C.octets content.now ≡ octets_or_none (under self.now root.now) path.now) }
        ensures file { OnOk result (file_refusal (node_at (under self.now root.now) path.now) ≡ None) }
        ensures refused { IfErr result (λ fault. file_refusal (node_at (under self.now root.now) path.now) ≡ Some fault) }
    {
        match self.standing(root, path) {
            None => Err(TreeFault::Absent),
            Some(Standing::Dir) => Err(TreeFault::WrongKind),
            Some(Standing::File(content, _)) => Ok(content),
        }
    }

    /// What stands at a path, as it is lent. It is asked for each piece of a file, so no path is joined for it.
    pub fn standing<B: Allocator + Copy, D: Allocator + Copy>(
        &self,
        root: &Path<B>,
        path: &Path<D>,
    ) -> Option<Standing<'_, C>>
        ensures { option_map (standing_node C.octets) result ≡ node_at (under self.now root.now) path.now }
    {
        let Some(part) = self.root.find(root.key()) else {
            return None;
        };
        part.at(path.key())
    }

    /// The name that comes at a place, counted from 0, among those in a directory in the order of their octets.
    pub fn nth_name<B: Allocator + Copy, D: Allocator + Copy>(
        &self,
        root: &Path<B>,
        path: &Path<D>,
        place: usize,
    ) -> Option<Name<'_>>
        ensures { option_map (λ name. name.octets.now) result ≡ slice_get (children (under self.now root.now) path.now) place }
    {
        let above = Joined::of(root, path);
        let Some(node) = self.root.find(above.key()) else {
            return None;
        };
        node.nth_name(place)
    }

    /// What the directory at a path shows, in the order of the octets of the names, as it is now.
    pub fn entries<B: Allocator + Copy, D: Allocator + Copy>(
        &self,
        root: &Path<B>,
        path: &Path<D>,
    ) -> Result<DirEntries<A>, AllocError>
        // Witness: as of `entries`.
        ensures { IfOk result (λ entries. entries ≡ entries_at (under self.now root.now) path.now) }
    {
        let above = Joined::of(root, path);
        let Some(node) = self.root.find(above.key()) else {
            return Ok(DirEntries::none(self.alloc));
        };
        node.entries(self.alloc)
    }

    /// The most octets of a file that is put at a path, or why none is: `WrongKind` where a directory stands there or a file above,
    /// `Absent` where nothing stands above, `Full` where as many nodes stand beside the root as may.
    pub fn room<B: Allocator + Copy, D: Allocator + Copy>(
        &self,
        root: &Path<B>,
        path: &Path<D>,
    ) -> Result<u64, TreeFault>
        ensures room { IfOk result (λ count. (room_refusal (under self.now root.now) path.now ≡ None) × (count ≡ room_at (under self.now root.now) path.now)) }
        ensures refused { IfErr result (λ fault. room_refusal (under self.now root.now) path.now ≡ Some fault) }
    {
        match self.room_refusal(root, path) {
            Some(fault) => Err(fault),
            None => Ok(self.most(root, path)),
        }
    }

    /// The most octets that a file may have at a path by the limits, whether or not one is taken there.
    #[tactic(auto, unfolding(ftp_tree::specs::Tree::room_at, ftp_tree::specs::Tree::under))]
    pub fn most<B: Allocator + Copy, D: Allocator + Copy>(
        &self,
        root: &Path<B>,
        path: &Path<D>,
    ) -> u64
        ensures { result ≡ room_at (under self.now root.now) path.now }
    {
        let freed = self.len_at(root, path) as u128;
        let others = self.count_below(root).octets.saturating_sub(freed);
        let total = self.total_limit() as u128;
        self.file_limit().min(total.saturating_sub(others) as u64)
    }

    /// Whether the octets of all files below a root together are within the limit.
    ///
    /// Whatever it answers, the map is a tree, and what stands in it is sound.
    pub fn fits<B: Allocator + Copy>(&self, root: &Path<B>) -> bool
        // Witness: equations; as of `fits` of `ftp_tree`.
        ensures octets { result ≡ nat_le (octets_in (under self.now root.now)) (total_limit self.now) }
        ensures sound { IsSoundTree self.now }
    {
        self.count_below(root).octets <= self.total_limit() as u128
    }

    /// The most octets of a file.
    pub(crate) fn file_limit(&self) -> u64
        ensures { result ≡ file_limit self.now }
    {
        self.limits.file.min(MOST_OCTETS)
    }

    /// The most octets of all files at or below a root together.
    fn total_limit(&self) -> u64
        ensures { result ≡ total_limit self.now }
    {
        self.limits.total.min(MOST_OCTETS)
    }

    /// How many octets the file there has, and none where no file stands.
    #[tactic(auto, unfolding(ftp_tree::specs::Tree::octets_or_none, ftp_tree::specs::Tree::octets_at))]
    pub(crate) fn len_at<B: Allocator + Copy, D: Allocator + Copy>(
        &self,
        root: &Path<B>,
        path: &Path<D>,
    ) -> u64
        ensures { result ≡ length (octets_or_none (under self.now root.now) path.now) }
    {
        match self.standing(root, path) {
            Some(Standing::File(content, _)) => content.len(),
            Some(Standing::Dir) | None => 0,
        }
    }

    /// How many nodes stand at or below a root, and how many octets their files have. What stands in the whole tree is sound.
    pub fn count_below<B: Allocator + Copy>(&self, root: &Path<B>) -> Count
        // Witness: the same, of what stands at or below a root.
        ensures nodes { result.nodes ≡ fin.len (under self.now root.now).map }
        ensures octets { result.octets ≡ octets_in (under self.now root.now) }
        ensures sound { IsSoundTree self.now }
    {
        let Some(node) = self.root.find(root.key()) else {
            return Count::NONE;
        };
        node.count()
    }
}
