// How much stands below a root, as limits are counted: what stands below a lower root is counted there alone.
use crate::loading::roots::Roots;
use crate::loading::version::{Held, Version};
use ftp_path::Path;
use ftp_tree::{Limits, TreeFault};
use ftp_tree_nodes::{Count, Nodes};
use std::alloc::Global;

/// How many files and directories stand below a root and below no other root there, and how many octets those files have.
#[derive(Clone, Copy)]
pub(crate) struct RootCount {
    nodes: u64,
    octets: u64,
}

impl RootCount {
    /// What stands below a root now.
    pub(crate) fn of<K: Held>(
        nodes: &Nodes<Global, Version<K>>,
        roots: &Roots,
        root: &Path<Global>,
    ) -> RootCount {
        let mut count = RootCount::all(nodes.count_below(root));
        for other in roots.others() {
            if roots.is_next(root, other) {
                count = count.without(RootCount::all(nodes.count_below(other)));
            }
        }
        count
    }

    /// All that is counted, but the root itself.
    fn all(count: Count) -> RootCount {
        RootCount {
            nodes: count.nodes.saturating_sub(1),
            octets: u64::try_from(count.octets).unwrap_or(u64::MAX),
        }
    }

    /// Without another, that is counted in it.
    fn without(self, other: RootCount) -> RootCount {
        RootCount {
            nodes: self.nodes.saturating_sub(other.nodes),
            octets: self.octets.saturating_sub(other.octets),
        }
    }

    /// Why no directory can come anew.
    pub(crate) fn dir_refusal(self, limits: Limits) -> Option<TreeFault> {
        if self.nodes >= limits.nodes {
            Some(TreeFault::Full)
        } else {
            None
        }
    }

    /// Why no file with so many octets can come, in the place of one with others where one stands there. What takes no more room than before may.
    pub(crate) fn file_refusal(
        self,
        limits: Limits,
        old: Option<u64>,
        len: u64,
    ) -> Option<TreeFault> {
        let before = old.unwrap_or(0);
        if old.is_some() && len <= before {
            return None;
        }
        if old.is_none() && self.nodes >= limits.nodes {
            return Some(TreeFault::Full);
        }
        if len > limits.file {
            return Some(TreeFault::TooBig);
        }
        if self.octets.saturating_sub(before).saturating_add(len) > limits.total {
            return Some(TreeFault::Full);
        }
        None
    }

    /// With one file or directory more, of so many octets.
    pub(crate) fn with_one(self, octets: u64) -> RootCount {
        RootCount {
            nodes: self.nodes.saturating_add(1),
            octets: self.octets.saturating_add(octets),
        }
    }

    /// Without one file, of so many octets.
    pub(crate) fn without_one(self, octets: u64) -> RootCount {
        self.without(RootCount { nodes: 1, octets })
    }
}
