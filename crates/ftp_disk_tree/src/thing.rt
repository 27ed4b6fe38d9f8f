// What stands at a path, to tell whether another thing does later.
ghost use Rattle.std.specs.Prelude.{◌≡◌};
ghost use Rattle.ftp_disk_tree.specs.Since.{IsThing, same_thing};
ghost use Rattle.ftp_tree.specs.Tree.{node_at, under};

use ftp_disk_scan::{Held, Version};
use ftp_path::Path;
use ftp_tree_nodes::{Nodes, Standing};
use std::alloc::{Allocator, Global};

/// What stands at a path; of a file, the number of its version.
#[derive(Clone, Copy)]
pub(crate) enum Thing {
    Nothing,
    Dir,
    Version(u64),
}

impl Thing {
    /// Whether both are the same.
    pub(crate) fn is_same(self, other: Thing) -> bool
        ensures { result ≡ same_thing self other }
    {
        match (self, other) {
            (Thing::Nothing, Thing::Nothing) | (Thing::Dir, Thing::Dir) => true,
            (Thing::Version(number), Thing::Version(other)) => number == other,
            _ => false,
        }
    }
}

/// What stands at a path.
#[tactic(auto, using(crate::proofs::SinceLemmas::version_is, crate::proofs::SinceLemmas::dir_is))]
pub(crate) fn thing_at<K: Held, B: Allocator + Copy, C: Allocator + Copy>(
    nodes: &Nodes<Global, Version<K>>,
    root: &Path<B>,
    path: &Path<C>,
) -> Thing
    ensures { IsThing K.holds result (node_at (under nodes.now root.now) path.now) }
{
    match nodes.standing(root, path) {
        None => Thing::Nothing,
        Some(Standing::Dir) => Thing::Dir,
        Some(Standing::File(version, _)) => Thing::Version(version.number),
    }
}
