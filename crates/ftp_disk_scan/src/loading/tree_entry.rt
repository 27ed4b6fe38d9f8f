// What a tree has at a place.
ghost use Rattle.ftp_tree.specs.Tree.{node_at, under};
ghost use Rattle.ftp_disk_scan.specs.loading.Compared.{IsEntry};

use crate::loading::version::{Held, Version};
use ftp_disk_host::Look;
use ftp_path::Path;
use ftp_tree_nodes::{Nodes, Standing};
use std::alloc::Global;

/// What a tree has at a place; of a file, how it looked.
#[derive(Clone, Copy)]
pub enum TreeEntry {
    Nothing,
    Dir,
    File(Look),
}

impl TreeEntry {
    /// How many octets it has, of a file.
    pub(crate) fn len(self) -> u64 {
        match self {
            TreeEntry::File(look) => look.len,
            TreeEntry::Nothing | TreeEntry::Dir => 0,
        }
    }
}

/// What a tree has at a path.
#[tactic(auto, using(crate::proofs::loading::ComparedLemmas::file_entry, crate::proofs::loading::HeldLemmas::length_fit))]
pub fn entry_at<K: Held>(
    nodes: &Nodes<Global, Version<K>>,
    root: &Path<Global>,
    path: &Path<Global>,
) -> TreeEntry
    // Witness: `edits/a_tree_has_a_directory_where_it_has_nothing`.
    ensures { IsEntry result (node_at (under nodes.now root.now) path.now) }
{
    match nodes.standing(root, path) {
        None => TreeEntry::Nothing,
        Some(Standing::Dir) => TreeEntry::Dir,
        Some(Standing::File(version, _)) => TreeEntry::File(version.look),
    }
}
