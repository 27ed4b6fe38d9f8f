// What stands at a path, as the definitions ask for it.
ghost use Rattle.std.specs.Prelude.{◌≡◌, [], length};
ghost use Rattle.ftp_tree.specs.Tree.{directory_refusal, file_refusal, node_at, octets_or_none, under};
ghost use Rattle.ftp_direct.specs.Direct.{absent_refusal, is_directory, is_file, unlisted_refusal};

use ftp_tree::{NodeKind, Path, Tree, TreeFault};
use std::alloc::Allocator;

/// Why no directory is had at a path.
#[tactic(auto, using(crate::proofs::NodeLemmas::directory_kind))]
pub fn directory_fault<A: Allocator + Copy, T: Tree<A>>(
    tree: &T,
    root: &Path<A>,
    path: &Path<A>,
) -> Option<TreeFault>
    ensures { result ≡ directory_refusal (node_at (under (T.table tree.now) root.now) path.now) }
{
    match tree.kind(root, path) {
        None => Some(TreeFault::Absent),
        Some(NodeKind::Dir) => None,
        Some(NodeKind::File) => Some(TreeFault::WrongKind),
    }
}

/// Why no file is had at a path.
#[tactic(auto, using(crate::proofs::NodeLemmas::file_kind))]
pub fn file_fault<A: Allocator + Copy, T: Tree<A>>(
    tree: &T,
    root: &Path<A>,
    path: &Path<A>,
) -> Option<TreeFault>
    ensures { result ≡ file_refusal (node_at (under (T.table tree.now) root.now) path.now) }
{
    match tree.kind(root, path) {
        None => Some(TreeFault::Absent),
        Some(NodeKind::Dir) => Some(TreeFault::WrongKind),
        Some(NodeKind::File) => None,
    }
}

/// Why nothing is had at a path.
#[tactic(auto, using(crate::proofs::NodeLemmas::absent_kind))]
pub fn absent_fault<A: Allocator + Copy, T: Tree<A>>(
    tree: &T,
    root: &Path<A>,
    path: &Path<A>,
) -> Option<TreeFault>
    ensures { result ≡ absent_refusal (node_at (under (T.table tree.now) root.now) path.now) }
{
    match tree.kind(root, path) {
        None => Some(TreeFault::Absent),
        Some(_) => None,
    }
}

/// Why LIST and NLST do not list what stands at a path, which is the current directory's where no text is given.
pub fn unlisted_fault<A: Allocator + Copy, T: Tree<A>>(
    tree: &T,
    root: &Path<A>,
    path: &Path<A>,
    here: bool,
) -> Option<TreeFault>
    ensures { result ≡ unlisted_refusal here (node_at (under (T.table tree.now) root.now) path.now) }
{
    if here {
        directory_fault(tree, root, path)
    } else {
        absent_fault(tree, root, path)
    }
}

/// Whether a directory stands at a path, read from the top of the tree.
#[tactic(auto, using(ftp_tree::proofs::PartLemmas::under_all, crate::proofs::NodeLemmas::is_directory_kind))]
pub fn is_dir<A: Allocator + Copy, T: Tree<A>>(tree: &T, top: &Path<A>, path: &Path<A>) -> bool
    requires { top.now ≡ [] }
    ensures { result ≡ is_directory (node_at (T.table tree.now) path.now) }
{
    match tree.kind(top, path) {
        Some(NodeKind::Dir) => true,
        Some(NodeKind::File) | None => false,
    }
}

/// Whether a file stands at a path.
#[tactic(auto, using(crate::proofs::NodeLemmas::is_file_kind))]
pub fn is_file<A: Allocator + Copy, T: Tree<A>>(tree: &T, root: &Path<A>, path: &Path<A>) -> bool
    ensures { result ≡ is_file (node_at (under (T.table tree.now) root.now) path.now) }
{
    match tree.kind(root, path) {
        Some(NodeKind::File) => true,
        Some(NodeKind::Dir) | None => false,
    }
}

/// How many octets the file at a path has; none where no file stands.
#[tactic(auto, using(crate::proofs::NodeLemmas::len_size))]
pub fn len_at<A: Allocator + Copy, T: Tree<A>>(tree: &T, root: &Path<A>, path: &Path<A>) -> u64
    ensures { result ≡ length (octets_or_none (under (T.table tree.now) root.now) path.now) }
{
    tree.size(root, path).unwrap_or(0)
}
