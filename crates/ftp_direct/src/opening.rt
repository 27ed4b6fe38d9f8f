// A file that is opened to be read, where one stands.
ghost use Rattle.std.specs.Prelude.{◌≡◌, [], None, IfErr, IfOk, MatchOption, OnOk};
ghost use Rattle.ftp_tree.specs.Change.{Refuses};
ghost use Rattle.ftp_tree.specs.Tree.{octets_or_none, under};

use ftp_tree::{Path, Tree, TreeFault};
use std::alloc::Allocator;

/// The file at a path, opened; `None` where no file stands, which has no octets.
pub(crate) fn open_there<A: Allocator + Copy, T: Tree<A>>(
    tree: &mut T,
    root: &Path<A>,
    path: &Path<A>,
) -> Result<Option<T::Open>, TreeFault>
    ensures octets { IfOk result (λ found. let octets = octets_or_none (under (T.table tree.old) root.now) path.now in
        MatchOption found (octets ≡ []) (λ file. T.opened file ≡ octets)) }
    ensures table { T.table tree.new ≡ T.table tree.old }
    ensures steady { OnOk result (T.failures tree.new ≡ T.failures tree.old) }
    ensures refused { IfErr result (λ fault. Refuses None fault (T.failures tree.old) (T.failures tree.new)) }
{
    match tree.open(root, path) {
        Ok(file) => Ok(Some(file)),
        Err(TreeFault::Absent) => Ok(None),
        Err(TreeFault::WrongKind) => Ok(None),
        Err(fault) => Err(fault),
    }
}
