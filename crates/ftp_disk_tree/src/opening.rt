// The tree of a disk as it begins.
ghost use Rattle.std.specs.Prelude.{◌≡◌, IfOk};
ghost use Rattle.ftp_tree.specs.Change.{never_strayed};

use crate::disk::{DiskTree, Others};
use ftp_disk_host::Host;
use ftp_disk_scan::{Held, LeftOut, LoadFault, Loaded, Unserved, load};
use ftp_path::Path;
use ftp_tree::Limits;
use std::alloc::Global;

/// The files and directories below the folder of a host, as a tree, within limits that are counted below each of the roots; and what of it is left out.
/// What can't be served is left out, or the first of it is the fault, as `load` of `ftp_disk_scan` says it.
pub fn open<'a, H: Host, K: Held>(
    host: &'a H,
    roots: &[Path<Global>],
    limits: Limits,
    unserved: Unserved,
    others: Others,
) -> Result<(DiskTree<'a, H, K>, LeftOut), LoadFault>
    ensures limits { IfOk result (λ opened. opened.0.nodes.limits ≡ limits) }
    ensures device { IfOk result (λ opened. opened.0.device ≡ never_strayed 0) }
{
    let Loaded {
        nodes,
        dirs,
        version,
        left_out,
    } = load(host, roots, limits, unserved)?;
    Ok((DiskTree::over(host, nodes, dirs, others, version), left_out))
}
