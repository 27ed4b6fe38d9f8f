// A tree that stands where another one is lent from.
ghost use Rattle.std.specs.Prelude.{◌≡◌};
ghost use Rattle.ftp_disk_tree.specs.Parked.{bare_table};

use crate::disk::{DiskTree, Others};
use ftp_disk_host::Host;
use ftp_disk_scan::{Dirs, Held};
use ftp_tree::{Limits, Tree};
use ftp_tree_nodes::Nodes;
use std::alloc::{Allocator, Global};

/// A tree beside which a bare one of its kind can stand.
pub trait Parks<A: Allocator + Copy>: Tree<A> + Sized {
    /// A tree that has nothing and takes nothing.
    fn bare(&self) -> Self
        ensures { Self.table result ≡ bare_table };
}

impl<'a, H: Host, K: Held> Parks<Global> for DiskTree<'a, H, K> {
    fn bare(&self) -> DiskTree<'a, H, K> {
        let host = self.device.host();
        let alloc = host.memory();
        let limits = Limits {
            file: 0,
            total: 0,
            nodes: 0,
        };
        DiskTree::over(
            host,
            Nodes::within(alloc, limits),
            Dirs::new(alloc),
            Others::Keep,
            0,
        )
    }
}
