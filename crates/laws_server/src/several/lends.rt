// A server to which a tree is lent for some of its calls.
ghost use Rattle.std.specs.Prelude.{◌≡◌};
ghost use Rattle.ftp_server_model.specs.Standing.{standing_of};
ghost use Rattle.laws_server.specs.several.Swapping.{lent, swapped};

use ftp_server_model::{Far, Standing};
use ftp_tree::Tree;
use std::alloc::Allocator;

/// A server that is lent a tree for some of its calls, also while a transfer is under way: all else that it holds stays. Between them it has a tree of its
/// own.
pub trait Lends<A: Allocator + Copy, T: Tree<A>>: Far<A, T> {
    /// Takes a tree, and leaves the one that it had. From then on it counts the failures of the tree that it took. `stood` is what stood at the path of its
    /// upload when it last gave that tree back: where something else stands there now, others changed that, and the upload is overtaken.
    fn lend(&mut self, tree: &mut T, stood: Option<Standing>)
        ensures taken { Self.server self.new ≡ lent stood (T.table tree.old) (T.failures tree.old) (Self.server self.old) }
        ensures left { T.table tree.new ≡ (Self.server self.old).view.session.table }
        ensures failures { T.failures tree.new ≡ (Self.server self.old).counts.failures }

        // What it tells of its last call stays.
        ensures told { Self.heard self.new ≡ Self.heard self.old };

    /// Takes its own tree again, and gives back the one that was lent. Says what stands in that at the path of an upload that is under way.
    fn give_back(&mut self, tree: &mut T) -> Option<Standing>
        ensures taken { Self.server self.new ≡ swapped (T.table tree.old) (T.failures tree.old) (Self.server self.old) }
        ensures left { T.table tree.new ≡ (Self.server self.old).view.session.table }
        ensures failures { T.failures tree.new ≡ (Self.server self.old).counts.failures }
        ensures stands { result ≡ standing_of (Self.server self.old).view.session }
        ensures told { Self.heard self.new ≡ Self.heard self.old };
}
