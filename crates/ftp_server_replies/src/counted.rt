// A transfer that tells how much it stores.
ghost use Rattle.std.specs.Prelude.{◌≡◌, ◌≤◌};
ghost use Rattle.ftp_server_model.specs.Held.{stored_limit};

use crate::ServerTransfer;
use ftp_tree::Tree;
use std::alloc::Allocator;

/// A transfer that tells how many octets it stores.
pub trait Counted<A: Allocator + Copy, T: Tree<A>>: ServerTransfer<A, T> {
    ghost use Rattle.std.specs.Prelude.{ℕ};

    /// The sum of the lengths of all that it stores, said by its fields: what encodes, what decodes, paths, texts and lines. Not among it
    /// are the octets that came of an upload, and what it shares with the tree.
    ghost stored: { Self → ℕ };

    /// So many octets, at most 13,352.
    fn stored_len(&self) -> usize
        // Witness of sum: an equation, with the sum that the impl says by its fields.
        ensures sum { result ≡ stored self.now }
        // Witness of few: `Server::held` of `ftp_server` needs it.
        ensures few { result ≤ stored_limit };
}
