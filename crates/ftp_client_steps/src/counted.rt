// A transfer that tells how much it stores.
ghost use Rattle.std.specs.Prelude.{◌≡◌, ◌≤◌};
ghost use Rattle.ftp_client_model.specs.Held.{block_stored_limit};

use crate::transfer::ClientTransfer;
use std::alloc::Allocator;

/// A transfer that tells how many octets it stores.
pub trait CountedTransfer<A: Allocator + Copy>: ClientTransfer<A> {
    ghost use Rattle.std.specs.Prelude.{ℕ};

    /// The sum of the lengths of all that it stores, said by its fields. Not among it are the octets that came of a download, and what it
    /// shares with its operation.
    ghost stored: { Self → ℕ };

    /// So many octets, at most 8,216.
    fn stored_len(&self) -> usize
        // Witness of sum: an equation, with the ghost member `stored` that each transfer says by its fields.
        ensures sum { result ≡ stored self.now }
        // Witness of few: `Client::held` (`little`) needs it.
        ensures few { result ≤ block_stored_limit };
}
