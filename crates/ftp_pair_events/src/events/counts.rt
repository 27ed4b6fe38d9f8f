// Counts that have not moved, and one that goes on.
ghost use Rattle.std.specs.Prelude.{◌≡◌, ◌+◌, ◌&&◌, ◌<◌, ◌^◌, nat_eq, true};
ghost use Rattle.ftp_server_model.specs.Far.{counts_told};
ghost use Rattle.laws_world.specs.World.{counted};

use crate::events::parts::Parts;
use ftp_client_model::Near;
use ftp_server_model::{Counts, SureFar};
use ftp_tree::Tree;
use std::alloc::Allocator;

impl<A: Allocator + Copy, T: Tree<A>, N: Near<A>, F: SureFar<A, T>> Parts<A, T, N, F> {
    /// What the server has counted. That is all which may fail there, since its tree's device never strays.
    pub(crate) fn far_counts(&self) -> Counts
        ensures { counts_told result ≡ (F.server self.now.far).counts }
    {
        self.far.counts()
    }
}

/// Whether all was calm, and a count has not moved.
pub(crate) fn stays(calm: bool, old: u64, new: u64) -> bool
    ensures is { result ≡ (calm && nat_eq new old) }
    ensures kept { result ≡ true → (calm ≡ true) × (new ≡ old) }
    ensures fits { old < 2 ^ 64 }
{
    calm && new == old
}

/// Whether all was calm, and neither count has moved.
pub(crate) fn both_stay(calm: bool, old: Counts, new: Counts) -> bool
    ensures is { result ≡ (calm && (nat_eq new.refusals old.refusals && nat_eq new.failures old.failures)) }
    ensures kept { result ≡ true → (calm ≡ true) × (new ≡ old) }
    ensures fits { (old.refusals < 2 ^ 64) × (old.failures < 2 ^ 64) }
{
    calm && new.refusals == old.refusals && new.failures == old.failures
}

/// So many more octets are counted, so far as a count goes.
pub(crate) fn count_on(came: u64, more: usize) -> u64
    ensures { result ≡ counted (came + more) }
{
    came.saturating_add(more as u64)
}
