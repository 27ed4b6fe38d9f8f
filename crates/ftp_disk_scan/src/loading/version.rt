// What the tree of a disk knows of a file: which version of it was found, and how that looked.
ghost use Rattle.std.specs.Prelude.{◌≡◌, ℕ, List, []};
ghost use Rattle.ftp_disk_scan.specs.loading.Held.{fit};

use ftp_disk_host::Look;
use ftp_tree_nodes::Holder;
use std::marker::PhantomData;

/// What a device holds: the octets of each version of a file, which no code can read. What stands on a type with this bound is proved whatever they are.
pub trait Held {
    ghost holds: { ℕ → List ℕ };
}

/// For a program to name.
pub struct Unknown;

impl Held for Unknown {
    ghost holds = { λ version. [] };
}

/// A version of a file, and how it looked. Its octets are those that are held of it.
pub struct Version<K: Held> {
    pub number: u64,
    pub look: Look,
    of: PhantomData<K>,
}

/// By hand, as that of the nodes that it stands in.
impl<K: Held> Drop for Version<K> {
    fn drop(self) {
        let Self {
            number: _,
            look: _,
            of: _,
        } = self;
    }
}

impl<K: Held> Holder for Version<K> {
    ghost octets = { λ version. fit version.look.len (K.holds version.number) };

    #[tactic(auto, using(crate::proofs::loading::HeldLemmas::length_fit))]
    fn len(&self) -> u64 {
        self.look.len
    }
}

impl<K: Held> Version<K> {
    /// The version of this number, which looked so.
    pub fn new(number: u64, look: Look) -> Version<K>
        ensures number { result.number ≡ number }
        ensures look { result.look ≡ look }
    {
        Version {
            number,
            look,
            of: PhantomData,
        }
    }
}
