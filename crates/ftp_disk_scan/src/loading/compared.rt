// What a look compared, for clauses alone.
ghost use Rattle.std.specs.Prelude.{◌≡◌, List, [], ◌∷◌};
ghost use Rattle.std.specs.Borrow.{ftrue};
ghost use Rattle.ftp_disk_scan.specs.loading.Compared.{Pair, pair_of};

use crate::loading::tree_entry::TreeEntry;
use ftp_disk_host::Found;
use std::marker::{Model, PhantomData};

/// What a look compared, the newest first, that only clauses read: it takes no memory.
#[derive(Drop)]
pub struct Compared {
    marker: PhantomData<u8>,
    pub ghost pairs: { List Pair },
}

impl Model for Compared {
    ghost also_owns = { λ _. ftrue };
}

impl Compared {
    /// Nothing was compared yet.
    pub fn none() -> Compared
        ensures { result.pairs ≡ [] }
    {
        Compared {
            marker: PhantomData,
        }
    }

    /// What was found at a place was compared with what the tree has there.
    pub(crate) fn note(&mut self, _found: &Found, _had: &TreeEntry)
        ensures { self.new.pairs ≡ pair_of _found.now _had.now ∷ self.old.pairs }
    {}

    /// The same as another.
    pub fn adopt(&mut self, _other: &Compared)
        ensures { self.new.pairs ≡ _other.now.pairs }
    {}
}
