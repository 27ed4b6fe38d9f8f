//! Octets that went, for clauses alone.
ghost use Rattle.std.specs.Prelude.{◌≡◌, ◌++◌, ℕ, List, []};
ghost use Rattle.std.specs.Borrow.{ftrue};

use std::marker::{Model, PhantomData};

/// Octets that went, in order, which only clauses read: they take no memory.
#[derive(Drop)]
pub(crate) struct Went {
    marker: PhantomData<u8>,
    pub ghost octets: { List ℕ },
}

impl Model for Went {
    ghost also_owns = { λ _. ftrue };
}

impl Went {
    /// None went yet.
    pub(crate) fn new() -> Went
        ensures { result.octets ≡ [] }
    {
        Went {
            marker: PhantomData,
        }
    }

    /// These went behind them.
    pub(crate) fn note(&mut self, _more: &[u8])
        ensures { self.new.octets ≡ self.old.octets ++ _more.now }
    {}
}
