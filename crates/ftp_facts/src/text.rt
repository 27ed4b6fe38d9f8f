//! Octets that an entry owns.
ghost use Rattle.std.specs.Prelude.{◌≡◌, IfOk};

use std::alloc::{AllocError, Allocator};
use std::marker::Model;

/// Octets that an entry owns: a pathname, or the value of a fact.
pub struct Text<A: Allocator + Copy> {
    octets: Vec<u8, A>,
}

/// By hand: a derived drop is proved again in each crate that lets a text go.
impl<A: Allocator + Copy> Drop for Text<A> {
    fn drop(self) {
        let Self { octets: _ } = self;
    }
}

impl<A: Allocator + Copy> Model for Text<A> {
    ghost use Rattle.std.specs.Prelude.{List, ℕ};

    ghost Value = { List ℕ };

    ghost view = { λ text. text.octets.items };
}

impl<A: Allocator + Copy> Text<A> {
    /// A copy of these octets.
    pub fn copy_of(alloc: A, octets: &[u8]) -> Result<Text<A>, AllocError>
        // Witness: equation; caller: `read_entry`, `says`.
        ensures { IfOk result (λ text. text ≡ octets.now) }
    {
        let octets = Vec::from_slice(alloc, octets)?;
        Ok(Text { octets })
    }

    /// These octets themselves, of which none is copied. Takes no memory.
    pub fn from_vec(octets: Vec<u8, A>) -> Text<A>
        ensures { result ≡ octets.items }
    {
        Text { octets }
    }

    /// The octets.
    pub fn as_slice(&self) -> &[u8]
        ensures { result.now ≡ self.now }
    {
        self.octets.as_slice()
    }
}
