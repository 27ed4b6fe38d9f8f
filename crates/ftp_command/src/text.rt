// A text that a command owns, and one that is lent.
ghost use Rattle.std.specs.Prelude.{◌≡◌, IfOk};

use std::alloc::{AllocError, Allocator};
use std::marker::Model;

/// A text that a command owns: a path, a name, a password or the words of an argument.
#[derive(Drop)]
pub struct Argument<A: Allocator + Copy> {
    octets: Vec<u8, A>,
}

impl<A: Allocator + Copy> Model for Argument<A> {
    ghost use Rattle.std.specs.Prelude.{ℕ, List};

    ghost Value = { List ℕ };

    ghost view = { λ t. t.octets.items };
}

impl<A: Allocator + Copy> Argument<A> {
    /// A copy of these octets; only memory can be refused.
    pub fn new(alloc: A, octets: &[u8]) -> Result<Argument<A>, AllocError>
        ensures { IfOk result (λ text. text ≡ octets.now) }
    {
        let octets = Vec::from_slice(alloc, octets)?;
        Ok(Argument { octets })
    }

    /// The text of a vector's octets, with no copy.
    pub fn from_vec(octets: Vec<u8, A>) -> Argument<A>
        ensures { result ≡ octets.items }
    {
        Argument { octets }
    }

    /// The octets, lent.
    pub fn octets(&self) -> &[u8]
        ensures { result.now ≡ self.now }
    {
        self.octets.as_slice()
    }

    /// The text, lent.
    pub fn lend(&self) -> LentText<'_>
        ensures { result ≡ self.now }
    {
        LentText {
            octets: self.octets.as_slice(),
        }
    }
}

/// A text of a command, lent from it.
#[derive(Drop)]
pub struct LentText<'a> {
    octets: &'a [u8],
}

impl<'a> Model for LentText<'a> {
    ghost use Rattle.std.specs.Prelude.{ℕ, List};

    ghost Value = { List ℕ };

    ghost view = { λ t. t.octets.now };
}

impl<'a> LentText<'a> {
    /// The octets, lent as long as the command is.
    pub fn octets(&self) -> &'a [u8]
        ensures { result.now ≡ self.now }
    {
        self.octets
    }
}
