// A name in a directory, held by several.
ghost use Rattle.std.specs.Prelude.{◌≡◌, IfOk, length};

use std::alloc::{AllocError, Allocator};
use std::marker::Model;
use std::rc::Rc;

/// The octets of a name: a tree holds them, and so does each listing that has the name, by counting. None is copied.
pub struct Label<A: Allocator + Copy> {
    octets: Rc<Vec<u8, A>, A>,
}

/// By hand: a derived drop is proved again wherever a name is let go.
impl<A: Allocator + Copy> Drop for Label<A> {
    fn drop(self) {
        let Self { octets: _ } = self;
    }
}

impl<A: Allocator + Copy> Model for Label<A> {
    ghost use Rattle.std.specs.Prelude.{ℕ, List};

    ghost Value = { List ℕ };

    ghost view = { λ label. label.octets.value.items };
}

impl<A: Allocator + Copy> Label<A> {
    /// Octets copied from some that are lent.
    pub fn new(alloc: A, octets: &[u8]) -> Result<Label<A>, AllocError>
        ensures { IfOk result (λ label. label ≡ octets.now) }
    {
        let octets = Vec::from_slice(alloc, octets)?;
        match Rc::new(alloc, octets) {
            Ok(octets) => Ok(Label { octets }),
            Err(_) => Err(AllocError),
        }
    }

    /// How many octets it has.
    pub fn len(&self) -> usize
        ensures { result ≡ length self.now }
    {
        self.octets.as_ref().len()
    }

    /// Lends the octets.
    pub fn as_slice(&self) -> &[u8]
        ensures { result.now ≡ self.now }
    {
        self.octets.as_ref().as_slice()
    }

    /// The same octets, held by one more.
    pub fn share(&self) -> Result<Label<A>, AllocError>
        ensures { IfOk result (λ label. label ≡ self.now) }
    {
        let octets = self.octets.clone()?;
        Ok(Label { octets })
    }
}
