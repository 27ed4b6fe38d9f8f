ghost use Rattle.std.specs.Prelude.{◌≡◌, ◌++◌, ℕ, List, OnErr, OnOk, length};

use std::alloc::{AllocError, Allocator};

/// What the octets of a file are put into.
pub trait Sink: Drop {
    /// The octets that it has.
    ghost octets: { Self → List ℕ };

    /// How many octets it has.
    fn len(&self) -> u64
        ensures { result ≡ length (octets self.now) };

    /// Puts octets behind those that it has. Without memory all is as before.
    fn push(&mut self, more: &[u8]) -> Result<(), AllocError>
        ensures ok { OnOk result (octets self.new ≡ octets self.old ++ more.now) }
        ensures err { OnErr result (octets self.new ≡ octets self.old) };
}

impl<A: Allocator + Copy> Sink for Vec<u8, A> {
    ghost octets = { λ octets. octets.items };

    fn len(&self) -> u64 {
        self.as_slice().len() as u64
    }

    fn push(&mut self, more: &[u8]) -> Result<(), AllocError> {
        self.extend_from_slice(more)?;
        Ok(())
    }
}
