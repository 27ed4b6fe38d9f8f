// Octets that are to become a file.
ghost use Rattle.std.specs.Prelude.{◌≡◌, ◌++◌, ℕ, List, OnErr, OnOk, length};

use std::alloc::AllocError;

/// Octets that are to become a file, apart from the tree. Let go of, they are gone.
pub trait Draft: Drop {
    /// Those that came so far.
    ghost octets: { Self → List ℕ };

    /// How many they are.
    fn len(&self) -> u64
        ensures { result ≡ length (octets self.now) };

    /// Puts octets after those that came. Refused memory, or room on a device, it has those that it had.
    fn push(&mut self, more: &[u8]) -> Result<(), AllocError>
        ensures ok { OnOk result (octets self.new ≡ octets self.old ++ more.now) }
        ensures err { OnErr result (octets self.new ≡ octets self.old) };
}
