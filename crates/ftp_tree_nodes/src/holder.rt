// How the octets of a file are held.
ghost use Rattle.std.specs.Prelude.{◌≡◌, ℕ, List, length};

/// What stands for the octets of a file: it has them at hand, or knows where they are read when they are wanted.
pub trait Holder: Drop {
    /// The octets.
    ghost octets: { Self → List ℕ };

    /// How many octets there are.
    fn len(&self) -> u64
        // Witness: an equation of the length; whoever holds octets meets it.
        ensures { result ≡ length (octets self.now) };
}
