// A hasher of either method, and what SHA-crypt feeds it (steps 1 to 21).
ghost use Rattle.std.specs.Prelude.{◌≡◌, ◌<◌, ◌++◌, ◌==◌, ◌%◌, List, ℕ, [], length, if◌then◌else◌};
ghost use Rattle.ftp_secret.specs.Crypt.{by_digits, cycled, digest, repeated};
ghost use Rattle.ftp_secret.specs.Hashing.{HoldsOctets, Takes, octets_of};
ghost use Rattle.ftp_secret.specs.declared.method.Method.{Method};

use crate::method::Method;
use sha2::{Digest as _, Sha256, Sha512};

/// A digest of 32 or of 64 octets.
#[derive(Clone, Copy)]
pub(crate) enum Digest {
    Small([u8; 32]),
    Large([u8; 64]),
}

impl Digest {
    pub(crate) fn octets(&self) -> &[u8]
        ensures same { result.now ≡ octets_of self.now }
        ensures some { 0 < length result.now }
    {
        match self {
            Digest::Small(octets) => octets,
            Digest::Large(octets) => octets,
        }
    }
}

#[derive(Drop)]
pub(crate) enum Hasher {
    Small(Sha256),
    Large(Sha512),
}

impl Hasher {
    /// A hasher that has taken nothing.
    pub(crate) fn new(method: Method) -> Hasher
        ensures { HoldsOctets result method [] }
    {
        match method {
            Method::Sha256 => Hasher::Small(Sha256::new()),
            Method::Sha512 => Hasher::Large(Sha512::new()),
        }
    }

    /// Takes a piece.
    pub(crate) fn take(&mut self, piece: &[u8])
        ensures { Takes self.old piece.now self.new }
    {
        match self {
            Hasher::Small(hasher) => hasher.update(piece),
            Hasher::Large(hasher) => hasher.update(piece),
        }
    }

    /// The digest of what was taken.
    pub(crate) fn digest(self) -> Digest
        ensures { (method : Method) (octets : List ℕ) → HoldsOctets self method octets → octets_of result ≡ digest method octets }
    {
        match self {
            Hasher::Small(hasher) => Digest::Small(hasher.finalize()),
            Hasher::Large(hasher) => Digest::Large(hasher.finalize()),
        }
    }

    /// Takes a piece so many times.
    pub(crate) fn take_repeated(&mut self, piece: &[u8], count: usize)
        ensures { Takes self.old (repeated piece.now count) self.new }
    {
        'times: for i in 0..count {
            self.take(piece);
        }
    }

    /// Takes so many octets of a block that begins anew at its end.
    pub(crate) fn take_cycled(&mut self, block: &Digest, count: usize)
        ensures { Takes self.old (cycled (octets_of block.now) count) self.new }
    {
        let block = block.octets();
        self.take_repeated(block, count / block.len());
        self.take(&block[..count % block.len()]);
    }

    /// Takes digest B for each 1, and the password for each 0, of the binary digits of a number, the lowest first.
    pub(crate) fn take_by_digits(&mut self, b: &[u8], password: &[u8], number: usize)
        ensures { Takes self.old (by_digits b.now password.now number number) self.new }
    {
        if number == 0 {
            return;
        }
        self.take(chosen(number % 2 == 1, b, password));
        self.take_by_digits(b, password, number / 2);
    }
}

/// One of two pieces.
fn chosen<'a>(first: bool, one: &'a [u8], other: &'a [u8]) -> &'a [u8]
    ensures { result.now ≡ (if first then one.now else other.now) }
{
    if first { one } else { other }
}
