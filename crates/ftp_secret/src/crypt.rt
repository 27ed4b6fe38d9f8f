// The digest that SHA-crypt gives a password (steps 1 to 21).
ghost use Rattle.std.specs.Prelude.{◌≡◌, ◌+◌, ◌++◌, ◌==◌, ◌%◌, [], length, slice_index, if◌then◌else◌};
ghost use Rattle.ftp_secret.specs.Crypt.{after, digest, digest_a, digest_b, digest_c, digest_p, digest_s, repeated, round};
ghost use Rattle.ftp_secret.specs.Hashing.{Takes, octets_of, sequence};

use crate::hashing::{Digest, Hasher};
use crate::method::Method;

/// The digest of the password, the salt and the password.
fn digest_b(method: Method, password: &[u8], salt: &[u8]) -> Digest
    ensures { octets_of result ≡ digest_b method password.now salt.now }
{
    let mut hasher = Hasher::new(method);
    hasher.take(password);
    hasher.take(salt);
    hasher.take(password);
    hasher.digest()
}

/// The digest of the password, the salt, and of digest B as much as the password is long, and as its length says.
fn digest_a(method: Method, password: &[u8], salt: &[u8]) -> Digest
    ensures { octets_of result ≡ digest_a method password.now salt.now }
{
    let b = digest_b(method, password, salt);
    let mut hasher = Hasher::new(method);
    hasher.take(password);
    hasher.take(salt);
    hasher.take_cycled(&b, password.len());
    hasher.take_by_digits(b.octets(), password, password.len());
    hasher.digest()
}

/// The digest of a text, so many times.
fn digest_of_copies(method: Method, text: &[u8], count: usize) -> Digest
    ensures { octets_of result ≡ digest method (repeated text.now count) }
{
    let mut hasher = Hasher::new(method);
    hasher.take_repeated(text, count);
    hasher.digest()
}

/// A sequence of octets: so many of a digest that begins anew at its end.
#[derive(Clone, Copy)]
pub(crate) struct Sequence {
    digest: Digest,
    count: usize,
}

/// Takes a sequence where it is wanted.
fn take_where(hasher: &mut Hasher, wanted: bool, part: &Sequence)
    ensures { Takes hasher.old (if wanted then sequence part.now else []) hasher.new }
{
    if wanted {
        hasher.take_cycled(&part.digest, part.count);
    }
}

/// Takes a sequence where it is wanted, and else a digest.
fn take_either(hasher: &mut Hasher, wanted: bool, part: &Sequence, last: &Digest)
    ensures { Takes hasher.old (if wanted then sequence part.now else octets_of last.now) hasher.new }
{
    if wanted {
        hasher.take_cycled(&part.digest, part.count);
    } else {
        hasher.take(last.octets());
    }
}

/// One round: the digest after it, from the one before.
fn round(method: Method, p: &Sequence, s: &Sequence, number: u32, last: &Digest) -> Digest
    ensures { octets_of result ≡ digest method (round (sequence p.now) (sequence s.now) number (octets_of last.now)) }
{
    let mut hasher = Hasher::new(method);
    take_either(&mut hasher, number % 2 == 1, p, last);
    take_where(&mut hasher, number % 3 != 0, s);
    take_where(&mut hasher, number % 7 != 0, p);
    take_either(&mut hasher, number % 2 != 1, p, last);
    hasher.digest()
}

/// The digest after so many rounds, from digest A.
fn after(method: Method, p: &Sequence, s: &Sequence, a: Digest, rounds: u32) -> Digest
    ensures { octets_of result ≡ after method (sequence p.now) (sequence s.now) (octets_of a) rounds }
{
    let mut last = a;
    'rounds: for number in 0..rounds {
        last = round(method, p, s, number, &last);
    }
    last
}

/// The digest that is written at the end.
pub(crate) fn digest_c(method: Method, rounds: u32, salt: &[u8], password: &[u8]) -> Digest
    ensures { octets_of result ≡ digest_c method rounds salt.now password.now }
{
    let a = digest_a(method, password, salt);
    let p = Sequence {
        digest: digest_of_copies(method, password, password.len()),
        count: password.len(),
    };
    let s = Sequence {
        digest: digest_of_copies(method, salt, 16 + usize::from(a.octets()[0])),
        count: salt.len(),
    };
    after(method, &p, &s, a, rounds)
}
