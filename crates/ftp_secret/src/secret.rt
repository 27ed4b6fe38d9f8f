// A password that is needed, and which one opens it.
ghost use Rattle.std.specs.Prelude.{◌≡◌, ◌≤◌, length};
ghost use Rattle.ftp_secret.specs.Crypt.{hash_text};
ghost use Rattle.ftp_secret.specs.Secret.{opens, plain, rounds_of};

use crate::crypt::digest_c;
use crate::method::Method;
use crate::reading::kept;
use crate::same::is_same;
use crate::text::{Letters, digest_text};
use arrayvec::ArrayVec;

/// The most octets of a salt.
pub const SALT_LIMIT: usize = 16;

/// The most octets of a password in clear.
pub const PLAIN_LIMIT: usize = 255;

/// The rounds that are made where a secret does not say how many.
pub const ROUNDS: u32 = 5000;

/// A password as SHA-crypt: `$5$` or `$6$`, perhaps `rounds=N$`, a salt, `$` and the letters of a digest.
#[derive(Drop)]
pub struct Crypt {
    pub method: Method,
    pub rounds: Option<u32>,
    pub salt: ArrayVec<u8, SALT_LIMIT>,
    pub hash: Letters,
}

/// The password that an account needs.
#[derive(Drop)]
pub enum Secret {
    /// In clear.
    Plain(ArrayVec<u8, PLAIN_LIMIT>),
    Crypt(Crypt),
}

/// How many rounds are made.
pub(crate) fn rounds_of(said: Option<u32>) -> u32
    ensures { result ≡ rounds_of said }
{
    match said {
        Some(rounds) => rounds,
        None => ROUNDS,
    }
}

/// What SHA-crypt gives for a password, behind the salt.
pub(crate) fn hash_text(method: Method, rounds: u32, salt: &[u8], password: &[u8]) -> Letters
    ensures { result.items ≡ hash_text method rounds salt.now password.now }
{
    let digest = digest_c(method, rounds, salt, password);
    digest_text(method, digest.octets())
}

impl Secret {
    /// A password in clear, of at most 255 octets. Takes no memory.
    pub fn plain(password: &[u8]) -> Secret
        requires { length password.now ≤ 255 }
        ensures { result ≡ plain password.now }
    {
        Secret::Plain(kept(password))
    }

    /// Whether a password is the one that is needed. Takes no memory. How long it takes depends on the secret's method, its rounds and
    /// the length of its salt, and on the length of the password: on no octet of the right one.
    pub fn opens(&self, password: &[u8]) -> bool
        ensures { result ≡ opens self.now password.now }
    {
        match self {
            Secret::Plain(right) => is_same(right.as_slice(), password),
            Secret::Crypt(crypt) => {
                let rounds = rounds_of(crypt.rounds);
                let text = hash_text(crypt.method, rounds, crypt.salt.as_slice(), password);
                is_same(crypt.hash.as_slice(), text.as_slice())
            }
        }
    }
}
