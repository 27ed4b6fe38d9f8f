// The field of a secret, and a secret that is made.
ghost use Rattle.std.specs.Prelude.{◌≡◌, ◌+◌, ◌≤◌, ◌++◌, ◌∷◌, [], IfOk, IsTrue, length, decimal};
ghost use Rattle.ftp_secret.specs.Secret.{made, opens, rounds_text, secret_text, sign};

use crate::fault::SecretFault;
use crate::method::Method;
use crate::reading::{LEAST_ROUNDS, ROUNDS_LIMIT, is_salt, kept};
use crate::secret::{Crypt, Secret, hash_text, rounds_of};
use arrayvec::ArrayVec;
use itoa::Buffer;

/// The octets of a field.
pub type Field = ArrayVec<u8, 255>;

fn put(text: &[u8], field: &mut Field)
    requires { length field.old.items + length text.now ≤ 255 }
    ensures { field.new.items ≡ field.old.items ++ text.now }
{
    field.try_extend_from_slice(text).unwrap()
}

/// `$5$` or `$6$`.
fn put_sign(method: Method, field: &mut Field)
    requires { length field.old.items + 3 ≤ 255 }
    ensures sign { field.new.items ≡ field.old.items ++ sign method }
    ensures bound { length field.new.items ≤ length field.old.items + 3 }
{
    match method {
        Method::Sha256 => put(b"$5$", field),
        Method::Sha512 => put(b"$6$", field),
    }
}

fn put_decimal(number: u32, field: &mut Field)
    requires { length field.old.items + 20 ≤ 255 }
    ensures text { field.new.items ≡ field.old.items ++ decimal number }
    ensures bound { length field.new.items ≤ length field.old.items + 20 }
{
    let mut buffer = Buffer::new();
    put(buffer.format(u64::from(number)).as_bytes(), field);
}

/// `rounds=N$`, or nothing.
fn put_rounds(rounds: Option<u32>, field: &mut Field)
    requires { length field.old.items + 30 ≤ 255 }
    ensures rounds { field.new.items ≡ field.old.items ++ rounds_text rounds }
    ensures bound { length field.new.items ≤ length field.old.items + 30 }
{
    match rounds {
        Some(rounds) => {
            put(b"rounds=", field);
            put_decimal(rounds, field);
            put(b"$", field);
        }
        None => {}
    }
}

/// SHA-crypt, part by part.
fn crypt_text(crypt: &Crypt) -> Field
    ensures { result.items ≡ sign crypt.now.method ++ rounds_text crypt.now.rounds ++ crypt.now.salt.items ++ 36 ∷ crypt.now.hash.items }
{
    let mut field = Field::new();
    put_sign(crypt.method, &mut field);
    put_rounds(crypt.rounds, &mut field);
    put(crypt.salt.as_slice(), &mut field);
    put(b"$", &mut field);
    put(crypt.hash.as_slice(), &mut field);
    field
}

impl Secret {
    /// The field that says this secret, as a file has it.
    pub fn text(&self) -> Field
        ensures { result.items ≡ secret_text self.now }
    {
        match self {
            Secret::Plain(right) => kept(right.as_slice()),
            Secret::Crypt(crypt) => crypt_text(crypt),
        }
    }

    /// The SHA-crypt of a password, with this salt of at most 16 octets of `./0-9A-Za-z`, and with so many rounds, 1,000 to 1,000,000, or 5,000 where none are
    /// said. Takes no memory; a fault is `Salt`, `Rounds` or `TooManyRounds`.
    pub fn made(
        method: Method,
        rounds: Option<u32>,
        salt: &[u8],
        password: &[u8],
    ) -> Result<Secret, SecretFault>
        ensures made { result ≡ made method rounds salt.now password.now }
        // Witness of opens: it follows from `made`.
        ensures opens { IfOk result (λ secret. IsTrue (opens secret password.now)) }
    {
        if !is_salt(salt) {
            return Err(SecretFault::Salt);
        }
        let count = rounds_of(rounds);
        if count < LEAST_ROUNDS {
            return Err(SecretFault::Rounds);
        }
        if count > ROUNDS_LIMIT {
            return Err(SecretFault::TooManyRounds);
        }
        let hash = hash_text(method, count, salt, password);
        let salt = kept(salt);
        Ok(Secret::Crypt(Crypt {
            method,
            rounds,
            salt,
            hash,
        }))
    }
}
