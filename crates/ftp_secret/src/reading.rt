// A secret from the field of a file (crypt(5)).
ghost use Rattle.std.specs.Prelude.{◌≡◌, ◌<◌, ◌≤◌, ◌&&◌, ◌==◌, None, Some, IfSome, MatchOption, length, nat_le};
ghost use Rattle.std.specs.List.{list_all};
ghost use Rattle.ftp_secret.specs.Secret.{cut, ends_kind, first_dollar, has_kind, is_kind_octet, is_letter, letter_count, most_rounds};
ghost use Rattle.ftp_secret.specs.Secret.{number_behind, read, rounds_said, with_letters, with_method, with_rounds, with_salt};

use crate::fault::SecretFault;
use crate::method::Method;
use crate::secret::{Crypt, PLAIN_LIMIT, SALT_LIMIT, Secret};
use arrayvec::ArrayVec;

/// The most rounds that are made for a login (own choice).
pub const ROUNDS_LIMIT: u32 = 1_000_000;

/// The fewest rounds.
pub const LEAST_ROUNDS: u32 = 1_000;

/// How many letters a digest has.
fn letter_count(method: Method) -> usize
    ensures { result ≡ letter_count method }
{
    match method {
        Method::Sha256 => 43,
        Method::Sha512 => 86,
    }
}

fn is_letter(octet: u8) -> bool
    ensures { result ≡ is_letter octet }
{
    matches!(octet, b'.'..=b'9' | b'A'..=b'Z' | b'a'..=b'z')
}

fn are_letters(octets: &[u8]) -> bool
    ensures { result ≡ list_all is_letter octets.now }
{
    octets.iter().all(|octet| is_letter(*octet))
}

/// Whether a text is a salt: at most 16 letters.
pub(crate) fn is_salt(salt: &[u8]) -> bool
    ensures { result ≡ (nat_le (length salt.now) 16 && list_all is_letter salt.now) }
{
    salt.len() <= SALT_LIMIT && are_letters(salt)
}

/// Whether a text has as many letters as a digest.
fn is_hash(method: Method, hash: &[u8]) -> bool
    ensures { result ≡ ((length hash.now == letter_count method) && list_all is_letter hash.now) }
{
    hash.len() == letter_count(method) && are_letters(hash)
}

/// The place of the first `$`.
#[tactic(auto, unfolding(crate::specs::Secret::first_dollar))]
fn first_dollar(octets: &[u8]) -> Option<usize>
    ensures place { result ≡ first_dollar octets.now }
    ensures within { IfSome result (λ place. place < length octets.now) }
{
    octets.iter().position(|octet| *octet == b'$')
}

/// What stands before the first `$` and behind it.
fn cut(octets: &[u8]) -> Option<(&[u8], &[u8])>
    ensures { MatchOption result (cut octets.now ≡ None) (λ parts. cut octets.now ≡ Some (parts.0.now, parts.1.now)) }
{
    match first_dollar(octets) {
        Some(place) => Some((&octets[..place], &octets[place + 1..])),
        None => None,
    }
}

/// The number of digits behind a number, while it is within the limit.
fn number_behind(number: u32, octets: &[u8]) -> Result<u32, SecretFault>
    requires { number ≤ most_rounds }
    ensures { result ≡ number_behind number octets.now }
{
    match octets {
        [] => Ok(number),
        [octet, octets @ ..] => {
            if !(b'0' <= *octet && *octet <= b'9') {
                return Err(SecretFault::Rounds);
            }
            let next = 10 * number + u32::from(*octet - b'0');
            if next > ROUNDS_LIMIT {
                return Err(SecretFault::TooManyRounds);
            }
            number_behind(next, octets)
        }
    }
}

/// The rounds that digits say, 1,000 to 1,000,000, without zeros in front.
fn rounds_said(digits: &[u8]) -> Result<u32, SecretFault>
    ensures { result ≡ rounds_said digits.now }
{
    if digits.starts_with(b"0") {
        return Err(SecretFault::Rounds);
    }
    match number_behind(0, digits) {
        Ok(rounds) => {
            if rounds < LEAST_ROUNDS {
                return Err(SecretFault::Rounds);
            }
            Ok(rounds)
        }
        Err(fault) => Err(fault),
    }
}

/// A copy of octets.
pub(crate) fn kept<const N: usize>(octets: &[u8]) -> ArrayVec<u8, N>
    requires { length octets.now ≤ N }
    ensures { result.items ≡ octets.now }
{
    let mut kept = ArrayVec::new();
    kept.try_extend_from_slice(octets).unwrap();
    kept
}

fn with_letters(
    method: Method,
    rounds: Option<u32>,
    salt: &[u8],
    hash: &[u8],
) -> Result<Secret, SecretFault>
    ensures { result ≡ with_letters method rounds salt.now hash.now }
{
    if !is_salt(salt) {
        return Err(SecretFault::Salt);
    }
    if !is_hash(method, hash) {
        return Err(SecretFault::Hash);
    }
    let salt = kept(salt);
    let hash = kept(hash);
    Ok(Secret::Crypt(Crypt {
        method,
        rounds,
        salt,
        hash,
    }))
}

fn with_salt(method: Method, rounds: Option<u32>, octets: &[u8]) -> Result<Secret, SecretFault>
    ensures { result ≡ with_salt method rounds octets.now }
{
    match cut(octets) {
        Some((salt, hash)) => with_letters(method, rounds, salt, hash),
        None => Err(SecretFault::Salt),
    }
}

fn with_rounds(method: Method, octets: &[u8]) -> Result<Secret, SecretFault>
    ensures { result ≡ with_rounds method octets.now }
{
    match cut(octets) {
        Some((digits, behind)) => match rounds_said(digits) {
            Ok(rounds) => with_salt(method, Some(rounds), behind),
            Err(fault) => Err(fault),
        },
        None => Err(SecretFault::Rounds),
    }
}

fn with_method(method: Method, octets: &[u8]) -> Result<Secret, SecretFault>
    ensures { result ≡ with_method method octets.now }
{
    if octets.starts_with(b"rounds=") {
        return with_rounds(method, &octets[7..]);
    }
    with_salt(method, None, octets)
}

fn is_kind_octet(octet: u8) -> bool
    ensures { result ≡ is_kind_octet octet }
{
    matches!(octet, b'-' | b'0'..=b'9' | b'A'..=b'Z' | b'a'..=b'z')
}

/// Whether octets that name a kind are followed by `$`.
fn ends_kind(octets: &[u8]) -> bool
    ensures { result ≡ ends_kind octets.now }
{
    match octets {
        [] => false,
        [octet, octets @ ..] => {
            if *octet == b'$' {
                return true;
            }
            is_kind_octet(*octet) && ends_kind(octets)
        }
    }
}

/// Whether a field is in the form of crypt(5).
fn has_kind(field: &[u8]) -> bool
    ensures { result ≡ has_kind field.now }
{
    match field {
        [b'$', octet, octets @ ..] => is_kind_octet(*octet) && ends_kind(octets),
        _ => false,
    }
}

impl Secret {
    /// What a field says. `$5$` or `$6$` begins SHA-crypt; what else has the form of crypt(5), as `$1$`, `$2b$` or `$y$`, is refused, and all else stands for
    /// itself. Takes no memory; a fault names the first thing that is wrong.
    pub fn read(field: &[u8]) -> Result<Secret, SecretFault>
        ensures { result ≡ read field.now }
    {
        if field.len() > PLAIN_LIMIT {
            return Err(SecretFault::TooLong);
        }
        if field.starts_with(b"$5$") {
            return with_method(Method::Sha256, &field[3..]);
        }
        if field.starts_with(b"$6$") {
            return with_method(Method::Sha512, &field[3..]);
        }
        if has_kind(field) {
            return Err(SecretFault::Kind);
        }
        Ok(Secret::plain(field))
    }
}
