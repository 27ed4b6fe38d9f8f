// A digest as letters (step 22).
ghost use Rattle.std.specs.Prelude.{◌≡◌, ◌+◌, ◌*◌, ◌<◌, ◌≤◌, ◌^◌, ◌++◌, slice_index};
ghost use Rattle.arrayvec.specs.ArrayVec.{array_vec_len};
ghost use Rattle.ftp_secret.specs.Crypt.{digest_text, group, group_text, groups_text, joined, letter, letters_of_number, turned};

use crate::method::Method;
use arrayvec::ArrayVec;

/// The most letters of a digest.
pub const LETTER_LIMIT: usize = 86;

/// Letters of a digest.
pub type Letters = ArrayVec<u8, LETTER_LIMIT>;

/// The letter of six bits.
fn letter(bits: u8) -> u8
    requires { bits < 64 }
    ensures { result ≡ letter bits }
{
    if bits < 12 {
        bits + b'.'
    } else if bits < 38 {
        bits + (b'A' - 12)
    } else {
        bits + (b'a' - 38)
    }
}

/// Puts so many letters of a number, the lowest six bits first.
fn put_letters(text: &mut Letters, count: usize, number: u32)
    requires { array_vec_len text.old + count ≤ 86 }
    ensures letters { text.new.items ≡ text.old.items ++ letters_of_number count number }
    ensures len { array_vec_len text.new ≡ array_vec_len text.old + count }
{
    if count == 0 {
        return;
    }
    text.push(letter((number % 64) as u8));
    put_letters(text, count - 1, number / 64);
}

/// Three octets as one number, the first of them the highest.
fn joined(first: u8, second: u8, third: u8) -> u32
    ensures { result ≡ joined first second third }
{
    u32::from(first) * 65536 + u32::from(second) * 256 + u32::from(third)
}

/// The octet at a place, and 0 past the end.
pub(crate) fn octet_at(octets: &[u8], place: usize) -> u8
    ensures { result ≡ slice_index octets.now place }
{
    if place < octets.len() {
        octets[place]
    } else {
        0
    }
}

fn turned(turn: usize, third: usize, place: usize) -> (usize, usize, usize)
    requires third { third < 100 }
    requires place { place < 100 }
    ensures { result ≡ turned turn third place }
{
    if turn == 0 {
        (place, place + third, place + 2 * third)
    } else if turn == 1 {
        (place + third, place + 2 * third, place)
    } else {
        (place + 2 * third, place, place + third)
    }
}

/// The places of three octets that are written together.
fn group(method: Method, place: usize) -> (usize, usize, usize)
    requires { place < 100 }
    ensures { result ≡ group method place }
{
    match method {
        Method::Sha256 => turned(2 * place % 3, 10, place),
        Method::Sha512 => turned(place % 3, 21, place),
    }
}

/// Puts the four letters of a group.
fn put_group(text: &mut Letters, method: Method, digest: &[u8], place: usize)
    requires place { place < 100 }
    requires room { array_vec_len text.old + 4 ≤ 86 }
    ensures letters { text.new.items ≡ text.old.items ++ group_text method digest.now place }
    ensures len { array_vec_len text.new ≡ array_vec_len text.old + 4 }
{
    let (first, second, third) = group(method, place);
    let number = joined(
        octet_at(digest, first),
        octet_at(digest, second),
        octet_at(digest, third),
    );
    put_letters(text, 4, number);
}

/// The letters of so many groups, from the first on.
fn groups_text(method: Method, digest: &[u8], count: usize) -> Letters
    requires { count ≤ 21 }
    ensures letters { result.items ≡ groups_text method digest.now count }
    ensures len { array_vec_len result ≡ 4 * count }
{
    let mut text = Letters::new();
    'groups: for place in 0..count {
        put_group(&mut text, method, digest, place);
    }
    text
}

/// A digest as letters: its whole groups, and what is left.
pub(crate) fn digest_text(method: Method, digest: &[u8]) -> Letters
    ensures { result.items ≡ digest_text method digest.now }
{
    match method {
        Method::Sha256 => {
            let mut text = groups_text(method, digest, 10);
            let rest = joined(0, octet_at(digest, 31), octet_at(digest, 30));
            put_letters(&mut text, 3, rest);
            text
        }
        Method::Sha512 => {
            let mut text = groups_text(method, digest, 21);
            let rest = joined(0, 0, octet_at(digest, 63));
            put_letters(&mut text, 2, rest);
            text
        }
    }
}
