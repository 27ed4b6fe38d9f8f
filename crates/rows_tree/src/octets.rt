// Octets as a script writes them.
ghost use Rattle.std.specs.Prelude.{◌≤◌, length};

use crate::words::BETWEEN;
use rows_base::{cut, fixed, number, octet_in_front};
use std::alloc::Global;

/// The octets of a line, in which `\r`, `\n`, `\0`, `\s` (a space), `\\` and `\x` with two hexadecimal digits in capitals are one octet each and
/// `\e` is none; `[255a]` is an octet or a few so many times, `{4097}` so many octets of the fixed sequence. A space ends a word.
/// What memory is refused for is missing from them.
pub fn octets_of(alloc: Global, line: &[u8]) -> Vec<u8> {
    let mut octets = Vec::new(alloc);
    let mut rest = line;
    for _ in 0..line.len() {
        rest = match rest {
            [] => break,
            [b'[', inner @ ..] => repeated(alloc, inner, &mut octets),
            [b'{', inner @ ..] => in_sequence(inner, &mut octets),
            [b'\\', b'e', behind @ ..] => behind,
            _ => one(rest, &mut octets),
        };
    }
    octets
}

fn one<'a>(text: &'a [u8], octets: &mut Vec<u8>) -> &'a [u8] {
    let (octet, behind) = match text {
        [b' ', behind @ ..] => (BETWEEN, behind),
        _ => octet_in_front(text),
    };
    let _ = octets.push(octet);
    behind
}

/// How many decimal digits a text begins with.
fn digits_in_front(text: &[u8]) -> usize
    ensures { result ≤ length text.now }
{
    for (at, octet) in text.iter().enumerate() {
        if !octet.is_ascii_digit() {
            return at;
        }
    }
    text.len()
}

fn repeated<'a>(alloc: Global, inner: &'a [u8], octets: &mut Vec<u8>) -> &'a [u8] {
    let (inner, behind) = cut(inner, b']');
    let (count, written) = inner.split_at(digits_in_front(inner));
    if let Ok(piece) = rows_base::octets_of(alloc, written) {
        push_times(piece.as_slice(), number(count), octets);
    }
    behind
}

fn push_times(piece: &[u8], count: u64, octets: &mut Vec<u8>) {
    if let [octet] = piece {
        let len = octets.len().saturating_add(count as usize);
        let _ = octets.resize(len, *octet);
        return;
    }
    for _ in 0..count {
        let _ = octets.extend_from_slice(piece);
    }
}

fn in_sequence<'a>(inner: &'a [u8], octets: &mut Vec<u8>) -> &'a [u8] {
    let (count, behind) = cut(inner, b'}');
    for place in 0..number(count) {
        let _ = octets.push(fixed(place));
    }
    behind
}
