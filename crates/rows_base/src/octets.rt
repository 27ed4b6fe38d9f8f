// Octets and numbers as a script writes them.
use crate::tally::fixed;
use std::alloc::{AllocError, Global};

/// The drawn sequence: each number is the one before times `FACTOR`, with `STEP` added, modulo `MODULUS`.
const FACTOR: u32 = 1_103_515_245;

const STEP: u32 = 12_345;

const MODULUS: u32 = 1 << 31;

/// The octets of a text, in which `\r`, `\n`, `\0`, `\s` (a space), `\\` and `\x` with two hexadecimal digits in capitals are one octet each; `@` and a
/// count of one to six digits are so many octets of the fixed sequence, `%` and such a count so many of the drawn one.
pub fn octets_of(alloc: Global, text: &[u8]) -> Result<Vec<u8>, AllocError> {
    match text {
        [b'@', count @ ..] if is_count(count) => fixed_octets(alloc, number(count)),
        [b'%', count @ ..] if is_count(count) => drawn_octets(alloc, number(count)),
        _ => written_octets(alloc, text),
    }
}

/// Whether a text is one to six decimal digits.
fn is_count(text: &[u8]) -> bool {
    !text.is_empty() && text.len() <= 6 && text.iter().all(|octet| octet.is_ascii_digit())
}

fn fixed_octets(alloc: Global, count: u64) -> Result<Vec<u8>, AllocError> {
    let mut octets = Vec::new(alloc);
    for place in 0..count {
        octets.push(fixed(place))?;
    }
    Ok(octets)
}

/// So many octets of the drawn sequence: bits 16 to 23 of numbers below 2^31, of which the first is 1.
fn drawn_octets(alloc: Global, count: u64) -> Result<Vec<u8>, AllocError> {
    let mut octets = Vec::new(alloc);
    let mut state = 1u32;
    for _ in 0..count {
        octets.push(octet_of(state))?;
        state = drawn(state);
    }
    Ok(octets)
}

/// The octet that a number of the drawn sequence stands for.
fn octet_of(state: u32) -> u8 {
    ((state >> 16) % 256) as u8
}

/// The number that follows one of the drawn sequence.
fn drawn(state: u32) -> u32 {
    state.wrapping_mul(FACTOR).wrapping_add(STEP) % MODULUS
}

fn written_octets(alloc: Global, text: &[u8]) -> Result<Vec<u8>, AllocError> {
    let mut octets = Vec::new(alloc);
    let mut rest = text;
    for _ in 0..text.len() {
        if rest.is_empty() {
            break;
        }
        let (octet, behind) = octet_in_front(rest);
        octets.push(octet)?;
        rest = behind;
    }
    Ok(octets)
}

/// The octet that a text begins with, `\s` a space too, and what stands behind it.
pub fn octet_in_front(text: &[u8]) -> (u8, &[u8]) {
    match text {
        [b'\\', b'x', high, low, behind @ ..] => (
            digit(*high).wrapping_mul(16) | digit(*low),
            behind,
        ),
        [b'\\', letter, behind @ ..] => (control(*letter), behind),
        [octet, behind @ ..] => (*octet, behind),
        [] => (0, text),
    }
}

fn digit(octet: u8) -> u8 {
    match octet {
        b'0'..=b'9' => octet - b'0',
        b'A'..=b'F' => octet - b'A' + 10,
        _ => 0,
    }
}

fn control(letter: u8) -> u8 {
    match letter {
        b'r' => b'\r',
        b'n' => b'\n',
        b's' => b' ',
        b'0' => 0,
        other => other,
    }
}

/// The number of decimal digits; past 2^64 it is the greatest of 64 bits.
pub fn number(text: &[u8]) -> u64 {
    let mut value = 0u64;
    for octet in text {
        value = value
            .saturating_mul(10)
            .saturating_add(u64::from(digit(*octet)));
    }
    value
}
