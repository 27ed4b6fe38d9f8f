// Escapes by digits, eight at a time.
ghost use Rattle.std.specs.Prelude.{◌≡◌, ◌==◌, ◌+◌, ◌++◌, ◌≤◌, true, false, map, length, take, nat_lt};
ghost use Rattle.std.specs.List.{list_all};
ghost use Rattle.tool_script.specs.Field.{Between, SayFront, digit_or_255, said_from, with_front};

use std::simd::prelude::*;

/// How many octets are read, or written, before they are appended.
pub(crate) const ROOM: usize = 256;

/// How many octets eight escapes by digits are.
const EIGHT: usize = 32;

/// Fills a room with the octets that a text says first, as long as eight of them in turn are by digits; gives how many there are, and what is
/// left of the text.
pub(crate) fn fill_by_eights<'a>(text: &'a [u8], room: &mut [u8; ROOM]) -> (usize, &'a [u8])
    ensures says { said_from text.now Between ≡ with_front (take result.0 room.new) (said_from result.1.now Between) }
    ensures within { result.0 ≤ ROOM }
    ensures less { result.0 + length result.1.now ≤ length text.now }
{
    let mut count = 0;
    let mut rest = text;
    while count <= ROOM - 8 && rest.len() >= EIGHT {
        let (front, left) = rest.split_at(EIGHT);
        if !fill_eight(front, room, count) {
            return (count, rest);
        }
        count += 8;
        rest = left;
    }
    (count, rest)
}

/// Fills eight places of a room with what eight escapes by digits say; not where another octet is said, and then nothing is changed.
fn fill_eight(escapes: &[u8], room: &mut [u8; ROOM], at: usize) -> bool
    requires { (length escapes.now ≡ EIGHT) × (at + 8 ≤ ROOM) }
    ensures some { result ≡ true → SayFront escapes.now (take at room.old) (take (at + 8) room.new) }
    ensures none { result ≡ false → room.new ≡ room.old }
{
    let lanes = u8x32::from_slice(escapes);
    let slashes = lanes.swizzle([0, 4, 8, 12, 16, 20, 24, 28]);
    let letters = lanes.swizzle([1, 5, 9, 13, 17, 21, 25, 29]);
    let high = values_of(lanes.swizzle([2, 6, 10, 14, 18, 22, 26, 30]));
    let low = values_of(lanes.swizzle([3, 7, 11, 15, 19, 23, 27, 31]));
    if are_all(slashes, b'\\') && are_all(letters, b'x') && are_digits(high) && are_digits(low) {
        store(high * u8x8::splat(16) + low, room, at);
        return true;
    }
    false
}

/// Stores a vector in a room from a place on.
fn store(octets: u8x8, room: &mut [u8], at: usize)
    requires { (length octets ≡ 8) × (at + 8 ≤ length room.old) }
    ensures { take (at + 8) room.new ≡ take at room.old ++ octets }
{
    octets.copy_to_slice(&mut room[at..]);
}

/// Whether each lane is this octet.
fn are_all(lanes: u8x8, octet: u8) -> bool
    requires { length lanes ≡ 8 }
    ensures { result ≡ list_all (λ lane. lane == octet) lanes }
{
    lanes.simd_ne(u8x8::splat(octet)).to_bitmask() == 0
}

/// Whether each lane is less than 16.
fn are_digits(values: u8x8) -> bool
    requires { length values ≡ 8 }
    ensures { result ≡ list_all (λ value. nat_lt value 16) values }
{
    values.simd_ge(u8x8::splat(16)).to_bitmask() == 0
}

/// The values of hexadecimal digits, and 255 for what is none.
fn values_of(digits: u8x8) -> u8x8
    requires { length digits ≡ 8 }
    ensures { result ≡ map digit_or_255 digits }
{
    let decimal = digits - u8x8::splat(48);
    let letter = digits - u8x8::splat(97);
    let other = letter
        .simd_lt(u8x8::splat(6))
        .select(letter + u8x8::splat(10), u8x8::splat(255));
    decimal.simd_lt(u8x8::splat(10)).select(decimal, other)
}
