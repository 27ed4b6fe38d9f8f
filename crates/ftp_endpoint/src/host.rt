// The host of an endpoint, and the texts that are read as one.
ghost use Rattle.std.specs.Prelude.{◌≡◌, ◌↔◌, ◌+◌, ◌-◌, ◌/◌, ◌%◌, ◌<◌, ◌≤◌, ℕ, List, [], ◌∷◌, ◌++◌, IfNone, IfSome, IsTrue, length, replicate};
ghost use Rattle.std.specs.Char.{digit_value};
ghost use Rattle.std.specs.List.{prefix_len};
ghost use Rattle.std.specs.Option.{SomeIff};
ghost use Rattle.std.specs.Str.Parse.{AllDigits, digits_value};
ghost use Rattle.ftp_endpoint.specs.Host.{IsFilled, IsGroup, NoGroups, NoSome, NoneFilled, NoneWritten, ReadsGroups, ReadsSome, SaysV6, GroupsMayStop, Written, octets_of, behind_hex, front_hex, is_hex};

use crate::endpoint::after;
use arrayvec::ArrayVec;

/// A host's address, by its octets in the order of the network.
#[derive(Clone, Copy, Debug, PartialEq, Eq)]
pub enum Host {
    V4([u8; 4]),
    V6([u8; 16]),
}

// The value of a hexadecimal digit, of either case.
fn hex_value(c: u8) -> Option<u32>
    ensures { SomeIff result (digit_value c < 16) (digit_value c) }
{
    char::from(c).to_digit(16)
}

fn is_hex_digit(c: u8) -> bool
    ensures { result ≡ is_hex c }
{
    hex_value(c).is_some()
}

// How many hexadecimal digits a text begins with.
fn hex_in_front(text: &[u8]) -> usize
    ensures count { result ≡ prefix_len is_hex text.now }
    ensures within { result ≤ length text.now }
{
    for (i, c) in text.iter().enumerate() {
        if !is_hex_digit(*c) {
            return i;
        }
    }
    text.len()
}

// The number of at most four hexadecimal digits.
fn group_value(text: &[u8]) -> Option<u16>
    requires { length text.now ≤ 4 }
    ensures { SomeIff result (AllDigits 16 text.now) (digits_value 16 text.now) }
{
    let mut value = 0u32;
    for c in text {
        let Some(digit) = hex_value(*c) else {
            return None;
        };
        value = 16 * value + digit;
    }
    Some(value as u16)
}

// The group in front, and what is behind it.
fn group_in_front(text: &[u8]) -> Option<(u16, &[u8])>
    ensures some { IfSome result (λ r. IsGroup (front_hex text.now) × (r.0 ≡ digits_value 16 (front_hex text.now)) × (r.1.now ≡ behind_hex text.now)) }
    ensures none { IfNone result (¬ IsGroup (front_hex text.now)) }
{
    let (digits, behind) = text.split_at(hex_in_front(text));
    if digits.is_empty() || digits.len() > 4 {
        return None;
    }
    let group = group_value(digits)?;
    Some((group, behind))
}

// Whether the groups may end here.
fn stops(rest: &[u8]) -> bool
    ensures { IsTrue result ↔ GroupsMayStop rest.now }
{
    if rest.is_empty() {
        return true;
    }
    match after(b':', rest) {
        Some(rest) => after(b':', rest).is_some(),
        None => false,
    }
}

/// Reads groups from the front, joined by colons, into the room that is left, and gives what is behind them,
/// which is nothing or begins with `::`.
fn groups<'a>(text: &'a [u8], out: &mut ArrayVec<u16, 8>) -> Option<&'a [u8]>
    ensures some { IfSome result (λ rest. ReadsGroups text.now out.old.items out.new.items rest.now) }
    ensures none { IfNone result (NoGroups text.now (length out.old.items)) }
{
    if out.is_full() {
        return None;
    }
    let (group, behind) = group_in_front(text)?;
    out.push(group);
    if stops(behind) {
        return Some(behind);
    }
    let next = after(b':', behind)?;
    groups(next, out)
}

// The same of any number of groups, none too.
fn some_groups<'a>(text: &'a [u8], out: &mut ArrayVec<u16, 8>) -> Option<&'a [u8]>
    ensures some { IfSome result (λ rest. ReadsSome text.now out.old.items out.new.items rest.now) }
    ensures none { IfNone result (NoSome text.now (length out.old.items)) }
{
    if stops(text) {
        return Some(text);
    }
    groups(text, out)
}

// Eight groups: those in front of `::`, the zero groups that are missing, and those behind it.
fn filled(front: ArrayVec<u16, 8>, behind: &[u8]) -> Option<ArrayVec<u16, 8>>
    ensures some { IfSome result (λ groups. (length groups.items ≡ 8) × IsFilled front.items behind.now groups.items) }
    ensures none { IfNone result (NoneFilled front.items behind.now) }
{
    let mut back = ArrayVec::new();
    let rest = some_groups(behind, &mut back)?;
    if !rest.is_empty() {
        return None;
    }
    if front.len() + back.len() >= 8 {
        return None;
    }
    Some(fill(front, back.as_slice()))
}

// The eight groups of a text.
fn eight_groups(text: &[u8]) -> Option<ArrayVec<u16, 8>>
    ensures some { IfSome result (λ groups. (length groups.items ≡ 8) × Written text.now groups.items) }
    ensures none { IfNone result (NoneWritten text.now) }
{
    let mut front = ArrayVec::new();
    let rest = some_groups(text, &mut front)?;
    if rest.is_empty() {
        return if front.len() == 8 { Some(front) } else { None };
    }
    let behind = after(b':', rest)?;
    let behind = after(b':', behind)?;
    filled(front, behind)
}

/// Reads the groups of IPv6.
pub(crate) fn v6(text: &[u8]) -> Option<[u8; 16]>
    ensures some { IfSome result (λ octets. SaysV6 text.now octets) }
    ensures none { IfNone result ((octets : List ℕ) → ¬ SaysV6 text.now octets) }
{
    let groups = eight_groups(text)?;
    Some(octets(groups.as_slice()))
}

// Zero groups, and those behind, after those in front: eight in all.
fn fill(front: ArrayVec<u16, 8>, back: &[u16]) -> ArrayVec<u16, 8>
    requires { length front.items + length back.now < 8 }
    ensures { result.items ≡ front.items ++ (replicate (8 - length front.items - length back.now) 0 ++ back.now) }
{
    let mut all = front;
    for _missing in 0..8 - all.len() - back.len() {
        all.push(0);
    }
    for group in back {
        all.push(*group);
    }
    all
}

// The octets of eight groups, the higher of each first.
fn octets(groups: &[u16]) -> [u8; 16]
    requires { length groups.now ≡ 8 }
    ensures { result ≡ octets_of groups.now }
{
    let [a, b, c, d] = halves(groups[0], groups[1]);
    let [e, f, g, h] = halves(groups[2], groups[3]);
    let [i, j, k, l] = halves(groups[4], groups[5]);
    let [m, n, o, p] = halves(groups[6], groups[7]);
    [a, b, c, d, e, f, g, h, i, j, k, l, m, n, o, p]
}

fn halves(first: u16, second: u16) -> [u8; 4]
    ensures { result ≡ first / 256 ∷ first % 256 ∷ second / 256 ∷ second % 256 ∷ [] }
{
    [
        (first / 256) as u8,
        (first % 256) as u8,
        (second / 256) as u8,
        (second % 256) as u8,
    ]
}
