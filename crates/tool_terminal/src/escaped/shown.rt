// Octets as a terminal is to show them: appended, and written as a text.
ghost use Rattle.std.specs.Prelude.{◌≡◌, ◌<◌, ◌≤◌, ◌++◌, ◌-◌, length, get_or, take, OnOk, IfOk, Some};
ghost use Rattle.std.specs.Fmt.{WritesOnOk};
ghost use Rattle.tool_terminal.specs.escaped.Shown.{is_four, is_from, is_hidden_80, is_hidden_81, is_hidden_c2, is_hidden_ef, is_hidden_four, is_hidden_three, is_hidden_two, is_plain, is_second_of_four, is_second_of_three, is_tail, is_three};
ghost use Rattle.tool_terminal.specs.escaped.Shown.{digit, octet_escaped, front_shown, hexadecimal, kept_of, len_four, len_three, len_two, octet_shown, octets_shown, shown_len};

use std::alloc::{AllocError, Global};
use std::fmt;
use std::fmt::{Display, Formatter};

/// Appends octets of a stranger as a terminal is to show them: characters of UTF-8 as they stand, but for control characters, marks of direction,
/// characters without width, tags and a backslash; for each octet of these, and for each that is of no character, `\xHH`, and `\\` for a backslash.
///
/// Refused memory, a part of it may stand there.
pub fn put_shown(octets: &[u8], out: &mut Vec<u8, Global>) -> Result<(), AllocError>
    // Witness: an equation, where memory is not refused.
    ensures { OnOk result (out.new.items ≡ out.old.items ++ octets_shown octets.now) }
{
    let mut kept = 0;
    for place in 0..octets.len() {
        kept = put_next(kept, &octets[place..], out)?;
    }
    Ok(())
}

/// Octets of a stranger as a text: what `put_shown` appends of them.
#[derive(Clone, Copy)]
pub struct Shown<'a>(pub &'a [u8]);

impl<'a> Display for Shown<'a> {
    ghost output = { λ it. Some (octets_shown it.0.now) };

    fn fmt<W: fmt::Write>(&self, formatter: &mut Formatter<W>) -> fmt::Result {
        let mut written = 0;
        for place in 0..self.0.len() {
            let rest = &self.0[place..];
            write_front(written, rest, formatter)?;
            written = kept_of(written, rest).saturating_sub(1);
        }
        Ok(())
    }
}

/// Writes what is written at once of octets of which so many at the front are written already: a character, or an escape of an octet.
fn write_front<W: fmt::Write>(
    written: u8,
    octets: &[u8],
    formatter: &mut Formatter<W>,
) -> fmt::Result
    requires { 0 < length octets.now }
    ensures { WritesOnOk W.write_str_gives formatter.old result (front_shown written octets.now) formatter.new }
{
    if written != 0 {
        return Ok(());
    }
    match shown_len(octets) {
        0 => write_escaped(octets[0], formatter),
        count => formatter.write_str(front_of(octets, count)),
    }
}

/// The character at the front as a text, which has so many octets and is shown as it stands.
fn front_of(octets: &[u8], count: u8) -> &str
    requires is_len { count ≡ shown_len octets.now }
    requires is_shown { 0 < count }
    ensures { result.now ≡ take count octets.now }
{
    let Ok(text) = str::from_utf8(&octets[..usize::from(count)]) else {
        unreachable!();
    };
    text
}

/// Writes an octet as an escape.
fn write_escaped<W: fmt::Write>(octet: u8, formatter: &mut Formatter<W>) -> fmt::Result
    ensures { WritesOnOk W.write_str_gives formatter.old result (octet_escaped octet) formatter.new }
{
    if octet == b'\\' {
        return formatter.write_str("\\\\");
    }
    let escape = hexadecimal(octet);
    let Ok(text) = str::from_utf8(&escape) else {
        unreachable!();
    };
    formatter.write_str(text)
}

/// Appends the first octet, where of so many at the front it is known that they stand as they are; gives how many these are behind it.
fn put_next(kept: u8, octets: &[u8], out: &mut Vec<u8, Global>) -> Result<u8, AllocError>
    requires { 0 < length octets.now }
    ensures kept { IfOk result (λ left. left ≡ kept_of kept octets.now - 1) }
    ensures shown { OnOk result (out.new.items ≡ out.old.items ++ octet_shown (kept_of kept octets.now) (get_or octets.now 0 0)) }
{
    let now = kept_of(kept, octets);
    put_octet(now, octets[0], out)?;
    Ok(now.saturating_sub(1))
}

/// Appends an octet at the front of a row of which so many stand as they are.
fn put_octet(kept: u8, octet: u8, out: &mut Vec<u8, Global>) -> Result<(), AllocError>
    ensures { OnOk result (out.new.items ≡ out.old.items ++ octet_shown kept octet) }
{
    if kept == 0 {
        put_escaped(octet, out)
    } else {
        out.extend_from_slice(&[octet])
    }
}

/// Appends an octet as an escape.
fn put_escaped(octet: u8, out: &mut Vec<u8, Global>) -> Result<(), AllocError>
    ensures { OnOk result (out.new.items ≡ out.old.items ++ octet_escaped octet) }
{
    if octet == b'\\' {
        out.extend_from_slice(b"\\\\")
    } else {
        out.extend_from_slice(&hexadecimal(octet))
    }
}

/// `\xHH`, the escape of an octet but a backslash.
fn hexadecimal(octet: u8) -> [u8; 4]
    ensures { result ≡ hexadecimal octet }
{
    [b'\\', b'x', digit(octet / 16), digit(octet % 16)]
}

/// A hexadecimal digit.
fn digit(value: u8) -> u8
    requires { value ≤ 15 }
    ensures { result ≡ digit value }
{
    if value < 10 { 48 + value } else { 87 + value }
}

/// How many octets at the front stand as they are, where that is known of so many.
fn kept_of(kept: u8, octets: &[u8]) -> u8
    ensures { result ≡ kept_of kept octets.now }
{
    if kept == 0 { shown_len(octets) } else { kept }
}

/// How many octets the character at the front has, where it is shown as it stands; 0 where its first octet is escaped.
fn shown_len(octets: &[u8]) -> u8
    ensures { result ≡ shown_len octets.now }
{
    let [first, rest @ ..] = octets else {
        return 0;
    };
    let first = *first;
    if is_plain(first) {
        1
    } else if is_from(0xC2, 0xDF, first) {
        len_two(first, rest)
    } else if is_from(0xE0, 0xEF, first) {
        len_three(first, rest)
    } else if is_from(0xF0, 0xF4, first) {
        len_four(first, rest)
    } else {
        0
    }
}

fn len_two(first: u8, rest: &[u8]) -> u8
    ensures { result ≡ len_two first rest.now }
{
    match rest {
        [second, ..] if is_tail(*second) && !is_hidden_two(first, *second) => 2,
        _ => 0,
    }
}

fn len_three(first: u8, rest: &[u8]) -> u8
    ensures { result ≡ len_three first rest.now }
{
    match rest {
        [second, third, ..] if is_three(first, *second, *third) => 3,
        _ => 0,
    }
}

/// Whether they are a character that is shown.
fn is_three(first: u8, second: u8, third: u8) -> bool
    ensures { result ≡ is_three first second third }
{
    is_second_of_three(first, second) && is_tail(third) && !is_hidden_three(first, second, third)
}

fn len_four(first: u8, rest: &[u8]) -> u8
    ensures { result ≡ len_four first rest.now }
{
    match rest {
        [second, third, fourth, ..] if is_four(first, *second, *third, *fourth) => 4,
        _ => 0,
    }
}

/// Whether they are a character.
fn is_four(first: u8, second: u8, third: u8, fourth: u8) -> bool
    ensures { result ≡ is_four first second third fourth }
{
    is_second_of_four(first, second)
        && is_tail(third)
        && is_tail(fourth)
        && !is_hidden_four(first, second, third)
}

fn is_plain(octet: u8) -> bool
    ensures { result ≡ is_plain octet }
{
    is_from(32, 126, octet) && octet != b'\\'
}

fn is_tail(octet: u8) -> bool
    ensures { result ≡ is_tail octet }
{
    is_from(0x80, 0xBF, octet)
}

fn is_hidden_c2(second: u8) -> bool
    ensures { result ≡ is_hidden_c2 second }
{
    is_from(0x80, 0x9F, second) || second == 0xAD
}

fn is_hidden_two(first: u8, second: u8) -> bool
    ensures { result ≡ is_hidden_two first second }
{
    (first == 0xC2 && is_hidden_c2(second))
        || (first == 0xCD && second == 0x8F)
        || (first == 0xD8 && second == 0x9C)
}

fn is_hidden_three(first: u8, second: u8, third: u8) -> bool
    ensures { result ≡ is_hidden_three first second third }
{
    (first == 0xE2 && (is_hidden_80(second, third) || is_hidden_81(second, third)))
        || (first == 0xEF && is_hidden_ef(second, third))
        || (first == 0xE1 && second == 0xA0 && third == 0x8E)
}

fn is_hidden_ef(second: u8, third: u8) -> bool
    ensures { result ≡ is_hidden_ef second third }
{
    (second == 0xB8 && is_from(0x80, 0x8F, third))
        || (second == 0xBB && third == 0xBF)
        || (second == 0xBF && is_from(0xB9, 0xBB, third))
}

fn is_hidden_four(first: u8, second: u8, third: u8) -> bool
    ensures { result ≡ is_hidden_four first second third }
{
    first == 0xF3 && second == 0xA0 && is_from(0x80, 0x87, third)
}

fn is_hidden_80(second: u8, third: u8) -> bool
    ensures { result ≡ is_hidden_80 second third }
{
    second == 0x80 && (is_from(0x8B, 0x8F, third) || is_from(0xA8, 0xAE, third))
}

fn is_hidden_81(second: u8, third: u8) -> bool
    ensures { result ≡ is_hidden_81 second third }
{
    second == 0x81 && is_from(0xA0, 0xAF, third)
}

fn is_second_of_three(first: u8, second: u8) -> bool
    ensures { result ≡ is_second_of_three first second }
{
    let least = if first == 0xE0 { 0xA0 } else { 0x80 };
    let greatest = if first == 0xED { 0x9F } else { 0xBF };
    is_from(least, greatest, second)
}

fn is_second_of_four(first: u8, second: u8) -> bool
    ensures { result ≡ is_second_of_four first second }
{
    let least = if first == 0xF0 { 0x90 } else { 0x80 };
    let greatest = if first == 0xF4 { 0x8F } else { 0xBF };
    is_from(least, greatest, second)
}

/// Whether an octet is from one to another.
fn is_from(least: u8, greatest: u8, octet: u8) -> bool
    ensures { result ≡ is_from least greatest octet }
{
    least <= octet && octet <= greatest
}
