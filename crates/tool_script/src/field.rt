// A field: octets, some of them written by an escape.
ghost use Rattle.std.specs.Prelude.{◌≡◌, ◌≤◌, ◌<◌, ◌+◌, ◌++◌, ◌∷◌, [], Some, true, flat_map, length, OnOk, IfOk, IfErr, IfSome, take};
ghost use Rattle.std.specs.List.{list_all};
ghost use Rattle.tool_script.specs.Field.{Between, Escape, High, SaysFirst, SaysFront, SaysOn, digits_octet, field_text, field_value, is_plain, letter_octet, said_from, with_front, written};
ghost use Rattle.tool_script.specs.Line.{Reads};

use crate::escapes::{ROOM, fill_by_eights};
use crate::fault::LineFault;
use crate::plain::{LANES, are_plain, are_plain_in_lanes, is_plain};
use crate::tables::{digit_value, escape_of};
use ftp_facts::Text;
use std::alloc::{AllocError, Allocator};

/// The octets that a field says.
pub fn octets_of<A: Allocator + Copy>(alloc: A, field: &[u8]) -> Result<Text<A>, LineFault>
    // Witness: an equation, where memory is not refused: a field says one row of octets, or none.
    ensures { Reads (λ octets. octets) result (field_value field.now) }
{
    if field == b"\\e".as_slice() {
        copied(alloc, b"")
    } else if field.is_empty() {
        Err(LineFault::Unfit)
    } else {
        said(alloc, field)
    }
}

fn copied<A: Allocator + Copy>(alloc: A, octets: &[u8]) -> Result<Text<A>, LineFault>
    ensures { Reads (λ text. text) result (Some octets.now) }
{
    match Text::copy_of(alloc, octets) {
        Ok(text) => Ok(text),
        Err(AllocError) => Err(LineFault::Memory),
    }
}

/// The octets that a text says: where none is escaped, those of the text, which are copied in one go.
#[tactic(auto, using(crate::proofs::PlainLemmas::plain_said))]
fn said<A: Allocator + Copy>(alloc: A, text: &[u8]) -> Result<Text<A>, LineFault>
    ensures { Reads (λ octets. octets) result (said_from text.now Between) }
{
    if are_plain(text) {
        copied(alloc, text)
    } else {
        said_each(alloc, text)
    }
}

/// The octets that a text says, one after another. Room for all that it can say is asked for at once, and what it does not take is given back.
#[tactic(auto, using(crate::proofs::FieldLemmas::alone))]
fn said_each<A: Allocator + Copy>(alloc: A, text: &[u8]) -> Result<Text<A>, LineFault>
    ensures { Reads (λ octets. octets) result (said_from text.now Between) }
{
    let Ok(mut octets) = Vec::with_capacity(alloc, text.len()) else {
        return Err(LineFault::Memory);
    };
    match put_said(text, &mut octets) {
        Ok(()) => {
            octets.shrink_to_fit();
            Ok(Text::from_vec(octets))
        }
        Err(fault) => Err(fault),
    }
}

/// Appends the octets that a text says.
fn put_said<A: Allocator + Copy>(text: &[u8], out: &mut Vec<u8, A>) -> Result<(), LineFault>
    ensures { Reads (λ _. out.new.items) result (with_front out.old.items (said_from text.now Between)) }
{
    let mut rest = text;
    while !rest.is_empty() {
        match put_next(rest, out) {
            Ok(left) => rest = left,
            Err(fault) => return Err(fault),
        }
    }
    Ok(())
}

/// Appends the octets that are said first: a vector of those that stand for themselves, or a room of whichever; gives what is left of the text.
fn put_next<'a, A: Allocator + Copy>(
    text: &'a [u8],
    out: &mut Vec<u8, A>,
) -> Result<&'a [u8], LineFault>
    ensures says { SaysOn (λ left. left.now) text.now Between out.old.items out.new.items result }
    ensures less { 0 < length text.now → IfOk result (λ left. length left.now < length text.now) }
{
    if text.len() >= LANES {
        let (front, behind) = text.split_at(LANES);
        if are_plain_in_lanes(front) {
            return put_before(front, behind, out);
        }
    }
    put_room(text, out)
}

/// Appends a room of the octets that are said first, by eights where they begin with eight by digits; gives what is left.
fn put_room<'a, A: Allocator + Copy>(
    text: &'a [u8],
    out: &mut Vec<u8, A>,
) -> Result<&'a [u8], LineFault>
    ensures says { SaysOn (λ left. left.now) text.now Between out.old.items out.new.items result }
    ensures less { 0 < length text.now → IfOk result (λ left. length left.now < length text.now) }
{
    let mut room = [0u8; ROOM];
    let (count, left) = fill_by_eights(text, &mut room);
    if count > 0 {
        let (said, _) = room.split_at(count);
        return put_before(said, left, out);
    }
    put_each(text, &mut room, out)
}

/// The same, one after another.
fn put_each<'a, A: Allocator + Copy>(
    text: &'a [u8],
    room: &mut [u8; ROOM],
    out: &mut Vec<u8, A>,
) -> Result<&'a [u8], LineFault>
    ensures says { SaysOn (λ left. left.now) text.now Between out.old.items out.new.items result }
    ensures less { 0 < length text.now → IfOk result (λ left. length left.now < length text.now) }
{
    let Some((count, left)) = fill(text, room) else {
        return Err(LineFault::Unfit);
    };
    let (said, _) = room.split_at(count);
    put_before(said, left, out)
}

/// Appends octets, and gives what is behind them.
fn put_before<'a, A: Allocator + Copy>(
    octets: &[u8],
    behind: &'a [u8],
    out: &mut Vec<u8, A>,
) -> Result<&'a [u8], LineFault>
    ensures ok { IfOk result (λ left. (left.now ≡ behind.now) × (out.new.items ≡ out.old.items ++ octets.now)) }
    ensures memory { IfErr result (λ fault. fault ≡ LineFault.Memory) }
{
    match out.extend_from_slice(octets) {
        Ok(()) => Ok(behind),
        Err(AllocError) => Err(LineFault::Memory),
    }
}

/// Fills a room with the octets that are said first; gives how many there are, and what is left of the text.
fn fill<'a>(text: &'a [u8], room: &mut [u8; ROOM]) -> Option<(usize, &'a [u8])>
    ensures says { SaysFront (λ left. left.now) text.now room.new result }
    ensures within { IfSome result (λ filled. filled.0 ≤ ROOM) }
    ensures less { 0 < length text.now → IfSome result (λ filled. length filled.1.now < length text.now) }
{
    let mut count = 0;
    let mut rest = text;
    while count < ROOM {
        let [octet, behind @ ..] = rest else {
            return Some((count, rest));
        };
        let Some((said, left)) = first_said(*octet, behind) else {
            return None;
        };
        room[count] = said;
        count += 1;
        rest = left;
    }
    Some((count, rest))
}

/// The octet that a text says first, by itself or by an escape, and what is left of the text.
fn first_said(octet: u8, behind: &[u8]) -> Option<(u8, &[u8])>
    ensures says { SaysFirst (λ left. left.now) (octet ∷ behind.now) Between result }
    ensures less { IfSome result (λ said. length said.1.now ≤ length behind.now) }
{
    if octet == b'\\' {
        return escaped(behind);
    }
    if is_plain(octet) {
        Some((octet, behind))
    } else {
        None
    }
}

/// The same behind a backslash.
fn escaped(text: &[u8]) -> Option<(u8, &[u8])>
    ensures says { SaysFirst (λ left. left.now) text.now Escape result }
    ensures less { IfSome result (λ said. length said.1.now ≤ length text.now) }
{
    let [letter, behind @ ..] = text else {
        return None;
    };
    if *letter == b'x' {
        return by_digits(behind);
    }
    match letter_octet(*letter) {
        Some(octet) => Some((octet, behind)),
        None => None,
    }
}

/// The same behind a backslash and `x`.
fn by_digits(text: &[u8]) -> Option<(u8, &[u8])>
    ensures says { SaysFirst (λ left. left.now) text.now High result }
    ensures less { IfSome result (λ said. length said.1.now ≤ length text.now) }
{
    let [high, low, behind @ ..] = text else {
        return None;
    };
    match digits_octet(*high, *low) {
        Some(octet) => Some((octet, behind)),
        None => None,
    }
}

fn letter_octet(letter: u8) -> Option<u8>
    ensures { result ≡ letter_octet letter }
{
    match letter {
        b's' => Some(b' '),
        b'n' => Some(b'\n'),
        b'r' => Some(b'\r'),
        b'\\' => Some(b'\\'),
        _ => None,
    }
}

fn digits_octet(high: u8, low: u8) -> Option<u8>
    ensures { result ≡ digits_octet high low }
{
    let Some(high) = digit_value(high) else {
        return None;
    };
    let Some(low) = digit_value(low) else {
        return None;
    };
    Some(16 * high + low)
}

/// Appends the field that says these octets. Refused memory, a part of it may stand there. Octets that stand for themselves go in one go.
pub fn put_field<A: Allocator + Copy>(octets: &[u8], out: &mut Vec<u8, A>) -> Result<(), AllocError>
    ensures { OnOk result (out.new.items ≡ out.old.items ++ field_text octets.now) }
{
    if octets.is_empty() {
        return out.extend_from_slice(b"\\e");
    }
    if are_plain(octets) {
        return put_plain(octets, out);
    }
    put_octets(octets, out)
}

/// Appends octets that stand for themselves.
#[tactic(auto, using(crate::proofs::PlainLemmas::plain_put))]
fn put_plain<A: Allocator + Copy>(octets: &[u8], out: &mut Vec<u8, A>) -> Result<(), AllocError>
    requires { list_all is_plain octets.now ≡ true }
    ensures { OnOk result (out.new.items ≡ out.old.items ++ flat_map written octets.now) }
{
    out.extend_from_slice(octets)
}

/// Appends octets as a field has them.
fn put_octets<A: Allocator + Copy>(octets: &[u8], out: &mut Vec<u8, A>) -> Result<(), AllocError>
    ensures { OnOk result (out.new.items ≡ out.old.items ++ flat_map written octets.now) }
{
    let mut rest = octets;
    while !rest.is_empty() {
        match put_some(rest, out) {
            Ok(left) => rest = left,
            Err(AllocError) => return Err(AllocError),
        }
    }
    Ok(())
}

/// Appends the first octets: a vector of those that stand for themselves, or a room of whichever; gives what is left.
fn put_some<'a, A: Allocator + Copy>(
    octets: &'a [u8],
    out: &mut Vec<u8, A>,
) -> Result<&'a [u8], AllocError>
    ensures put { IfOk result (λ left. out.new.items ++ flat_map written left.now ≡ out.old.items ++ flat_map written octets.now) }
    ensures less { 0 < length octets.now → IfOk result (λ left. length left.now < length octets.now) }
{
    if octets.len() >= LANES {
        let (front, left) = octets.split_at(LANES);
        if are_plain_in_lanes(front) {
            put_plain(front, out)?;
            return Ok(left);
        }
    }
    put_written(octets, out)
}

/// Appends a room of the first octets; gives what is left.
fn put_written<'a, A: Allocator + Copy>(
    octets: &'a [u8],
    out: &mut Vec<u8, A>,
) -> Result<&'a [u8], AllocError>
    ensures put { IfOk result (λ left. out.new.items ++ flat_map written left.now ≡ out.old.items ++ flat_map written octets.now) }
    ensures less { 0 < length octets.now → IfOk result (λ left. length left.now < length octets.now) }
{
    let mut room = [0u8; ROOM];
    let (count, left) = write_front(octets, &mut room);
    let (front, _) = room.split_at(count);
    out.extend_from_slice(front)?;
    Ok(left)
}

/// Writes the first octets into a room; gives how much of it they take, and what is left of them.
fn write_front<'a>(octets: &'a [u8], room: &mut [u8; ROOM]) -> (usize, &'a [u8])
    ensures within { result.0 ≤ ROOM }
    ensures front { take result.0 room.new ++ flat_map written result.1.now ≡ flat_map written octets.now }
    ensures less { 0 < length octets.now → length result.1.now < length octets.now }
{
    let mut count = 0;
    let mut rest = octets;
    while count <= ROOM - 4 {
        let [octet, behind @ ..] = rest else {
            return (count, rest);
        };
        count = write_at(*octet, room, count);
        rest = behind;
    }
    (count, rest)
}

/// Writes an octet into a room from a place on; gives the place behind it.
fn write_at(octet: u8, room: &mut [u8; ROOM], at: usize) -> usize
    requires { at + 4 ≤ ROOM }
    ensures within { result ≤ at + 4 }
    ensures front { take result room.new ≡ take at room.old ++ written octet }
{
    let ([first, second, third, fourth], count) = escape_of(octet);
    room[at] = first;
    room[at + 1] = second;
    room[at + 2] = third;
    room[at + 3] = fourth;
    at + count
}
