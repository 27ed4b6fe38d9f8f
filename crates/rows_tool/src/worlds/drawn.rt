// Orders that are drawn.
use rows_base::{cut, octets_of, split};
use std::alloc::{AllocError, Global};

/// How an order is written, by letters behind its verb: a path, another one, how octets go, a number, octets.
const FORMS: &'static [u8] = b"where/up/cd P/mkdir P/rmdir P/delete P/modified P/facts P/rename PQ/\
get HP/size HP/list HP/names HP/getfrom HPN/peek HPN/put HPT/append HPT/putfrom HPNT";

const PATHS: &'static [u8] = b"a/b/c/d";

const NUMBERS: &'static [u8] = b"0/1/2/3/5/9/12/40";

const OCTETS: &'static [u8] = b"\\e/x/ab\\n/\\r\\n/\\xff\\xff/0123456789/\\n\\n/a\\rb";

/// What an order is drawn from.
#[derive(Clone, Copy)]
struct Draw {
    path: u8,
    other: u8,
    how: u8,
    number: u8,
    octets: u8,
}

/// So many orders, as lines of a row, each with a line behind it by which all settles; each takes six octets of the drawn sequence.
pub fn drawn_orders(alloc: Global, count: u64) -> Result<Vec<u8>, AllocError> {
    let drawn = octets_of(alloc, b"%100000")?;
    let mut lines = Vec::new(alloc);
    let mut rest = drawn.as_slice();
    for _ in 0..count {
        let [form, path, other, how, number, octets, behind @ ..] = rest else {
            break;
        };
        let draw = Draw {
            path: *path,
            other: *other,
            how: *how,
            number: *number,
            octets: *octets,
        };
        put_order(nth(FORMS, *form % 18), draw, &mut lines)?;
        rest = behind;
    }
    Ok(lines)
}

fn put_order(form: &[u8], draw: Draw, lines: &mut Vec<u8>) -> Result<(), AllocError> {
    let (verb, letters) = split(form);
    lines.extend_from_slice(b"> ")?;
    lines.extend_from_slice(verb)?;
    for letter in letters {
        lines.extend_from_slice(b" ")?;
        put_field(*letter, draw, lines)?;
    }
    lines.extend_from_slice(b"\nsettle\n")
}

fn put_field(letter: u8, draw: Draw, lines: &mut Vec<u8>) -> Result<(), AllocError> {
    match letter {
        b'P' => lines.extend_from_slice(nth(PATHS, draw.path % 4)),
        b'Q' => lines.extend_from_slice(nth(PATHS, draw.other % 4)),
        b'N' => lines.extend_from_slice(nth(NUMBERS, draw.number % 8)),
        b'T' => lines.extend_from_slice(nth(OCTETS, draw.octets % 8)),
        _ => put_how(draw.how, lines),
    }
}

/// How octets go: a bit for each letter; with markers, where the two behind them are set.
fn put_how(how: u8, lines: &mut Vec<u8>) -> Result<(), AllocError> {
    lines.extend_from_slice(&[
        one_of(how, b'I', b'A'),
        one_of(how / 2, b'F', b'R'),
        one_of(how / 4, b'S', b'B'),
        one_of(how / 8, b'p', b'a'),
        one_of(how / 16, b'n', b'e'),
    ])?;
    if how / 32 % 4 == 3 {
        lines.extend_from_slice(b"m")?;
    }
    Ok(())
}

fn one_of(bits: u8, even: u8, odd: u8) -> u8 {
    if bits % 2 == 0 { even } else { odd }
}

/// The word with this number, from 0, of those that `/` parts.
fn nth(words: &[u8], number: u8) -> &[u8] {
    let mut rest = words;
    for _ in 0..number {
        rest = cut(rest, b'/').1;
    }
    cut(rest, b'/').0
}
