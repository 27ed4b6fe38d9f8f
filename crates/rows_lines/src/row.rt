//! What stands on a line of the script.
use crate::report::fill;
use ftp_settings::{Kind, Mode, Representation, Structure};
use rows_base::{Paper, cut, number, octets_of};
use std::alloc::Global;

/// What stands behind the word of a line: small words, and then octets between double quotes.
#[derive(Drop)]
pub(crate) struct LineRow<'a> {
    /// All of it, as it is written.
    pub text: &'a [u8],
    /// The small words.
    pub head: &'a [u8],
    /// The first octets that are quoted.
    pub octets: &'a [u8],
}

/// The octets of a text, in which `[8192x]` is so many of one.
pub(crate) fn octets_in(alloc: Global, text: &[u8]) -> Paper {
    let mut octets = Paper::new(alloc);
    let mut rest = text;
    for _ in 0..text.len() {
        if rest.is_empty() {
            break;
        }
        let (written, run) = cut(rest, b'[');
        if let Ok(some) = octets_of(alloc, written) {
            octets.put(some.as_slice());
        }
        let (run, behind) = cut(run, b']');
        if let [digits @ .., octet] = run {
            fill(&mut octets, *octet, number(digits) as usize);
        }
        rest = behind;
    }
    octets
}

/// The representation of up to three letters: A or I, F or R, S or B.
pub(crate) fn form_of(letters: &[u8]) -> Representation {
    Representation {
        kind: kind_of(letters),
        structure: structure_of(letters),
        mode: mode_of(letters),
    }
}

pub(crate) fn kind_of(letters: &[u8]) -> Kind {
    match letters {
        [b'A', ..] => Kind::Ascii,
        _ => Kind::Image,
    }
}

pub(crate) fn structure_of(letters: &[u8]) -> Structure {
    match letters {
        [_, b'R', ..] => Structure::Record,
        _ => Structure::File,
    }
}

fn mode_of(letters: &[u8]) -> Mode {
    match letters {
        [_, _, b'B', ..] => Mode::Block,
        _ => Mode::Stream,
    }
}
