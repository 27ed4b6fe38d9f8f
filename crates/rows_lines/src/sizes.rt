//! Sizes on the wire, runs, and places in a file.
use crate::row::{LineRow, kind_of};
use ftp_repr::{Kind, Skipped, Structure, first_ff, plain_run, skip, wire_size};
use rows_base::{Paper, number, split};

/// Writes the sizes of octets in type A and in type I.
pub(crate) fn show_sizes(octets: &[u8], paper: &mut Paper) {
    paper.number(wire_size(Kind::Ascii, octets));
    paper.put(b" ");
    paper.number(wire_size(Kind::Image, octets));
}

/// Writes how many octets go as they are in type A and in type I, and how many stand before an octet 255.
pub(crate) fn show_run(row: &LineRow<'_>, paper: &mut Paper) {
    let structure = match row.head {
        [b'R', ..] => Structure::Record,
        _ => Structure::File,
    };
    paper.number(plain_run(Kind::Ascii, structure, row.octets) as u64);
    paper.put(b" ");
    paper.number(plain_run(Kind::Image, structure, row.octets) as u64);
    paper.put(b" ");
    paper.number(first_ff(row.octets) as u64);
}

/// A line end and a carriage return: seven octets in type A.
const FILE: &[u8] = b"a\nb\rc";

/// Writes where so many octets of the wire lead to in the file.
pub(crate) fn show_skipped(row: &[u8], paper: &mut Paper) {
    let (letter, left) = split(row);
    match skip(kind_of(letter), number(left), FILE) {
        Skipped::Within(place) => {
            paper.put(b"within ");
            paper.number(place as u64);
        }
        Skipped::Left(left) => {
            paper.put(b"left ");
            paper.number(left);
        }
        Skipped::Inside => paper.put(b"inside"),
    }
}
