//! What a deframer and a decoder tell of each piece of a wire.
use crate::report::{put_printed, put_quoted};
use crate::row::{LineRow, form_of, octets_in};
use ftp_mode::{Deframer, Part};
use ftp_wire::{Decoded, Decoder, Taken};
use rows_base::{Paper, Refusing, number, quoted, split};
use std::alloc::{Allocator, Global};

/// Writes what a deframer gives for each piece, at a break and at the end.
pub(crate) fn show_parts(alloc: Global, row: &LineRow<'_>, paper: &mut Paper) {
    let (letters, pieces) = split(row.text);
    let form = form_of(letters);
    let mut deframer = Deframer::new(form.mode, form.structure);
    let mut rest = pieces;
    for _ in 0..pieces.len() {
        if rest.is_empty() {
            break;
        }
        if rest.len() < pieces.len() {
            paper.put(b"; ");
        }
        let (word, behind) = quoted(rest);
        give(alloc, &mut deframer, (rest, word), paper);
        rest = behind;
    }
}

/// Octets between double quotes are fed, and else a word says what comes.
fn give(alloc: Global, deframer: &mut Deframer, (text, word): (&[u8], &[u8]), paper: &mut Paper) {
    match text {
        [b'"', ..] => feed(alloc, deframer, octets_in(alloc, word).text(), paper),
        [b'b', ..] => {
            deframer.broken();
            paper.put(b"broken");
        }
        _ => match deframer.end() {
            Ok(()) => paper.put(b"ended"),
            Err(fault) => put_printed(alloc, &fault, paper),
        },
    }
}

/// Puts how many octets are taken, and what comes of them.
fn feed(alloc: Global, deframer: &mut Deframer, piece: &[u8], paper: &mut Paper) {
    let is_marker = match deframer.feed(piece) {
        Ok(step) => {
            paper.number(step.taken as u64);
            put_part(step.part, paper)
        }
        Err(fault) => {
            paper.number(deframer.taken_with_fault() as u64);
            paper.put(b" ");
            put_printed(alloc, &fault, paper);
            false
        }
    };
    if is_marker {
        put_quoted(deframer.marker(), paper);
    }
}

/// Puts what comes of a piece. Says whether that is a marker.
fn put_part(part: Part<'_>, paper: &mut Paper) -> bool {
    match part {
        Part::Need => {}
        Part::Data(octets) => {
            paper.put(b" data ");
            put_quoted(octets, paper);
        }
        Part::EndRecord => paper.put(b" end of record"),
        Part::EndFile => paper.put(b" end of file"),
        Part::Marker => {
            paper.put(b" marker ");
            return true;
        }
    }
    false
}

/// Writes what a decoder tells of each piece, with a room of so many octets and where this growth is refused.
pub(crate) fn show_told(alloc: Global, row: &LineRow<'_>, paper: &mut Paper) {
    let (letters, words) = split(row.text);
    let (room, words) = split(words);
    let (refused, pieces) = split(words);
    let heap = Refusing::new(alloc, number(refused));
    let mut decoder = Decoder::new(form_of(letters), Vec::new(&heap));
    tell_pieces(alloc, &mut decoder, pieces, number(room), paper);
}

fn tell_pieces<A: Allocator + Copy>(
    alloc: Global,
    decoder: &mut Decoder<Vec<u8, A>>,
    pieces: &[u8],
    room: u64,
    paper: &mut Paper,
) {
    let mut rest = pieces;
    for _ in 0..pieces.len() {
        if rest.is_empty() {
            break;
        }
        if rest.len() < pieces.len() {
            paper.put(b"; ");
        }
        let (word, behind) = quoted(rest);
        match rest {
            [b'"', ..] => tell(alloc, decoder, octets_in(alloc, word).text(), room, paper),
            _ => put_settled(decoder.len(), decoder.is_whole(), paper),
        }
        rest = behind;
    }
}

/// Puts how many octets of the file are settled, and whether they may be all.
fn put_settled(count: u64, is_whole: bool, paper: &mut Paper) {
    paper.number(count);
    paper.put(if is_whole {
        b" whole".as_slice()
    } else {
        b" so far"
    });
}

fn tell<A: Allocator + Copy>(
    alloc: Global,
    decoder: &mut Decoder<Vec<u8, A>>,
    piece: &[u8],
    room: u64,
    paper: &mut Paper,
) {
    let taken = decoder.hear(piece, room);
    put_taken(alloc, taken, paper);
    if taken.mark.is_some() {
        put_quoted(decoder.marker(), paper);
    }
}

/// Puts how many octets were taken, at how many of the file a marker ended, and what the last told.
fn put_taken(alloc: Global, taken: Taken, paper: &mut Paper) {
    paper.number(taken.count as u64);
    if let Some(mark) = taken.mark {
        paper.put(b" mark at ");
        paper.number(mark);
        paper.put(b" ");
    }
    match taken.heard {
        Decoded::More => {}
        Decoded::Over => paper.put(b" over"),
        Decoded::NoMemory => paper.put(b" no memory"),
        Decoded::Faulty(fault) => {
            paper.put(b" ");
            put_printed(alloc, &fault, paper);
        }
    }
}
