//! Files to wires, and wires to files.
use crate::report::{put_printed, put_quoted};
use crate::row::{LineRow, form_of};
use ftp_mode::FrameFault;
use ftp_settings::Representation;
use ftp_wire::{Decoded, Decoder, Encoder};
use rows_base::{Paper, number, split};
use std::alloc::Global;

/// Writes the wire of the row's file in a representation; markers are counted from a start where the row has one.
pub(crate) fn show_wire(alloc: Global, row: &LineRow<'_>, paper: &mut Paper) {
    let (letters, start) = split(row.head);
    let mut wire = Paper::new(alloc);
    let mut encoder = encoder(form_of(letters), split(start).0);
    if !encode(&mut encoder, row.octets, &mut wire) {
        wire.put(b" and more");
    }
    put_quoted(wire.text(), paper);
}

fn encoder(form: Representation, start: &[u8]) -> Encoder {
    if start.is_empty() {
        Encoder::new(form)
    } else {
        Encoder::marked(form, number(start))
    }
}

/// Puts the wire of a file. Whether all of it is out.
fn encode(encoder: &mut Encoder, file: &[u8], wire: &mut Paper) -> bool {
    let mut room = [0; 4_096];
    let mut rest = file;
    for _ in 0..100 {
        let encoded = encoder.put(rest, true, &mut room);
        wire.put(room.split_at(encoded.made).0);
        rest = rest.split_at(encoded.taken).1;
    }
    rest.is_empty() && encoder.is_done() && encoder.is_out(true)
}

/// Writes the file that the row's wire gives once it has ended, and its fault.
pub(crate) fn show_file(alloc: Global, row: &LineRow<'_>, paper: &mut Paper) {
    let mut decoder = Decoder::new(form_of(row.head), Vec::new(alloc));
    let fault = match hear(&mut decoder, row.octets) {
        None => end(&mut decoder),
        met => met,
    };
    put_quoted(decoder.sink().as_slice(), paper);
    if let Some(fault) = fault {
        paper.put(b" ");
        put_printed(alloc, &fault, paper);
    }
}

/// Writes the file that it gives where it broke.
pub(crate) fn show_broken(alloc: Global, row: &LineRow<'_>, paper: &mut Paper) {
    let mut decoder = Decoder::new(form_of(row.head), Vec::new(alloc));
    let _fault = hear(&mut decoder, row.octets);
    put_quoted(decoder.sink().as_slice(), paper);
}

/// Hands a decoder a wire up to its fault, which it gives.
fn hear(decoder: &mut Decoder<Vec<u8>>, wire: &[u8]) -> Option<FrameFault> {
    let mut rest = wire;
    for _ in 0..wire.len() {
        let taken = decoder.hear(rest, 1_000_000);
        if let Decoded::Faulty(fault) = taken.heard {
            return Some(fault);
        }
        rest = rest.split_at(taken.count).1;
    }
    None
}

/// Ends a file that is whole, or gives the fault that it is not.
fn end(decoder: &mut Decoder<Vec<u8>>) -> Option<FrameFault> {
    if decoder.is_whole() && decoder.end().is_ok() {
        None
    } else {
        Some(FrameFault::EndedEarly)
    }
}
