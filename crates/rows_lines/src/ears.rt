//! What octets of a control connection say, and the memory that an ear asks for.
use crate::caller::events_in;
use crate::report::put_quoted;
use crate::row::LineRow;
use ftp_nvt::{Ear, Event, NvtFault};
use rows_base::{Paper, Refusing, number, split};
use std::alloc::{Allocator, Global};

/// Puts an event as text: a line between `<` and `>`, a line that is too long as `!`, an owed answer between `[` and `]`.
fn put_event(ear: &Ear<Global>, event: Event, said: &mut Paper) {
    match event {
        Event::More => {}
        Event::Line => put_between(b"<", ear.line(), b">", said),
        Event::TooLong => said.put(b"!"),
        Event::Owed(answer) => put_between(b"[", &answer, b"]", said),
    }
}

/// Puts the events of a piece.
fn put_events(ear: &mut Ear<Global>, piece: &[u8], said: &mut Paper) {
    let mut rest = piece;
    for _ in 0..=piece.len() {
        let heard = ear.feed(rest);
        put_event(ear, heard.event, said);
        rest = rest.split_at(heard.taken).1;
    }
}

fn put_between(front: &[u8], text: &[u8], back: &[u8], said: &mut Paper) {
    said.put(front);
    said.put(text);
    said.put(back);
}

/// Writes what octets say to an ear of the row's limit.
pub(crate) fn show(alloc: Global, row: &LineRow<'_>, paper: &mut Paper) {
    let mut said = Paper::new(alloc);
    match Ear::new(alloc, number(split(row.head).0) as usize) {
        Ok(mut ear) => put_events(&mut ear, row.octets, &mut said),
        Err(_) => said.fill(),
    }
    put_quoted(said.text(), paper);
}

/// Pieces for an ear of eight octets, and how long its unfinished line is then: three octets, none behind its end, none past the limit.
const MEASURED: [(&[u8], usize); 3] = [(b"abc", 3), (b"\r\n", 0), (b"123456789", 0)];

fn measures(alloc: Global) -> bool {
    let Ok(mut ear) = Ear::new(alloc, 8) else {
        return false;
    };
    let mut all = true;
    for (piece, octets) in MEASURED {
        let _events = events_in(&mut ear, piece);
        all &= ear.unfinished() == octets;
    }
    all
}

/// How many events an ear for eight octets gives, or that it wants memory.
fn events_with<A: Allocator + Copy>(alloc: A) -> Result<usize, NvtFault> {
    match Ear::new(alloc, 8) {
        Ok(mut ear) => Ok(events_in(&mut ear, b"1234567\n12345678\n\n")),
        Err(fault) => Err(fault),
    }
}

/// Whether an ear gives three events and asks for one growth, and wants memory where that is refused.
fn asks_once(alloc: Global) -> bool {
    let heap = Refusing::new(alloc, 2);
    let ample = events_with(&heap) == Ok(3) && heap.left() == 1;
    let heap = Refusing::new(alloc, 1);
    ample & (events_with(&heap) == Err(NvtFault::Memory))
}

/// What is tried here, and whether it holds.
pub(crate) fn tried(alloc: Global, report: &mut Paper) {
    report.holds("an unfinished line is measured", measures(alloc));
    report.holds("memory is asked for once", asks_once(alloc));
}
