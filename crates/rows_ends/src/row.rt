// A row: played whole, in pieces, and with each of its growths refused in turn.
use crate::desk::{Desk, WrittenRow};
use crate::driven::again;
use crate::turn::{RowSettings, RowTurn, Side};
use crate::{client, server};
use rows_base::{Paper, cut, first_other, found, number, said};
use std::alloc::Global;

/// Plays a row on its end in this manner.
pub fn played(turn: RowTurn<'_>, manner: RowSettings) -> WrittenRow {
    let mut desk = Desk::new(turn, manner);
    let growths = if turn.side.is_client {
        client::run(turn, manner.refused, &mut desk)
    } else {
        server::run(turn, manner.refused, &mut desk)
    };
    desk.seen(growths)
}

/// With this growth refused, none at 0.
fn refused(turn: RowTurn<'_>, growth: u64) -> WrittenRow {
    played(
        turn,
        RowSettings {
            refused: growth,
            ..turn.side.whole()
        },
    )
}

/// What a row writes; behind it stands where it goes otherwise as it is played again.
pub fn play_row(alloc: Global, side: Side, row: &[u8], paper: &mut Paper) {
    let turn = RowTurn {
        alloc,
        side,
        row,
        whole: None,
    };
    let seen = refused(turn, 0);
    paper.put(seen.paper.text());
    if seen.paper.is_full() {
        paper.line(b"= no memory");
    }
    play_again(turn, seen.paper.text(), seen.growths, paper);
    paper.put(b"\n");
}

/// Plays a row again that wrote this and asked for so many growths, in each way that there is for it.
fn play_again(turn: RowTurn<'_>, whole: &[u8], growths: u64, paper: &mut Paper) {
    in_pieces(turn, whole, paper);
    again(turn, whole, paper);
    if turn.side.is_client || said(turn.row, b"growths").is_some() {
        each_growth(turn, whole, paper);
    }
    if said(turn.row, b"refusals").is_some() || said(turn.row, b"failures").is_some() {
        each_refusal(turn, growths, paper);
    }
}

/// What is written with each of so many growths of a list's memory, or of a server's, refused.
fn each_refusal(turn: RowTurn<'_>, growths: u64, paper: &mut Paper) {
    for growth in 1..=growths {
        let seen = refused(turn, growth);
        put_other(b"= at growth ", growth, seen.paper.text(), paper);
    }
}

/// In pieces of each size.
fn in_pieces(turn: RowTurn<'_>, whole: &[u8], paper: &mut Paper) {
    for size in 1..=pieces(turn).min(1_000) {
        in_piece(turn, size, whole, paper);
    }
}

fn in_piece(turn: RowTurn<'_>, size: u64, whole: &[u8], paper: &mut Paper) {
    let seen = played(
        turn,
        RowSettings {
            size: size as usize,
            ..turn.side.whole()
        },
    );
    if seen.paper.text() != whole {
        put_other(b"= otherwise in pieces of ", size, seen.paper.text(), paper);
    }
}

/// The greatest size of `in pieces of 1 to 12`; where there is no such line, that of the end.
fn pieces(turn: RowTurn<'_>) -> u64 {
    match said(turn.row, b"in") {
        Some(said) => number(cut(said, b'1').1.strip_prefix(b" to ").unwrap_or(b"")),
        None => turn.side.pieces,
    }
}

/// What was played otherwise, and how.
fn put_other(mark: &[u8], number: u64, text: &[u8], paper: &mut Paper) {
    paper.put(mark);
    paper.number(number);
    paper.put(b"\n");
    paper.put(text);
}

/// Says where a refused growth is not told, or leaves another tree than one of the row's.
fn each_growth(turn: RowTurn<'_>, whole: &[u8], paper: &mut Paper) {
    let turn = RowTurn {
        whole: Some(whole),
        ..turn
    };
    let seen = refused(turn, 0);
    if seen.growths < 2 {
        paper.line(b"= no growths");
    }
    for growth in 1..=seen.growths {
        at_growth(turn, growth, (whole, seen.trees.as_slice()), paper);
    }
}

fn at_growth(turn: RowTurn<'_>, growth: u64, (whole, trees): (&[u8], &[Paper]), paper: &mut Paper) {
    let seen = refused(turn, growth);
    let is_told = is_told(turn.side.is_client, seen.paper.text(), whole);
    if !is_told || !ends_among(seen.trees.last(), trees) {
        put_other(b"= otherwise at growth ", growth, seen.paper.text(), paper);
    }
}

/// Lines by which a client tells that memory was refused.
const TOLD: &[(&'static [u8], bool)] = &[
    (b"= memory", true),
    (b"! no memory", true),
    (b"! no client", true),
    (b"? close all", true),
];

/// Whether the first line of a text that is another one tells it.
fn is_told(is_client: bool, text: &[u8], whole: &[u8]) -> bool {
    match first_other(text, whole) {
        Some(line) => tells(is_client, line),
        None => true,
    }
}

fn tells(is_client: bool, line: &[u8]) -> bool {
    if is_client {
        found(TOLD, line, false)
    } else {
        line.starts_with(b"< 451 ") || line.starts_with(b"= not begun")
    }
}

/// Whether the last tree, where there is one, is one of these.
fn ends_among(last: Option<&Paper>, trees: &[Paper]) -> bool {
    let Some(last) = last else {
        return true;
    };
    for other in trees {
        if last.text() == other.text() {
            return true;
        }
    }
    false
}
