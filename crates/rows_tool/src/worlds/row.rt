// Each row, as it is to be played.
use crate::worlds::beside::play_drawn;
use crate::worlds::desk::{PlayMode, RowOutput};
use crate::worlds::each::play_each;
use crate::worlds::making::{NO_WORLD, play};
use crate::worlds::stage::NO_MEMORY;
use crate::worlds::ways::play_ways;
use rows_base::{Paper, first_other, found, row_in_front, said};
use std::alloc::Global;

/// Plays each row of a script. Rows are paragraphs.
pub fn play_all(alloc: Global, script: &[u8]) -> Paper {
    let mut paper = Paper::new(alloc);
    let mut rest = script;
    for _ in 0..script.len() {
        if rest.is_empty() {
            break;
        }
        let (row, behind) = row_in_front(rest);
        play_row(alloc, row, &mut paper);
        paper.line(b"");
        rest = behind;
    }
    paper
}

fn play_row(alloc: Global, row: &[u8], paper: &mut Paper) {
    if let Some(event) = said(row, b"each") {
        play_each(alloc, row, event, paper);
    } else if said(row, b"in").is_some() {
        play_ways(alloc, row, paper);
    } else if let Some(count) = said(row, b"drawn") {
        play_drawn(alloc, row, count, paper);
    } else {
        play_lines(alloc, row, paper);
    }
}

/// Line by line; and again with each growth refused in turn, where the row says so.
fn play_lines(alloc: Global, row: &[u8], paper: &mut Paper) {
    let mut desk = RowOutput::new(alloc, PlayMode::Lines);
    let growths = play(alloc, row, 0, &mut desk);
    let whole = desk.paper.text();
    paper.put(whole);
    if said(row, b"growths").is_some() {
        for refused in 1..=growths {
            compare_growth(alloc, row, whole, refused, paper);
        }
    }
}

/// Says where a row goes otherwise by a refused growth and that is not told.
fn compare_growth(alloc: Global, row: &[u8], whole: &[u8], refused: u64, paper: &mut Paper) {
    let mut desk = RowOutput::new(alloc, PlayMode::Lines);
    play(alloc, row, refused, &mut desk);
    if !is_told(desk.calm, desk.paper.text(), whole) {
        tell_growth(refused, desk.paper.text(), paper);
    }
}

/// Lines by which a row tells that memory was refused.
const TOLD: &[(&'static [u8], bool)] = &[(NO_WORLD, true), (NO_MEMORY, true)];

/// Whether it is told where a text goes otherwise: by a call, or by a world that is calm no more.
fn is_told(calm: bool, text: &[u8], whole: &[u8]) -> bool {
    match first_other(text, whole) {
        Some(line) => !calm || found(TOLD, line, false),
        None => true,
    }
}

fn tell_growth(refused: u64, text: &[u8], paper: &mut Paper) {
    paper.put(b"! a refused growth is not told: ");
    paper.number(refused);
    paper.line(b"");
    paper.put(text);
}
