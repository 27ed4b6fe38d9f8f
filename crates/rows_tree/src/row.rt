// A row: played whole, and again with each of its growths refused, or each call of its folder failing, in turn.
use crate::run::{play_over_folder, play_straying, play_tree};
use crate::told::TreeReport;
use crate::words::heading;
use rows_base::{Paper, Refusing, cut, number, row_in_front};
use std::alloc::Global;

/// Plays each row of a script. Rows are paragraphs.
pub fn play_all(alloc: Global, script: &[u8]) -> Paper {
    let mut paper = Paper::new(alloc);
    let mut rest = script;
    for _ in 0..script.len() {
        let (row, behind) = row_in_front(rest);
        play_row(alloc, row, &mut paper);
        if behind.is_empty() {
            break;
        }
        paper.put(b"\n");
        rest = behind;
    }
    paper
}

fn play_row(alloc: Global, row: &[u8], paper: &mut Paper) {
    let whole = run(alloc, row, 0, 0);
    paper.put(whole.paper.text());
    let limits = heading(row, b"growths");
    compare_count(whole.growths, limits, paper);
    if !limits.is_empty() {
        compare_growths(alloc, row, &whole, paper);
    }
    let calls = heading(row, b"mirrored");
    if !calls.is_empty() {
        compare_failures(alloc, row, whole.paper.text(), number(calls), paper);
    }
    let limits = heading(row, b"gives-up");
    compare_count(whole.growths, limits, paper);
    if !limits.is_empty() {
        compare_given_up(alloc, row, whole.growths, paper);
    }
}

/// What a row writes with that growth refused and that call of a folder failing, none for 0.
fn run(alloc: Global, row: &[u8], refused: u64, fails_at: u64) -> TreeReport {
    let ample = Refusing::new(alloc, 0);
    let heap = Refusing::new(alloc, refused);
    let mut told = TreeReport::new(alloc);
    play(alloc, &ample, &heap, row, fails_at, &mut told);
    told.growths = refused.wrapping_sub(heap.left());
    told
}

fn play<'a>(
    alloc: Global,
    ample: &'a Refusing<Global>,
    heap: &'a Refusing<Global>,
    row: &[u8],
    fails_at: u64,
    told: &mut TreeReport,
) {
    let fails = heading(row, b"fails");
    let strays = heading(row, b"strays");
    let is_mirrored = !heading(row, b"mirrored").is_empty();
    if is_mirrored || !fails.is_empty() {
        let fails_at = if is_mirrored { fails_at } else { number(fails) };
        play_over_folder(ample, heap, alloc, row, fails_at, told);
    } else if !strays.is_empty() {
        play_straying(ample, heap, alloc, row, strays, told);
    } else {
        play_tree(ample, heap, alloc, row, told);
    }
}

/// Says where a count is not within two limits, if there are any.
fn compare_count(count: u64, limits: &[u8], paper: &mut Paper) {
    let (least, most) = cut(limits, b' ');
    if !limits.is_empty() && (count < number(least) || number(most) < count) {
        paper.put(b"! growths: ");
        paper.number(count);
        paper.put(b"\n");
    }
}

fn differs(what: &[u8], number: u64, paper: &mut Paper) {
    paper.put(b"! otherwise at ");
    paper.put(what);
    paper.number(number);
    paper.put(b"\n");
}

/// Whether a row writes this with that growth refused or that call of a folder failing, and tells so many refusals.
fn is_same(
    alloc: Global,
    row: &[u8],
    (refused, fails_at): (u64, u64),
    whole: &[u8],
    (memory, device): (u64, u64),
) -> bool {
    let other = run(alloc, row, refused, fails_at);
    other.paper.text() == whole && other.memory == memory && other.device == device
}

/// Says which refused growth is not told just once, with all as before and then the same.
fn compare_growths(alloc: Global, row: &[u8], whole: &TreeReport, paper: &mut Paper) {
    for refused in 1..=whole.growths {
        if !is_same(alloc, row, (refused, 0), whole.paper.text(), (1, 0)) {
            differs(b"growth ", refused, paper);
        }
    }
}

/// The same of calls of a folder that fail; there is none of number 0, and none past the last.
fn compare_failures(alloc: Global, row: &[u8], whole: &[u8], calls: u64, paper: &mut Paper) {
    for call in 0..=calls.saturating_add(1) {
        let device = u64::from(1 <= call && call <= calls);
        if !is_same(alloc, row, (0, call), whole, (0, device)) {
            differs(b"call ", call, paper);
        }
    }
}

/// Says which refused growth is not one at which the run gives up.
fn compare_given_up(alloc: Global, row: &[u8], growths: u64, paper: &mut Paper) {
    for refused in 1..=growths {
        if run(alloc, row, refused, 0).memory != 1 {
            differs(b"growth ", refused, paper);
        }
    }
}
