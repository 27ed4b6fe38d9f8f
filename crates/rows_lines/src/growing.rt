//! What is answered by means of memory: once with all that is asked for, and with each growth refused in turn.
use crate::report::put_quoted;
use crate::row::LineRow;
use crate::{commands, entries, replies, scripts, values};
use ftp_nvt::put_line;
use rows_base::{Paper, Refusing, number, split};
use std::alloc::{Allocator, Global};

/// What is asked.
#[derive(Clone, Copy)]
pub(crate) enum Asked {
    /// The line of a text.
    Line,
    /// The line that is written for what a line says.
    Command,
    /// The endpoint that a line says.
    CommandEndpoint,
    /// The line that is written of the entry that a line says.
    Entry,
    /// What one reader answers to lines.
    Reply,
    /// What a reply says.
    Value(values::Asked),
    /// How many orders a script has.
    Script,
}

fn put<A: Allocator + Copy>(
    heap: A,
    alloc: Global,
    asked: Asked,
    row: &LineRow<'_>,
    paper: &mut Paper,
) {
    match asked {
        Asked::Line => put_text(heap, row.octets, paper),
        Asked::Command => commands::put(heap, alloc, false, row.octets, paper),
        Asked::CommandEndpoint => commands::put(heap, alloc, true, row.octets, paper),
        Asked::Entry => entries::put(heap, row.octets, paper),
        Asked::Reply => replies::put(heap, alloc, row.text, paper),
        Asked::Value(asked) => values::put(heap, alloc, asked, row, paper),
        Asked::Script => scripts::put(heap, row.octets, paper),
    }
}

/// Puts the line of a text, behind another one.
fn put_text<A: Allocator + Copy>(heap: A, text: &[u8], paper: &mut Paper) {
    let front = b"220 Ready\r\n";
    let mut out = Vec::new(heap);
    let goes = out.extend_from_slice(front).is_ok() && put_line(text, &mut out).is_ok();
    put_behind(front, out.as_slice(), goes, paper);
}

/// Puts what is answered where this growth is refused. Gives how many growths are left.
fn growth(alloc: Global, asked: Asked, row: &LineRow<'_>, refused: u64, paper: &mut Paper) -> u64 {
    let heap = Refusing::new(alloc, refused);
    put(&heap, alloc, asked, row, paper);
    heap.left()
}

/// Whether memory is wanted where this growth is refused.
fn is_wanted(alloc: Global, asked: Asked, row: &LineRow<'_>, refused: u64, said: &[u8]) -> bool {
    let mut paper = Paper::new(alloc);
    let _left = growth(alloc, asked, row, refused, &mut paper);
    tells_it(asked, paper.text(), said)
}

/// Whether a text says that memory was wanted. A script may do with a smaller growth; a reader goes on as if it had been there.
fn tells_it(asked: Asked, text: &[u8], said: &[u8]) -> bool {
    match asked {
        Asked::Reply => text.strip_suffix(replies::WANTED) == Some(said),
        Asked::Script if text == said => true,
        _ => text.ends_with(b"Memory"),
    }
}

/// Whether so many growths are within the bounds of a row, which may have none.
fn is_within(growths: u64, bounds: &[u8]) -> bool {
    let (least, most) = split(bounds);
    most.is_empty() || number(least) <= growths && growths <= number(split(most).0)
}

/// Whether memory is wanted wherever one of these growths is refused. What was written asks for some.
fn each_is_wanted(
    alloc: Global,
    asked: Asked,
    row: &LineRow<'_>,
    growths: u64,
    said: &[u8],
) -> bool {
    let mut all = growths > 0 || !said.ends_with(b"\"");
    for refused in 1..=growths {
        all &= is_wanted(alloc, asked, row, refused, said);
    }
    all
}

/// Writes what is answered, and whether it is otherwise with a growth refused. The bounds say how many growths there may be.
pub(crate) fn show(alloc: Global, asked: Asked, row: &LineRow<'_>, paper: &mut Paper) {
    let mut said = Paper::new(alloc);
    let growths = 0u64.wrapping_sub(growth(alloc, asked, row, 0, &mut said));
    paper.put(said.text());
    if !each_is_wanted(alloc, asked, row, growths, said.text()) || !is_within(growths, row.head) {
        paper.put(b", but otherwise with a growth refused");
    }
}

/// Puts what was written behind octets that stood there; or that memory is wanted, where they stand alone, as before.
pub(crate) fn put_behind(front: &[u8], out: &[u8], goes: bool, paper: &mut Paper) {
    match out.strip_prefix(front) {
        Some(behind) if goes => put_quoted(behind, paper),
        Some([]) => paper.put(b"Memory"),
        None if !goes && out.is_empty() => paper.put(b"Memory"),
        _ => paper.put(b"WRONG"),
    }
}
