// Scripts, as the program `pair` plays them.
use rows_base::{FailingReader, FailingWriter, Paper, Refusing, cut, row_in_front, split};
use std::alloc::Global;
use tool_pair::{PairSettings, pair};
use tool_terminal::Status;

/// The most octets of a round, of the pieces that a script is played by again.
const PIECES: &[u32] = &[1, 7];

/// Plays each row: what it writes by rounds without a limit, whether that is the same by small pieces, and with each growth refused, where that is asked for.
pub fn play_all(alloc: Global, rows: &[u8]) -> Paper {
    let mut paper = Paper::new(alloc);
    let mut rest = rows;
    for _ in 0..rows.len() {
        if rest.is_empty() {
            break;
        }
        let (row, others) = row_in_front(rest);
        let (row, _) = rest.split_at(row.len().saturating_add(1).min(rest.len()));
        play_row(alloc, row, &mut paper);
        rest = others;
    }
    paper
}

/// A row: its name, words of how it is played, and a script.
fn play_row(alloc: Global, row: &[u8], paper: &mut Paper) {
    let (name, row) = cut(row, b'\n');
    let (words, script) = cut(row, b'\n');
    let script = script_of(words, script);
    paper.line(name);
    paper.line(words);
    let whole = play_with(alloc, words, script, 0, 0);
    paper.put(whole.paper.text());
    for piece in PIECES {
        let again = play_with(alloc, words, script, *piece, 0);
        compare(*piece, whole.paper.text(), again.paper.text(), paper);
    }
    if has(words, b"refused") {
        refuse_each(alloc, words, script, &whole, paper);
    }
    paper.line(b"");
}

/// The script of a row: its last line has its LF, unless the words say `unended`.
fn script_of<'a>(words: &[u8], lines: &'a [u8]) -> &'a [u8] {
    if has(words, b"unended") {
        return lines.strip_suffix(b"\n").unwrap_or(lines);
    }
    lines
}

/// Plays a script with each growth refused in turn: it ends as it may there. Says whether so it is, and else what it writes.
fn refuse_each(
    alloc: Global,
    words: &[u8],
    script: &[u8],
    whole: &PlayedScript,
    paper: &mut Paper,
) {
    let mut outside = false;
    let mut at_end = false;
    for refused in 1..=whole.growths {
        let again = play_with(alloc, words, script, 0, refused);
        match whose(&again, whole) {
            RefusedGrowth::Outside => outside = true,
            RefusedGrowth::AtEnd => at_end = true,
            RefusedGrowth::Nobodys => {}
            RefusedGrowth::Wrong => tell_other(refused, &again, paper),
        }
    }
    if outside && at_end {
        paper.line(b"each growth refused: exit 3, exit 1 with memory, 451 or 530, or the same");
    } else {
        paper.line(b"each growth refused: WRONG, one of exit 1 and 3 never comes");
    }
}

/// Whose growth was refused, by how a script ended.
#[derive(Clone, Copy)]
enum RefusedGrowth {
    /// One outside both ends: the status is 3, and a fault is told.
    Outside,
    /// An end's: the status is 1, and a report tells it.
    AtEnd,
    /// One that nothing wants: all is as without it.
    Nobodys,
    Wrong,
}

fn whose(again: &PlayedScript, whole: &PlayedScript) -> RefusedGrowth {
    let text = again.paper.text();
    match again.status {
        Status::Failed if again.tells => RefusedGrowth::Outside,
        Status::Refused if tells_end(text) => RefusedGrowth::AtEnd,
        _ if text == whole.paper.text() => RefusedGrowth::Nobodys,
        _ => RefusedGrowth::Wrong,
    }
}

/// Whether a report is one of an end that was refused memory. A login is answered 451 then, and what follows it 530.
fn tells_end(text: &[u8]) -> bool {
    has_line(text, b"memory") || has_line(text, b"refused 451") || has_line(text, b"refused 530")
}

/// Whether a line is one of these.
fn has_line(lines: &[u8], wanted: &[u8]) -> bool {
    let mut rest = lines;
    for _ in 0..lines.len() {
        let (line, behind) = cut(rest, b'\n');
        if line == wanted {
            return true;
        }
        rest = behind;
    }
    false
}

/// Tells what a script writes with a growth refused where it ends as it may not.
fn tell_other(refused: u64, again: &PlayedScript, paper: &mut Paper) {
    paper.put(b"growth ");
    paper.number(refused);
    paper.line(b" refused: WRONG, it writes");
    paper.put(again.paper.text());
}

/// Says whether a script writes the same by these pieces, and else what it writes.
fn compare(piece: u32, whole: &[u8], again: &[u8], paper: &mut Paper) {
    paper.put(b"--piece ");
    paper.number(u64::from(piece));
    if again == whole {
        paper.line(b": the same");
    } else {
        paper.line(b": WRONG, it writes");
        paper.put(again);
    }
}

/// What a script writes, how it ends, whether a fault is told, and how many growths were asked for.
#[derive(Drop)]
struct PlayedScript {
    paper: Paper,
    status: Status,
    tells: bool,
    growths: u64,
}

/// Plays a script with this growth refused, none for 0. It is over the allocator of the rows of events, so that a world is compiled for one alone.
fn play_with(alloc: Global, words: &[u8], script: &[u8], piece: u32, refused: u64) -> PlayedScript {
    let mut paper = Paper::new(alloc);
    let mut reader = FailingReader::new(script, usize::MAX, u32::MAX);
    let mut writer = FailingWriter::new(alloc, usize::MAX, u32::MAX);
    let mut faults = FailingWriter::new(alloc, usize::MAX, u32::MAX);
    let settings = settings_of(words, piece);
    let heap = Refusing::new(alloc, refused);
    let status = pair(&heap, settings, &mut reader, &mut writer, &mut faults);
    paper.put(writer.taken());
    paper.put(faults.taken());
    put_status(status, &mut paper);
    PlayedScript {
        paper,
        status,
        tells: !faults.taken().is_empty(),
        growths: refused.wrapping_sub(heap.left()),
    }
}

fn put_status(status: Status, paper: &mut Paper) {
    paper.put(b"exit ");
    paper.number(u64::from(status.number()));
    paper.line(b"");
}

fn settings_of(words: &[u8], piece: u32) -> PairSettings {
    PairSettings {
        piece,
        transcript: has(words, b"--transcript"),
        roots: has(words, b"--roots"),
    }
}

/// Whether a word is one of these.
fn has(words: &[u8], wanted: &[u8]) -> bool {
    let mut rest = words;
    for _ in 0..words.len() {
        let (word, behind) = split(rest);
        if word == wanted {
            return true;
        }
        rest = behind;
    }
    false
}
