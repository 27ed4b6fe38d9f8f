// A row is played in pieces of each size, and with each read, each write and each growth failed in turn.
use crate::programs::row::{ProgramRow, RowProgram, row_of};
use crate::programs::run::{AMPLE, Calls, NEVER, RunResult, RunSettings, run};
use rows_base::{Paper, cut, number, said, split};
use std::alloc::Global;

/// The calls of which each fails in turn.
#[derive(Clone, Copy)]
enum Call {
    Read,
    Write,
    Tell,
    Growth,
}

/// Nothing fails.
const WHOLE: RunSettings = RunSettings {
    piece: 0,
    reads: AMPLE,
    writes: AMPLE,
    tells: AMPLE,
    refused: 0,
};

/// Plays a row: whether it holds, and how many of the first calls break it off.
pub fn play_row(alloc: Global, text: &[u8], paper: &mut Paper) {
    play(alloc, text, &row_of(alloc, text), paper);
}

fn play(alloc: Global, text: &[u8], row: &ProgramRow, paper: &mut Paper) {
    let holds = holds_in_pieces(alloc, text, row);
    paper.put(if holds { b"holds: " } else { b"WRONG: " });
    paper.line(said(text, b"#").unwrap_or(b""));
    each_failed(alloc, text, row, (Call::Read, b"reads"), paper);
    each_failed(alloc, text, row, (Call::Write, b"writes"), paper);
    each_failed(alloc, text, row, (Call::Tell, b"tellings"), paper);
    if let Some(size) = said(text, b"growths") {
        each_refused(alloc, row, number(size), paper);
    }
}

/// Whether it comes so in pieces of each size.
fn holds_in_pieces(alloc: Global, text: &[u8], row: &ProgramRow) -> bool {
    let mut rest = said(text, b"pieces").unwrap_or(b"0");
    for _ in 0..rest.len() {
        let (word, behind) = split(rest);
        if !word.is_empty()
            && !is_whole(row, &run(alloc, row, in_pieces(row.program, number(word))))
        {
            return false;
        }
        rest = behind;
    }
    true
}

/// The most octets of a call; at 0 all.
fn most(size: u64) -> usize {
    if size == 0 {
        AMPLE.most
    } else {
        size.min(NEVER as u64) as usize
    }
}

/// A dialogue hears so many octets at once; what else reads is given so many.
fn in_pieces(program: RowProgram, size: u64) -> RunSettings {
    let mut way = WHOLE;
    match program {
        RowProgram::Dialogue => way.piece = size.min(NEVER as u64) as u32,
        _ => way.reads.most = most(size),
    }
    way
}

/// Whether all came as it has to.
fn is_whole(row: &ProgramRow, came: &RunResult) -> bool {
    came.status == row.status
        && came.output.taken() == row.output.text()
        && came.told.taken() == row.told.text()
}

/// Whether it was broken off behind a beginning of what has to come; faults are told behind all octets.
fn is_left(row: &ProgramRow, came: &RunResult, call: Call) -> bool {
    let output = row.output.text();
    let told = row.told.text();
    let is_so = match call {
        Call::Tell => came.output.taken() == output && came.told.taken().len() < told.len(),
        _ => came.told.taken().is_empty()
            && (came.output.taken().len() < output.len() || !told.is_empty()),
    };
    is_so
        && came.status == 3
        && output.starts_with(came.output.taken())
        && told.starts_with(came.told.taken())
}

/// The first calls break the row off, and those behind them are not made: how many are the first ones. `reads 3 20`: three octets at most in each,
/// and 20 calls are tried.
fn each_failed(
    alloc: Global,
    text: &[u8],
    row: &ProgramRow,
    (call, word): (Call, &[u8]),
    paper: &mut Paper,
) {
    let Some(words) = said(text, word) else {
        return;
    };
    let (size, count) = split(words);
    let mut broken = 0;
    for at in 0..number(count).min(1_000) {
        match failed(alloc, row, call, number(size), at) {
            TryOutcome::Left if broken == at => broken += 1,
            TryOutcome::Whole => {}
            _ => paper.line(b"WRONG: where a call fails"),
        }
    }
    paper.put(b"  ");
    paper.number(broken);
    paper.put(b" ");
    paper.line(word);
}

/// What came of a row in which a call fails.
#[derive(Clone, Copy)]
enum TryOutcome {
    /// All that has to.
    Whole,
    /// It was broken off behind a beginning of that.
    Left,
    /// A dialogue's server was refused memory, and answered 451.
    Short,
    Wrong,
}

fn failed(alloc: Global, row: &ProgramRow, call: Call, size: u64, at: u64) -> TryOutcome {
    let came = run(alloc, row, failing(call, size, at));
    if is_whole(row, &came) {
        TryOutcome::Whole
    } else if is_left(row, &came, call) {
        TryOutcome::Left
    } else if is_short(row, &came, call) {
        TryOutcome::Short
    } else {
        TryOutcome::Wrong
    }
}

/// Whether a growth of a dialogue's server was refused: a line is answered 451, and the status is 1.
fn is_short(row: &ProgramRow, came: &RunResult, call: Call) -> bool {
    matches!(row.program, RowProgram::Dialogue)
        && matches!(call, Call::Growth)
        && came.status == 1
        && has_local_fault(came.output.taken())
}

/// Whether a line begins with 451.
fn has_local_fault(lines: &[u8]) -> bool {
    let mut rest = lines;
    for _ in 0..lines.len() {
        let (line, behind) = cut(rest, b'\n');
        if line.starts_with(b"451 ") {
            return true;
        }
        rest = behind;
    }
    false
}

/// This call fails, and those like it move so many octets at most; at 0 all.
fn failing(call: Call, size: u64, at: u64) -> RunSettings {
    let mut way = WHOLE;
    let calls = Calls {
        most: most(size),
        fails: at.min(NEVER as u64) as u32,
    };
    match call {
        Call::Read => way.reads = calls,
        Call::Write => way.writes = calls,
        Call::Tell => way.tells = calls,
        Call::Growth => {
            way.reads.most = calls.most;
            way.refused = at;
        }
    }
    way
}

/// The row is whole and asks for growths, and each that is refused breaks it off, or is one of a dialogue's server; so many octets at most are read at once.
fn each_refused(alloc: Global, row: &ProgramRow, size: u64, paper: &mut Paper) {
    let whole = run(alloc, row, failing(Call::Growth, size, 0));
    let growths = 0u64.wrapping_sub(whole.left);
    if growths == 0 || !is_whole(row, &whole) {
        paper.line(b"WRONG: where no growth is refused");
    }
    let mut answered = false;
    for at in 1..=growths {
        match failed(alloc, row, Call::Growth, size, at) {
            TryOutcome::Left => {}
            TryOutcome::Short => answered = true,
            _ => paper.line(b"WRONG: where a growth is refused"),
        }
    }
    if answered {
        paper.line(b"  each growth, by 451 too");
    } else {
        paper.line(b"  each growth");
    }
}
