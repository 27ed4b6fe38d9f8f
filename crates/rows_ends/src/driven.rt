// Rows in which connections drive an end: its control octets come from a reader that gives few of them a call, what it owes goes to a writer that
// takes few, and each read or each write may fail.
use crate::desk::Desk;
use crate::peer::Peer;
use crate::plays::EndpointCalls;
use crate::row::played;
use crate::turn::{RowSettings, RowTurn};
use rows_base::{FailingReader, FailingWriter, Paper, number, said, split};

/// The number of no call, and more waits than there are.
const NEVER: u32 = 4_000_000_000;

/// How connections go that drive an end.
#[derive(Clone, Copy)]
pub struct ConnectionPlan {
    /// The most octets of the control connection that one call moves.
    pub moves: usize,
    /// How many octets come over each data connection; none where it can't be read.
    pub sends: Option<u64>,
    /// How often a data connection is waited for before the control connection speaks.
    pub silent: u64,
    /// How many writes of each data connection find no room.
    pub full: u64,
    /// How many data connections break at first.
    pub breaks: u64,
    /// Whether the octets that come are those of the fixed sequence.
    pub is_fixed: bool,
    /// The most octets that one call moves over a data connection.
    pub takes: usize,
    /// How many calls of each data connection go before one that fails.
    pub fails: u64,
    /// How many seconds the clock is further after each look.
    pub ticks: u64,
    /// Whether the row tells what was asked of who opens and closes data connections.
    pub is_asked: bool,
}

/// A call of the control connection.
#[derive(Clone, Copy)]
pub enum Call {
    Read,
    Write,
}

/// What is tried of a row.
#[derive(Clone, Copy)]
pub enum Try {
    /// The row as it stands.
    Whole,
    /// So many octets of the control connection at most in a call.
    Moves(usize),
    /// The call with that number fails, counted from 0.
    Fails(Call, u32),
    /// A server is driven between others, some turns at a time: each look of so many finds that it would wait.
    Waits(u64),
}

/// Who makes the calls of an end.
#[derive(Clone, Copy)]
pub enum Owner<'a> {
    /// The drive of the product.
    Drive,
    /// The program that the end's page shows, which is asked for this.
    Page(&'a [u8]),
}

/// What is said of connections: `moves 7 sends 3 silent 7 full 1000 breaks 2`, `fixed 1000 takes 7 fails 3 ticks 1 asked 1`.
pub fn drive_of(text: &[u8]) -> ConnectionPlan {
    ConnectionPlan {
        moves: value(text, b"moves").unwrap_or(1) as usize,
        sends: value(text, b"sends").or(value(text, b"fixed")),
        silent: value(text, b"silent").unwrap_or(NEVER as u64),
        full: value(text, b"full").unwrap_or(0),
        breaks: value(text, b"breaks").unwrap_or(0),
        is_fixed: value(text, b"fixed").is_some(),
        takes: value(text, b"takes").unwrap_or(NEVER as u64) as usize,
        fails: value(text, b"fails").unwrap_or(NEVER as u64),
        ticks: value(text, b"ticks").unwrap_or(0),
        is_asked: value(text, b"asked").is_some(),
    }
}

/// The number behind a word.
fn value(text: &[u8], name: &[u8]) -> Option<u64> {
    let mut rest = text;
    for _ in 0..text.len() {
        let (word, behind) = split(rest);
        if word == name {
            return Some(number(split(behind).0));
        }
        rest = behind;
    }
    None
}

/// The most octets of a call, and the read and the write that fail.
fn limits(drive: ConnectionPlan, tried: Try) -> (usize, u32, u32) {
    match tried {
        Try::Whole | Try::Waits(_) => (drive.moves, NEVER, NEVER),
        Try::Moves(moves) => (moves, NEVER, NEVER),
        Try::Fails(Call::Read, at) => (drive.moves, at, NEVER),
        Try::Fails(Call::Write, at) => (drive.moves, NEVER, at),
    }
}

/// Drives an end by the control octets so far, and writes the lines that it sends; where it was not broken off, what it reports and what came
/// over data connections too.
pub fn run<P: EndpointCalls>(end: &mut P, desk: &mut Desk, owner: Owner<'_>) {
    match desk.drive {
        Some(drive) => run_by(drive, end, desk, owner),
        None => desk.paper.line(b"= nothing drives it"),
    }
}

fn run_by<P: EndpointCalls>(drive: ConnectionPlan, end: &mut P, desk: &mut Desk, owner: Owner<'_>) {
    let (moves, read, write) = limits(drive, desk.tried);
    let writer = FailingWriter::new(desk.alloc, moves, write);
    let mut peer = Peer::new(desk.alloc, drive);
    if let Try::Waits(each) = desk.tried {
        peer.wait_at_each(each);
    }
    let mut told = Paper::new(desk.alloc);
    let reader = FailingReader::new(desk.octets.as_slice(), moves, read);
    let writer = end.drive(desk.alloc, owner, (reader, writer), &mut peer, &mut told);
    desk.paper.lines(desk.side.mark, writer.taken());
    tell_run(desk, told.text(), &peer);
}

/// What an end reports that was driven, nothing where it was broken off, and what came over data connections.
fn tell_run(desk: &mut Desk, told: &[u8], peer: &Peer) {
    desk.is_broken = told.is_empty();
    if !desk.is_broken {
        desk.paper.end_line();
        desk.paper.put(told);
        peer.show(&mut desk.paper);
    }
}

/// What came of a try.
#[derive(Clone, Copy)]
enum DriveOutcome {
    /// The same as of the whole row.
    Same,
    /// It was broken off behind a beginning of that.
    Broken,
    Other,
}

fn came_of(turn: RowTurn<'_>, whole: &[u8], tried: Try) -> DriveOutcome {
    let seen = played(
        turn,
        RowSettings {
            tried,
            ..turn.side.whole()
        },
    );
    outcome_of(seen.is_broken, seen.paper.text(), whole)
}

fn outcome_of(is_broken: bool, text: &[u8], whole: &[u8]) -> DriveOutcome {
    if !is_broken && text == whole {
        DriveOutcome::Same
    } else if is_broken && whole.starts_with(text) {
        DriveOutcome::Broken
    } else {
        DriveOutcome::Other
    }
}

/// Drives a row again: a server between others; and as the row says, in calls of each size behind `also`, and with so many reads and writes failed in
/// turn.
pub fn again(turn: RowTurn<'_>, whole: &[u8], paper: &mut Paper) {
    each_wait(turn, whole, paper);
    each_size(turn, whole, paper);
    each_failed(turn, whole, (Call::Read, b"reads"), paper);
    each_failed(turn, whole, (Call::Write, b"writes"), paper);
}

/// Where a server that is driven would wait at each third look, and at each seventh, all is as where it never would.
fn each_wait(turn: RowTurn<'_>, whole: &[u8], paper: &mut Paper) {
    if turn.side.is_client || said(turn.row, b"drive").is_none() {
        return;
    }
    for each in [3, 7] {
        let seen = played(
            turn,
            RowSettings {
                tried: Try::Waits(each),
                ..turn.side.whole()
            },
        );
        if seen.paper.text() != whole {
            paper.line(b"= otherwise between others");
        }
    }
}

fn each_size(turn: RowTurn<'_>, whole: &[u8], paper: &mut Paper) {
    let mut rest = said(turn.row, b"also").unwrap_or(b"");
    for _ in 0..rest.len() {
        let (word, behind) = split(rest);
        if word.is_empty() {
            break;
        }
        let tried = Try::Moves(number(word).min(NEVER as u64) as usize);
        match came_of(turn, whole, tried) {
            DriveOutcome::Same => {}
            _ => paper.line(b"= otherwise in calls of another size"),
        }
        rest = behind;
    }
}

/// The first calls that fail break the row off, and those behind them are not made: how many are the first ones.
fn each_failed(turn: RowTurn<'_>, whole: &[u8], (call, word): (Call, &[u8]), paper: &mut Paper) {
    let Some(count) = said(turn.row, word) else {
        return;
    };
    let mut broken = 0;
    for at in 0..number(count).min(1_000) {
        match came_of(turn, whole, Try::Fails(call, at as u32)) {
            DriveOutcome::Broken if broken == at => broken += 1,
            DriveOutcome::Same => {}
            _ => paper.line(b"= otherwise where a call fails"),
        }
    }
    paper.put(b"= ");
    paper.number(broken);
    paper.put(b" ");
    paper.line(word);
}
