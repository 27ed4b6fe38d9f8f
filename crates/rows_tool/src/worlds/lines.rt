// The lines of a row in one world.
use crate::worlds::desk::{PlayMode, RowOutput};
use crate::worlds::plays::WorldCalls;
use crate::worlds::stage::{
    begin, begin_by_run, begin_heavy, happen, repeat, settle, tell, tell_reports,
};
use crate::worlds::ways::follow;
use crate::worlds::words::{Happening, WorldWord, delivery_of, happening_of, word_of};
use ftp_pair::Queue;
use rows_base::{cut, number, octets_of};
use std::alloc::{AllocError, Global};

/// The most octets of a delivery.
const MOST: usize = 4096;

/// Lines, and openings.
const TALK: &[Happening] = &[
    Happening::Deliver(Queue::ControlToServer, MOST),
    Happening::Deliver(Queue::ControlToClient, MOST),
    Happening::Open,
];

/// What moves by itself, in the order in which it is tried.
const MOVES: &[Happening] = &[
    Happening::Deliver(Queue::ControlToServer, MOST),
    Happening::Deliver(Queue::ControlToClient, MOST),
    Happening::Deliver(Queue::DataToServer, MOST),
    Happening::Deliver(Queue::DataToClient, MOST),
    Happening::Open,
    Happening::End(Queue::ControlToServer),
    Happening::End(Queue::ControlToClient),
    Happening::End(Queue::DataToServer),
    Happening::End(Queue::DataToClient),
];

/// Behind so many octets the fixed sequence begins again.
const PERIOD: u64 = 251;

/// Plays a row in a world, in the manner of the desk.
pub fn play_in<P: WorldCalls>(world: &mut P, desk: &mut RowOutput, row: &[u8]) {
    play_lines(world, desk, row);
    match desk.manner {
        PlayMode::Lines => {}
        PlayMode::Way => follow(world, desk),
        PlayMode::Quiet | PlayMode::Struck(_, _) | PlayMode::Unstruck => {
            world.put_tree(desk.alloc, &mut desk.paper);
        }
    }
    desk.calm = world.is_calm();
}

fn play_lines<P: WorldCalls>(world: &mut P, desk: &mut RowOutput, row: &[u8]) {
    let mut rest = row;
    for _ in 0..row.len() {
        if rest.is_empty() {
            break;
        }
        let (line, behind) = cut(rest, b'\n');
        if let PlayMode::Lines = desk.manner {
            desk.paper.line(line);
        }
        play_line(world, desk, line);
        tell_reports(world, desk);
        rest = behind;
    }
}

fn play_line<P: WorldCalls>(world: &mut P, desk: &mut RowOutput, line: &[u8]) {
    let (word, rest) = word_of(line);
    match word {
        WorldWord::Begin => order(world, desk, rest),
        WorldWord::BeginByRun => begin_by_run(world, desk, rest),
        WorldWord::Heavy => heavy(world, desk, rest),
        WorldWord::Deliver | WorldWord::End | WorldWord::Plain(_) => event(world, desk, line),
        WorldWord::Settle => settle(world, desk),
        WorldWord::Talk => repeat(world, desk, TALK),
        WorldWord::Pour => repeat(world, desk, &[delivery_of(rest)]),
        WorldWord::Gather => desk.gathers = true,
        WorldWord::Run => run(world, desk),
        WorldWord::Tree => world.put_tree(desk.alloc, &mut desk.paper),
        WorldWord::Marks => world.put_marks(desk.begun.saturating_sub(1), &mut desk.paper),
        WorldWord::Held => desk.tell_held(),
        WorldWord::Nothing => {}
    }
}

/// An order begins; where a row is struck, all that it moves moves event by event.
fn order<P: WorldCalls>(world: &mut P, desk: &mut RowOutput, line: &[u8]) {
    begin(world, desk, line);
    match desk.manner {
        PlayMode::Struck(_, _) | PlayMode::Unstruck => repeat(world, desk, MOVES),
        PlayMode::Lines | PlayMode::Quiet | PlayMode::Way => {}
    }
}

/// An event happens, or is kept.
fn event<P: WorldCalls>(world: &mut P, desk: &mut RowOutput, line: &[u8]) {
    let Some(happening) = happening_of(line) else {
        return;
    };
    if desk.gathers {
        desk.keep(happening);
    } else {
        let became = happen(world, desk, happening);
        tell(became, desk);
    }
}

/// What was kept happens.
fn run<P: WorldCalls>(world: &mut P, desk: &mut RowOutput) {
    desk.gathers = false;
    let kept = desk.take_kept();
    let became = world.runs(desk.alloc, kept.as_slice());
    tell(became, desk);
}

/// An upload of so many octets begins.
fn heavy<P: WorldCalls>(world: &mut P, desk: &mut RowOutput, count: &[u8]) {
    match fixed_octets(desk.alloc, number(count)) {
        Ok(octets) => begin_heavy(world, desk, octets.as_slice()),
        Err(_) => desk.paper.fill(),
    }
}

/// So many octets of the fixed sequence.
fn fixed_octets(alloc: Global, count: u64) -> Result<Vec<u8>, AllocError> {
    let front = octets_of(alloc, b"@251")?;
    let mut octets = Vec::new(alloc);
    for _ in 0..(count / PERIOD).saturating_add(1) {
        octets.extend_from_slice(front.as_slice())?;
    }
    octets.truncate(count as usize);
    Ok(octets)
}
