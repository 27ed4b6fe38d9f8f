// The events of a row in each order.
use crate::worlds::desk::{PlayMode, RowOutput};
use crate::worlds::making::play;
use crate::worlds::plays::WorldCalls;
use crate::worlds::stage::{first_of, settle, tell_reports};
use crate::worlds::words::Happening;
use rows_base::Paper;
use std::alloc::Global;
use std::mem;

/// More events than happen in one order.
const DEEP: usize = 1000;

/// More orders than a row has.
const WAYS: u64 = 1_000_000;

/// What was kept happens, the first event that is possible each time, none before its least place; then all that moves; writes the reports.
pub fn follow<P: WorldCalls>(world: &mut P, desk: &mut RowOutput) {
    let least = mem::replace(&mut desk.way, Vec::new(desk.alloc));
    let events = desk.take_kept();
    go(world, desk, events.as_slice(), least.as_slice());
    desk.led = desk.way.len() >= least.len();
    settle(world, desk);
    tell_reports(world, desk);
}

fn go<P: WorldCalls>(world: &mut P, desk: &mut RowOutput, events: &[Happening], least: &[usize]) {
    for at in 0..DEEP {
        let from = least.get(at).copied().unwrap_or(0);
        match first_of(world, desk, events, from) {
            Some(place) => desk.pass(place),
            None => return,
        }
    }
}

/// Plays a row with its events in each order that there is, and writes what came of the first, of those that go otherwise, and how many there are.
pub fn play_ways(alloc: Global, row: &[u8], paper: &mut Paper) {
    paper.line(row);
    let mut first = Paper::new(alloc);
    let mut least = Vec::new(alloc);
    let mut count = 0u64;
    for _ in 0..WAYS {
        let mut desk = RowOutput::new(alloc, PlayMode::Way);
        desk.way = least;
        play(alloc, row, 0, &mut desk);
        if desk.led {
            count = count.saturating_add(1);
            tell_way(desk.paper.text(), count, &mut first, paper);
        }
        least = mem::replace(&mut desk.way, Vec::new(alloc));
        // Next is another one of its last event.
        let Some(last) = least.pop() else {
            break;
        };
        if least.push(last.saturating_add(1)).is_err() {
            paper.fill();
        }
    }
    paper.number(count);
    paper.line(b" orders");
}

/// What came of an order, where it is the first or goes otherwise than that.
fn tell_way(text: &[u8], count: u64, first: &mut Paper, paper: &mut Paper) {
    if count == 1 {
        first.put(text);
        paper.put(text);
    } else if text != first.text() {
        paper.line(b"! otherwise:");
        paper.put(text);
    }
}
