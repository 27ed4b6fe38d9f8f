// A world to which something happens, and what comes of it.
use crate::worlds::desk::{PlayMode, RowOutput};
use crate::worlds::plays::{Became, WorldCalls};
use crate::worlds::words::Happening;

/// More events than an order takes.
const EVENTS: u64 = 1_000_000;

/// What a line says that was refused memory.
pub const NO_MEMORY: &'static [u8] = b"! no memory";

/// The reports that came; those before the events of a way are not written.
pub fn tell_reports<P: WorldCalls>(world: &P, desk: &mut RowOutput) {
    let from = match desk.manner {
        PlayMode::Way if !desk.gathers => usize::MAX,
        _ => desk.told,
    };
    desk.told = world.put_reports(desk.alloc, from, &mut desk.paper);
}

/// An order begins; once more where it is refused memory.
pub fn begin<P: WorldCalls>(world: &mut P, desk: &mut RowOutput, line: &[u8]) {
    strike(world, desk);
    let became = match world.begins(line, desk.begun) {
        Became::NoMemory => world.begins(line, desk.begun),
        became => became,
    };
    tell_begun(world, desk, became);
}

/// The same by `World::run` of that one event.
pub fn begin_by_run<P: WorldCalls>(world: &mut P, desk: &mut RowOutput, line: &[u8]) {
    let became = match world.begins_by_run(desk.alloc, line, desk.begun) {
        Became::NoMemory => world.begins_by_run(desk.alloc, line, desk.begun),
        became => became,
    };
    tell_begun(world, desk, became);
}

/// An upload of so many octets begins.
pub fn begin_heavy<P: WorldCalls>(world: &mut P, desk: &mut RowOutput, octets: &[u8]) {
    let became = world.uploads(octets, desk.begun);
    tell_begun(world, desk, became);
}

fn tell_begun<P: WorldCalls>(world: &P, desk: &mut RowOutput, became: Became) {
    if let Became::Happened = became {
        desk.begun = desk.begun.saturating_add(1);
        desk.count(world.held());
    }
    tell(became, desk);
}

/// An event happens; once more where it is refused memory.
pub fn happen<P: WorldCalls>(world: &mut P, desk: &mut RowOutput, happening: Happening) -> Became {
    strike(world, desk);
    let became = match world.happens(happening) {
        Became::NoMemory => world.happens(happening),
        became => became,
    };
    if let Became::Happened = became {
        desk.count(world.held());
    }
    became
}

/// What is to happen before the next event, once.
fn strike<P: WorldCalls>(world: &mut P, desk: &mut RowOutput) {
    let PlayMode::Struck(happening, place) = desk.manner else {
        return;
    };
    if place == desk.happened {
        desk.manner = PlayMode::Unstruck;
        desk.struck = matches!(world.happens(happening), Became::Happened);
    }
}

pub fn tell(became: Became, desk: &mut RowOutput) {
    match became {
        Became::Happened => {}
        Became::Impossible => desk.paper.line(b"! not possible"),
        Became::NoMemory => desk.paper.line(NO_MEMORY),
    }
}

/// All that moves by itself moves.
pub fn settle<P: WorldCalls>(world: &mut P, desk: &mut RowOutput) {
    if !world.settles() {
        desk.paper.line(b"! not at rest");
    }
}

/// The first of these events that is possible, again and again, until none is.
pub fn repeat<P: WorldCalls>(world: &mut P, desk: &mut RowOutput, events: &[Happening]) {
    for _ in 0..EVENTS {
        if first_of(world, desk, events, 0).is_none() {
            return;
        }
    }
    desk.paper.line(b"! it goes on");
}

/// The first of these events that is possible happens, none before that place; gives its place.
pub fn first_of<P: WorldCalls>(
    world: &mut P,
    desk: &mut RowOutput,
    events: &[Happening],
    from: usize,
) -> Option<usize> {
    for place in from..events.len() {
        if let Became::Happened = happen(world, desk, events[place]) {
            return Some(place);
        }
    }
    None
}
