// A row that is struck before each of its events in turn.
use crate::worlds::desk::{PlayMode, RowOutput};
use crate::worlds::making::play;
use crate::worlds::words::{Happening, happening_of};
use rows_base::Paper;
use std::alloc::Global;

/// More events than a row has.
const EVENTS: u64 = 100_000;

/// Plays a row with an event before each of its own, and behind the last; writes what comes of each where it goes otherwise than the one before, and
/// how many events there are.
pub fn play_each(alloc: Global, row: &[u8], event: &[u8], paper: &mut Paper) {
    paper.line(row);
    let Some(happening) = happening_of(event) else {
        return;
    };
    let mut before = Paper::new(alloc);
    for place in 0..EVENTS {
        let Some(came) = struck(alloc, row, happening, place) else {
            paper.number(place.saturating_sub(1));
            paper.line(b" events");
            return;
        };
        if came.text() != before.text() {
            tell(place, came.text(), paper);
        }
        before = came;
    }
}

/// What comes of a row with this before that event; none where there are not so many.
fn struck(alloc: Global, row: &[u8], happening: Happening, place: u64) -> Option<Paper> {
    let mut desk = RowOutput::new(alloc, PlayMode::Struck(happening, place));
    play(alloc, row, 0, &mut desk);
    match desk.manner {
        PlayMode::Struck(_, _) => None,
        _ => Some(desk.take_struck()),
    }
}

fn tell(place: u64, text: &[u8], paper: &mut Paper) {
    paper.put(b"before event ");
    paper.number(place);
    paper.line(b":");
    paper.put(text);
}
