// Calls of a server by a list (`ftp_server_calls`): the lines of a row that begin with `call`, made before all others.
use crate::desk::Desk;
use crate::event::{EndEvent, EventDetails, told_of};
use crate::stage::put_wants;
use crate::turn::RowTurn;
use crate::verb::{LineVerb, verb_of};
use ftp_server_calls::{Cue, Gift, Played};
use rows_base::{Paper, cut, number, octets_of, split};
use std::alloc::{AllocError, Allocator, Global};

/// What stands behind `call`, where a line is one.
fn call_in(line: &[u8]) -> Option<&[u8]> {
    let (word, call) = split(line);
    if word == b"call".as_slice() {
        Some(call)
    } else {
        None
    }
}

/// The calls of a row.
pub fn cues_of<A: Allocator + Copy>(
    heap: A,
    turn: RowTurn<'_>,
) -> Result<Vec<Cue<A>, A>, AllocError> {
    let mut cues = Vec::new(heap);
    let mut rest = turn.row;
    for _ in 0..turn.row.len() {
        let (line, behind) = cut(rest, b'\n');
        if let Some(call) = call_in(line) {
            cues.push(cue_of(heap, turn, call)?)?;
        }
        rest = behind;
    }
    Ok(cues)
}

/// The call that a line says.
pub fn cue_of<A: Allocator + Copy>(
    heap: A,
    turn: RowTurn<'_>,
    call: &[u8],
) -> Result<Cue<A>, AllocError> {
    let (word, rest) = split(call);
    match verb_of(word) {
        LineVerb::Says => Ok(Cue::Hear(copied(heap, turn.alloc, rest, b"\r\n")?)),
        LineVerb::Octets => Ok(Cue::Hear(copied(heap, turn.alloc, rest, b"")?)),
        LineVerb::Data => Ok(Cue::DataHear(copied(heap, turn.alloc, rest, b"")?)),
        LineVerb::Out => Ok(Cue::DataOut(number(rest) as usize)),
        LineVerb::Owed => Ok(Cue::ControlOut(number(rest) as usize)),
        LineVerb::Happens(event) => Ok(happening(event, told_of(rest, turn.side.peer))),
        _ => Ok(Cue::AsksWants),
    }
}

/// The octets of a text, and these behind it.
fn copied<A: Allocator + Copy>(
    heap: A,
    own: Global,
    text: &[u8],
    end: &[u8],
) -> Result<Vec<u8, A>, AllocError> {
    let said = octets_of(own, text)?;
    let mut octets = Vec::new(heap);
    octets.extend_from_slice(said.as_slice())?;
    octets.extend_from_slice(end)?;
    Ok(octets)
}

fn happening<A: Allocator + Copy>(event: EndEvent, told: EventDetails) -> Cue<A> {
    match event {
        EndEvent::Listening => Cue::Listening(told.port),
        EndEvent::Portless => Cue::ListenRefused,
        EndEvent::Opened => Cue::DataOpened(told.host),
        EndEvent::Refused => Cue::DataRefused,
        EndEvent::Ended => Cue::DataEnd,
        EndEvent::Broke => Cue::DataFault,
        EndEvent::Closed => Cue::DataClosed,
        EndEvent::Cut => Cue::ControlEnd,
        EndEvent::Clock => Cue::Clock(told.moment),
    }
}

/// Writes a row as far as its calls, each with what it gave, and says what stands behind them.
pub fn tell<'a, A: Allocator + Copy>(
    row: &'a [u8],
    played: &Result<Played<A>, AllocError>,
    desk: &mut Desk,
) -> &'a [u8] {
    let mut rest = row;
    let mut place = 0usize;
    for _ in 0..row.len() {
        let (line, behind) = cut(rest, b'\n');
        if !is_in_front(line) {
            break;
        }
        desk.paper.line(line);
        if call_in(line).is_some() {
            show_nth(played, place, &mut desk.paper);
            place = place.saturating_add(1);
        }
        rest = behind;
    }
    if played.is_err() {
        desk.paper.line(b"! no memory");
    }
    rest
}

/// Whether a line is a call, or what a row begins with.
fn is_in_front(line: &[u8]) -> bool {
    call_in(line).is_some() || matches!(verb_of(split(line).0), LineVerb::Heading)
}

fn show_nth<A: Allocator + Copy>(
    played: &Result<Played<A>, AllocError>,
    place: usize,
    paper: &mut Paper,
) {
    let Ok(played) = played else {
        return;
    };
    match played.gifts.get(place) {
        Some(gift) => show(gift, paper),
        None => paper.line(b"! not made"),
    }
    if place == played.calm {
        paper.line(b"! something failed");
    }
}

/// Writes what a call gave.
pub fn show<A: Allocator + Copy>(gift: &Gift<A>, paper: &mut Paper) {
    match gift {
        Gift::Nothing => {}
        Gift::Took(count) => {
            paper.put(b"took ");
            paper.number(*count as u64);
            paper.line(b"");
        }
        Gift::Octets(octets) => {
            paper.put(b"gave ");
            paper.quote(octets.as_slice());
            paper.line(b"");
        }
        Gift::Wanted(wants) => put_wants(*wants, paper),
    }
}
