// An end to which something happens, and what comes of it.
use crate::desk::Desk;
use crate::plays::EndpointCalls;
use ftp_endpoint::write_extended;
use ftp_ends::Wants;
use rows_base::{Paper, Tally};

/// The most octets that one call gives.
const ROOM: usize = 1_024;

/// More than the turns of a loop over calls.
const TURNS: u64 = 100_000_000;

/// The most octets that may be held.
const HELD_LIMIT: usize = 24_576;

/// Control octets are taken as long as any are, then what is owed is written, and so on until nothing moves; where connections drive the end
/// they wait.
pub fn settle<P: EndpointCalls>(end: &mut P, desk: &mut Desk) {
    if desk.drive.is_some() {
        return;
    }
    for _ in 0..TURNS {
        hear_all(end, desk);
        if !owes(end, desk) {
            break;
        }
    }
}

/// Calls with the control octets that were not taken yet, until it takes none.
fn hear_all<P: EndpointCalls>(end: &mut P, desk: &mut Desk) {
    for _ in 0..TURNS {
        let count = end.hear(desk.next_piece());
        desk.heard = desk.heard.saturating_add(count);
        called(end, desk);
        if count == 0 {
            break;
        }
    }
}

/// One call for the control octets that are owed: whether there were any.
fn owes<P: EndpointCalls>(end: &mut P, desk: &mut Desk) -> bool {
    let mut room = [0; ROOM];
    let size = if desk.tells { ROOM } else { desk.size };
    let (room, _) = room.split_at_mut(size.min(ROOM));
    let count = end.control_out(room).min(room.len());
    desk.paper.lines(desk.side.mark, &room[..count]);
    called(end, desk);
    count != 0
}

/// Behind a call: says where too much is held, and what was acted on, where the row asks for that.
pub fn called<P: EndpointCalls>(end: &mut P, desk: &mut Desk) {
    weigh(end, &mut desk.paper);
    if desk.tells {
        end.tell(&mut desk.paper);
    }
}

/// Says where too much is held.
fn weigh<P: EndpointCalls>(end: &P, paper: &mut Paper) {
    if end.held() > HELD_LIMIT {
        paper.put(b"= too much is held\n");
    }
}

/// These data octets come; those that are not taken are counted.
pub fn come<P: EndpointCalls>(end: &mut P, desk: &mut Desk, octets: &[u8]) {
    let mut rest = octets;
    for _ in 0..TURNS {
        let (piece, _) = rest.split_at(desk.size.min(rest.len()));
        let count = end.data_hear(piece);
        called(end, desk);
        (_, rest) = rest.split_at(count.min(rest.len()));
        if rest.is_empty() || count == 0 && !owes(end, desk) {
            break;
        }
    }
    desk.left = desk.left.saturating_add(rest.len());
}

/// Data octets are given as long as there are any, so many at most in a call, and so many in all.
pub fn give<P: EndpointCalls>(end: &mut P, desk: &mut Desk, size: u64, most: u64) {
    let mut tally = Tally::new();
    for _ in 0..TURNS {
        let left = most.saturating_sub(tally.count());
        if !gives(end, desk, size.min(left), &mut tally) {
            break;
        }
    }
    settle(end, desk);
    desk.paper.put(b"gave ");
    tally.show(&mut desk.paper);
    desk.paper.put(b"\n");
}

/// One call for data octets: whether there were any.
fn gives<P: EndpointCalls>(end: &mut P, desk: &mut Desk, size: u64, tally: &mut Tally) -> bool {
    let mut room = [0; ROOM];
    let (room, _) = room.split_at_mut(desk.size.min(size.min(ROOM as u64) as usize));
    let count = end.data_out(room).min(room.len());
    called(end, desk);
    tally.take(&room[..count]);
    count != 0
}

/// What came of a line: how much was held before what is owed went out, a report, what is wanted now, where that was not wanted before.
pub fn come_to_rest<P: EndpointCalls>(end: &mut P, desk: &mut Desk) {
    weigh(end, &mut desk.paper);
    if desk.drive.is_some() {
        return;
    }
    hear_all(end, desk);
    let held = end.held();
    settle(end, desk);
    desk.paper.end_line();
    end.report(desk.alloc, &mut desk.paper);
    show_wants(end, desk);
    desk.tell_left();
    if desk.weighs {
        desk.put_number(b"held ", held as u64);
    }
}

fn show_wants<P: EndpointCalls>(end: &P, desk: &mut Desk) {
    let wants = end.wants();
    if wants != desk.wanted {
        desk.wanted = wants;
        put_wants(wants, &mut desk.paper);
    }
}

/// A line for what is wanted.
pub fn put_wants(wants: Wants, paper: &mut Paper) {
    paper.put(b"? ");
    paper.put(wanted(wants));
    if let Wants::Connect(endpoint) = wants {
        paper.put(&write_extended(endpoint));
    }
    paper.put(b"\n");
}

fn wanted(wants: Wants) -> &'static [u8] {
    match wants {
        Wants::Nothing => b"nothing",
        Wants::Listen => b"listen",
        Wants::Accept => b"accept",
        Wants::Connect(_) => b"connect ",
        Wants::Receive => b"receive",
        Wants::Send => b"send",
        Wants::CloseData => b"close data",
        Wants::CloseAll => b"close all",
    }
}
