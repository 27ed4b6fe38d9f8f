// The lines of a row.
use crate::desk::Desk;
use crate::driven::{Owner, drive_of, run};
use crate::event::told_of;
use crate::plays::EndpointCalls;
use crate::stage::{called, come, come_to_rest, give, settle};
use crate::turn::RowTurn;
use crate::verb::{LineVerb, verb_of};
use rows_base::{Paper, cut, number, split};

/// The login that is accepted.
const LOGIN: &[u8] = b"220 Ready\\r\\n331 Password\\r\\n230 Known";

/// Plays the lines of a row, and tells what comes of each.
pub fn play<P: EndpointCalls>(end: &mut P, desk: &mut Desk, turn: RowTurn<'_>) {
    let mut rest = turn.row;
    for _ in 0..turn.row.len() {
        if rest.is_empty() {
            break;
        }
        let (line, behind) = cut(rest, b'\n');
        play_line(end, desk, line);
        if !goes_on(end, desk, turn) {
            break;
        }
        rest = behind;
    }
}

/// Whether what was written is that of the whole row, where that was seen; then the tree is kept.
fn goes_on<P: EndpointCalls>(end: &P, desk: &mut Desk, turn: RowTurn<'_>) -> bool {
    let Some(whole) = turn.whole else {
        return true;
    };
    let mut tree = Paper::new(desk.alloc);
    end.show_tree(desk.alloc, &mut tree);
    desk.keep(tree);
    whole.starts_with(desk.paper.text())
}

fn play_line<P: EndpointCalls>(end: &mut P, desk: &mut Desk, line: &[u8]) {
    let (times, turn) = repeated(line);
    let (word, rest) = split(turn);
    let verb = verb_of(word);
    if let LineVerb::Heading = verb {
        desk.paper.line(line);
        return;
    }
    if let LineVerb::Drive = verb {
        desk.drive = Some(drive_of(rest));
    }
    settle(end, desk);
    desk.paper.line(line);
    if times > 1 {
        repeat(end, desk, verb, rest, times);
    } else {
        act(end, desk, verb, turn, rest);
    }
    come_to_rest(end, desk);
}

/// How often a line is played, at most 10,000 times, and what: `62 times < 211 more`.
fn repeated(line: &[u8]) -> (u64, &[u8]) {
    let (count, rest) = split(line);
    let (word, turn) = split(rest);
    if word == b"times".as_slice() {
        (number(count).min(10_000), turn)
    } else {
        (1, line)
    }
}

/// A line so many times; what comes of it is written once, where it is the same each time.
fn repeat<P: EndpointCalls>(end: &mut P, desk: &mut Desk, verb: LineVerb, rest: &[u8], times: u64) {
    let paper = desk.turn_over();
    for _ in 0..times {
        act(end, desk, verb, rest, rest);
    }
    settle(end, desk);
    desk.turn_back(paper, times);
}

fn act<P: EndpointCalls>(end: &mut P, desk: &mut Desk, verb: LineVerb, line: &[u8], rest: &[u8]) {
    match verb {
        LineVerb::Heading | LineVerb::Drive | LineVerb::Owed => {}
        LineVerb::Says => desk.say(rest, b"\r\n"),
        LineVerb::Octets => desk.say(rest, b""),
        LineVerb::Login => {
            desk.say(LOGIN, b"\r\n");
            settle(end, desk);
        }
        LineVerb::Happens(event) => {
            end.happens(event, told_of(rest, desk.side.peer));
            called(end, desk);
        }
        LineVerb::Data => come_text(end, desk, rest),
        LineVerb::Give => give(end, desk, number(rest), u64::MAX),
        LineVerb::Out => give(end, desk, u64::MAX, number(rest)),
        LineVerb::Tree => end.show_tree(desk.alloc, &mut desk.paper),
        LineVerb::Told => end.show_told(&mut desk.paper),
        LineVerb::Held => desk.put_number(b"held ", end.held() as u64),
        LineVerb::Weigh => desk.weighs = true,
        LineVerb::Tells => desk.tells = true,
        LineVerb::Run => run(end, desk, Owner::Drive),
        LineVerb::Page => run(end, desk, Owner::Page(rest)),
        LineVerb::Order => end.begin(desk.alloc, line, &mut desk.paper),
    }
}

fn come_text<P: EndpointCalls>(end: &mut P, desk: &mut Desk, text: &[u8]) {
    let octets = desk.octets_of(text);
    come(end, desk, octets.as_slice());
}
