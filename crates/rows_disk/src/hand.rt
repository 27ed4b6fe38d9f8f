// What a line says that is done by another hand, or that goes wrong from there on.
use crate::memory_host::{HostTrouble, MemoryHost};
use ftp_facts::Moment;
use rows_base::{Paper, found, number, octets_of, split};
use std::alloc::Global;
use std::io;

/// The last moment of the profile, the end of the year 9999.
const LAST_SECOND: u64 = 253_402_300_799;

#[derive(Clone, Copy)]
enum HandAction {
    Write,
    Replace,
    Decay,
    Stamp,
    Take,
    Dir,
    Odd,
    Move,
    Pass,
    Slow,
    Fails,
    FailsLate,
    Strays,
    GoesWell,
    Unknown,
}

const ACTIONS: &[(&'static [u8], HandAction)] = &[
    (b"write", HandAction::Write),
    (b"replace", HandAction::Replace),
    (b"decay", HandAction::Decay),
    (b"stamp", HandAction::Stamp),
    (b"take", HandAction::Take),
    (b"dir", HandAction::Dir),
    (b"odd", HandAction::Odd),
    (b"move", HandAction::Move),
    (b"pass", HandAction::Pass),
    (b"slow", HandAction::Slow),
    (b"fails", HandAction::Fails),
    (b"fails-late", HandAction::FailsLate),
    (b"strays", HandAction::Strays),
    (b"well", HandAction::GoesWell),
];

/// Does in a folder what a line says, `write /f abc` or `fails 3`; where that fails, it is written why.
pub fn do_so(alloc: Global, host: &MemoryHost, line: &[u8], paper: &mut Paper) {
    let (word, rest) = split(line);
    let action = found(ACTIONS, word, HandAction::Unknown);
    if let Some(trouble) = trouble_of(action, rest) {
        host.meet(trouble);
        return;
    }
    if let Err(error) = done(alloc, host, action, rest) {
        paper.put(b"! ");
        paper.put(line);
        paper.put(b": ");
        show_error(alloc, &error, paper);
        paper.put(b"\n");
    }
}

/// What goes wrong, if a action is to say that.
fn trouble_of(action: HandAction, rest: &[u8]) -> Option<HostTrouble> {
    match action {
        HandAction::Fails => Some(HostTrouble::Fails(number(rest))),
        HandAction::FailsLate => Some(HostTrouble::FailsLate(number(rest))),
        HandAction::Strays => Some(HostTrouble::Strays(number(rest))),
        HandAction::GoesWell => Some(HostTrouble::Nothing),
        _ => None,
    }
}

fn done(alloc: Global, host: &MemoryHost, action: HandAction, rest: &[u8]) -> io::Result<()> {
    let (place, rest) = split(rest);
    let place = octets_of(alloc, place)?;
    let place = text_of(place.as_slice())?;
    match action {
        HandAction::Write => host.write_file(place, octets_of(alloc, rest)?.as_slice()),
        HandAction::Replace => host.replace_file(place, octets_of(alloc, rest)?.as_slice()),
        HandAction::Decay => host.decay(place, octets_of(alloc, rest)?.as_slice()),
        HandAction::Stamp => host.stamp(
            place,
            Moment {
                seconds: number(rest).min(LAST_SECOND),
            },
        ),
        HandAction::Take => host.take(place),
        HandAction::Dir => host.put_dir(place),
        HandAction::Odd => host.put_odd(place),
        HandAction::Move => host.move_to(place, text_of(rest)?),
        HandAction::Pass => {
            host.pass(number(place.as_bytes()));
            Ok(())
        }
        HandAction::Slow => {
            host.slow(number(place.as_bytes()));
            Ok(())
        }
        HandAction::Fails
        | HandAction::FailsLate
        | HandAction::Strays
        | HandAction::GoesWell
        | HandAction::Unknown => Err(io::Error::from(io::ErrorKind::InvalidInput)),
    }
}

/// A text that is UTF-8.
pub fn text_of(octets: &[u8]) -> io::Result<&str> {
    match std::str::from_utf8(octets) {
        Ok(text) => Ok(text),
        Err(_) => Err(io::Error::from(io::ErrorKind::InvalidInput)),
    }
}

/// Writes what an error says.
pub fn show_error(alloc: Global, error: &io::Error, paper: &mut Paper) {
    match format!(in alloc; "{error}") {
        Ok(text) => paper.put(text.as_bytes()),
        Err(_) => paper.fill(),
    }
}
