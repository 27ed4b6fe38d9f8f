// The lines of a log.
use crate::entry::{LogEntry, SessionNote, letters_of};
use crate::format::LogFormat;
use crate::json::{CommandFacts, LineHead, command_line, note_line, session_line};
use crate::lost::Lost;
use crate::room::{LINE_ROOM, LogLineBuffer};
use crate::xferlog::{TransferFacts, completion_of, direction_of, transfer_line};
use ftp_facts::{Moment, moment_text};
use ftp_ports::Watch;
use std::alloc::{AllocError, Global};
use std::cell::Cell;
use std::fmt::{Display, Write};
use std::time::Clock;
use tool_sockets::{SystemWatch, has_room_now};

/// Standard error, whose flags are shared with other processes: so it is asked whether it has room, and never made to refuse.
const STANDARD_ERROR: i32 = 2;

/// The most octets of an object of JSON: a line has an end besides, and maybe one before it.
const MOST_OF_AN_OBJECT: usize = LINE_ROOM - 2;

/// How many octets of the system's reason an object has at most: with a path and a user of 255 octets, each an escape of six, there is room for it.
const MOST_OF_A_REASON: usize = 120;

/// Lines on standard error.
#[derive(Drop)]
pub struct LogLines {
    alloc: Global,
    format: LogFormat,
    lost: Cell<Lost>,
}

impl LogLines {
    /// No line was written.
    pub fn new(alloc: Global, format: LogFormat) -> LogLines {
        LogLines {
            alloc,
            format,
            lost: Cell::new(Lost::nothing()),
        }
    }

    /// Tells something of the server itself; `xferlog` has no such line. It is not waited for room: where there is none, the line is lost. A line that is
    /// written after lost ones says how many they are, but in `xferlog`.
    pub fn tell<C: Clock, T: Display>(&self, clock: &C, what: &T) {
        match self.format {
            LogFormat::Text => self.tell_text(clock, what),
            LogFormat::Json => self.tell_note(clock, what),
            LogFormat::Xferlog => {}
        }
    }

    /// Tells how a session goes, in the same way.
    pub fn tell_session<C: Clock>(&self, clock: &C, note: &SessionNote<'_>) {
        match self.format {
            LogFormat::Text => self.tell_text(clock, note),
            LogFormat::Json => self.tell_session_note(clock, note),
            LogFormat::Xferlog => {}
        }
    }

    /// Tells of a line of a client, in the same way; in `xferlog` where a file was moved for it.
    pub fn tell_command<C: Clock>(&self, clock: &C, entry: &LogEntry<'_>) {
        match self.format {
            LogFormat::Text => self.tell_text(clock, entry),
            LogFormat::Json => self.tell_object(clock, entry),
            LogFormat::Xferlog => self.tell_transfer(clock, entry),
        }
    }

    /// Tells something in words, behind the moment: of a long line the first 4,095 octets.
    fn tell_text<C: Clock, T: Display>(&self, clock: &C, what: &T) {
        let now = moment_text(moment_of(clock));
        let now = str::from_utf8(&now).unwrap_or("-");
        let mut room = self.line_room();
        let lines = self.lost.get().lines;
        if lines > 0 {
            let _put = writeln!(room, "{now} note: {lines} lines before this one are lost");
        }
        let _put = write!(room, "{now} {what}");
        self.write(room);
    }

    /// Tells something of the server itself as an object.
    fn tell_note<C: Clock, T: Display>(&self, clock: &C, what: &T) {
        let text = shown_text(what);
        let line = note_line(
            self.alloc,
            MOST_OF_AN_OBJECT,
            self.head(clock),
            text.octets(),
        );
        self.tell_line(line);
    }

    /// Tells how a session goes as an object.
    fn tell_session_note<C: Clock>(&self, clock: &C, note: &SessionNote<'_>) {
        let peer = shown_text(&note.peer);
        let line = session_line(
            self.alloc,
            self.head(clock),
            peer.octets(),
            note.what.as_bytes(),
        );
        self.tell_line(line);
    }

    /// Tells of a line of a client as an object.
    fn tell_object<C: Clock>(&self, clock: &C, entry: &LogEntry<'_>) {
        let peer = shown_text(&entry.peer);
        let reason = match &entry.outcome.why {
            Some(why) => shown_text(why),
            None => LogLineBuffer::new(),
        };
        let command = CommandFacts {
            peer: peer.octets(),
            user: entry.user,
            verb: letters_of(entry.verb),
            path: entry.names,
            octets: entry.moved,
            code: entry.outcome.code,
            fate: entry.outcome.fate,
            reason: reason.front(MOST_OF_A_REASON),
        };
        self.tell_line(command_line(self.alloc, self.head(clock), &command));
    }

    /// Tells of a transfer of a file that began.
    fn tell_transfer<C: Clock>(&self, clock: &C, entry: &LogEntry<'_>) {
        let Some(millis) = entry.took else {
            return;
        };
        let Some(direction) = direction_of(entry.verb) else {
            return;
        };
        let host = shown_text(&entry.peer.ip());
        let transfer = TransferFacts {
            moment: moment_of(clock),
            millis,
            host: host.octets(),
            octets: entry.moved,
            path: entry.names,
            direction,
            user: entry.user,
            completion: completion_of(entry.outcome.code, entry.outcome.fate),
        };
        self.tell_line(transfer_line(self.alloc, &transfer));
    }

    /// The front of an object that is told now.
    fn head<C: Clock>(&self, clock: &C) -> LineHead {
        LineHead {
            moment: moment_of(clock),
            lost: self.lost.get().lines,
        }
    }

    /// Writes a line; one for which memory is refused is lost.
    fn tell_line(&self, line: Result<Vec<u8, Global>, AllocError>) {
        let mut room = self.line_room();
        match line {
            Ok(line) => {
                room.put(line.as_slice());
                self.write(room);
            }
            Err(AllocError) => self.lost.set(self.lost.get().after(1, 0)),
        }
    }

    /// Room for a line, which begins on a line of its own.
    fn line_room(&self) -> LogLineBuffer {
        let mut room = LogLineBuffer::new();
        if self.lost.get().is_torn {
            room.put(b"\n");
        }
        room
    }

    /// Ends a line and writes it.
    fn write(&self, room: LogLineBuffer) {
        let mut room = room;
        room.end();
        let line = room.octets();
        self.lost
            .set(self.lost.get().after(line.len(), written(line)));
    }
}

/// The moment of a clock.
fn moment_of<C: Clock>(clock: &C) -> Moment {
    SystemWatch::new(clock).moment()
}

/// The front of what is shown of something.
fn shown_text<T: Display>(what: &T) -> LogLineBuffer {
    let mut text = LogLineBuffer::new();
    let _put = write!(text, "{what}");
    text
}

/// How many octets of a line standard error took at once.
fn written(line: &[u8]) -> usize {
    if !has_room_now(STANDARD_ERROR) {
        return 0;
    }
    usize::try_from(libc::write(STANDARD_ERROR, line)).unwrap_or(0)
}
