// The reader of a control connection, which puts back the octet that urgent data hides (RFC 854; RFC 959, section 4.1.3), and the writer.
ghost use Rattle.std.specs.Prelude.{◌≡◌, ◌<◌, ◌≤◌, IfOk, length};
ghost use Rattle.std.specs.Global.{Global};

use crate::line::ControlLine;
use crate::pending_input::{PendingInput, hidden_after};
use std::alloc::Global;
use std::io;
use std::io::{Error, ErrorKind, Read, Write};
use std::rc::Rc;
use tool_sockets::send_now;

/// Reads a control connection, where octets are there. The system takes an urgent octet out of what is read; behind CR it is taken for LF, and behind IAC
/// for the data mark 242, so that an ABOR whose last octet is urgent is a line, and a Synch is whole. Where its time is over, the connection has ended. A read
/// fails where the system's call does, and once more behind a break that a look met.
#[derive(Drop)]
pub struct LineReader {
    line: Rc<ControlLine, Global>,
}

impl LineReader {
    /// The reader of a control connection, of which nothing was read yet.
    pub fn new(line: Rc<ControlLine, Global>) -> LineReader {
        LineReader { line }
    }

    /// Reads, with the octet that was hidden before what was read.
    fn read_behind(&mut self, room: &mut [u8]) -> io::Result<Behind>
        ensures within { IfOk result (λ read. read.count ≤ length room.new) }
    {
        let line = &*self.line;
        let before = line.take_seen();
        if before.is_urgent && !before.has_more {
            line.give();
            return Behind::alone(hidden_after(line.last.get()));
        }
        let mut stream = &line.stream;
        let count = stream.read(room)?;
        let given = line.take_given();
        let front = line.last.get();
        if let Some(last) = room.get(..count).unwrap_or(&[]).last() {
            line.last.set(*last);
        }
        let after = line.left_behind(before);
        let passed = before.is_urgent && !after.is_urgent && !given;
        let hidden = if passed { hidden_after(front) } else { None };
        Ok(Behind {
            hidden,
            count,
            after,
        })
    }

    /// Reads, with the octet that was hidden before what was read in front of it; how much that is, and what can be read after it.
    fn read_front(&mut self, room: &mut [u8]) -> io::Result<(usize, PendingInput)>
        requires { 0 < length room.old }
        ensures within { IfOk result (λ read. read.0 ≤ length room.new) }
    {
        let (_, rest) = room.split_at_mut(1);
        let Behind {
            hidden,
            count,
            after,
        } = self.read_behind(rest)?;
        match hidden {
            Some(octet) => {
                room[0] = octet;
                Ok((count + 1, after))
            }
            None => {
                room.copy_within(1..count + 1, 0);
                Ok((count, after))
            }
        }
    }

    /// Reads, with the octets that were hidden before and after what was read.
    fn read_hidden(&mut self, room: &mut [u8]) -> io::Result<usize>
        requires { 3 ≤ length room.old }
        ensures within { IfOk result (λ count. count ≤ length room.new) }
    {
        let last = room.len() - 1;
        let (front, _) = room.split_at_mut(last);
        let (count, after) = self.read_front(front)?;
        if count == 0 {
            return Ok(0);
        }
        match self.hidden_behind(after) {
            Some(octet) => {
                room[count] = octet;
                Ok(count + 1)
            }
            None => Ok(count),
        }
    }

    /// The octet that is hidden behind what was read last, where nothing else stands behind that yet: who asks whether the connection has
    /// more to read is told of no urgent octet.
    fn hidden_behind(&mut self, after: PendingInput) -> Option<u8> {
        if !after.is_urgent || after.has_more {
            return None;
        }
        self.line.give();
        hidden_after(self.line.last.get())
    }
}

impl Read for LineReader {
    fn read(&mut self, room: &mut [u8]) -> io::Result<usize> {
        if self.line.is_over() {
            return Ok(0);
        }
        if self.line.has_broken() {
            return Err(Error::from(ErrorKind::ConnectionReset));
        }
        if room.len() < 3 {
            self.line.forget();
            let mut stream = &self.line.stream;
            return stream.read(room);
        }
        let count = self.read_hidden(room)?;
        self.line.came(room.get(..count).unwrap_or(&[]));
        Ok(count)
    }
}

/// Writes a control connection, where there is room; a write for which there is none fails, and with it the session.
#[derive(Drop)]
pub struct LineWriter {
    line: Rc<ControlLine, Global>,
}

impl LineWriter {
    /// The writer of a control connection.
    pub fn new(line: Rc<ControlLine, Global>) -> LineWriter {
        LineWriter { line }
    }
}

impl Write for LineWriter {
    fn write(&mut self, octets: &[u8]) -> io::Result<usize> {
        let count = send_now(&self.line.stream, octets)?;
        self.line.reply_went(octets, count);
        Ok(count)
    }

    fn flush(&mut self) -> io::Result<()> {
        Ok(())
    }
}

/// What a read gave.
#[derive(Clone, Copy)]
struct Behind {
    /// The octet that was hidden before what was read.
    hidden: Option<u8>,
    count: usize,
    /// What can be read after it, as far as nothing of that is given already.
    after: PendingInput,
}

impl Behind {
    /// A hidden octet alone; where there is none, nothing is there to be read.
    fn alone(hidden: Option<u8>) -> io::Result<Behind>
        ensures { IfOk result (λ read. read.count ≡ 0) }
    {
        if hidden.is_none() {
            return Err(Error::from(ErrorKind::WouldBlock));
        }
        Ok(Behind {
            hidden,
            count: 0,
            after: PendingInput {
                is_urgent: false,
                has_more: false,
            },
        })
    }
}
