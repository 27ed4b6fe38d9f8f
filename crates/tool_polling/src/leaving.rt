// The connections of a session that is over: they stay a moment, since one that is dropped with unread octets is reset, and loses what was sent.
ghost use Rattle.std.specs.Global.{Global};

use crate::awaits::Awaits;
use crate::line::ControlLine;
use crate::link::LineLink;
use libc::net as c;
use std::alloc::Global;
use std::io::{ErrorKind, Read};
use std::rc::Rc;
use tool_sockets::monotonic_millis;

/// How long a client is waited for after the last reply, in milliseconds, in all.
const LAST_MILLIS: u64 = 1_000;

/// How long the end of the last data connection is waited for, in milliseconds.
const DATA_MILLIS: u64 = 500;

/// The most reads in a turn of what a client says after the last reply.
const LAST_READS: u32 = 16;

/// A control connection behind its last reply, and the last data connection, until their peers have ended them too.
#[derive(Drop)]
pub struct Leaving {
    line: Option<Rc<ControlLine, Global>>,
    link: Option<LineLink>,
    /// Until when each is waited for.
    line_until: u64,
    link_until: u64,
}

impl Leaving {
    /// Sends nothing more over the control connection, where that is to be kept.
    pub fn new(line: Option<Rc<ControlLine, Global>>, link: Option<LineLink>) -> Leaving {
        let now = monotonic_millis();
        Leaving {
            line: line.filter(|line| line.end().is_ok()),
            link,
            line_until: now.saturating_add(LAST_MILLIS),
            link_until: now.saturating_add(DATA_MILLIS),
        }
    }

    /// What is waited for.
    pub fn awaits(&self) -> Awaits {
        let mut awaits = Awaits::nothing();
        if let Some(line) = &self.line {
            awaits.rows[0] = line.row(c::POLLIN | c::POLLRDHUP);
            awaits.until = self.line_until;
        }
        if let Some(link) = &self.link {
            awaits.rows[1] = link.rest_row();
            awaits.until = awaits.until.min(self.link_until);
        }
        awaits
    }

    /// Reads what came, lets go what is over, and says whether anything stays.
    pub fn stays(&mut self) -> bool {
        let now = monotonic_millis();
        if let Some(line) = &self.line {
            if self.line_until <= now || !may_say_more(line) {
                self.line = None;
            }
        }
        if let Some(link) = &mut self.link {
            if self.link_until <= now || !link.drain() {
                self.link = None;
            }
        }
        self.line.is_some() || self.link.is_some()
    }
}

/// Reads what a client says after the last reply; whether it may say more.
fn may_say_more(line: &ControlLine) -> bool {
    let mut rest = [0u8; 1024];
    let mut reader = &line.stream;
    for _ in 0..LAST_READS {
        match reader.read(&mut rest) {
            Ok(0) => return false,
            Ok(_) => {}
            Err(error) => return error.kind() == ErrorKind::WouldBlock,
        }
    }
    true
}
