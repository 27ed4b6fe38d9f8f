// What of a control connection can be read, and the octet that urgent data hides (RFC 854; RFC 959, section 4.1.3).
ghost use Rattle.std.specs.Prelude.{◌≡◌};
ghost use Rattle.tool_polling.specs.Urgent.{hidden};

use crate::awaits::{Awaits, look};
use crate::line::ControlLine;
use ftp_ports::Spoken;
use libc::net as c;
use std::io::ErrorKind;
use tool_sockets::spoken_by;

/// What of a control connection can be read.
#[derive(Clone, Copy)]
pub(crate) struct PendingInput {
    /// An urgent octet waits that was not put back yet.
    pub(crate) is_urgent: bool,
    /// Other octets or the end do.
    pub(crate) has_more: bool,
}

impl ControlLine {
    /// What can be read now.
    pub(crate) fn waiting(&self) -> PendingInput {
        let mut rows = [self.row(events_of(!self.given.get()))];
        look(&mut rows);
        waiting_by(rows[0].revents)
    }

    /// What can be read after octets that were read, before which this could: asked only where an urgent octet stood before them, or may be hidden behind the
    /// last one.
    pub(crate) fn left_behind(&self, before: PendingInput) -> PendingInput {
        if before.is_urgent || hidden_after(self.last.get()).is_some() {
            return self.waiting();
        }
        PendingInput {
            is_urgent: false,
            has_more: false,
        }
    }

    /// What can be read, by the last look where nothing was read since; it is read now.
    pub(crate) fn take_seen(&self) -> PendingInput {
        self.forget();
        match self.seen.replace(None) {
            Some(waiting) => waiting,
            None => self.waiting(),
        }
    }

    /// The urgent octet that waits is put back, or can't be: nothing more is asked of it.
    pub(crate) fn give(&self) {
        self.given.set(true);
    }

    /// Octets were read: an urgent one may wait after them. Says whether the one before them was put back already.
    pub(crate) fn take_given(&self) -> bool {
        self.given.replace(false)
    }

    /// Whether there are octets to read, or the end; an urgent octet alone counts where something was hidden before it.
    pub(crate) fn has_octets(&self) -> Result<(), Awaits> {
        if self.timeouts.spent().is_some() {
            return Ok(());
        }
        if !self.has_replied() {
            let waiting = self.looked();
            if waiting.has_more || (waiting.is_urgent && hidden_after(self.last.get()).is_some()) {
                self.seen.set(Some(waiting));
                return Ok(());
            }
            if waiting.is_urgent {
                self.give();
            }
        }
        Err(Awaits::one(self.row(events_of(!self.given.get()))))
    }

    /// What can be read: as the round's poll told, where there are octets and nothing is hidden before them, else by a look.
    fn looked(&self) -> PendingInput {
        let told = waiting_by(self.told.get().told(&self.stream));
        if told.has_more && hidden_after(self.last.get()).is_none() {
            told
        } else {
            self.waiting()
        }
    }

    /// What it has now.
    pub(crate) fn spoken(&self) -> Spoken {
        let mut rows = [self.row(c::POLLIN | c::POLLRDHUP)];
        look(&mut rows);
        spoken_by(rows[0].revents)
    }

    /// Whether octets are left to be read of one that has ended, one that urgent data hides among them.
    pub(crate) fn has_unread(&self) -> bool {
        let mut room = [0u8; 1];
        match self.stream.peek(&mut room) {
            Ok(0) => hidden_after(self.last.get()).is_some() && self.waiting().is_urgent,
            Ok(_) => true,
            Err(error) => {
                self.broke.set(error.kind() != ErrorKind::WouldBlock);
                false
            }
        }
    }

    /// Whether its failure was met.
    pub(crate) fn has_broken(&self) -> bool {
        self.broke.get()
    }
}

/// The octet that urgent data hides behind another one: LF of CR LF, DM of IAC DM, and the IAC behind IAC IP, which clients send as urgent
/// before DM and ABOR (RFC 959, section 4.1.3).
pub(crate) fn hidden_after(last: u8) -> Option<u8>
    ensures { result ≡ hidden last }
{
    match last {
        b'\r' => Some(b'\n'),
        255 => Some(242),
        244 => Some(255),
        _ => None,
    }
}

/// The events that are asked of a control connection.
fn events_of(asks_urgent: bool) -> i16 {
    let urgent = if asks_urgent { c::POLLPRI } else { 0 };
    c::POLLIN | c::POLLRDHUP | urgent
}

/// What can be read by the events of a control connection.
fn waiting_by(events: i16) -> PendingInput {
    PendingInput {
        is_urgent: events & c::POLLPRI != 0,
        has_more: events & (c::POLLIN | c::POLLRDHUP | c::POLLHUP | c::POLLERR) != 0,
    }
}
