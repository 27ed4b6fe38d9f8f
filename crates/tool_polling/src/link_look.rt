// What a look at a data connection and the control connection beside it finds, and which of both is served.
ghost use Rattle.std.specs.Prelude.{◌≡◌};
ghost use Rattle.tool_polling.specs.Looking.{is_told, last_until, ready_after};

use crate::awaits::{Awaits, look};
use crate::hangup::{DataInput, HELD_MILLIS, LinkOwner, told_beside};
use crate::link::{LineLink, LinkTime, PeerEnd, Writes};
use ftp_ports::{Beside, For, Ready, Spoken};
use libc::net as c;
use libc::types::pollfd;
use tool_sockets::{Heeds, Other, Woke, asking, monotonic_millis, spoken_by, woken};

/// How long the last octets of a download wait after the end of the control connection, in milliseconds.
const LAST_MILLIS: u64 = 30_000;

impl LineLink {
    /// The row of the connection itself.
    pub(crate) fn row(&self, what: For) -> pollfd {
        match what {
            For::Octets => asking(&self.stream, c::POLLIN | c::POLLRDHUP),
            For::Room => asking(&self.stream, c::POLLOUT),
        }
    }

    /// The session is ended, or no time is left of it: its control connection has ended. So an upload is dropped, and no part of it takes a file's place; of a
    /// download whose last octets go, these fail.
    fn cut(&mut self, beside: Beside) {
        match beside {
            Beside::Nothing => self.time = LinkTime::IsOver,
            Beside::End | Beside::Octets => self.seen = Some((Spoken::Ended, Other::Waits)),
        }
    }

    /// Whether octets can be read or written, or what is awaited beside is there; so many go in a turn.
    pub(crate) fn looks(&mut self, what: For, beside: Beside) -> Result<(), Awaits> {
        if self.line.timeouts.is_spent() {
            self.cut(beside);
            return Ok(());
        }
        let mut rows = [self.line.row(events_beside(beside)), self.row(what)];
        if self.line.has_moved() || self.comes_later(what) {
            return Err(Awaits::both(rows[0], rows[1]));
        }
        if self.is_there(what) {
            self.seen = Some((Spoken::Nothing, Other::Ready));
            return Ok(());
        }
        self.line.ask(&self.stream, &mut rows);
        let other = other_by(rows[1].revents);
        let control = self.told(what, beside, spoken_by(rows[0].revents), other);
        if is_told(beside, control, other) {
            self.see_end(what, rows[1].revents);
            self.seen = Some((control, other));
            return Ok(());
        }
        if let For::Room = what {
            self.limit();
        }
        if self.line.timeouts.spent().is_some() {
            self.time = LinkTime::IsOver;
            return Ok(());
        }
        match beside {
            Beside::Nothing => self.outlive(control, rows),
            Beside::End | Beside::Octets => Err(self.awaits_beside(rows)),
        }
    }

    /// What is told of the control connection, which has this: where octets come, its end waits for theirs. Octets before its end are told.
    fn told(&mut self, what: For, beside: Beside, control: Spoken, other: Other) -> Spoken {
        if !matches!((self.owner, what), (LinkOwner::Server, For::Octets)) {
            return control;
        }
        if control != Spoken::Ended {
            return control;
        }
        if beside == Beside::Octets && self.line.has_unread() {
            return Spoken::Octets;
        }
        let gift = self.gift(other);
        told_beside(control, gift)
    }

    /// What the data connection gives beside a control connection that has ended.
    fn gift(&mut self, other: Other) -> DataInput {
        let now = monotonic_millis();
        let since = self.quiet_since.unwrap_or(now);
        self.quiet_since = Some(since);
        match other {
            Other::Ready => DataInput::Something,
            Other::Waits => DataInput::NothingFor(now.saturating_sub(since)),
        }
    }

    /// What is waited for where octets come: the end of the control connection only while it was not told.
    fn awaits_beside(&self, rows: [pollfd; 2]) -> Awaits {
        match self.quiet_since {
            Some(since) => Awaits::one(rows[1]).or_until(since.saturating_add(HELD_MILLIS)),
            None => Awaits::both(rows[0], rows[1]),
        }
    }

    /// Whether what is waited for is surely there: room for the first write, and the peer's end that was told of.
    fn is_there(&self, what: For) -> bool {
        match (what, self.writes) {
            (For::Room, Writes::Nothing) => true,
            (For::Room, Writes::One | Writes::More) => false,
            (For::Octets, _) => !matches!(self.peer, PeerEnd::Unseen),
        }
    }

    /// Whether octets are not looked for in this turn: the first ones, for which a reply asked that went in it.
    fn comes_later(&mut self, what: For) -> bool {
        let comes_later = self.is_new && matches!(what, For::Octets) && self.line.has_spoken();
        self.is_new = false;
        comes_later
    }

    /// The last octets wait for room: for half a minute after the end of the control connection.
    fn outlive(&mut self, control: Spoken, rows: [pollfd; 2]) -> Result<(), Awaits> {
        if control != Spoken::Ended {
            return Err(Awaits::both(rows[0], rows[1]));
        }
        let now = monotonic_millis();
        let until = last_until(self.time, now);
        if until <= now {
            return Ok(());
        }
        self.time = LinkTime::EndsAt(until);
        Err(Awaits::one(rows[1]).or_until(until))
    }

    /// A look told of the data connection: whether the peer's end is there, behind octets that are not read yet or none.
    fn see_end(&mut self, what: For, events: i16) {
        let is_there = matches!(what, For::Octets) && events & c::POLLRDHUP != 0;
        self.peer = match self.peer {
            PeerEnd::Read => PeerEnd::Read,
            PeerEnd::Unseen | PeerEnd::Told => {
                if is_there {
                    PeerEnd::Told
                } else {
                    PeerEnd::Unseen
                }
            }
        };
    }

    /// Which connection is to be served; where `hears`, octets of the control connection go first.
    pub(crate) fn ready(&mut self, what: For, hears: bool) -> Ready {
        let (beside, heeds) = if hears {
            (Beside::Octets, Heeds::OctetsFirst)
        } else {
            (Beside::End, Heeds::End)
        };
        let (control, other) = match self.seen.take() {
            Some(seen) => seen,
            None => self.both(what, beside),
        };
        ready_after(woken(control, other, heeds))
    }

    /// What the control connection and this one have now.
    fn both(&self, what: For, beside: Beside) -> (Spoken, Other) {
        if self.line.timeouts.is_spent() {
            return (Spoken::Ended, Other::Waits);
        }
        let mut rows = [self.line.row(events_beside(beside)), self.row(what)];
        look(&mut rows);
        (spoken_by(rows[0].revents), other_by(rows[1].revents))
    }
}

/// Whether a waiting is over, by what is there.
fn is_told(beside: Beside, control: Spoken, other: Other) -> bool
    ensures { result ≡ is_told beside control other }
{
    match (beside, control, other) {
        (_, _, Other::Ready) => true,
        (Beside::Nothing, _, Other::Waits) | (_, Spoken::Nothing, Other::Waits) => false,
        (Beside::End | Beside::Octets, _, Other::Waits) => true,
    }
}

/// Whether a data connection is ready, by its events.
fn other_by(events: i16) -> Other {
    if events == 0 {
        Other::Waits
    } else {
        Other::Ready
    }
}

/// The events of the control connection that are awaited beside a data connection: of one whose last octets go its end, since those wait for less then.
pub(crate) fn events_beside(beside: Beside) -> i16 {
    match beside {
        Beside::Nothing | Beside::End => c::POLLRDHUP,
        Beside::Octets => c::POLLIN | c::POLLRDHUP,
    }
}

/// Which connection is to be served behind a look that ended so.
fn ready_after(woke: Woke) -> Ready
    ensures { result ≡ ready_after woke }
{
    match woke {
        Woke::Spoken => Ready::Control,
        Woke::Ended => Ready::Lost,
        Woke::Ready | Woke::TimeOver | Woke::Failed => Ready::Data,
    }
}

/// Until when the last octets of a download wait, in milliseconds of the monotonic clock.
fn last_until(time: LinkTime, now: u64) -> u64
    ensures { result ≡ last_until time now }
{
    match time {
        LinkTime::Lasts => now.saturating_add(LAST_MILLIS),
        LinkTime::EndsAt(until) => until,
        LinkTime::IsOver => now,
    }
}
