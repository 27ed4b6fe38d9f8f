// A control connection of a server, with all that whoever serves it shares.
use crate::awaits::{Awaits, look};
use crate::pending_input::PendingInput;
use crate::session_timeouts::TimeLimits;
use crate::timeouts::Timeouts;
use crate::turn_share::TurnShare;
use libc::net as c;
use libc::types::pollfd;
use std::cell::Cell;
use std::io;
use std::net::{Shutdown, SocketAddr, TcpStream};
use std::os::fd::AsRawFd;
use tool_sockets::{asking, keep_alive, limit_room, monotonic_millis, send_now};

/// The most octets of replies that wait in the system for a client to take them.
const REPLIES: i32 = 65_536;

/// The room that is there where a look tells of some: a third of twice `REPLIES`, as the system counts.
const TOLD_ROOM: usize = 43_690;

/// What the system counts of a write beside its octets, at most.
const WRITE_ROOM: usize = 2_304;

/// The room for all replies that may be owed at once: 8,192 octets in eight writes.
const OWED_ROOM: usize = 8 * (1_024 + WRITE_ROOM);

/// A control connection; how long its client is waited for; and what it has had of a turn. Who reads, writes and looks at it has a share of it each.
#[derive(Drop)]
pub struct ControlLine {
    pub(crate) stream: TcpStream,
    pub timeouts: Timeouts,
    /// Whether the urgent octet that waits was put back already.
    pub(crate) given: Cell<bool>,
    /// The last octet that was read.
    pub(crate) last: Cell<u8>,
    /// What the last look found to be read, until it is read.
    pub(crate) seen: Cell<Option<PendingInput>>,
    /// Until when no reply goes, in milliseconds of the monotonic clock.
    held: Cell<u64>,
    /// How much room for replies is left of that which the last look told of, in octets as the system counts them.
    room: Cell<usize>,
    /// What the round's poll told of what the last turn waited for, as far as it was not asked for yet.
    pub(crate) told: Cell<Awaits>,
    share: Cell<TurnShare>,
    /// How many octets went over data connections since that was asked for last.
    transferred: Cell<u64>,
    /// Whether a look behind its end met its failure, which the system tells once.
    pub(crate) broke: Cell<bool>,
    /// Whether octets stood behind a line in what was read last.
    goes_on: Cell<bool>,
}

impl ControlLine {
    /// A control connection that was taken now. Nothing waits for it from then on. Fails where the system refuses an option of it.
    pub fn new(stream: TcpStream, limits: TimeLimits) -> io::Result<ControlLine> {
        stream.set_nonblocking(true)?;
        stream.set_nodelay(true)?;
        keep_alive(&stream)?;
        limit_room(&stream, REPLIES)?;
        Ok(ControlLine {
            stream,
            timeouts: Timeouts::new(limits),
            given: Cell::new(false),
            last: Cell::new(0),
            seen: Cell::new(None),
            held: Cell::new(0),
            room: Cell::new(TOLD_ROOM),
            told: Cell::new(Awaits::nothing()),
            share: Cell::new(TurnShare::new()),
            transferred: Cell::new(0),
            broke: Cell::new(false),
            goes_on: Cell::new(false),
        })
    }

    /// The address that the client reached.
    pub fn here(&self) -> io::Result<SocketAddr> {
        self.stream.local_addr()
    }

    /// The client's address.
    pub fn peer(&self) -> io::Result<SocketAddr> {
        self.stream.peer_addr()
    }

    /// A turn begins, in which a reply may go, and octets of a data connection; `told` is what the round's poll found of what the last turn waited for.
    pub fn begin_turn(&self, told: Awaits) {
        self.told.set(told);
        self.share.set(TurnShare::new());
    }

    /// What of the control connection and of another socket is there, in rows of both: as the round's poll told, once, where that told of the other one;
    /// else by a look.
    pub(crate) fn ask<S: AsRawFd>(&self, other: &S, rows: &mut [pollfd; 2]) {
        let mut told = self.told.get();
        let of_other = told.told(other) & rows[1].events;
        told.forget(other);
        self.told.set(told);
        if of_other == 0 {
            look(rows);
            return;
        }
        rows[0].revents = told.told(&self.stream) & rows[0].events;
        rows[1].revents = of_other;
    }

    /// Nothing is known of the control connection but by a look.
    pub(crate) fn forget(&self) {
        let mut told = self.told.get();
        told.forget(&self.stream);
        self.told.set(told);
    }

    /// The next reply goes only after so many milliseconds.
    pub fn hold(&self, millis: u64) {
        self.held.set(monotonic_millis().saturating_add(millis));
    }

    /// So many octets of replies went; one whose code begins with 1 is followed by another one (RFC 959, section 4.2.1).
    pub(crate) fn reply_went(&self, octets: &[u8], count: usize) {
        let taken = count.saturating_add(WRITE_ROOM);
        self.room.set(self.room.get().saturating_sub(taken));
        self.share.set(self.share.get().after_reply(octets));
        self.timeouts.touch();
    }

    /// These octets came. A line's end is a sign of life.
    pub(crate) fn came(&self, octets: &[u8]) {
        if octets.contains(&b'\n') {
            self.timeouts.hear();
        }
        self.goes_on.set(goes_on(octets));
    }

    /// Where a line came with octets behind it, no reply goes in this turn any more, and so none of these is heard. Where none did, none is heard anyway in a
    /// turn in which a reply went.
    pub fn end_turn(&self) {
        if self.goes_on.get() {
            self.share.set(self.share.get().held_back());
        }
    }

    /// Whether a reply went in this turn.
    pub(crate) fn has_spoken(&self) -> bool {
        self.share.get().has_spoken()
    }

    /// Whether one went that no other follows, or none goes any more.
    pub(crate) fn has_replied(&self) -> bool {
        self.share.get().has_replied()
    }

    /// So many octets of a data connection went.
    pub(crate) fn data_went(&self, count: usize) {
        self.share.set(self.share.get().after_octets(count));
        let transferred = self.transferred.get().saturating_add(count as u64);
        self.transferred.set(transferred);
    }

    /// Whether as many octets of data connections went in this turn as are its part.
    pub(crate) fn has_moved(&self) -> bool {
        self.share.get().has_moved()
    }

    /// How many octets went over data connections, both ways, since this was asked for last; `u64::MAX` for more.
    pub fn take_transferred(&self) -> u64 {
        self.transferred.replace(0)
    }

    /// Ends timeouts where nothing is left of it, and says whether it is over.
    pub(crate) fn is_over(&self) -> bool {
        match self.timeouts.spent() {
            Some(over) => {
                self.timeouts.end(over);
                true
            }
            None => false,
        }
    }

    /// A row of these events of the control connection.
    pub(crate) fn row(&self, events: i16) -> pollfd {
        asking(&self.stream, events)
    }

    /// Whether a reply may go now, and there is room for it; where its time is over, it can't go.
    pub(crate) fn has_room(&self) -> Result<(), Awaits> {
        let held = self.held.get();
        if monotonic_millis() < held && !self.timeouts.is_spent() {
            return Err(Awaits::until(held));
        }
        let mut rows = [self.row(c::POLLOUT)];
        if !self.has_replied() {
            if self.room.get() >= OWED_ROOM {
                return Ok(());
            }
            look(&mut rows);
            if rows[0].revents & c::POLLOUT != 0 {
                self.room.set(TOLD_ROOM);
            }
            if rows[0].revents != 0 || self.is_over() {
                return Ok(());
            }
        }
        Err(Awaits::one(rows[0]))
    }

    /// Says a reply, the last one, as far as there is room for it, and sends nothing more.
    pub fn say_last(&self, reply: &[u8]) {
        let _sent = send_now(&self.stream, reply);
    }

    /// Sends nothing more: the client finds the end after all replies.
    pub(crate) fn end(&self) -> io::Result<()> {
        self.stream.shutdown(Shutdown::Write)
    }
}

/// Whether octets stand behind the end of a line.
fn goes_on(octets: &[u8]) -> bool {
    match octets.split_last() {
        Some((_, front)) => front.contains(&b'\n'),
        None => false,
    }
}
