// A data connection, over which octets go where they can, and which is never waited for.
ghost use Rattle.std.specs.Global.{Global};

use crate::hangup::LinkOwner;
use crate::line::ControlLine;
use ftp_ports::{Duplex, For, Spoken};
use libc::types::pollfd;
use std::alloc::Global;
use std::io;
use std::io::{Error, ErrorKind, Read, Write};
use std::net::{Shutdown, TcpStream};
use std::rc::Rc;
use tool_sockets::{Other, drop_connection, limit_room, limit_untaken, monotonic_millis};

/// The most reads in a turn of octets that came behind the end of a transfer.
const LAST_READS: u32 = 64;

/// The most octets of a download that wait in the system where a transfer that moves is spared: so a slow one has room for more while it moves.
const SPARED_ROOM: i32 = 65_536;

/// A data connection. What would wait fails where its time is over, and is interrupted else: who looks first meets neither. Where the session is ended, or no
/// time is left of it, its control connection has ended, and what goes after that fails. The last octets of a download go after the end of the control
/// connection while the peer takes some within 30 seconds.
#[derive(Drop)]
pub struct LineLink {
    pub(crate) line: Rc<ControlLine, Global>,
    pub(crate) stream: TcpStream,
    pub(crate) owner: LinkOwner,
    pub(crate) time: LinkTime,
    /// The limit of octets that nobody takes, as it was set last, in milliseconds.
    limit: i32,
    /// What the last look found of the control connection and of this one, until that is asked for.
    pub(crate) seen: Option<(Spoken, Other)>,
    pub(crate) peer: PeerEnd,
    /// Whether nothing was looked for yet.
    pub(crate) is_new: bool,
    pub(crate) writes: Writes,
    /// Since when no octet came, where octets come and the control connection has ended: since its end at the earliest.
    pub(crate) quiet_since: Option<u64>,
}

/// How long a read or a write that would wait may be put off.
#[derive(Clone, Copy)]
pub(crate) enum LinkTime {
    /// As long as the control connection and its timeouts last.
    Lasts,
    /// The control connection ended, and the last octets of a download go: until this moment in milliseconds. What goes then is no sign of life.
    EndsAt(u64),
    /// No longer: nothing was there at the last look. The next read or write says so.
    IsOver,
}

/// How far the peer's end is known.
#[derive(Clone, Copy)]
pub(crate) enum PeerEnd {
    /// No look told of it.
    Unseen,
    /// A look told of it, behind octets that are not read yet or none.
    Told,
    /// It was read, behind all that the peer sent.
    Read,
}

/// The writes of a data connection so far; from the second one on what is written goes at once.
#[derive(Clone, Copy)]
pub(crate) enum Writes {
    Nothing,
    One,
    More,
}

/// The control connection ended before, or no time is left.
fn lost() -> Error {
    Error::from(ErrorKind::ConnectionAborted)
}

impl LineLink {
    /// A data connection beside its control connection. Fails where the system refuses an option of it.
    pub(crate) fn new(
        line: Rc<ControlLine, Global>,
        stream: TcpStream,
        owner: LinkOwner,
    ) -> io::Result<LineLink> {
        stream.set_nonblocking(true)?;
        if line.timeouts.are_transfers_spared() {
            limit_room(&stream, SPARED_ROOM)?;
        }
        Ok(LineLink {
            line,
            stream,
            owner,
            time: LinkTime::Lasts,
            limit: 0,
            seen: None,
            peer: PeerEnd::Unseen,
            is_new: true,
            writes: Writes::Nothing,
            quiet_since: None,
        })
    }

    /// Fails where the last look found that nothing was there and no time was left.
    fn check_time(&self) -> io::Result<()> {
        match self.time {
            LinkTime::IsOver => Err(lost()),
            LinkTime::Lasts | LinkTime::EndsAt(_) => Ok(()),
        }
    }

    /// So many octets went over the connection.
    fn moved(&mut self, count: usize) {
        if count == 0 {
            return;
        }
        self.line.data_went(count);
        self.quiet_since = self.quiet_since.map(|_| monotonic_millis());
        match self.time {
            LinkTime::Lasts | LinkTime::IsOver => self.line.timeouts.carry(),
            LinkTime::EndsAt(_) => {}
        }
    }

    /// A read or a write ended so: a failure is something done where the session goes on without this connection.
    fn note(&self, moved: &io::Result<usize>) {
        match self.owner {
            LinkOwner::Server => {
                if moved.is_err() {
                    self.line.timeouts.touch();
                }
            }
            LinkOwner::Client => {}
        }
    }

    /// One more write is made. The first one goes at once in any case; of what is written after it the system would keep a small rest back.
    fn hurry(&mut self) -> io::Result<()> {
        self.writes = match self.writes {
            Writes::Nothing => Writes::One,
            Writes::One => {
                self.stream.set_nodelay(true)?;
                Writes::More
            }
            Writes::More => Writes::More,
        };
        Ok(())
    }

    /// Limits how long what is written waits for the peer to take it, where there is no room for more: octets that only the system took are no sign of life.
    pub(crate) fn limit(&mut self) {
        let limit = self.line.timeouts.untaken_millis();
        if limit != self.limit {
            self.limit = limit;
            let _limited = limit_untaken(&self.stream, limit);
        }
    }

    /// What a read or a write meets that would wait.
    fn halted(&self) -> Error {
        let is_late = match self.time {
            LinkTime::Lasts => false,
            LinkTime::EndsAt(until) => until <= monotonic_millis(),
            LinkTime::IsOver => true,
        };
        if is_late || self.line.timeouts.spent().is_some() {
            lost()
        } else {
            Error::from(ErrorKind::Interrupted)
        }
    }

    /// Whether the peer's end was read, behind all that it sent: such a connection can be dropped, and nothing of what was sent is lost.
    pub(crate) fn has_ended(&self) -> bool {
        matches!(self.peer, PeerEnd::Read)
    }

    /// Sends nothing more: the peer finds the end behind all that was sent.
    pub(crate) fn end(&self) -> io::Result<()> {
        self.stream.shutdown(Shutdown::Write)
    }

    /// Drops the connection, with what was not sent: the peer finds a reset.
    pub(crate) fn reset(self) {
        drop_connection(&self.stream);
    }

    /// The row of what the peer sends too much.
    pub(crate) fn rest_row(&self) -> pollfd {
        self.row(For::Octets)
    }

    /// Reads what the peer sent too much, since a connection that is dropped with unread octets is reset, and loses what was sent. Says whether the peer
    /// may send more.
    pub(crate) fn drain(&mut self) -> bool {
        let mut rest = [0u8; 4096];
        for _ in 0..LAST_READS {
            match self.stream.read(&mut rest) {
                Ok(0) => return false,
                Ok(_) => {}
                Err(error) => return error.kind() == ErrorKind::WouldBlock,
            }
        }
        true
    }
}

impl Read for LineLink {
    fn read(&mut self, room: &mut [u8]) -> io::Result<usize> {
        self.check_time()?;
        match self.stream.read(room) {
            Err(error) if error.kind() == ErrorKind::WouldBlock => Err(self.halted()),
            Ok(count) => {
                self.moved(count);
                if count == 0 && !room.is_empty() {
                    self.peer = PeerEnd::Read;
                }
                Ok(count)
            }
            failed => failed,
        }
    }
}

impl Write for LineLink {
    fn write(&mut self, octets: &[u8]) -> io::Result<usize> {
        self.check_time()?;
        self.hurry()?;
        match self.stream.write(octets) {
            Err(error) if error.kind() == ErrorKind::WouldBlock => Err(self.halted()),
            Ok(count) => {
                if count < octets.len() {
                    self.limit();
                }
                self.moved(count);
                Ok(count)
            }
            failed => failed,
        }
    }

    fn flush(&mut self) -> io::Result<()> {
        Ok(())
    }
}

impl Duplex for LineLink {
    fn receive(&mut self, room: &mut [u8]) -> io::Result<usize> {
        let read = self.read(room);
        self.note(&read);
        read
    }

    fn send(&mut self, octets: &[u8]) -> io::Result<usize> {
        let written = self.write(octets);
        self.note(&written);
        written
    }
}
