// A data connection of one who asks, which does not outlast its control connection.
ghost use Rattle.std.specs.Prelude.{◌≡◌};
ghost use Rattle.tool_sockets.specs.Waiting.{served_after};

use crate::options::{drop_connection, limit_untaken};
use crate::timeouts::{ClientTimeouts, monotonic_millis, piece_of};
use crate::wait::{Heeds, Woke, wait, wait_millis};
use ftp_ports::{Duplex, For, Ready, TURNS};
use std::io;
use std::io::{Error, ErrorKind, Read, Write};
use std::net::{Shutdown, TcpStream};

/// The most reads of octets that came behind the end of a transfer.
const LAST_READS: u32 = 4096;

/// A data connection. A read or a write that would wait fails as `WouldBlock` where the control connection has octets or ended. Where its time is over,
/// what would wait fails, and so does a connection whose peer takes nothing of what was written for as long.
#[derive(Drop)]
pub struct DataSocket<'a> {
    control: &'a TcpStream,
    stream: TcpStream,
    timeouts: &'a ClientTimeouts,
    /// Whether the peer's end was read, behind all that it sent.
    has_ended: bool,
}

/// The control connection ended before.
fn lost() -> Error {
    Error::from(ErrorKind::ConnectionAborted)
}

/// Which connection is to be served behind a wait that ended so.
fn served_after(woke: Woke) -> Ready
    ensures { result ≡ served_after woke }
{
    match woke {
        Woke::Ready => Ready::Data,
        Woke::Spoken => Ready::Control,
        Woke::Ended | Woke::TimeOver | Woke::Failed => Ready::Lost,
    }
}

/// What a read or a write that waited ends with, where the data connection was not ready.
fn halted(woke: Woke) -> Error {
    match woke {
        Woke::Spoken => Error::from(ErrorKind::WouldBlock),
        _ => lost(),
    }
}

impl<'a> DataSocket<'a> {
    /// A data connection beside its control connection.
    pub(crate) fn new(
        control: &'a TcpStream,
        stream: TcpStream,
        timeouts: &'a ClientTimeouts,
    ) -> io::Result<DataSocket<'a>> {
        stream.set_nonblocking(true)?;
        stream.set_nodelay(true)?;
        Ok(DataSocket {
            control,
            stream,
            timeouts,
            has_ended: false,
        })
    }

    /// So many octets went over the connection.
    fn moved(&self, count: usize) {
        if count > 0 {
            self.timeouts.touch();
        }
    }

    /// Limits how long what was written waits for the peer to take it, where room is waited for: octets that only the system took are no sign of life.
    fn limit(&self) {
        let _limited = limit_untaken(&self.stream, self.timeouts.untaken_millis());
    }

    /// Waits until octets can be read or written; where `hears`, octets of the control connection go first.
    pub(crate) fn wait(&self, what: For, hears: bool) -> Ready {
        let heeds = if hears {
            Heeds::OctetsFirst
        } else {
            Heeds::End
        };
        served_after(self.await_either(what, heeds))
    }

    /// Waits until octets can be read or written, or what is heeded of the control connection is there. Only where there is no room at once is it
    /// limited how long octets wait for the peer.
    fn await_either(&self, what: For, heeds: Heeds) -> Woke {
        if what == For::Room {
            match wait_millis(self.control, &self.stream, what, heeds, 0) {
                Woke::TimeOver => {}
                woke => return woke,
            }
            self.limit();
        }
        wait(self.control, &self.stream, what, heeds, self.timeouts)
    }

    /// Whether the peer's end was read, behind all that it sent: such a connection can be dropped, and nothing of what was sent is lost.
    pub(crate) fn has_ended(&self) -> bool {
        self.has_ended
    }

    /// Sends nothing more: the peer finds the end behind all that was sent.
    pub(crate) fn end(&self) -> io::Result<()> {
        self.stream.shutdown(Shutdown::Write)
    }

    /// Drops the connection, with what was not sent: the peer finds a reset.
    pub(crate) fn reset(self) {
        drop_connection(&self.stream);
    }

    /// Reads what the peer sent too much, since a connection that is dropped with unread octets is reset, and loses what was sent. Waits
    /// at most so many milliseconds in all for more.
    pub(crate) fn finish(mut self, millis: u64) {
        let until = monotonic_millis().saturating_add(millis);
        let mut rest = [0u8; 4096];
        for _ in 0..LAST_READS {
            match self.stream.read(&mut rest) {
                Ok(0) => return,
                Ok(_) => {}
                Err(error) if error.kind() == ErrorKind::WouldBlock => {
                    if !self.has_more(until) {
                        return;
                    }
                }
                Err(_) => return,
            }
        }
    }

    /// Whether the peer sends more before a moment of the monotonic clock, and the control connection lasts so long.
    fn has_more(&self, until: u64) -> bool {
        let left = piece_of(until.saturating_sub(monotonic_millis()));
        wait_millis(self.control, &self.stream, For::Octets, Heeds::End, left) == Woke::Ready
    }

    /// Waits until octets can be read or written; fails where the control connection has octets or ended before.
    fn await_turn(&self, what: For) -> io::Result<()> {
        match wait(
            self.control,
            &self.stream,
            what,
            Heeds::Octets,
            self.timeouts,
        ) {
            Woke::Ready => Ok(()),
            woke => Err(halted(woke)),
        }
    }
}

impl<'a> Read for DataSocket<'a> {
    fn read(&mut self, room: &mut [u8]) -> io::Result<usize> {
        for _ in 0..TURNS {
            match self.stream.read(room) {
                Err(error) if error.kind() == ErrorKind::WouldBlock => {}
                Ok(count) => {
                    self.moved(count);
                    self.has_ended = count == 0 && !room.is_empty();
                    return Ok(count);
                }
                failed => return failed,
            }
            self.await_turn(For::Octets)?;
        }
        Err(lost())
    }
}

impl<'a> Write for DataSocket<'a> {
    fn write(&mut self, octets: &[u8]) -> io::Result<usize> {
        for _ in 0..TURNS {
            match self.stream.write(octets) {
                Err(error) if error.kind() == ErrorKind::WouldBlock => {}
                Ok(count) => {
                    self.moved(count);
                    return Ok(count);
                }
                failed => return failed,
            }
            self.limit();
            self.await_turn(For::Room)?;
        }
        Err(lost())
    }

    fn flush(&mut self) -> io::Result<()> {
        Ok(())
    }
}

impl<'a> Duplex for DataSocket<'a> {
    fn receive(&mut self, room: &mut [u8]) -> io::Result<usize> {
        self.read(room)
    }

    fn send(&mut self, octets: &[u8]) -> io::Result<usize> {
        self.write(octets)
    }
}
