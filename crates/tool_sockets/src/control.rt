// The reader and the writer of a control connection of one who asks, and its close behind the last reply.
ghost use Rattle.std.specs.Prelude.{◌≤◌, IfOk, length};

use crate::timeouts::{ClientTimeouts, Waited, monotonic_millis, piece_of};
use crate::wait::{Polled, ask, asking};
use ftp_ports::TURNS;
use libc::net as c;
use std::io;
use std::io::{Error, ErrorKind, Read, Write};
use std::net::{Shutdown, TcpStream};
use std::os::fd::AsRawFd;

/// How long a peer is waited for after the last reply, in milliseconds, in all.
const LAST_MILLIS: u64 = 1_000;

/// What of a control connection ends a wait for octets.
const OCTETS: i16 = c::POLLIN | c::POLLRDHUP;

/// Reads a control connection, and waits for octets while time is left; behind that it has ended. Fails where the system's call does. An octet LF is the end of
/// a line of a reply (RFC 959, section 4.2), and so a sign of life.
#[derive(Drop)]
pub struct ControlReader<'a> {
    stream: &'a TcpStream,
    timeouts: &'a ClientTimeouts,
}

impl<'a> ControlReader<'a> {
    /// The reader of a stream, lent while the control connection lasts.
    pub fn new(stream: &'a TcpStream, timeouts: &'a ClientTimeouts) -> ControlReader<'a> {
        ControlReader { stream, timeouts }
    }
}

impl<'a> Read for ControlReader<'a> {
    fn read(&mut self, room: &mut [u8]) -> io::Result<usize> {
        if !is_there(self.stream, OCTETS, self.timeouts)? {
            return Ok(0);
        }
        let mut stream = self.stream;
        let count = stream.read(room)?;
        if room
            .get(..count)
            .is_some_and(|octets| octets.contains(&b'\n'))
        {
            self.timeouts.hear();
        }
        Ok(count)
    }
}

/// Writes a control connection. Where there is no room it waits for it while time is left; behind that a write fails as `TimedOut`.
#[derive(Drop)]
pub struct ControlWriter<'a> {
    stream: &'a TcpStream,
    timeouts: &'a ClientTimeouts,
}

impl<'a> ControlWriter<'a> {
    /// The writer of a stream, lent while the control connection lasts.
    pub fn new(stream: &'a TcpStream, timeouts: &'a ClientTimeouts) -> ControlWriter<'a> {
        ControlWriter { stream, timeouts }
    }
}

/// Waits until something of these events is there; not where its time is over, which ends it.
fn is_there(stream: &TcpStream, events: i16, timeouts: &ClientTimeouts) -> io::Result<bool> {
    let mut asked = [asking(stream, events)];
    match timeouts.wait(&mut asked) {
        Waited::Told => Ok(true),
        Waited::Over => {
            timeouts.end();
            Ok(false)
        }
        Waited::Failed => Err(Error::from(ErrorKind::ConnectionAborted)),
    }
}

/// Writes as many octets as there is room for now; fails as `WouldBlock` where there is none.
pub fn send_now<S: AsRawFd>(stream: &S, octets: &[u8]) -> io::Result<usize>
    // Witness: the writers of `tool_polling` and of this crate: `Write::write` asks for it.
    ensures within { IfOk result (λ count. count ≤ length octets.now) }
{
    let flags = c::MSG_NOSIGNAL | c::MSG_DONTWAIT;
    let count = unsafe { c::send(stream.as_raw_fd(), octets, flags) };
    usize::try_from(count).map_err(|_| Error::from_raw_os_error(os::errno()))
}

impl<'a> Write for ControlWriter<'a> {
    fn write(&mut self, octets: &[u8]) -> io::Result<usize> {
        for _ in 0..TURNS {
            match send_now(self.stream, octets) {
                Err(error) if error.kind() == ErrorKind::WouldBlock => {
                    if !is_there(self.stream, c::POLLOUT, self.timeouts)? {
                        return Err(Error::from(ErrorKind::TimedOut));
                    }
                }
                Ok(count) => {
                    self.timeouts.touch();
                    return Ok(count);
                }
                failed => return failed,
            }
        }
        Err(Error::from(ErrorKind::ConnectionAborted))
    }

    fn flush(&mut self) -> io::Result<()> {
        Ok(())
    }
}

/// Closes a control connection behind its last reply (RFC 959, section 4.1.1, QUIT): sends nothing more, and reads what the peer sent behind it, for a second
/// in all. A connection that is dropped with unread octets is reset, and loses the reply. Fails where the system's call does; the connection is over anyway.
pub fn say_goodbye(stream: &TcpStream) -> io::Result<()> {
    stream.shutdown(Shutdown::Write)?;
    let until = monotonic_millis().saturating_add(LAST_MILLIS);
    let mut rest = [0u8; 1024];
    let mut reader = stream;
    for _ in 0..TURNS {
        let left = until.saturating_sub(monotonic_millis());
        let mut asked = [asking(stream, OCTETS)];
        if left == 0 || ask(&mut asked, piece_of(left)) != Polled::Told {
            return Ok(());
        }
        if reader.read(&mut rest)? == 0 {
            return Ok(());
        }
    }
    Ok(())
}
