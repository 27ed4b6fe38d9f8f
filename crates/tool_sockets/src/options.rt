// Options of sockets, and how a connection is dropped.
ghost use Rattle.std.specs.Prelude.{◌↔◌, ◌≤ℤ◌, pos, IsOk};

use libc::net as c;
use std::io;
use std::io::Error;
use std::os::fd::AsRawFd;

/// How many seconds of a silent connection pass before its peer is probed, in seconds.
const IDLE_SECONDS: i32 = 120;

/// How long an answer to a probe is waited for before the next one, in seconds.
const PROBE_SECONDS: i32 = 30;

/// How many probes go without an answer before the connection has ended.
const PROBES: i32 = 4;

/// The length of an address that names no family, `AF_UNSPEC`.
const NO_ADDRESS: u32 = 16;

/// Whether a call of the system went well.
fn check(status: i32) -> io::Result<()>
    ensures { IsOk result ↔ (pos 0 ≤ℤ status) }
{
    if status < 0 {
        Err(Error::from_raw_os_error(os::errno()))
    } else {
        Ok(())
    }
}

/// The value of an option.
fn value(number: i32) -> [u8; 16] {
    let mut value = [0u8; 16];
    value[..4].copy_from_slice(&number.to_ne_bytes());
    value
}

/// A peer that vanished is noticed: the first probe goes after 120 idle seconds, then one each 30, and after 4 of them without an answer the
/// connection has ended.
pub fn keep_alive<S: AsRawFd>(stream: &S) -> io::Result<()> {
    let (fd, socket, tcp) = (stream.as_raw_fd(), c::SOL_SOCKET, c::IPPROTO_TCP);
    check(unsafe { c::setsockopt(fd, socket, c::SO_KEEPALIVE, &value(1), 4) })?;
    check(unsafe { c::setsockopt(fd, tcp, c::TCP_KEEPIDLE, &value(IDLE_SECONDS), 4) })?;
    check(unsafe { c::setsockopt(fd, tcp, c::TCP_KEEPINTVL, &value(PROBE_SECONDS), 4) })?;
    check(unsafe { c::setsockopt(fd, tcp, c::TCP_KEEPCNT, &value(PROBES), 4) })
}

/// Octets for which a peer makes no room, or of which it says nothing, for so many milliseconds break the connection (the user timeout of RFC 9293,
/// section 3.9.1); 0: they wait as long as the system lets them.
pub fn limit_untaken<S: AsRawFd>(stream: &S, millis: i32) -> io::Result<()> {
    let (fd, tcp) = (stream.as_raw_fd(), c::IPPROTO_TCP);
    check(unsafe { c::setsockopt(fd, tcp, c::TCP_USER_TIMEOUT, &value(millis), 4) })
}

/// At most so many octets wait in the system for the peer to take them, or twice as many as the system counts them.
pub fn limit_room<S: AsRawFd>(stream: &S, octets: i32) -> io::Result<()> {
    let (fd, socket) = (stream.as_raw_fd(), c::SOL_SOCKET);
    check(unsafe { c::setsockopt(fd, socket, c::SO_SNDBUF, &value(octets), 4) })
}

/// Drops a connection: its peer finds a reset, and what was not sent is lost. Linux does that where a connected socket is connected to no
/// address; where it is refused, the peer finds an end.
pub fn drop_connection<S: AsRawFd>(stream: &S) {
    let _status = unsafe { c::connect(stream.as_raw_fd(), &[0; 128], NO_ADDRESS) };
}
