// A control connection to a server: how it is opened, and how it ends.
ghost use Rattle.std.specs.Prelude.{◌≡◌};
ghost use Rattle.tool_connect.specs.Again.{full_seconds, seconds_left, share_of, whole_seconds};

use ftp_endpoint::Host;
use std::io;
use std::io::{Error, ErrorKind, Write};
use std::net::{Net, SocketAddr, TcpListener, TcpStream, ToSocketAddrs};
use std::time::Duration;
use tool_session::ServerAddress;
use tool_sockets::{host_of, keep_alive, monotonic_millis, say_goodbye};

/// A control connection to a server: to the first of its addresses that answers in time. Its octets go at once, and the system looks whether its peer is
/// there. Fails where no address answers, `--max-time` is over, or the system refuses.
pub(crate) fn connected<R>(rt: &R, server: ServerAddress<'_>) -> io::Result<TcpStream>
where
    R: Net<Listener = TcpListener, Stream = TcpStream>,
{
    let stream = opened(rt, server)?;
    stream.set_nodelay(true)?;
    keep_alive(&stream)?;
    Ok(stream)
}

/// A further control connection, to the address of the first one. Fails as `connected`.
pub(crate) fn connected_to<R>(
    rt: &R,
    address: SocketAddr,
    server: ServerAddress<'_>,
) -> io::Result<TcpStream>
where
    R: Net<Listener = TcpListener, Stream = TcpStream>,
{
    open(rt, address, seconds_for(server)?)
}

/// A connection to the first address that answers in time; all of them together have the seconds of the server. The error is that of the last address.
fn opened<R>(rt: &R, server: ServerAddress<'_>) -> io::Result<TcpStream>
where
    R: Net<Listener = TcpListener, Stream = TcpStream>,
{
    let mut last = Error::from(ErrorKind::NotFound);
    let addresses = (server.host, server.port).to_socket_addrs(rt)?;
    let count = u32::try_from(addresses.len()).unwrap_or(u32::MAX);
    let seconds = share_of(seconds_for(server)?, count);
    for address in addresses {
        match open(rt, address, seconds) {
            Ok(stream) => return Ok(stream),
            Err(error) => last = error,
        }
    }
    Err(last)
}

/// The seconds in which a connection is to be opened; 0: without a limit. Fails where no time is left.
fn seconds_for(server: ServerAddress<'_>) -> io::Result<u32> {
    let left = left_until(server.until);
    if left == Some(0) {
        return Err(Error::new(ErrorKind::TimedOut, "the time of --max-time is over"));
    }
    Ok(seconds_left(server.timeout, left))
}

/// How many whole seconds went by since a moment of the monotonic clock, in milliseconds.
pub(crate) fn seconds_since(begun: u64) -> u32 {
    full_seconds(monotonic_millis().saturating_sub(begun))
}

/// The whole seconds of so many milliseconds.
fn full_seconds(millis: u64) -> u32
    ensures { result ≡ full_seconds millis }
{
    (millis / 1_000).min(4_294_967_295) as u32
}

/// How many milliseconds are left until a moment of the monotonic clock, where there is one.
pub(crate) fn left_until(until: Option<u64>) -> Option<u64> {
    match until {
        Some(until) => Some(until.saturating_sub(monotonic_millis())),
        None => None,
    }
}

/// The fewer of so many seconds, of which 0 is no limit, and of what is left in milliseconds, one at least.
pub(crate) fn seconds_left(seconds: u32, left: Option<u64>) -> u32
    ensures { result ≡ seconds_left seconds left }
{
    let Some(left) = left else {
        return seconds;
    };
    let most = whole_seconds(left);
    if seconds == 0 {
        most
    } else {
        seconds.min(most)
    }
}

/// The seconds of so many milliseconds, rounded up, one at least.
fn whole_seconds(millis: u64) -> u32
    ensures { result ≡ whole_seconds millis }
{
    millis.div_ceil(1_000).clamp(1, 4_294_967_295) as u32
}

/// How many seconds each of so many addresses has to answer; 0: without a limit.
fn share_of(seconds: u32, addresses: u32) -> u32
    ensures { result ≡ share_of seconds addresses }
{
    if seconds == 0 {
        0
    } else {
        (seconds / addresses.max(1)).max(1)
    }
}

/// A connection to an address, within so many seconds; 0: as long as the system tries.
fn open<R>(rt: &R, address: SocketAddr, seconds: u32) -> io::Result<TcpStream>
where
    R: Net<Listener = TcpListener, Stream = TcpStream>,
{
    if seconds == 0 {
        TcpStream::connect(rt, address)
    } else {
        TcpStream::connect_timeout(rt, &address, Duration::from_secs(u64::from(seconds)))
    }
}

/// The hosts at this end of a connection and at the other. Fails where the system does not tell them.
pub(crate) fn hosts_of(stream: &TcpStream) -> io::Result<(Host, Host)> {
    let here = host_of(stream.local_addr()?);
    let peer = host_of(stream.peer_addr()?);
    Ok((here, peer))
}

/// Says QUIT, and waits a second at most for the server's last reply (RFC 959, section 4.1.1). Fails where the connection does.
pub(crate) fn leave(stream: &TcpStream) -> io::Result<()> {
    let mut writer = stream;
    writer.write_all(b"QUIT\r\n")?;
    say_goodbye(stream)
}
