// Data connections of one who asks, over real sockets.
ghost use Rattle.std.specs.Prelude.{◌≡◌, IfOk, None};
ghost use Rattle.ftp_ports.specs.Asking.{Closes};

use crate::host::{addr_of, host_of};
use crate::link::DataSocket;
use crate::sockets::Sockets;
use crate::timeouts::{ClientTimeouts, monotonic_millis, piece_of};
use crate::wait::{Heeds, Woke, look_at, wait, wait_millis};
use ftp_endpoint::Endpoint;
use ftp_ports::{Accepted, For, Ports, Ready, Spoken, TURNS, Whole};
use std::io;
use std::io::ErrorKind;
use std::net::{IpAddr, SocketAddr, TcpListener, TcpStream};
use std::os::fd::AsRawFd;

/// How long an opening may take, in milliseconds.
pub const OPENING_MILLIS: u64 = 30_000;

/// How long the end of the last data connection is waited for, in milliseconds.
const LEAVING_MILLIS: u64 = 500;

/// Data connections beside one control connection, for each of which is waited while time is left. One whose opening fails is none, whatever the reason.
#[derive(Drop)]
pub struct SocketPorts<'a, R: Sockets> {
    net: &'a R,
    control: &'a TcpStream,
    /// The address of this end.
    here: IpAddr,
    /// How long the peer is waited for.
    timeouts: &'a ClientTimeouts,
    listener: Option<TcpListener>,
    /// A connection that was ended, until what the peer sent too much is read.
    leaving: Option<DataSocket<'a>>,
    /// How many data connections were opened.
    opened: u32,
}

impl<'a, R: Sockets> SocketPorts<'a, R> {
    /// None was opened yet. Fails where the system does not tell the address of this end.
    pub fn new(
        net: &'a R,
        control: &'a TcpStream,
        timeouts: &'a ClientTimeouts,
    ) -> io::Result<SocketPorts<'a, R>>
        // Witness: `edits/a_data_connection_was_opened_before.edit`.
        ensures { IfOk result (λ ports. ports.opened ≡ 0) }
    {
        let here = control.local_addr()?.ip().to_canonical();
        Ok(SocketPorts {
            net,
            control,
            here,
            timeouts,
            listener: None,
            leaving: None,
            opened: 0,
        })
    }

    /// How many data connections were opened so far, by either end.
    pub fn opened(&self) -> u32
        ensures { result ≡ self.now.opened }
    {
        self.opened
    }

    /// Waits for half a second in all until the peer has ended the last data connection too.
    pub fn finish(&mut self) {
        self.listener = None;
        self.drain(LEAVING_MILLIS);
    }

    /// Ends a data connection; what the peer sends too much is read later. One whose peer has ended is dropped at once.
    fn leave(&mut self, link: DataSocket<'a>) {
        self.drain(0);
        if !link.has_ended() && link.end().is_ok() {
            self.leaving = Some(link);
        }
    }

    /// Reads what the peer of the last data connection sent too much, and waits at most so many milliseconds for its end.
    fn drain(&mut self, millis: u64) {
        if let Some(link) = self.leaving.take() {
            link.finish(millis);
        }
    }

    /// Listens at a port that the system chooses.
    fn bind(&mut self) -> io::Result<u16> {
        let listener = self.net.listener(SocketAddr::new(self.here, 0))?;
        let port = listener.local_addr()?.port();
        listener.set_nonblocking(true)?;
        self.listener = Some(listener);
        Ok(port)
    }

    /// Opens a connection; none where the control connection ends or the time is over before, and within 30 seconds.
    fn open(&self, addr: SocketAddr) -> io::Result<Option<TcpStream>> {
        let begun = self.net.connecting(addr)?;
        if !is_open_in_time(self.control, &begun, self.timeouts) {
            return Ok(None);
        }
        match begun.take_error()? {
            Some(error) => Err(error),
            None => Ok(Some(TcpStream::from(begun))),
        }
    }

    /// The connection that came, as a link.
    fn linked(&mut self, stream: TcpStream, peer: SocketAddr) -> Accepted<DataSocket<'a>> {
        self.listener = None;
        match self.counted(stream) {
            Some(link) => Accepted::Came(link, host_of(peer)),
            None => Accepted::Refused,
        }
    }

    /// An open connection as a link, which is counted.
    fn counted(&mut self, stream: TcpStream) -> Option<DataSocket<'a>> {
        let link = DataSocket::new(self.control, stream, self.timeouts).ok()?;
        self.opened = self.opened.saturating_add(1);
        Some(link)
    }
}

/// What waiting at a port gave.
#[derive(Drop)]
enum Arrival {
    /// A connection, from this address.
    Came(TcpStream, SocketAddr),
    /// The control connection has octets.
    Spoken,
    /// No connection comes any more.
    Refused,
}

/// The next connection that comes, if one did.
fn take_next(listener: &TcpListener) -> Option<Arrival> {
    match listener.accept() {
        Ok((stream, peer)) => Some(Arrival::Came(stream, peer)),
        Err(error) if error.kind() == ErrorKind::WouldBlock => None,
        Err(_) => Some(Arrival::Refused),
    }
}

/// Whether a connection that was begun is open, or was refused, within 30 seconds, while time is left and the control connection lasts.
fn is_open_in_time<S: AsRawFd>(control: &TcpStream, begun: &S, timeouts: &ClientTimeouts) -> bool {
    let until = monotonic_millis().saturating_add(OPENING_MILLIS);
    for _ in 0..TURNS {
        let left = until.saturating_sub(monotonic_millis());
        if left == 0 || timeouts.is_spent() {
            return false;
        }
        match wait_millis(control, begun, For::Room, Heeds::End, piece_of(left)) {
            Woke::Ready => return true,
            Woke::TimeOver => {}
            Woke::Spoken | Woke::Ended | Woke::Failed => return false,
        }
    }
    false
}

/// Waits at a port for a connection, or where `hears` for octets of the control connection.
fn wait_at(
    listener: &TcpListener,
    control: &TcpStream,
    timeouts: &ClientTimeouts,
    hears: bool,
) -> Arrival {
    let heeds = if hears { Heeds::Octets } else { Heeds::End };
    for _ in 0..TURNS {
        if let Some(arrival) = take_next(listener) {
            return arrival;
        }
        match wait(control, listener, For::Octets, heeds, timeouts) {
            Woke::Ready => {}
            Woke::Spoken => return Arrival::Spoken,
            Woke::Ended | Woke::TimeOver | Woke::Failed => return Arrival::Refused,
        }
    }
    Arrival::Refused
}

impl<'a, R: Sockets> Ports for SocketPorts<'a, R> {
    type Stream = DataSocket<'a>;

    fn listen(&mut self) -> Option<u16> {
        self.listener = None;
        self.drain(0);
        self.bind().ok()
    }

    fn accept(&mut self, hears: bool) -> Accepted<DataSocket<'a>> {
        let Some(listener) = &self.listener else {
            return Accepted::Refused;
        };
        match wait_at(listener, self.control, self.timeouts, hears) {
            Arrival::Came(stream, peer) => self.linked(stream, peer),
            Arrival::Spoken => Accepted::Spoken,
            Arrival::Refused => Accepted::Refused,
        }
    }

    fn connect(&mut self, endpoint: Endpoint) -> Option<DataSocket<'a>> {
        self.listener = None;
        self.drain(0);
        match self.open(addr_of(endpoint)) {
            Ok(Some(stream)) => self.counted(stream),
            Ok(None) | Err(_) => None,
        }
    }

    fn wait(&mut self, stream: &mut DataSocket<'a>, what: For, hears: bool) -> Ready {
        stream.wait(what, hears)
    }

    fn spoken(&mut self) -> Spoken {
        look_at(self.control)
    }

    /// What sockets are asked is not told.
    fn close(&mut self, stream: Option<Whole<DataSocket<'a>>>)
        ensures { Closes (λ link. None) (λ link. None) stream.entry None None }
    {
        self.listener = None;
        if let Some(whole) = stream {
            self.leave(whole.into_stream());
        }
    }

    fn reset(&mut self, stream: DataSocket<'a>) {
        self.listener = None;
        self.drain(0);
        stream.reset();
    }
}
