// How far a transfer is, on standard error, and how fast it may be.
ghost use Rattle.std.specs.Prelude.{◌≤◌, None};
ghost use Rattle.ftp_ports.specs.Asking.{Closes};

use crate::live::Opens;
use ftp_endpoint::Endpoint;
use ftp_ports::{Accepted, Duplex, For, Ports, Ready, Spoken, Whole};
use std::io;
use std::io::{Eprint, Error, ErrorKind, Read, Write};
use std::net::{Net, TcpListener, TcpStream};
use std::time::{Clock, Duration, Instant};
use tool_session::{RequestState, ServerAddress, pause_of, piece_of};
use tool_sockets::{ClientTimeouts, DataSocket, SocketPorts, pause};
use tool_terminal::pace_of;

/// How long a transfer goes on before it is told of, and between two tellings.
const BETWEEN_SECONDS: u64 = 1;

/// When a data connection was opened, and when it was told of last.
#[derive(Clone, Copy)]
struct ProgressTimes {
    begun: Instant,
    last: Option<Instant>,
}

/// Data connections that tell how far they are, and are no faster than they may be.
#[derive(Drop)]
pub(crate) struct MeteredPorts<'a, R: Net<Listener = TcpListener, Stream = TcpStream>> {
    rt: &'a R,
    ports: SocketPorts<'a, R>,
    request_state: &'a RequestState,
    /// Whether it is told how far they are.
    is_told: bool,
    /// The most octets a second; 0: without a limit.
    rate: u64,
}

/// A data connection that tells how far it is, and is no faster than it may be.
#[derive(Drop)]
pub(crate) struct MeteredLink<'a, R> {
    rt: &'a R,
    link: DataSocket<'a>,
    request_state: &'a RequestState,
    /// The most octets a second; 0: without a limit.
    rate: u64,
    /// When it was opened, where the system tells the time.
    begun: Option<Instant>,
    /// How many octets it moved.
    moved: u64,
    /// How many lines of a listing came.
    lines: u64,
    /// When it was opened, and when it was told of last; none where nothing is to be told.
    told: Option<ProgressTimes>,
}

impl<'a, R> MeteredPorts<'a, R>
where
    R: Net<Listener = TcpListener, Stream = TcpStream> + Clock,
{
    /// Data connections beside a control connection to this server. Fails where the system does not tell the address of this end.
    pub(crate) fn beside(
        rt: &'a R,
        control: &'a TcpStream,
        timeouts: &'a ClientTimeouts,
        request_state: &'a RequestState,
        server: ServerAddress<'_>,
    ) -> io::Result<MeteredPorts<'a, R>> {
        let ports = SocketPorts::new(rt, control, timeouts)?;
        Ok(MeteredPorts {
            rt,
            ports,
            request_state,
            is_told: server.progress,
            rate: server.rate,
        })
    }

    /// A data connection that was opened now, of which nothing moved.
    fn metered(&self, link: DataSocket<'a>) -> MeteredLink<'a, R> {
        let begun = Instant::now(self.rt).ok();
        let told = match begun {
            Some(begun) if self.is_told => Some(ProgressTimes { begun, last: None }),
            _ => None,
        };
        MeteredLink {
            rt: self.rt,
            link,
            request_state: self.request_state,
            rate: self.rate,
            begun,
            moved: 0,
            lines: 0,
            told,
        }
    }
}

impl<'a, R> Ports for MeteredPorts<'a, R>
where
    R: Net<Listener = TcpListener, Stream = TcpStream> + Clock + Eprint,
{
    type Stream = MeteredLink<'a, R>;

    fn listen(&mut self) -> Option<u16> {
        self.ports.listen()
    }

    fn accept(&mut self, hears: bool) -> Accepted<MeteredLink<'a, R>> {
        match self.ports.accept(hears) {
            Accepted::Came(link, host) => Accepted::Came(self.metered(link), host),
            Accepted::Spoken => Accepted::Spoken,
            Accepted::Refused => Accepted::Refused,
        }
    }

    fn connect(&mut self, endpoint: Endpoint) -> Option<MeteredLink<'a, R>> {
        let link = self.ports.connect(endpoint)?;
        Some(self.metered(link))
    }

    fn wait(&mut self, stream: &mut MeteredLink<'a, R>, what: For, hears: bool) -> Ready {
        let ready = self.ports.wait(&mut stream.link, what, hears);
        self.request_state.waited(ready);
        ready
    }

    fn spoken(&mut self) -> Spoken {
        self.ports.spoken()
    }

    fn close(&mut self, stream: Option<Whole<MeteredLink<'a, R>>>)
        ensures { Closes (λ link. None) (λ link. None) stream.entry None None }
    {
        self.ports.close(match stream {
            Some(whole) => Some(whole.map(|metered| metered.ended())),
            None => None,
        });
    }

    fn reset(&mut self, stream: MeteredLink<'a, R>) {
        self.ports.reset(stream.ended());
    }
}

impl<'a, R> Opens for MeteredPorts<'a, R>
where
    R: Net<Listener = TcpListener, Stream = TcpStream> + Clock + Eprint,
{
    fn opened(&self) -> u32 {
        self.ports.opened()
    }

    fn finish(&mut self) {
        self.ports.finish();
    }
}

impl<'a, R: Clock + Eprint> MeteredLink<'a, R> {
    /// So many octets more were moved.
    fn add(&mut self, count: usize) {
        self.moved = self.moved.saturating_add(count as u64);
        self.request_state.moved(count);
        let (Some(told), Ok(now)) = (self.told, Instant::now(self.rt)) else {
            return;
        };
        let since = told.last.unwrap_or(told.begun);
        if now.duration_since(since) >= Duration::from_secs(BETWEEN_SECONDS) {
            self.told = Some(ProgressTimes {
                begun: told.begun,
                last: Some(now),
            });
            self.tell(told.begun, now, "");
        }
    }

    /// Tells how far it is, and what stands behind that.
    fn tell(&self, begun: Instant, now: Instant, behind: &str) {
        let pace = pace_of(
            self.request_state.span(),
            self.moved,
            millis_between(begun, now),
        );
        let _told = eprint!(self.rt; "\r{pace}{behind}");
    }

    /// Waits until more may be moved; gives how many octets of these may be at once.
    fn await_turn(&self, count: usize) -> usize
        ensures within { result ≤ count }
    {
        if self.rate == 0 {
            return count;
        }
        if let (Some(begun), Ok(now)) = (self.begun, Instant::now(self.rt)) {
            pause(pause_of(self.rate, self.moved, millis_between(begun, now)));
        }
        match usize::try_from(piece_of(self.rate)) {
            Ok(piece) => count.min(piece),
            Err(_) => count,
        }
    }

    /// The lines that end in octets that came, where they are counted.
    fn add_lines(&mut self, octets: &[u8]) {
        if self.request_state.counts_lines() {
            let ends = octets.iter().filter(|octet| **octet == b'\n').count();
            self.lines = self.lines.saturating_add(ends as u64);
        }
    }

    /// The connection itself, of which nothing is told any more.
    fn ended(self) -> DataSocket<'a> {
        if let Some(
            ProgressTimes {
                begun,
                last: Some(_),
            },
        ) = self.told
        {
            if let Ok(now) = Instant::now(self.rt) {
                self.tell(begun, now, "\n");
            }
        }
        let MeteredLink {
            rt: _,
            link,
            request_state: _,
            rate: _,
            begun: _,
            moved: _,
            lines: _,
            told: _,
        } = self;
        link
    }
}

/// The milliseconds from one moment to a later one.
fn millis_between(begun: Instant, now: Instant) -> u64 {
    u64::try_from(now.duration_since(begun).as_millis()).unwrap_or(u64::MAX)
}

impl<'a, R: Clock + Eprint> Read for MeteredLink<'a, R> {
    fn read(&mut self, room: &mut [u8]) -> io::Result<usize> {
        let most = self.await_turn(room.len());
        let (front, _) = room.split_at_mut(most);
        let count = self.link.read(front)?;
        self.add(count);
        self.add_lines(room.get(..count).unwrap_or(&[]));
        if self.request_state.cuts_off(self.moved, self.lines) {
            return Err(Error::from(ErrorKind::ConnectionAborted));
        }
        Ok(count)
    }
}

impl<'a, R: Clock + Eprint> Write for MeteredLink<'a, R> {
    fn write(&mut self, octets: &[u8]) -> io::Result<usize> {
        let most = self.await_turn(octets.len());
        let (front, _) = octets.split_at(most);
        let count = self.link.write(front)?;
        self.add(count);
        Ok(count)
    }

    fn flush(&mut self) -> io::Result<()> {
        self.link.flush()
    }
}

impl<'a, R: Clock + Eprint> Duplex for MeteredLink<'a, R> {
    fn receive(&mut self, room: &mut [u8]) -> io::Result<usize> {
        self.read(room)
    }

    fn send(&mut self, octets: &[u8]) -> io::Result<usize> {
        self.write(octets)
    }
}
