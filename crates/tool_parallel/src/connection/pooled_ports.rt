// The data connections beside one control connection of a pool: they are looked at, bring no more than they may, and are no faster than they may be.
ghost use Rattle.std.specs.Prelude.{◌≡◌, ◌≤◌, None};
ghost use Rattle.ftp_ports.specs.Asking.{Closes};

use ftp_endpoint::Endpoint;
use ftp_ports::{Accepted, Awaited, Beside, Duplex, For, Ports, Ready, Spoken, Whole};
use std::io;
use std::io::{Error, ErrorKind, Read, Write};
use tool_polling::{Awaits, LineLink, LinePorts};
use tool_session::{RequestState, pause_of, piece_of};
use tool_sockets::{Sockets, monotonic_millis};

/// Data connections of which none is waited for.
#[derive(Drop)]
pub struct PooledPorts<'a, R: Sockets> {
    ports: LinePorts<'a, R>,
    request_state: &'a RequestState,
    /// The most octets a second; 0: without a limit.
    rate: u64,
    /// How many were opened, by either end.
    opened: u32,
    /// Until when nothing moves, in milliseconds of the monotonic clock, where the last look was at a data connection that is too fast.
    paused_until: Option<u64>,
}

/// A data connection of which nothing is waited for.
#[derive(Drop)]
pub struct PooledLink<'a> {
    link: LineLink,
    request_state: &'a RequestState,
    /// The most octets a second; 0: without a limit.
    rate: u64,
    /// When it was opened, in milliseconds of the monotonic clock.
    begun: u64,
    /// How many octets it moved.
    moved: u64,
    /// How many lines of a listing came.
    lines: u64,
}

impl<'a, R: Sockets> PooledPorts<'a, R> {
    /// Data connections of which none was opened yet, each for at most `rate` octets a second; 0: without a limit. `request_state` says how much one may
    /// bring, and learns what moved.
    pub fn new(
        ports: LinePorts<'a, R>,
        request_state: &'a RequestState,
        rate: u64,
    ) -> PooledPorts<'a, R>
        // Witness: `edits/a_rate_is_without_a_limit`, `the_first_data_connection_is_the_second`.
        ensures rate { result.rate ≡ rate }
        ensures unopened { result.opened ≡ 0 }
    {
        PooledPorts {
            ports,
            request_state,
            rate,
            opened: 0,
            paused_until: None,
        }
    }

    /// How many were opened so far, by either end.
    pub(crate) fn opened(&self) -> u32
        ensures { result ≡ self.now.opened }
    {
        self.opened
    }

    /// What the last look that told of nothing waits for.
    pub(crate) fn awaits(&self) -> Awaits {
        match self.paused_until {
            Some(until) => Awaits {
                until,
                ..Awaits::nothing()
            },
            None => self.ports.awaits(),
        }
    }

    /// The connection that was ended last, where what its peer sends too much is still to be read.
    pub(crate) fn take_leaving(&mut self) -> Option<LineLink> {
        self.ports.take_leaving()
    }

    /// A data connection that was opened now, of which nothing moved.
    fn counted(&mut self, link: LineLink) -> PooledLink<'a> {
        self.opened = self.opened.saturating_add(1);
        PooledLink {
            link,
            request_state: self.request_state,
            rate: self.rate,
            begun: monotonic_millis(),
            moved: 0,
            lines: 0,
        }
    }
}

impl<'a, R: Sockets> Ports for PooledPorts<'a, R> {
    type Stream = PooledLink<'a>;

    fn listen(&mut self) -> Option<u16> {
        self.ports.listen()
    }

    fn accept(&mut self, hears: bool) -> Accepted<PooledLink<'a>> {
        match self.ports.accept(hears) {
            Accepted::Came(link, host) => Accepted::Came(self.counted(link), host),
            Accepted::Spoken => Accepted::Spoken,
            Accepted::Refused => Accepted::Refused,
        }
    }

    fn connect(&mut self, endpoint: Endpoint) -> Option<PooledLink<'a>> {
        let link = self.ports.connect(endpoint)?;
        Some(self.counted(link))
    }

    fn wait(&mut self, stream: &mut PooledLink<'a>, what: For, hears: bool) -> Ready {
        let ready = self.ports.wait(&mut stream.link, what, hears);
        self.request_state.waited(ready);
        ready
    }

    fn looks(&mut self, what: Awaited) -> bool {
        self.paused_until = None;
        self.ports.looks(what)
    }

    fn looks_at(&mut self, stream: &mut PooledLink<'a>, what: For, beside: Beside) -> bool {
        self.paused_until = stream.paused_until();
        if self.paused_until.is_some() {
            return false;
        }
        self.ports.looks_at(&mut stream.link, what, beside)
    }

    fn spoken(&mut self) -> Spoken {
        self.ports.spoken()
    }

    fn close(&mut self, stream: Option<Whole<PooledLink<'a>>>)
        ensures { Closes (λ link. None) (λ link. None) stream.entry None None }
    {
        self.ports.close(match stream {
            Some(whole) => Some(whole.map(|counted| counted.ended())),
            None => None,
        });
    }

    fn reset(&mut self, stream: PooledLink<'a>) {
        self.ports.reset(stream.ended());
    }
}

impl<'a> PooledLink<'a> {
    /// Until when nothing moves, where octets went too fast so far.
    fn paused_until(&self) -> Option<u64> {
        if self.rate == 0 {
            return None;
        }
        let now = monotonic_millis();
        match pause_of(self.rate, self.moved, now.saturating_sub(self.begun)) {
            0 => None,
            millis => Some(now.saturating_add(u64::from(millis))),
        }
    }

    /// How many octets of these may be moved at once.
    fn most_of(&self, count: usize) -> usize
        ensures within { result ≤ count }
    {
        if self.rate == 0 {
            return count;
        }
        match usize::try_from(piece_of(self.rate)) {
            Ok(piece) => count.min(piece),
            Err(_) => count,
        }
    }

    /// So many octets more were moved.
    fn add(&mut self, count: usize) {
        self.moved = self.moved.saturating_add(count as u64);
        self.request_state.moved(count);
    }

    /// The lines that end in octets that came, where they are counted.
    fn add_lines(&mut self, octets: &[u8]) {
        if self.request_state.counts_lines() {
            let ends = octets.iter().filter(|octet| **octet == b'\n').count();
            self.lines = self.lines.saturating_add(ends as u64);
        }
    }

    /// The connection itself.
    fn ended(self) -> LineLink {
        let PooledLink {
            link,
            request_state: _,
            rate: _,
            begun: _,
            moved: _,
            lines: _,
        } = self;
        link
    }
}

impl<'a> Read for PooledLink<'a> {
    fn read(&mut self, room: &mut [u8]) -> io::Result<usize> {
        let most = self.most_of(room.len());
        let (front, _) = room.split_at_mut(most);
        let count = self.link.read(front)?;
        self.add(count);
        self.add_lines(room.get(..count).unwrap_or(&[]));
        if self.request_state.cuts_off(self.moved, self.lines) {
            return Err(Error::from(ErrorKind::ConnectionAborted));
        }
        Ok(count)
    }
}

impl<'a> Write for PooledLink<'a> {
    fn write(&mut self, octets: &[u8]) -> io::Result<usize> {
        let most = self.most_of(octets.len());
        let (front, _) = octets.split_at(most);
        let count = self.link.write(front)?;
        self.add(count);
        Ok(count)
    }

    fn flush(&mut self) -> io::Result<()> {
        self.link.flush()
    }
}

impl<'a> Duplex for PooledLink<'a> {
    fn receive(&mut self, room: &mut [u8]) -> io::Result<usize> {
        self.read(room)
    }

    fn send(&mut self, octets: &[u8]) -> io::Result<usize> {
        self.write(octets)
    }
}
