// The other side of data connections that is the same each time: it opens each at once, sends so many octets, has no room at first, breaks the
// first ones, moves few octets a call, fails at a call, and the control connection speaks at a time of its choice.
ghost use Rattle.std.specs.Prelude.{◌≡◌, None, Some};
ghost use Rattle.ftp_ports.specs.Asking.{Closes};
ghost use Rattle.rows_ends.specs.History.{asked_in};

use crate::driven::ConnectionPlan;
use crate::embedded::sockets::EmbeddedSockets;
use crate::event::YEAR_2000;
use crate::history::{History, PortCall};
use ftp_endpoint::{Endpoint, Host};
use ftp_ends::Wants;
use ftp_facts::Moment;
use ftp_ports::{
    Accepted, Awaited, Beside, Duplex, Failed, For, Ports, Ready, Spoken, Watch, Whole, get, put,
};
use ftp_server_driver::Data;
use rows_base::{Paper, Tally, fixed};
use std::alloc::Global;
use std::io;
use std::io::{Error, ErrorKind, Read, Write};

/// The host at the other end of data connections.
const PEER: Host = Host::V4([10, 0, 0, 2]);

/// How many octets a data connection takes before it breaks.
const TAKES: usize = 4;

/// More octets than a data connection takes.
const AMPLE: usize = 1 << 40;

/// A data connection that gives so many octets, if it can be read, and takes so many behind so many writes that find no room; a call may fail.
#[derive(Drop)]
pub struct PeerLink {
    rest: Option<u64>,
    given: u64,
    full: u64,
    room: usize,
    taken: Vec<u8>,
    /// How many calls go before one that fails.
    calls: u64,
    drive: ConnectionPlan,
}

impl PeerLink {
    /// Counts a call; whether it fails.
    fn fails(&mut self) -> bool
        ensures { self.new.taken ≡ self.old.taken }
    {
        if self.calls == 0 {
            return true;
        }
        self.calls -= 1;
        false
    }
}

/// Fills a room with the octets that come next, of which so many came before, and says how many came then.
fn fill(drive: ConnectionPlan, before: u64, room: &mut [u8]) -> u64 {
    let mut given = before;
    for octet in room {
        *octet = if drive.is_fixed { fixed(given) } else { b'x' };
        given = given.wrapping_add(1);
    }
    given
}

impl Read for PeerLink {
    fn read(&mut self, room: &mut [u8]) -> io::Result<usize> {
        self.receive(room)
    }
}

impl Write for PeerLink {
    ghost contents = { λ link. Some link.taken.items };

    fn write(&mut self, octets: &[u8]) -> io::Result<usize> {
        self.send(octets)
    }

    fn flush(&mut self) -> io::Result<()> {
        Ok(())
    }
}

impl Duplex for PeerLink {
    fn receive(&mut self, room: &mut [u8]) -> io::Result<usize> {
        let Some(rest) = self.rest else {
            return Err(Error::from(ErrorKind::ConnectionReset));
        };
        if self.fails() {
            return Err(Error::from(ErrorKind::ConnectionReset));
        }
        let count = room.len().min(rest as usize).min(self.drive.takes);
        self.given = fill(self.drive, self.given, &mut room[..count]);
        self.rest = Some(rest - count as u64);
        Ok(count)
    }

    fn send(&mut self, octets: &[u8]) -> io::Result<usize> {
        if self.full > 0 {
            self.full -= 1;
            return Err(Error::from(ErrorKind::WouldBlock));
        }
        if self.room == 0 {
            return Err(Error::from(ErrorKind::BrokenPipe));
        }
        if self.fails() {
            return Err(Error::from(ErrorKind::BrokenPipe));
        }
        let count = octets.len().min(self.room).min(self.drive.takes);
        match self.taken.extend_from_slice(&octets[..count]) {
            Ok(()) => {
                self.room -= count;
                Ok(count)
            }
            Err(_) => Err(Error::from(ErrorKind::OutOfMemory)),
        }
    }
}

/// Opens each data connection at once.
#[derive(Drop)]
pub struct Peer {
    alloc: Global,
    drive: ConnectionPlan,
    /// What came over data connections that are closed.
    taken: Tally,
    /// How many data connections were reset.
    resets: u64,
    /// The one that is open for the program of a page.
    opened: Option<PeerLink>,
    /// Where turns are made between those of others: how many looks find what they look for before one that doesn't.
    finds: Option<u64>,
    /// How many looks were made since.
    looks: u64,
    history: History,
}

impl Peer {
    pub fn new(alloc: Global, drive: ConnectionPlan) -> Peer {
        Peer {
            alloc,
            drive,
            taken: Tally::new(),
            resets: 0,
            opened: None,
            finds: None,
            looks: 0,
            history: History::new(alloc),
        }
    }

    /// Each of so many looks finds that it would wait.
    pub fn wait_at_each(&mut self, looks: u64) {
        self.finds = Some(looks);
    }

    /// Whether turns are made between those of others.
    pub fn is_among_others(&self) -> bool {
        self.finds.is_some()
    }

    /// A data connection that is closed is let go, and nothing of it is noted.
    pub fn let_go(&self, data: Data<PeerLink>) {
        let mut nobody = Peer::new(self.alloc, self.drive);
        data.finish(&mut nobody);
    }

    /// Counts a look, and says whether it finds what it looks for.
    fn finds(&mut self) -> bool
        ensures { self.new.history ≡ self.old.history }
    {
        let Some(each) = self.finds else {
            return true;
        };
        self.looks = self.looks.wrapping_add(1);
        if self.looks < each {
            return true;
        }
        self.looks = 0;
        false
    }

    /// Writes what came over the data connections, how many were reset, and what was asked, where the row wants that.
    pub fn show(&self, paper: &mut Paper) {
        paper.put(b"= data ");
        self.taken.show(paper);
        paper.put(b", resets ");
        paper.number(self.resets);
        paper.put(b"\n");
        if self.drive.is_asked {
            self.history.show(paper);
        }
    }

    pub fn clock(&self) -> Clock {
        Clock {
            now: YEAR_2000,
            step: self.drive.ticks,
        }
    }

    fn link(&mut self) -> PeerLink
        ensures { self.new.history ≡ self.old.history }
    {
        let room = self.room();
        PeerLink {
            rest: self.drive.sends,
            given: 0,
            full: self.drive.full,
            room,
            taken: Vec::new(self.alloc),
            calls: self.drive.fails,
            drive: self.drive,
        }
    }

    /// How many octets the next data connection takes.
    fn room(&mut self) -> usize
        ensures { self.new.history ≡ self.old.history }
    {
        if self.drive.breaks == 0 {
            return AMPLE;
        }
        self.drive.breaks -= 1;
        TAKES
    }
}

impl Ports for Peer {
    type Stream = PeerLink;

    ghost history = { λ peer. Some (asked_in peer.history.log.items) };

    fn listen(&mut self) -> Option<u16> {
        let port = Some(1930);
        self.history.note(PortCall::Listened(port));
        port
    }

    fn accept(&mut self, _hears: bool) -> Accepted<PeerLink> {
        let link = self.link();
        self.history.note_of(PortCall::Came(PEER), &link.taken);
        Accepted::Came(link, PEER)
    }

    fn connect(&mut self, endpoint: Endpoint) -> Option<PeerLink> {
        let link = self.link();
        self.history
            .note_of(PortCall::Connected(endpoint), &link.taken);
        Some(link)
    }

    fn wait(&mut self, _stream: &mut PeerLink, _what: For, hears: bool) -> Ready {
        if !hears {
            return Ready::Data;
        }
        if self.drive.silent == 0 {
            return Ready::Control;
        }
        self.drive.silent -= 1;
        Ready::Data
    }

    fn looks(&mut self, _what: Awaited) -> bool {
        self.finds()
    }

    fn looks_at(&mut self, _stream: &mut PeerLink, _what: For, _beside: Beside) -> bool {
        self.finds()
    }

    fn spoken(&mut self) -> Spoken {
        Spoken::Nothing
    }

    fn close(&mut self, stream: Option<Whole<PeerLink>>)
        ensures { Closes (λ link. None) (λ link. Some link.taken.items) stream
            (Some (asked_in self.old.history.log.items)) (Some (asked_in self.new.history.log.items)) }
    {
        match stream {
            Some(whole) => {
                let link = whole.into_stream();
                self.history.note_of(PortCall::Ended, &link.taken);
                self.taken.take(link.taken.as_slice());
            }
            None => self.history.note(PortCall::Shut),
        }
    }

    fn reset(&mut self, stream: PeerLink) {
        self.history.note_of(PortCall::Reset, &stream.taken);
        self.taken.take(stream.taken.as_slice());
        self.resets = self.resets.wrapping_add(1);
    }
}

impl EmbeddedSockets for Peer {
    fn listen(&mut self) -> Option<u16> {
        Some(1930)
    }

    fn open(&mut self, _wanted: Wants) -> Option<Host> {
        let link = self.link();
        self.opened = Some(link);
        Some(PEER)
    }

    fn read(&mut self, room: &mut [u8]) -> Result<usize, Failed> {
        match &mut self.opened {
            Some(link) => get(link, room),
            None => Err(Failed),
        }
    }

    fn write(&mut self, octets: &[u8]) -> Result<(), Failed> {
        match &mut self.opened {
            Some(link) => put(link, octets),
            None => Err(Failed),
        }
    }

    fn close(&mut self) {
        self.opened = None;
    }

    fn now(&mut self) -> Moment {
        YEAR_2000
    }
}

/// A clock that begins at the first second of the year 2000, and is so many seconds further after each look.
#[derive(Drop)]
pub struct Clock {
    now: Moment,
    step: u64,
}

impl Clock {
    /// One that stands still.
    pub fn still() -> Clock {
        Clock {
            now: YEAR_2000,
            step: 0,
        }
    }
}

impl Watch for Clock {
    fn moment(&mut self) -> Moment {
        let now = self.now;
        self.now = Moment::new(now.seconds.saturating_add(self.step)).unwrap_or(now);
        now
    }
}
