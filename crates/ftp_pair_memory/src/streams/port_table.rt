// What the ports of an end know of its data connection in memory, and what was asked of them.
ghost use Rattle.std.specs.Prelude.{◌<◌, ◌≡◌, ◌+◌, ◌%◌, ◌∷◌, [], IfSome, IsTrue, None, Some, false, true};
ghost use Rattle.ftp_ports.specs.Asking.{Came, Connected, Ended as EndedBy, Listened, NotCame, NotConnected, Reset as ResetBy, Shut};
ghost use Rattle.laws_world.specs.World.{port_at};
ghost use Rattle.ftp_pair_memory.specs.streams.PortTableMoves.{is_back, is_ended, is_out, is_reached, hold_at, left_in, went_in};
ghost use Rattle.ftp_pair_memory.specs.streams.PortTableMoves.{MovesNothing, header, known_by, link_state_at, noted_in, told};

use crate::streams::wire::{Closed, Wire};
use ftp_endpoint::{Endpoint, Host};
use http_server::Log;
use std::alloc::Global;

/// How many ports are listened at, one after another; after the last one the first comes again (RFC 6335, section 6).
const PORTS: u16 = 16_384;

/// The first of them.
const FIRST_PORT: u16 = 49_152;

/// How an end stands to its data connection, as its ports know.
#[derive(Clone, Copy, PartialEq, Eq)]
pub enum Stay {
    /// It has none.
    Free,
    /// It listens at this port.
    Awaits(u16),
    /// It was dialled there.
    Called,
    /// It has one.
    Out,
    /// It ended the one that it had.
    Ended,
    /// It reset the one that it had.
    Reset,
}

/// What is asked of ports, and answered.
#[derive(Clone, Copy)]
pub enum Event {
    /// The end listens at this port; at none, since it has a data connection.
    Listened(Option<u16>),
    /// The end accepted the data connection that was dialled, from this host.
    Came(Host),
    /// None was dialled that it could accept.
    NotCame,
    /// The end dialled there, where the other end listens.
    Connected(Endpoint),
    /// It dialled there, where nobody listens, or while it has a data connection.
    NotConnected(Endpoint),
    /// It gave its data connection back, ended.
    Ended,
    /// It gave it back, reset.
    Reset,
    /// It listens no more.
    Shut,
}

/// How a turn found it.
#[derive(Clone, Copy)]
pub struct Found {
    pub(crate) stay: Stay,
    /// The port at which the other end listened, where it did.
    pub(crate) calls: Option<u16>,
    /// How many ports were listened at by either end.
    pub(crate) listens: u16,
    /// The host at the other end.
    pub(crate) host: Host,
}

/// What the ports of an end know of its data connection in memory.
#[derive(Drop)]
pub struct PortTable {
    pub(crate) stay: Stay,
    /// The data connection, where the end doesn't have it; else one of no octets.
    pub(crate) wire: Wire,
    /// The port at which the other end listens, where it does.
    pub(crate) calls: Option<u16>,
    /// Whether this end dialled it there.
    pub(crate) dialled: bool,
    /// How many ports were listened at by either end, as far as this one counts them: it counts while it has its turn.
    pub(crate) listens: u16,
    /// The host at the other end.
    pub(crate) host: Host,
    /// Whether nothing is known of it: no turn was begun, or in this one the end gave back a data connection that was not its own.
    pub(crate) spoiled: bool,
    pub(crate) alloc: Global,
    /// How the turn found it, and what was asked since: only proofs read them.
    pub(crate) found: Log<Found, Wire>,
    pub(crate) log: Log<Event, Wire>,
    ghost known: { (noted_in found.items log.items).link_state ≡ known_by spoiled (link_state_at stay wire calls dialled listens host) },
    ghost few: { listens < 16384 },
}

impl PortTable {
    ghost use Rattle.ftp_pair_memory.specs.streams.PortTables.{asked_of};

    /// There is none; a read or a write of one moves at most `most` octets, of 0 one.
    pub(crate) fn new(alloc: Global, host: Host, most: usize) -> PortTable
        ensures stay { result.stay ≡ Stay.Free }
        ensures came { result.wire.came.items ≡ [] }
        ensures went { result.wire.went.items ≡ [] }
        ensures closed { result.wire.closed ≡ Closed.No }
        ensures calls { result.calls ≡ None }
        ensures undialled { result.dialled ≡ false }
        ensures listens { result.listens ≡ 0 }
        ensures host { result.host ≡ host }
        ensures most { result.wire.most ≡ most }
    {
        PortTable {
            stay: Stay::Free,
            wire: Wire::new(alloc, Closed::No, most),
            calls: None,
            dialled: false,
            listens: 0,
            host,
            spoiled: true,
            alloc,
            found: Log::new(),
            log: Log::new(),
        }
    }

    /// A turn of its end begins: the other end closed it so, listens at this port, where it does, and counted so many ports.
    pub(crate) fn begin(&mut self, closed: Closed, calls: Option<u16>, listens: u16)
        requires { listens < 16384 }
        ensures stay { self.new.stay ≡ self.old.stay }
        ensures came { self.new.wire.came ≡ self.old.wire.came }
        ensures went { self.new.wire.went ≡ self.old.wire.went }
        ensures closed { self.new.wire.closed ≡ closed }
        ensures calls { self.new.calls ≡ calls }
        ensures undialled { self.new.dialled ≡ false }
        ensures listens { self.new.listens ≡ (self.old.listens + listens) % 16384 }
        ensures host { self.new.host ≡ self.old.host }
        ensures known { self.new.spoiled ≡ false }
        ensures asked { asked_of self.new
            ≡ header (link_state_at self.new.stay self.new.wire calls false self.new.listens self.new.host) }
    {
        self.forget();
        self.wire.closed = closed;
        self.listens = (self.listens + listens) % PORTS;
        let found = Found {
            stay: self.stay,
            calls,
            listens: self.listens,
            host: self.host,
        };
        self.found = Log::new().and(&found, &self.wire);
        self.calls = calls;
        self.dialled = false;
        self.spoiled = false;
    }

    /// Between two turns nothing is noted of it.
    fn forget(&mut self)
        ensures stay { self.new.stay ≡ self.old.stay }
        ensures wire { self.new.wire ≡ self.old.wire }
        ensures calls { self.new.calls ≡ self.old.calls }
        ensures dialled { self.new.dialled ≡ self.old.dialled }
        ensures listens { self.new.listens ≡ self.old.listens }
        ensures host { self.new.host ≡ self.old.host }
        ensures log { self.new.log.items ≡ [] }
        ensures found { self.new.found.items ≡ [] }
        ensures spoiled { self.new.spoiled ≡ true }
    {
        self.found = Log::new();
        self.log = Log::new();
        self.spoiled = true;
    }

    /// Gives the data connection that it has, for another.
    pub(crate) fn swap(&mut self, wire: Wire) -> Wire
        ensures before { result ≡ self.old.wire }
        ensures wire { self.new.wire ≡ wire }
        ensures stay { self.new.stay ≡ self.old.stay }
        ensures calls { self.new.calls ≡ self.old.calls }
        ensures dialled { self.new.dialled ≡ self.old.dialled }
        ensures listens { self.new.listens ≡ self.old.listens }
        ensures host { self.new.host ≡ self.old.host }
    {
        self.forget();
        std::mem::replace(&mut self.wire, wire)
    }

    /// The turn of the other end begins, which counts from so many ports on.
    pub(crate) fn hand_over(&mut self) -> u16
        ensures count { result ≡ self.old.listens }
        ensures few { result < 16384 }
        ensures listens { self.new.listens ≡ 0 }
        ensures host { self.new.host ≡ self.old.host }
        ensures stay { self.new.stay ≡ self.old.stay }
        ensures wire { self.new.wire ≡ self.old.wire }
        ensures calls { self.new.calls ≡ self.old.calls }
        ensures dialled { self.new.dialled ≡ self.old.dialled }
    {
        self.forget();
        std::mem::replace(&mut self.listens, 0)
    }

    /// It was dialled by the other end, where it has none.
    pub(crate) fn answer(&mut self)
        ensures stay { self.new.stay ≡ Stay.Called }
        ensures wire { self.new.wire ≡ self.old.wire }
        ensures calls { self.new.calls ≡ self.old.calls }
        ensures dialled { self.new.dialled ≡ self.old.dialled }
        ensures listens { self.new.listens ≡ self.old.listens }
        ensures host { self.new.host ≡ self.old.host }
    {
        self.forget();
        self.stay = Stay::Called;
    }

    /// What it dialled was answered.
    pub(crate) fn answered(&mut self)
        ensures stay { self.new.stay ≡ self.old.stay }
        ensures wire { self.new.wire ≡ self.old.wire }
        ensures calls { self.new.calls ≡ self.old.calls }
        ensures dialled { self.new.dialled ≡ false }
        ensures listens { self.new.listens ≡ self.old.listens }
        ensures host { self.new.host ≡ self.old.host }
    {
        self.forget();
        self.dialled = false;
    }

    /// Whether its end has the data connection.
    pub(crate) fn is_out(&self) -> bool
        ensures { result ≡ is_out self.now.stay }
    {
        self.stay == Stay::Out
    }

    /// The port that it listens at, where it does.
    pub(crate) fn awaits(&self) -> Option<u16>
        ensures { IfSome result (λ port. self.now.stay ≡ Stay.Awaits port) }
    {
        match self.stay {
            Stay::Awaits(port) => Some(port),
            Stay::Free | Stay::Called | Stay::Out | Stay::Ended | Stay::Reset => None,
        }
    }

    /// How its end closed one of which this is left.
    pub(crate) fn closing(&self, wire: &Wire) -> Closed
        ensures { result ≡ Closed.Ended
            → (self.now.stay ≡ Stay.Ended) × (wire.now.went.items ≡ []) }
    {
        if !wire.went.is_empty() {
            return Closed::No;
        }
        match self.stay {
            Stay::Ended => Closed::Ended,
            Stay::Reset => Closed::Reset,
            Stay::Free | Stay::Awaits(_) | Stay::Called | Stay::Out => Closed::No,
        }
    }

    /// Listens at the next port, unless the end has a data connection.
    #[tactic(auto, using(crate::proofs::streams::Noting::noted_last))]
    pub(crate) fn listen(&mut self) -> Option<u16>
        ensures { asked_of self.new ≡ Listened result ∷ asked_of self.old }
    {
        if self.stay == Stay::Out {
            self.note(Event::Listened(None));
            return None;
        }
        let port = self.next_port();
        self.log = self.log.and(&Event::Listened(Some(port)), &self.wire);
        self.stay = Stay::Awaits(port);
        self.listens = (self.listens + 1) % PORTS;
        Some(port)
    }

    /// The port that is listened at next.
    fn next_port(&self) -> u16
        ensures { result ≡ port_at self.now.listens }
    {
        FIRST_PORT + self.listens % PORTS
    }

    /// Whether it was dialled, and the end is still to have it.
    pub(crate) fn is_dialled(&self) -> bool {
        self.stay == Stay::Called
    }

    /// The one that was dialled.
    #[tactic(auto, using(crate::proofs::streams::Noting::noted_last))]
    pub(crate) fn come(&mut self) -> Option<Wire>
        ensures some { IfSome result (λ wire.
            asked_of self.new ≡ Came self.old.host (left_in wire) (went_in wire) ∷ asked_of self.old) }
        ensures host { self.new.host ≡ self.old.host }
        ensures none { result ≡ None → asked_of self.new ≡ NotCame ∷ asked_of self.old }
    {
        if self.stay != Stay::Called {
            self.note(Event::NotCame);
            return None;
        }
        let none = Wire::new(self.alloc, self.wire.closed, self.wire.most);
        let wire = std::mem::replace(&mut self.wire, none);
        self.log = self.log.and(&Event::Came(self.host), &wire);
        self.stay = Stay::Out;
        Some(wire)
    }

    /// Dials, where the other end listens there and this end has no data connection.
    #[tactic(auto, using(crate::proofs::streams::Noting::noted_last))]
    pub(crate) fn dial(&mut self, endpoint: Endpoint) -> Option<Wire>
        ensures some { IfSome result (λ wire.
            asked_of self.new ≡ Connected endpoint (left_in wire) (went_in wire) ∷ asked_of self.old) }
        ensures none { result ≡ None
            → asked_of self.new ≡ NotConnected endpoint ∷ asked_of self.old }
    {
        if !self.reaches(endpoint.port) {
            self.note(Event::NotConnected(endpoint));
            return None;
        }
        let wire = Wire::new(self.alloc, Closed::No, self.wire.most);
        self.log = self.log.and(&Event::Connected(endpoint), &wire);
        self.wire = Wire::new(self.alloc, Closed::No, self.wire.most);
        self.stay = Stay::Out;
        self.calls = None;
        self.dialled = true;
        Some(wire)
    }

    /// Whether the end has no data connection, and the other one listens at this port.
    fn reaches(&self, port: u16) -> bool
        ensures reached { IsTrue result → is_reached (hold_at self.now.stay) self.now.calls ≡ true }
        ensures there { IsTrue result → self.now.calls ≡ Some port }
    {
        self.stay != Stay::Out && self.calls == Some(port)
    }

    /// The end ended the one that it had.
    #[tactic(auto, using(crate::proofs::streams::Noting::noted_last))]
    pub(crate) fn end(&mut self, wire: Wire)
        ensures { asked_of self.new ≡ EndedBy (left_in wire) (went_in wire) ∷ asked_of self.old }
    {
        let spoiled = self.spoiled || !self.is_its_own(&wire);
        self.log = self.log.and(&Event::Ended, &wire);
        self.spoiled = spoiled;
        self.stay = Stay::Ended;
        self.wire = wire;
    }

    /// The end reset the one that it had.
    #[tactic(auto, using(crate::proofs::streams::Noting::noted_last))]
    pub(crate) fn reset(&mut self, wire: Wire)
        ensures { asked_of self.new ≡ ResetBy (left_in wire) (went_in wire) ∷ asked_of self.old }
    {
        let spoiled = self.spoiled || !self.is_its_own(&wire);
        self.log = self.log.and(&Event::Reset, &wire);
        self.spoiled = spoiled;
        self.stay = Stay::Reset;
        self.wire = wire;
    }

    /// Whether it can be the one that the end had.
    pub(crate) fn is_its_own(&self, wire: &Wire) -> bool
        ensures { result
            ≡ is_back (hold_at self.now.stay) (is_ended self.now.wire.closed) (is_ended wire.now.closed) }
    {
        self.stay == Stay::Out
            && (self.wire.closed == Closed::Ended) == (wire.closed == Closed::Ended)
    }

    /// The port is closed.
    pub(crate) fn shut(&mut self)
        ensures { asked_of self.new ≡ Shut ∷ asked_of self.old }
    {
        self.note(Event::Shut);
    }

    /// This was asked, and moved nothing.
    #[tactic(auto, using(crate::proofs::streams::Noting::noted_last))]
    fn note(&mut self, event: Event)
        requires { MovesNothing event }
        ensures asked { asked_of self.new ≡ told event self.old.wire None ∷ asked_of self.old }
        ensures host { self.new.host ≡ self.old.host }
    {
        self.log = self.log.and(&event, &self.wire);
    }
}
