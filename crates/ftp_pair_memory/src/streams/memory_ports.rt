// The ports of an end beside data connections in memory (RFC 959, section 3.2).
ghost use Rattle.std.specs.Prelude.{Some};
ghost use Rattle.ftp_ports.specs.Asking.{Closes};
ghost use Rattle.ftp_pair_memory.specs.streams.PortTableMoves.{left_in, went_in};

use crate::streams::port_table::{PortTable, Stay};
use crate::streams::wire::{Closed, Wire};
use ftp_endpoint::{Endpoint, Host};
use ftp_ports::{Accepted, Awaited, Beside, For, Ports, Ready, Spoken, Whole};
use std::alloc::Global;

/// The ports of an end: what it has of data connections, and whether octets of its control connection came.
#[derive(Drop)]
pub struct MemoryPorts {
    pub(crate) port_table: PortTable,
    has_come: bool,
}

impl MemoryPorts {
    ghost use Rattle.std.specs.Prelude.{◌≡◌, [], None, false};

    /// Those of an end that has no data connection, with this host at its other end; a read or a write of one moves at most `most` octets, of 0 one.
    pub(crate) fn new(alloc: Global, peer: Host, most: usize) -> MemoryPorts
        ensures stay { result.port_table.stay ≡ Stay.Free }
        ensures came { result.port_table.wire.came.items ≡ [] }
        ensures went { result.port_table.wire.went.items ≡ [] }
        ensures closed { result.port_table.wire.closed ≡ Closed.No }
        ensures calls { result.port_table.calls ≡ None }
        ensures undialled { result.port_table.dialled ≡ false }
        ensures listens { result.port_table.listens ≡ 0 }
        ensures host { result.port_table.host ≡ peer }
        ensures most { result.port_table.wire.most ≡ most }
    {
        MemoryPorts {
            port_table: PortTable::new(alloc, peer, most),
            has_come: false,
        }
    }

    /// Octets of the control connection may be read, or none.
    pub(crate) fn tell(&mut self, has_come: bool)
        ensures port_table { self.new.port_table ≡ self.old.port_table }
        ensures heard { self.new.has_come ≡ has_come }
    {
        self.has_come = has_come;
    }

    /// Whether octets of the control connection are awaited, and there.
    fn speaks(&self, beside: Beside) -> bool {
        self.has_come && beside == Beside::Octets
    }

    /// Tells once that octets of the control connection are there: they are read at once then, as many as may be.
    fn told(&mut self) -> bool
        ensures port_table { self.new.port_table ≡ self.old.port_table }
        // Witness: `edits/octets_that_came_are_told_twice` (once), `octets_that_did_not_come_are_told` (told).
        ensures told { result ≡ self.old.has_come }
        ensures once { self.new.has_come ≡ false }
    {
        std::mem::replace(&mut self.has_come, false)
    }
}

impl Ports for MemoryPorts {
    type Stream = Wire;

    ghost use Rattle.ftp_pair_memory.specs.streams.PortTables.{asked_of};

    ghost history = { λ memory_ports. Some (asked_of memory_ports.port_table) };

    fn listen(&mut self) -> Option<u16> {
        self.port_table.listen()
    }

    fn accept(&mut self, hears: bool) -> Accepted<Wire> {
        if hears && !self.port_table.is_dialled() && self.told() {
            return Accepted::Spoken;
        }
        match self.port_table.come() {
            Some(wire) => Accepted::Came(wire, self.port_table.host),
            None => Accepted::Refused,
        }
    }

    fn connect(&mut self, endpoint: Endpoint) -> Option<Wire> {
        self.port_table.dial(endpoint)
    }

    fn wait(&mut self, _stream: &mut Wire, _what: For, hears: bool) -> Ready {
        if hears && self.told() {
            Ready::Control
        } else {
            Ready::Data
        }
    }

    fn looks(&mut self, what: Awaited) -> bool {
        match what {
            Awaited::Control => self.told(),
            Awaited::Accepted(beside) => self.port_table.is_dialled() || self.speaks(beside),
            Awaited::Connected(_) | Awaited::Replies => true,
        }
    }

    fn looks_at(&mut self, stream: &mut Wire, what: For, beside: Beside) -> bool {
        match what {
            For::Octets => stream.is_readable() || self.speaks(beside),
            For::Room => true,
        }
    }

    fn spoken(&mut self) -> Spoken {
        if self.told() {
            Spoken::Octets
        } else {
            Spoken::Nothing
        }
    }

    fn close(&mut self, stream: Option<Whole<Wire>>)
        ensures { Closes left_in went_in stream
            (Some (asked_of self.old.port_table)) (Some (asked_of self.new.port_table)) }
    {
        match stream {
            Some(whole) => self.port_table.end(whole.into_stream()),
            None => self.port_table.shut(),
        }
    }

    fn reset(&mut self, stream: Wire) {
        self.port_table.reset(stream);
    }
}
