// Both ends of a session in their slots, and a control connection in memory.
ghost use Rattle.std.specs.Prelude.{◌≡◌, [], IsTrue, List, ℕ};
ghost use Rattle.ftp_pair_memory.specs.steps.Seating.{nothing_left, ways_of};
ghost use Rattle.ftp_pair_memory.specs.streams.MemoryEnds.{IsFresh};

use crate::streams::MemoryEnd;
use ftp_endpoint::Host;
use std::alloc::Global;

/// A control connection in memory: the octets that were written to either end and are still to be read there, in order.
#[derive(Drop)]
pub struct MemoryControl {
    pub(crate) to_server: Vec<u8>,
    pub(crate) to_client: Vec<u8>,
}

impl MemoryControl {
    /// One over which nothing was written.
    pub fn new(alloc: Global) -> MemoryControl
        // Witness: nothing is to be read: `sessions_are_the_direct_run`.
        ensures server { result.to_server.items ≡ [] }
        ensures client { result.to_client.items ≡ [] }
    {
        MemoryControl {
            to_server: Vec::new(alloc),
            to_client: Vec::new(alloc),
        }
    }

    /// Whether all that was written was read.
    pub(crate) fn is_empty(&self) -> bool
        ensures { IsTrue result → ways_of self.now ≡ nothing_left }
    {
        self.to_server.is_empty() && self.to_client.is_empty()
    }
}

/// An end beside connections in memory.
#[derive(Drop)]
pub struct Slot<E> {
    pub(crate) end: E,
    pub(crate) memory_end: MemoryEnd,
}

impl<E> Slot<E> {
    /// An end, as a session begins with this host at the other end: each read or write of a data connection moves at most `most` octets, of 0 one.
    pub fn new(end: E, alloc: Global, peer: Host, most: usize) -> Slot<E>
        // Witness: an equation; nothing came or went, and no port was told, and this host is at the other end: `nothing`, `listens` and `peer` of
        // `SessionBy`.
        ensures end { result.end ≡ end }
        ensures fresh { IsFresh peer result.memory_end }
        // Witness of most: `edits/a_session_moves_one_octet_at_a_time`.
        ensures most { result.memory_end.memory_ports.port_table.wire.most ≡ most }
    {
        Slot {
            end,
            memory_end: MemoryEnd::new(alloc, peer, most),
        }
    }

    /// The end.
    pub fn end(&self) -> &E
        ensures { result.now ≡ self.now.end }
    {
        &self.end
    }

    /// The end, which leaves its slot.
    pub fn leave(self) -> E
        ensures { result ≡ self.end }
    {
        let Slot { end, memory_end: _ } = self;
        end
    }
}
