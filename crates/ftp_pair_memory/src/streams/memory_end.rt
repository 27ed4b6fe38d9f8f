// A data connection in memory, wherever it is: with the end that has it, or with its ports.
ghost use Rattle.std.specs.Prelude.{◌≡◌, ◌⊎◌, ◌++◌, IfNone, IfSome, IsTrue, false};
ghost use Rattle.ftp_pair_memory.specs.streams.MemoryEnds.{AnswersDial, CannotAnswer, CannotMeet, KnowsHolder, Meets, Prepares};

use crate::streams::memory_ports::MemoryPorts;
use crate::streams::wire::{Closed, Wire};
use ftp_driver::Data;
use ftp_endpoint::Host;
use std::alloc::Global;

/// What an end has of data connections.
pub struct MemoryEnd {
    /// Its ports, which have the data connection while the end has not.
    pub memory_ports: MemoryPorts,
    /// Room for the data connection that the end has.
    pub stream: Data<Wire>,
}

/// What the end has is closed.
impl Drop for MemoryEnd {
    fn drop(self) {
        let Self {
            memory_ports,
            stream,
        } = self;
        let mut memory_ports = memory_ports;
        stream.finish(&mut memory_ports);
    }
}

impl MemoryEnd {
    ghost use Rattle.ftp_pair_memory.specs.streams.MemoryEnds.{IsFresh, IsKnown, IsUnknown, KnowsHolder, Lifts, LowersWire};

    /// There is none, and this host is at the other end; each read or write moves at most `most` octets, of 0 one.
    pub fn new(alloc: Global, peer: Host, most: usize) -> MemoryEnd
        // Witness: nothing came or went, and which host is at the other end: `Slot::new` of `ftp_pair_memory`.
        ensures fresh { IsFresh peer result }
        // Witness of most: as of `Slot::new`.
        ensures most { result.memory_ports.port_table.wire.most ≡ most }
    {
        MemoryEnd {
            memory_ports: MemoryPorts::new(alloc, peer, most),
            stream: Data::new(),
        }
    }

    /// Takes it, unless end and ports don't agree on who has it.
    fn lift(&mut self) -> Option<Wire>
        ensures some { IfSome result (λ wire. Lifts wire self.old self.new) }
        ensures none { IfNone result (KnowsHolder self.old → ⊥) }
    {
        let none = Wire::new(
            self.memory_ports.port_table.alloc,
            Closed::No,
            self.memory_ports.port_table.wire.most,
        );
        match self.stream.exchange(none) {
            Ok(wire) => if self.memory_ports.port_table.is_out() {
                Some(wire)
            } else {
                None
            }
            Err(none) => if self.memory_ports.port_table.is_out() {
                None
            } else {
                Some(self.memory_ports.port_table.swap(none))
            }
        }
    }

    /// Puts it back.
    fn lower(&mut self, wire: Wire)
        ensures { LowersWire wire self.old self.new }
    {
        match self.stream.exchange(wire) {
            Ok(_none) => {}
            Err(wire) => {
                let _none = self.memory_ports.port_table.swap(wire);
            }
        }
    }

    /// Tells its ports whether octets of the control connection may be read.
    pub fn tell(&mut self, has_come: bool)
        ensures stream { self.new.stream ≡ self.old.stream }
        ensures port_table { self.new.memory_ports.port_table ≡ self.old.memory_ports.port_table }
        // Witness of heard: `edits/no_octets_are_told`.
        ensures heard { self.new.memory_ports.has_come ≡ has_come }
    {
        self.memory_ports.tell(has_come);
    }

    /// Whether a turn left it as its ports know it.
    pub fn is_known(&mut self) -> bool
        // Witness: `edits/ports_that_gave_another_are_believed` (known), `a_turn_counts_as_unknown` (unknown).
        ensures known { IsTrue result → IsKnown self.old self.new }
        ensures unknown { result ≡ false → IsUnknown self.new }
    {
        if self.memory_ports.port_table.spoiled {
            return false;
        }
        let none = Wire::new(
            self.memory_ports.port_table.alloc,
            Closed::No,
            self.memory_ports.port_table.wire.most,
        );
        match self.stream.exchange(none) {
            Ok(wire) => {
                let is_its_own = self.memory_ports.port_table.is_its_own(&wire);
                match self.stream.exchange(wire) {
                    Ok(_none) => is_its_own,
                    Err(_wire) => false,
                }
            }
            Err(_none) => !self.memory_ports.port_table.is_out(),
        }
    }
}

/// Brings one end of a data connection what was written to the other, as far as memory is had for it.
fn bring(from: &mut Wire, to: &mut Wire)
    ensures all { to.new.came.items ++ from.new.went.items
        ≡ to.old.came.items ++ from.old.went.items }
    ensures came { from.new.came.items ≡ from.old.came.items }
    ensures went { to.new.went.items ≡ to.old.went.items }
    ensures closed { from.new.closed ≡ from.old.closed }
{
    if to.came.extend_from_slice(from.went.as_slice()).is_ok() {
        from.went.clear();
    }
}

/// Where an end dialled, the other one was called; not where that one has a data connection.
fn answers(dialler: &mut MemoryEnd, other: &mut MemoryEnd) -> bool
    ensures answers { IsTrue result → AnswersDial dialler.old other.old dialler.new other.new }
    ensures dialler { IsTrue result → KnowsHolder dialler.old → KnowsHolder dialler.new }
    ensures other { IsTrue result → KnowsHolder other.old → KnowsHolder other.new }
    ensures not { result ≡ false → CannotAnswer dialler.old other.old }
{
    if !dialler.memory_ports.port_table.dialled {
        return true;
    }
    let Some(_before) = other.lift() else {
        return false;
    };
    if other.memory_ports.port_table.is_out() {
        return false;
    }
    let none = Wire::new(
        other.memory_ports.port_table.alloc,
        Closed::No,
        other.memory_ports.port_table.wire.most,
    );
    other.lower(none);
    other.memory_ports.port_table.answer();
    dialler.memory_ports.port_table.answered();
    true
}

/// Brings either end what the other wrote, and tells the first one what it is to know of the other in its turn: it counts the ports of both.
fn carry(own: &mut MemoryEnd, peer: &mut MemoryEnd) -> bool
    ensures prepares { IsTrue result → Prepares own.old peer.old own.new peer.new }
    ensures not { result ≡ false → (KnowsHolder own.old → ⊥) ⊎ (KnowsHolder peer.old → ⊥) }
{
    let Some(mine) = own.lift() else {
        return false;
    };
    let Some(theirs) = peer.lift() else {
        return false;
    };
    let (mut mine, mut theirs) = (mine, theirs);
    bring(&mut mine, &mut theirs);
    bring(&mut theirs, &mut mine);
    let closed = peer.memory_ports.port_table.closing(&theirs);
    mine.closed = closed;
    own.lower(mine);
    peer.lower(theirs);
    let calls = peer.memory_ports.port_table.awaits();
    let listens = peer.memory_ports.port_table.hand_over();
    own.memory_ports.port_table.begin(closed, calls, listens);
    true
}

/// Prepares a turn of an end: what was written between was brought on, a dial was answered, and its ports know of the other end what they are to know. Not
/// where an end broke off before.
pub fn meet(own: &mut MemoryEnd, peer: &mut MemoryEnd) -> bool
    // Witness: `edits/what_was_written_is_brought_twice`, `an_end_is_told_before_all_was_brought`, `one_is_dialled_where_nobody_listens`,
    // `each_end_counts_its_own_ports`; `no_turn_is_prepared` (not).
    ensures meets { IsTrue result → Meets own.old peer.old own.new peer.new }
    ensures not { result ≡ false → CannotMeet own.old peer.old }
{
    if !answers(own, peer) {
        return false;
    }
    if !answers(peer, own) {
        return false;
    }
    carry(own, peer)
}
