// A data connection in memory, as one of its ends has it.
ghost use Rattle.std.specs.Prelude.{◌++◌, Some};

use crate::streams::way::take_front;
use ftp_ports::Duplex;
use std::alloc::Global;
use std::io;
use std::io::{Error, ErrorKind, Read, Write};

/// Whether the other end closed it, and how.
#[derive(Clone, Copy, PartialEq, Eq)]
pub enum Closed {
    /// It did not.
    No,
    /// It ended it: after the octets that came there is an end.
    Ended,
    /// It reset it: after them a read fails.
    Reset,
}

/// A data connection in memory, as one of its ends has it.
#[derive(Drop)]
pub struct Wire {
    /// The octets that the other end wrote, that were brought here, and that are still to be read.
    pub(crate) came: Vec<u8>,
    /// The octets that were written here, and not brought to the other end yet.
    pub(crate) went: Vec<u8>,
    /// Whether the other end closed it after those that came.
    pub(crate) closed: Closed,
    /// The most octets that one read or one write moves, of none one.
    pub(crate) most: usize,
}

impl Wire {
    ghost use Rattle.std.specs.Prelude.{◌≡◌, [], max, min};

    /// One over which nothing came or went; a read or a write moves at most `most` octets, of 0 one.
    pub(crate) fn new(alloc: Global, closed: Closed, most: usize) -> Wire
        ensures came { result.came.items ≡ [] }
        ensures went { result.went.items ≡ [] }
        ensures closed { result.closed ≡ closed }
        ensures most { result.most ≡ most }
    {
        Wire {
            came: Vec::new(alloc),
            went: Vec::new(alloc),
            closed,
            most,
        }
    }

    /// How many of so many octets one read or one write moves.
    fn within_most(&self, count: usize) -> usize
        // Witness: an equation; `edits/a_read_takes_all_that_came`.
        ensures { result ≡ min count (max 1 self.now.most) }
    {
        count.min(self.most.max(1))
    }

    /// Whether a read would not wait.
    pub(crate) fn is_readable(&self) -> bool {
        !self.came.is_empty() || self.closed != Closed::No
    }
}

/// After the octets that came it tells one more that is none, unless the other end ended it: so no read finds an end before that.
impl Read for Wire {
    ghost use Rattle.ftp_pair_memory.specs.streams.LinkState.{mark};
    ghost use Rattle.ftp_pair_memory.specs.streams.PortTableMoves.{is_ended};

    ghost remaining = { λ wire. Some (wire.came.items ++ mark (is_ended wire.closed)) };

    fn read(&mut self, room: &mut [u8]) -> io::Result<usize> {
        self.receive(room)
    }
}

impl Write for Wire {
    ghost contents = { λ wire. Some wire.went.items };

    fn write(&mut self, octets: &[u8]) -> io::Result<usize> {
        self.send(octets)
    }

    fn flush(&mut self) -> io::Result<()> {
        Ok(())
    }
}

impl Duplex for Wire {
    #[tactic(auto, using(crate::proofs::streams::Ways::front_came))]
    fn receive(&mut self, room: &mut [u8]) -> io::Result<usize> {
        if self.came.is_empty() {
            return match self.closed {
                Closed::Ended => Ok(0),
                Closed::Reset => Err(Error::from(ErrorKind::ConnectionReset)),
                Closed::No => Err(Error::from(ErrorKind::WouldBlock)),
            };
        }
        let count = self.within_most(self.came.len()).min(room.len());
        take_front(&mut self.came, room, count);
        Ok(count)
    }

    fn send(&mut self, octets: &[u8]) -> io::Result<usize> {
        let count = self.within_most(octets.len());
        match self.went.extend_from_slice(&octets[..count]) {
            Ok(()) => Ok(count),
            Err(_) => Err(Error::from(ErrorKind::OutOfMemory)),
        }
    }
}
