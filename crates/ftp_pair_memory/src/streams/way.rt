// One way of a control connection in memory, as who reads it and who writes it have it.
ghost use Rattle.std.specs.Prelude.{◌≡◌, ℕ, List, ◌∷◌, [], ◌++◌, ◌≤◌, Some, drop, length, take, vec_len};

use std::io;
use std::io::{Error, ErrorKind, Read, Write};

/// A way as its reader has it.
#[derive(Drop)]
pub struct ReadHalf<'w> {
    way: &'w mut Vec<u8>,
    /// How many octets may still be read.
    most: usize,
}

impl<'w> ReadHalf<'w> {
    /// Reads from a way that is lent, at most `most` octets in all.
    pub fn new(way: &'w mut Vec<u8>, most: usize) -> ReadHalf<'w>
        // Witness: equations; reads and writes: `edits/octets_that_were_read_are_read_again`, `more_is_written_than_was_taken`.
        ensures same { result.way.ghost_name ≡ way.entry.ghost_name }
        ensures now { result.way.now ≡ way.old }
    {
        ReadHalf { way, most }
    }
}

/// Behind the octets of the way it tells one more, which no read gives: which way it is. So whoever lends a way to it finds that way again as it was left,
/// and no read finds its end.
impl<'w> Read for ReadHalf<'w> {
    ghost remaining = { λ read_half. Some (read_half.way.now.items ++ read_half.way.ghost_name ∷ []) };

    #[tactic(auto, using(crate::proofs::streams::Ways::front_read))]
    fn read(&mut self, room: &mut [u8]) -> io::Result<usize> {
        let count = self.way.len().min(self.most).min(room.len());
        if count == 0 {
            return Err(Error::from(ErrorKind::WouldBlock));
        }
        take_front(self.way, room, count);
        self.most -= count;
        Ok(count)
    }
}

/// Moves the first octets of a way, so many, to the front of a room.
pub(crate) fn take_front(way: &mut Vec<u8>, room: &mut [u8], count: usize)
    requires few { count ≤ vec_len way.old }
    requires room { count ≤ length room.old }
    ensures came { take count room.new ≡ take count way.old.items }
    ensures left { way.new.items ≡ drop count way.old.items }
{
    room[..count].copy_from_slice(&way.as_slice()[..count]);
    way.drain(..count);
}

/// A way as its writer has it.
#[derive(Drop)]
pub struct WriteHalf<'w> {
    way: &'w mut Vec<u8>,
}

impl<'w> WriteHalf<'w> {
    /// Writes behind what a way has, which is lent.
    pub fn new(way: &'w mut Vec<u8>) -> WriteHalf<'w>
        // Witness: as of `new`.
        ensures same { result.way.ghost_name ≡ way.entry.ghost_name }
        ensures now { result.way.now ≡ way.old }
    {
        WriteHalf { way }
    }
}

/// Before the octets of the way it tells which way it is.
impl<'w> Write for WriteHalf<'w> {
    ghost contents = { λ write_half. Some (write_half.way.ghost_name ∷ write_half.way.now.items) };

    fn write(&mut self, octets: &[u8]) -> io::Result<usize> {
        match self.way.extend_from_slice(octets) {
            Ok(()) => Ok(octets.len()),
            Err(_) => Err(Error::from(ErrorKind::OutOfMemory)),
        }
    }

    fn flush(&mut self) -> io::Result<()> {
        Ok(())
    }
}
