// A reader as a source of so many octets.
ghost use Rattle.std.specs.Prelude.{◌≡◌, ◌++◌, ◌+◌, ◌≤◌, ◌<◌, [], None, IfOk, IsSome, OnErr, OnOk, length, take};
ghost use Rattle.std.specs.Io.KnownBytes.{Consumes, ReadConsumes};

use crate::source::{Source, Unread};
use crate::went::Went;
use std::io;
use std::io::{Error, ErrorKind, Read};

/// How often a read that was interrupted is made again.
const READS: u32 = 1_000_000;

/// A reader that is to have so many octets, and no more: with fewer or more it fails, and the failure stays.
#[derive(Drop)]
pub struct ReaderSource<R: Read + Drop> {
    reader: R,
    /// How many are still to come.
    left: u64,
    fault: Option<Error>,
    gave: Went,
}

impl<R: Read + Drop> ReaderSource<R> {
    /// A reader that is to have so many octets from where it stands.
    pub fn new(reader: R, count: u64) -> ReaderSource<R>
        ensures none { result.gave.octets ≡ [] }
        ensures count { result.left ≡ count }
        ensures sound { result.fault ≡ None }
    {
        ReaderSource {
            reader,
            left: count,
            fault: None,
            gave: Went::new(),
        }
    }

    /// Why the reader failed, where it did.
    pub fn fault(&self) -> Option<Error>
        ensures { result ≡ self.now.fault }
    {
        self.fault
    }

    /// The reader, as far as it was read.
    pub fn reader(&self) -> &R
        ensures { result.now ≡ self.now.reader }
    {
        &self.reader
    }

    /// The end of the file, where the reader has no more.
    fn end(&mut self) -> Result<usize, Unread>
        ensures none { IfOk result (λ count. count ≡ 0) }
        ensures same { self.new.gave ≡ self.old.gave }
        ensures left { self.new.left ≡ self.old.left }
        ensures told { OnErr result (IsSome self.new.fault) }
        ensures sound { OnOk result (self.new.fault ≡ self.old.fault) }
        ensures taken { OnOk result (Consumes (R.remaining self.old.reader) (R.remaining self.new.reader) []) }
    {
        let mut next = [0; 1];
        match read_some(&mut self.reader, &mut next) {
            Ok(0) => Ok(0),
            Ok(_) => self.refuse(changed()),
            Err(error) => self.refuse(error),
        }
    }

    /// Fails.
    fn refuse(&mut self, error: Error) -> Result<usize, Unread>
        ensures same { self.new.gave ≡ self.old.gave }
        ensures left { self.new.left ≡ self.old.left }
        ensures told { IsSome self.new.fault }
        ensures none { OnOk result ⊥ }
    {
        self.fault = Some(error);
        Err(Unread)
    }
}

impl<R: Read + Drop> Source for ReaderSource<R> {
    ghost gave = { λ reader_source. reader_source.gave.octets };

    ghost left = { λ reader_source. reader_source.left };

    /// A reader that fails, that has fewer octets than it was to have, or more, fails for good. What is given is what it read, in order.
    fn draw(&mut self, room: &mut [u8]) -> Result<usize, Unread>
        ensures within { IfOk result (λ count. count ≤ length room.new) }
        ensures ok { IfOk result (λ count. self.new.gave.octets ≡ self.old.gave.octets ++ take count room.new) }
        ensures count { IfOk result (λ count. self.old.left ≡ count + self.new.left) }
        ensures end { IfOk result (λ count. count ≡ 0 → 0 < length room.old → self.new.left ≡ 0) }
        ensures err { OnErr result (self.new.gave.octets ≡ self.old.gave.octets) }

        // Where it fails it says why, and what it gives is what the reader gave.
        // Witness of told, sound: a fault just where it failed; `edits/a_reader_that_failed_is_not_told`.
        ensures told { OnErr result (IsSome self.new.fault) }
        ensures sound { OnOk result (self.new.fault ≡ None) }
        // Witness of taken: an equation of what the reader has left.
        ensures taken { IfOk result (λ count. Consumes (R.remaining self.old.reader) (R.remaining self.new.reader) (take count room.new)) }
    {
        if self.fault.is_some() {
            return Err(Unread);
        }
        if self.left == 0 {
            return self.end();
        }
        if room.is_empty() {
            return Ok(0);
        }
        let most = at_most(room.len(), self.left);
        let (front, _) = room.split_at_mut(most);
        match read_some(&mut self.reader, front) {
            Ok(0) => self.refuse(changed()),
            Ok(count) => {
                self.left = self.left.saturating_sub(count as u64);
                self.gave.note(room.get(..count).unwrap_or(&[]));
                Ok(count)
            }
            Err(error) => self.refuse(error),
        }
    }
}

/// What a file that is cut or grows while it is read is refused by.
fn changed() -> Error {
    Error::new(
        ErrorKind::InvalidData,
        "it has changed since the upload began",
    )
}

/// So many octets of a room as are still to come.
fn at_most(room: usize, left: u64) -> usize
    ensures room { result ≤ room }
    ensures left { result ≤ left }
{
    match usize::try_from(left) {
        Ok(left) => room.min(left),
        Err(_) => room,
    }
}

/// One read, made again where it was interrupted.
#[tactic(auto, using(crate::proofs::ReadingLemmas::reads_again, crate::proofs::ReadingLemmas::keeps_again))]
fn read_some<R: Read>(reader: &mut R, room: &mut [u8]) -> io::Result<usize>
    ensures within { IfOk result (λ count. count ≤ length room.new) }
    ensures bytes { ReadConsumes (R.remaining reader.old) (R.remaining reader.new) result room.new }
{
    for _ in 0..READS {
        match reader.read(room) {
            Err(error) if error.kind() == ErrorKind::Interrupted => {}
            done => return done,
        }
    }
    Err(Error::from(ErrorKind::TimedOut))
}
