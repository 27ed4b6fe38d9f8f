// A control connection: what was read of it and is not heard yet, and what is written to it.
ghost use Rattle.std.specs.Prelude.{◌≡◌, ◌≤◌, ◌<◌, IsTrue, IfErr, IfOk, OnOk, OnErr, false, true, [], drop, length};
ghost use Rattle.std.specs.Io.KnownBytes.{Appends, Consumes, IsAtEnd, Keeps};
ghost use Rattle.ftp_ports.specs.Beginning.{AppendsFront};
ghost use Rattle.ftp_ports.specs.Cause.{IsReadOrWriteFault};

use crate::cause::Cause;
use crate::pieces::{Failed, get, put};
use std::io::{Read, Write};

/// The most octets that one read of a control connection asks for.
const CONTROL_PIECE: usize = 1024;

/// A control connection, and the octets of it that were read and not heard yet.
#[derive(Drop)]
pub struct Control<R, W> {
    reader: R,
    writer: W,
    piece: [u8; CONTROL_PIECE],
    at: usize,
    end: usize,
    /// Whether a read found its end.
    ended: bool,
    /// Whether a read or a write of it failed.
    failed: bool,
    ghost order: { at ≤ end },
    ghost within: { end ≤ 1024 },
}

impl<R: Read + Drop, W: Write + Drop> Control<R, W> {
    ghost use Rattle.ftp_ports.specs.Unheard.{left_of, unheard_of, written_of};

    /// A control connection of which nothing was read.
    pub fn new(reader: R, writer: W) -> Control<R, W>
        ensures left { (left_of R.remaining result).octets ≡ R.remaining reader }
        ensures open { (left_of R.remaining result).ended ≡ false }
        ensures written { written_of W.contents result ≡ W.contents writer }
        ensures unheard { unheard_of result ≡ [] }
        ensures failed { result.failed ≡ false }
    {
        Control {
            reader,
            writer,
            piece: [0; CONTROL_PIECE],
            at: 0,
            end: 0,
            ended: false,
            failed: false,
        }
    }

    /// The octets that were read and are not heard yet.
    pub fn unheard(&self) -> &[u8]
        ensures { result.now ≡ unheard_of self.now }
    {
        let (octets, _) = self.piece.split_at(self.end);
        let (_, unheard) = octets.split_at(self.at);
        unheard
    }

    /// Whether octets were read that are not heard yet.
    pub fn has_unheard(&self) -> bool
        // Witness: `hear`, `read` of `ftp_driver`: what is heard, and what is read after it.
        ensures some { IsTrue result → 0 < length (unheard_of self.now) }
        ensures none { result ≡ false → unheard_of self.now ≡ [] }
    {
        self.at < self.end
    }

    /// So many of them were heard.
    pub fn heard(&mut self, count: usize)
        requires { count ≤ length (unheard_of self.old) }
        // Witness: equations; `edits/a_connection_counts_as_failed_that_did_not.edit` (failed).
        ensures unheard { unheard_of self.new ≡ drop count (unheard_of self.old) }
        ensures left { left_of R.remaining self.new ≡ left_of R.remaining self.old }
        ensures written { written_of W.contents self.new ≡ written_of W.contents self.old }
        ensures failed { self.new.failed ≡ self.old.failed }
    {
        self.at += count;
    }

    /// Reads once, where all octets before were heard, and gives how many came; none is the end of the connection.
    pub fn read(&mut self) -> Result<usize, Cause>
        requires { unheard_of self.old ≡ [] }
        // Witness of ok, none, ended, some, count, err, open, kept, written: `read` of `ftp_driver`; `edits/octets_that_were_read_are_left_out.edit`
        // (ok); `edits/an_end_that_was_found_is_not_kept.edit` (ended); count is an equation.
        ensures ok { OnOk result (Consumes (left_of R.remaining self.old).octets (left_of R.remaining self.new).octets (unheard_of self.new)) }
        ensures none { IfOk result (λ count. count ≡ 0 → IsAtEnd (left_of R.remaining self.new).octets × (unheard_of self.new ≡ [])) }
        ensures ended { IfOk result (λ count. count ≡ 0 → (left_of R.remaining self.new).ended ≡ true) }
        ensures some { IfOk result (λ count. 0 < count → (left_of R.remaining self.new).ended ≡ (left_of R.remaining self.old).ended) }
        ensures count { IfOk result (λ count. count ≡ length (unheard_of self.new)) }
        ensures err { OnErr result (Keeps (left_of R.remaining self.old).octets (left_of R.remaining self.new).octets) }
        ensures open { OnErr result ((left_of R.remaining self.new).ended ≡ (left_of R.remaining self.old).ended) }
        ensures kept { OnErr result (unheard_of self.new ≡ []) }
        ensures written { written_of W.contents self.new ≡ written_of W.contents self.old }
        // Witness of sound, fault: `IsCause` of `drive_end`.
        ensures sound { OnOk result (self.new.failed ≡ self.old.failed) }
        ensures fault { IfErr result (λ cause. IsReadOrWriteFault cause self.new.failed) }
    {
        self.at = 0;
        self.end = 0;
        match get(&mut self.reader, &mut self.piece) {
            Ok(count) => {
                self.end = count;
                if count == 0 {
                    self.ended = true;
                }
                Ok(count)
            }
            Err(Failed) => {
                self.failed = true;
                Err(Cause::Failed)
            }
        }
    }

    /// Writes all of these octets; where that fails, a beginning of them was written.
    pub fn write(&mut self, octets: &[u8]) -> Result<(), Cause>
        // Witness of ok, front, left, unheard: `flush` of `ftp_driver`; `edits/half_of_the_octets_is_written.edit` (ok).
        ensures ok { OnOk result (Appends (written_of W.contents self.old) (written_of W.contents self.new) octets.now) }
        ensures front { AppendsFront (written_of W.contents self.old) (written_of W.contents self.new) octets.now }
        ensures left { left_of R.remaining self.new ≡ left_of R.remaining self.old }
        ensures unheard { unheard_of self.new ≡ unheard_of self.old }
        // Witness of sound, fault: `IsCause` of `drive_end`.
        ensures sound { OnOk result (self.new.failed ≡ self.old.failed) }
        ensures fault { IfErr result (λ cause. IsReadOrWriteFault cause self.new.failed) }
    {
        match put(&mut self.writer, octets) {
            Ok(()) => Ok(()),
            Err(Failed) => {
                self.failed = true;
                Err(Cause::Failed)
            }
        }
    }
}
