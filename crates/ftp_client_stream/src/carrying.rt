// What goes over a data connection in the place of what a client gives and hears.
ghost use Rattle.std.specs.Prelude.{◌≡◌, ◌<◌, [], true, IfErr, IfOk, IsTrue, OnOk, length};
ghost use Rattle.std.specs.Io.{ReadsAtMost, WritesAtMost};
ghost use Rattle.std.specs.Io.KnownBytes.{Appends, IsAtEnd};
ghost use Rattle.std.specs.IoError.{error_kind};
ghost use Rattle.ftp_wire.specs.Decoder.{is_whole};
ghost use Rattle.ftp_client_stream.specs.SourceTransfer.{Gives, left_to_go};
ghost use Rattle.ftp_client_stream.specs.SinkTransfer.{Pours};

use crate::sink_transfer::SinkTransfer;
use crate::source::{Source, Unread};
use crate::source_transfer::SourceTransfer;
use ftp_wire::Sink;
use std::alloc::Allocator;
use std::io;
use std::io::{Error, ErrorKind, Read, Write};

/// What goes over a data connection in the place of what a client gives and hears.
pub trait Carries {
    /// One read for a client.
    fn hear<L: Read>(&mut self, link: &mut L, room: &mut [u8]) -> io::Result<usize>
        // Witness: bounds alone, whatever they carry.
        ensures { ReadsAtMost result room.new };

    /// One write for a client.
    fn give<L: Write>(&mut self, link: &mut L, octets: &[u8]) -> io::Result<usize>
        // Witness: bounds alone, whatever they carry.
        ensures { WritesAtMost result octets.now };
}

/// What comes goes to the sink: a client hears nothing of it, and at the end of a whole file an empty one. A read that brought some ends as
/// interrupted, so that the client's drive looks at its control connection before the next. A sink that refuses breaks the connection.
impl<S: Sink> Carries for SinkTransfer<S> {
    #[tactic(auto, using(crate::proofs::GivingLemmas::pours_none))]
    fn hear<L: Read>(&mut self, link: &mut L, room: &mut [u8]) -> io::Result<usize>
        // Witness of bound: the clause of their trait.
        ensures bound { ReadsAtMost result room.new }

        // What came, and nothing else, went to the sink, which took it.
        // Witness of poured, end, same, whole: equations of what came; `edits/a_piece_is_left_out`.
        ensures poured { IfErr result (λ error. error_kind error ≡ ErrorKind.Interrupted →
            Pours (L.remaining link.old) (L.remaining link.new) self.old.decoder.decoder self.new.decoder.decoder) }

        // An end is told of where the link has ended, and octets of an empty file only behind a whole one.
        ensures end { OnOk result (0 < length room.old → IsAtEnd (L.remaining link.new)) }
        ensures same { OnOk result (self.new.decoder ≡ self.old.decoder) }
        ensures whole { IfOk result (λ count. 0 < count → IsTrue (is_whole self.new.decoder.decoder)) }
    {
        let count = link.read(room)?;
        if count == 0 {
            return Ok(self.rest(room));
        }
        if !self.hear(room.get(..count).unwrap_or(&[])) {
            return Err(Error::from(ErrorKind::StorageFull));
        }
        Err(Error::from(ErrorKind::Interrupted))
    }

    fn give<L: Write>(&mut self, link: &mut L, octets: &[u8]) -> io::Result<usize> {
        link.write(octets)
    }
}

/// Octets of the source go, whatever a client gives; what it gives counts as gone once they all went. A write that moved some ends as interrupted, so
/// that the client's drive looks at its control connection before the next. A source that fails breaks the connection.
impl<D: Source, A: Allocator + Copy> Carries for SourceTransfer<D, A> {
    fn hear<L: Read>(&mut self, link: &mut L, room: &mut [u8]) -> io::Result<usize> {
        link.read(room)
    }

    #[tactic(auto, using(crate::proofs::GivingLemmas::gives_none, crate::proofs::GivingLemmas::gives_stays, crate::proofs::GivingLemmas::gives_read, crate::proofs::GivingLemmas::gives_sent))]
    fn give<L: Write>(&mut self, link: &mut L, octets: &[u8]) -> io::Result<usize>
        // Witness of bound: the clause of their trait.
        ensures bound { WritesAtMost result octets.now }

        // What went, and nothing else, is what was next of the one text of the file.
        // Witness of gives, done, same: equations of what went; `edits/an_upload_counts_as_gone_at_once`.
        ensures gives { Gives D.gave D.left (L.contents link.old) (L.contents link.new) self.old self.new }

        // What a client gives counts as gone only where the whole file went, and then nothing moves.
        ensures done { OnOk result (IsTrue self.new.is_last × (left_to_go self.new [] ≡ [])) }
        ensures same { OnOk result (self.new ≡ self.old) }
    {
        if self.is_over() {
            return Ok(octets.len());
        }
        if let Err(Unread) = self.fill() {
            return Err(Error::from(ErrorKind::InvalidData));
        }
        self.send(link)?;
        Err(Error::from(ErrorKind::Interrupted))
    }
}
