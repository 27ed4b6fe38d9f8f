ghost use Rattle.std.specs.Prelude.{◌≡◌, ◌+◌, ◌<◌, ◌≤◌, length, take, OnErr, OnOk};
ghost use Rattle.ftp_wire.specs.Decoder.{no_octets, is_whole, ended};
ghost use Rattle.ftp_wire.specs.Hearing.{Hears, TellsNothing};

use crate::decoded::Taken;
use crate::intake::{Intake, RETURN};
use crate::sink::Sink;
use ftp_settings::{MARKER_LIMIT, Representation};
use std::alloc::AllocError;
use std::marker::Model;

/// Decodes the octets of one data connection into a file.
#[derive(Drop)]
pub struct Decoder<S: Sink> {
    intake: Intake<S>,
}

impl<S: Sink> Model for Decoder<S> {
    ghost use Rattle.ftp_wire.specs.Hearing.{Decoding};

    ghost Value = { Decoding };

    ghost use Rattle.std.specs.Prelude.{◌≡◌, []};
    ghost use Rattle.ftp_mode.specs.Deframing.{owed, last_marker};
    ghost use Rattle.ftp_wire.specs.Taking.{decoder_at};

    ghost view = { λ d. record { decoder = decoder_at S.octets d.intake; marker = last_marker d.intake.deframer } };

    ghost invariant = { λ d. owed d.intake.deframer ≡ [] };
}

impl<S: Sink> Decoder<S> {
    /// A decoder of one file in these settings, before its first octet. The file grows in `sink`.
    pub fn new(settings: Representation, sink: S) -> Decoder<S>
        ensures { result.decoder ≡ record (no_octets settings) { content = S.octets sink } }
    {
        Decoder {
            intake: Intake::new(settings, sink),
        }
    }

    /// Takes the next octets of the data connection: all of them, or up to the first that tells something.
    ///
    /// `room` is how many octets the file may grow by; memory is asked for none beyond. What was told is in the
    /// result: a marker, a fault, no room, no memory. After the last two the transfer is over: nothing is said of
    /// what is settled then.
    pub fn hear(&mut self, piece: &[u8], room: u64) -> Taken
        // Witness of hears: an equation where more may follow; `edits/a_passed_room_is_no_more`, `nothing_is_kept_of_what_was_settled`,
        // `a_call_breaks_the_reader`.
        ensures hears { Hears (length self.old.decoder.content + room) self.old.decoder (take result.count piece.now)
            result.mark self.new.marker result.heard self.new.decoder }
        // Witness of within, some, all: `edits/decoder_that_takes_nothing`.
        ensures within { result.count ≤ length piece.now }
        ensures some { 0 < length piece.now → 0 < result.count }
        ensures all { TellsNothing result.mark result.heard → result.count ≡ length piece.now }
    {
        let taken = self.intake.hear(piece, room);
        self.intake.forget_ends();
        taken
    }

    /// The restart marker that `hear` told last, until the next call of it.
    pub fn marker(&self) -> &[u8]
        ensures { result.now ≡ self.now.marker }
    {
        self.intake.deframer.marker()
    }

    /// How many octets it stores beside those that are settled: a restart marker that comes, or came last; at most 255.
    pub fn stored(&self) -> usize
        // Witness of sum: equations, with the sum over the fields.
        ensures sum { result ≡ length self.now.marker }
        // Witness of few: as of `stored`.
        ensures few { result ≤ MARKER_LIMIT }
    {
        self.intake.deframer.stored()
    }

    /// How many octets of the file are settled.
    pub fn len(&self) -> u64
        ensures { result ≡ length self.now.decoder.content }
    {
        self.intake.sink.len()
    }

    /// Whether a clean end of the connection leaves a whole file here (RFC 959, section 3.4).
    pub fn is_whole(&self) -> bool
        ensures { result ≡ is_whole self.now.decoder }
    {
        self.intake.deframer.is_complete()
    }

    /// The clean end of a file that is whole: an unpaired CR is kept. Without memory all is as before.
    ///
    /// At a break, or at an end before the end of file, nothing is to be done: what was settled is the file.
    pub fn end(&mut self) -> Result<(), AllocError>
        // Witness: equations; `edits/a_clean_end_drops_its_return`.
        ensures ok { OnOk result (self.new.decoder ≡ ended self.old.decoder) }
        ensures err { OnErr result (self.new ≡ self.old) }
    {
        if self.intake.receiver.holds_return() {
            self.intake.sink.push(&RETURN)?;
        }
        self.intake.receiver.broken();
        Ok(())
    }

    /// What was settled.
    pub fn sink(&self) -> &S
        ensures { S.octets result.now ≡ self.now.decoder.content }
    {
        &self.intake.sink
    }

    /// Gives back what was settled.
    pub fn into_sink(self) -> S
        ensures { S.octets result ≡ self.decoder.content }
    {
        self.intake.sink
    }
}
