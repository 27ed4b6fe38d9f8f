// The octets of a data connection to a file, between a reader and two writers.
ghost use Rattle.std.specs.Prelude.{◌≡◌, ◌≢◌, ◌==◌, ◌++◌, ◌<◌, ◌≤◌, ◌+◌, ◌^◌, ℕ, List, [], Option, Some, None, true, false, length, IfOk, OnOk, OnErr};
ghost use Rattle.std.specs.String.{string_bytes};
ghost use Rattle.std.specs.Io.KnownBytes.{Appends, IsAtEnd};
ghost use Rattle.ftp_repr.specs.Items.{signs, given_signs};
ghost use Rattle.ftp_repr.specs.Received.{ReceivesSigns};
ghost use Rattle.ftp_mode.specs.Said.{file_signs};
ghost use Rattle.ftp_mode.specs.Deframing.{part_said};
ghost use Rattle.ftp_ports.specs.Beginning.{AppendsFront};
ghost use Rattle.tool_codec.specs.WireReading.{fault_line, ReadsWireTo, Tells, TellsFront};

use ftp_mode::{Deframer, FrameFault, Part};
use ftp_ports::{Failed, PIECE_LIMIT, TURNS};
use ftp_repr::{Item, Receiver};
use ftp_settings::Representation;
use std::alloc::{AllocError, Allocator};
use std::io::{Read, Write};

/// How a wire stands: more may follow, or it has ended and reads as a file, or it has a fault.
#[derive(Clone, Copy)]
pub enum WireState {
    More,
    Whole,
    Faulty(FrameFault),
}

/// A file that is being read, and what of it is settled and not yet written.
#[derive(Drop)]
pub struct Receiving<A: Allocator + Copy> {
    deframer: Deframer,
    receiver: Receiver,
    settled: Vec<u8, A>,
}

impl<A: Allocator + Copy> Receiving<A> {
    ghost use Rattle.tool_codec.specs.Receiving.{StandsAfter, HearsAfter};
    ghost use Rattle.ftp_settings.specs.declared.representation.Representation.{Representation};

    /// No octet of the wire came.
    fn new(alloc: A, form: Representation) -> Receiving<A>
        ensures stands { StandsAfter form [] [] result }
        ensures empty { result.settled.items ≡ [] }
    {
        Receiving {
            deframer: Deframer::new(form.mode, form.structure),
            receiver: Receiver::new(form.kind, form.structure),
            settled: Vec::new(alloc),
        }
    }

    /// Settles what the next octets of the wire say, or its end where there are none.
    fn next(&mut self, piece: &[u8]) -> Result<WireState, Failed>
        ensures ok { IfOk result (λ heard. (r : Representation) (wire written : List ℕ) → length wire < 2 ^ 64
            → StandsAfter r wire written self.old → HearsAfter r (wire ++ piece.now) written (length piece.now == 0) heard self.new) }
    {
        if piece.is_empty() {
            return self.end();
        }
        self.hear(piece)
    }

    /// Settles what the next octets of the wire say.
    fn hear(&mut self, piece: &[u8]) -> Result<WireState, Failed>
        ensures ok { IfOk result (λ heard. (r : Representation) (wire written : List ℕ) → StandsAfter r wire written self.old
            → HearsAfter r (wire ++ piece.now) written false heard self.new) }
    {
        let mut at = 0;
        loop {
            let (_, rest) = piece.split_at(at);
            let step = match self.deframer.feed(rest) {
                Ok(step) => step,
                Err(fault) => return Ok(WireState::Faulty(fault)),
            };
            at += step.taken;
            self.receive(step.part)?;
            match step.part {
                Part::Need => return Ok(WireState::More),
                Part::Data(_) | Part::EndRecord | Part::EndFile | Part::Marker => {}
            }
        }
    }

    /// Settles what a part says.
    fn receive(&mut self, part: Part<'_>) -> Result<(), Failed>
        ensures ok { OnOk result ((text : List ℕ) →
            ReceivesSigns self.old.receiver (file_signs (part_said part.entry text)) self.new.receiver self.old.settled.items self.new.settled.items) }
        ensures deframer { self.new.deframer ≡ self.old.deframer }
    {
        let Some(item) = item_of(part) else {
            return Ok(());
        };
        match self.receiver.take(item, &mut self.settled) {
            Ok(()) => Ok(()),
            Err(_) => Err(Failed),
        }
    }

    /// Settles what the end of the wire says.
    fn end(&mut self) -> Result<WireState, Failed>
        ensures ok { IfOk result (λ heard. (r : Representation) (wire written : List ℕ) → length wire < 2 ^ 64
            → StandsAfter r wire written self.old → HearsAfter r wire written true heard self.new) }
    {
        if let Err(fault) = self.deframer.end() {
            return Ok(WireState::Faulty(fault));
        }
        match self.receiver.end(&mut self.settled) {
            Ok(()) => Ok(WireState::Whole),
            Err(_) => Err(Failed),
        }
    }

    /// Writes what is settled.
    fn write<W: Write>(&mut self, writer: &mut W) -> Result<(), Failed>
        ensures ok { OnOk result (Appends (W.contents writer.old) (W.contents writer.new) self.old.settled.items) }
        ensures front { AppendsFront (W.contents writer.old) (W.contents writer.new) self.old.settled.items }
        ensures empty { OnOk result (self.new.settled.items ≡ []) }
        ensures deframer { self.new.deframer ≡ self.old.deframer }
        ensures receiver { self.new.receiver ≡ self.old.receiver }
    {
        ftp_ports::put(writer, self.settled.as_slice())?;
        self.settled.clear();
        Ok(())
    }
}

/// What a part says of the file: markers are no part of it.
fn item_of<'a>(part: Part<'a>) -> Option<Item<'a>>
    ensures { (text : List ℕ) → given_signs result ≡ file_signs (part_said part.entry text) }
{
    match part {
        Part::Need | Part::Marker => None,
        Part::Data(octets) => Some(Item::Octets(octets)),
        Part::EndRecord => Some(Item::EndRecord),
        Part::EndFile => Some(Item::EndFile),
    }
}

/// Reads a wire up to its end or its fault, writes the file that it says or settles, and gives the exit status.
///
/// The fault is told to `faults` behind all that is written. 0: done. 1: a fault. 3: a read or a write failed, memory was
/// refused, or a loop over reads or writes has made 1,099,511,627,776 turns; then a beginning was written.
pub fn to_file<A, R, W, F>(
    alloc: A,
    form: Representation,
    reader: &mut R,
    writer: &mut W,
    faults: &mut F,
) -> u8
where
    A: Allocator + Copy,
    R: Read,
    W: Write,
    F: Write,
    // Witness: `frame`, done and failed, from a wire; `a_fault_of_a_wire_is_status_0`.
    ensures done { result ≢ 3 → Tells form (R.remaining reader.old) (R.remaining reader.new) (W.contents writer.old) (W.contents writer.new)
        (F.contents faults.old) (F.contents faults.new) result }
    ensures failed { result ≡ 3 → TellsFront form (R.remaining reader.old) (R.remaining reader.new) (W.contents writer.old) (W.contents writer.new)
        (F.contents faults.old) (F.contents faults.new) }
{
    let Ok(outcome) = write_file(alloc, form, reader, writer) else {
        return 3;
    };
    let Some(fault) = outcome else {
        return 0;
    };
    match tell(alloc, fault, faults) {
        Ok(()) => 1,
        Err(Failed) => 3,
    }
}

/// Writes the file that a wire says or settles; gives its fault.
fn write_file<A, R, W>(
    alloc: A,
    form: Representation,
    reader: &mut R,
    writer: &mut W,
) -> Result<Option<FrameFault>, Failed>
where
    A: Allocator + Copy,
    R: Read,
    W: Write,
    ensures { ReadsWireTo form (R.remaining reader.old) (R.remaining reader.new) (W.contents writer.old) (W.contents writer.new) result }
{
    let mut receiving = Receiving::new(alloc, form);
    let mut buffer = [0u8; PIECE_LIMIT];
    for _turn in 0..TURNS {
        let (room, _) = buffer.split_at_mut(PIECE_LIMIT);
        let count = ftp_ports::get(reader, room)?;
        let (octets, _) = room.split_at(count);
        let heard = receiving.next(octets)?;
        receiving.write(writer)?;
        match heard {
            WireState::More => {}
            WireState::Whole => return Ok(None),
            WireState::Faulty(fault) => return Ok(Some(fault)),
        }
    }
    Err(Failed)
}

/// Writes a fault's line.
fn tell<A: Allocator + Copy, F: Write>(
    alloc: A,
    fault: FrameFault,
    faults: &mut F,
) -> Result<(), Failed>
    ensures ok { OnOk result (Appends (F.contents faults.old) (F.contents faults.new) (fault_line fault)) }
    ensures front { AppendsFront (F.contents faults.old) (F.contents faults.new) (fault_line fault) }
{
    match line_of(alloc, fault) {
        Ok(line) => ftp_ports::put(faults, line.as_bytes()),
        Err(_) => Err(Failed),
    }
}

/// A fault's text, and an LF.
fn line_of<A: Allocator + Copy>(alloc: A, fault: FrameFault) -> Result<String<A>, AllocError>
    ensures { IfOk result (λ line. string_bytes line ≡ fault_line fault) }
{
    format!(in alloc; "{fault}\n")
}
