// A file to the octets of a data connection and back, between a reader and two writers.
ghost use Rattle.std.specs.Prelude.{◌≡◌, ◌≢◌, ◌≤◌, ◌<◌, ◌^◌, ◌⊎◌, ◌+◌, ◌++◌, ℕ, List, [], Some, None, true, false, length, take, drop, vec_len, OnOk, OnErr};
ghost use Rattle.std.specs.Io.KnownBytes.{Appends};
ghost use Rattle.ftp_repr.specs.Items.{signs, given_signs};
ghost use Rattle.ftp_repr.specs.Sending.{has_sent_end};
ghost use Rattle.ftp_repr.specs.declared.item.Item.TheVariants.{EndFile};
ghost use Rattle.ftp_pieces.specs.Machine.{gives};
ghost use Rattle.ftp_repr.specs.Signs.{signs_of};
ghost use Rattle.ftp_mode.specs.Framing.{owed_octets, writing};
ghost use Rattle.ftp_mode.specs.Writing.{writer};
ghost use Rattle.ftp_ports.specs.Beginning.{AppendsFront};
ghost use Rattle.tool_codec.specs.Direction.{GoesInDirection, GoesFront};
ghost use Rattle.tool_codec.specs.Writes.{WritesSigns};
ghost use Rattle.tool_codec.specs.declared.frames.Direction.TheVariants.{ToWire, ToFile};
ghost use Rattle.tool_codec.specs.Frame.{Frames, FramesFront, frame_text};
ghost use Rattle.ftp_settings.specs.Representation.{form_of};

use crate::receiving::to_file;
use ftp_mode::{Framer, Moved};
use ftp_ports::{Failed, PIECE_LIMIT, TURNS};
use ftp_repr::{Item, Sender};
use ftp_settings::Representation;
use std::alloc::Allocator;
use std::io::{Read, Write};

/// Which way a file goes.
#[derive(Clone, Copy)]
pub enum Direction {
    /// A file to its wire. With `marks` own restart markers count its octets, in type I with file structure and block
    /// mode; else they have no effect.
    ToWire { marks: bool },
    /// A wire to its file. Restart markers are checked and dropped.
    ToFile,
}

impl Direction {
    /// To the file where it is to be read, and else to the wire; markers that are asked for have no effect on a reading.
    pub fn new(reads: bool, marks: bool) -> Direction
        ensures reads { reads ≡ true → result ≡ ToFile }
        ensures writes { reads ≡ false → result ≡ ToWire marks }
    {
        if reads {
            Direction::ToFile
        } else {
            Direction::ToWire { marks }
        }
    }
}

/// A file that is being written, and what of its wire is made and not yet written.
#[derive(Drop)]
pub struct FramedFile<A: Allocator + Copy> {
    sender: Sender,
    framer: Framer,
    /// So many octets in front are made, and the others are to be written over.
    made: usize,
    room: Vec<u8, A>,
    ghost within: { made ≤ vec_len room },
}

impl<A: Allocator + Copy> FramedFile<A> {
    ghost use Rattle.tool_codec.specs.Sending.{made_octets, still_to_give, Puts, Gives};

    /// Nothing of the file was given, and own markers count its octets where they are asked for.
    fn new(alloc: A, form: Representation, marks: bool) -> FramedFile<A>
        ensures text { (file : List ℕ) → length file < 2 ^ 64 → still_to_give result file ≡ frame_text form marks file }
        ensures goes_on { has_sent_end result.sender ≡ false }
        ensures empty { made_octets result ≡ [] }
    {
        FramedFile {
            sender: Sender::new(form.kind, form.structure),
            framer: framer_of(form, marks),
            made: 0,
            room: Vec::new(alloc),
        }
    }

    /// Makes what the next octets of the file decide.
    fn piece(&mut self, piece: &[u8]) -> Result<(), Failed>
        requires { has_sent_end self.old.sender ≡ false }
        ensures { OnOk result (Gives self.old piece.now self.new []) }
    {
        let mut at = 0;
        while at < piece.len() {
            let (_, rest) = piece.split_at(at);
            let (taken, item) = self.sender.next(rest, false);
            at += taken;
            if let Some(item) = item {
                self.put(item)?;
            }
        }
        Ok(())
    }

    /// Makes what an item decides.
    fn put(&mut self, item: Item<'_>) -> Result<(), Failed>
        ensures ok { OnOk result (Puts self.old (signs item.entry) self.new []) }
        ensures out { OnOk result (item.entry ≡ EndFile → owed_octets self.new.framer ≡ []) }
        ensures sender { self.new.sender ≡ self.old.sender }
    {
        let mut rest = item;
        for _ in 0..TURNS {
            self.widen()?;
            let written = put_at(&mut self.framer, rest, self.room.as_mut_slice(), self.made);
            self.made += written.made;
            match written.rest(rest) {
                Some(left) => rest = left,
                None => return Ok(()),
            }
        }
        Err(Failed)
    }

    /// Finds room for more octets where all is made.
    fn widen(&mut self) -> Result<(), Failed>
        ensures made { made_octets self.new ≡ made_octets self.old }
        ensures sender { self.new.sender ≡ self.old.sender }
        ensures framer { self.new.framer ≡ self.old.framer }
    {
        if self.made < self.room.len() {
            return Ok(());
        }
        match self.room.extend_from_slice(&[0; PIECE_LIMIT]) {
            Ok(()) => Ok(()),
            Err(_) => Err(Failed),
        }
    }

    /// Makes the end of the file.
    fn end(&mut self) -> Result<(), Failed>
        requires { has_sent_end self.old.sender ≡ false }
        ensures { OnOk result (made_octets self.new ≡ made_octets self.old ++ still_to_give self.old []) }
    {
        self.put(Item::EndFile)?;
        Ok(())
    }

    /// Writes what is made.
    fn write<W: Write>(&mut self, writer: &mut W) -> Result<(), Failed>
        ensures ok { OnOk result (Appends (W.contents writer.old) (W.contents writer.new) (made_octets self.old)) }
        ensures front { AppendsFront (W.contents writer.old) (W.contents writer.new) (made_octets self.old) }
        ensures empty { OnOk result (made_octets self.new ≡ []) }
        ensures sender { self.new.sender ≡ self.old.sender }
        ensures framer { self.new.framer ≡ self.old.framer }
    {
        let (made, _) = self.room.as_slice().split_at(self.made);
        ftp_ports::put(writer, made)?;
        self.made = 0;
        Ok(())
    }
}

/// Writes the front of an item into the room from `at` on.
fn put_at(framer: &mut Framer, item: Item<'_>, room: &mut [u8], at: usize) -> Moved
    requires { at ≤ length room.old }
    ensures within { (result.taken ≤ length (signs item.entry)) × (at + result.made ≤ length room.old) }
    ensures writes { WritesSigns framer.old (signs item.entry) framer.new (drop result.taken (signs item.entry)) (take at room.old) (take (at + result.made) room.new) }
    ensures out { item.entry ≡ EndFile → result.taken ≡ 1 → owed_octets framer.new ≡ [] }
{
    let (_, back) = room.split_at_mut(at);
    framer.put(item, back)
}

/// A writer of wires, with own markers where they are asked for and have an effect.
fn framer_of(form: Representation, marks: bool) -> Framer
    ensures text { (file : List ℕ) → length file < 2 ^ 64 → gives writer (writing result) (signs_of (form_of form) file) ≡ frame_text form marks file }
    ensures owes { owed_octets result ≡ [] }
{
    let mut framer = Framer::new(form.mode, form.structure);
    if marks && form.has_markers() {
        framer.mark(0);
    }
    framer
}

/// Writes a file as the octets of a data connection, or reads it from them, and gives the exit status (RFC 959, sections
/// 3.1, 3.4 and 3.5).
///
/// One function for both directions: the reader gives the file and the writer takes its wire, or the other way round. Of
/// a wire with a fault that is written which it settles before, and an unpaired CR there is dropped; then `faults` takes
/// the fault's number, name and place and an LF, as `M1 BadEscape(2)`. 0: done. 1: a wire had a fault or ended early. 3: a
/// read or a write failed, memory was refused, or a loop over reads or writes has made 1,099,511,627,776 turns; then a
/// beginning was written.
pub fn frame<A, R, W, F>(
    alloc: A,
    form: Representation,
    direction: Direction,
    reader: &mut R,
    writer: &mut W,
    faults: &mut F,
) -> u8
where
    A: Allocator + Copy,
    R: Read,
    W: Write,
    F: Write,
    // Witness of done: to a wire `a_file_that_broke_off_is_status_0`, from one `what_was_read_before_a_fault_is_not_written`.
    // Witness: `markers_are_written_unasked`.
    ensures done { result ≢ 3 → GoesInDirection form direction (R.remaining reader.old) (R.remaining reader.new) (W.contents writer.old) (W.contents writer.new)
        (F.contents faults.old) (F.contents faults.new) result }
    ensures failed { result ≡ 3 → GoesFront form direction (R.remaining reader.old) (R.remaining reader.new) (W.contents writer.old) (W.contents writer.new)
        (F.contents faults.old) (F.contents faults.new) }
{
    match direction {
        Direction::ToWire { marks } => to_wire(alloc, form, marks, reader, writer),
        Direction::ToFile => to_file(alloc, form, reader, writer, faults),
    }
}

/// Writes a file as the octets of a data connection, and gives the exit status.
fn to_wire<A, R, W>(
    alloc: A,
    form: Representation,
    marks: bool,
    reader: &mut R,
    writer: &mut W,
) -> u8
where
    A: Allocator + Copy,
    R: Read,
    W: Write,
    ensures done { result ≢ 3 → Frames form marks (R.remaining reader.old) (R.remaining reader.new) (W.contents writer.old) (W.contents writer.new) result }
    ensures failed { result ≡ 3 → FramesFront form marks (R.remaining reader.old) (R.remaining reader.new) (W.contents writer.old) (W.contents writer.new) }
{
    match write_all(alloc, form, marks, reader, writer) {
        Ok(()) => 0,
        Err(Failed) => 3,
    }
}

/// Writes the whole file.
fn write_all<A, R, W>(
    alloc: A,
    form: Representation,
    marks: bool,
    reader: &mut R,
    writer: &mut W,
) -> Result<(), Failed>
where
    A: Allocator + Copy,
    R: Read,
    W: Write,
    ensures ok { OnOk result (Frames form marks (R.remaining reader.old) (R.remaining reader.new) (W.contents writer.old) (W.contents writer.new) 0) }
    ensures err { OnErr result (FramesFront form marks (R.remaining reader.old) (R.remaining reader.new) (W.contents writer.old) (W.contents writer.new)) }
{
    let mut sending = FramedFile::new(alloc, form, marks);
    let mut buffer = [0u8; PIECE_LIMIT];
    for _turn in 0..TURNS {
        let (room, _) = buffer.split_at_mut(PIECE_LIMIT);
        let count = ftp_ports::get(reader, room)?;
        if count == 0 {
            sending.end()?;
            sending.write(writer)?;
            return Ok(());
        }
        let (octets, _) = room.split_at(count);
        sending.piece(octets)?;
        sending.write(writer)?;
    }
    Err(Failed)
}
