// The entries of lines between a reader and a writer.
ghost use Rattle.std.specs.Prelude.{◌≡◌, ◌≢◌, ◌≤◌, ◌<◌, ◌++◌, ◌∷◌, [], ℕ, List, Option, IfOk, IfSome, IfNone, OnOk, length, false, ◌||◌};
ghost use Rattle.std.specs.Str.Lines.{lines, strip_carriage_return};
ghost use Rattle.tool_codec.specs.FactLines.{Answers, AnswersAll, TellsAll, TellsFront, TellsLinesTo, line_feed};
ghost use Rattle.tool_codec.specs.FactHearing.{LacksFeed, Told};

use ftp_facts::{FactFault, read_entry, write_entry};
use ftp_ports::{Failed, PIECE_LIMIT, TURNS};
use memchr::memchr;
use std::alloc::Allocator;
use std::io::{Read, Write};

/// What is written for a line, and whether it is a fault.
#[derive(Drop)]
pub struct LineAnswer<A: Allocator + Copy> {
    text: Vec<u8, A>,
    faulty: bool,
}

/// The line that is not yet ended, and whether one before it was faulty.
#[derive(Drop)]
pub struct FactLines<A: Allocator + Copy> {
    alloc: A,
    line: Vec<u8, A>,
    faulty: bool,
}

impl<A: Allocator + Copy> FactLines<A> {
    ghost use Rattle.tool_codec.specs.FactHearing.{StandsAfter, HearsAfter, BitesAfter, EndsAfter};

    /// Nothing is kept, and nothing was faulty.
    fn new(alloc: A) -> FactLines<A>
        ensures line { result.line.items ≡ [] }
        ensures faulty { result.faulty ≡ false }
    {
        FactLines {
            alloc,
            line: Vec::new(alloc),
            faulty: false,
        }
    }

    /// Answers the lines that a piece ends, and keeps the rest.
    fn hear<W: Write>(&mut self, piece: &[u8], writer: &mut W) -> Result<(), Failed>
        ensures { (octets : List ℕ) (before : Option (List ℕ)) → StandsAfter octets before (W.contents writer.old) self.old
            → HearsAfter A octets piece.now before (W.contents writer.new) result self.new }
    {
        let mut at = 0;
        while at < piece.len() {
            let (_, rest) = piece.split_at(at);
            at += self.bite(rest, writer)?;
        }
        Ok(())
    }

    /// Takes octets up to the next LF, which ends a line, or all of them.
    fn bite<W: Write>(&mut self, piece: &[u8], writer: &mut W) -> Result<usize, Failed>
        requires { 0 < length piece.now }
        ensures some { IfOk result (λ count. 0 < count) }
        ensures within { IfOk result (λ count. count ≤ length piece.now) }
        ensures stands { (octets : List ℕ) (before : Option (List ℕ)) → StandsAfter octets before (W.contents writer.old) self.old
            → BitesAfter A octets piece.now before (W.contents writer.new) result self.new }
    {
        let Some((front, _)) = cut_at_feed(piece) else {
            self.keep(piece)?;
            return Ok(piece.len());
        };
        self.keep(front)?;
        self.end_line(writer)?;
        Ok(front.len() + 1)
    }

    /// Keeps octets of the line that is not yet ended.
    fn keep(&mut self, octets: &[u8]) -> Result<(), Failed>
        ensures line { OnOk result (self.new.line.items ≡ self.old.line.items ++ octets.now) }
        ensures faulty { self.new.faulty ≡ self.old.faulty }
    {
        match self.line.extend_from_slice(octets) {
            Ok(()) => Ok(()),
            Err(_) => Err(Failed),
        }
    }

    /// Answers the line that is kept, since an LF ends it.
    fn end_line<W: Write>(&mut self, writer: &mut W) -> Result<(), Failed>
        ensures { (octets : List ℕ) (before : Option (List ℕ)) → StandsAfter octets before (W.contents writer.old) self.old
            → EndsAfter A octets before (W.contents writer.new) result self.new }
    {
        let faulty = tell(self.alloc, without_return(self.line.as_slice()), writer)?;
        self.faulty = either(self.faulty, faulty);
        self.line.clear();
        Ok(())
    }

    /// Answers the line that the input's end cuts, if there is one; gives whether some line was faulty.
    fn end<W: Write>(&mut self, writer: &mut W) -> Result<bool, Failed>
        ensures { (octets : List ℕ) (before : Option (List ℕ)) → StandsAfter octets before (W.contents writer.old) self.old
            → Told A (lines octets) before (W.contents writer.new) result }
    {
        let line = self.line.as_slice();
        if line.is_empty() {
            return Ok(self.faulty);
        }
        let faulty = tell(self.alloc, line, writer)?;
        Ok(either(self.faulty, faulty))
    }
}

/// Writes for each line of the input the entry that it says, or its fault, and gives the exit status (RFC 3659, section 7.2).
///
/// A line ends with LF, a CR before the LF is dropped, and a last line without LF is read. An entry is written as
/// `write_entry` does, a fault as its number and name, `F1 NoSpace`, each ended by LF. 0: done. 1: done, and a line was
/// faulty. 3: a read or a write failed, memory was refused, or a loop over reads or writes has made
/// 1,099,511,627,776 turns.
pub fn facts<A, R, W>(alloc: A, reader: &mut R, writer: &mut W) -> u8
where
    A: Allocator + Copy,
    R: Read,
    W: Write,
    // Witness of done: `a_fault_is_status_0`.
    ensures done { result ≢ 3 → TellsAll A (R.remaining reader.old) (R.remaining reader.new) (W.contents writer.old) (W.contents writer.new) result }
    // Witness of failed: `edits/a_line_keeps_its_return`.
    ensures failed { result ≡ 3 → TellsFront A (R.remaining reader.old) (R.remaining reader.new) (W.contents writer.old) (W.contents writer.new) }
{
    match tell_all(alloc, reader, writer) {
        Ok(false) => 0,
        Ok(true) => 1,
        Err(Failed) => 3,
    }
}

/// Answers all lines; gives whether one was faulty.
fn tell_all<A, R, W>(alloc: A, reader: &mut R, writer: &mut W) -> Result<bool, Failed>
where
    A: Allocator + Copy,
    R: Read,
    W: Write,
    ensures { TellsLinesTo A (R.remaining reader.old) (R.remaining reader.new) (W.contents writer.old) (W.contents writer.new) result }
{
    let mut kept = FactLines::new(alloc);
    let mut buffer = [0u8; PIECE_LIMIT];
    for _ in 0..TURNS {
        let (room, _) = buffer.split_at_mut(PIECE_LIMIT);
        let count = ftp_ports::get(reader, room)?;
        if count == 0 {
            return kept.end(writer);
        }
        let (octets, _) = room.split_at(count);
        kept.hear(octets, writer)?;
    }
    Err(Failed)
}

/// Writes the answer of a line; gives whether it is a fault.
fn tell<A, W>(alloc: A, line: &[u8], writer: &mut W) -> Result<bool, Failed>
where
    A: Allocator + Copy,
    W: Write,
    ensures { Told A (line.now ∷ []) (W.contents writer.old) (W.contents writer.new) result }
{
    let answer = answer_line(alloc, line)?;
    ftp_ports::put(writer, answer.text.as_slice())?;
    Ok(answer.faulty)
}

/// The answer of a line and an LF.
fn answer_line<A: Allocator + Copy>(alloc: A, line: &[u8]) -> Result<LineAnswer<A>, Failed>
    ensures { IfOk result (λ answer. AnswersAll A (line.now ∷ []) answer.faulty answer.text.items) }
{
    let mut answer = answer_of(alloc, line)?;
    match answer.text.push(b'\n') {
        Ok(()) => Ok(answer),
        Err(_) => Err(Failed),
    }
}

/// The entry that a line says, as it is written, or its fault's number and name.
fn answer_of<A: Allocator + Copy>(alloc: A, line: &[u8]) -> Result<LineAnswer<A>, Failed>
    ensures { IfOk result (λ answer. Answers A line.now answer.faulty answer.text.items) }
{
    let mut text = Vec::new(alloc);
    match read_entry(alloc, line) {
        Ok(entry) => match write_entry(&entry, &mut text) {
            Ok(()) => Ok(LineAnswer {
                text,
                faulty: false,
            }),
            Err(_) => Err(Failed),
        },
        Err(FactFault::Memory) => Err(Failed),
        Err(fault) => match text.extend_from_slice(fault.text().as_bytes()) {
            Ok(()) => Ok(LineAnswer { text, faulty: true }),
            Err(_) => Err(Failed),
        },
    }
}

/// What stands before the first LF, and what follows it.
fn cut_at_feed(octets: &[u8]) -> Option<(&[u8], &[u8])>
    ensures some { IfSome result (λ parts. octets.now ≡ parts.0.now ++ line_feed ∷ parts.1.now) }
    ensures first { IfSome result (λ parts. LacksFeed parts.0.now) }
    ensures none { IfNone result (LacksFeed octets.now) }
{
    let place = memchr(b'\n', octets)?;
    let (front, back) = octets.split_at(place);
    Some((front, &back[1..]))
}

/// A line without the CR at its end, where it has one.
fn without_return(line: &[u8]) -> &[u8]
    ensures { result.now ≡ strip_carriage_return line.now }
{
    if line.is_empty() || line[line.len() - 1] != b'\r' {
        return line;
    }
    let (front, _) = line.split_at(line.len() - 1);
    front
}

/// Whether one of two is.
fn either(one: bool, other: bool) -> bool
    ensures { result ≡ (one || other) }
{
    one || other
}
