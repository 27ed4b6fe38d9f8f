// A script, read whole.
ghost use Rattle.std.specs.Prelude.{◌≡◌, ◌≤◌, ◌<◌, IfOk, length, take};
ghost use Rattle.std.specs.Io.KnownBytes.{Consumes, IsAtEnd};
ghost use Rattle.tool_script.specs.Reading.{GivesAll, ReadsScript};
ghost use Rattle.tool_script.specs.Status.{status_without};

use crate::script::{Script, ScriptFault, script_of};
use std::alloc::Allocator;
use std::fmt::{Display, Formatter};
use std::io::{Error, ErrorKind, Read};
use std::{fmt, io};
use tool_terminal::Status;

/// How many octets one read is asked for.
const ROOM: usize = 65_536;

/// Why there is no script.
#[derive(Drop)]
pub enum NoScript {
    /// The number of the first line that fits no form, counted from 1.
    Line(usize),
    /// A read failed, or memory was refused.
    Failed(Error),
}

impl NoScript {
    /// How a program ends that has no script.
    pub fn status(&self) -> Status
        ensures { result ≡ status_without self.now }
    {
        match self {
            NoScript::Line(_) => Status::BadWords,
            NoScript::Failed(_) => Status::Failed,
        }
    }
}

impl Display for NoScript {
    fn fmt<W: fmt::Write>(&self, f: &mut Formatter<W>) -> fmt::Result {
        match self {
            NoScript::Line(number) => write!(f, "line {number} fits no form"),
            NoScript::Failed(error) => write!(f, "{error}"),
        }
    }
}

/// The script that a reader gives, which is read to its end.
pub fn read_script<A: Allocator + Copy, R: Read>(
    alloc: A,
    reader: &mut R,
) -> Result<Script<A>, NoScript>
    // Witness: an equation, where no read failed and memory was not refused: a text says one script, or is refused at one line.
    ensures { ReadsScript (R.remaining reader.old) (R.remaining reader.new) result }
{
    let text = match text_of(alloc, reader) {
        Ok(text) => text,
        Err(error) => return Err(NoScript::Failed(error)),
    };
    match script_of(alloc, text.as_slice()) {
        Ok(script) => Ok(script),
        Err(ScriptFault::Line(number)) => Err(NoScript::Line(number)),
        Err(ScriptFault::Memory) => Err(NoScript::Failed(Error::from(ErrorKind::OutOfMemory))),
    }
}

/// All that a reader gives.
#[tactic(auto, using(crate::proofs::ReadingLemmas::more_read, crate::proofs::ReadingLemmas::none_read))]
fn text_of<A: Allocator + Copy, R: Read>(alloc: A, reader: &mut R) -> io::Result<Vec<u8, A>>
    ensures { IfOk result (λ text. GivesAll (R.remaining reader.old) (R.remaining reader.new) text.items) }
{
    let mut text = Vec::new(alloc);
    let mut room = [0u8; ROOM];
    for _ in 0..u64::MAX {
        let count = read_some(reader, &mut room)?;
        if count == 0 {
            return Ok(text);
        }
        let (front, _) = room.split_at(count);
        text.extend_from_slice(front)?;
    }
    Err(Error::from(ErrorKind::TimedOut))
}

/// Reads what one read gives; none where there is room is the end.
fn read_some<R: Read>(reader: &mut R, room: &mut [u8]) -> io::Result<usize>
    ensures within { IfOk result (λ count. count ≤ length room.new) }
    ensures ok { IfOk result (λ count. Consumes (R.remaining reader.old) (R.remaining reader.new) (take count room.new)) }
    ensures end { IfOk result (λ count. count ≡ 0 → 0 < length room.new → IsAtEnd (R.remaining reader.new)) }
{
    for _ in 0..u64::MAX {
        match reader.read(room) {
            Ok(count) => return Ok(count),
            Err(error) if error.kind() == ErrorKind::Interrupted => {}
            Err(error) => return Err(error),
        }
    }
    Err(Error::from(ErrorKind::TimedOut))
}
