// Reading and writing piece by piece, so that a failure leaves a beginning.
ghost use Rattle.std.specs.Prelude.{◌≡◌, ◌≤◌, ◌<◌, ℕ, OnOk, OnErr, IfOk, length, take};
ghost use Rattle.std.specs.Io.KnownBytes.{Appends, Consumes, IsAtEnd, Keeps};
ghost use Rattle.ftp_ports.specs.Beginning.{AppendsFront};

use crate::limits::TURNS;
use std::io::{ErrorKind, Read, Write};
use thiserror::Error;

/// A read or a write that failed, or memory that was refused: the program ends with status 3.
#[derive(Clone, Copy, Debug, PartialEq, Eq, Error)]
#[error("a read or a write failed, or memory was refused")]
pub struct Failed;

/// Writes all octets, call by call; a failure leaves a beginning of them.
pub fn put<W: Write>(writer: &mut W, octets: &[u8]) -> Result<(), Failed>
    // Witness of ok: `edits/a_short_write_counts_as_whole.edit`; `edits/an_interrupted_write_counts_as_whole.edit`.
    ensures ok { OnOk result (Appends (W.contents writer.old) (W.contents writer.new) octets.now) }
    // Witness of front: `dialogue` of `tool_dialogue`, `failed`.
    ensures front { AppendsFront (W.contents writer.old) (W.contents writer.new) octets.now }
{
    let mut at = 0;
    for _ in 0..TURNS {
        if at == octets.len() {
            return Ok(());
        }
        let (_, rest) = octets.split_at(at);
        at += put_some(writer, rest)?;
    }
    Err(Failed)
}

/// One write: how many octets it took, none where it was interrupted.
fn put_some<W: Write>(writer: &mut W, octets: &[u8]) -> Result<usize, Failed>
    ensures within { IfOk result (λ count. count ≤ length octets.now) }
    ensures ok { IfOk result (λ count. Appends (W.contents writer.old) (W.contents writer.new) (take count octets.now)) }
    ensures err { OnErr result (Keeps (W.contents writer.old) (W.contents writer.new)) }
{
    match writer.write(octets) {
        Ok(0) => Err(Failed),
        Ok(count) => Ok(count),
        Err(error) if error.kind() == ErrorKind::Interrupted => Ok(0),
        Err(_) => Err(Failed),
    }
}

/// Reads what one read gives; none where there is room is the end of the input.
pub fn get<R: Read>(reader: &mut R, room: &mut [u8]) -> Result<usize, Failed>
    // Witness of within: `converse` of `tool_dialogue`: its room can be cut there.
    ensures within { IfOk result (λ count. count ≤ length room.new) }
    // Witness of ok: `edits/what_was_read_is_dropped.edit`.
    ensures ok { IfOk result (λ count. Consumes (R.remaining reader.old) (R.remaining reader.new) (take count room.new)) }
    // Witness of end: `dialogue`, `done`: the input is at its end.
    ensures end { IfOk result (λ count. count ≡ 0 → 0 < length room.new → IsAtEnd (R.remaining reader.new)) }
    // Witness of err: `dialogue`, `failed`: what was read.
    ensures err { OnErr result (Keeps (R.remaining reader.old) (R.remaining reader.new)) }
{
    for _ in 0..TURNS {
        match reader.read(room) {
            Ok(count) => return Ok(count),
            Err(error) if error.kind() == ErrorKind::Interrupted => {}
            Err(_) => return Err(Failed),
        }
    }
    Err(Failed)
}
