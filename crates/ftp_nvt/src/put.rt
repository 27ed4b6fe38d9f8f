ghost use Rattle.std.specs.Prelude.{◌≡◌, ◌+◌, ◌<◌, ◌≤◌, ◌++◌, length, take, OnOk, OnErr, IfErr, vec_len, vec_capacity};
ghost use Rattle.ftp_nvt.specs.Lines.{written_octet, written_line};

use crate::fault::NvtFault;
use crate::line::{CR, LF, NUL};
use crate::telnet::IAC;
use std::alloc::{AllocError, Allocator};

/// Appends a line as it goes over the control connection: 255 doubled, CR as CR NUL, CR LF behind it (RFC 854).
///
/// The text has no LF, which the caller sees to: an LF in it would end the line there. After a fault the vector
/// has what it had.
pub fn put_line<A: Allocator + Copy>(text: &[u8], out: &mut Vec<u8, A>) -> Result<(), NvtFault>
    ensures ok { OnOk result (out.new.items ≡ out.old.items ++ written_line text.now) }
    ensures err { OnErr result (out.new.items ≡ out.old.items) }
    ensures memory { IfErr result (λ fault. fault ≡ NvtFault.Memory) }

    // Memory is refused only where the vector had no room.
    // Witness of full: `writes_in_room` of `rows_lines`.
    ensures full { OnErr result
        (vec_capacity out.old < vec_len out.old + length (written_line text.now)) }
{
    let start = out.len();
    match append_line(text, out) {
        Ok(()) => Ok(()),
        Err(_) => {
            out.truncate(start);
            Err(NvtFault::Memory)
        }
    }
}

// Appends a line, or a front of it.
fn append_line<A: Allocator + Copy>(text: &[u8], out: &mut Vec<u8, A>) -> Result<(), AllocError>
    ensures ok { OnOk result (out.new.items ≡ out.old.items ++ written_line text.now) }
    ensures err { OnErr result (take (length out.old.items) out.new.items ≡ out.old.items) }
    ensures full { OnErr result
        (vec_capacity out.old < length out.old.items + length (written_line text.now)) }
{
    for octet in text {
        put_octet(*octet, out)?;
    }
    out.extend_from_slice(&[CR, LF])
}

// Appends an octet of a text.
fn put_octet<A: Allocator + Copy>(octet: u8, out: &mut Vec<u8, A>) -> Result<(), AllocError>
    ensures ok { OnOk result (out.new.items ≡ out.old.items ++ written_octet octet) }
    ensures err { OnErr result (out.new.items ≡ out.old.items) }
    ensures full { OnErr result
        (vec_capacity out.old < length out.old.items + length (written_octet octet)) }
    ensures capacity { vec_capacity out.old ≤ vec_capacity out.new }
{
    match octet {
        IAC => out.extend_from_slice(&[IAC, IAC]),
        CR => out.extend_from_slice(&[CR, NUL]),
        _ => out.extend_from_slice(&[octet]),
    }
}
