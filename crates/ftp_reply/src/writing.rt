//! Replies to lines.
ghost use Rattle.std.specs.Prelude.{◌≡◌, ◌<◌, ◌++◌, ◌∷◌, List, ℕ, length, OnOk, OnErr};
ghost use Rattle.ftp_reply.specs.Lines.{joined};
ghost use Rattle.ftp_reply.specs.Reply.{IsCode, code_text, padded, begins_with_digits, written};

use crate::lines::{LF, Lines};
use crate::reply::Reply;
use itoa::Buffer;
use std::alloc::{AllocError, Allocator};

/// Appends the reply's lines without their ends, an LF between two (RFC 959, section 4.2).
///
/// A line between the first and the last that begins with three digits gets one SP before it. The texts have no LF,
/// which the caller sees to. Without memory all is as before.
pub fn write<A: Allocator + Copy, B: Allocator + Copy>(
    reply: &Reply<A>,
    out: &mut Vec<u8, B>,
) -> Result<(), AllocError>
    // Witness: equations (`laws::written_is_cut` and `written_is_said` say what they are); edit: `leaves_a_part_where_memory_was_wanted`.
    ensures ok { OnOk result (out.new.items ≡ out.old.items ++ joined (written reply.now.code reply.now.lines)) }
    ensures err { OnErr result (out.new.items ≡ out.old.items) }
{
    let before = out.len();
    let put = put_lines(reply.code, &reply.lines, out);
    if put.is_err() {
        out.truncate(before);
    }
    put
}

/// Appends the lines, or without memory a part of them.
fn put_lines<A: Allocator + Copy, B: Allocator + Copy>(
    code: u16,
    lines: &Lines<A>,
    out: &mut Vec<u8, B>,
) -> Result<(), AllocError>
    requires code { IsCode code }
    requires some { 0 < length lines.now }
    ensures ok { OnOk result (out.new.items ≡ out.old.items ++ joined (written code lines.now)) }
    ensures err { OnErr result ((part : List ℕ) × (out.new.items ≡ out.old.items ++ part)) }
{
    let first = lines.get(0).unwrap();
    let last = lines.len() - 1;
    if last == 0 {
        return put_marked(code, b' ', first, out);
    }
    put_marked(code, b'-', first, out)?;
    for i in 1..last {
        out.push(LF)?;
        put_padded(lines.get(i).unwrap(), out)?;
    }
    out.push(LF)?;
    put_marked(code, b' ', lines.get(last).unwrap(), out)
}

/// Appends the code, the octet that marks the line, and the text.
fn put_marked<B: Allocator + Copy>(
    code: u16,
    mark: u8,
    text: &[u8],
    out: &mut Vec<u8, B>,
) -> Result<(), AllocError>
    requires { IsCode code }
    ensures ok { OnOk result (out.new.items ≡ out.old.items ++ (code_text code ++ mark ∷ text.now)) }
    ensures err { OnErr result ((part : List ℕ) × (out.new.items ≡ out.old.items ++ part)) }
{
    let mut buffer = Buffer::new();
    let digits = buffer.format(code).as_bytes();
    out.reserve(digits.len() + 1)?;
    out.extend_from_slice(digits)?;
    out.push(mark)?;
    out.extend_from_slice(text)
}

/// Appends a line between the first and the last.
fn put_padded<B: Allocator + Copy>(line: &[u8], out: &mut Vec<u8, B>) -> Result<(), AllocError>
    ensures ok { OnOk result (out.new.items ≡ out.old.items ++ padded line.now) }
    ensures err { OnErr result ((part : List ℕ) × (out.new.items ≡ out.old.items ++ part)) }
{
    if has_digits(line) {
        out.push(b' ')?;
    }
    out.extend_from_slice(line)
}

/// Whether a line begins with three digits.
fn has_digits(line: &[u8]) -> bool
    ensures { result ≡ begins_with_digits line.now }
{
    match line {
        [a, b, c, ..] => a.is_ascii_digit() && b.is_ascii_digit() && c.is_ascii_digit(),
        _ => false,
    }
}
