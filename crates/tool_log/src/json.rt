// Lines of the log as JSON, an object a line (RFC 8259): functions of values.
ghost use Rattle.std.specs.Prelude.{◌≡◌, ◌≤◌, ◌++◌, codes, decimal, take, IfOk, OnOk};
ghost use Rattle.ftp_facts.specs.Moment.{moment_digits};
ghost use Rattle.tool_terminal.specs.escaped.Shown.{digit};
ghost use Rattle.tool_log.specs.Json.{asked_json, char_json, code_json, command_json, ending_json, escape, front_json, head_json, high_surrogate};
ghost use Rattle.tool_log.specs.Json.{lost_member, low_surrogate, member, note_json, note_within, pair_json, reason_member, reset_json, session_json};
ghost use Rattle.tool_log.specs.Json.{stamped, string, text_json, told_front, verb_json};

use crate::entry::DataClose;
use bstr::ByteSlice;
use ftp_facts::{Moment, moment_text};
use itoa::Buffer;
use std::alloc::{AllocError, Global};

/// How many octets of a note always have room in a line: each is an escape of six at most.
const SURE_OF_A_NOTE: usize = 640;

/// When a line is told, and how many lines before it are lost.
#[derive(Clone, Copy)]
pub(crate) struct LineHead {
    pub(crate) moment: Moment,
    pub(crate) lost: u64,
}

/// A line of a client that was acted on, as values.
#[derive(Clone, Copy)]
pub(crate) struct CommandFacts<'a> {
    pub(crate) peer: &'a [u8],
    pub(crate) user: &'a [u8],
    /// Its letters; none of a verb that is not known.
    pub(crate) verb: &'a [u8],
    pub(crate) path: &'a [u8],
    /// How many went over data connections.
    pub(crate) octets: u64,
    /// None: the line was not answered.
    pub(crate) code: Option<u16>,
    pub(crate) fate: DataClose,
    /// Why the folder failed; empty where it did not.
    pub(crate) reason: &'a [u8],
}

/// The line of a client's line.
pub(crate) fn command_line(
    alloc: Global,
    head: LineHead,
    command: &CommandFacts<'_>,
) -> Result<Vec<u8, Global>, AllocError>
    // Witness: an equation, where memory is not refused; `edits/a_line_without_an_answer_has_code_0`.
    ensures { IfOk result (λ line. line.items ≡ command_json head command.now) }
{
    let mut line = Vec::new(alloc);
    put_head(head, b"command", &mut line)?;
    put_asked(command, &mut line)?;
    put_ending(command, &mut line)?;
    Ok(line)
}

/// The line of how a session goes.
pub(crate) fn session_line(
    alloc: Global,
    head: LineHead,
    peer: &[u8],
    text: &[u8],
) -> Result<Vec<u8, Global>, AllocError>
    // Witness: an equation, where memory is not refused.
    ensures { IfOk result (λ line. line.items ≡ session_json head peer.now text.now) }
{
    let mut line = Vec::new(alloc);
    put_head(head, b"session", &mut line)?;
    put_string_member(b"peer", peer, &mut line)?;
    put_string_member(b"text", text, &mut line)?;
    line.extend_from_slice(b"}")?;
    Ok(line)
}

/// The line of what is told of the server itself, which has at most so many octets: of a longer text the front.
pub(crate) fn note_line(
    alloc: Global,
    most: usize,
    head: LineHead,
    text: &[u8],
) -> Result<Vec<u8, Global>, AllocError>
    // Witness: an equation, where memory is not refused; `edits/a_long_note_is_told_whole`.
    ensures { IfOk result (λ line. line.items ≡ note_within most head text.now) }
{
    let line = whole_note(alloc, head, text)?;
    whole_note(alloc, head, told_front(text, line.as_slice().len(), most))
}

/// What is told of a text whose line has so many octets: all of it, or its front where the line may have only so many.
fn told_front(text: &[u8], length: usize, most: usize) -> &[u8]
    ensures { result.now ≡ told_front text.now length most }
{
    if length <= most {
        return text;
    }
    sure_front(text)
}

/// The front of a text that always has room.
fn sure_front(text: &[u8]) -> &[u8]
    ensures { result.now ≡ take 640 text.now }
{
    let (front, _) = text.split_at(SURE_OF_A_NOTE.min(text.len()));
    front
}

fn whole_note(alloc: Global, head: LineHead, text: &[u8]) -> Result<Vec<u8, Global>, AllocError>
    ensures { IfOk result (λ line. line.items ≡ note_json head text.now) }
{
    let mut line = Vec::new(alloc);
    put_head(head, b"note", &mut line)?;
    put_string_member(b"text", text, &mut line)?;
    line.extend_from_slice(b"}")?;
    Ok(line)
}

/// Appends the front of an object.
fn put_head(head: LineHead, event: &[u8], out: &mut Vec<u8, Global>) -> Result<(), AllocError>
    ensures { OnOk result (out.new.items ≡ out.old.items ++ head_json head event.now) }
{
    put_front(&stamp_of(head.moment), head.lost, event, out)
}

/// Appends the front of an object whose moment is written so.
fn put_front(
    stamp: &[u8],
    lost: u64,
    event: &[u8],
    out: &mut Vec<u8, Global>,
) -> Result<(), AllocError>
    ensures { OnOk result (out.new.items ≡ out.old.items ++ front_json stamp.now lost event.now) }
{
    out.extend_from_slice(b"{\"time\":\"")?;
    out.extend_from_slice(stamp)?;
    out.extend_from_slice(b"\"")?;
    put_lost(lost, out)?;
    put_string_member(b"event", event, out)
}

/// A moment in UTC.
fn stamp_of(moment: Moment) -> [u8; 20]
    ensures { result ≡ stamped (moment_digits moment.seconds) }
{
    stamped(moment_text(moment))
}

/// Fourteen digits as a moment in UTC.
fn stamped(digits: [u8; 14]) -> [u8; 20]
    ensures { result ≡ stamped digits }
{
    let [a, b, c, d, e, f, g, h, i, j, k, l, m, n] = digits;
    [
        a, b, c, d, b'-', e, f, b'-', g, h, b'T', i, j, b':', k, l, b':', m, n, b'Z',
    ]
}

fn put_lost(lines: u64, out: &mut Vec<u8, Global>) -> Result<(), AllocError>
    // Witness: an equation, where memory is not refused; `edits/one_lost_line_is_not_told`.
    ensures { OnOk result (out.new.items ≡ out.old.items ++ lost_member lines) }
{
    if lines == 0 {
        return Ok(());
    }
    put_number_member(b"lost", lines, out)
}

/// Appends what a line asks, and how many octets it moved.
fn put_asked(command: &CommandFacts<'_>, out: &mut Vec<u8, Global>) -> Result<(), AllocError>
    ensures { OnOk result (out.new.items ≡ out.old.items ++ asked_json command.now) }
{
    put_string_member(b"peer", command.peer, out)?;
    put_string_member(b"user", command.user, out)?;
    put_verb(command.verb, out)?;
    put_string_member(b"path", command.path, out)?;
    put_number_member(b"octets", command.octets, out)
}

/// Appends how it ended.
fn put_ending(command: &CommandFacts<'_>, out: &mut Vec<u8, Global>) -> Result<(), AllocError>
    ensures { OnOk result (out.new.items ≡ out.old.items ++ ending_json command.now) }
{
    put_code(command.code, out)?;
    put_reset(command.fate, out)?;
    put_reason(command.reason, out)?;
    out.extend_from_slice(b"}")
}

fn put_verb(verb: &[u8], out: &mut Vec<u8, Global>) -> Result<(), AllocError>
    ensures { OnOk result (out.new.items ≡ out.old.items ++ member (codes "verb") (verb_json verb.now)) }
{
    if verb.is_empty() {
        put_member(b"verb", b"null", out)
    } else {
        put_string_member(b"verb", verb, out)
    }
}

fn put_code(code: Option<u16>, out: &mut Vec<u8, Global>) -> Result<(), AllocError>
    ensures { OnOk result (out.new.items ≡ out.old.items ++ member (codes "code") (code_json code)) }
{
    match code {
        Some(code) => put_number_member(b"code", u64::from(code), out),
        None => put_member(b"code", b"null", out),
    }
}

fn put_reset(fate: DataClose, out: &mut Vec<u8, Global>) -> Result<(), AllocError>
    ensures { OnOk result (out.new.items ≡ out.old.items ++ member (codes "reset") (reset_json fate)) }
{
    match fate {
        DataClose::Reset => put_member(b"reset", b"true", out),
        DataClose::Ended => put_member(b"reset", b"false", out),
    }
}

fn put_reason(reason: &[u8], out: &mut Vec<u8, Global>) -> Result<(), AllocError>
    ensures { OnOk result (out.new.items ≡ out.old.items ++ reason_member reason.now) }
{
    if reason.is_empty() {
        return Ok(());
    }
    put_string_member(b"reason", reason, out)
}

/// Appends a member behind others, with its value as it is written.
fn put_member(name: &[u8], value: &[u8], out: &mut Vec<u8, Global>) -> Result<(), AllocError>
    ensures { OnOk result (out.new.items ≡ out.old.items ++ member name.now value.now) }
{
    out.extend_from_slice(b",\"")?;
    out.extend_from_slice(name)?;
    out.extend_from_slice(b"\":")?;
    out.extend_from_slice(value)
}

fn put_number_member(name: &[u8], value: u64, out: &mut Vec<u8, Global>) -> Result<(), AllocError>
    ensures { OnOk result (out.new.items ≡ out.old.items ++ member name.now (decimal value)) }
{
    put_member(name, Buffer::new().format(value).as_bytes(), out)
}

fn put_string_member(name: &[u8], text: &[u8], out: &mut Vec<u8, Global>) -> Result<(), AllocError>
    ensures { OnOk result (out.new.items ≡ out.old.items ++ member name.now (string text.now)) }
{
    out.extend_from_slice(b",\"")?;
    out.extend_from_slice(name)?;
    out.extend_from_slice(b"\":")?;
    put_string(text, out)
}

/// Appends a text as a string.
fn put_string(text: &[u8], out: &mut Vec<u8, Global>) -> Result<(), AllocError>
    ensures { OnOk result (out.new.items ≡ out.old.items ++ string text.now) }
{
    out.extend_from_slice(b"\"")?;
    put_text(text, out)?;
    out.extend_from_slice(b"\"")
}

/// Appends the characters of a text.
fn put_text(text: &[u8], out: &mut Vec<u8, Global>) -> Result<(), AllocError>
    // Witness: an equation, where memory is not refused; `edits/a_quotation_mark_ends_a_string`.
    ensures { OnOk result (out.new.items ≡ out.old.items ++ text_json text.now) }
{
    for character in text.chars() {
        put_char(character, out)?;
    }
    Ok(())
}

fn put_char(character: char, out: &mut Vec<u8, Global>) -> Result<(), AllocError>
    ensures { OnOk result (out.new.items ≡ out.old.items ++ char_json character) }
{
    let code = u32::from(character);
    if code == 34 || code == 92 {
        out.extend_from_slice(&[b'\\', code as u8])
    } else if 32 <= code && code < 127 {
        out.extend_from_slice(&[code as u8])
    } else if code < 0x1_0000 {
        put_escape(code, out)
    } else {
        put_pair(code, out)
    }
}

/// Appends a character past U+FFFF as two escapes.
fn put_pair(code: u32, out: &mut Vec<u8, Global>) -> Result<(), AllocError>
    requires past { 65_536 ≤ code }
    requires within { code ≤ 1_114_111 }
    ensures { OnOk result (out.new.items ≡ out.old.items ++ pair_json code) }
{
    put_escape(high_surrogate(code), out)?;
    put_escape(low_surrogate(code), out)
}

fn put_escape(unit: u32, out: &mut Vec<u8, Global>) -> Result<(), AllocError>
    requires { unit ≤ 65_535 }
    ensures { OnOk result (out.new.items ≡ out.old.items ++ escape unit) }
{
    out.extend_from_slice(&escape(unit))
}

/// The first surrogate of a character past U+FFFF.
fn high_surrogate(code: u32) -> u32
    requires past { 65_536 ≤ code }
    requires within { code ≤ 1_114_111 }
    ensures is { result ≡ high_surrogate code }
    ensures within { result ≤ 65_535 }
{
    0xD800 + (code - 0x1_0000) / 1024
}

/// The second one.
fn low_surrogate(code: u32) -> u32
    requires past { 65_536 ≤ code }
    ensures is { result ≡ low_surrogate code }
    ensures within { result ≤ 65_535 }
{
    0xDC00 + (code - 0x1_0000) % 1024
}

/// `\u` and the four hexadecimal digits of a number.
fn escape(unit: u32) -> [u8; 6]
    requires { unit ≤ 65_535 }
    // Witness: an equation; `edits/an_escape_repeats_its_last_digit`.
    ensures { result ≡ escape unit }
{
    [
        b'\\',
        b'u',
        digit((unit / 4_096) as u8),
        digit((unit / 256 % 16) as u8),
        digit((unit / 16 % 16) as u8),
        digit((unit % 16) as u8),
    ]
}

/// A hexadecimal digit.
fn digit(value: u8) -> u8
    requires { value ≤ 15 }
    ensures { result ≡ digit value }
{
    if value < 10 { 48 + value } else { 87 + value }
}
