//! Lines and the replies that they are (RFC 959, section 4.2), and the limits.
use crate::report::{fill, put_printed, put_quoted};
use crate::row::octets_in;
use ftp_reply::{Reader, Reply, ReplyFault};
use rows_base::{Paper, number, quoted, split};
use std::alloc::{Allocator, Global};

/// What is put behind all answers where memory was wanted once.
pub(crate) const WANTED: &[u8] = b"; and memory was wanted";

/// Puts what one reader answers to each of these quoted lines, and how often memory was wanted.
pub(crate) fn put<A: Allocator + Copy>(heap: A, alloc: Global, lines: &[u8], said: &mut Paper) {
    let mut reader = Reader::new(heap);
    for _ in 0..hear_each(alloc, &mut reader, lines, said) {
        said.put(WANTED);
    }
}

/// Puts what a reader answers to each of these lines, and gives how often memory was wanted.
fn hear_each<A: Allocator + Copy>(
    alloc: Global,
    reader: &mut Reader<A>,
    lines: &[u8],
    said: &mut Paper,
) -> u64 {
    let mut wanted = 0u64;
    let mut rest = lines;
    for _ in 0..lines.len() {
        if rest.is_empty() {
            break;
        }
        if rest.len() < lines.len() {
            said.put(b"; ");
        }
        let (line, behind) = quoted(rest);
        wanted = wanted.wrapping_add(hear_line(alloc, reader, line, said));
        rest = behind;
    }
    wanted
}

/// Hears a line, once more where memory is wanted, and gives how often it was.
fn hear_line<A: Allocator + Copy>(
    alloc: Global,
    reader: &mut Reader<A>,
    line: &[u8],
    said: &mut Paper,
) -> u64 {
    let octets = octets_in(alloc, line);
    for wanted in 0..2u64 {
        if put_heard(alloc, &reader.line(octets.text()), said) {
            return wanted;
        }
    }
    2
}

/// Puts what a reader answers, unless memory is wanted. Says whether it is put.
fn put_heard<A: Allocator + Copy>(
    alloc: Global,
    heard: &Result<Option<Reply<A>>, ReplyFault>,
    said: &mut Paper,
) -> bool {
    match heard {
        Ok(Some(reply)) => put_reply(reply, said),
        Ok(None) => said.put(b"more"),
        Err(ReplyFault::Memory) => return false,
        Err(fault) => put_printed(alloc, fault, said),
    }
    true
}

fn put_reply<A: Allocator + Copy>(reply: &Reply<A>, said: &mut Paper) {
    said.number(u64::from(reply.code));
    for at in 0..reply.lines.len() {
        if let Some(text) = reply.lines.get(at) {
            said.put(b" ");
            put_quoted(text, said);
        }
    }
}

/// Whether a reply ends with the line.
fn hears(reader: &mut Reader<Global>, line: &[u8]) -> Result<bool, ReplyFault> {
    match reader.line(line) {
        Ok(reply) => Ok(reply.is_some()),
        Err(fault) => Err(fault),
    }
}

/// What the reader answers to a line of the mark and so many octets: whether a reply ends with it.
fn hears_long(
    reader: &mut Reader<Global>,
    alloc: Global,
    mark: &[u8],
    octets: u64,
) -> Result<bool, ReplyFault> {
    let mut line = Paper::new(alloc);
    line.put(mark);
    fill(&mut line, b'x', octets as usize);
    hears(reader, line.text())
}

/// What the reader answers to the last of so many lines, those between the first and the last empty, or its first fault. A row has how
/// many lines they are, the octets of the first text and those of the last.
fn hears_all(reader: &mut Reader<Global>, alloc: Global, row: &[u8]) -> Result<bool, ReplyFault> {
    let (lines, octets) = split(row);
    let (first, last) = split(octets);
    hears_long(reader, alloc, b"211-", number(first))?;
    for _ in 2..number(lines) {
        hears(reader, b"")?;
    }
    hears_long(reader, alloc, b"211 ", number(last))
}

/// Writes whether a reply of such lines ends, or its fault, and what the reader answers to a reply behind it.
pub(crate) fn show_limit(alloc: Global, row: &[u8], paper: &mut Paper) {
    let mut reader = Reader::new(alloc);
    put_whether(alloc, hears_all(&mut reader, alloc, row), paper);
    paper.put(b"; ");
    put_whether(alloc, hears(&mut reader, b"200 Ok"), paper);
}

fn put_whether(alloc: Global, heard: Result<bool, ReplyFault>, paper: &mut Paper) {
    match heard {
        Ok(true) => paper.put(b"a reply"),
        Ok(false) => paper.put(b"more"),
        Err(fault) => put_printed(alloc, &fault, paper),
    }
}

/// Whether a line behind that of a reply is joined to it by LF.
fn is_joined(reply: &mut Reply<Global>) -> bool {
    reply.lines.has_room(b"End")
        && reply.push(b"End").is_ok()
        && reply.text() == b"Listing\nEnd".as_slice()
}

/// Tries a reply that is made line by line.
pub(crate) fn tried(alloc: Global, report: &mut Paper) {
    let is_so = match Reply::new(alloc, 250, b"Listing") {
        Ok(mut reply) => is_joined(&mut reply),
        Err(_) => false,
    };
    report.holds("a reply by its parts", is_so);
}
