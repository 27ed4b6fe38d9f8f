//! The values of replies, and how replies are written.
use crate::endpoints::put_endpoint;
use crate::growing::put_behind;
use crate::report::{put_printed, put_quoted};
use crate::row::{LineRow, octets_in};
use ftp_reply::{
    Lines, Reader, Reply, ReplyFault, extended_of, mark_of, moment_of, passive_of, quoted_of,
    size_of, write,
};
use rows_base::{Paper, number, quoted, split};
use std::alloc::{Allocator, Global};

/// What is asked of a reply.
#[derive(Clone, Copy)]
pub(crate) enum Asked {
    Endpoint,
    Port,
    Size,
    /// The seconds of a moment.
    Moment,
    Mark,
    Path,
    /// Its octets.
    Written,
}

/// The reply that a quoted line ends, or one of a code and quoted lines.
fn reply_in(alloc: Global, row: &LineRow<'_>) -> Option<Reply<Global>> {
    match row.text {
        [b'"', ..] => reply_of(alloc, row.octets),
        text => reply_with(alloc, text),
    }
}

fn reply_of(alloc: Global, line: &[u8]) -> Option<Reply<Global>> {
    match Reader::new(alloc).line(line) {
        Ok(reply) => reply,
        Err(_) => None,
    }
}

fn reply_with(alloc: Global, text: &[u8]) -> Option<Reply<Global>> {
    let (code, texts) = split(text);
    let Ok(code @ 100..=599) = u16::try_from(number(code)) else {
        return None;
    };
    let lines = lines_of(alloc, texts);
    if lines.len() == 0 {
        return None;
    }
    Some(Reply { code, lines })
}

/// The quoted lines of a text.
fn lines_of(alloc: Global, texts: &[u8]) -> Lines<Global> {
    let mut lines = Lines::new(alloc);
    let mut rest = texts;
    for _ in 0..texts.len() {
        if rest.is_empty() {
            break;
        }
        let (text, behind) = quoted(rest);
        add_line(octets_in(alloc, text).text(), &mut lines);
        rest = behind;
    }
    lines
}

/// Puts a line where it has room.
fn add_line(line: &[u8], lines: &mut Lines<Global>) {
    if lines.has_room(line) {
        let _pushed = lines.push(line);
    }
}

/// Puts the value that a reply says, or why it says none.
pub(crate) fn put<A: Allocator + Copy>(
    heap: A,
    alloc: Global,
    asked: Asked,
    row: &LineRow<'_>,
    paper: &mut Paper,
) {
    match &reply_in(alloc, row) {
        Some(reply) => put_asked(heap, alloc, asked, reply, paper),
        None => paper.put(b"no reply"),
    }
}

fn put_asked<A: Allocator + Copy>(
    heap: A,
    alloc: Global,
    asked: Asked,
    reply: &Reply<Global>,
    paper: &mut Paper,
) {
    let put = match asked {
        Asked::Endpoint => put_passive(reply, paper),
        Asked::Path => put_path(heap, reply, paper),
        Asked::Written => put_written(heap, reply, paper),
        _ => put_number(asked, reply, paper),
    };
    if let Err(fault) = put {
        put_printed(alloc, &fault, paper);
    }
}

fn put_passive(reply: &Reply<Global>, paper: &mut Paper) -> Result<(), ReplyFault> {
    put_endpoint(passive_of(reply)?, paper);
    Ok(())
}

fn put_path<A: Allocator + Copy>(
    heap: A,
    reply: &Reply<Global>,
    paper: &mut Paper,
) -> Result<(), ReplyFault> {
    let path = quoted_of(heap, reply)?;
    put_quoted(path.as_slice(), paper);
    Ok(())
}

fn put_written<A: Allocator + Copy>(
    heap: A,
    reply: &Reply<Global>,
    paper: &mut Paper,
) -> Result<(), ReplyFault> {
    let mut out = Vec::new(heap);
    let goes = write(reply, &mut out).is_ok();
    put_behind(b"", out.as_slice(), goes, paper);
    Ok(())
}

fn put_number(asked: Asked, reply: &Reply<Global>, paper: &mut Paper) -> Result<(), ReplyFault> {
    paper.number(match asked {
        Asked::Port => u64::from(extended_of(reply)?),
        Asked::Moment => moment_of(reply)?.seconds,
        Asked::Mark => mark_of(reply)?,
        _ => size_of(reply)?,
    });
    Ok(())
}
