// Listings of a server for people.
ghost use Rattle.std.specs.Prelude.{◌≡◌, ◌++◌, OnOk, flat_map};
ghost use Rattle.std.specs.Prelude.{codes};
ghost use Rattle.ftp_facts.specs.Moment.{moment_digits};
ghost use Rattle.tool_listing.specs.entries.Long.{column, columns, dated, kind_letter, long_line, long_text, moment_column, size_text};

use crate::entries::is_name;
use crate::entries::lines::put_line;
use ftp_facts::{Entry, EntryKind, Moment, moment_text};
use itoa::Buffer;
use std::alloc::{AllocError, Global};

/// As wide as the column of a size, and as that of a moment.
const SIZE_BLANKS: &[u8] = b"               ";

const MOMENT_BLANKS: &[u8] = b"                   ";

/// What stands behind each of both.
const BETWEEN: &[u8] = b"  ";

/// Appends the lines of entries for people: kind, size, moment in UTC and name of each, as a terminal is to show them, with LF at its end. One whose
/// name is none of a single file is left out.
///
/// Refused memory, a part of them may stand there.
pub fn put_long(entries: &[Entry<Global>], out: &mut Vec<u8, Global>) -> Result<(), AllocError>
    // Witness: an equation, where memory is not refused.
    ensures { OnOk result (out.new.items ≡ out.old.items ++ flat_map long_text entries.now) }
{
    for entry in entries {
        put_entry(entry, out)?;
    }
    Ok(())
}

fn put_entry(entry: &Entry<Global>, out: &mut Vec<u8, Global>) -> Result<(), AllocError>
    ensures { OnOk result (out.new.items ≡ out.old.items ++ long_text entry.now) }
{
    if is_name(entry.name.as_slice()) {
        put_long_line(entry, out)
    } else {
        Ok(())
    }
}

fn put_long_line(entry: &Entry<Global>, out: &mut Vec<u8, Global>) -> Result<(), AllocError>
    ensures { OnOk result (out.new.items ≡ out.old.items ++ long_line entry.now) }
{
    put_columns(entry, out)?;
    put_line(entry.name.as_slice(), out)
}

/// Appends what stands before the name.
fn put_columns(entry: &Entry<Global>, out: &mut Vec<u8, Global>) -> Result<(), AllocError>
    ensures { OnOk result (out.new.items ≡ out.old.items ++ columns entry.now) }
{
    out.extend_from_slice(&[kind_letter(&entry.kind)])?;
    put_size(entry.size, out)?;
    out.extend_from_slice(BETWEEN)?;
    put_moment(entry.modify, out)?;
    out.extend_from_slice(BETWEEN)
}

/// The letter of a kind.
fn kind_letter(kind: &Option<EntryKind<Global>>) -> u8
    ensures { result ≡ kind_letter kind.now }
{
    match kind {
        Some(EntryKind::File) => b'-',
        Some(EntryKind::Dir | EntryKind::CurrentDir | EntryKind::ParentDir) => b'd',
        Some(EntryKind::Other(_)) | None => b'?',
    }
}

fn put_size(size: Option<u64>, out: &mut Vec<u8, Global>) -> Result<(), AllocError>
    ensures { OnOk result (out.new.items ≡ out.old.items ++ column (codes "               ") (size_text size)) }
{
    match size {
        Some(size) => put_column(SIZE_BLANKS, Buffer::new().format(size).as_bytes(), out),
        None => put_column(SIZE_BLANKS, b"-", out),
    }
}

fn put_moment(moment: Option<Moment>, out: &mut Vec<u8, Global>) -> Result<(), AllocError>
    ensures { OnOk result (out.new.items ≡ out.old.items ++ column (codes "                   ") (moment_column moment)) }
{
    match moment {
        Some(moment) => put_column(MOMENT_BLANKS, &dated(moment_text(moment)), out),
        None => put_column(MOMENT_BLANKS, b"-", out),
    }
}

/// Fourteen digits as a date and a time of day.
fn dated(digits: [u8; 14]) -> [u8; 19]
    ensures { result ≡ dated digits }
{
    let [a, b, c, d, e, f, g, h, i, j, k, l, m, n] = digits;
    [
        a, b, c, d, b'-', e, f, b'-', g, h, b' ', i, j, b':', k, l, b':', m, n,
    ]
}

/// Appends a text at the right end of a column that is as wide as these blanks.
fn put_column(blanks: &[u8], text: &[u8], out: &mut Vec<u8, Global>) -> Result<(), AllocError>
    ensures { OnOk result (out.new.items ≡ out.old.items ++ column blanks.now text.now) }
{
    let (_, left) = blanks.split_at(blanks.len().min(text.len()));
    out.extend_from_slice(left)?;
    out.extend_from_slice(text)
}
