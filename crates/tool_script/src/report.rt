// What is reported of an answer.
ghost use Rattle.std.specs.Prelude.{◌≡◌, ◌++◌, ◌∷◌, [], decimal, codes, flat_map, length, IfOk, OnOk};
ghost use Rattle.ftp_facts.specs.Entry.{entry_line};
ghost use Rattle.ftp_facts.specs.Moment.{moment_digits};
ghost use Rattle.tool_script.specs.Field.{field_text};
ghost use Rattle.tool_script.specs.Report.{feed, line_in_list, mark_text, name_line, report, said_line};

use crate::field::put_field;
use ftp_facts::{Entry, Moment, Text, moment_text, write_entry};
use ftp_operation::Answer;
use itoa::Buffer;
use std::alloc::{AllocError, Allocator};

/// The report of an answer: a line, and for a list one more for each of its entries or names.
pub fn report_of<A: Allocator + Copy, B: Allocator + Copy>(
    alloc: B,
    answer: &Answer<A>,
) -> Result<Vec<u8, B>, AllocError>
    ensures { IfOk result (λ text. text.items ≡ report answer.now) }
{
    let mut out = Vec::new(alloc);
    put_report(answer, &mut out)?;
    Ok(out)
}

fn put_report<A: Allocator + Copy, B: Allocator + Copy>(
    answer: &Answer<A>,
    out: &mut Vec<u8, B>,
) -> Result<(), AllocError>
    ensures { OnOk result (out.new.items ≡ out.old.items ++ report answer.now) }
{
    match answer {
        Answer::Done => put_line(b"done", b"", out),
        Answer::Path(text) => put_text(b"path ", text.as_slice(), out),
        Answer::Octets(octets) => put_text(b"octets ", octets.as_slice(), out),
        Answer::Number(number) => put_number(b"number ", *number, out),
        Answer::Stamp(moment) => put_moment(*moment, out),
        Answer::Entry(entry) => put_entry(b"entry ", entry, out),
        Answer::Entries(entries) => put_entries(entries.as_slice(), out),
        Answer::Names(names) => put_names(names.as_slice(), out),
        Answer::Refused(code) => put_number(b"refused ", u64::from(*code), out),
        Answer::BadOperation => put_line(b"bad", b"", out),
        Answer::Broken { got, mark } => put_broken(got.as_slice(), *mark, out),
        Answer::Unopened => put_line(b"unopened", b"", out),
        Answer::Foreign => put_line(b"foreign", b"", out),
        Answer::Lost => put_line(b"lost", b"", out),
        Answer::Strange => put_line(b"strange", b"", out),
        Answer::Memory => put_line(b"memory", b"", out),
    }
}

/// Appends a line: a word, and what stands behind it.
fn put_line<B: Allocator + Copy>(
    word: &[u8],
    text: &[u8],
    out: &mut Vec<u8, B>,
) -> Result<(), AllocError>
    ensures { OnOk result (out.new.items ≡ out.old.items ++ said_line word.now text.now) }
{
    out.extend_from_slice(word)?;
    out.extend_from_slice(text)?;
    out.extend_from_slice(b"\n")
}

fn put_text<B: Allocator + Copy>(
    word: &[u8],
    octets: &[u8],
    out: &mut Vec<u8, B>,
) -> Result<(), AllocError>
    ensures { OnOk result (out.new.items ≡ out.old.items ++ said_line word.now (field_text octets.now)) }
{
    out.extend_from_slice(word)?;
    put_field(octets, out)?;
    out.extend_from_slice(b"\n")
}

fn put_number<B: Allocator + Copy>(
    word: &[u8],
    number: u64,
    out: &mut Vec<u8, B>,
) -> Result<(), AllocError>
    ensures { OnOk result (out.new.items ≡ out.old.items ++ said_line word.now (decimal number)) }
{
    put_line(word, Buffer::new().format(number).as_bytes(), out)
}

fn put_moment<B: Allocator + Copy>(moment: Moment, out: &mut Vec<u8, B>) -> Result<(), AllocError>
    ensures { OnOk result (out.new.items ≡ out.old.items ++ said_line (codes "moment ") (moment_digits moment.seconds)) }
{
    put_line(b"moment ", &moment_text(moment), out)
}

fn put_entry<A: Allocator + Copy, B: Allocator + Copy>(
    word: &[u8],
    entry: &Entry<A>,
    out: &mut Vec<u8, B>,
) -> Result<(), AllocError>
    ensures { OnOk result (out.new.items ≡ out.old.items ++ said_line word.now (entry_line entry.now)) }
{
    out.extend_from_slice(word)?;
    if write_entry(entry, out).is_err() {
        return Err(AllocError);
    }
    out.extend_from_slice(b"\n")
}

fn put_entries<A: Allocator + Copy, B: Allocator + Copy>(
    entries: &[Entry<A>],
    out: &mut Vec<u8, B>,
) -> Result<(), AllocError>
    ensures { OnOk result (out.new.items ≡ out.old.items
        ++ (said_line (codes "entries ") (decimal (length entries.now)) ++ flat_map line_in_list entries.now)) }
{
    put_number(b"entries ", entries.len() as u64, out)?;
    put_each_entry(entries, out)
}

fn put_each_entry<A: Allocator + Copy, B: Allocator + Copy>(
    entries: &[Entry<A>],
    out: &mut Vec<u8, B>,
) -> Result<(), AllocError>
    ensures { OnOk result (out.new.items ≡ out.old.items ++ flat_map line_in_list entries.now) }
{
    for entry in entries {
        put_entry(b"  ", entry, out)?;
    }
    Ok(())
}

fn put_names<A: Allocator + Copy, B: Allocator + Copy>(
    names: &[Text<A>],
    out: &mut Vec<u8, B>,
) -> Result<(), AllocError>
    ensures { OnOk result (out.new.items ≡ out.old.items
        ++ (said_line (codes "names ") (decimal (length names.now)) ++ flat_map name_line names.now)) }
{
    put_number(b"names ", names.len() as u64, out)?;
    put_each_name(names, out)
}

fn put_each_name<A: Allocator + Copy, B: Allocator + Copy>(
    names: &[Text<A>],
    out: &mut Vec<u8, B>,
) -> Result<(), AllocError>
    ensures { OnOk result (out.new.items ≡ out.old.items ++ flat_map name_line names.now) }
{
    for name in names {
        put_line(b"  ", name.as_slice(), out)?;
    }
    Ok(())
}

fn put_broken<B: Allocator + Copy>(
    got: &[u8],
    mark: Option<u64>,
    out: &mut Vec<u8, B>,
) -> Result<(), AllocError>
    ensures { OnOk result (out.new.items ≡ out.old.items ++ said_line (codes "broken ") (field_text got.now ++ mark_text mark)) }
{
    out.extend_from_slice(b"broken ")?;
    put_field(got, out)?;
    put_mark(mark, out)?;
    out.extend_from_slice(b"\n")
}

/// Appends the last restart marker, where there was one.
fn put_mark<B: Allocator + Copy>(mark: Option<u64>, out: &mut Vec<u8, B>) -> Result<(), AllocError>
    ensures { OnOk result (out.new.items ≡ out.old.items ++ mark_text mark) }
{
    match mark {
        Some(mark) => put_marked(mark, out),
        None => Ok(()),
    }
}

fn put_marked<B: Allocator + Copy>(mark: u64, out: &mut Vec<u8, B>) -> Result<(), AllocError>
    ensures { OnOk result (out.new.items ≡ out.old.items ++ (codes " mark " ++ decimal mark)) }
{
    out.extend_from_slice(b" mark ")?;
    out.extend_from_slice(Buffer::new().format(mark).as_bytes())
}
