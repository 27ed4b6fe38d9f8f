// A listing, as it goes to standard output: all of it, or what is of a pattern.
ghost use Rattle.std.specs.Prelude.{◌≡◌, ◌++◌, IfOk, OnOk, flat_map, map};
ghost use Rattle.std.specs.List.{list_any};
ghost use Rattle.ftp_facts.specs.Entry.{listed_of};
ghost use Rattle.ftp_facts.specs.Listing.{lines_of};
ghost use Rattle.tool_get_put.specs.Choosing.{chosen_line, entries_by, is_entry_of, is_line_of};

use ftp_facts::{Entry, Text};
use ftp_operation::{Answer, ListVerb};
use std::alloc::{AllocError, Global};
use tool_listing::{
    TextListing, is_chosen_name, is_name, matches, put_entries, put_json_entries, put_json_lines,
    put_json_names, put_lines, put_long, put_names, read_columns, read_entries, read_lines,
    strange_entries, strange_names,
};

/// What the lines of entries are.
#[derive(Clone, Copy)]
pub enum ListingFormat {
    /// Those of a machine listing.
    Facts,
    /// Kind, size, moment and name, in columns.
    Long,
    /// An object of JSON each, also of a name.
    Json,
}

/// The lines of a listing.
#[derive(Drop)]
pub(crate) struct ListingLines {
    pub(crate) lines: Vec<u8, Global>,
    /// How many of its names are left out.
    pub(crate) left_out: usize,
    /// How many of its lines are no entries: they are shown as they came, but not of a pattern.
    pub(crate) odd: usize,
}

/// The listing of the directory at a path that an answer has, if it has one; a text is of this command.
pub(crate) fn listing_of(
    alloc: Global,
    path: &str,
    shape: ListingFormat,
    verb: ListVerb,
    answer: &Answer<Global>,
) -> Result<Option<ListingLines>, AllocError> {
    match answer {
        Answer::Octets(text) => Ok(Some(text_listing(alloc, shape, verb, text.as_slice())?)),
        Answer::Entries(entries) => Ok(Some(entries_listing(alloc, shape, entries.as_slice())?)),
        Answer::Names(names) => Ok(Some(names_listing(alloc, path, shape, names.as_slice())?)),
        _ => Ok(None),
    }
}

/// What is of a pattern in the listing of the directory at a path, if an answer has one; a text is of this command.
pub(crate) fn pattern_listing_of(
    alloc: Global,
    path: &str,
    pattern: &[u8],
    shape: ListingFormat,
    verb: ListVerb,
    answer: &Answer<Global>,
) -> Result<Option<ListingLines>, AllocError> {
    match answer {
        Answer::Octets(text) => {
            let chosen = chosen_text(alloc, verb, pattern, text.as_slice())?;
            let mut listing = text_listing(alloc, shape, verb, chosen.as_slice())?;
            listing.odd = text_read(alloc, verb, text.as_slice())?.odd.len();
            Ok(Some(listing))
        }
        Answer::Names(names) => {
            let chosen = chosen_names(alloc, path, pattern, names.as_slice())?;
            Ok(Some(names_listing(alloc, path, shape, chosen.as_slice())?))
        }
        _ => Ok(None),
    }
}

/// The lines of a listing that say an entry of a pattern, each with LF at its end.
fn chosen_text(
    alloc: Global,
    verb: ListVerb,
    pattern: &[u8],
    text: &[u8],
) -> Result<Vec<u8, Global>, AllocError>
    // Witness: an equation, where memory is not refused; `edits/lines_that_are_not_of_the_pattern_are_shown`.
    ensures { IfOk result (λ chosen. chosen.items ≡ flat_map (chosen_line verb pattern.now) (lines_of text.now)) }
{
    let lines = read_lines(alloc, text)?;
    let mut chosen = Vec::new(alloc);
    put_all_chosen(alloc, verb, pattern, lines.as_slice(), &mut chosen)?;
    Ok(chosen)
}

fn put_all_chosen(
    alloc: Global,
    verb: ListVerb,
    pattern: &[u8],
    lines: &[Text<Global>],
    chosen: &mut Vec<u8, Global>,
) -> Result<(), AllocError>
    ensures { OnOk result (chosen.new.items ≡ chosen.old.items ++ flat_map (chosen_line verb pattern.now) lines.now) }
{
    for line in lines {
        put_chosen(alloc, verb, pattern, line.as_slice(), chosen)?;
    }
    Ok(())
}

fn put_chosen(
    alloc: Global,
    verb: ListVerb,
    pattern: &[u8],
    line: &[u8],
    chosen: &mut Vec<u8, Global>,
) -> Result<(), AllocError>
    ensures { OnOk result (chosen.new.items ≡ chosen.old.items ++ chosen_line verb pattern.now line.now) }
{
    if !is_line_of(alloc, verb, pattern, line)? {
        return Ok(());
    }
    chosen.extend_from_slice(line)?;
    chosen.extend_from_slice(b"\n")
}

/// Whether a line says an entry whose name is of a pattern.
#[tactic(auto, using(crate::proofs::ChoosingLemmas::any_listed))]
fn is_line_of(
    alloc: Global,
    verb: ListVerb,
    pattern: &[u8],
    line: &[u8],
) -> Result<bool, AllocError>
    ensures { IfOk result (λ is_of. is_of ≡ is_line_of verb pattern.now line.now) }
{
    let read = text_read(alloc, verb, line)?;
    Ok(is_any_of(pattern, read.entries.as_slice()))
}

fn is_any_of(pattern: &[u8], entries: &[Entry<Global>]) -> bool
    ensures { result ≡ list_any (is_entry_of pattern.now) entries.now }
{
    entries.iter().any(|entry| is_entry_of(pattern, entry))
}

/// Whether an entry has the name of a single file or directory, and that is of a pattern.
fn is_entry_of(pattern: &[u8], entry: &Entry<Global>) -> bool
    ensures { result ≡ is_entry_of pattern.now entry.now }
{
    let name = entry.name.as_slice();
    is_name(name) && matches(pattern, name)
}

/// The entries that a text says, as MLSD writes them, or as LIST in columns.
fn text_read(alloc: Global, verb: ListVerb, text: &[u8]) -> Result<TextListing, AllocError>
    ensures { IfOk result (λ listing. map listed_of listing.entries.items ≡ entries_by verb (lines_of text.now)) }
{
    match verb {
        ListVerb::Mlsd => read_entries(alloc, text),
        ListVerb::List | ListVerb::Nlst => read_columns(alloc, text),
    }
}

/// The names of a listing of names that are of a pattern.
fn chosen_names(
    alloc: Global,
    path: &str,
    pattern: &[u8],
    names: &[Text<Global>],
) -> Result<Vec<Text<Global>, Global>, AllocError> {
    let mut chosen = Vec::new(alloc);
    for name in names {
        if is_chosen_name(pattern, path.as_bytes(), name.as_slice()) {
            chosen.push(Text::copy_of(alloc, name.as_slice())?)?;
        }
    }
    Ok(chosen)
}

/// The listing of a text: its entries, and then the lines that are none. Of LIST without columns, and of NLST, the lines as they came.
fn text_listing(
    alloc: Global,
    shape: ListingFormat,
    verb: ListVerb,
    text: &[u8],
) -> Result<ListingLines, AllocError> {
    match (verb, shape) {
        (ListVerb::Mlsd, _) => text_entries(alloc, shape, &read_entries(alloc, text)?),
        (ListVerb::List, ListingFormat::Long | ListingFormat::Json) => {
            text_entries(alloc, shape, &read_columns(alloc, text)?)
        }
        (ListVerb::List | ListVerb::Nlst, _) => {
            let came = read_lines(alloc, text)?;
            let mut lines = Vec::new(alloc);
            put_as_came(alloc, shape, came.as_slice(), &mut lines)?;
            Ok(ListingLines {
                lines,
                left_out: 0,
                odd: 0,
            })
        }
    }
}

/// The listing of a text that was read.
fn text_entries(
    alloc: Global,
    shape: ListingFormat,
    read: &TextListing,
) -> Result<ListingLines, AllocError> {
    let mut listing = entries_listing(alloc, shape, read.entries.as_slice())?;
    put_as_came(alloc, shape, read.odd.as_slice(), &mut listing.lines)?;
    listing.odd = read.odd.len();
    Ok(listing)
}

/// Appends lines as they came, as a terminal is to show them.
fn put_as_came(
    alloc: Global,
    shape: ListingFormat,
    came: &[Text<Global>],
    lines: &mut Vec<u8, Global>,
) -> Result<(), AllocError> {
    match shape {
        ListingFormat::Json => put_json_lines(alloc, came, lines),
        ListingFormat::Facts | ListingFormat::Long => put_lines(came, lines),
    }
}

fn entries_listing(
    alloc: Global,
    shape: ListingFormat,
    entries: &[Entry<Global>],
) -> Result<ListingLines, AllocError> {
    let mut lines = Vec::new(alloc);
    match shape {
        ListingFormat::Facts => put_entries(alloc, entries, &mut lines)?,
        ListingFormat::Long => put_long(entries, &mut lines)?,
        ListingFormat::Json => put_json_entries(entries, &mut lines)?,
    }
    Ok(ListingLines {
        lines,
        left_out: strange_entries(entries),
        odd: 0,
    })
}

fn names_listing(
    alloc: Global,
    path: &str,
    shape: ListingFormat,
    names: &[Text<Global>],
) -> Result<ListingLines, AllocError> {
    let mut lines = Vec::new(alloc);
    match shape {
        ListingFormat::Json => put_json_names(path.as_bytes(), names, &mut lines)?,
        ListingFormat::Facts | ListingFormat::Long => put_names(
            path.as_bytes(),
            names,
            &mut lines,
        )?,
    }
    Ok(ListingLines {
        lines,
        left_out: strange_names(path.as_bytes(), names),
        odd: 0,
    })
}
