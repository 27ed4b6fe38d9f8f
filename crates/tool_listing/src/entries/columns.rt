// A listing of LIST as text, in the columns of `ls -l`, read line by line (own choice; RFC 959, section 4.1.3, leaves the form open).
ghost use Rattle.std.specs.Prelude.{◌≡◌, ◌∷◌, ◌++◌, [], ℕ, IfOk, List, OnOk, Some, map, option_map};
ghost use Rattle.ftp_facts.specs.Entry.{listed_of, word_of_kind};
ghost use Rattle.ftp_facts.specs.Fact.{IsOtherWord};
ghost use Rattle.ftp_facts.specs.Listing.{lines_of};
ghost use Rattle.ftp_facts.specs.declared.entry.EntryKind.TheVariants.{Other};
ghost use Rattle.tool_listing.specs.entries.Columns.{column_value, entries_of_columns, is_dots, lines_without_column, size_told, type_told};
ghost use Rattle.tool_listing.specs.entries.Text.{is_total};

use crate::entries::text::{TextListing, cut_line};
use crate::entries::unix_entry::UnixKind;
use crate::entries::unix_line::read_unix_line;
use ftp_facts::{Entry, EntryKind, Text};
use ftp_path::is_path_text;
use std::alloc::{AllocError, Global};

/// Reads a listing of LIST in columns: a line that is no entry takes no other with it. Entries tell no moment: a line has a day at most, or a time without
/// its year.
pub fn read_columns(alloc: Global, text: &[u8]) -> Result<TextListing, AllocError>
    // Witness: an equation, where memory is not refused; `edits/a_directory_in_columns_has_a_size`.
    ensures entries { IfOk result (λ listing. map listed_of listing.entries.items ≡ entries_of_columns (lines_of text.now)) }
    ensures odd { IfOk result (λ listing. listing.odd.items ≡ lines_without_column (lines_of text.now)) }
{
    let mut entries = Vec::new(alloc);
    let mut odd = Vec::new(alloc);
    let mut rest = text;
    while !rest.is_empty() {
        let (line, behind) = cut_line(rest);
        put_line(alloc, line, &mut entries, &mut odd)?;
        rest = behind;
    }
    Ok(TextListing { entries, odd })
}

/// Keeps what a line says: an entry below the directory, or the line where it is none and counts no blocks.
fn put_line(
    alloc: Global,
    line: &[u8],
    entries: &mut Vec<Entry<Global>, Global>,
    odd: &mut Vec<Text<Global>, Global>,
) -> Result<(), AllocError>
    ensures entries { OnOk result (map listed_of entries.new.items ≡ map listed_of entries.old.items ++ entries_of_columns (line.now ∷ [])) }
    ensures odd { OnOk result (odd.new.items ≡ odd.old.items ++ lines_without_column (line.now ∷ [])) }
{
    let Some(entry) = entry_in(alloc, line)? else {
        if !is_total(line) {
            odd.push(Text::copy_of(alloc, line)?)?;
        }
        return Ok(());
    };
    if !is_dots(entry.name.as_slice()) {
        entries.push(entry)?;
    }
    Ok(())
}

/// The entry that a line says, if it says one.
fn entry_in(alloc: Global, line: &[u8]) -> Result<Option<Entry<Global>>, AllocError>
    ensures { IfOk result (λ entry. option_map listed_of entry ≡ column_value line.now) }
{
    let Some(told) = read_unix_line(line) else {
        return Ok(None);
    };
    if !is_path_text(told.name) {
        return Ok(None);
    }
    Ok(Some(Entry {
        name: Text::copy_of(alloc, told.name)?,
        kind: type_told(told.kind),
        size: size_told(told.kind, told.size),
        modify: None,
        perm: None,
    }))
}

/// The type of what stands there; a link, a pipe and a device have none.
fn type_told(kind: UnixKind) -> Option<EntryKind<Global>>
    ensures word { option_map word_of_kind result ≡ type_told kind }
    ensures fits { (word : List ℕ) → result ≡ Some (Other word) → IsOtherWord word }
{
    match kind {
        UnixKind::File => Some(EntryKind::File),
        UnixKind::Dir => Some(EntryKind::Dir),
        UnixKind::Link | UnixKind::Other => None,
    }
}

/// The octets of a file; what else stands there has none.
fn size_told(kind: UnixKind, size: u64) -> Option<u64>
    ensures { result ≡ size_told kind size }
{
    match kind {
        UnixKind::File => Some(size),
        UnixKind::Dir | UnixKind::Link | UnixKind::Other => None,
    }
}

/// Whether a line counts blocks, as `ls -l` begins.
pub(crate) fn is_total(line: &[u8]) -> bool
    ensures { result ≡ is_total line.now }
{
    line.starts_with(b"total ")
}

/// Whether a name is that of the directory itself, or of its parent.
pub(crate) fn is_dots(name: &[u8]) -> bool
    ensures { result ≡ is_dots name.now }
{
    name == b".".as_slice() || name == b"..".as_slice()
}
