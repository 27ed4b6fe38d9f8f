// A listing as text, read line by line (RFC 3659, section 7).
ghost use Rattle.std.specs.Prelude.{◌≡◌, ◌==◌, ◌∷◌, ◌++◌, ◌<◌, ◌≤◌, [], IfOk, OnOk, length, map, option_map};
ghost use Rattle.std.specs.List.{list_all, position_or_len};
ghost use Rattle.ftp_facts.specs.Entry.{listed_of};
ghost use Rattle.ftp_facts.specs.Listed.{entry_value};
ghost use Rattle.ftp_facts.specs.Listing.{is_entry_shown, line_feed, lines_of};
ghost use Rattle.tool_listing.specs.entries.Text.{entries_of, is_aside, lines_without_entry};

use ftp_facts::{Entry, EntryKind, FactFault, Text, read_entry};
use std::alloc::{AllocError, Global};

/// What a listing of MLSD says.
#[derive(Drop)]
pub struct TextListing {
    /// The entries, but those of the directory itself and of its parent.
    pub entries: Vec<Entry<Global>, Global>,
    /// The lines that are no entries, as they came.
    pub odd: Vec<Text<Global>, Global>,
}

/// Reads a listing of MLSD: a line that is no entry takes no other with it.
pub fn read_entries(alloc: Global, text: &[u8]) -> Result<TextListing, AllocError>
    // Witness: an equation, where memory is not refused.
    ensures entries { IfOk result (λ listing. map listed_of listing.entries.items ≡ entries_of (lines_of text.now)) }
    ensures odd { IfOk result (λ listing. listing.odd.items ≡ lines_without_entry (lines_of text.now)) }
{
    let mut entries = Vec::new(alloc);
    let mut odd = Vec::new(alloc);
    let mut rest = text;
    while !rest.is_empty() {
        let (line, behind) = cut_line(rest);
        put_line(alloc, line, &mut entries, &mut odd)?;
        rest = behind;
    }
    Ok(TextListing { entries, odd })
}

/// Keeps what a line says: an entry that is shown, or the line where it is none.
fn put_line(
    alloc: Global,
    line: &[u8],
    entries: &mut Vec<Entry<Global>, Global>,
    odd: &mut Vec<Text<Global>, Global>,
) -> Result<(), AllocError>
    ensures entries { OnOk result (map listed_of entries.new.items ≡ map listed_of entries.old.items ++ entries_of (line.now ∷ [])) }
    ensures odd { OnOk result (odd.new.items ≡ odd.old.items ++ lines_without_entry (line.now ∷ [])) }
{
    let Some(entry) = entry_in(alloc, line)? else {
        odd.push(Text::copy_of(alloc, line)?)?;
        return Ok(());
    };
    if !is_shown(&entry) {
        return Ok(());
    }
    entries.push(entry)?;
    Ok(())
}

/// The entry that a line says, if it says one (RFC 3659, section 7.2).
#[tactic(auto, using(crate::proofs::entries::TextLemmas::says_none))]
pub(crate) fn entry_in(alloc: Global, line: &[u8]) -> Result<Option<Entry<Global>>, AllocError>
    ensures { IfOk result (λ entry. option_map listed_of entry ≡ entry_value line.now) }
{
    match read_entry(alloc, line) {
        Ok(entry) => Ok(Some(entry)),
        Err(FactFault::Memory) => Err(AllocError),
        Err(FactFault::NoSpace) => Ok(None),
        Err(FactFault::BadFact) => Ok(None),
        Err(FactFault::BadMoment) => Ok(None),
        Err(FactFault::BadName) => Ok(None),
    }
}

/// Whether a listing of MLSD has no line but those of the directory itself, of its parent and of other types than file and directory.
pub fn lists_nothing(alloc: Global, text: &[u8]) -> Result<bool, AllocError>
    // Witness: an equation, where memory is not refused.
    ensures { IfOk result (λ is_nothing. is_nothing ≡ list_all is_aside (lines_of text.now)) }
{
    let mut rest = text;
    while !rest.is_empty() {
        let (line, behind) = cut_line(rest);
        if !is_aside(alloc, line)? {
            return Ok(false);
        }
        rest = behind;
    }
    Ok(true)
}

/// Whether a line says an entry that is left out.
fn is_aside(alloc: Global, line: &[u8]) -> Result<bool, AllocError>
    ensures { IfOk result (λ aside. aside ≡ is_aside line.now) }
{
    match entry_in(alloc, line)? {
        Some(entry) => Ok(!is_shown(&entry)),
        None => Ok(false),
    }
}

/// The lines of a listing, as they came.
pub fn read_lines(alloc: Global, text: &[u8]) -> Result<Vec<Text<Global>, Global>, AllocError>
    // Witness: an equation, where memory is not refused.
    ensures { IfOk result (λ lines. lines.items ≡ lines_of text.now) }
{
    let mut lines = Vec::new(alloc);
    let mut rest = text;
    while !rest.is_empty() {
        let (line, behind) = cut_line(rest);
        lines.push(Text::copy_of(alloc, line)?)?;
        rest = behind;
    }
    Ok(lines)
}

/// Whether an entry is neither of the directory itself nor of its parent, nor of another type than file and directory.
pub(crate) fn is_shown(entry: &Entry<Global>) -> bool
    ensures { result ≡ is_entry_shown (listed_of entry.now) }
{
    match &entry.kind {
        None | Some(EntryKind::File) | Some(EntryKind::Dir) => true,
        Some(EntryKind::CurrentDir) | Some(EntryKind::ParentDir) | Some(EntryKind::Other(_)) =>
            false,
    }
}

/// The first line, and what stands behind the LF that ends it.
pub(crate) fn cut_line(octets: &[u8]) -> (&[u8], &[u8])
    requires { 0 < length octets.now }
    ensures lines { lines_of octets.now ≡ result.0.now ∷ lines_of result.1.now }
    ensures less { length result.1.now < length octets.now }
{
    let (line, rest) = octets.split_at(line_end(octets));
    match rest {
        [] => (line, rest),
        [_, behind @ ..] => (line, behind),
    }
}

/// Where the first LF stands, or the length.
fn line_end(octets: &[u8]) -> usize
    ensures place { result ≡ position_or_len (λ octet. octet == line_feed) octets.now }
    ensures within { result ≤ length octets.now }
{
    octets
        .iter()
        .position(|octet| *octet == b'\n')
        .unwrap_or(octets.len())
}
