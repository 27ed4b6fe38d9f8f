// The lines of a listing, and what they say (RFC 3659, section 7; RFC 959, section 4.1.3, NLST).
ghost use Rattle.std.specs.Prelude.{◌≡◌, ◌==◌, ◌<◌, ◌≤◌, ◌∷◌, IfOk, OnOk, length, map, option_map};
ghost use Rattle.std.specs.List.{position_or_len};
ghost use Rattle.ftp_facts.specs.Entry.{listed_of};
ghost use Rattle.ftp_facts.specs.Listing.{entries_value, is_entry_shown, line_feed, lines_of, names_value};
ghost use Rattle.ftp_client_transfer.specs.Listing.{kept};

use crate::content::copy_of;
use ftp_client_steps::entry_in;
use ftp_facts::{Entry, EntryKind, Text};
use ftp_path::is_listed_text;
use std::alloc::{AllocError, Allocator};

/// The entries of a machine listing, one a line; `None` where a line says none.
pub(crate) fn entries_in<A: Allocator + Copy>(
    octets: &[u8],
    alloc: &A,
) -> Result<Option<Vec<Entry<A>, A>>, AllocError>
    ensures { IfOk result (λ entries. option_map (λ entries. map listed_of entries.items) entries ≡ entries_value octets.now) }
{
    let mut entries = Vec::new(*alloc);
    let mut rest = octets;
    while !rest.is_empty() {
        let (line, behind) = cut_line(rest);
        let Some(entry) = entry_in(line, alloc)? else {
            return Ok(None);
        };
        keep(&mut entries, entry)?;
        rest = behind;
    }
    Ok(Some(entries))
}

/// Keeps an entry, if it counts.
fn keep<A: Allocator + Copy>(
    entries: &mut Vec<Entry<A>, A>,
    entry: Entry<A>,
) -> Result<(), AllocError>
    ensures { OnOk result (map listed_of entries.new.items ≡ kept (map listed_of entries.old.items) (listed_of entry)) }
{
    if !is_shown(&entry) {
        return Ok(());
    }
    entries.push(entry)?;
    Ok(())
}

/// The pathnames of a listing of names, one a line; `None` where a line can be none.
pub(crate) fn names_in<A: Allocator + Copy>(
    octets: &[u8],
    alloc: &A,
) -> Result<Option<Vec<Text<A>, A>>, AllocError>
    ensures { IfOk result (λ names. option_map (λ names. names.items) names ≡ names_value octets.now) }
{
    let mut names = Vec::new(*alloc);
    let mut rest = octets;
    while !rest.is_empty() {
        let (line, behind) = cut_line(rest);
        if !is_listed_text(line) {
            return Ok(None);
        }
        names.push(copy_of(line, alloc)?)?;
        rest = behind;
    }
    Ok(Some(names))
}

/// The first line, and what stands behind the LF that ends it.
fn cut_line(octets: &[u8]) -> (&[u8], &[u8])
    requires { 0 < length octets.now }
    ensures lines { lines_of octets.now ≡ result.0.now ∷ lines_of result.1.now }
    ensures less { length result.1.now < length octets.now }
{
    let (line, rest) = octets.split_at(line_end(octets));
    match rest {
        [] => (line, rest),
        [_, behind @ ..] => (line, behind),
    }
}

/// Where the first LF stands, or the length.
fn line_end(octets: &[u8]) -> usize
    ensures place { result ≡ position_or_len (λ octet. octet == line_feed) octets.now }
    ensures within { result ≤ length octets.now }
{
    octets
        .iter()
        .position(|octet| *octet == b'\n')
        .unwrap_or(octets.len())
}

/// Whether an entry counts: the directory itself, its parent and types of another word are left out (own choice).
fn is_shown<A: Allocator + Copy>(entry: &Entry<A>) -> bool
    ensures { result ≡ is_entry_shown (listed_of entry.now) }
{
    match &entry.kind {
        None | Some(EntryKind::File) | Some(EntryKind::Dir) => true,
        Some(EntryKind::CurrentDir) | Some(EntryKind::ParentDir) | Some(EntryKind::Other(_)) =>
            false,
    }
}
