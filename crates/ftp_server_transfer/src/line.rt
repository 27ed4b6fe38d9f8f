// One line of a listing.
ghost use Rattle.std.specs.Prelude.{◌≡◌, ◌+◌, ◌<◌, ◌≤◌, ◌++◌, [], IfOk, OnOk, true, length, Some, is_some};
ghost use Rattle.ftp_path.specs.Path.{fits, text_limit};
ghost use Rattle.ftp_tree.specs.Entries.{shown_entry};
ghost use Rattle.ftp_direct.specs.Direct.{behind, child};
ghost use Rattle.ftp_server_model.specs.Entries.{listed_line};
ghost use Rattle.ftp_server_model.specs.Held.{lines_limit};
ghost use Rattle.ftp_server_model.specs.Listing.{lines_file, text_line};
ghost use Rattle.ftp_server_transfer.specs.Lines.{PutsLine, columns_of, entry_facts, line_of_entry, lines_from, pathname_of};

use crate::named::Named;
use ftp_direct::{entry_of, put_dir_line, put_file_line};
use ftp_facts::{Facts, write_entry_line};
use ftp_path::{Name, Path, TEXT_LIMIT};
use ftp_tree::{DirEntries, DirEntry};
use std::alloc::{AllocError, Allocator};

/// With so many octets no further line is put.
const ENOUGH: usize = 512;

/// What a listing says of each name.
#[derive(Drop)]
pub enum What<A: Allocator + Copy> {
    /// LIST: a line as many clients read it.
    Lines,
    /// NLST: the pathname of a file, behind the text that named the directory.
    Names(Named<A>),
    /// MLSD: these facts and the name.
    Entries(Facts),
}

/// Puts the lines of the next entries from a place on, with LF behind each, and says where to go on; none where no entry is left.
/// These are as many as it takes to have some octets: what follows each line is done once for all of them.
pub(crate) fn put_next<A: Allocator + Copy>(
    path: &Path<A>,
    what: &What<A>,
    entries: &DirEntries<A>,
    from: usize,
    line: &mut Vec<u8, A>,
) -> Result<Option<usize>, AllocError>
    requires empty { line.old.items ≡ [] }
    ensures lines { IfOk result (λ next. lines_file (lines_from what.now path.now entries.now (Some from)) ≡ line.new.items ++ lines_file (lines_from what.now path.now entries.now next)) }
    ensures some { IfOk result (λ next. is_some next ≡ true → 0 < length line.new.items) }
    ensures few { OnOk result (length line.new.items ≤ lines_limit) }
{
    let mut place = from;
    while let Some(found) = entries.nth(place) {
        let Some(next) = place.checked_add(1) else {
            return Err(AllocError);
        };
        put_line(path, what, found, line)?;
        if line.len() >= ENOUGH {
            return Ok(Some(next));
        }
        place = next;
    }
    Ok(None)
}

/// Puts the line of an entry of a directory, with LF behind it, where it has one: nothing is said of a path past the limits of paths.
fn put_line<A: Allocator + Copy>(
    path: &Path<A>,
    what: &What<A>,
    found: DirEntry<'_>,
    line: &mut Vec<u8, A>,
) -> Result<(), AllocError>
    ensures line { OnOk result (PutsLine (line_of_entry what.now path.now (shown_entry found.entry)) line.old.items line.new.items) }
    ensures few { OnOk result (length line.new.items ≤ length line.old.items + (text_limit + 257)) }
{
    if !fits_below(path, found.name) {
        return Ok(());
    }
    match what {
        What::Lines => put_columns_of(found, line),
        What::Names(text) => put_file(text.as_slice(), found, line),
        What::Entries(facts) => put_entry(*facts, found, line),
    }
}

/// Whether the path of a name in a directory is within the limits of paths.
fn fits_below<A: Allocator + Copy>(path: &Path<A>, name: Name<'_>) -> bool
    ensures { result ≡ fits (child path.now name.entry.octets.now) }
{
    name.octets().len() < TEXT_LIMIT.saturating_sub(path.key().len())
}

/// Puts the line of LIST for an entry.
fn put_columns_of<A: Allocator + Copy>(
    found: DirEntry<'_>,
    line: &mut Vec<u8, A>,
) -> Result<(), AllocError>
    ensures line { OnOk result (line.new.items ≡ line.old.items ++ text_line (columns_of (shown_entry found.entry))) }
    ensures few { OnOk result (length line.new.items ≤ length line.old.items + (text_limit + 257)) }
{
    match found.file {
        Some(file) => put_file_line(found.name.octets(), file.size, file.moment, line)?,
        None => put_dir_line(found.name.octets(), line)?,
    }
    line.push(b'\n')?;
    Ok(())
}

/// Puts the pathname of an entry, where it is a file's.
fn put_file<A: Allocator + Copy>(
    text: &[u8],
    found: DirEntry<'_>,
    line: &mut Vec<u8, A>,
) -> Result<(), AllocError>
    ensures line { OnOk result (PutsLine (pathname_of text.now (shown_entry found.entry)) line.old.items line.new.items) }
    ensures few { OnOk result (length line.new.items ≤ length line.old.items + (length text.now + 257)) }
{
    if found.file.is_none() {
        return Ok(());
    }
    put_behind(text, found.name.octets(), line)?;
    line.push(b'\n')?;
    Ok(())
}

/// Puts the facts in force of an entry, a space and the name.
fn put_entry<A: Allocator + Copy>(
    facts: Facts,
    found: DirEntry<'_>,
    line: &mut Vec<u8, A>,
) -> Result<(), AllocError>
    ensures line { OnOk result (line.new.items ≡ line.old.items ++ text_line (listed_line facts (entry_facts (shown_entry found.entry)))) }
    ensures few { OnOk result (length line.new.items ≤ length line.old.items + (text_limit + 257)) }
{
    let entry = entry_of(found.file, false, found.name.octets());
    write_entry_line(entry, facts, line)?;
    line.push(b'\n')?;
    Ok(())
}

/// Puts a name behind the text that names its directory, with a `/` between them.
fn put_behind<A: Allocator + Copy>(
    text: &[u8],
    name: &[u8],
    line: &mut Vec<u8, A>,
) -> Result<(), AllocError>
    ensures line { OnOk result (line.new.items ≡ line.old.items ++ behind text.now name.now) }
    ensures few { OnOk result (length line.new.items ≤ length line.old.items + (length text.now + 1 + length name.now)) }
{
    line.extend_from_slice(text)?;
    if !text.is_empty() && !text.ends_with(b"/") {
        line.push(b'/')?;
    }
    line.extend_from_slice(name)?;
    Ok(())
}
