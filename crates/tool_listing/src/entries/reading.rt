// What stands in a directory, by a listing of it as text.
ghost use Rattle.std.specs.Prelude.{◌≡◌};
ghost use Rattle.tool_listing.specs.entries.Text.{odd_name};

use crate::entries::columns::{is_dots, is_total};
use crate::entries::item::{ItemFacts, ItemKind, ListedItem};
use crate::entries::text::{cut_line, entry_in, is_shown};
use crate::entries::unix_entry::{UnixKind, UnixLine};
use crate::entries::unix_line::{cut_one, read_unix_line};
use ftp_facts::{Entry, EntryKind, Text};
use ftp_path::is_path_text;
use std::alloc::{AllocError, Global};

/// What a directory has by the text of MLSD: each entry, and for each line that is none an odd one, by the name behind its first space (RFC 3659, section
/// 7.2).
pub fn items_of_facts(
    alloc: Global,
    text: &[u8],
) -> Result<Vec<ListedItem<Global>, Global>, AllocError> {
    let mut items = Vec::new(alloc);
    let mut rest = text;
    while !rest.is_empty() {
        let (line, behind) = cut_line(rest);
        put_fact_line(alloc, line, &mut items)?;
        rest = behind;
    }
    Ok(items)
}

fn put_fact_line(
    alloc: Global,
    line: &[u8],
    items: &mut Vec<ListedItem<Global>, Global>,
) -> Result<(), AllocError> {
    let Some(entry) = entry_in(alloc, line)? else {
        return put(alloc, odd_name(line), ItemKind::Odd, items);
    };
    if !is_shown(&entry) {
        return Ok(());
    }
    put(alloc, entry.name.as_slice(), kind_of(&entry), items)
}

/// What stands behind the first space; nothing where there is none.
fn odd_name(line: &[u8]) -> &[u8]
    ensures { result.now ≡ odd_name line.now }
{
    let (_, name) = cut_one(line);
    name
}

fn kind_of(entry: &Entry<Global>) -> ItemKind {
    match &entry.kind {
        Some(EntryKind::File) => ItemKind::File(ItemFacts {
            size: entry.size,
            moment: match entry.modify {
                Some(moment) => Some(moment.seconds),
                None => None,
            },
        }),
        Some(EntryKind::Dir) => ItemKind::Dir,
        _ => ItemKind::Other,
    }
}

/// What a directory has by the text of LIST in the columns of `ls -l`: each line, but a count of blocks, the directory itself and its parent; one of
/// another form is odd, and has no name.
pub fn items_of_columns(
    alloc: Global,
    text: &[u8],
) -> Result<Vec<ListedItem<Global>, Global>, AllocError> {
    let mut items = Vec::new(alloc);
    let mut rest = text;
    while !rest.is_empty() {
        let (line, behind) = cut_line(rest);
        put_columns_line(alloc, line, &mut items)?;
        rest = behind;
    }
    Ok(items)
}

fn put_columns_line(
    alloc: Global,
    line: &[u8],
    items: &mut Vec<ListedItem<Global>, Global>,
) -> Result<(), AllocError> {
    match read_unix_line(line) {
        Some(told) => put_told(alloc, told, items),
        None => {
            if is_total(line) {
                return Ok(());
            }
            put(alloc, &[], ItemKind::Odd, items)
        }
    }
}

fn put_told(
    alloc: Global,
    told: UnixLine<'_>,
    items: &mut Vec<ListedItem<Global>, Global>,
) -> Result<(), AllocError> {
    let name = told.name;
    if is_dots(name) {
        return Ok(());
    }
    if !is_path_text(name) {
        return put(alloc, name, ItemKind::Odd, items);
    }
    put(alloc, name, kind_by(told), items)
}

fn kind_by(told: UnixLine<'_>) -> ItemKind {
    match told.kind {
        UnixKind::File => ItemKind::File(ItemFacts {
            size: Some(told.size),
            moment: match told.day {
                Some(day) => Some(day.seconds),
                None => None,
            },
        }),
        UnixKind::Dir => ItemKind::Dir,
        UnixKind::Link | UnixKind::Other => ItemKind::Other,
    }
}

fn put(
    alloc: Global,
    name: &[u8],
    kind: ItemKind,
    items: &mut Vec<ListedItem<Global>, Global>,
) -> Result<(), AllocError> {
    let name = Text::copy_of(alloc, name)?;
    items.push(ListedItem { name, kind })?;
    Ok(())
}
