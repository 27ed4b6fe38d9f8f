// Which files of a directory a pattern chooses.
ghost use Rattle.std.specs.Prelude.{◌≡◌};
ghost use Rattle.std.specs.List.{list_any};
ghost use Rattle.tool_listing.specs.pattern.Chosen.{bare_name, is_chosen, is_chosen_item, is_chosen_name, is_dir_kind, is_fetched, is_pattern, is_wild};

use crate::entries::{ItemKind, ListedItem, is_listed, is_name, without_slash};
use crate::pattern::pattern::matches;
use ftp_facts::{Entry, EntryKind, Text};
use std::alloc::{AllocError, Global};

/// Whether a name is a pattern, in which an octet stands for others: `*` or `?`.
pub fn is_pattern(name: &[u8]) -> bool
    ensures { result ≡ is_pattern name.now }
{
    name.iter().any(|octet| is_wild(*octet))
}

fn is_wild(octet: u8) -> bool
    ensures { result ≡ is_wild octet }
{
    octet == b'*' || octet == b'?'
}

/// Whether an entry is chosen by a pattern: its name is one of a single file, and of the pattern, and it is no directory, as far as its type says.
pub fn is_chosen(pattern: &[u8], entry: &Entry<Global>) -> bool
    // Witness: an equation; `edits/a_directory_is_chosen`, `edits/a_name_of_no_single_file_is_chosen`.
    ensures { result ≡ is_chosen pattern.now entry.now }
{
    let name = entry.name.as_slice();
    is_name(name) && matches(pattern, name) && !is_dir_kind(&entry.kind)
}

fn is_dir_kind(kind: &Option<EntryKind<Global>>) -> bool
    ensures { result ≡ is_dir_kind kind.now }
{
    match kind {
        Some(EntryKind::Dir | EntryKind::CurrentDir | EntryKind::ParentDir) => true,
        _ => false,
    }
}

/// Whether a name is chosen by a pattern that a server gives alone, or behind the path of the directory that is listed.
pub fn is_chosen_name(pattern: &[u8], path: &[u8], name: &[u8]) -> bool
    // Witness: as of `is_chosen`.
    ensures { result ≡ is_chosen_name pattern.now path.now name.now }
{
    is_listed(path, name) && matches(pattern, bare_name(path, name))
}

/// The name of a file, without the path of its directory, if that stands before it.
fn bare_name<'a>(path: &[u8], name: &'a [u8]) -> &'a [u8]
    ensures { result.now ≡ bare_name path.now name.now }
{
    if is_name(name) {
        name
    } else {
        without_slash(name.get(path.len()..).unwrap_or(&[]))
    }
}

/// The names of the entries that a pattern chooses, in the order of their octets, each once.
pub fn chosen_entries(
    alloc: Global,
    pattern: &[u8],
    entries: &[Entry<Global>],
) -> Result<Vec<Text<Global>, Global>, AllocError> {
    let mut chosen = Vec::new(alloc);
    for entry in entries {
        if is_chosen(pattern, entry) {
            chosen.push(Text::copy_of(alloc, entry.name.as_slice())?)?;
        }
    }
    in_order(alloc, chosen)
}

/// The same of what a directory has.
pub fn chosen_items(
    alloc: Global,
    pattern: &[u8],
    items: &[ListedItem<Global>],
) -> Result<Vec<Text<Global>, Global>, AllocError> {
    let mut chosen = Vec::new(alloc);
    for item in items {
        if is_chosen_item(pattern, item) {
            chosen.push(Text::copy_of(alloc, item.name.as_slice())?)?;
        }
    }
    in_order(alloc, chosen)
}

/// Whether a pattern chooses what stands under a name: it is no directory, and no line that is no entry.
pub fn is_chosen_item(pattern: &[u8], item: &ListedItem<Global>) -> bool
    ensures { result ≡ is_chosen_item pattern.now item.now }
{
    let name = item.name.as_slice();
    is_fetched(item.kind) && is_name(name) && matches(pattern, name)
}

fn is_fetched(kind: ItemKind) -> bool
    ensures { result ≡ is_fetched kind }
{
    match kind {
        ItemKind::File(_) | ItemKind::Other => true,
        ItemKind::Dir | ItemKind::Excluded | ItemKind::Odd => false,
    }
}

/// The same of names that a server gives of the directory at a path.
pub fn chosen_names(
    alloc: Global,
    pattern: &[u8],
    path: &[u8],
    names: &[Text<Global>],
) -> Result<Vec<Text<Global>, Global>, AllocError> {
    let mut chosen = Vec::new(alloc);
    for name in names {
        if is_chosen_name(pattern, path, name.as_slice()) {
            chosen.push(Text::copy_of(alloc, bare_name(path, name.as_slice()))?)?;
        }
    }
    in_order(alloc, chosen)
}

/// Names in the order of their octets, each once.
fn in_order(
    alloc: Global,
    names: Vec<Text<Global>, Global>,
) -> Result<Vec<Text<Global>, Global>, AllocError> {
    let mut names = names;
    names.sort_unstable_by(|one, other| one.as_slice().cmp(other.as_slice()));
    let mut kept: Vec<Text<Global>, Global> = Vec::new(alloc);
    for name in names {
        if !ends_in(kept.as_slice(), name.as_slice()) {
            kept.push(name)?;
        }
    }
    Ok(kept)
}

/// Whether the last of these names is this one.
fn ends_in(names: &[Text<Global>], name: &[u8]) -> bool {
    match names {
        [.., last] => last.as_slice() == name,
        [] => false,
    }
}
