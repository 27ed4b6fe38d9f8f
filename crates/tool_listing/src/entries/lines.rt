// Listings of a server, a line an entry.
ghost use Rattle.std.specs.Prelude.{◌≡◌, ◌++◌, OnOk, count_by, flat_map};
ghost use Rattle.ftp_facts.specs.Entry.{entry_line};
ghost use Rattle.tool_listing.specs.entries.Lines.{shown_entry_text, is_below, is_itself, is_listed, is_shown, without_slash};
ghost use Rattle.tool_listing.specs.entries.Lines.{is_strange_entry, is_strange_name, line, name_text};

use crate::entries::is_name;
use ftp_facts::{Entry, Text, write_entry};
use std::alloc::{AllocError, Global};
use tool_terminal::put_shown;

/// Appends the lines of entries, as a terminal is to show them: the facts, a space and the name (RFC 3659, section 7.2), each with LF at its end. One
/// whose name is none of a single file is left out.
///
/// Refused memory, a part of them may stand there.
pub fn put_entries(
    alloc: Global,
    entries: &[Entry<Global>],
    out: &mut Vec<u8, Global>,
) -> Result<(), AllocError>
    // Witness: an equation, where memory is not refused.
    ensures { OnOk result (out.new.items ≡ out.old.items ++ flat_map shown_entry_text entries.now) }
{
    for entry in entries {
        put_entry(alloc, entry, out)?;
    }
    Ok(())
}

fn put_entry(
    alloc: Global,
    entry: &Entry<Global>,
    out: &mut Vec<u8, Global>,
) -> Result<(), AllocError>
    ensures { OnOk result (out.new.items ≡ out.old.items ++ shown_entry_text entry.now) }
{
    if is_name(entry.name.as_slice()) {
        put_entry_line(alloc, entry, out)
    } else {
        Ok(())
    }
}

fn put_entry_line(
    alloc: Global,
    entry: &Entry<Global>,
    out: &mut Vec<u8, Global>,
) -> Result<(), AllocError>
    ensures { OnOk result (out.new.items ≡ out.old.items ++ line (entry_line entry.now)) }
{
    let mut plain = Vec::new(alloc);
    if write_entry(entry, &mut plain).is_err() {
        return Err(AllocError);
    }
    put_line(plain.as_slice(), out)
}

/// Appends octets as a terminal is to show them, and LF.
pub(crate) fn put_line(octets: &[u8], out: &mut Vec<u8, Global>) -> Result<(), AllocError>
    ensures { OnOk result (out.new.items ≡ out.old.items ++ line octets.now) }
{
    put_shown(octets, out)?;
    out.extend_from_slice(b"\n")
}

/// Appends lines that are no entries, as a terminal is to show them, each with LF at its end.
///
/// Refused memory, a part of them may stand there.
pub fn put_lines(lines: &[Text<Global>], out: &mut Vec<u8, Global>) -> Result<(), AllocError>
    // Witness: an equation, where memory is not refused.
    ensures { OnOk result (out.new.items ≡ out.old.items ++ flat_map line lines.now) }
{
    for text in lines {
        put_line(text.as_slice(), out)?;
    }
    Ok(())
}

/// How many entries are left out.
pub fn strange_entries(entries: &[Entry<Global>]) -> usize
    ensures { result ≡ count_by is_strange_entry entries.now }
{
    let mut count = 0;
    for entry in entries {
        if is_strange_entry(entry) {
            count += 1;
        }
    }
    count
}

fn is_strange_entry(entry: &Entry<Global>) -> bool
    ensures { result ≡ is_strange_entry entry.now }
{
    !is_name(entry.name.as_slice())
}

/// Appends the names of the files of the directory at a path, as a terminal is to show them, each with LF at its end. One that is none of a single
/// file, alone or behind that path, is left out, unless it is the path itself, as of a file.
///
/// Refused memory, a part of them may stand there.
pub fn put_names(
    path: &[u8],
    names: &[Text<Global>],
    out: &mut Vec<u8, Global>,
) -> Result<(), AllocError>
    // Witness: an equation, where memory is not refused.
    ensures { OnOk result (out.new.items ≡ out.old.items ++ flat_map (name_text path.now) names.now) }
{
    for name in names {
        put_name(path, name.as_slice(), out)?;
    }
    Ok(())
}

fn put_name(path: &[u8], name: &[u8], out: &mut Vec<u8, Global>) -> Result<(), AllocError>
    ensures { OnOk result (out.new.items ≡ out.old.items ++ name_text path.now name.now) }
{
    if is_shown(path, name) {
        put_line(name, out)
    } else {
        Ok(())
    }
}

/// How many names are left out.
pub fn strange_names(path: &[u8], names: &[Text<Global>]) -> usize
    ensures { result ≡ count_by (is_strange_name path.now) names.now }
{
    let mut count = 0;
    for name in names {
        if !is_shown(path, name.as_slice()) {
            count += 1;
        }
    }
    count
}

/// Whether a name is one of a single file, alone or behind the path of the directory that is listed.
pub fn is_listed(path: &[u8], name: &[u8]) -> bool
    ensures { result ≡ is_listed path.now name.now }
{
    is_name(name) || is_below(path, name)
}

/// Whether a name is shown: one of a directory's listing, or that of the file at the path.
pub(crate) fn is_shown(path: &[u8], name: &[u8]) -> bool
    ensures { result ≡ is_shown path.now name.now }
{
    is_listed(path, name) || is_itself(path, name)
}

fn is_itself(path: &[u8], name: &[u8]) -> bool
    ensures { result ≡ is_itself path.now name.now }
{
    !path.is_empty() && name.starts_with(path) && name.len() == path.len()
}

fn is_below(path: &[u8], name: &[u8]) -> bool
    ensures { result ≡ is_below path.now name.now }
{
    !path.is_empty() && name.starts_with(path) && is_name(without_slash(&name[path.len()..]))
}

/// Octets without a slash at their front: a name that stands behind the path of its directory.
pub fn without_slash(octets: &[u8]) -> &[u8]
    ensures { result.now ≡ without_slash octets.now }
{
    match octets {
        [b'/', rest @ ..] => rest,
        _ => octets,
    }
}
