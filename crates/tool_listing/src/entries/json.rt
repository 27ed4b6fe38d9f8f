// Listings and actions for programs, as lines of JSON (RFC 8259).
ghost use Rattle.std.specs.Prelude.{◌≡◌, ◌≤◌, ◌++◌, OnOk, flat_map};
ghost use Rattle.ftp_facts.specs.Moment.{moment_digits};
ghost use Rattle.tool_terminal.specs.escaped.Shown.{digit};
ghost use Rattle.tool_listing.specs.entries.Json.{action_json, entry_json, entry_line_json, line_json, modified_member, name_json, name_line_json, octet_json, perm_member, size_member, stamp_member, stamped, string, type_member};

use crate::entries::is_name;
use crate::entries::lines::is_shown;
use ftp_facts::{Entry, EntryKind, Moment, Text, moment_text};
use itoa::Buffer;
use std::alloc::{AllocError, Global};
use tool_terminal::put_shown;

/// Appends the lines of entries for programs: name, type, size, moment in UTC and permissions of each, what is not told left out. One whose name is
/// none of a single file is left out.
///
/// Refused memory, a part of them may stand there.
pub fn put_json_entries(
    entries: &[Entry<Global>],
    out: &mut Vec<u8, Global>,
) -> Result<(), AllocError>
    // Witness: an equation, where memory is not refused.
    ensures { OnOk result (out.new.items ≡ out.old.items ++ flat_map entry_json entries.now) }
{
    for entry in entries {
        put_entry(entry, out)?;
    }
    Ok(())
}

fn put_entry(entry: &Entry<Global>, out: &mut Vec<u8, Global>) -> Result<(), AllocError>
    ensures { OnOk result (out.new.items ≡ out.old.items ++ entry_json entry.now) }
{
    if is_name(entry.name.as_slice()) {
        put_entry_line(entry, out)
    } else {
        Ok(())
    }
}

fn put_entry_line(entry: &Entry<Global>, out: &mut Vec<u8, Global>) -> Result<(), AllocError>
    ensures { OnOk result (out.new.items ≡ out.old.items ++ entry_line_json entry.now) }
{
    out.extend_from_slice(b"{\"name\":")?;
    put_string(entry.name.as_slice(), out)?;
    put_type(&entry.kind, out)?;
    put_size(entry.size, out)?;
    put_modified(entry.modify, out)?;
    put_perm(&entry.perm, out)?;
    out.extend_from_slice(b"}\n")
}

/// Appends lines that are no entries, for programs: each as a terminal is to show it.
///
/// Refused memory, a part of them may stand there.
pub fn put_json_lines(
    alloc: Global,
    lines: &[Text<Global>],
    out: &mut Vec<u8, Global>,
) -> Result<(), AllocError>
    // Witness: an equation, where memory is not refused.
    ensures { OnOk result (out.new.items ≡ out.old.items ++ flat_map line_json lines.now) }
{
    for text in lines {
        put_json_line(alloc, text.as_slice(), out)?;
    }
    Ok(())
}

fn put_json_line(alloc: Global, text: &[u8], out: &mut Vec<u8, Global>) -> Result<(), AllocError>
    ensures { OnOk result (out.new.items ≡ out.old.items ++ line_json text.now) }
{
    let mut shown = Vec::new(alloc);
    put_shown(text, &mut shown)?;
    out.extend_from_slice(b"{\"line\":")?;
    put_string(shown.as_slice(), out)?;
    out.extend_from_slice(b"}\n")
}

fn put_type(kind: &Option<EntryKind<Global>>, out: &mut Vec<u8, Global>) -> Result<(), AllocError>
    ensures { OnOk result (out.new.items ≡ out.old.items ++ type_member kind.now) }
{
    match kind {
        Some(EntryKind::File) => out.extend_from_slice(b",\"type\":\"file\""),
        Some(EntryKind::Dir) => out.extend_from_slice(b",\"type\":\"dir\""),
        Some(EntryKind::CurrentDir) => out.extend_from_slice(b",\"type\":\"cdir\""),
        Some(EntryKind::ParentDir) => out.extend_from_slice(b",\"type\":\"pdir\""),
        Some(EntryKind::Other(word)) => {
            out.extend_from_slice(b",\"type\":")?;
            put_string(word.as_slice(), out)
        }
        None => Ok(()),
    }
}

fn put_size(size: Option<u64>, out: &mut Vec<u8, Global>) -> Result<(), AllocError>
    ensures { OnOk result (out.new.items ≡ out.old.items ++ size_member size) }
{
    let Some(size) = size else {
        return Ok(());
    };
    out.extend_from_slice(b",\"size\":")?;
    out.extend_from_slice(Buffer::new().format(size).as_bytes())
}

fn put_modified(modified: Option<Moment>, out: &mut Vec<u8, Global>) -> Result<(), AllocError>
    ensures { OnOk result (out.new.items ≡ out.old.items ++ modified_member modified) }
{
    match modified {
        Some(moment) => put_stamp(&stamped(moment_text(moment)), out),
        None => Ok(()),
    }
}

fn put_stamp(stamp: &[u8], out: &mut Vec<u8, Global>) -> Result<(), AllocError>
    ensures { OnOk result (out.new.items ≡ out.old.items ++ stamp_member stamp.now) }
{
    out.extend_from_slice(b",\"modified\":\"")?;
    out.extend_from_slice(stamp)?;
    out.extend_from_slice(b"\"")
}

fn put_perm(perm: &Option<Text<Global>>, out: &mut Vec<u8, Global>) -> Result<(), AllocError>
    ensures { OnOk result (out.new.items ≡ out.old.items ++ perm_member perm.now) }
{
    match perm {
        Some(perm) => {
            out.extend_from_slice(b",\"perm\":")?;
            put_string(perm.as_slice(), out)
        }
        None => Ok(()),
    }
}

/// Fourteen digits as a moment in UTC.
fn stamped(digits: [u8; 14]) -> [u8; 20]
    ensures { result ≡ stamped digits }
{
    let [a, b, c, d, e, f, g, h, i, j, k, l, m, n] = digits;
    [
        a, b, c, d, b'-', e, f, b'-', g, h, b'T', i, j, b':', k, l, b':', m, n, b'Z',
    ]
}

/// Appends the lines of names of the directory at a path, of which no fact is known. One that is none of a single file, alone or after that path, is
/// left out, unless it is the path itself, as of a file.
///
/// Refused memory, a part of them may stand there.
pub fn put_json_names(
    path: &[u8],
    names: &[Text<Global>],
    out: &mut Vec<u8, Global>,
) -> Result<(), AllocError>
    // Witness: an equation, where memory is not refused.
    ensures { OnOk result (out.new.items ≡ out.old.items ++ flat_map (name_json path.now) names.now) }
{
    for name in names {
        put_name(path, name.as_slice(), out)?;
    }
    Ok(())
}

fn put_name(path: &[u8], name: &[u8], out: &mut Vec<u8, Global>) -> Result<(), AllocError>
    ensures { OnOk result (out.new.items ≡ out.old.items ++ name_json path.now name.now) }
{
    if is_shown(path, name) {
        put_name_line(name, out)
    } else {
        Ok(())
    }
}

fn put_name_line(name: &[u8], out: &mut Vec<u8, Global>) -> Result<(), AllocError>
    ensures { OnOk result (out.new.items ≡ out.old.items ++ name_line_json name.now) }
{
    out.extend_from_slice(b"{\"name\":")?;
    put_string(name, out)?;
    out.extend_from_slice(b"}\n")
}

/// Appends the line of what is done of a path.
///
/// Refused memory, a part of it may stand there.
pub fn put_json_action(
    action: &[u8],
    path: &[u8],
    out: &mut Vec<u8, Global>,
) -> Result<(), AllocError>
    // Witness: an equation, where memory is not refused.
    ensures { OnOk result (out.new.items ≡ out.old.items ++ action_json action.now path.now) }
{
    out.extend_from_slice(b"{\"deed\":")?;
    put_string(action, out)?;
    out.extend_from_slice(b",\"path\":")?;
    put_string(path, out)?;
    out.extend_from_slice(b"}\n")
}

/// Appends a text as a string of JSON.
fn put_string(octets: &[u8], out: &mut Vec<u8, Global>) -> Result<(), AllocError>
    ensures { OnOk result (out.new.items ≡ out.old.items ++ string octets.now) }
{
    out.extend_from_slice(b"\"")?;
    put_octets(octets, out)?;
    out.extend_from_slice(b"\"")
}

fn put_octets(octets: &[u8], out: &mut Vec<u8, Global>) -> Result<(), AllocError>
    ensures { OnOk result (out.new.items ≡ out.old.items ++ flat_map octet_json octets.now) }
{
    for octet in octets {
        put_octet(*octet, out)?;
    }
    Ok(())
}

fn put_octet(octet: u8, out: &mut Vec<u8, Global>) -> Result<(), AllocError>
    ensures { OnOk result (out.new.items ≡ out.old.items ++ octet_json octet) }
{
    if octet == b'"' || octet == b'\\' {
        out.extend_from_slice(&[b'\\', octet])
    } else if octet < 32 {
        let escape = [
            b'\\',
            b'u',
            b'0',
            b'0',
            digit(octet / 16),
            digit(octet % 16),
        ];
        out.extend_from_slice(&escape)
    } else {
        out.extend_from_slice(&[octet])
    }
}

/// A hexadecimal digit.
fn digit(value: u8) -> u8
    requires { value ≤ 15 }
    ensures { result ≡ digit value }
{
    if value < 10 { 48 + value } else { 87 + value }
}
