// What is told of a path, in a line.
ghost use Rattle.std.specs.Prelude.{◌≡◌, IfOk};
ghost use Rattle.tool_mirror.specs.Telling.{action_line, told_path};

use crate::fault::MirrorFault;
use std::alloc::{AllocError, Global};
use std::fmt::Display;
use std::io;
use std::io::Eprint;
use tool_listing::put_json_action;
use tool_terminal::put_shown;

/// A path, as a terminal is to show it; that of the root is a point.
pub(crate) fn shown(alloc: Global, below: &str) -> Result<String<Global>, AllocError> {
    if below.is_empty() {
        return String::from_str(alloc, ".");
    }
    let mut octets = Vec::new(alloc);
    put_shown(below.as_bytes(), &mut octets)?;
    String::from_str(alloc, std::str::from_utf8(octets.as_slice()).unwrap_or("?"))
}

/// The path of an entry of a directory, as a terminal is to show it; its name need be no text.
pub(crate) fn shown_below(
    alloc: Global,
    below: &str,
    name: &[u8],
) -> Result<String<Global>, AllocError> {
    let mut octets = Vec::new(alloc);
    if !below.is_empty() {
        put_shown(below.as_bytes(), &mut octets)?;
        octets.extend_from_slice(b"/")?;
    }
    put_shown(name, &mut octets)?;
    String::from_str(alloc, std::str::from_utf8(octets.as_slice()).unwrap_or("?"))
}

/// The line of what is done of a path, as JSON; the path of the root is a point.
pub(crate) fn action_line(
    alloc: Global,
    what: &str,
    below: &str,
) -> Result<Vec<u8, Global>, AllocError>
    // Witness: an equation, where memory is not refused; `edits/a_path_is_told_as_what_is_done`.
    ensures { IfOk result (λ line. line.items ≡ action_line what.now below.now) }
{
    let path = told_path(below);
    let mut line = Vec::new(alloc);
    put_json_action(what.as_bytes(), path.as_bytes(), &mut line)?;
    Ok(line)
}

/// A path as it is told; that of the root is a point.
fn told_path(below: &str) -> &str
    // Witness: an equation; `edits/every_path_is_a_point`.
    ensures { result.now ≡ told_path below.now }
{
    if below.is_empty() { "." } else { below }
}

/// Tells that an entry, whose path is shown so, has a name that is no text.
pub(crate) fn tell_no_text<R: Eprint>(rt: &R, shown: &str) -> io::Result<()> {
    eprintln!(rt; "error: {shown}: the name is no text (UTF-8), and can't be sent; it is left out")
}

/// Tells of a path on standard error, in a line: what kind of a line it is, the path, and what is told of it.
pub(crate) fn tell<R: Eprint, D: Display>(
    rt: &R,
    alloc: Global,
    kind: &str,
    below: &str,
    what: &D,
) -> io::Result<()> {
    let name = shown(alloc, below)?;
    eprintln!(rt; "{kind}{name}: {what}")
}

/// Tells why something was not done of a path.
pub(crate) fn tell_fault<R: Eprint>(
    rt: &R,
    alloc: Global,
    below: &str,
    fault: MirrorFault,
) -> io::Result<()> {
    match fault {
        MirrorFault::Here(error) => tell(rt, alloc, "error: ", below, &error),
        MirrorFault::Stranger(stranger) => {
            tell(rt, alloc, "error: ", below, &stranger.sentence())
        }
        _ => tell(rt, alloc, "error: ", below, &fault.sentence()),
    }
}
