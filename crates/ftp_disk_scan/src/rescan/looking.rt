// A look at each name of a path, until one is not as the tree has it; and what others changed there. Nothing of the tree is changed.
ghost use Rattle.std.specs.Prelude.{◌≡◌, ◌++◌, IfOk, string_bytes};
ghost use Rattle.ftp_path.specs.Path.{joined};

use crate::loading::{
    Changes, Directory, Dirs, Findings, Held, Reason, Roots, TreeEntry, Version, below_of, entry_at,
};
use crate::rescan::finding::{Finding, compare};
use crate::rescan::in_directory::{DirectoryFindings, error_of, look_in};
use crate::rescan::parent::look_at_parent;
use ftp_disk_host::{Found, Host, Look};
use ftp_path::Path;
use ftp_tree::Sight;
use ftp_tree_nodes::Nodes;
use std::alloc::{Allocator, Global};
use std::io;
use std::io::{Error, ErrorKind};

/// Looks at each name of a path, until one is not as the tree has it. Where a directory is at the path, its names are listed if it does not look as it
/// did when they were taken in. With `Sight::Files` it looks at each of its files, too. Where a file or nothing is at the path, the names in the
/// directory above it are listed if that is due.
///
/// Fails where a name of the path can't be looked at, or stands for what can't be served and the tree has nothing there. Then nothing of the tree is
/// changed, and `dirs` may know of one directory more how it looked.
pub fn look_at<H: Host, K: Held, B: Allocator + Copy, C: Allocator + Copy>(
    host: &H,
    nodes: &Nodes<Global, Version<K>>,
    dirs: &mut Dirs,
    root: &Path<B>,
    path: &Path<C>,
    sight: Sight,
) -> io::Result<Findings>
    // Witness: an equation; `edits/a_look_is_of_the_root`.
    ensures { IfOk result (λ findings. string_bytes findings.asked ≡ joined root.now ++ joined path.now) }
{
    let asked = below_of(host.memory(), root, path)?;
    match go_down(host, nodes, &dirs.roots, asked.as_str())? {
        Reached::Changed(changes) => Ok(Findings::new(asked, changes, None, None)),
        Reached::Other(changes) => Ok(Findings::new(asked, changes, None, Some(Reason::Kind))),
        Reached::FileOrNothing => {
            let parent = look_at_parent(host, nodes, dirs, root, path, asked.as_str());
            Ok(findings_of(asked, parent))
        }
        Reached::Directory(look) => {
            let directory = directory_at(host.memory(), &dirs.roots, asked.as_str())?;
            let found = look_in(host, nodes, dirs, directory, look, sight)?;
            Ok(findings_of(asked, found))
        }
    }
}

/// What was found in a directory.
fn findings_of(asked: String<Global>, found: DirectoryFindings) -> Findings
    ensures { result.asked ≡ asked }
{
    let (changes, listed) = found.into_parts();
    Findings::new(asked, changes, listed, None)
}

/// What a walk down to a place reached.
enum Reached {
    /// Nothing or a file, in both.
    FileOrNothing,
    /// What is not as the tree has it; what that is.
    Changed(Changes),
    /// What is neither a file nor a directory, where the tree has something.
    Other(Changes),
    /// A directory in both.
    Directory(Look),
}

/// Looks at each name of a place, until one is not as the tree has it.
fn go_down<H: Host, K: Held>(
    host: &H,
    nodes: &Nodes<Global, Version<K>>,
    roots: &Roots,
    asked: &str,
) -> io::Result<Reached> {
    if asked.is_empty() {
        return reached_top(host);
    }
    let mut dir = None;
    for end in 1..=asked.len() {
        let Some(place) = front(asked, end) else {
            continue;
        };
        let (found, entry) = sight_at(host, nodes, roots, place)?;
        match Finding::of(found, entry) {
            Finding::SameDir(look) => dir = Some(look),
            _ => return reached_at(host.memory(), place, found, entry),
        }
    }
    match dir {
        Some(look) => Ok(Reached::Directory(look)),
        None => Ok(Reached::FileOrNothing),
    }
}

/// The folder itself.
fn reached_top<H: Host>(host: &H) -> io::Result<Reached> {
    match host.found("")? {
        Found::Dir(look) => Ok(Reached::Directory(look)),
        Found::Nothing => Err(Error::from(ErrorKind::NotFound)),
        Found::File(_) | Found::Other => Err(Error::from(ErrorKind::NotADirectory)),
    }
}

/// The first octets of a place, where a name of it ends there.
fn front(place: &str, end: usize) -> Option<&str> {
    match place.split_at_checked(end) {
        Some((front, rest)) if rest.is_empty() || rest.starts_with('/') => Some(front),
        _ => None,
    }
}

/// What is seen at a place, and what the tree has there.
fn sight_at<H: Host, K: Held>(
    host: &H,
    nodes: &Nodes<Global, Version<K>>,
    roots: &Roots,
    place: &str,
) -> io::Result<(Found, TreeEntry)> {
    let directory = directory_at(host.memory(), roots, place)?;
    let found = host.found(place)?;
    Ok((found, entry_at(nodes, &directory.root, &directory.path)))
}

/// A place, as a path below a root.
fn directory_at(alloc: Global, roots: &Roots, place: &str) -> io::Result<Directory> {
    match Directory::at(alloc, roots, place) {
        Ok(directory) => Ok(directory),
        Err(fault) => Err(error_of(fault)),
    }
}

/// What a walk down reached, by what was found at a place where it ends.
fn reached_at(alloc: Global, place: &str, found: Found, entry: TreeEntry) -> io::Result<Reached> {
    let mut changes = Changes::none(alloc);
    compare(&mut changes, alloc, place, found, entry)?;
    match Finding::of(found, entry) {
        Finding::Other => Err(Reason::Kind.error()),
        Finding::TurnedOther => Ok(Reached::Other(changes)),
        Finding::Nothing | Finding::SameFile => Ok(Reached::FileOrNothing),
        _ => Ok(Reached::Changed(changes)),
    }
}
