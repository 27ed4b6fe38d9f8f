// The names beside what is asked for. What others took away from there counts for limits, and stays in memory, until they are listed.
ghost use Rattle.std.specs.Prelude.{◌≡◌, Some, length, true};
ghost use Rattle.ftp_tree.specs.Tree.{children, kind_at, room_refusal, under};
ghost use Rattle.ftp_disk_scan.specs.rescan.Parent.{are_few, are_many_changed};

use crate::loading::{Directory, Dirs, Held, Version, parent_of};
use crate::rescan::in_directory::{DirectoryFindings, look_in};
use ftp_disk_host::{Found, Host};
use ftp_path::Path;
use ftp_tree::{NodeKind, Sight, TreeFault};
use ftp_tree_nodes::Nodes;
use std::alloc::{Allocator, Global};

/// The most names that are listed again without a rest, where room is short (own choice).
const MOST_FEW: usize = 64;

/// Looks at the names in the directory that a path is in, where that is due. Where they can't be listed, nothing is found.
pub(crate) fn look_at_parent<H: Host, K: Held, B: Allocator + Copy, C: Allocator + Copy>(
    host: &H,
    nodes: &Nodes<Global, Version<K>>,
    dirs: &mut Dirs,
    root: &Path<B>,
    path: &Path<C>,
    place: &str,
) -> DirectoryFindings {
    let alloc = host.memory();
    let Ok(directory) = Directory::at(alloc, &dirs.roots, parent_of(place)) else {
        return DirectoryFindings::none(alloc);
    };
    if !is_due(host, nodes, dirs, root, path, &directory) {
        return DirectoryFindings::none(alloc);
    }
    match look_if_listed(host, nodes, dirs, directory) {
        Some(found) => found,
        None => DirectoryFindings::none(alloc),
    }
}

/// Looks at the names in a directory, where they can be listed.
fn look_if_listed<H: Host, K: Held>(
    host: &H,
    nodes: &Nodes<Global, Version<K>>,
    dirs: &mut Dirs,
    directory: Directory,
) -> Option<DirectoryFindings> {
    let Ok(Found::Dir(look)) = host.found(directory.below.as_str()) else {
        return None;
    };
    match look_in(host, nodes, dirs, directory, look, Sight::Path) {
        Ok(found) => Some(found),
        Err(_) => None,
    }
}

/// Whether names are listed beside a path: those of a directory of the tree, where they never were; where this tree changed many of them since; where by
/// what the tree has nothing comes to that path any more; and, where room is short, those of a directory that has few, and of each other after a rest.
fn is_due<H: Host, K: Held, B: Allocator + Copy, C: Allocator + Copy>(
    host: &H,
    nodes: &Nodes<Global, Version<K>>,
    dirs: &Dirs,
    root: &Path<B>,
    path: &Path<C>,
    directory: &Directory,
) -> bool
    ensures full { kind_at (under nodes.now directory.now.root) directory.now.path ≡ Some NodeKind.Dir
        → room_refusal (under nodes.now root.now) path.now ≡ Some TreeFault.Full → result ≡ true }
{
    let Some(NodeKind::Dir) = nodes.kind(&directory.root, &directory.path) else {
        return false;
    };
    let Some(seen) = dirs.seen(directory.below.as_bytes()) else {
        return true;
    };
    if are_many_changed(nodes, directory, seen.changes) {
        return true;
    }
    match nodes.room(root, path) {
        Ok(room) => {
            is_short(nodes, room) && (are_few(nodes, directory) || seen.has_rested(host.now()))
        }
        Err(TreeFault::Full) => true,
        Err(_) => false,
    }
}

/// Whether this tree changed more than half as many names in a directory as it has there now: so listing them costs each change no more than a few
/// names, and of what others took away no more stays than as much again as stood there.
#[tactic(auto, using(std::proofs::lemmas::Option::slice_get_past, std::proofs::lemmas::Option::slice_get_within))]
fn are_many_changed<K: Held>(
    nodes: &Nodes<Global, Version<K>>,
    directory: &Directory,
    changes: u32,
) -> bool
    ensures { result
        ≡ are_many_changed (length (children (under nodes.now directory.now.root) directory.now.path)) changes }
{
    let Some(last) = (changes as usize * 2).checked_sub(1) else {
        return false;
    };
    nodes
        .nth_name(&directory.root, &directory.path, last)
        .is_none()
}

/// Whether a directory has so few names that they are listed without a rest: that costs no more than a few looks.
#[tactic(auto, using(std::proofs::lemmas::Option::slice_get_past, std::proofs::lemmas::Option::slice_get_within))]
fn are_few<K: Held>(nodes: &Nodes<Global, Version<K>>, directory: &Directory) -> bool
    ensures { result ≡ are_few (length (children (under nodes.now directory.now.root) directory.now.path)) }
{
    nodes
        .nth_name(&directory.root, &directory.path, MOST_FEW)
        .is_none()
}

/// Whether so many octets are less than half of all that limits allow, and less than the longest file may have.
fn is_short<K: Held>(nodes: &Nodes<Global, Version<K>>, room: u64) -> bool {
    let limits = nodes.limits();
    limits.total < u64::MAX && room < limits.file.min(limits.total / 2)
}
