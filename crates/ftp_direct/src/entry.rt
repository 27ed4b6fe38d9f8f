// What an entry says of a file or a directory (RFC 3659, section 7.5).
ghost use Rattle.std.specs.Prelude.{◌≡◌, codes, if◌then◌else◌};
ghost use Rattle.ftp_facts.specs.Entry.{listed_lent};
ghost use Rattle.ftp_tree.specs.Entries.{shown_file};
ghost use Rattle.ftp_tree.specs.Map.{of_node, shown_of};
ghost use Rattle.ftp_tree.specs.Tree.{node_at, under};
ghost use Rattle.ftp_direct.specs.Direct.{entry_of, is_root, size_fact};

use ftp_facts::LentEntry;
use ftp_operation::is_number;
use ftp_tree::{FileFacts, Path, Tree};
use std::alloc::Allocator;

/// The entry of a file, or without one of a directory, under a name, which is lent (RFC 3659, section 7.5). What a directory grants is said
/// by whether it is the root; which facts are given is an own choice. Takes no memory.
pub fn entry_of(file: Option<FileFacts>, at_root: bool, name: &[u8]) -> LentEntry<'_>
    ensures { listed_lent result ≡ entry_of (shown_file file) at_root name.now }
{
    match file {
        Some(file) => LentEntry {
            name,
            kind: Some(b"file".as_slice()),
            size: size_fact(file.size),
            modify: Some(file.moment),
            perm: Some(b"adfrw".as_slice()),
        },
        None => LentEntry {
            name,
            kind: Some(b"dir".as_slice()),
            size: None,
            modify: None,
            perm: Some(dir_perm(at_root)),
        },
    }
}

/// What a directory grants (RFC 3659, section 7.5.5).
fn dir_perm(at_root: bool) -> &'static [u8]
    ensures { result.now ≡ (if at_root then codes "celmp" else codes "cdeflmp") }
{
    if at_root { b"celmp" } else { b"cdeflmp" }
}

/// A size, where it can be said.
fn size_fact(size: u64) -> Option<u64>
    ensures { result ≡ size_fact size }
{
    if is_number(size) { Some(size) } else { None }
}

/// The size in octets and the moment of the file at a path; none of a directory, or where nothing stands.
pub fn file_at<A: Allocator + Copy, T: Tree<A>>(
    tree: &T,
    root: &Path<A>,
    path: &Path<A>,
) -> Option<FileFacts>
    ensures { shown_file result ≡ of_node shown_of (node_at (under (T.table tree.now) root.now) path.now) }
{
    let Some(size) = tree.size(root, path) else {
        return None;
    };
    let Some(moment) = tree.stamp(root, path) else {
        return None;
    };
    Some(FileFacts { size, moment })
}

/// Whether a path is the root.
pub fn is_root<A: Allocator + Copy>(path: &Path<A>) -> bool
    ensures { result ≡ is_root path.now }
{
    path.key().is_empty()
}
