// Offsets: how many octets of a file's transfer are skipped, and of the file by them (RFC 3659, section 5).
ghost use Rattle.std.specs.Prelude.{◌≡◌, ◌⊎◌, ◌==◌, ◌||◌, ◌≤◌, IfErr, IfOk, IfSome, None, OnOk, Some, length, nat_le, if◌then◌else◌};
ghost use Rattle.ftp_tree.specs.Change.{NoStray, Tells};
ghost use Rattle.ftp_tree.specs.Tree.{octets_or_none, under};
ghost use Rattle.ftp_direct.specs.Direct.{counted_place, is_counted, is_in_files, offset_refusal, place_in};

use crate::nodes::len_at;
use crate::opening::open_there;
use crate::refusal::Refusal;
use ftp_operation::How;
use ftp_repr::{Skipped, skip};
use ftp_settings::{Kind, Structure};
use ftp_tree::{Path, Tree, TreeFault};
use std::alloc::Allocator;

/// The most octets that are asked of a tree at once.
pub(crate) const PIECE: usize = 8192;

/// The longest file that is counted in type A, where its octets are read to count them (own choice).
pub const COUNT_LIMIT: u64 = 67_108_864;

/// Whether a file of so many octets is counted: in type I its length tells all.
pub fn is_counted(kind: Kind, len: u64) -> bool
    ensures { result ≡ is_counted kind len }
{
    match kind {
        Kind::Image => true,
        Kind::Ascii => len <= COUNT_LIMIT,
    }
}

/// Whether an offset has a meaning in that representation.
pub fn takes_offset(offset: u64, how: How) -> bool
    ensures { offset_refusal offset how ≡ (if result then None else Some Refusal.BadParameter) }
{
    offset == 0 || is_in_files(how.representation.structure)
}

fn is_in_files(structure: Structure) -> bool
    ensures { result ≡ is_in_files structure }
{
    match structure {
        Structure::File => true,
        Structure::Record => false,
    }
}

/// How many first octets of the file at a path go as so many octets of a transfer in that type, where some do; in a file that
/// is not counted offset 0 alone has such a place. In type I the octets of the file are not read.
///
/// Refused: `Memory`, `Device`.
pub fn place_at<A: Allocator + Copy, T: Tree<A>>(
    tree: &mut T,
    root: &Path<A>,
    path: &Path<A>,
    kind: Kind,
    offset: u64,
) -> Result<Option<u64>, TreeFault>
    ensures place { NoStray (T.failures tree.old) (T.failures tree.new) → IfOk result (λ place. place ≡ counted_place kind (octets_or_none (under (T.table tree.old) root.now) path.now) offset) }
    // Witness of within: of a device that does not stray it follows from `place`.
    ensures within { IfOk result (λ place. IfSome place (λ place. place ≤ length (octets_or_none (under (T.table tree.old) root.now) path.now))) }
    // Witness of table: nothing is changed.
    ensures table { T.table tree.new ≡ T.table tree.old }
    // Witness of refused, told: `a_file_that_cannot_be_opened_is_absent.edit`.
    ensures refused { IfErr result (λ fault. (fault ≡ TreeFault.Memory) ⊎ (fault ≡ TreeFault.Device)) }
    ensures told { Tells result (T.failures tree.old) (T.failures tree.new) }
{
    let len = len_at(tree, root, path);
    if is_sought(kind, len, offset) {
        find_place(tree, root, path, kind, offset)
    } else {
        Ok(None)
    }
}

/// Whether the place of an offset is sought in a file of so many octets: 0 is the start of each file.
fn is_sought(kind: Kind, len: u64, offset: u64) -> bool
    ensures { result ≡ is_counted kind len || (offset == 0) }
{
    is_counted(kind, len) || offset == 0
}

/// The place in the file at a path that an offset leads to.
fn find_place<A: Allocator + Copy, T: Tree<A>>(
    tree: &mut T,
    root: &Path<A>,
    path: &Path<A>,
    kind: Kind,
    offset: u64,
) -> Result<Option<u64>, TreeFault>
    ensures place { NoStray (T.failures tree.old) (T.failures tree.new) → IfOk result (λ place. place ≡ place_in kind (octets_or_none (under (T.table tree.old) root.now) path.now) offset) }
    ensures within { IfOk result (λ place. IfSome place (λ place. place ≤ length (octets_or_none (under (T.table tree.old) root.now) path.now))) }
    ensures table { T.table tree.new ≡ T.table tree.old }
    ensures refused { IfErr result (λ fault. (fault ≡ TreeFault.Memory) ⊎ (fault ≡ TreeFault.Device)) }
    ensures told { Tells result (T.failures tree.old) (T.failures tree.new) }
{
    match kind {
        Kind::Image => Ok(if_within(offset, len_at(tree, root, path))),
        Kind::Ascii => match open_there(tree, root, path)? {
            Some(file) => ascii_place(tree, file, offset),
            None => Ok(if_within(offset, 0)),
        },
    }
}

/// An offset as the place of a file of so many octets that go each as itself.
fn if_within(offset: u64, len: u64) -> Option<u64>
    ensures { result ≡ (if nat_le offset len then Some offset else None) }
{
    if offset <= len { Some(offset) } else { None }
}

/// The place of an open file that an offset leads to in type A: its octets are read up to there.
fn ascii_place<A: Allocator + Copy, T: Tree<A>>(
    tree: &mut T,
    mut file: T::Open,
    offset: u64,
) -> Result<Option<u64>, TreeFault>
    ensures place { NoStray (T.failures tree.old) (T.failures tree.new) → IfOk result (λ place. place ≡ place_in Kind.Ascii (T.opened file) offset) }
    ensures within { IfOk result (λ place. IfSome place (λ place. place ≤ length (T.opened file))) }
    ensures table { T.table tree.new ≡ T.table tree.old }
    ensures refused { IfErr result (λ fault. (fault ≡ TreeFault.Memory) ⊎ (fault ≡ TreeFault.Device)) }
    ensures told { Tells result (T.failures tree.old) (T.failures tree.new) }
{
    let end = T::open_len(&file);
    let mut buffer = [0u8; PIECE];
    let mut left = offset;
    let mut at = 0u64;
    while at < end {
        let Ok(count) = tree.read(&mut file, at, &mut buffer) else {
            return Err(TreeFault::Device);
        };
        match skip(Kind::Ascii, left, &buffer[..count]) {
            Skipped::Within(place) => return Ok(Some(at + place as u64)),
            Skipped::Left(more) => left = more,
            Skipped::Inside => return Ok(None),
        }
        at += count as u64;
    }
    Ok(if left == 0 { Some(at) } else { None })
}
