// How many octets a file would have on the wire.
ghost use Rattle.std.specs.Prelude.{◌≡◌, ◌⊎◌, ◌-◌, ◌^◌, IfErr, IfOk, IsTrue, None, OnErr, OnOk, min, if◌then◌else◌};
ghost use Rattle.ftp_tree.specs.Change.{NoStray, Tells};
ghost use Rattle.ftp_tree.specs.Tree.{octets_or_none, under};
ghost use Rattle.ftp_operation.specs.Answer.{Number, Refused, said_of};
ghost use Rattle.ftp_direct.specs.Direct.{due, here, size_in};
ghost use Rattle.ftp_operation.specs.Operation.{is_number, is_path_text};
ghost use Rattle.ftp_direct.specs.Run.{IsAnswer, IsAsBefore};

use crate::nodes::len_at;
use crate::offsets::{PIECE, is_counted};
use crate::opening::open_there;
use crate::reading::find_file;
use crate::refusal::{Refusal, refused, tell};
use ftp_facts::Text;
use ftp_operation::{Answer, How, Op, is_number};
use ftp_repr::{Kind, wire_size};
use ftp_tree::{Path, Tree, TreeFault};
use std::alloc::{AllocError, Allocator};

/// Says how many octets a transfer of a file would have.
pub(crate) fn size<A: Allocator + Copy, T: Tree<A>>(
    alloc: &A,
    tree: &mut T,
    root: &Path<A>,
    cwd: &Path<A>,
    text: &Text<A>,
    how: How,
) -> Result<Answer<A>, AllocError>
    requires { IsTrue (is_path_text text.now) }
    ensures answer { IfOk result (λ answer. let old = here (T.table tree.old) root.now cwd.now in
        IsAnswer (T.failures tree.old) (T.failures tree.new) (due old (Op.Size text.now how) 0) old (said_of answer) (here (T.table tree.new) root.now cwd.now)) }
    ensures kept { OnErr result (IsAsBefore (T.failures tree.old) (T.failures tree.new) (T.table tree.old) (T.table tree.new)) }
{
    let path = match find_file(alloc, tree, root, cwd, text)? {
        Ok(path) => path,
        Err(why) => return Ok(tell(why)),
    };
    let kind = how.representation.kind;
    if !is_counted(kind, len_at(tree, root, &path)) {
        return Ok(tell(Refusal::Unavailable));
    }
    match wire_len(tree, root, &path, kind) {
        Ok(size) => Ok(tell_number(size)),
        Err(fault) => refused(fault, Refusal::Unavailable),
    }
}

/// The answer that tells a number, where it can be said.
fn tell_number<A: Allocator + Copy>(number: u64) -> Answer<A>
    ensures { said_of result ≡ (if is_number number then Number number else Refused 550) }
{
    if is_number(number) {
        Answer::Number(number)
    } else {
        tell(Refusal::Unavailable)
    }
}

/// How many octets the file at a path goes as in that type, or `u64::MAX` where they are more. In type I the octets of the
/// file are not read.
///
/// Refused: `Memory`, `Device`.
pub fn wire_len<A: Allocator + Copy, T: Tree<A>>(
    tree: &mut T,
    root: &Path<A>,
    path: &Path<A>,
    kind: Kind,
) -> Result<u64, TreeFault>
    ensures count { NoStray (T.failures tree.old) (T.failures tree.new) → IfOk result (λ count. count ≡ min (size_in kind (octets_or_none (under (T.table tree.old) root.now) path.now)) (2 ^ 64 - 1)) }
    // Witness of table: nothing is changed.
    ensures table { T.table tree.new ≡ T.table tree.old }
    // Witness of refused, told: `a_file_that_cannot_be_opened_is_absent.edit`.
    ensures refused { IfErr result (λ fault. (fault ≡ TreeFault.Memory) ⊎ (fault ≡ TreeFault.Device)) }
    ensures told { Tells result (T.failures tree.old) (T.failures tree.new) }
{
    match kind {
        Kind::Image => Ok(len_at(tree, root, path)),
        Kind::Ascii => match open_there(tree, root, path)? {
            Some(file) => ascii_len(tree, file),
            None => Ok(0),
        },
    }
}

/// How many octets an open file goes as in type A, or `u64::MAX` where they are more.
fn ascii_len<A: Allocator + Copy, T: Tree<A>>(
    tree: &mut T,
    mut file: T::Open,
) -> Result<u64, TreeFault>
    ensures count { NoStray (T.failures tree.old) (T.failures tree.new) → IfOk result (λ count. count ≡ min (size_in Kind.Ascii (T.opened file)) (2 ^ 64 - 1)) }
    ensures table { T.table tree.new ≡ T.table tree.old }
    ensures refused { IfErr result (λ fault. (fault ≡ TreeFault.Memory) ⊎ (fault ≡ TreeFault.Device)) }
    ensures told { Tells result (T.failures tree.old) (T.failures tree.new) }
{
    let end = T::open_len(&file);
    let mut buffer = [0u8; PIECE];
    let mut total = 0u64;
    let mut at = 0u64;
    while at < end {
        let Ok(count) = tree.read(&mut file, at, &mut buffer) else {
            return Err(TreeFault::Device);
        };
        total = total.saturating_add(wire_size(Kind::Ascii, &buffer[..count]));
        at += count as u64;
    }
    Ok(total)
}
