// Operations that put files.
ghost use Rattle.std.specs.Prelude.{◌≡◌, ◌+◌, ◌≤◌, IsTrue, IfOk, OnErr, length, nat_le, take, true};
ghost use Rattle.ftp_path.specs.Path.{fits, Names};
ghost use Rattle.ftp_tree.specs.Tree.{octets_or_none, under};
ghost use Rattle.ftp_operation.specs.Answer.{said_of};
ghost use Rattle.ftp_direct.specs.Direct.{chosen, due, here, put, put_refusal};
ghost use Rattle.ftp_operation.specs.Operation.{is_path_text};
ghost use Rattle.ftp_direct.specs.Refusal.{name_refusal};
ghost use Rattle.ftp_direct.specs.Run.{IsAnswer, IsAsBefore};

use crate::nodes::len_at;
use crate::offsets::{place_at, takes_offset};
use crate::refusal::{Refusal, find, refused, tell};
use ftp_facts::{Moment, Text};
use ftp_operation::{Answer, How, Op};
use ftp_tree::{Draft, Path, Tree, TreeFault};
use std::alloc::{AllocError, Allocator};

/// Puts a file with these octets.
pub(crate) fn put<A: Allocator + Copy, T: Tree<A>>(
    alloc: &A,
    tree: &mut T,
    root: &Path<A>,
    cwd: &Path<A>,
    text: &Text<A>,
    octets: &Text<A>,
    moment: Moment,
) -> Result<Answer<A>, AllocError>
    requires { IsTrue (is_path_text text.now) }
    ensures answer { (how : How) → IfOk result (λ answer. let old = here (T.table tree.old) root.now cwd.now in
        IsAnswer (T.failures tree.old) (T.failures tree.new) (due old (Op.Put text.now octets.now how) moment.seconds) old (said_of answer) (here (T.table tree.new) root.now cwd.now)) }
    ensures kept { OnErr result (IsAsBefore (T.failures tree.old) (T.failures tree.new) (T.table tree.old) (T.table tree.new)) }
{
    let Some(path) = find(alloc, cwd, text)? else {
        return Ok(tell(Refusal::BadName));
    };
    put_behind(tree, root, &path, 0, octets, moment)
}

/// Puts these octets behind those of a file, or a new file.
pub(crate) fn append<A: Allocator + Copy, T: Tree<A>>(
    alloc: &A,
    tree: &mut T,
    root: &Path<A>,
    cwd: &Path<A>,
    text: &Text<A>,
    octets: &Text<A>,
    moment: Moment,
) -> Result<Answer<A>, AllocError>
    requires { IsTrue (is_path_text text.now) }
    ensures answer { (how : How) → IfOk result (λ answer. let old = here (T.table tree.old) root.now cwd.now in
        IsAnswer (T.failures tree.old) (T.failures tree.new) (due old (Op.Append text.now octets.now how) moment.seconds) old (said_of answer) (here (T.table tree.new) root.now cwd.now)) }
    ensures kept { OnErr result (IsAsBefore (T.failures tree.old) (T.failures tree.new) (T.table tree.old) (T.table tree.new)) }
{
    let Some(path) = find(alloc, cwd, text)? else {
        return Ok(tell(Refusal::BadName));
    };
    let kept = len_at(tree, root, &path);
    put_behind(tree, root, &path, kept, octets, moment)
}

/// Puts these octets behind the first ones of a file, so many as an offset skips.
pub(crate) fn put_from<A: Allocator + Copy, T: Tree<A>>(
    alloc: &A,
    tree: &mut T,
    root: &Path<A>,
    cwd: &Path<A>,
    text: &Text<A>,
    offset: u64,
    octets: &Text<A>,
    how: How,
    moment: Moment,
) -> Result<Answer<A>, AllocError>
    requires { IsTrue (is_path_text text.now) }
    ensures answer { IfOk result (λ answer. let old = here (T.table tree.old) root.now cwd.now in
        IsAnswer (T.failures tree.old) (T.failures tree.new) (due old (Op.PutFrom text.now offset octets.now how) moment.seconds) old (said_of answer) (here (T.table tree.new) root.now cwd.now)) }
    ensures kept { OnErr result (IsAsBefore (T.failures tree.old) (T.failures tree.new) (T.table tree.old) (T.table tree.new)) }
{
    if !takes_offset(offset, how) {
        return Ok(tell(Refusal::BadParameter));
    }
    let Some(path) = find(alloc, cwd, text)? else {
        return Ok(tell(Refusal::BadName));
    };
    match place_at(tree, root, &path, how.representation.kind, offset) {
        Ok(Some(place)) => put_behind(tree, root, &path, place, octets, moment),
        Ok(None) => Ok(tell(Refusal::BadName)),
        Err(fault) => refused(fault, Refusal::BadName),
    }
}

/// Puts a file: the first octets of the one that stands there, and these behind them.
fn put_behind<A: Allocator + Copy, T: Tree<A>>(
    tree: &mut T,
    root: &Path<A>,
    path: &Path<A>,
    kept: u64,
    octets: &Text<A>,
    moment: Moment,
) -> Result<Answer<A>, AllocError>
    requires fit { fits path.now ≡ true }
    requires within { kept ≤ length (octets_or_none (under (T.table tree.old) root.now) path.now) }
    ensures answer { (cwd : Names) → IfOk result (λ answer. let old = here (T.table tree.old) root.now cwd in
        IsAnswer (T.failures tree.old) (T.failures tree.new)
        (chosen (put_refusal old path.now (kept + length octets.now)) old (put old path.now (take kept (octets_or_none (under (T.table tree.old) root.now) path.now)) octets.now moment.seconds))
        old (said_of answer) (here (T.table tree.new) root.now cwd)) }
    ensures kept { OnErr result (IsAsBefore (T.failures tree.old) (T.failures tree.new) (T.table tree.old) (T.table tree.new)) }
{
    let room = match tree.room(root, path) {
        Ok(room) => room,
        Err(fault) => return Ok(tell(name_refusal(fault))),
    };
    if !has_room(room, kept, octets) {
        return Ok(tell(Refusal::TooMuch));
    }
    let mut draft = match tree.begin(root, path, 0) {
        Ok(draft) => draft,
        Err(fault) => return refused(fault, Refusal::TooMuch),
    };
    draft.push(octets.as_slice())?;
    match tree.put(root, path, kept, draft, moment) {
        Ok(()) => Ok(Answer::Done),
        Err(fault) => refused(fault, Refusal::TooMuch),
    }
}

/// How a file's new path is refused.
fn name_refusal(fault: TreeFault) -> Refusal
    ensures { result ≡ name_refusal fault }
{
    match fault {
        TreeFault::Full => Refusal::NoRoom,
        _ => Refusal::BadName,
    }
}

/// Whether so many octets and these behind them are within the room.
fn has_room<A: Allocator + Copy>(room: u64, kept: u64, octets: &Text<A>) -> bool
    ensures { result ≡ nat_le (kept + length octets.now) room }
{
    let more = octets.as_slice().len() as u64;
    kept <= room && more <= room - kept
}
