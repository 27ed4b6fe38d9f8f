// Operations on the current directory, on directories and on names.
ghost use Rattle.std.specs.Prelude.{◌≡◌, IsTrue, IfOk, IfErr, OnErr, OnOk, is_some, true};
ghost use Rattle.ftp_operation.specs.Answer.{said_of};
ghost use Rattle.ftp_path.specs.Path.{Names, fits, is_within};
ghost use Rattle.ftp_tree.specs.Change.{IsDone, IsRefused};
ghost use Rattle.ftp_tree.specs.Tree.{Table, freed, moved, or_else, rename_refusal, source_refusal, takes_place, under, with_part};
ghost use Rattle.ftp_direct.specs.Direct.{busy_refusal, due, here, here_onto};
ghost use Rattle.ftp_operation.specs.Operation.{is_path_text};
ghost use Rattle.ftp_direct.specs.Run.{Gives, IsAnswer, IsAsBefore};

use crate::looking::see;
use crate::nodes::{absent_fault, directory_fault, is_file};
use crate::refusal::{Refusal, refused, tell};
use ftp_facts::Text;
use ftp_operation::{Answer, Op};
use ftp_path::key::is_within;
use ftp_tree::{Path, Sight, Tree, TreeFault};
use std::alloc::{AllocError, Allocator};

/// Says which directory is the current one.
pub(crate) fn say_where<A: Allocator + Copy>(
    alloc: &A,
    cwd: &Path<A>,
) -> Result<Answer<A>, AllocError>
    ensures { (table : Table) (root : Names) → IfOk result (λ answer. let old = here table root cwd.now in Gives (due old Op.Where 0) (said_of answer) old) }
{
    Ok(Answer::Path(Text::copy_of(*alloc, cwd.text())?))
}

/// Goes to a directory.
pub(crate) fn change_dir<A: Allocator + Copy, T: Tree<A>>(
    alloc: &A,
    tree: &mut T,
    root: &Path<A>,
    cwd: &mut Path<A>,
    text: &Text<A>,
) -> Result<Answer<A>, AllocError>
    requires { IsTrue (is_path_text text.now) }
    ensures answer { IfOk result (λ answer. let old = here (T.table tree.old) root.now cwd.old in
        IsAnswer (T.failures tree.old) (T.failures tree.new) (due old (Op.ChangeDir text.now) 0) old (said_of answer) (here (T.table tree.new) root.now cwd.new)) }
    ensures kept { OnErr result (IsAsBefore (T.failures tree.old) (T.failures tree.new) (T.table tree.old) (T.table tree.new)) }
    ensures stays { OnErr result (cwd.new ≡ cwd.old) }
{
    let path = match see(
        alloc,
        tree,
        root,
        cwd,
        text,
        Sight::Path,
        Refusal::Unavailable,
    )? {
        Ok(path) => path,
        Err(why) => return Ok(tell(why)),
    };
    if directory_fault(tree, root, &path).is_some() {
        return Ok(tell(Refusal::Unavailable));
    }
    *cwd = path;
    Ok(Answer::Done)
}

/// Goes to the parent of the current directory; from the root nowhere.
#[tactic(auto, using(crate::proofs::ResolveLemmas::up_parent))]
pub(crate) fn go_up<A: Allocator + Copy>(
    alloc: &A,
    cwd: &mut Path<A>,
) -> Result<Answer<A>, AllocError>
    ensures answer { (table : Table) (root : Names) → IfOk result (λ answer. Gives (due (here table root cwd.old) Op.Up 0) (said_of answer) (here table root cwd.new)) }
    ensures kept { OnErr result (cwd.new ≡ cwd.old) }
{
    match cwd.resolve(*alloc, b"..") {
        Ok(path) => {
            *cwd = path;
            Ok(Answer::Done)
        }
        Err(_) => Err(AllocError),
    }
}

/// Makes a directory, and says its path.
pub(crate) fn make_dir<A: Allocator + Copy, T: Tree<A>>(
    alloc: &A,
    tree: &mut T,
    root: &Path<A>,
    cwd: &Path<A>,
    text: &Text<A>,
) -> Result<Answer<A>, AllocError>
    requires { IsTrue (is_path_text text.now) }
    ensures answer { IfOk result (λ answer. let old = here (T.table tree.old) root.now cwd.now in
        IsAnswer (T.failures tree.old) (T.failures tree.new) (due old (Op.MakeDir text.now) 0) old (said_of answer) (here (T.table tree.new) root.now cwd.now)) }
    ensures kept { OnErr result (IsAsBefore (T.failures tree.old) (T.failures tree.new) (T.table tree.old) (T.table tree.new)) }
{
    let path = match see(
        alloc,
        tree,
        root,
        cwd,
        text,
        Sight::Path,
        Refusal::Unavailable,
    )? {
        Ok(path) => path,
        Err(why) => return Ok(tell(why)),
    };
    let made = Text::copy_of(*alloc, path.text())?;
    match tree.make_dir(root, &path) {
        Ok(()) => Ok(Answer::Path(made)),
        Err(fault) => refused(fault, Refusal::Unavailable),
    }
}

/// Removes a directory.
pub(crate) fn remove_dir<A: Allocator + Copy, T: Tree<A>>(
    alloc: &A,
    tree: &mut T,
    root: &Path<A>,
    cwd: &Path<A>,
    text: &Text<A>,
) -> Result<Answer<A>, AllocError>
    requires { IsTrue (is_path_text text.now) }
    ensures answer { IfOk result (λ answer. let old = here (T.table tree.old) root.now cwd.now in
        IsAnswer (T.failures tree.old) (T.failures tree.new) (due old (Op.RemoveDir text.now) 0) old (said_of answer) (here (T.table tree.new) root.now cwd.now)) }
    ensures kept { OnErr result (IsAsBefore (T.failures tree.old) (T.failures tree.new) (T.table tree.old) (T.table tree.new)) }
{
    let path = match see(
        alloc,
        tree,
        root,
        cwd,
        text,
        Sight::Path,
        Refusal::Unavailable,
    )? {
        Ok(path) => path,
        Err(why) => return Ok(tell(why)),
    };
    if is_busy(&path, cwd) {
        return Ok(tell(Refusal::Unavailable));
    }
    match tree.remove_dir(root, &path) {
        Ok(()) => Ok(Answer::Done),
        Err(fault) => refused(fault, Refusal::Unavailable),
    }
}

/// Deletes a file.
pub(crate) fn delete<A: Allocator + Copy, T: Tree<A>>(
    alloc: &A,
    tree: &mut T,
    root: &Path<A>,
    cwd: &Path<A>,
    text: &Text<A>,
) -> Result<Answer<A>, AllocError>
    requires { IsTrue (is_path_text text.now) }
    ensures answer { IfOk result (λ answer. let old = here (T.table tree.old) root.now cwd.now in
        IsAnswer (T.failures tree.old) (T.failures tree.new) (due old (Op.Delete text.now) 0) old (said_of answer) (here (T.table tree.new) root.now cwd.now)) }
    ensures kept { OnErr result (IsAsBefore (T.failures tree.old) (T.failures tree.new) (T.table tree.old) (T.table tree.new)) }
{
    let path = match see(
        alloc,
        tree,
        root,
        cwd,
        text,
        Sight::Path,
        Refusal::Unavailable,
    )? {
        Ok(path) => path,
        Err(why) => return Ok(tell(why)),
    };
    match tree.delete(root, &path) {
        Ok(()) => Ok(Answer::Done),
        Err(fault) => refused(fault, Refusal::Unavailable),
    }
}

/// Moves what stands at a path, with all below it, for an account that may rename onto files or not.
pub(crate) fn rename<A: Allocator + Copy, T: Tree<A>>(
    alloc: &A,
    tree: &mut T,
    root: &Path<A>,
    cwd: &Path<A>,
    onto: bool,
    from: &Text<A>,
    to: &Text<A>,
) -> Result<Answer<A>, AllocError>
    requires old { IsTrue (is_path_text from.now) }
    requires new { IsTrue (is_path_text to.now) }
    ensures answer { IfOk result (λ answer. let old = here_onto (T.table tree.old) root.now cwd.now onto in
        IsAnswer (T.failures tree.old) (T.failures tree.new) (due old (Op.Rename from.now to.now) 0) old (said_of answer) (here_onto (T.table tree.new) root.now cwd.now onto)) }
    ensures kept { OnErr result (IsAsBefore (T.failures tree.old) (T.failures tree.new) (T.table tree.old) (T.table tree.new)) }
{
    let source = match see(
        alloc,
        tree,
        root,
        cwd,
        from,
        Sight::Path,
        Refusal::Unavailable,
    )? {
        Ok(source) => source,
        Err(why) => return Ok(tell(why)),
    };
    if is_held(tree, root, &source, cwd) {
        return Ok(tell(Refusal::Unavailable));
    }
    let target = match see(alloc, tree, root, cwd, to, Sight::Path, Refusal::BadName)? {
        Ok(target) => target,
        Err(why) => return Ok(tell(why)),
    };
    match move_to(tree, onto, root, &source, &target) {
        Ok(()) => Ok(Answer::Done),
        Err(fault) => refused(fault, Refusal::BadName),
    }
}

/// Moves what stands at a path, with all below it (RFC 959, section 4.1.3); where `onto` says so, a file also into the place of another.
///
/// Refused: as `Tree::rename` says, of the map without the file whose place is taken.
pub fn move_to<A: Allocator + Copy, T: Tree<A>>(
    tree: &mut T,
    onto: bool,
    root: &Path<A>,
    from: &Path<A>,
    to: &Path<A>,
) -> Result<(), TreeFault>
    requires { fits to.now ≡ true }
    // Witness: `a_file_is_renamed_onto_another_without_the_right.edit`.
    ensures done { OnOk result (let seen = freed onto (under (T.table tree.old) root.now) from.now to.now in
        IsDone (rename_refusal seen from.now to.now) (with_part (T.table tree.old) root.now (moved seen from.now to.now)) (T.table tree.new) (T.failures tree.old) (T.failures tree.new)) }
    ensures refused { IfErr result (λ fault. let seen = freed onto (under (T.table tree.old) root.now) from.now to.now in
        IsRefused (rename_refusal seen from.now to.now) fault (T.table tree.old) (T.table tree.new) (T.failures tree.old) (T.failures tree.new)) }
{
    if onto && takes_place(tree, root, from, to) {
        return tree.rename_onto(root, from, to);
    }
    tree.rename(root, from, to)
}

/// Whether a file may take the place of another: files stand at both paths, and the second is not the first.
fn takes_place<A: Allocator + Copy, T: Tree<A>>(
    tree: &T,
    root: &Path<A>,
    from: &Path<A>,
    to: &Path<A>,
) -> bool
    ensures { result ≡ takes_place (under (T.table tree.now) root.now) from.now to.now }
{
    if !is_file(tree, root, from) {
        return false;
    }
    if !is_file(tree, root, to) {
        return false;
    }
    !is_within(from.key(), to.key())
}

/// Whether nothing can be moved from a path: nothing stands there, or it is in use.
pub fn is_held<A: Allocator + Copy, T: Tree<A>>(
    tree: &T,
    root: &Path<A>,
    path: &Path<A>,
    cwd: &Path<A>,
) -> bool
    ensures { is_some (or_else (source_refusal (under (T.table tree.now) root.now) path.now) (busy_refusal (here (T.table tree.now) root.now cwd.now) path.now)) ≡ result }
{
    absent_fault(tree, root, path).is_some() || is_busy(path, cwd)
}

/// Whether the current directory is at or below a path.
pub fn is_busy<A: Allocator + Copy>(path: &Path<A>, cwd: &Path<A>) -> bool
    ensures { result ≡ is_within path.now cwd.now }
{
    is_within(path.key(), cwd.key())
}
