// What an account may not do, as the definitions ask for it.
ghost use Rattle.std.specs.Prelude.{◌≡◌, ◌&&◌, IsTrue, IfOk, OnErr, true};
ghost use Rattle.ftp_path.specs.Path.{fits};
ghost use Rattle.ftp_tree.specs.Change.{NoStray};
ghost use Rattle.ftp_tree.specs.Tree.{node_at, under};
ghost use Rattle.ftp_operation.specs.Operation.{can_be_sent, is_path_text};
ghost use Rattle.ftp_operation.specs.Rights.{may_put};
ghost use Rattle.ftp_direct.specs.Direct.{barred, barred_put, is_file, named, standing};
ghost use Rattle.ftp_direct.specs.Look.{Bars};
ghost use Rattle.ftp_direct.specs.Rights.{barring};

use crate::looking::see;
use crate::nodes::is_file;
use crate::offsets::takes_offset;
use crate::refusal::Refusal;
use ftp_facts::Text;
use ftp_operation::{Op, Rights};
use ftp_tree::{Path, Sight, Tree};
use std::alloc::{AllocError, Allocator};

/// Whether an account with these rights may put a file at a path.
pub fn may_put_at<A: Allocator + Copy, T: Tree<A>>(
    tree: &T,
    root: &Path<A>,
    path: &Path<A>,
    rights: Rights,
) -> bool
    requires { fits path.now ≡ true }
    ensures { result ≡ may_put rights (fits path.now && is_file (node_at (under (T.table tree.now) root.now) path.now)) }
{
    rights.may_put(is_file(tree, root, path))
}

/// The refusal of what an account may not do.
fn barred(may: bool) -> Option<Refusal>
    ensures { result ≡ barred may }
{
    if may { None } else { Some(Refusal::NotAllowed) }
}

/// Why an account may not put a file where a text leads, after a look there; or a local fault where the device failed at the look.
fn barred_put<A: Allocator + Copy, T: Tree<A>>(
    alloc: &A,
    tree: &mut T,
    root: &Path<A>,
    cwd: &Path<A>,
    rights: Rights,
    text: &Text<A>,
) -> Result<Option<Refusal>, AllocError>
    requires { IsTrue (is_path_text text.now) }
    ensures why { IfOk result (λ why. let state = standing (T.table tree.new) root.now cwd.now true rights in
        Bars (barred_put state (named state text.now)) why (T.failures tree.old) (T.failures tree.new)) }
    ensures same { NoStray (T.failures tree.old) (T.failures tree.new) → T.table tree.new ≡ T.table tree.old }
    ensures kept { OnErr result (T.failures tree.new ≡ T.failures tree.old) }
{
    match see(alloc, tree, root, cwd, text, Sight::Path, Refusal::BadName)? {
        Ok(path) => Ok(barred(may_put_at(tree, root, &path, rights))),
        Err(Refusal::LocalFault) => Ok(Some(Refusal::LocalFault)),
        Err(_) => Ok(barred(rights.may_put(false))),
    }
}

/// Why an account may not do an operation that can be sent. Where that is asked of the map, the path is looked at first, and a local fault is told
/// where the device failed at the look.
pub(crate) fn barring<A: Allocator + Copy, T: Tree<A>>(
    alloc: &A,
    tree: &mut T,
    root: &Path<A>,
    cwd: &Path<A>,
    rights: Rights,
    op: &Op<Text<A>>,
) -> Result<Option<Refusal>, AllocError>
    requires { IsTrue (can_be_sent op.now) }
    ensures why { IfOk result (λ why. let state = standing (T.table tree.new) root.now cwd.now true rights in
        Bars (barring state op.now) why (T.failures tree.old) (T.failures tree.new)) }
    ensures same { NoStray (T.failures tree.old) (T.failures tree.new) → T.table tree.new ≡ T.table tree.old }
    ensures kept { OnErr result (T.failures tree.new ≡ T.failures tree.old) }
{
    match op {
        Op::MakeDir(_) => Ok(barred(rights.make_dir)),
        Op::RemoveDir(_) => Ok(barred(rights.remove_dir)),
        Op::Delete(_) => Ok(barred(rights.delete)),
        Op::Rename(_, _) => Ok(barred(rights.rename)),
        Op::Put(text, _, _) => barred_put(alloc, tree, root, cwd, rights, text),
        Op::Append(text, _, _) => barred_put(alloc, tree, root, cwd, rights, text),
        Op::PutFrom(text, offset, _, how) => {
            if !takes_offset(*offset, *how) {
                return Ok(None);
            }
            barred_put(alloc, tree, root, cwd, rights, text)
        }
        Op::Where | Op::ChangeDir(_) | Op::Up => Ok(None),
        Op::Get(_, _) | Op::GetFrom(_, _, _) | Op::Peek(_, _, _) => Ok(None),
        Op::Size(_, _) | Op::Modified(_) | Op::Facts(_) => Ok(None),
        Op::List(_, _) | Op::Names(_, _) | Op::Text(_, _, _) => Ok(None),
    }
}
