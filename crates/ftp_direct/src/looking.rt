// A path that a text names, looked at before anything of the tree is asked there.
ghost use Rattle.std.specs.Prelude.{◌≡◌, IsTrue, IfOk, OnErr};
ghost use Rattle.ftp_path.specs.Path.{resolved};
ghost use Rattle.ftp_tree.specs.Change.{NoStray};
ghost use Rattle.ftp_direct.specs.Direct.{place};
ghost use Rattle.ftp_operation.specs.Operation.{is_optional_text, is_path_text};
ghost use Rattle.ftp_direct.specs.Look.{LooksAtPath};

use crate::refusal::{Refusal, find};
use ftp_facts::Text;
use ftp_tree::{Path, Sight, Tree};
use std::alloc::{AllocError, Allocator};

/// The path that a text names, read from the current directory, after a look at it; or the refusal to tell: `long` of a path past the limits of
/// paths, and a local fault where the device failed at the look.
pub(crate) fn see<A: Allocator + Copy, T: Tree<A>>(
    alloc: &A,
    tree: &mut T,
    root: &Path<A>,
    cwd: &Path<A>,
    text: &Text<A>,
    sight: Sight,
    long: Refusal,
) -> Result<Result<Path<A>, Refusal>, AllocError>
    requires { IsTrue (is_path_text text.now) }
    ensures seen { IfOk result (λ seen. LooksAtPath (resolved cwd.now text.now) long seen (T.failures tree.old) (T.failures tree.new)) }
    ensures same { NoStray (T.failures tree.old) (T.failures tree.new) → T.table tree.new ≡ T.table tree.old }
    ensures kept { OnErr result (T.failures tree.new ≡ T.failures tree.old) }
{
    let Some(path) = find(alloc, cwd, text)? else {
        return Ok(Err(long));
    };
    match tree.look(root, &path, sight) {
        Ok(_) => Ok(Ok(path)),
        Err(_) => Ok(Err(Refusal::LocalFault)),
    }
}

/// The same of a text that may be left out, which names the current directory then.
pub(crate) fn see_here<A: Allocator + Copy, T: Tree<A>>(
    alloc: &A,
    tree: &mut T,
    root: &Path<A>,
    cwd: &Path<A>,
    text: &Text<A>,
    sight: Sight,
) -> Result<Result<Path<A>, Refusal>, AllocError>
    requires { IsTrue (is_optional_text text.now) }
    ensures seen { IfOk result (λ seen. LooksAtPath (place cwd.now text.now) Refusal.Unavailable seen (T.failures tree.old) (T.failures tree.new)) }
    ensures same { NoStray (T.failures tree.old) (T.failures tree.new) → T.table tree.new ≡ T.table tree.old }
    ensures kept { OnErr result (T.failures tree.new ≡ T.failures tree.old) }
{
    if !text.as_slice().is_empty() {
        return see(alloc, tree, root, cwd, text, sight, Refusal::Unavailable);
    }
    let here = Text::copy_of(*alloc, b".")?;
    see(alloc, tree, root, cwd, &here, sight, Refusal::Unavailable)
}
