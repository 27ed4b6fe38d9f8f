// What a script begins with: a new tree, and who may log in.
ghost use Rattle.std.specs.Prelude.{◌≡◌, [], true, IfOk};
ghost use Rattle.tool_pair.specs.Begun.{begun};
ghost use Rattle.ftp_path.specs.Path.{resolved};
ghost use Rattle.ftp_tree.specs.Tree.{made};
ghost use Rattle.tool_pair.specs.Making.{own_accounts, own_beginning, own_host};

use crate::beginning::Beginning;
use ftp_endpoint::Host;
use ftp_facts::Text;
use ftp_operation::{Account, Login, Rights};
use ftp_path::{Path, is_path_text};
use ftp_secret::Secret;
use ftp_tree::Tree;
use ftp_tree_memory::MemTree;
use std::alloc::{AllocError, Allocator};
use std::io;
use std::io::{Error, ErrorKind};

/// The host of both ends.
const HERE: Host = Host::V4([127, 0, 0, 1]);

/// A login at a new tree, where `guest` and `anonymous` may log in; with `roots` each at a root of its own, which is made.
pub fn beginning_of<A: Allocator + Copy>(
    alloc: A,
    login: Login<A>,
    roots: bool,
) -> io::Result<Beginning<A, MemTree<A>>>
    ensures { IfOk result (λ of.
        begun of.login.user of.login.pass of.accounts of.tree of.near_host of.far_host ≡ own_beginning roots (login.user, login.pass)) }
{
    if roots {
        return with_roots(alloc, login);
    }
    let tree = MemTree::new(alloc);
    begin_at(alloc, login, tree, Path::root(alloc), Path::root(alloc))
}

/// The same with a root for each.
fn with_roots<A: Allocator + Copy>(
    alloc: A,
    login: Login<A>,
) -> io::Result<Beginning<A, MemTree<A>>>
    ensures { IfOk result (λ of.
        begun of.login.user of.login.pass of.accounts of.tree of.near_host of.far_host ≡ own_beginning true (login.user, login.pass)) }
{
    let mut tree = MemTree::new(alloc);
    let guest = made(alloc, &mut tree, b"/guest")?;
    let anonymous = made(alloc, &mut tree, b"/pub")?;
    begin_at(alloc, login, tree, guest, anonymous)
}

/// A login at a tree, where `guest` and `anonymous` are at these paths.
fn begin_at<A: Allocator + Copy>(
    alloc: A,
    login: Login<A>,
    tree: MemTree<A>,
    guest: Path<A>,
    anonymous: Path<A>,
) -> io::Result<Beginning<A, MemTree<A>>>
    ensures { IfOk result (λ of.
        begun of.login.user of.login.pass of.accounts of.tree of.near_host of.far_host
        ≡ begun login.user login.pass (own_accounts guest anonymous) tree own_host own_host) }
{
    let list = list_of(alloc, guest, anonymous)?;
    match Beginning::new(alloc, login, list, tree, HERE, HERE) {
        Ok(of) => Ok(of),
        Err(_) => Err(Error::new(ErrorKind::Other, "nothing begins so")),
    }
}

/// Makes a directory of the root.
fn made<A: Allocator + Copy>(
    alloc: A,
    tree: &mut MemTree<A>,
    text: &[u8],
) -> Result<Path<A>, AllocError>
    ensures path { IfOk result (λ path. path ≡ resolved [] text.now) }
    ensures tree { IfOk result (λ path. tree.new ≡ made tree.old path) }
{
    let root = Path::root(alloc);
    if !is_path_text(text) {
        return Err(AllocError);
    }
    let Ok(path) = root.resolve(alloc, text) else {
        return Err(AllocError);
    };
    match tree.make_dir(&root, &path) {
        Ok(()) => Ok(path),
        Err(_) => Err(AllocError),
    }
}

/// `guest` with the password `secret`, and `anonymous` without one, at these roots (own choice).
fn list_of<A: Allocator + Copy>(
    alloc: A,
    guest: Path<A>,
    anonymous: Path<A>,
) -> Result<Vec<Account<Text<A>, Path<A>>, A>, AllocError>
    ensures { IfOk result (λ list. list.items ≡ own_accounts guest anonymous) }
{
    let mut list = Vec::new(alloc);
    list.push(Account {
        user: Text::copy_of(alloc, b"guest")?,
        pass: Some(Secret::plain(b"secret")),
        root: guest,
        rights: Rights::all(),
    })?;
    list.push(Account {
        user: Text::copy_of(alloc, b"anonymous")?,
        pass: None,
        root: anonymous,
        rights: Rights::all(),
    })?;
    Ok(list)
}
