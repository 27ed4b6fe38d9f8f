// Operations that list.
ghost use Rattle.std.specs.Prelude.{◌≡◌, ◌++◌, IsTrue, IfOk, OnErr, OnOk, map, option_map};
ghost use Rattle.std.specs.List.{filter_map, list_all};
ghost use Rattle.std.specs.Option.{option_to_list};
ghost use Rattle.ftp_path.specs.Path.{IsPathText, is_name};
ghost use Rattle.ftp_tree.specs.Tree.{children, under};
ghost use Rattle.ftp_operation.specs.Answer.{listed_of, said_of};
ghost use Rattle.ftp_direct.specs.Direct.{behind, due, entries_in, entry_at, entry_in, file_in, here, names_for};
ghost use Rattle.ftp_operation.specs.Operation.{is_optional_text};
ghost use Rattle.ftp_direct.specs.Refusal.{listing_refusal};
ghost use Rattle.ftp_direct.specs.Run.{IsAnswer, IsAsBefore};

use crate::entry::{entry_of, file_at, is_root};
use crate::looking::see_here;
use crate::nodes::{absent_fault, directory_fault, is_file, unlisted_fault};
use crate::refusal::{Refusal, find, tell};
use ftp_facts::{Entry, Text};
use ftp_operation::{Answer, How, Op};
use ftp_tree::{Path, Sight, Tree, TreeFault};
use std::alloc::{AllocError, Allocator};

/// Says the entry of what stands at a path.
pub(crate) fn facts<A: Allocator + Copy, T: Tree<A>>(
    alloc: &A,
    tree: &mut T,
    root: &Path<A>,
    cwd: &Path<A>,
    text: &Text<A>,
) -> Result<Answer<A>, AllocError>
    requires { IsTrue (is_optional_text text.now) }
    ensures answer { IfOk result (λ answer. let old = here (T.table tree.old) root.now cwd.now in
        IsAnswer (T.failures tree.old) (T.failures tree.new) (due old (Op.Facts text.now) 0) old (said_of answer) (here (T.table tree.new) root.now cwd.now)) }
    ensures kept { OnErr result (IsAsBefore (T.failures tree.old) (T.failures tree.new) (T.table tree.old) (T.table tree.new)) }
{
    let path = match see_here(alloc, tree, root, cwd, text, Sight::Path)? {
        Ok(path) => path,
        Err(why) => return Ok(tell(why)),
    };
    if absent_fault(tree, root, &path).is_some() {
        return Ok(tell(Refusal::Unavailable));
    }
    Ok(Answer::Entry(entry(alloc, tree, root, &path, path.text())?))
}

/// Lists a directory.
pub(crate) fn list<A: Allocator + Copy, T: Tree<A>>(
    alloc: &A,
    tree: &mut T,
    root: &Path<A>,
    cwd: &Path<A>,
    text: &Text<A>,
) -> Result<Answer<A>, AllocError>
    requires { IsTrue (is_optional_text text.now) }
    ensures answer { (how : How) → IfOk result (λ answer. let old = here (T.table tree.old) root.now cwd.now in
        IsAnswer (T.failures tree.old) (T.failures tree.new) (due old (Op.List text.now how) 0) old (said_of answer) (here (T.table tree.new) root.now cwd.now)) }
    ensures kept { OnErr result (IsAsBefore (T.failures tree.old) (T.failures tree.new) (T.table tree.old) (T.table tree.new)) }
{
    let path = match see_here(alloc, tree, root, cwd, text, Sight::Files)? {
        Ok(path) => path,
        Err(why) => return Ok(tell(why)),
    };
    match directory_fault(tree, root, &path) {
        None => Ok(Answer::Entries(entries(alloc, tree, root, &path)?)),
        Some(fault) => Ok(tell(listing_refusal(fault))),
    }
}

/// How a listing is refused.
pub(crate) fn listing_refusal(fault: TreeFault) -> Refusal
    ensures { result ≡ listing_refusal fault }
{
    match fault {
        TreeFault::WrongKind => Refusal::BadArgument,
        _ => Refusal::Unavailable,
    }
}

/// Names a directory's files, or a file.
pub(crate) fn names<A: Allocator + Copy, T: Tree<A>>(
    alloc: &A,
    tree: &mut T,
    root: &Path<A>,
    cwd: &Path<A>,
    text: &Text<A>,
) -> Result<Answer<A>, AllocError>
    requires { IsTrue (is_optional_text text.now) }
    ensures answer { (how : How) → IfOk result (λ answer. let old = here (T.table tree.old) root.now cwd.now in
        IsAnswer (T.failures tree.old) (T.failures tree.new) (due old (Op.Names text.now how) 0) old (said_of answer) (here (T.table tree.new) root.now cwd.now)) }
    ensures kept { OnErr result (IsAsBefore (T.failures tree.old) (T.failures tree.new) (T.table tree.old) (T.table tree.new)) }
{
    let path = match see_here(alloc, tree, root, cwd, text, Sight::Files)? {
        Ok(path) => path,
        Err(why) => return Ok(tell(why)),
    };
    if unlisted_fault(tree, root, &path, text.as_slice().is_empty()).is_some() {
        return Ok(tell(Refusal::Unavailable));
    }
    Ok(Answer::Names(pathnames(alloc, tree, root, &path, text)?))
}

/// The entry of what stands at a path, under a name.
fn entry<A: Allocator + Copy, T: Tree<A>>(
    alloc: &A,
    tree: &T,
    root: &Path<A>,
    path: &Path<A>,
    name: &[u8],
) -> Result<Entry<A>, AllocError>
    requires { IsPathText name.now }
    ensures { IfOk result (λ entry. listed_of entry ≡ entry_at (under (T.table tree.now) root.now) path.now name.now) }
{
    let file = file_at(tree, root, path);
    Entry::copy_of(*alloc, entry_of(file, is_root(path), name))
}

/// The entries of a directory.
pub(crate) fn entries<A: Allocator + Copy, T: Tree<A>>(
    alloc: &A,
    tree: &T,
    root: &Path<A>,
    path: &Path<A>,
) -> Result<Vec<Entry<A>, A>, AllocError>
    ensures { IfOk result (λ entries. map listed_of entries.items ≡ entries_in (under (T.table tree.now) root.now) path.now) }
{
    let names = names_in(alloc, tree, root, path)?;
    let mut entries = Vec::new(*alloc);
    for name in &names {
        push_some(&mut entries, entry_in(alloc, tree, root, path, name)?)?;
    }
    Ok(entries)
}

/// The entry of a name in a directory, where its path is within the limits of paths.
fn entry_in<A: Allocator + Copy, T: Tree<A>>(
    alloc: &A,
    tree: &T,
    root: &Path<A>,
    path: &Path<A>,
    name: &Text<A>,
) -> Result<Option<Entry<A>>, AllocError>
    requires { IsTrue (is_name name.now) }
    ensures { IfOk result (λ entry. option_map listed_of entry ≡ entry_in (under (T.table tree.now) root.now) path.now name.now) }
{
    let Some(child) = find(alloc, path, name)? else {
        return Ok(None);
    };
    Ok(Some(entry(alloc, tree, root, &child, name.as_slice())?))
}

/// The text of a file, or the pathnames of a directory's files.
pub(crate) fn pathnames<A: Allocator + Copy, T: Tree<A>>(
    alloc: &A,
    tree: &T,
    root: &Path<A>,
    path: &Path<A>,
    text: &Text<A>,
) -> Result<Vec<Text<A>, A>, AllocError>
    ensures { IfOk result (λ names. names.items ≡ names_for (under (T.table tree.now) root.now) path.now text.now) }
{
    if !is_file(tree, root, path) {
        return files(alloc, tree, root, path, text);
    }
    let mut names = Vec::new(*alloc);
    names.push(Text::copy_of(*alloc, text.as_slice())?)?;
    Ok(names)
}

/// The pathnames of a directory's files.
fn files<A: Allocator + Copy, T: Tree<A>>(
    alloc: &A,
    tree: &T,
    root: &Path<A>,
    path: &Path<A>,
    text: &Text<A>,
) -> Result<Vec<Text<A>, A>, AllocError>
    ensures { IfOk result (λ files. files.items ≡ filter_map (file_in (under (T.table tree.now) root.now) path.now text.now) (children (under (T.table tree.now) root.now) path.now)) }
{
    let names = names_in(alloc, tree, root, path)?;
    let mut files = Vec::new(*alloc);
    for name in &names {
        push_some(&mut files, file_in(alloc, tree, root, path, text, name)?)?;
    }
    Ok(files)
}

/// The pathname of a name in a directory, where it is a file's. `text` names the directory.
fn file_in<A: Allocator + Copy, T: Tree<A>>(
    alloc: &A,
    tree: &T,
    root: &Path<A>,
    path: &Path<A>,
    text: &Text<A>,
    name: &Text<A>,
) -> Result<Option<Text<A>>, AllocError>
    requires { IsTrue (is_name name.now) }
    ensures { IfOk result (λ file. file ≡ file_in (under (T.table tree.now) root.now) path.now text.now name.now) }
{
    let Some(child) = find(alloc, path, name)? else {
        return Ok(None);
    };
    if !is_file(tree, root, &child) {
        return Ok(None);
    }
    Ok(Some(behind(alloc, text.as_slice(), name.as_slice())?))
}

/// A name behind the text that names its directory, with a `/` between them.
fn behind<A: Allocator + Copy>(alloc: &A, text: &[u8], name: &[u8]) -> Result<Text<A>, AllocError>
    ensures { IfOk result (λ joined. joined ≡ behind text.now name.now) }
{
    let mut joined = Vec::from_slice(*alloc, text)?;
    if !text.is_empty() && !text.ends_with(b"/") {
        joined.push(b'/')?;
    }
    joined.extend_from_slice(name)?;
    Text::copy_of(*alloc, joined.as_slice())
}

/// The names in a directory, in the order of their octets.
pub(crate) fn names_in<A: Allocator + Copy, T: Tree<A>>(
    alloc: &A,
    tree: &T,
    root: &Path<A>,
    path: &Path<A>,
) -> Result<Vec<Text<A>, A>, AllocError>
    ensures names { IfOk result (λ names. names.items ≡ children (under (T.table tree.now) root.now) path.now) }
    ensures named { IfOk result (λ names. IsTrue (list_all is_name names.items)) }
{
    let mut names = Vec::new(*alloc);
    while let Some(name) = tree.nth_name(root, path, names.len()) {
        names.push(Text::copy_of(*alloc, name.octets())?)?;
    }
    Ok(names)
}

/// Puts an item behind the others, if there is one.
pub(crate) fn push_some<X: Drop, A: Allocator + Copy>(
    list: &mut Vec<X, A>,
    item: Option<X>,
) -> Result<(), AllocError>
    ensures { OnOk result (list.new.items ≡ list.old.items ++ option_to_list item) }
{
    if let Some(item) = item {
        list.push(item)?;
    }
    Ok(())
}
