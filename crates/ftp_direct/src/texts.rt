// Listings as text (RFC 959, section 4.1.3; RFC 3659, section 7).
ghost use Rattle.std.specs.Prelude.{◌≡◌, ◌++◌, IsTrue, IfOk, OnErr, OnOk, flat_map, true};
ghost use Rattle.std.specs.List.{filter_map};
ghost use Rattle.std.specs.Option.{unwrap_or};
ghost use Rattle.ftp_path.specs.Path.{fits, is_name};
ghost use Rattle.ftp_tree.specs.Map.{Dir};
ghost use Rattle.ftp_tree.specs.Tree.{children, node_at, under};
ghost use Rattle.ftp_operation.specs.Answer.{said_of};
ghost use Rattle.ftp_operation.specs.Operation.{is_optional_text};
ghost use Rattle.ftp_direct.specs.Direct.{due, here, refused_at, refused_listing, refused_there};
ghost use Rattle.ftp_direct.specs.Listing.{child_line, entry_text, lines_file, list_lines, listing_file, node_line, text_line};
ghost use Rattle.ftp_direct.specs.Run.{IsAnswer, IsAsBefore};

use crate::listings::{entries, listing_refusal, names_in, pathnames, push_some};
use crate::looking::see_here;
use crate::node_line::{last_name, put_node};
use crate::nodes::{directory_fault, unlisted_fault};
use crate::refusal::{Refusal, find, tell};
use ftp_facts::{Entry, Text, write_entry};
use ftp_operation::{Answer, How, ListVerb, Op};
use ftp_tree::{NodeKind, Path, Sight, Tree, TreeFault};
use std::alloc::{AllocError, Allocator};

/// Gives the listing of a command as text.
pub(crate) fn text<A: Allocator + Copy, T: Tree<A>>(
    alloc: &A,
    tree: &mut T,
    root: &Path<A>,
    cwd: &Path<A>,
    verb: ListVerb,
    text: &Text<A>,
) -> Result<Answer<A>, AllocError>
    requires { IsTrue (is_optional_text text.now) }
    ensures answer { (how : How) → IfOk result (λ answer. let old = here (T.table tree.old) root.now cwd.now in
        IsAnswer (T.failures tree.old) (T.failures tree.new) (due old (Op.Text verb text.now how) 0) old (said_of answer) (here (T.table tree.new) root.now cwd.now)) }
    ensures kept { OnErr result (IsAsBefore (T.failures tree.old) (T.failures tree.new) (T.table tree.old) (T.table tree.new)) }
{
    let path = match see_here(alloc, tree, root, cwd, text, Sight::Files)? {
        Ok(path) => path,
        Err(why) => return Ok(tell(why)),
    };
    match why_unlisted(tree, root, verb, text.as_slice().is_empty(), &path) {
        None => Ok(Answer::Octets(listing_file(alloc, tree, root, verb, &path, text)?)),
        Some(why) => Ok(tell(why)),
    }
}

/// Why what stands at a path is not listed by a command, which has a text or none.
fn why_unlisted<A: Allocator + Copy, T: Tree<A>>(
    tree: &T,
    root: &Path<A>,
    verb: ListVerb,
    here: bool,
    path: &Path<A>,
) -> Option<Refusal>
    requires { fits path.now ≡ true }
    ensures { result ≡ refused_at verb here path.now (node_at (under (T.table tree.now) root.now) path.now) }
{
    match verb {
        ListVerb::Mlsd => listing_why(directory_fault(tree, root, path)),
        ListVerb::List | ListVerb::Nlst => there_why(unlisted_fault(tree, root, path, here)),
    }
}

/// How the listing of a directory is refused, if it is.
fn listing_why(fault: Option<TreeFault>) -> Option<Refusal>
    ensures { result ≡ refused_listing fault }
{
    match fault {
        None => None,
        Some(fault) => Some(listing_refusal(fault)),
    }
}

/// How LIST and NLST are refused, if they are.
fn there_why(fault: Option<TreeFault>) -> Option<Refusal>
    ensures { result ≡ refused_there fault }
{
    match fault {
        None => None,
        Some(_) => Some(Refusal::Unavailable),
    }
}

/// The file that a command gives of what stands at a path, which a text names.
fn listing_file<A: Allocator + Copy, T: Tree<A>>(
    alloc: &A,
    tree: &T,
    root: &Path<A>,
    verb: ListVerb,
    path: &Path<A>,
    text: &Text<A>,
) -> Result<Text<A>, AllocError>
    ensures { IfOk result (λ file. file ≡ listing_file verb (under (T.table tree.now) root.now) path.now text.now) }
{
    match verb {
        ListVerb::Mlsd => {
            let entries = entries(alloc, tree, root, path)?;
            Ok(entries_file(alloc, entries.as_slice())?)
        }
        ListVerb::List => {
            let lines = list_lines(alloc, tree, root, path)?;
            Ok(file_of(alloc, lines.as_slice())?)
        }
        ListVerb::Nlst => {
            let names = pathnames(alloc, tree, root, path, text)?;
            Ok(file_of(alloc, names.as_slice())?)
        }
    }
}

/// Entries as a file: a line each, with LF at its end.
fn entries_file<A: Allocator + Copy>(alloc: &A, entries: &[Entry<A>]) -> Result<Text<A>, AllocError>
    ensures { IfOk result (λ file. file ≡ flat_map entry_text entries.now) }
{
    let mut octets = Vec::new(*alloc);
    put_entries(entries, &mut octets)?;
    Ok(Text::from_vec(octets))
}

fn put_entries<A: Allocator + Copy>(
    entries: &[Entry<A>],
    out: &mut Vec<u8, A>,
) -> Result<(), AllocError>
    ensures { OnOk result (out.new.items ≡ out.old.items ++ flat_map entry_text entries.now) }
{
    for entry in entries {
        put_entry(entry, out)?;
    }
    Ok(())
}

#[tactic(auto, using(crate::proofs::NodeLineLemmas::written_line))]
fn put_entry<A: Allocator + Copy>(entry: &Entry<A>, out: &mut Vec<u8, A>) -> Result<(), AllocError>
    ensures { OnOk result (out.new.items ≡ out.old.items ++ entry_text entry.now) }
{
    if write_entry(entry, out).is_err() {
        return Err(AllocError);
    }
    out.push(b'\n')?;
    Ok(())
}

/// Lines as a file: each with LF at its end.
fn file_of<A: Allocator + Copy>(alloc: &A, lines: &[Text<A>]) -> Result<Text<A>, AllocError>
    ensures { IfOk result (λ file. file ≡ lines_file lines.now) }
{
    let mut octets = Vec::new(*alloc);
    put_lines(lines, &mut octets)?;
    Ok(Text::from_vec(octets))
}

fn put_lines<A: Allocator + Copy>(lines: &[Text<A>], out: &mut Vec<u8, A>) -> Result<(), AllocError>
    ensures { OnOk result (out.new.items ≡ out.old.items ++ flat_map text_line lines.now) }
{
    for line in lines {
        put_line(line.as_slice(), out)?;
    }
    Ok(())
}

fn put_line<A: Allocator + Copy>(line: &[u8], out: &mut Vec<u8, A>) -> Result<(), AllocError>
    ensures { OnOk result (out.new.items ≡ out.old.items ++ text_line line.now) }
{
    out.extend_from_slice(line)?;
    out.push(b'\n')?;
    Ok(())
}

/// The lines of LIST for what stands at a path.
#[tactic(auto, using(crate::proofs::NodeLineLemmas::file_lines, crate::proofs::NodeLineLemmas::dir_lines, crate::proofs::NodeLineLemmas::none_lines))]
fn list_lines<A: Allocator + Copy, T: Tree<A>>(
    alloc: &A,
    tree: &T,
    root: &Path<A>,
    path: &Path<A>,
) -> Result<Vec<Text<A>, A>, AllocError>
    ensures { IfOk result (λ lines. lines.items ≡ list_lines (under (T.table tree.now) root.now) path.now) }
{
    match tree.kind(root, path) {
        Some(NodeKind::File) => {
            let mut lines = Vec::new(*alloc);
            lines.push(node_line(alloc, tree, root, path, last_name(path))?)?;
            Ok(lines)
        }
        Some(NodeKind::Dir) => {
            let lines = child_lines(alloc, tree, root, path)?;
            Ok(lines)
        }
        None => {
            let lines = Vec::new(*alloc);
            Ok(lines)
        }
    }
}

/// The lines of LIST for what stands in a directory.
fn child_lines<A: Allocator + Copy, T: Tree<A>>(
    alloc: &A,
    tree: &T,
    root: &Path<A>,
    path: &Path<A>,
) -> Result<Vec<Text<A>, A>, AllocError>
    ensures { IfOk result (λ lines. lines.items ≡ filter_map (child_line (under (T.table tree.now) root.now) path.now) (children (under (T.table tree.now) root.now) path.now)) }
{
    let names = names_in(alloc, tree, root, path)?;
    let mut lines = Vec::new(*alloc);
    for name in &names {
        push_some(&mut lines, child_line(alloc, tree, root, path, name)?)?;
    }
    Ok(lines)
}

/// The line of LIST for a name in a directory, where its path is within the limits of paths.
fn child_line<A: Allocator + Copy, T: Tree<A>>(
    alloc: &A,
    tree: &T,
    root: &Path<A>,
    path: &Path<A>,
    name: &Text<A>,
) -> Result<Option<Text<A>>, AllocError>
    requires { IsTrue (is_name name.now) }
    ensures { IfOk result (λ line. line ≡ child_line (under (T.table tree.now) root.now) path.now name.now) }
{
    let Some(child) = find(alloc, path, name)? else {
        return Ok(None);
    };
    Ok(Some(node_line(alloc, tree, root, &child, name.as_slice())?))
}

/// The line of LIST for what stands at a path, under a name.
fn node_line<A: Allocator + Copy, T: Tree<A>>(
    alloc: &A,
    tree: &T,
    root: &Path<A>,
    path: &Path<A>,
    name: &[u8],
) -> Result<Text<A>, AllocError>
    ensures { IfOk result (λ line. line ≡ node_line name.now (unwrap_or (node_at (under (T.table tree.now) root.now) path.now) Dir)) }
{
    let mut line = Vec::new(*alloc);
    put_node(tree, root, path, name, &mut line)?;
    Ok(Text::from_vec(line))
}
