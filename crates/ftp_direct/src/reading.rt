// Operations that get a file's octets, or ask for its moment.
ghost use Rattle.std.specs.Prelude.{◌≡◌, ◌⊎◌, ◌≤◌, IfErr, IfOk, IsTrue, OnErr, drop, length, min, take};
ghost use Rattle.ftp_path.specs.Path.{Names};
ghost use Rattle.ftp_tree.specs.Change.{NoStray, Tells};
ghost use Rattle.ftp_tree.specs.Tree.{octets_or_none, under};
ghost use Rattle.ftp_operation.specs.Answer.{Octets, said_of};
ghost use Rattle.ftp_direct.specs.Direct.{due, here};
ghost use Rattle.ftp_operation.specs.Operation.{is_path_text};
ghost use Rattle.ftp_direct.specs.Look.{SeesFile};
ghost use Rattle.ftp_direct.specs.Run.{IsAnswer, IsAsBefore};

use crate::looking::see;
use crate::nodes::{file_fault, len_at};
use crate::offsets::{PIECE, place_at, takes_offset};
use crate::opening::open_there;
use crate::refusal::{Refusal, refused, tell};
use ftp_facts::Text;
use ftp_operation::{Answer, How, Op};
use ftp_tree::{Path, Sight, Tree, TreeFault};
use std::alloc::{AllocError, Allocator};

/// Gets a file's octets.
pub(crate) fn get<A: Allocator + Copy, T: Tree<A>>(
    alloc: &A,
    tree: &mut T,
    root: &Path<A>,
    cwd: &Path<A>,
    text: &Text<A>,
) -> Result<Answer<A>, AllocError>
    requires { IsTrue (is_path_text text.now) }
    ensures answer { (how : How) → IfOk result (λ answer. let old = here (T.table tree.old) root.now cwd.now in
        IsAnswer (T.failures tree.old) (T.failures tree.new) (due old (Op.Get text.now how) 0) old (said_of answer) (here (T.table tree.new) root.now cwd.now)) }
    ensures kept { OnErr result (IsAsBefore (T.failures tree.old) (T.failures tree.new) (T.table tree.old) (T.table tree.new)) }
{
    let path = match find_file(alloc, tree, root, cwd, text)? {
        Ok(path) => path,
        Err(why) => return Ok(tell(why)),
    };
    let end = len_at(tree, root, &path);
    say_octets(alloc, tree, root, &path, 0, end)
}

/// Gets a file's octets behind those that an offset skips.
pub(crate) fn get_from<A: Allocator + Copy, T: Tree<A>>(
    alloc: &A,
    tree: &mut T,
    root: &Path<A>,
    cwd: &Path<A>,
    text: &Text<A>,
    offset: u64,
    how: How,
) -> Result<Answer<A>, AllocError>
    requires { IsTrue (is_path_text text.now) }
    ensures answer { IfOk result (λ answer. let old = here (T.table tree.old) root.now cwd.now in
        IsAnswer (T.failures tree.old) (T.failures tree.new) (due old (Op.GetFrom text.now offset how) 0) old (said_of answer) (here (T.table tree.new) root.now cwd.now)) }
    ensures kept { OnErr result (IsAsBefore (T.failures tree.old) (T.failures tree.new) (T.table tree.old) (T.table tree.new)) }
{
    if !takes_offset(offset, how) {
        return Ok(tell(Refusal::BadParameter));
    }
    let path = match find_file(alloc, tree, root, cwd, text)? {
        Ok(path) => path,
        Err(why) => return Ok(tell(why)),
    };
    match place_at(tree, root, &path, how.representation.kind, offset) {
        Ok(Some(place)) => {
            let end = len_at(tree, root, &path);
            say_octets(alloc, tree, root, &path, place, end)
        }
        Ok(None) => Ok(tell(Refusal::Unavailable)),
        Err(fault) => refused(fault, Refusal::Unavailable),
    }
}

/// Gets a file's first octets, at most so many.
pub(crate) fn peek<A: Allocator + Copy, T: Tree<A>>(
    alloc: &A,
    tree: &mut T,
    root: &Path<A>,
    cwd: &Path<A>,
    text: &Text<A>,
    count: u64,
) -> Result<Answer<A>, AllocError>
    requires { IsTrue (is_path_text text.now) }
    ensures answer { (how : How) → IfOk result (λ answer. let old = here (T.table tree.old) root.now cwd.now in
        IsAnswer (T.failures tree.old) (T.failures tree.new) (due old (Op.Peek text.now count how) 0) old (said_of answer) (here (T.table tree.new) root.now cwd.now)) }
    ensures kept { OnErr result (IsAsBefore (T.failures tree.old) (T.failures tree.new) (T.table tree.old) (T.table tree.new)) }
{
    let path = match find_file(alloc, tree, root, cwd, text)? {
        Ok(path) => path,
        Err(why) => return Ok(tell(why)),
    };
    let end = lesser(count, len_at(tree, root, &path));
    say_octets(alloc, tree, root, &path, 0, end)
}

/// Says when a file was installed.
pub(crate) fn modified<A: Allocator + Copy, T: Tree<A>>(
    alloc: &A,
    tree: &mut T,
    root: &Path<A>,
    cwd: &Path<A>,
    text: &Text<A>,
) -> Result<Answer<A>, AllocError>
    requires { IsTrue (is_path_text text.now) }
    ensures answer { IfOk result (λ answer. let old = here (T.table tree.old) root.now cwd.now in
        IsAnswer (T.failures tree.old) (T.failures tree.new) (due old (Op.Modified text.now) 0) old (said_of answer) (here (T.table tree.new) root.now cwd.now)) }
    ensures kept { OnErr result (IsAsBefore (T.failures tree.old) (T.failures tree.new) (T.table tree.old) (T.table tree.new)) }
{
    let path = match see(
        alloc,
        tree,
        root,
        cwd,
        text,
        Sight::Path,
        Refusal::Unavailable,
    )? {
        Ok(path) => path,
        Err(why) => return Ok(tell(why)),
    };
    match tree.stamp(root, &path) {
        Some(moment) => Ok(Answer::Stamp(moment)),
        None => Ok(tell(Refusal::Unavailable)),
    }
}

/// The path of the file that a text names, after a look at it; or the refusal to tell where no file stands there or the device failed.
pub(crate) fn find_file<A: Allocator + Copy, T: Tree<A>>(
    alloc: &A,
    tree: &mut T,
    root: &Path<A>,
    cwd: &Path<A>,
    text: &Text<A>,
) -> Result<Result<Path<A>, Refusal>, AllocError>
    requires { IsTrue (is_path_text text.now) }
    ensures seen { IfOk result (λ seen. SeesFile (here (T.table tree.new) root.now cwd.now) text.now seen (T.failures tree.old) (T.failures tree.new)) }
    ensures same { NoStray (T.failures tree.old) (T.failures tree.new) → T.table tree.new ≡ T.table tree.old }
    ensures kept { OnErr result (T.failures tree.new ≡ T.failures tree.old) }
{
    let path = match see(
        alloc,
        tree,
        root,
        cwd,
        text,
        Sight::Path,
        Refusal::Unavailable,
    )? {
        Ok(path) => path,
        Err(why) => return Ok(Err(why)),
    };
    if file_fault(tree, root, &path).is_some() {
        return Ok(Err(Refusal::Unavailable));
    }
    Ok(Ok(path))
}

/// Answers the octets of the file at a path from a place on up to another.
fn say_octets<A: Allocator + Copy, T: Tree<A>>(
    alloc: &A,
    tree: &mut T,
    root: &Path<A>,
    path: &Path<A>,
    from: u64,
    end: u64,
) -> Result<Answer<A>, AllocError>
    requires { end ≤ length (octets_or_none (under (T.table tree.old) root.now) path.now) }
    ensures answer { (cwd : Names) → IfOk result (λ answer. let old = here (T.table tree.old) root.now cwd in
        IsAnswer (T.failures tree.old) (T.failures tree.new) (Octets (drop from (take end (octets_or_none (under (T.table tree.old) root.now) path.now))), old)
        old (said_of answer) (here (T.table tree.new) root.now cwd)) }
    ensures kept { OnErr result (IsAsBefore (T.failures tree.old) (T.failures tree.new) (T.table tree.old) (T.table tree.new)) }
{
    match read(*alloc, tree, root, path, from, end) {
        Ok(octets) => Ok(Answer::Octets(Text::copy_of(*alloc, octets.as_slice())?)),
        Err(fault) => refused(fault, Refusal::Unavailable),
    }
}

/// The octets of the file at a path from a place on up to another.
fn read<A: Allocator + Copy, T: Tree<A>>(
    alloc: A,
    tree: &mut T,
    root: &Path<A>,
    path: &Path<A>,
    from: u64,
    end: u64,
) -> Result<Vec<u8, A>, TreeFault>
    requires { end ≤ length (octets_or_none (under (T.table tree.old) root.now) path.now) }
    ensures octets { NoStray (T.failures tree.old) (T.failures tree.new) → IfOk result (λ octets. octets.items ≡ drop from (take end (octets_or_none (under (T.table tree.old) root.now) path.now))) }
    ensures table { T.table tree.new ≡ T.table tree.old }
    ensures refused { IfErr result (λ fault. (fault ≡ TreeFault.Memory) ⊎ (fault ≡ TreeFault.Device)) }
    ensures told { Tells result (T.failures tree.old) (T.failures tree.new) }
{
    match open_there(tree, root, path)? {
        Some(file) => read_open(alloc, tree, file, from, end),
        None => Ok(Vec::new(alloc)),
    }
}

/// The octets of an open file from a place on up to another.
fn read_open<A: Allocator + Copy, T: Tree<A>>(
    alloc: A,
    tree: &mut T,
    mut file: T::Open,
    from: u64,
    end: u64,
) -> Result<Vec<u8, A>, TreeFault>
    requires { end ≤ length (T.opened file) }
    ensures octets { NoStray (T.failures tree.old) (T.failures tree.new) → IfOk result (λ octets. octets.items ≡ drop from (take end (T.opened file))) }
    ensures table { T.table tree.new ≡ T.table tree.old }
    ensures refused { IfErr result (λ fault. (fault ≡ TreeFault.Memory) ⊎ (fault ≡ TreeFault.Device)) }
    ensures told { Tells result (T.failures tree.old) (T.failures tree.new) }
{
    let mut octets = Vec::new(alloc);
    let mut buffer = [0u8; PIECE];
    let mut at = from;
    while at < end {
        let Ok(count) = tree.read(&mut file, at, &mut buffer) else {
            return Err(TreeFault::Device);
        };
        let count = lesser(count as u64, end - at);
        let Ok(_) = octets.extend_from_slice(&buffer[..count as usize]) else {
            return Err(TreeFault::Memory);
        };
        at += count;
    }
    Ok(octets)
}

/// The lesser of two counts.
fn lesser(one: u64, other: u64) -> u64
    ensures { result ≡ min one other }
{
    if one < other { one } else { other }
}
