// Operations one after another.
ghost use Rattle.std.specs.Prelude.{◌≤◌, ℕ, [], IsTrue, IfOk, IfErr, List, OnErr, map, take, true};
ghost use Rattle.ftp_tree.specs.Change.{NoStray};
ghost use Rattle.ftp_operation.specs.Account.{login_account};
ghost use Rattle.ftp_operation.specs.Answer.{Said, said_of};
ghost use Rattle.ftp_direct.specs.Direct.{answer, due, here_onto, standing, start};
ghost use Rattle.ftp_operation.specs.Operation.{can_be_sent};
ghost use Rattle.ftp_direct.specs.Run.{IsAnswer, IsAsBefore, Ran, orders_of};

use crate::files::{append, put, put_from};
use crate::listings::{facts, list, names};
use crate::nodes::is_dir;
use crate::places::{change_dir, delete, go_up, make_dir, remove_dir, rename, say_where};
use crate::reading::{get, get_from, modified, peek};
use crate::refusal::{Refusal, tell};
use crate::rights::barring;
use crate::sizes::size;
use crate::texts::text;
use ftp_facts::{Moment, Text};
use ftp_operation::{Accounts, Answer, Login, Op, Rights, can_be_sent};
use ftp_tree::{Path, Tree};
use std::alloc::{AllocError, Allocator};

/// Runs operations on a tree, one after another, each at its moment, as the user that a login names (RFC 959, section 4.1). All are of
/// the part of the tree at and below the root of that user's account, and the current directory is that root at first.
///
/// Where the count of the tree's device failures changes in an operation's call, that operation is refused by 451 and changes
/// nothing. It gives up only where memory was refused: then a beginning of the list was done, and the rest was not begun. An operation
/// looks at a path before it reads it. All that is said of a run in which the device did not stray.
pub fn direct<A: Allocator + Copy, T: Tree<A>>(
    alloc: &A,
    tree: &mut T,
    accounts: &Accounts<A>,
    login: &Login<A>,
    list: &[(Op<Text<A>>, Moment)],
) -> Result<Vec<Answer<A>, A>, AllocError>
    // Witness of answers: `direct_in_memory` of `rows_tree`, `answers`; `steady_run`.
    ensures answers { NoStray (T.failures tree.old) (T.failures tree.new) → IfOk result (λ answers. let account = login_account accounts.now login.now.user login.now.pass in
        Ran (T.failures tree.old).told (start (T.table tree.old) account) (orders_of list.now) (map said_of answers.items) (T.failures tree.new).told (T.table tree.new)) }
    // Witness of begun: `direct_in_memory` of `rows_tree`, `begun`.
    ensures begun { NoStray (T.failures tree.old) (T.failures tree.new) → IfErr result (λ _. let account = login_account accounts.now login.now.user login.now.pass in
        (count : ℕ) × (said : List Said) × Ran (T.failures tree.old).told (start (T.table tree.old) account) (take count (orders_of list.now)) said (T.failures tree.new).told (T.table tree.new)) }
    // Witness of strays: said of each call of a tree.
    ensures strays { (T.failures tree.old).strays ≤ (T.failures tree.new).strays }
{
    let top = Path::root(*alloc);
    match accounts.login_account(login) {
        Some(account) => {
            let known = is_dir(tree, &top, &account.root);
            run(alloc, tree, &account.root, known, account.rights, list)
        }
        None => run(alloc, tree, &top, false, Rights::none(), list),
    }
}

/// Runs operations below a root, for a login that is known or not, and may change so much.
fn run<A: Allocator + Copy, T: Tree<A>>(
    alloc: &A,
    tree: &mut T,
    root: &Path<A>,
    known: bool,
    rights: Rights,
    list: &[(Op<Text<A>>, Moment)],
) -> Result<Vec<Answer<A>, A>, AllocError>
    ensures answers { NoStray (T.failures tree.old) (T.failures tree.new) → IfOk result (λ answers.
        Ran (T.failures tree.old).told (standing (T.table tree.old) root.now [] known rights) (orders_of list.now) (map said_of answers.items) (T.failures tree.new).told (T.table tree.new)) }
    ensures begun { NoStray (T.failures tree.old) (T.failures tree.new) → IfErr result (λ _.
        (count : ℕ) × (said : List Said) × Ran (T.failures tree.old).told (standing (T.table tree.old) root.now [] known rights) (take count (orders_of list.now)) said (T.failures tree.new).told (T.table tree.new)) }
    ensures strays { (T.failures tree.old).strays ≤ (T.failures tree.new).strays }
{
    let mut answers = Vec::new(*alloc);
    let mut cwd = Path::root(*alloc);
    for (op, moment) in list {
        answers.push(answer(alloc, tree, root, &mut cwd, known, rights, op, *moment)?)?;
    }
    Ok(answers)
}

/// Answers one operation, from a current directory, for a login that is known or not, and may change so much.
fn answer<A: Allocator + Copy, T: Tree<A>>(
    alloc: &A,
    tree: &mut T,
    root: &Path<A>,
    cwd: &mut Path<A>,
    known: bool,
    rights: Rights,
    op: &Op<Text<A>>,
    moment: Moment,
) -> Result<Answer<A>, AllocError>
    ensures answer { IfOk result (λ said. let old = standing (T.table tree.old) root.now cwd.old known rights in
        IsAnswer (T.failures tree.old) (T.failures tree.new) (answer old op.now moment.seconds) old (said_of said) (standing (T.table tree.new) root.now cwd.new known rights)) }
    ensures kept { OnErr result (IsAsBefore (T.failures tree.old) (T.failures tree.new) (T.table tree.old) (T.table tree.new)) }
{
    if !can_be_sent(op) {
        return Ok(Answer::BadOperation);
    }
    if !known {
        return Ok(tell(Refusal::NotLoggedIn));
    }
    permitted(alloc, tree, root, cwd, rights, op, moment)
}

/// Answers one operation that can be sent, for a login that is known and may change so much.
fn permitted<A: Allocator + Copy, T: Tree<A>>(
    alloc: &A,
    tree: &mut T,
    root: &Path<A>,
    cwd: &mut Path<A>,
    rights: Rights,
    op: &Op<Text<A>>,
    moment: Moment,
) -> Result<Answer<A>, AllocError>
    requires { IsTrue (can_be_sent op.now) }
    ensures answer { IfOk result (λ answer. let old = standing (T.table tree.old) root.now cwd.old true rights in
        IsAnswer (T.failures tree.old) (T.failures tree.new) (due old op.now moment.seconds) old (said_of answer) (standing (T.table tree.new) root.now cwd.new true rights)) }
    ensures kept { OnErr result (IsAsBefore (T.failures tree.old) (T.failures tree.new) (T.table tree.old) (T.table tree.new)) }
{
    if let Some(why) = barring(alloc, tree, root, cwd, rights, op)? {
        return Ok(tell(why));
    }
    due(alloc, tree, root, cwd, rights.onto, op, moment)
}

/// Answers one operation that can be sent, for a login that is known and may change all, and rename onto files or not.
fn due<A: Allocator + Copy, T: Tree<A>>(
    alloc: &A,
    tree: &mut T,
    root: &Path<A>,
    cwd: &mut Path<A>,
    onto: bool,
    op: &Op<Text<A>>,
    moment: Moment,
) -> Result<Answer<A>, AllocError>
    requires { IsTrue (can_be_sent op.now) }
    ensures answer { IfOk result (λ answer. let old = here_onto (T.table tree.old) root.now cwd.old onto in
        IsAnswer (T.failures tree.old) (T.failures tree.new) (due old op.now moment.seconds) old (said_of answer) (here_onto (T.table tree.new) root.now cwd.new onto)) }
    ensures kept { OnErr result (IsAsBefore (T.failures tree.old) (T.failures tree.new) (T.table tree.old) (T.table tree.new)) }
{
    match op {
        Op::Where => say_where(alloc, cwd),
        Op::ChangeDir(text) => change_dir(alloc, tree, root, cwd, text),
        Op::Up => go_up(alloc, cwd),
        Op::MakeDir(text) => make_dir(alloc, tree, root, cwd, text),
        Op::RemoveDir(text) => remove_dir(alloc, tree, root, cwd, text),
        Op::Delete(text) => delete(alloc, tree, root, cwd, text),
        Op::Rename(from, to) => rename(alloc, tree, root, cwd, onto, from, to),
        Op::Put(text, octets, _) => put(alloc, tree, root, cwd, text, octets, moment),
        Op::Append(text, octets, _) => append(alloc, tree, root, cwd, text, octets, moment),
        Op::PutFrom(text, offset, octets, how) => put_from(
            alloc, tree, root, cwd, text, *offset, octets, *how, moment,
        ),
        Op::Get(text, _) => get(alloc, tree, root, cwd, text),
        Op::GetFrom(text, offset, how) => get_from(alloc, tree, root, cwd, text, *offset, *how),
        Op::Peek(text, count, _) => peek(alloc, tree, root, cwd, text, *count),
        Op::Size(text, how) => size(alloc, tree, root, cwd, text, *how),
        Op::Modified(text) => modified(alloc, tree, root, cwd, text),
        Op::Facts(text) => facts(alloc, tree, root, cwd, text),
        Op::List(text, _) => list(alloc, tree, root, cwd, text),
        Op::Names(text, _) => names(alloc, tree, root, cwd, text),
        Op::Text(verb, path, _) => text(alloc, tree, root, cwd, *verb, path),
    }
}
