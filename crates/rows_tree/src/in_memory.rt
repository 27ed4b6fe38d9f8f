// The operations of a user on a tree in memory.
ghost use Rattle.std.specs.Prelude.{◌≡◌, ℕ, IfOk, IfErr, map, take};
ghost use Rattle.ftp_operation.specs.Account.{login_account};
ghost use Rattle.ftp_operation.specs.Answer.{said_of};
ghost use Rattle.ftp_direct.specs.Direct.{answers, start};
ghost use Rattle.ftp_direct.specs.Run.{orders_of};

use ftp_direct::direct;
use ftp_facts::{Moment, Text};
use ftp_operation::{Accounts, Answer, Login, Op};
use ftp_tree_memory::MemTree;
use std::alloc::{AllocError, Allocator};

/// `direct` on a tree in memory, whose device never fails: what the operations do on a map, one after another, or a beginning of
/// them where memory was refused.
pub fn direct_in_memory<A: Allocator + Copy>(
    alloc: &A,
    tree: &mut MemTree<A>,
    accounts: &Accounts<A>,
    login: &Login<A>,
    list: &[(Op<Text<A>>, Moment)],
) -> Result<Vec<Answer<A>, A>, AllocError>
    ensures answers { IfOk result (λ all. let done = answers (start tree.old (login_account accounts.now login.now.user login.now.pass)) (orders_of list.now) in
        (map said_of all.items ≡ done.0) × (tree.new ≡ done.1.table)) }
    ensures begun { IfErr result (λ _. let from = start tree.old (login_account accounts.now login.now.user login.now.pass) in
        (count : ℕ) × (tree.new ≡ (answers from (take count (orders_of list.now))).1.table)) }
{
    direct(alloc, tree, accounts, login, list)
}
