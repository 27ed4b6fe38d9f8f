// What a session can begin with.
ghost use Rattle.std.specs.Prelude.{◌≡◌, true, false, IfErr, IfOk, nat_le};
ghost use Rattle.ftp_direct.specs.Direct.{part, start};
ghost use Rattle.ftp_operation.specs.Account.{login_account};
ghost use Rattle.ftp_tree.specs.Sound.{IsSoundTree};
ghost use Rattle.ftp_tree.specs.Tree.{octets_in, total_limit};
ghost use Rattle.laws_world.specs.Claims.{AreRelated};
ghost use Rattle.std.proofs.Props.{props};
ghost use Rattle.tool_pair.specs.Begun.{begun};
ghost use Rattle.tool_pair.specs.Known.{AreRelated-prop, IsTypedHost-prop};
ghost use Rattle.tool_pair.specs.Refusing.{CanBegin, IsWhy};

use crate::typed::{are_paths, is_typed};
use ftp_endpoint::Host;
use ftp_facts::Text;
use ftp_operation::{Account, Accounts, AccountsFault, Login};
use ftp_path::Path;
use ftp_tree::Tree;
use std::alloc::Allocator;

/// A login, accounts, a tree and the hosts of client and server that a session can begin with. The tree holds at most 67,108,864 octets where the
/// login sees it, and both hosts are of one family.
#[derive(Drop)]
pub struct Beginning<A: Allocator + Copy, T: Tree<A>> {
    pub(crate) login: Login<A>,
    pub(crate) accounts: Accounts<A>,
    pub(crate) tree: T,
    pub(crate) near_host: Host,
    pub(crate) far_host: Host,
    ghost can: { CanBegin (begun login.user login.pass accounts (T.table tree) near_host far_host) } by { Prim.hlevel (IsTypedHost-prop, AreRelated-prop, props) },
}

/// Why nothing can begin so.
#[derive(Clone, Copy)]
pub enum Unfair {
    /// Of the accounts.
    Accounts(AccountsFault),
    /// The tree holds too many octets where the login sees it.
    Full,
    /// The hosts are of two families.
    Hosts,
}

impl<A: Allocator + Copy, T: Tree<A>> Beginning<A, T> {
    /// What a session can begin with, of a login, a list of accounts, a tree, and the hosts of client and server; or why none can: of the
    /// hosts first, then of the accounts, then of the tree.
    #[tactic(auto, using(crate::proofs::Fairness::not_related, crate::proofs::Fairness::not_accounts, crate::proofs::Fairness::not_full, crate::proofs::Fairness::is_over))]
    pub fn new(
        alloc: A,
        login: Login<A>,
        list: Vec<Account<Text<A>, Path<A>>, A>,
        tree: T,
        near_host: Host,
        far_host: Host,
    ) -> Result<Self, Unfair>
        ensures begun { IfOk result (λ of. begun of.login.user of.login.pass of.accounts (T.table of.tree) of.near_host of.far_host ≡ begun login.user login.pass list.items (T.table tree) near_host far_host) }
        // Witness of unfair: refused only where it is not fair, or its tree is over the limit; where taken, a ghost field proves that it is fair and
        // within (`CanBegin`): `edits/hosts_of_two_families_are_taken`.
        ensures unfair { IfErr result (λ fault. ¬ CanBegin (begun login.user login.pass list.items (T.table tree) near_host far_host)) }
        // Witness of why: `edits/accounts_that_are_refused_are_told_as_hosts_of_two_families`, `a_full_tree_is_told_as_hosts_of_two_families`.
        ensures why { IfErr result (λ fault. IsWhy fault (begun login.user login.pass list.items (T.table tree) near_host far_host)) }
    {
        if !are_related(near_host, far_host) {
            return Err(Unfair::Hosts);
        }
        is_typed(near_host);
        is_typed(far_host);
        are_paths(list.as_slice());
        let accounts = match Accounts::new(list) {
            Ok(accounts) => accounts,
            Err(refused) => return Err(Unfair::Accounts(refused.fault)),
        };
        if !fits(alloc, &login, &accounts, &tree) {
            return Err(Unfair::Full);
        }
        Ok(Beginning {
            login,
            accounts,
            tree,
            near_host,
            far_host,
        })
    }
}

/// Whether two hosts are of one family.
fn are_related(one: Host, other: Host) -> bool
    ensures yes { result ≡ true → AreRelated one other }
    ensures not { result ≡ false → ¬ (AreRelated one other) }
{
    match one {
        Host::V4(_) => matches!(other, Host::V4(_)),
        Host::V6(_) => matches!(other, Host::V6(_)),
    }
}

/// Whether the tree is within its limit where a login sees it: at the account's root, and else whole.
#[tactic(auto, using(crate::proofs::Fairness::part_some, crate::proofs::Fairness::part_none))]
fn fits<A: Allocator + Copy, T: Tree<A>>(
    alloc: A,
    login: &Login<A>,
    accounts: &Accounts<A>,
    tree: &T,
) -> bool
    ensures octets { result ≡ nat_le (octets_in (part (start (T.table tree.now) (login_account accounts.now login.now.user login.now.pass)))) (total_limit (T.table tree.now)) }
    ensures sound { IsSoundTree (T.table tree.now) }
{
    match accounts.login_account(login) {
        Some(account) => tree.fits(&account.root),
        None => tree.fits(&Path::root(alloc)),
    }
}
