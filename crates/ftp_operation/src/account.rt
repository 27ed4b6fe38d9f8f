// Who may log in, and what an account sees of the tree (RFC 959, section 4.1.1).
ghost use Rattle.std.specs.Prelude.{◌≡◌, ◌&&◌, ◌↔◌, None, Some, IfOk, IfErr, IfSome, IsSome, IsTrue, drop};
ghost use Rattle.std.specs.List.{list_all, list_any};
ghost use Rattle.std.specs.Option.{option_map};
ghost use Rattle.ftp_operation.specs.Account.{accounts_refusal, are_apart, are_distinct, changes_above, has_nested, has_user, is_below, is_open, is_password, is_user, knows, login_account, open_account, passes};

use crate::rights::Rights;
use ftp_facts::Text;
use ftp_path::key::is_within;
use ftp_path::{Path, is_password, is_user};
use ftp_secret::Secret;
use std::alloc::Allocator;
use std::error::Error;
use std::fmt;
use std::marker::Model;

/// A user name, the password that it needs, if it needs one, in clear or as SHA-crypt, the path that is `/` to its user, and what he may change
/// there; `P` is how a text is held, `R` how a path is.
#[derive(Drop)]
pub struct Account<P, R> {
    pub user: P,
    pub pass: Option<Secret>,
    pub root: R,
    pub rights: Rights,
}

/// A user name of 1 to 255 octets and a password of at most 255, without CR, LF and NUL.
#[derive(Drop)]
pub struct Login<A: Allocator + Copy> {
    user: Text<A>,
    pass: Text<A>,
    ghost user_fits: { IsTrue (is_user user) },
    ghost pass_fits: { IsTrue (is_password pass) },
}

impl<A: Allocator + Copy> Login<A> {
    /// The login of a user name and a password, or `None` where one is past its limits. Takes no memory.
    pub fn new(user: Text<A>, pass: Text<A>) -> Option<Login<A>>
        // Witness: equation: which login, and just when.
        ensures same { IfSome result (λ login. (login.user ≡ user) × (login.pass ≡ pass)) }
        ensures fits { IsSome result ↔ IsTrue (is_user user && is_password pass) }
    {
        if is_user(user.as_slice()) && is_password(pass.as_slice()) {
            Some(Login { user, pass })
        } else {
            None
        }
    }

    /// The user name.
    pub fn user(&self) -> &[u8]
        ensures same { result.now ≡ self.now.user }
        // Witness of fits: `Login::new`, `fits`, with `same`.
        ensures fits { IsTrue (is_user result.now) }
    {
        self.user.as_slice()
    }

    /// The password.
    pub fn pass(&self) -> &[u8]
        ensures same { result.now ≡ self.now.pass }
        // Witness of fits: `Login::new`, `fits`, with `same`.
        ensures fits { IsTrue (is_password result.now) }
    {
        self.pass.as_slice()
    }
}

/// Accounts of which no two have one user name, and no root is below that of another that may change something.
#[derive(Drop)]
pub struct Accounts<A: Allocator + Copy> {
    list: Vec<Account<Text<A>, Path<A>>, A>,
}

impl<A: Allocator + Copy> Model for Accounts<A> {
    ghost use Rattle.std.specs.Prelude.{List};
    ghost use Rattle.ftp_operation.specs.Account.{Account};

    ghost Value = { List Account };

    ghost view = { λ accounts. accounts.list.items };
}

/// Why a list of accounts is refused.
#[derive(Clone, Copy, Debug, PartialEq, Eq, thiserror::Error)]
pub enum AccountsFault {
    #[error("two accounts have one user name")]
    SameUser,
    /// Equal roots are allowed, and a root below that of an account that may only look.
    #[error("an account's root is below that of another that may change something")]
    NestedRoots,
}

/// A list of accounts that was refused, handed back, and why.
#[derive(Drop)]
pub struct RefusedAccounts<A: Allocator + Copy> {
    pub fault: AccountsFault,
    pub list: Vec<Account<Text<A>, Path<A>>, A>,
}

impl<A: Allocator + Copy> fmt::Display for RefusedAccounts<A> {
    fn fmt<W: fmt::Write>(&self, f: &mut fmt::Formatter<W>) -> fmt::Result {
        write!(f, "accounts are refused: {}", self.fault)
    }
}

/// No password is shown.
impl<A: Allocator + Copy> fmt::Debug for RefusedAccounts<A> {
    fn fmt<W: fmt::Write>(&self, f: &mut fmt::Formatter<W>) -> fmt::Result {
        write!(f, "RefusedAccounts {{ fault: {:?}, .. }}", self.fault)
    }
}

impl<A: Allocator + Copy> Error for RefusedAccounts<A> {}

impl<A: Allocator + Copy> Accounts<A> {
    /// These accounts, in this order, or the list back with the first reason why not. An account with a user name or a
    /// password that no login has is accepted. Takes no memory.
    pub fn new(list: Vec<Account<Text<A>, Path<A>>, A>) -> Result<Accounts<A>, RefusedAccounts<A>>
        // Witness: equation: which list, and just when and why not.
        ensures accounts { IfOk result (λ accounts. (accounts ≡ list.items) × (accounts_refusal list.items ≡ None)) }
        ensures back { IfErr result (λ refused. (refused.list.items ≡ list.items) × (accounts_refusal list.items ≡ Some refused.fault)) }
    {
        if !are_distinct(list.as_slice()) {
            return Err(RefusedAccounts {
                fault: AccountsFault::SameUser,
                list,
            });
        }
        if !are_apart(list.as_slice()) {
            return Err(RefusedAccounts {
                fault: AccountsFault::NestedRoots,
                list,
            });
        }
        Ok(Accounts { list })
    }

    /// The account that a login names, where that needs no password or the one given. Takes no memory.
    pub fn login_account(&self, login: &Login<A>) -> Option<&Account<Text<A>, Path<A>>>
        ensures { option_map (λ account. account.now) result ≡ login_account self.now login.now.user login.now.pass }
    {
        self.account_of(login.user(), login.pass())
    }

    /// The same of a user name and a password, whatever octets they have. Where one account has a hashed password, a password is hashed for each user, also for
    /// one that there is not: so how long that takes tells of no user, as far as all are hashed alike.
    pub fn account_of(&self, user: &[u8], pass: &[u8]) -> Option<&Account<Text<A>, Path<A>>>
        ensures { option_map (λ account. account.now) result ≡ login_account self.now user.now pass.now }
    {
        let found = self.known(user, pass);
        if found.is_none() && !self.is_hashed(user) && self.hashes(pass) {
            return None;
        }
        found
    }

    /// The account of this name, where it needs no password or this one.
    #[tactic(auto, unfolding(crate::specs::Account::login_account))]
    fn known(&self, user: &[u8], pass: &[u8]) -> Option<&Account<Text<A>, Path<A>>>
        ensures { option_map (λ account. account.now) result ≡ login_account self.now user.now pass.now }
    {
        self.list.iter().find(|account| knows(account, user, pass))
    }

    /// Whether the account of this name has a hashed password.
    fn is_hashed(&self, user: &[u8]) -> bool {
        self.list.iter().any(|account| account.user.as_slice() == user && has_hash(account))
    }

    /// Whether a password opens the first account of which it is hashed.
    fn hashes(&self, pass: &[u8]) -> bool {
        match self.list.iter().find(|account| has_hash(account)) {
            Some(account) => passes(&account.pass, pass),
            None => false,
        }
    }

    /// The account of this name that needs no password. Takes no memory.
    pub fn open_account(&self, user: &[u8]) -> Option<&Account<Text<A>, Path<A>>>
        ensures { option_map (λ account. account.now) result ≡ open_account self.now user.now }
    {
        self.list.iter().find(|account| is_open(account, user))
    }
}

/// Whether an account's password is hashed.
fn has_hash<A: Allocator + Copy>(account: &Account<Text<A>, Path<A>>) -> bool {
    matches!(account.pass, Some(Secret::Crypt(_)))
}

/// Whether no two accounts have one user name.
fn are_distinct<A: Allocator + Copy>(list: &[Account<Text<A>, Path<A>>]) -> bool
    ensures { result ≡ are_distinct list.now }
{
    for at in 0..list.len() {
        if is_taken(&list[at + 1..], list[at].user.as_slice()) {
            return false;
        }
    }
    true
}

/// Whether an account has a user name.
fn is_taken<A: Allocator + Copy>(list: &[Account<Text<A>, Path<A>>], user: &[u8]) -> bool
    ensures { result ≡ list_any (has_user user.now) list.now }
{
    list.iter().any(|account| account.user.as_slice() == user)
}

/// Whether no account's root is below that of another that may change something.
fn are_apart<A: Allocator + Copy>(list: &[Account<Text<A>, Path<A>>]) -> bool
    ensures { result ≡ are_apart list.now }
{
    for at in 0..list.len() {
        if is_nested(&list[at + 1..], &list[at]) {
            return false;
        }
    }
    true
}

/// Whether one of these accounts may change something above the root of this one, or this one above theirs.
fn is_nested<A: Allocator + Copy>(
    list: &[Account<Text<A>, Path<A>>],
    account: &Account<Text<A>, Path<A>>,
) -> bool
    ensures { result ≡ list_any (has_nested account.now) list.now }
{
    list.iter().any(|other| changes_above(account, other) || changes_above(other, account))
}

/// Whether an account may change something, and the root of another is below its own.
fn changes_above<A: Allocator + Copy>(
    above: &Account<Text<A>, Path<A>>,
    account: &Account<Text<A>, Path<A>>,
) -> bool
    ensures { result ≡ changes_above above.now account.now }
{
    above.rights.may_change() && is_below(&above.root, &account.root)
}

/// Whether the second path is below the first, and not the first.
fn is_below<A: Allocator + Copy>(above: &Path<A>, path: &Path<A>) -> bool
    ensures { result ≡ is_below above.now path.now }
{
    is_within(above.key(), path.key()) && !is_within(path.key(), above.key())
}

/// Whether an account is that of a user name and needs no password or this one.
fn knows<A: Allocator + Copy>(account: &Account<Text<A>, Path<A>>, user: &[u8], pass: &[u8]) -> bool
    ensures { result ≡ knows user.now pass.now account.now }
{
    account.user.as_slice() == user && passes(&account.pass, pass)
}

/// Whether an account is that of a user name and needs no password.
fn is_open<A: Allocator + Copy>(account: &Account<Text<A>, Path<A>>, user: &[u8]) -> bool
    ensures { result ≡ is_open user.now account.now }
{
    account.user.as_slice() == user && account.pass.is_none()
}

/// Whether a password opens the secret that is needed, or none is.
fn passes(secret: &Option<Secret>, pass: &[u8]) -> bool
    ensures { result ≡ passes secret.now pass.now }
{
    match secret {
        None => true,
        Some(secret) => secret.opens(pass),
    }
}
