// Accounts and logins as words say them.
use crate::paths::place;
use crate::step::{TreeLine, TreeStep};
use crate::words::split;
use ftp_facts::Text;
use ftp_operation::{Account, Accounts, AccountsFault, Login, Rights};
use ftp_path::Path;
use ftp_secret::Secret;
use rows_base::{Paper, cut};
use std::alloc::{Allocator, Global};

/// `guest` with the password `secret`, and `anonymous` without one; both see the whole tree.
pub const WHOLE: &[u8] = b"guest\xfesecret\xfe/\xfeanonymous\xfe-\xfe/";

/// Accounts with texts of their own.
type List<A> = Vec<Account<Text<A>, Path<A>>, A>;

/// A text of these octets; an empty one where memory is refused, as it is nowhere here.
pub fn text<A: Allocator + Copy>(alloc: A, octets: &[u8]) -> Text<A> {
    match Text::copy_of(alloc, octets) {
        Ok(text) => text,
        Err(_) => Text::from_vec(Vec::new(alloc)),
    }
}

/// What a word says of a password: none is needed where it is `-`; `None` where it says none.
fn pass_of(word: &[u8]) -> Option<Option<Secret>> {
    if word == b"-".as_slice() {
        return Some(None);
    }
    match Secret::read(word) {
        Ok(secret) => Some(Some(secret)),
        Err(_) => None,
    }
}

/// The root and the rights that a word says: all but to rename onto files where no colon stands, none behind `:r`, all behind `:o`.
fn ends_of(word: &[u8]) -> (&[u8], Rights) {
    let (root, rights) = cut(word, b':');
    let all = Rights::all();
    match rights {
        [b'r'] => (root, Rights::none()),
        [b'o'] => (root, Rights { onto: true, ..all }),
        _ => (root, all),
    }
}

/// The account of these words; none where the password is none, or the root is no path.
fn account<A: Allocator + Copy>(
    alloc: A,
    user: &[u8],
    pass: &[u8],
    root: &[u8],
) -> Option<Account<Text<A>, Path<A>>> {
    let pass = pass_of(pass)?;
    let (root, rights) = ends_of(root);
    match place(alloc, root) {
        Ok(root) => Some(Account {
            user: text(alloc, user),
            pass,
            root,
            rights,
        }),
        Err(_) => None,
    }
}

/// An account for each user name, password and root, behind which rights may stand.
pub fn list_of<A: Allocator + Copy>(alloc: A, words: &[u8]) -> List<A> {
    let mut list = Vec::new(alloc);
    let mut rest = words;
    for _ in 0..words.len() {
        if rest.is_empty() {
            break;
        }
        let (user, behind) = split(rest);
        let (pass, behind) = split(behind);
        let (root, behind) = split(behind);
        if let Some(account) = account(alloc, user, pass, root) {
            let _ = list.push(account);
        }
        rest = behind;
    }
    list
}

pub fn login<A: Allocator + Copy>(alloc: A, user: &[u8], pass: &[u8]) -> Option<Login<A>> {
    Login::new(text(alloc, user), text(alloc, pass))
}

/// Which accounts are made; whether a login is, and is known.
pub fn show_login(alloc: Global, line: &TreeLine<'_>, paper: &mut Paper) {
    let is_so = match line.step {
        TreeStep::Accounts => {
            show_accounts(alloc, line.words, paper);
            return;
        }
        TreeStep::Login => login(alloc, line.first, line.second).is_some(),
        _ => is_known(alloc, line.first, line.second),
    };
    paper.put(if is_so { b"yes".as_slice() } else { b"no" });
}

fn is_known(alloc: Global, user: &[u8], pass: &[u8]) -> bool {
    let Some(login) = login(alloc, user, pass) else {
        return false;
    };
    match &Accounts::new(list_of(alloc, WHOLE)) {
        Ok(accounts) => accounts.login_account(&login).is_some(),
        Err(_) => false,
    }
}

/// Puts whether accounts are made, or why not and how many of them are handed back.
fn show_accounts(alloc: Global, words: &[u8], paper: &mut Paper) {
    match &Accounts::new(list_of(alloc, words)) {
        Ok(_) => paper.put(b"made"),
        Err(refused) => {
            paper.put(match refused.fault {
                AccountsFault::SameUser => b"one name twice, back ".as_slice(),
                AccountsFault::NestedRoots => b"one root below another that may be changed, back ",
            });
            paper.number(refused.list.len() as u64);
        }
    }
}
