// The words of a `.netrc` as entries, and the first that is looked for.
ghost use Rattle.std.specs.Prelude.{◌≡◌, None, Some, bytes_eq};
ghost use Rattle.tool_login.specs.Entry.{at_keyword, began, blank, ended, entry_searched, is_host, is_macro, looked, named, suits, took, waiting, with_login, with_password};

use ftp_facts::Text;
use std::alloc::Global;

/// What the next word is.
#[derive(Clone, Copy)]
pub(crate) enum Expects {
    Keyword,
    Machine,
    Login,
    Password,
    /// Of a keyword that says nothing here.
    Other,
}

/// Where the search stands.
#[derive(Clone, Copy)]
pub(crate) enum SearchStage {
    /// In no entry of the host.
    Outside,
    Inside,
    Found,
}

/// An entry that is looked for; `P` is how a text is held.
#[derive(Drop)]
pub(crate) struct EntrySearch<P> {
    pub(crate) expects: Expects,
    pub(crate) stage: SearchStage,
    pub(crate) login: Option<P>,
    pub(crate) password: Option<P>,
}

/// Who logs in at a host; `P` is how a text is held.
#[derive(Drop)]
pub struct NetrcEntry<P> {
    pub login: P,
    pub password: Option<P>,
}

/// Which entry is looked for.
#[derive(Clone, Copy)]
pub(crate) struct Wanted<'a> {
    pub(crate) host: &'a [u8],
    /// Who logs in; empty for anybody.
    pub(crate) user: &'a [u8],
}

impl EntrySearch<Text<Global>> {
    /// Before the first word, and behind an entry that is not looked for.
    pub(crate) fn blank() -> EntrySearch<Text<Global>>
        ensures { result ≡ blank }
    {
        EntrySearch {
            expects: Expects::Keyword,
            stage: SearchStage::Outside,
            login: None,
            password: None,
        }
    }

    /// Whether the next word is a keyword that counts.
    pub(crate) fn looks(&self) -> bool
        ensures { result ≡ looked self.now }
    {
        matches!(
            (self.expects, self.stage),
            (Expects::Keyword, SearchStage::Outside | SearchStage::Inside)
        )
    }

    /// Behind one more word.
    pub(crate) fn took(self, wanted: Wanted<'_>, word: Text<Global>) -> EntrySearch<Text<Global>>
        ensures { result ≡ took wanted.entry.host.now wanted.entry.user.now self word }
    {
        match (self.stage, self.expects) {
            (SearchStage::Found, _) => self,
            (_, Expects::Keyword) => self.at_keyword(wanted, word.as_slice()),
            (_, Expects::Machine) => EntrySearch::named(is_host(wanted.host, word.as_slice())),
            (SearchStage::Inside, Expects::Login) => EntrySearch {
                expects: Expects::Keyword,
                stage: SearchStage::Inside,
                login: Some(word),
                password: self.password,
            },
            (SearchStage::Inside, Expects::Password) => EntrySearch {
                expects: Expects::Keyword,
                stage: SearchStage::Inside,
                login: self.login,
                password: Some(word),
            },
            _ => self.waiting(Expects::Keyword),
        }
    }

    /// Behind a keyword, or a word that is none.
    fn at_keyword(self, wanted: Wanted<'_>, word: &[u8]) -> EntrySearch<Text<Global>>
        ensures { result ≡ at_keyword wanted.entry.user.now self word.now }
    {
        if word == b"machine".as_slice() {
            self.ended(wanted.user).waiting(Expects::Machine)
        } else if word == b"default".as_slice() {
            self.ended(wanted.user).began()
        } else if word == b"login".as_slice() {
            self.waiting(Expects::Login)
        } else if word == b"password".as_slice() {
            self.waiting(Expects::Password)
        } else if word == b"account".as_slice() {
            self.waiting(Expects::Other)
        } else {
            self
        }
    }

    /// The same, before such a word.
    fn waiting(self, expects: Expects) -> EntrySearch<Text<Global>>
        ensures { result ≡ waiting expects self }
    {
        EntrySearch { expects, ..self }
    }

    /// Behind the name of a machine, which is the host or is not.
    fn named(is_host: bool) -> EntrySearch<Text<Global>>
        ensures { result ≡ named is_host }
    {
        if is_host {
            EntrySearch::blank().began()
        } else {
            EntrySearch::blank()
        }
    }

    /// In an entry of the host, unless one was found.
    fn began(self) -> EntrySearch<Text<Global>>
        ensures { result ≡ began self }
    {
        match self.stage {
            SearchStage::Found => self,
            _ => EntrySearch {
                stage: SearchStage::Inside,
                ..self
            },
        }
    }

    /// Behind the last word of an entry.
    fn ended(self, user: &[u8]) -> EntrySearch<Text<Global>>
        ensures { result ≡ ended user.now self }
    {
        match self.stage {
            SearchStage::Found => self,
            SearchStage::Inside if suits(user, &self.login) => EntrySearch {
                stage: SearchStage::Found,
                ..self
            },
            _ => EntrySearch::blank(),
        }
    }

    /// What was found, behind the last word of all.
    pub(crate) fn entry(self, user: &[u8]) -> Option<NetrcEntry<Text<Global>>>
        ensures { result ≡ entry_searched user.now self }
    {
        let EntrySearch {
            stage,
            login,
            password,
            ..
        } = self.ended(user);
        match (stage, login) {
            (SearchStage::Found, Some(login)) => Some(NetrcEntry { login, password }),
            _ => None,
        }
    }
}

/// Whether an entry with this login is of a user; empty: of anybody.
fn suits(user: &[u8], login: &Option<Text<Global>>) -> bool
    ensures { result ≡ suits user.now login.now }
{
    match login {
        Some(login) => user.is_empty() || login.as_slice() == user,
        None => false,
    }
}

/// Whether a word names the host; letters are the same, large or small.
fn is_host(host: &[u8], word: &[u8]) -> bool
    ensures { result ≡ is_host host.now word.now }
{
    word.eq_ignore_ascii_case(host)
}

/// Whether a word begins a macro where a keyword may stand.
pub(crate) fn is_macro(word: &[u8]) -> bool
    ensures { result ≡ is_macro word.now }
{
    word == b"macdef".as_slice()
}
