// The words that a line of paths, of trees and of logins begins with.
use crate::words::{BETWEEN, split};
use rows_base::{cut, found};

/// What a line asks for.
#[derive(Clone, Copy)]
pub enum TreeStep {
    Text,
    Listed,
    Name,
    Number,
    Leads,
    Copy,
    Keys,
    Order,
    Below,
    Moved,
    Make,
    Remove,
    Delete,
    Rename,
    Onto,
    Install,
    Front,
    Put,
    Open,
    Entries,
    Dirs,
    Kind,
    Size,
    Stamp,
    Room,
    Fits,
    Names,
    Piece,
    Read,
    From,
    Whole,
    Shown,
    Login,
    Known,
    Accounts,
    /// Says how a row is played, or is for readers.
    Heading,
}

const STEPS: &[(&'static [u8], TreeStep)] = &[
    (b"text", TreeStep::Text),
    (b"listed", TreeStep::Listed),
    (b"name", TreeStep::Name),
    (b"number", TreeStep::Number),
    (b"leads", TreeStep::Leads),
    (b"copy", TreeStep::Copy),
    (b"keys", TreeStep::Keys),
    (b"order", TreeStep::Order),
    (b"below", TreeStep::Below),
    (b"moved", TreeStep::Moved),
    (b"make", TreeStep::Make),
    (b"remove", TreeStep::Remove),
    (b"delete", TreeStep::Delete),
    (b"rename", TreeStep::Rename),
    (b"onto", TreeStep::Onto),
    (b"install", TreeStep::Install),
    (b"front", TreeStep::Front),
    (b"put", TreeStep::Put),
    (b"open", TreeStep::Open),
    (b"entries", TreeStep::Entries),
    (b"dirs", TreeStep::Dirs),
    (b"kind", TreeStep::Kind),
    (b"size", TreeStep::Size),
    (b"second", TreeStep::Stamp),
    (b"room", TreeStep::Room),
    (b"fits", TreeStep::Fits),
    (b"names", TreeStep::Names),
    (b"piece", TreeStep::Piece),
    (b"read", TreeStep::Read),
    (b"from", TreeStep::From),
    (b"whole", TreeStep::Whole),
    (b"shown", TreeStep::Shown),
    (b"login", TreeStep::Login),
    (b"known", TreeStep::Known),
    (b"accounts", TreeStep::Accounts),
];

/// A line: below which root, what it asks for, and three words.
#[derive(Clone, Copy)]
pub struct TreeLine<'a> {
    pub root: &'a [u8],
    pub step: TreeStep,
    pub first: &'a [u8],
    pub second: &'a [u8],
    pub third: &'a [u8],
    /// All words behind the first one of the line.
    pub words: &'a [u8],
}

impl TreeLine<'_> {
    pub fn is_heading(&self) -> bool {
        matches!(self.step, TreeStep::Heading)
    }
}

/// A line whose texts are octets. It may begin with `@` and a root.
pub fn line_of(line: &[u8]) -> TreeLine<'_> {
    let (root, line) = match line {
        [b'@', rest @ ..] => cut(rest, BETWEEN),
        _ => (b"/".as_slice(), line),
    };
    let (word, words) = split(line);
    let (first, rest) = split(words);
    let (second, rest) = split(rest);
    let (third, _) = split(rest);
    TreeLine {
        root,
        step: found(STEPS, word, TreeStep::Heading),
        first,
        second,
        third,
        words,
    }
}
