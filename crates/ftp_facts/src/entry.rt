//! An entry of a listing, whose texts are its own or lent.
ghost use Rattle.std.specs.Prelude.{◌≡◌, ℕ, List, Some};
ghost use Rattle.std.specs.Option.{ForSome};
ghost use Rattle.ftp_endpoint.specs.Number.{IsShort};
ghost use Rattle.ftp_path.specs.Path.{IsPathText};
ghost use Rattle.ftp_facts.specs.Fact.{IsValue, IsOtherWord};
ghost use Rattle.ftp_facts.specs.declared.entry.EntryKind.TheVariants.{Other};

use crate::facts::is_word;
use crate::{FactName, Moment, Text};
use std::alloc::{AllocError, Allocator};

/// The type of an entry (RFC 3659, section 7.5.1).
#[derive(Drop)]
pub enum EntryKind<A: Allocator + Copy> {
    /// A file.
    File,
    /// A directory.
    Dir,
    /// The directory that is listed.
    CurrentDir,
    /// The parent of the directory that is listed.
    ParentDir,
    /// Another word, as it was written.
    Other(Text<A>),
}

/// An entry of a machine listing: a pathname and the facts that are given (RFC 3659, section 7.2).
#[derive(Drop)]
pub struct Entry<A: Allocator + Copy> {
    /// A path text.
    pub name: Text<A>,
    pub kind: Option<EntryKind<A>>,
    /// In octets.
    pub size: Option<u64>,
    pub modify: Option<Moment>,
    pub perm: Option<Text<A>>,
    pub ghost named: { IsPathText name },
    pub ghost kind_fits: { (word : List ℕ) → kind ≡ Some (Other word) → IsOtherWord word },
    pub ghost size_fits: { ForSome size IsShort },
    pub ghost perm_fits: { ForSome perm IsValue },
}

/// An entry whose texts are lent; its type is a word.
#[derive(Clone, Copy)]
pub struct LentEntry<'a> {
    pub name: &'a [u8],
    pub kind: Option<&'a [u8]>,
    /// In octets.
    pub size: Option<u64>,
    pub modify: Option<Moment>,
    pub perm: Option<&'a [u8]>,
}

/// The value of a fact, by the form of its text (RFC 3659, section 7.5).
#[derive(Clone, Copy)]
pub(crate) enum FactValue<'a> {
    Text(&'a [u8]),
    /// In decimal.
    Number(u64),
    /// In fourteen digits.
    Stamp(Moment),
}

impl<'a> LentEntry<'a> {
    ghost use Rattle.std.specs.Option.{option_map};
    ghost use Rattle.ftp_facts.specs.Entry.{listed_lent, value_text};
    ghost use Rattle.ftp_facts.specs.Listed.{fact_text_in};

    /// The value of a fact, where the entry has it.
    pub(crate) fn value(self, name: FactName) -> Option<FactValue<'a>>
        ensures { option_map value_text result ≡ fact_text_in (listed_lent self.entry) name }
    {
        match name {
            FactName::Kind => Some(FactValue::Text(self.kind?)),
            FactName::Size => Some(FactValue::Number(self.size?)),
            FactName::Modify => Some(FactValue::Stamp(self.modify?)),
            FactName::Perm => Some(FactValue::Text(self.perm?)),
        }
    }
}

impl<A: Allocator + Copy> Entry<A> {
    ghost use Rattle.std.specs.Prelude.{IfOk};
    ghost use Rattle.std.specs.Option.{option_copied, option_map};
    ghost use Rattle.ftp_facts.specs.Entry.{IsFitEntry, listed_in, listed_lent, listed_of};

    /// A copy of an entry that is lent. One of the four words of a type, in whatever case, is that type.
    pub fn copy_of(alloc: A, lent: LentEntry<'_>) -> Result<Entry<A>, AllocError>
        requires { IsFitEntry (listed_lent lent) }
        // Witness: equations; callers: `read_entry`, `says`, and `write_entry`, `line`.
        ensures { IfOk result (λ entry. listed_of entry ≡ listed_in lent.entry) }
    {
        let kind = EntryKind::copy_of(alloc, lent.kind)?;
        let perm = Entry::copy_of_text(alloc, lent.perm)?;
        let name = Text::copy_of(alloc, lent.name)?;
        Ok(Entry {
            name,
            kind,
            size: lent.size,
            modify: lent.modify,
            perm,
        })
    }

    /// The entry, lent.
    pub fn lent(&self) -> LentEntry<'_>
        // Witness: as of `copy_of`.
        ensures { listed_lent result ≡ listed_of self.now }
    {
        LentEntry {
            name: self.name.as_slice(),
            kind: EntryKind::lent(&self.kind),
            size: self.size,
            modify: self.modify,
            perm: Entry::lent_text(&self.perm),
        }
    }

    fn copy_of_text(alloc: A, text: Option<&[u8]>) -> Result<Option<Text<A>>, AllocError>
        ensures { IfOk result (λ kept. kept ≡ option_copied text.entry) }
    {
        match text {
            None => Ok(None),
            Some(text) => Ok(Some(Text::copy_of(alloc, text)?)),
        }
    }

    fn lent_text(text: &Option<Text<A>>) -> Option<&[u8]>
        ensures { option_copied result ≡ text.now }
    {
        match text {
            None => None,
            Some(text) => Some(text.as_slice()),
        }
    }
}

impl<A: Allocator + Copy> EntryKind<A> {
    ghost use Rattle.std.specs.Prelude.{IfOk};
    ghost use Rattle.std.specs.Option.{option_copied, option_map};
    ghost use Rattle.ftp_facts.specs.Entry.{word_of_kind};
    ghost use Rattle.ftp_facts.specs.Listed.{kind_word};

    fn copy_of(alloc: A, word: Option<&[u8]>) -> Result<Option<EntryKind<A>>, AllocError>
        requires { ForSome (option_copied word) IsValue }
        ensures word { IfOk result (λ kind. option_map word_of_kind kind ≡ option_map kind_word (option_copied word.entry)) }
        ensures fits { IfOk result (λ kind. (other : List ℕ) → kind ≡ Some (Other other) → IsOtherWord other) }
    {
        match word {
            None => Ok(None),
            Some(word) => Ok(Some(EntryKind::of_word(alloc, word)?)),
        }
    }

    fn of_word(alloc: A, word: &[u8]) -> Result<EntryKind<A>, AllocError>
        requires { IsValue word.now }
        ensures word { IfOk result (λ kind. word_of_kind kind ≡ kind_word word.now) }
        ensures fits { IfOk result (λ kind. (other : List ℕ) → kind ≡ Other other → IsOtherWord other) }
    {
        if is_word(word, b"file") {
            Ok(EntryKind::File)
        } else if is_word(word, b"dir") {
            Ok(EntryKind::Dir)
        } else if is_word(word, b"cdir") {
            Ok(EntryKind::CurrentDir)
        } else if is_word(word, b"pdir") {
            Ok(EntryKind::ParentDir)
        } else {
            Ok(EntryKind::Other(Text::copy_of(alloc, word)?))
        }
    }

    fn lent(kind: &Option<EntryKind<A>>) -> Option<&[u8]>
        ensures { option_copied result ≡ option_map word_of_kind kind.now }
    {
        match kind {
            None => None,
            Some(kind) => Some(kind.word()),
        }
    }

    fn word(&self) -> &[u8]
        ensures { result.now ≡ word_of_kind self.now }
    {
        match self {
            EntryKind::File => b"file",
            EntryKind::Dir => b"dir",
            EntryKind::CurrentDir => b"cdir",
            EntryKind::ParentDir => b"pdir",
            EntryKind::Other(word) => word.as_slice(),
        }
    }
}
