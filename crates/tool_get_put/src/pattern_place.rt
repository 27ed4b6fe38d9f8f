// A directory of a server, and a pattern of names there: which of them it chooses.
ghost use Rattle.std.specs.Prelude.{◌≡◌, ◌++◌};
ghost use Rattle.std.specs.List.{list_any};
ghost use Rattle.tool_get_put.specs.Choosing.{is_directory, is_directory_of};

use crate::showing::says_unknown;
use ftp_facts::Text;
use ftp_operation::{Answer, ListVerb};
use std::alloc::{AllocError, Global};
use tool_job::{Single, Target, Wish};
use tool_listing::{
    ItemKind, ListedItem, chosen_items, chosen_names, is_name, items_of_columns, items_of_facts,
    matches,
};
use tool_location::last_part;
use tool_session::ClientSession;

/// A path as that of a directory, which is empty or ends in a slash, and what follows it.
pub(crate) fn parted(path: &str) -> (&str, &str)
    ensures { path.now ≡ result.0.now ++ result.1.now }
{
    let name = last_part(path);
    match path.strip_suffix(name) {
        Some(dir) => (dir, name),
        None => ("", path),
    }
}

/// The names of files that a pattern chose of a directory.
pub(crate) struct ChosenNames {
    /// In the order of their octets, each once.
    pub(crate) names: Vec<Text<Global>, Global>,
    /// Whether directories are of the pattern too; where the server gives names alone, that is not known.
    pub(crate) has_directories: bool,
}

/// By hand: a derived drop is proved again, part by part, wherever one is let go.
impl Drop for ChosenNames {
    fn drop(self) {
        let Self {
            names: _,
            has_directories: _,
        } = self;
    }
}

impl ChosenNames {
    /// The names alone.
    pub(crate) fn into_names(self) -> Vec<Text<Global>, Global>
        ensures { result ≡ self.names }
    {
        let Self {
            names,
            has_directories: _,
        } = self;
        names
    }
}

/// A directory of a server, and a pattern of names there.
#[derive(Clone, Copy)]
pub(crate) struct PatternPlace<'a> {
    pub(crate) alloc: Global,
    /// What is asked, with a path that ends in the pattern.
    pub(crate) asked: Target<'a>,
    /// The path of the directory, as `parted` gives it.
    pub(crate) dir: &'a str,
    pattern: &'a str,
}

impl<'a> PatternPlace<'a> {
    /// The directory and the pattern of what is asked.
    pub(crate) fn of(alloc: Global, asked: Target<'a>) -> PatternPlace<'a> {
        let (dir, pattern) = parted(asked.place.path);
        PatternPlace {
            alloc,
            asked,
            dir,
            pattern,
        }
    }

    /// The entries of the directory by MLSD or LIST, or its names by NLST where neither is known there.
    pub(crate) fn listed<S: ClientSession>(
        &self,
        slot: &mut S,
    ) -> Result<Answer<Global>, AllocError> {
        let entries = self.single(Wish::Entries).asked(slot)?;
        if !says_unknown(&entries) {
            return Ok(entries);
        }
        drop(entries);
        self.single(Wish::Names).asked(slot)
    }

    fn single(&self, wish: Wish) -> Single<'a> {
        Single {
            alloc: self.alloc,
            path: self.dir,
            how: self.asked.how,
            openings: self.asked.openings,
            wish,
        }
    }

    /// The names that the pattern chooses of a listing; none of another answer.
    pub(crate) fn chosen(
        &self,
        answer: &Answer<Global>,
    ) -> Result<Option<ChosenNames>, AllocError> {
        let pattern = self.pattern.as_bytes();
        match answer {
            Answer::Octets(text) => {
                let items = self.items(text.as_slice())?;
                Ok(Some(ChosenNames {
                    names: chosen_items(self.alloc, pattern, items.as_slice())?,
                    has_directories: is_any_directory_of(pattern, items.as_slice()),
                }))
            }
            Answer::Names(names) => {
                let dir = self.dir.as_bytes();
                Ok(Some(ChosenNames {
                    names: chosen_names(self.alloc, pattern, dir, names.as_slice())?,
                    has_directories: false,
                }))
            }
            _ => Ok(None),
        }
    }

    /// What the directory has, by a listing of it as text.
    fn items(&self, text: &[u8]) -> Result<Vec<ListedItem<Global>, Global>, AllocError> {
        match self.asked.openings.list_verb() {
            ListVerb::Mlsd => items_of_facts(self.alloc, text),
            ListVerb::List | ListVerb::Nlst => items_of_columns(self.alloc, text),
        }
    }
}

/// Whether a directory is of a pattern.
fn is_any_directory_of(pattern: &[u8], items: &[ListedItem<Global>]) -> bool
    // Witness: an equation; `edits/a_file_of_a_pattern_is_a_directory`.
    ensures { result ≡ list_any (is_directory_of pattern.now) items.now }
{
    items.iter().any(|item| is_directory_of(pattern, item))
}

fn is_directory_of(pattern: &[u8], item: &ListedItem<Global>) -> bool
    ensures { result ≡ is_directory_of pattern.now item.now }
{
    let name = item.name.as_slice();
    is_directory(item.kind) && is_name(name) && matches(pattern, name)
}

fn is_directory(kind: ItemKind) -> bool
    ensures { result ≡ is_directory kind }
{
    match kind {
        ItemKind::Dir => true,
        ItemKind::File(_) | ItemKind::Other | ItemKind::Excluded | ItemKind::Odd => false,
    }
}
