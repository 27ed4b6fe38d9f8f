// Which file of one command line goes under which name of this end.
ghost use Rattle.std.specs.Prelude.{◌≡◌, IfNone, IfSome, nat_eq, true};
ghost use Rattle.std.specs.Cmp.Lexicographic.{pointwise};

use crate::single::download::place_text;
use crate::single::target::Target;
use std::alloc::{AllocError, Global};
use std::cell::Cell;
use std::collections::BTreeMap;
use std::io;
use tool_files::{PARTS, beside};

/// The place of the file that goes under each name.
type Sources = BTreeMap<Vec<u8, Global>, Vec<u8, Global>, Global>;

/// The names under which the files of one command line go, each with the place of its file. No two files go under one name.
pub struct Targets {
    alloc: Global,
    sources: Cell<Option<Sources>>,
}

/// By hand: a derived drop is proved again, part by part, wherever they are let go.
impl Drop for Targets {
    fn drop(self) {
        let Self {
            alloc: _,
            sources: _,
        } = self;
    }
}

impl Targets {
    /// None yet.
    pub fn new(alloc: Global) -> Targets {
        Targets {
            alloc,
            sources: Cell::new(None),
        }
    }

    /// The file of this place is to go under a name. Says whether it may: no other file goes under it. Fails where memory is refused; then it goes under none.
    pub fn claim(&self, name: &str, source: &str) -> Result<bool, AllocError> {
        let mut sources = self.taken();
        let claimed = claimed(self.alloc, &mut sources, name.as_bytes(), source.as_bytes());
        self.sources.set(Some(sources));
        claimed
    }

    /// The numbers of the parts beside a file whose names are those of files of the command line. Fails where memory is refused.
    pub fn parts(&self, file: &str) -> Result<Vec<u32, Global>, AllocError> {
        let sources = self.taken();
        let found = parts_among(self.alloc, &sources, file);
        self.sources.set(Some(sources));
        found
    }

    /// What there is so far, until it is set again.
    fn taken(&self) -> Sources {
        match self.sources.replace(None) {
            Some(sources) => sources,
            None => BTreeMap::new(self.alloc),
        }
    }
}

/// The file of a server that a user gets, as a text of two lines. A path or a user with a line end may give the same as others do. Fails where memory is
/// refused.
pub fn source_of(alloc: Global, asked: &Target<'_>) -> io::Result<String<Global>> {
    let place = place_text(alloc, asked)?;
    let user = asked.user.name.unwrap_or("");
    Ok(format!(in alloc; "{place}\n{user}")?)
}

/// Puts the place of a file under a name, where that is free for it, and says whether it is.
fn claimed(
    alloc: Global,
    sources: &mut Sources,
    name: &[u8],
    source: &[u8],
) -> Result<bool, AllocError> {
    let is_new = match sources.get(name) {
        Some(held) if !is_free(Some(held.as_slice()), source) => return Ok(false),
        Some(_) => false,
        None => true,
    };
    if is_new {
        let name = Vec::from_slice(alloc, name)?;
        let source = Vec::from_slice(alloc, source)?;
        if sources.insert(name, source).is_err() {
            return Err(AllocError);
        }
    }
    Ok(true)
}

/// Whether the file of a place may go under a name, where one of the other place goes under it, if one does: no other file may.
fn is_free(held: Option<&[u8]>, source: &[u8]) -> bool
    ensures none { IfNone held.entry (result ≡ true) }
    // Witness of some: an equation; `edits/another_file_goes_under_the_name`.
    ensures some { IfSome held.entry (λ held. result ≡ pointwise nat_eq held.now source.now) }
{
    match held {
        Some(held) => held == source,
        None => true,
    }
}

/// The numbers of the parts beside a file whose names are taken.
fn parts_among(
    alloc: Global,
    sources: &Sources,
    file: &str,
) -> Result<Vec<u32, Global>, AllocError> {
    let mut found = Vec::new(alloc);
    for number in 0..PARTS {
        let name = beside(alloc, file, number)?;
        if sources.get(name.as_bytes()).is_some() {
            found.push(number)?;
        }
    }
    Ok(found)
}
