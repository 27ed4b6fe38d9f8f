// What a directory shows, as it was when it was asked.
ghost use Rattle.std.specs.Prelude.{◌≡◌, ◌++◌, ◌∷◌, [], IfOk, IsTrue, OnOk, option_map};
ghost use Rattle.std.specs.List.{slice_get};
ghost use Rattle.ftp_path.specs.Path.{is_name};
ghost use Rattle.ftp_tree.specs.Entries.{shown_entry, shown_file};

use crate::label::Label;
use crate::tree::{DirEntry, FileFacts};
use ftp_path::Name;
use std::alloc::{AllocError, Allocator};
use std::marker::Model;

/// A name in a directory and what it shows, held with the tree by counting.
#[derive(Drop)]
struct Row<A: Allocator + Copy> {
    name: Label<A>,
    file: Option<FileFacts>,
}

/// The names in a directory, in the order of their octets, and what each shows, as they were when they were asked for. The
/// octets of the names are the tree's own, held with it by counting.
pub struct DirEntries<A: Allocator + Copy> {
    rows: Vec<Row<A>, A>,
}

/// By hand: a derived drop is proved again, row by row, in each crate that lets entries go.
impl<A: Allocator + Copy> Drop for DirEntries<A> {
    fn drop(self) {
        let Self { rows: _ } = self;
    }
}

impl<A: Allocator + Copy> Model for DirEntries<A> {
    ghost use Rattle.std.specs.Prelude.{ℕ, List, Option, IsTrue, map};
    ghost use Rattle.std.specs.List.{list_all};
    ghost use Rattle.ftp_path.specs.Path.{is_name};
    ghost use Rattle.ftp_tree.specs.Entries.{shown_row};

    ghost Value = { List (List ℕ × Option (ℕ × ℕ)) };

    ghost view = { λ entries. map shown_row entries.rows.items };

    ghost invariant = { λ entries. IsTrue (list_all (λ row. is_name row.name) entries.rows.items) };
}

impl<A: Allocator + Copy> DirEntries<A> {
    /// No entries. Takes no memory.
    pub fn none(alloc: A) -> DirEntries<A>
        ensures { result ≡ [] }
    {
        DirEntries {
            rows: Vec::new(alloc),
        }
    }

    /// No entries, with memory for so many.
    pub fn with_capacity(alloc: A, count: usize) -> Result<DirEntries<A>, AllocError>
        ensures { IfOk result (λ entries. entries ≡ []) }
    {
        let rows = Vec::with_capacity(alloc, count)?;
        Ok(DirEntries { rows })
    }

    /// Puts an entry behind those that it has.
    pub fn push(&mut self, name: Label<A>, file: Option<FileFacts>) -> Result<(), AllocError>
        requires { IsTrue (is_name name) }
        ensures { OnOk result (self.new ≡ self.old ++ (name, shown_file file) ∷ []) }
    {
        match self.rows.push(Row { name, file }) {
            Ok(()) => Ok(()),
            Err(_) => Err(AllocError),
        }
    }

    /// The entry that comes at a place, counted from 0.
    pub fn nth(&self, place: usize) -> Option<DirEntry<'_>>
        ensures { option_map shown_entry result ≡ slice_get self.now place }
    {
        if place >= self.rows.len() {
            return None;
        }
        let row = &self.rows[place];
        let Some(name) = Name::new(row.name.as_slice()) else {
            return None;
        };
        Some(DirEntry {
            name,
            file: row.file,
        })
    }
}
