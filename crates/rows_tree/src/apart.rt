// What a row has of a tree apart from it: a file that is open, and what a directory showed.
use crate::paths::place;
use crate::step::{TreeLine, TreeStep};
use ftp_facts::Moment;
use ftp_path::Path;
use ftp_tree::{DirEntries, DirEntry, Draft, Tree, TreeFault};
use rows_base::{Paper, Tally, number};
use std::alloc::{Allocator, Global};

/// More than the reads of an open file.
const READS: usize = 400_000;

/// More than the entries of a directory that are shown.
const SHOWN: usize = 100;

/// A file that is open, and what a directory showed when it was asked.
#[derive(Drop)]
pub struct Apart<A: Allocator + Copy, T: Tree<A>> {
    file: Option<T::Open>,
    entries: Option<DirEntries<A>>,
}

impl<A: Allocator + Copy, T: Tree<A>> Apart<A, T> {
    pub fn nothing() -> Apart<A, T> {
        Apart {
            file: None,
            entries: None,
        }
    }

    /// Opens a file, takes what a directory shows, or puts a file; writes `done`.
    pub fn show_done(
        &mut self,
        alloc: A,
        tree: &mut T,
        line: &TreeLine<'_>,
        paper: &mut Paper,
    ) -> Result<(), TreeFault> {
        let root = place(alloc, line.root)?;
        let path = place(alloc, line.first)?;
        match line.step {
            TreeStep::Open => self.file = Some(tree.open(&root, &path)?),
            TreeStep::Entries => self.entries = Some(entries_of(tree, &root, &path)?),
            _ => put(tree, &root, &path, line)?,
        }
        paper.put(b"done");
        Ok(())
    }

    /// Writes octets of the open file, or what a directory showed.
    pub fn show(&mut self, alloc: Global, tree: &mut T, line: &TreeLine<'_>, paper: &mut Paper) {
        if matches!(line.step, TreeStep::Shown) {
            return self.show_entries(paper);
        }
        let Some(file) = &mut self.file else {
            return paper.put(b"none is open");
        };
        match line.step {
            TreeStep::From => show_from(alloc, tree, file, line, paper),
            _ => show_whole(alloc, tree, file, number(line.first) as usize, paper),
        }
    }

    /// Each name with the octets and the second of a file, and a `,` behind it.
    fn show_entries(&self, paper: &mut Paper) {
        let Some(entries) = &self.entries else {
            return paper.put(b"none were asked");
        };
        for place in 0..SHOWN {
            let Some(entry) = entries.nth(place) else {
                break;
            };
            show_entry(&entry, paper);
        }
    }
}

fn entries_of<A: Allocator + Copy, T: Tree<A>>(
    tree: &T,
    root: &Path<A>,
    path: &Path<A>,
) -> Result<DirEntries<A>, TreeFault> {
    match tree.entries(root, path) {
        Ok(entries) => Ok(entries),
        Err(_) => Err(TreeFault::Memory),
    }
}

/// Puts octets behind so many of the file there, in the second 8.
fn put<A: Allocator + Copy, T: Tree<A>>(
    tree: &mut T,
    root: &Path<A>,
    path: &Path<A>,
    line: &TreeLine<'_>,
) -> Result<(), TreeFault> {
    let mut draft = tree.begin(root, path, 0)?;
    let Ok(_) = draft.push(line.third) else {
        return Err(TreeFault::Memory);
    };
    tree.put(
        root,
        path,
        number(line.second),
        draft,
        Moment { seconds: 8 },
    )
}

/// So many octets of room.
fn room_of(alloc: Global, len: usize) -> Vec<u8> {
    let mut room = Vec::new(alloc);
    let _ = room.resize(len, b'?');
    room
}

/// The octets of an open file from a place on, so many at most.
fn show_from<A: Allocator + Copy, T: Tree<A>>(
    alloc: Global,
    tree: &mut T,
    file: &mut T::Open,
    line: &TreeLine<'_>,
    paper: &mut Paper,
) {
    let mut room = room_of(alloc, number(line.second) as usize);
    match tree.read(file, number(line.first), room.as_mut_slice()) {
        Ok(count) => paper.quote(&room.as_slice()[..count]),
        Err(_) => paper.put(b"device"),
    }
}

/// All octets of an open file, read into so much room at a time; says how many it has where they are others.
fn show_whole<A: Allocator + Copy, T: Tree<A>>(
    alloc: Global,
    tree: &mut T,
    file: &mut T::Open,
    len: usize,
    paper: &mut Paper,
) {
    let mut room = room_of(alloc, len);
    let mut tally = Tally::new();
    for _ in 0..READS {
        match tree.read(file, tally.count(), room.as_mut_slice()) {
            Ok(count) => tally.take(&room.as_slice()[..count]),
            Err(_) => paper.put(b"device "),
        }
        if tally.count() >= T::open_len(file) || len == 0 {
            break;
        }
    }
    tally.show(paper);
    if tally.count() != T::open_len(file) {
        paper.put(b" of ");
        paper.number(T::open_len(file));
    }
}

fn show_entry(entry: &DirEntry<'_>, paper: &mut Paper) {
    paper.octets(entry.name.octets());
    if let Some(file) = entry.file {
        paper.put(b" ");
        paper.number(file.size);
        paper.put(b" ");
        paper.number(file.moment.seconds);
    }
    paper.put(b",");
}
