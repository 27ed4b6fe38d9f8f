// Lines that change a tree.
use crate::paths::place;
use crate::step::{TreeLine, TreeStep};
use ftp_facts::Moment;
use ftp_path::Path;
use ftp_tree::{Tree, TreeFault};
use ftp_tree_memory::{Content, HeldTree};
use rows_base::{Paper, number};
use std::alloc::Allocator;

/// Does what a line says, and writes `done`.
pub fn show_change<A: Allocator + Copy, T: HeldTree<A>>(
    alloc: A,
    tree: &mut T,
    line: &TreeLine<'_>,
    paper: &mut Paper,
) -> Result<(), TreeFault> {
    let root = place(alloc, line.root)?;
    let path = place(alloc, line.first)?;
    let answer = change(alloc, tree, &root, &path, line);
    if answer.is_ok() {
        paper.put(b"done");
    }
    answer
}

fn change<A: Allocator + Copy, T: HeldTree<A>>(
    alloc: A,
    tree: &mut T,
    root: &Path<A>,
    path: &Path<A>,
    line: &TreeLine<'_>,
) -> Result<(), TreeFault> {
    match line.step {
        TreeStep::Make => tree.make_dir(root, path),
        TreeStep::Remove => tree.remove_dir(root, path),
        TreeStep::Delete => tree.delete(root, path),
        TreeStep::Rename => rename(alloc, tree, root, path, line.second),
        TreeStep::Onto => rename_onto(alloc, tree, root, path, line.second),
        TreeStep::Install => install(alloc, tree, root, path, line),
        _ => front(alloc, tree, root, path, line),
    }
}

fn rename<A: Allocator + Copy, T: Tree<A>>(
    alloc: A,
    tree: &mut T,
    root: &Path<A>,
    path: &Path<A>,
    text: &[u8],
) -> Result<(), TreeFault> {
    let to = place(alloc, text)?;
    tree.rename(root, path, &to)
}

fn rename_onto<A: Allocator + Copy, T: Tree<A>>(
    alloc: A,
    tree: &mut T,
    root: &Path<A>,
    path: &Path<A>,
    text: &[u8],
) -> Result<(), TreeFault> {
    let to = place(alloc, text)?;
    tree.rename_onto(root, path, &to)
}

/// Installs octets in a second.
fn install<A: Allocator + Copy, T: HeldTree<A>>(
    alloc: A,
    tree: &mut T,
    root: &Path<A>,
    path: &Path<A>,
    line: &TreeLine<'_>,
) -> Result<(), TreeFault> {
    let mut content = Content::new(alloc);
    let Ok(_) = content.push(line.second) else {
        return Err(TreeFault::Memory);
    };
    let Some(moment) = Moment::new(number(line.third)) else {
        return Err(TreeFault::BadOffset);
    };
    let answer = tree.install(root, path, &mut content, moment);
    if answer.is_err() && !grows(&mut content, line.second) {
        return Err(TreeFault::BadOffset);
    }
    answer
}

/// Whether a content that was refused has just these octets, and takes them once more.
fn grows<A: Allocator + Copy>(content: &mut Content<A>, octets: &[u8]) -> bool {
    let whole = content.len();
    content.push(octets).is_ok()
        && whole == octets.len() as u64
        && content.len() == whole.saturating_add(whole)
}

/// Installs so many first octets of a file elsewhere, in the second 8.
fn front<A: Allocator + Copy, T: HeldTree<A>>(
    alloc: A,
    tree: &mut T,
    root: &Path<A>,
    path: &Path<A>,
    line: &TreeLine<'_>,
) -> Result<(), TreeFault> {
    let copy = place(alloc, line.third)?;
    let mut content = Content::of(alloc, tree, root, path, number(line.second))?;
    tree.install(root, &copy, &mut content, Moment { seconds: 8 })
}

/// Makes so many directories below a root, `/00000` and on, or as many as the tree takes. Says how many.
pub fn make_dirs<A: Allocator + Copy, T: Tree<A>>(
    alloc: A,
    tree: &mut T,
    root: &Path<A>,
    count: u64,
) -> u64 {
    for place in 0..count {
        if !makes_dir(alloc, tree, root, place) {
            return place;
        }
    }
    count
}

fn makes_dir<A: Allocator + Copy, T: Tree<A>>(
    alloc: A,
    tree: &mut T,
    root: &Path<A>,
    number: u64,
) -> bool {
    match place(alloc, &numbered(number)) {
        Ok(path) => tree.make_dir(root, &path).is_ok(),
        Err(_) => false,
    }
}

/// The path of a number of five digits.
fn numbered(place: u64) -> [u8; 6] {
    [
        b'/',
        digit(place / 10_000),
        digit(place / 1_000),
        digit(place / 100),
        digit(place / 10),
        digit(place),
    ]
}

fn digit(value: u64) -> u8 {
    b'0' + (value % 10) as u8
}
