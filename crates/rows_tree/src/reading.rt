// Lines that read a tree.
use crate::paths::place;
use crate::step::{TreeLine, TreeStep};
use ftp_path::Path;
use ftp_tree::{NodeKind, Tree, TreeFault};
use ftp_tree_memory::HeldTree;
use rows_base::{Paper, cut, number};
use std::alloc::{Allocator, Global};

/// More than the names of a directory that are shown.
const SHOWN: usize = 100;

/// Writes what a line asks for.
pub fn show_reading<A: Allocator + Copy, T: HeldTree<A>>(
    alloc: Global,
    tree: &T,
    line: &TreeLine<'_>,
    paper: &mut Paper,
) -> Result<(), TreeFault> {
    let root = place(alloc, line.root)?;
    let path = place(alloc, line.first)?;
    read(alloc, tree, &root, &path, line, paper)
}

fn read<A: Allocator + Copy, T: HeldTree<A>>(
    alloc: Global,
    tree: &T,
    root: &Path<Global>,
    path: &Path<Global>,
    line: &TreeLine<'_>,
    paper: &mut Paper,
) -> Result<(), TreeFault> {
    match line.step {
        TreeStep::Kind => show_kind(tree, root, path, paper),
        TreeStep::Size => show_number(tree.size(root, path), paper),
        TreeStep::Stamp => show_second(tree, root, path, paper),
        TreeStep::Room => paper.number(tree.room(root, path)?),
        TreeStep::Fits => show_fits(tree, path, paper),
        TreeStep::Names => show_names(tree, root, path, paper),
        TreeStep::Piece => paper.quote(tree.piece(
            root,
            path,
            number(line.second),
            number(line.third) as usize,
        )),
        _ => show_file(alloc, tree, root, path, number(line.second) as usize, paper),
    }
    Ok(())
}

fn show_kind<A: Allocator + Copy, T: Tree<A>>(
    tree: &T,
    root: &Path<Global>,
    path: &Path<Global>,
    paper: &mut Paper,
) {
    paper.put(match tree.kind(root, path) {
        None => b"nothing".as_slice(),
        Some(NodeKind::Dir) => b"directory",
        Some(NodeKind::File) => b"file",
    });
}

fn show_number(number: Option<u64>, paper: &mut Paper) {
    match number {
        Some(number) => paper.number(number),
        None => paper.put(b"none"),
    }
}

fn show_second<A: Allocator + Copy, T: Tree<A>>(
    tree: &T,
    root: &Path<Global>,
    path: &Path<Global>,
    paper: &mut Paper,
) {
    match tree.stamp(root, path) {
        Some(moment) => paper.number(moment.seconds),
        None => paper.put(b"none"),
    }
}

/// Whether the octets of all files below a root are within the limit.
fn show_fits<A: Allocator + Copy, T: Tree<A>>(tree: &T, root: &Path<Global>, paper: &mut Paper) {
    paper.put(if tree.fits(root) {
        b"yes".as_slice()
    } else {
        b"no"
    });
}

/// The names in a directory, each with a `,` behind it.
fn show_names<A: Allocator + Copy, T: Tree<A>>(
    tree: &T,
    root: &Path<Global>,
    path: &Path<Global>,
    paper: &mut Paper,
) {
    for place in 0..SHOWN {
        let Some(name) = tree.nth_name(root, path, place) else {
            break;
        };
        paper.octets(name.octets());
        paper.put(b",");
    }
}

/// The octets of a file, so many asked for at a time.
fn show_file<A: Allocator + Copy, T: HeldTree<A>>(
    alloc: Global,
    tree: &T,
    root: &Path<Global>,
    path: &Path<Global>,
    step: usize,
    paper: &mut Paper,
) {
    let mut octets = Vec::new(alloc);
    for _ in 0..100_000 {
        let piece = tree.piece(root, path, octets.len() as u64, step);
        if piece.is_empty() {
            break;
        }
        let _ = octets.extend_from_slice(piece);
    }
    paper.quote(octets.as_slice());
}

/// What stands at some places, on one line: a directory, or a file with its second and its first octets.
pub fn show_places<A: Allocator + Copy, T: HeldTree<A>>(
    alloc: Global,
    tree: &T,
    places: &[u8],
    paper: &mut Paper,
) {
    let mut rest = places;
    for _ in 0..places.len() {
        if rest.is_empty() {
            break;
        }
        let (text, behind) = cut(rest, b' ');
        if let Ok(path) = &place(alloc, text) {
            show_place(tree, &Path::root(alloc), path, text, paper);
        }
        rest = behind;
    }
}

fn show_place<A: Allocator + Copy, T: HeldTree<A>>(
    tree: &T,
    root: &Path<Global>,
    path: &Path<Global>,
    text: &[u8],
    paper: &mut Paper,
) {
    if tree.kind(root, path).is_none() {
        return;
    }
    paper.octets(text);
    paper.put(b" ");
    show_kind(tree, root, path, paper);
    paper.put(b" ");
    show_second(tree, root, path, paper);
    paper.put(b" ");
    paper.quote(tree.piece(root, path, 0, 4_096));
    paper.put(b"; ");
}
