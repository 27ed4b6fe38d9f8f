// What stands in a tree.
use crate::paths::place;
use ftp_facts::moment_text;
use ftp_path::Path;
use ftp_tree::{NodeKind, Tree};
use ftp_tree_memory::HeldTree;
use rows_base::{Paper, Tally, cut};
use std::alloc::{Allocator, Global};

/// More than the nodes of a tree.
const NODES: usize = 20_000;

/// More than the pieces of a file.
const PIECES: usize = 20_000_000;

/// A line for each directory, and for each file with its moment and its octets; what stands higher comes first.
pub fn show_tree<A: Allocator + Copy, T: HeldTree<A>>(alloc: Global, tree: &T, paper: &mut Paper) {
    let mut texts = Paper::new(alloc);
    texts.line(b"/");
    let mut shown = 0usize;
    for _ in 0..NODES {
        let text = line_at(texts.text(), shown);
        if text.is_empty() {
            break;
        }
        shown = shown.saturating_add(text.len()).saturating_add(1);
        match &place(alloc, text) {
            Ok(path) => show_node(alloc, tree, path, &mut texts, paper),
            Err(_) => paper.fill(),
        }
    }
    if texts.is_full() {
        paper.fill();
    }
}

/// The line that begins at a place.
fn line_at(text: &[u8], at: usize) -> &[u8] {
    let (_, rest) = text.split_at(at.min(text.len()));
    cut(rest, b'\n').0
}

/// The line of a node; the texts of its children come behind those that are there.
fn show_node<A: Allocator + Copy, T: HeldTree<A>>(
    alloc: Global,
    tree: &T,
    path: &Path<Global>,
    texts: &mut Paper,
    paper: &mut Paper,
) {
    let root = Path::root(alloc);
    paper.put(b"  ");
    paper.octets(path.text());
    if tree.kind(&root, path) == Some(NodeKind::File) {
        show_content(tree, &root, path, paper);
    } else {
        put_children(tree, &root, path, texts);
    }
    paper.line(b"");
}

/// A line for each child of a directory.
fn put_children<A: Allocator + Copy, T: Tree<A>>(
    tree: &T,
    root: &Path<Global>,
    path: &Path<Global>,
    texts: &mut Paper,
) {
    for place in 0..NODES {
        let Some(name) = tree.nth_name(root, path, place) else {
            break;
        };
        texts.put(path.key());
        texts.put(b"/");
        texts.line(name.octets());
    }
}

fn show_content<A: Allocator + Copy, T: HeldTree<A>>(
    tree: &T,
    root: &Path<Global>,
    path: &Path<Global>,
    paper: &mut Paper,
) {
    paper.put(b" ");
    if let Some(moment) = tree.stamp(root, path) {
        paper.octets(&moment_text(moment));
    }
    paper.put(b" ");
    let mut tally = Tally::new();
    for _ in 0..PIECES {
        let piece = tree.piece(root, path, tally.count(), 65_536);
        if piece.is_empty() {
            break;
        }
        tally.take(piece);
    }
    tally.show(paper);
}
