// The lines of a row on one tree.
use crate::accounts::show_login;
use crate::apart::Apart;
use crate::change::{make_dirs, show_change};
use crate::failing_folder::FailingFolder;
use crate::failing_tree::FailingTree;
use crate::octets::octets_of;
use crate::operation::play_user;
use crate::paths::{place, show_path, show_text};
use crate::reading::{show_places, show_reading};
use crate::step::{TreeLine, TreeStep, line_of};
use crate::straying::strays_so;
use crate::straying_tree::StrayingTree;
use crate::told::TreeReport;
use crate::words::{cut_before, heading};
use ftp_tree::{Tree, TreeFault};
use ftp_tree_memory::{HeldTree, MemTree, Mirror};
use rows_base::{Paper, cut, number};
use std::alloc::{Allocator, Global};

/// What a refusal is called.
fn name_of(fault: TreeFault) -> &'static [u8] {
    match fault {
        TreeFault::Absent => b"absent",
        TreeFault::Exists => b"exists",
        TreeFault::NotEmpty => b"not empty",
        TreeFault::WrongKind => b"wrong kind",
        TreeFault::TooBig => b"too big",
        TreeFault::Full => b"full",
        TreeFault::Busy => b"busy",
        TreeFault::BadOffset => b"bad offset",
        TreeFault::Device => b"device",
        TreeFault::Memory => b"memory",
    }
}

fn tell(answer: Result<(), TreeFault>, paper: &mut Paper) {
    if let Err(fault) = answer {
        paper.put(name_of(fault));
    }
}

/// A line that may be refused for want of memory, or by a device: it wrote nothing then.
fn call<A: Allocator + Copy, T: HeldTree<A>>(
    heap: A,
    tree: &mut T,
    apart: &mut Apart<A, T>,
    line: &TreeLine<'_>,
    paper: &mut Paper,
) -> Result<(), TreeFault> {
    match line.step {
        TreeStep::Open | TreeStep::Entries | TreeStep::Put => apart.show_done(
            heap, tree, line, paper,
        ),
        TreeStep::Leads
        | TreeStep::Copy
        | TreeStep::Keys
        | TreeStep::Order
        | TreeStep::Below
        | TreeStep::Moved => show_path(heap, line, paper),
        _ => show_change(heap, tree, line, paper),
    }
}

/// Makes a call. Says whether it was refused for want of memory, or by a device, and is to be made again: then all is as it was.
fn play_call<A: Allocator + Copy, T: HeldTree<A>>(
    heap: A,
    tree: &mut T,
    apart: &mut Apart<A, T>,
    line: &TreeLine<'_>,
    told: &mut TreeReport,
) -> bool {
    let answer = call(heap, tree, apart, line, &mut told.paper);
    match answer {
        Err(TreeFault::Memory) => told.count(false),
        Err(TreeFault::Device) => told.count(true),
        _ => {
            tell(answer, &mut told.paper);
            return false;
        }
    }
    true
}

/// Plays a line, and writes what it answers. Says whether it is to be made again.
fn play_line<A: Allocator + Copy, T: HeldTree<A>>(
    heap: A,
    alloc: Global,
    tree: &mut T,
    apart: &mut Apart<A, T>,
    line: &TreeLine<'_>,
    told: &mut TreeReport,
) -> bool {
    let paper = &mut told.paper;
    match line.step {
        TreeStep::Heading => {}
        TreeStep::Text | TreeStep::Listed | TreeStep::Name | TreeStep::Number => show_text(
            line, paper,
        ),
        TreeStep::Login | TreeStep::Known | TreeStep::Accounts => show_login(alloc, line, paper),
        TreeStep::Kind
        | TreeStep::Size
        | TreeStep::Stamp
        | TreeStep::Room
        | TreeStep::Fits
        | TreeStep::Names
        | TreeStep::Piece
        | TreeStep::Read => tell(show_reading(alloc, tree, line, paper), paper),
        TreeStep::From | TreeStep::Whole | TreeStep::Shown => apart.show(alloc, tree, line, paper),
        TreeStep::Dirs => show_dirs(heap, tree, line, paper),
        _ => return play_call(heap, tree, apart, line, told),
    }
    false
}

/// Makes many directories, and writes how many.
fn show_dirs<A: Allocator + Copy, T: Tree<A>>(
    heap: A,
    tree: &mut T,
    line: &TreeLine<'_>,
    paper: &mut Paper,
) {
    if let Ok(root) = place(heap, line.root) {
        paper.number(make_dirs(heap, tree, &root, number(line.first)));
        paper.put(b" made");
    }
}

/// Writes a line, before its answer. A heading has none.
fn begin(text: &[u8], line: &TreeLine<'_>, paper: &mut Paper) {
    paper.put(text);
    if !line.is_heading() {
        paper.put(b" = ");
    }
}

/// Plays a line, again where it was refused so; writes what it answers, and what then stands at the places that are shown.
fn play_text<A: Allocator + Copy, T: HeldTree<A>>(
    heap: A,
    alloc: Global,
    tree: &mut T,
    apart: &mut Apart<A, T>,
    shown: &[u8],
    text: &[u8],
    told: &mut TreeReport,
) {
    let octets = octets_of(alloc, text);
    let line = line_of(octets.as_slice());
    begin(text, &line, &mut told.paper);
    if play_line(heap, alloc, tree, apart, &line, told) {
        let _ = play_line(heap, alloc, tree, apart, &line, told);
    }
    if !shown.is_empty() && !line.is_heading() {
        told.paper.put(b" | ");
        show_places(alloc, tree, shown, &mut told.paper);
    }
    told.paper.put(b"\n");
}

/// Plays lines on a tree.
fn play_lines<A: Allocator + Copy, T: HeldTree<A>>(
    heap: A,
    alloc: Global,
    tree: &mut T,
    shown: &[u8],
    lines: &[u8],
    told: &mut TreeReport,
) {
    let mut apart = Apart::nothing();
    let mut rest = lines;
    for _ in 0..lines.len() {
        if rest.is_empty() {
            break;
        }
        let (text, behind) = cut(rest, b'\n');
        play_text(heap, alloc, tree, &mut apart, shown, text, told);
        rest = behind;
    }
}

/// Plays the users of a row, one after another, on one tree.
fn play_users<A: Allocator + Copy, T: Tree<A>>(
    ample: A,
    heap: A,
    alloc: Global,
    tree: &mut T,
    users: &[u8],
    told: &mut TreeReport,
) {
    let mut rest = users;
    for _ in 0..users.len() {
        let [b'\n', group @ ..] = rest else {
            break;
        };
        let (group, behind) = cut_before(group, b"\nas ");
        play_user(ample, heap, alloc, tree, group, told);
        rest = behind;
    }
}

/// Plays a row on a tree: lines, and then operations of users. Writes what then stands at its places, and how often the device failed. A
/// mirrored row writes what stands there behind each line instead.
fn play_on<A: Allocator + Copy, T: HeldTree<A>>(
    ample: A,
    heap: A,
    alloc: Global,
    tree: &mut T,
    row: &[u8],
    told: &mut TreeReport,
) {
    let places = heading(row, b"places");
    if !heading(row, b"mirrored").is_empty() {
        play_lines(heap, alloc, tree, places, row, told);
        return;
    }
    let (lines, users) = cut_before(row, b"\nas ");
    play_lines(heap, alloc, tree, b"", lines, told);
    play_users(ample, heap, alloc, tree, users, told);
    if !heading(row, b"fails").is_empty() {
        told.paper.number(tree.device_failures().wrapping_add(1));
        told.paper.put(b" failures\n");
    }
    show_stands(alloc, tree, places, &mut told.paper);
}

/// What stands at the places of a row in the end, if it has some.
fn show_stands<A: Allocator + Copy, T: HeldTree<A>>(
    alloc: Global,
    tree: &T,
    places: &[u8],
    paper: &mut Paper,
) {
    if places.is_empty() {
        return;
    }
    paper.put(b"stands: ");
    show_places(alloc, tree, places, paper);
    paper.put(b"\n");
}

/// Plays a row on a tree of its own.
pub fn play_tree<A: Allocator + Copy>(
    ample: A,
    heap: A,
    alloc: Global,
    row: &[u8],
    told: &mut TreeReport,
) {
    let mut tree = MemTree::new(heap);
    play_on(ample, heap, alloc, &mut tree, row, told);
}

/// Plays a row on a mirrored tree of its own, whose folder fails at that call.
pub fn play_over_folder<A: Allocator + Copy>(
    ample: A,
    heap: A,
    alloc: Global,
    row: &[u8],
    fails_at: u64,
    told: &mut TreeReport,
) {
    let mut mirror = Mirror::new(MemTree::new(heap), FailingFolder::new(alloc, fails_at));
    play_on(ample, heap, alloc, &mut mirror, row, told);
}

/// Plays a row on a tree of its own: its lines, and then operations of users on it as one whose device strays so. Writes how often it strayed, and what
/// then stands at its places.
pub fn play_straying<A: Allocator + Copy>(
    ample: A,
    heap: A,
    alloc: Global,
    row: &[u8],
    how: &[u8],
    told: &mut TreeReport,
) {
    let (lines, users) = cut_before(row, b"\nas ");
    let mut tree = MemTree::new(heap);
    play_lines(heap, alloc, &mut tree, b"", lines, told);
    let mut straying = StrayingTree::new(FailingTree::new(tree, 0));
    if !strays_so(heap, alloc, &mut straying, how) {
        told.paper.put(b"! no stray\n");
    }
    play_users(ample, heap, alloc, &mut straying, users, told);
    told.paper.number(straying.strays());
    told.paper.put(b" strays\n");
    show_stands(
        alloc,
        straying.memory(),
        heading(row, b"places"),
        &mut told.paper,
    );
}
