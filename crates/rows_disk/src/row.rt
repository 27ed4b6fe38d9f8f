// A row: what others do, what goes wrong, and operations, line by line, on one tree over one folder.
use crate::hand::{do_so, show_error, text_of};
use crate::memory_host::{HostTrouble, MemoryHost};
use ftp_disk_tree::{DiskTree, Explains, LeftOut, LoadFault, Others, Unknown, Unserved, open};
use ftp_path::Path;
use ftp_tree::{Limits, Tree};
use rows_base::{Paper, cut, number, octets_of, row_in_front, said, split};
use rows_tree::{TreeReport, cut_before, play_user};
use std::alloc::Global;
use std::io;

/// Plays each row of a script. Rows are paragraphs.
pub fn play_all(alloc: Global, script: &[u8]) -> Paper {
    let mut paper = Paper::new(alloc);
    let mut rest = script;
    for _ in 0..script.len() {
        let (row, behind) = row_in_front(rest);
        play_row(alloc, row, &mut paper);
        if behind.is_empty() {
            break;
        }
        paper.put(b"\n");
        rest = behind;
    }
    paper
}

/// Plays a row; one that says so many calls, again for each of them, which fails.
fn play_row(alloc: Global, row: &[u8], paper: &mut Paper) {
    let (title, _) = cut(row, b'\n');
    paper.line(title);
    let Some(calls) = said(row, b"each") else {
        play_once(alloc, row, 0, paper);
        return;
    };
    for call in 1..=number(calls) {
        paper.put(b"call ");
        paper.number(call);
        paper.put(b"\n");
        play_once(alloc, row, call, paper);
    }
}

/// The same with that call failing, none for 0.
fn play_once(alloc: Global, row: &[u8], call: u64, paper: &mut Paper) {
    let Ok(host) = MemoryHost::new(alloc) else {
        paper.fill();
        return;
    };
    let mut tree = None;
    let mut rest = row;
    for _ in 0..row.len() {
        let (line, behind) = cut(rest, b'\n');
        rest = match line {
            [b'-', b' ', action @ ..] => {
                show_action(line, call, paper);
                tree = play_action(alloc, &host, tree, action, call, paper);
                behind
            }
            [b'a', b's', b' ', ..] => play_group(alloc, &mut tree, rest, paper),
            _ => behind,
        };
        if rest.is_empty() {
            break;
        }
    }
    show_end(alloc, &host, &tree, row, paper);
}

/// Writes what a line says, of a row that is played once.
fn show_action(line: &[u8], call: u64, paper: &mut Paper) {
    if call == 0 {
        paper.line(line);
    }
}

/// Does what a line says: a tree begins, the call of the row fails from there on, or what another hand does.
fn play_action<'a>(
    alloc: Global,
    host: &'a MemoryHost,
    tree: Option<DiskTree<'a, MemoryHost, Unknown>>,
    action: &[u8],
    call: u64,
    paper: &mut Paper,
) -> Option<DiskTree<'a, MemoryHost, Unknown>> {
    match split(action) {
        (b"start", how) => started(alloc, host, how, paper),
        (b"here", _) => {
            host.meet(HostTrouble::Fails(call));
            tree
        }
        _ => {
            do_so(alloc, host, action, paper);
            tree
        }
    }
}

/// The tree of a folder as it begins. Words: `skip`, `keep`, or a limit.
fn started<'a>(
    alloc: Global,
    host: &'a MemoryHost,
    how: &[u8],
    paper: &mut Paper,
) -> Option<DiskTree<'a, MemoryHost, Unknown>> {
    let unserved = if how == b"skip".as_slice() {
        Unserved::LeaveOut
    } else {
        Unserved::Refuse
    };
    let others = if how == b"keep".as_slice() {
        Others::Keep
    } else {
        Others::Change
    };
    let roots: Vec<Path<Global>, Global> = Vec::new(alloc);
    match open(host, roots.as_slice(), limits_of(how), unserved, others) {
        Ok((tree, left)) => {
            show_left(alloc, &left, paper);
            Some(tree)
        }
        Err(fault) => {
            show_fault(alloc, &fault, paper);
            None
        }
    }
}

/// The limits of a tree: `files 6` says how many files and directories, `octets 10` of all files together, a number alone of a file.
fn limits_of(how: &[u8]) -> Limits {
    let usual = Limits::default();
    match split(how) {
        (b"files", most) => Limits {
            nodes: number(most),
            ..usual
        },
        (b"octets", most) => Limits {
            total: number(most),
            ..usual
        },
        _ => match number(how) {
            0 => usual,
            file => Limits { file, ..usual },
        },
    }
}

/// Plays operations of a user, up to the next line of another kind; gives what comes after them.
fn play_group<'r>(
    alloc: Global,
    tree: &mut Option<DiskTree<'_, MemoryHost, Unknown>>,
    rest: &'r [u8],
    paper: &mut Paper,
) -> &'r [u8] {
    let (group, behind) = cut_before(rest, b"\n- ");
    let Some(tree) = tree else {
        return after_line(behind);
    };
    let mut told = TreeReport::new(alloc);
    play_user(alloc, alloc, alloc, tree, group, &mut told);
    paper.put(told.paper.text());
    after_line(behind)
}

fn after_line(rest: &[u8]) -> &[u8] {
    match rest {
        [b'\n', behind @ ..] => behind,
        _ => rest,
    }
}

/// Writes how often the device failed and why last, and what stands at the places of a row.
fn show_end(
    alloc: Global,
    host: &MemoryHost,
    tree: &Option<DiskTree<'_, MemoryHost, Unknown>>,
    row: &[u8],
    paper: &mut Paper,
) {
    if let Some(tree) = tree {
        show_failures(alloc, tree, paper);
    }
    let Some(places) = said(row, b"places") else {
        return;
    };
    let mut rest = places;
    for _ in 0..places.len() {
        let (place, behind) = split(rest);
        show_place(alloc, host, place, paper);
        if behind.is_empty() {
            break;
        }
        rest = behind;
    }
}

fn show_failures(alloc: Global, tree: &DiskTree<'_, MemoryHost, Unknown>, paper: &mut Paper) {
    if tree.device_failures() == 0 {
        return;
    }
    paper.number(tree.device_failures());
    paper.put(b" failures");
    if let Some(why) = tree.reason() {
        paper.put(b": ");
        show_error(alloc, &why, paper);
    }
    paper.put(b"\n");
}

/// Writes the octets of the file at a place of the folder, if one stands there.
fn show_place(alloc: Global, host: &MemoryHost, place: &[u8], paper: &mut Paper) {
    paper.put(place);
    paper.put(b": ");
    match octets_at(alloc, host, place) {
        Ok(Some(octets)) => paper.quote(octets.as_slice()),
        Ok(None) => paper.put(b"no file"),
        Err(error) => show_error(alloc, &error, paper),
    }
    paper.put(b"\n");
}

fn octets_at(
    alloc: Global,
    host: &MemoryHost,
    place: &[u8],
) -> io::Result<Option<Vec<u8, Global>>> {
    let place = octets_of(alloc, place)?;
    host.octets(text_of(place.as_slice())?)
}

fn show_left(alloc: Global, left: &LeftOut, paper: &mut Paper) {
    if let Some(first) = &left.first {
        paper.number(left.count);
        paper.put(b" left out, ");
        show_fault(alloc, first, paper);
    }
}

fn show_fault(alloc: Global, fault: &LoadFault, paper: &mut Paper) {
    match format!(in alloc; "{fault}") {
        Ok(text) => paper.line(text.as_bytes()),
        Err(_) => paper.fill(),
    }
}
