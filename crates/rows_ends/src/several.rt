// Rows of several sessions over one tree: calls of the session in a slot (`ftp_server_calls`).
use crate::server::begun::{accounts_with, plants};
use crate::server::cued::{cue_of, show};
use crate::turn::{RowTurn, SERVER};
use ftp_operation::Rights;
use ftp_server::Server;
use ftp_server_calls::several::{Played, Sessions, Turn as InSlot};
use ftp_server_replies::ServerTransfer;
use ftp_server_transfer::TreeTransfer;
use ftp_tree_memory::MemTree;
use laws_server::Lends;
use rows_base::{Paper, cut, number, split};
use rows_tree::show_tree;
use std::alloc::{AllocError, Global};

/// The tree of all, and each session's own while it is not called: an empty one of memory, which nobody reads or changes.
type Trees = MemTree<Global>;

/// Plays a row: each line, and after it what came of it.
pub fn play_row(alloc: Global, row: &[u8], paper: &mut Paper) {
    let turn = RowTurn {
        alloc,
        side: SERVER,
        row,
        whole: None,
    };
    let mut tree = MemTree::new(alloc);
    if plants(turn, alloc, &mut tree) {
        begin::<TreeTransfer<Global, Trees>>(turn, tree, paper);
    } else {
        paper.fill();
    }
    paper.put(b"\n");
}

/// Slots a session for each line `session`, with such transfers, and plays the row: who names a tree's does not name these.
fn begin<J: ServerTransfer<Global, Trees>>(turn: RowTurn<'_>, tree: Trees, paper: &mut Paper) {
    let mut sessions: Sessions<Global, Trees, Server<Global, Trees, J>> = Sessions::new(
        turn.alloc, tree,
    );
    let mut rest = turn.row;
    for _ in 0..turn.row.len() {
        let (line, after) = cut(rest, b'\n');
        if let Some(root) = word_of(line, b"session") {
            slot(&mut sessions, turn, root, Rights::all(), paper);
        }
        if let Some(root) = word_of(line, b"looker") {
            slot(&mut sessions, turn, root, Rights::none(), paper);
        }
        rest = after;
    }
    play(&mut sessions, turn, paper);
}

/// What stands after a word with which a line begins.
fn word_of<'a>(line: &'a [u8], word: &[u8]) -> Option<&'a [u8]> {
    let (first, rest) = split(line);
    if first == word { Some(rest) } else { None }
}

/// Slots a session whose accounts have this root and these rights.
fn slot<J: ServerTransfer<Global, Trees>>(
    sessions: &mut Sessions<Global, Trees, Server<Global, Trees, J>>,
    turn: RowTurn<'_>,
    root: &[u8],
    rights: Rights,
    paper: &mut Paper,
) {
    let (here, peer) = turn.hosts();
    let Ok(accounts) = accounts_with(turn.alloc, root, rights) else {
        paper.fill();
        return;
    };
    let own = MemTree::new(turn.alloc);
    let Ok(server) = Server::new(turn.alloc, own, accounts, here, peer) else {
        paper.fill();
        return;
    };
    if sessions.slot(server).is_err() {
        paper.fill();
    }
}

/// Plays the lines of a row in order. Calls that stand together are made as a list, and one that stands alone by itself.
fn play<F: Lends<Global, Trees>>(
    sessions: &mut Sessions<Global, Trees, F>,
    turn: RowTurn<'_>,
    paper: &mut Paper,
) {
    let mut rest = turn.row;
    let mut calls = rest;
    let mut count = 0usize;
    for _ in 0..turn.row.len() {
        let (line, after) = cut(rest, b'\n');
        if !is_call(line) {
            make(sessions, turn, calls, count, paper);
            show_line(sessions, turn, line, paper);
            calls = after;
            count = 0;
        } else {
            count = count.saturating_add(1);
        }
        if line.is_empty() {
            break;
        }
        rest = after;
    }
}

/// Whether a line begins with a slot.
fn is_call(line: &[u8]) -> bool {
    matches!(split(line).0.first(), Some(b'0'..=b'9'))
}

/// A line that is no call; `tree` shows the tree of all.
fn show_line<F: Lends<Global, Trees>>(
    sessions: &Sessions<Global, Trees, F>,
    turn: RowTurn<'_>,
    line: &[u8],
    paper: &mut Paper,
) {
    if line.is_empty() {
        return;
    }
    paper.line(line);
    if split(line).0 == b"tree".as_slice() {
        show_tree(turn.alloc, sessions.tree(), paper);
    }
}

/// Makes the first of these calls, so many.
fn make<F: Lends<Global, Trees>>(
    sessions: &mut Sessions<Global, Trees, F>,
    turn: RowTurn<'_>,
    calls: &[u8],
    count: usize,
    paper: &mut Paper,
) {
    if count == 0 {
        return;
    }
    let Ok(turns) = turns_of(turn, calls, count) else {
        paper.fill();
        return;
    };
    match turns.as_slice() {
        [lone] if lone.slot < sessions.len() => {
            paper.line(cut(calls, b'\n').0);
            match sessions.call(lone.slot, &lone.cue) {
                Ok(gift) => show(&gift, paper),
                Err(_) => paper.fill(),
            }
        }
        _ => show_all(&sessions.play(turns.as_slice()), calls, count, paper),
    }
}

/// The first of these calls, so many.
fn turns_of(
    turn: RowTurn<'_>,
    calls: &[u8],
    count: usize,
) -> Result<Vec<InSlot<Global>, Global>, AllocError> {
    let mut turns = Vec::new(turn.alloc);
    let mut rest = calls;
    for _ in 0..count {
        let (line, after) = cut(rest, b'\n');
        let (slot, call) = split(line);
        turns.push(InSlot {
            slot: number(slot) as usize,
            cue: cue_of(turn.alloc, turn, call)?,
        })?;
        rest = after;
    }
    Ok(turns)
}

/// Shows calls, each with what it gave, and the first in which something failed.
fn show_all(
    played: &Result<Played<Global>, AllocError>,
    calls: &[u8],
    count: usize,
    paper: &mut Paper,
) {
    let Ok(played) = played else {
        paper.fill();
        return;
    };
    let mut rest = calls;
    for place in 0..count {
        let (line, after) = cut(rest, b'\n');
        paper.line(line);
        match played.gifts.get(place) {
            Some(gift) => show(gift, paper),
            None => paper.line(b"! not made"),
        }
        if place == played.calm {
            paper.line(b"! something failed");
        }
        rest = after;
    }
}
