//! For tests alone: the rows of both ends, on a server and on a client, and those of what the programs read and write
//! (RFC 959; RFC 2389; RFC 2428; RFC 3659).
#![tactic(auto)]

mod client;
mod desk;
mod driven;
mod embedded;
mod event;
mod history;
mod lines;
mod peer;
mod plays;
mod programs;
mod row;
mod server;
mod several;
mod stage;
mod transfers;
mod turn;
mod verb;

pub use plays::Holds;
use rows_base::{Paper, row_in_front};
use std::alloc::Global;
use turn::{CLIENT, SERVER, Side};

/// What a row is played on.
#[derive(Clone, Copy)]
enum On {
    End(Side),
    Program,
    Transfer,
    Several,
}

/// Plays each row of a script. Rows are paragraphs; they are a server's at first.
pub fn play_all(alloc: Global, script: &[u8]) -> Paper {
    let mut paper = Paper::new(alloc);
    let mut on = On::End(SERVER);
    let mut rest = script;
    for _ in 0..script.len() {
        if rest.is_empty() {
            break;
        }
        let (row, behind) = row_in_front(rest);
        match divider(row) {
            Some(other) => on = other,
            None => play(alloc, on, row, &mut paper),
        }
        rest = behind;
    }
    paper
}

/// What the rows behind a line between rows are played on.
fn divider(row: &[u8]) -> Option<On> {
    if row == b"== on a client".as_slice() {
        Some(On::End(CLIENT))
    } else if row == b"== on a program".as_slice() {
        Some(On::Program)
    } else if row == b"== on a transfer".as_slice() {
        Some(On::Transfer)
    } else if row == b"== on several".as_slice() {
        Some(On::Several)
    } else {
        None
    }
}

fn play(alloc: Global, on: On, row: &[u8], paper: &mut Paper) {
    match on {
        On::End(side) => row::play_row(alloc, side, row, paper),
        On::Program => programs::play_row(alloc, row, paper),
        On::Transfer => transfers::play_row(alloc, row, paper),
        On::Several => several::play_row(alloc, row, paper),
    }
}
