//! For tests alone: rows of control lines, of endpoints, commands and replies, of passwords, of entries and moments, of how far transfers are, of scripts, and of
//! files, items and wires.
#![tactic(auto)]

mod calendar;
mod caller;
mod commands;
mod ears;
mod endpoints;
mod entries;
mod growing;
mod items;
mod moments;
mod paces;
mod pieces;
mod printed;
mod replies;
mod report;
mod row;
mod script;
mod scripts;
mod secrets;
mod sizes;
mod values;
mod wires;
mod witnesses;
mod word;

use rows_base::Paper;
use std::alloc::Global;

/// Tries all rows: writes each line of the script with what is said of it, and a line for each thing that is tried in the source.
pub fn play_all(alloc: Global, rows: &[u8]) -> Paper {
    let mut report = Paper::new(alloc);
    script::play_all(alloc, rows, &mut report);
    report.put(b"\n");
    ears::tried(alloc, &mut report);
    replies::tried(alloc, &mut report);
    printed::tried(alloc, &mut report);
    paces::put_all(alloc, &mut report);
    scripts::tried(alloc, &mut report);
    report
}
