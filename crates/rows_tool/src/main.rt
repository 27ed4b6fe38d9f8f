//! For tests alone: which places texts say, what is told with `--quiet`, what uploads and downloads ask of a server that answers so, scripts as `pair` and
//! as `loop` play them, and rows of events in a world (RFC 959; RFC 3659). Before them a script that both ends play in turns, and the rows of the crates
//! below, since what stands above an end costs more to prove and to build than its rows.
#![tactic(auto)]

mod downloads;
mod places;
mod quiet;
mod scripts;
mod slot;
mod tries;
mod turns;
mod uploads;
mod worlds;

use rows_base::Paper;
use std::alloc::Global;
use std::io::Write;
use std::process::ExitCode;
use std::{fs, io};
use tool_terminal::Status;

fn main(rt: HostRuntime) -> ExitCode {
    ExitCode::from(played(&rt).unwrap_or(Status::Failed).number())
}

/// Plays all rows; gives the status of the script of `loop`, which standard input has.
fn played(rt: &HostRuntime) -> io::Result<Status> {
    others(rt)?;
    programs(rt)?;
    tool_loop::play(rt)
}

/// Rows that lie in a file.
#[derive(Clone, Copy)]
enum RowFile {
    Lines,
    Trees,
    Disks,
    Ends,
    Worlds,
}

const FILES: &[(&str, RowFile)] = &[
    ("lines", RowFile::Lines),
    ("trees", RowFile::Trees),
    ("disks", RowFile::Disks),
    ("ends", RowFile::Ends),
    ("worlds", RowFile::Worlds),
];

/// Writes the script of turns, the rows of the crates below, and those of events.
fn others(rt: &HostRuntime) -> io::Result<()> {
    let script = fs::read(rt, "turns")?;
    turns::play(rt, rt.alloc(), script.as_slice())?;
    for (file, rows) in FILES {
        let script = fs::read(rt, *file)?;
        write(rt, &play_all(rt.alloc(), *rows, script.as_slice()))?;
    }
    Ok(())
}

fn play_all(alloc: Global, rows: RowFile, script: &[u8]) -> Paper {
    match rows {
        RowFile::Lines => rows_lines::play_all(alloc, script),
        RowFile::Trees => rows_tree::play_all(alloc, script),
        RowFile::Disks => rows_disk::play_all(alloc, script),
        RowFile::Ends => rows_ends::play_all(alloc, script),
        RowFile::Worlds => worlds::play_all(alloc, script),
    }
}

fn write(rt: &HostRuntime, paper: &Paper) -> io::Result<()> {
    io::writer(rt).write_all(paper.text())
}

/// Writes the rows of places, of `--quiet`, of uploads and downloads, and of scripts as `pair` plays them.
fn programs(rt: &HostRuntime) -> io::Result<()> {
    let tries = fs::read(rt, "tries")?;
    let scripts = fs::read(rt, "scripts")?;
    let mut paper = Paper::new(rt.alloc());
    places::rows(&mut paper);
    quiet::rows(rt, &mut paper);
    tries::rows(rt, &mut paper, tries.as_slice())?;
    paper.put(scripts::play_all(rt.alloc(), scripts.as_slice()).text());
    write(rt, &paper)
}
