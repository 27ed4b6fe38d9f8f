// What the subcommands that ask at one place do.
ghost use Rattle.std.specs.Prelude.{◌≡◌, IfOk};
ghost use Rattle.tool_session.specs.Fault.{stop_status};
ghost use Rattle.tool_get_put.specs.Fetching.{DoesTask};

use crate::listing::ListingFormat;
use crate::matching::{get_matching, remove_matching};
use crate::showing::{list, list_matching};
use std::alloc::Global;
use std::env::Env;
use std::fs::{File, Files};
use std::io;
use std::io::{Eprint, Print};
use std::net::{Net, TcpListener, TcpStream};
use std::time::Clock;
use tool_connect::{Converses, Logins};
use tool_files::LocalFiles;
use tool_job::{DownloadJob, Getting, Simple, Target, do_simple, get, make_all, put, put_renamed};
use tool_session::{LastReply, SessionFault};
use tool_terminal::Status;

/// What is to be done at a place.
#[derive(Clone, Copy)]
pub enum PlaceTask<'a> {
    /// The file is downloaded.
    Get(DownloadJob<'a>),
    /// The files of the directory whose names are of the pattern that the path ends in are downloaded into the folder that is named as the file.
    GetMatching(DownloadJob<'a>),
    /// This file of this end is uploaded; `-` is standard input.
    Put(&'a str),
    /// The same under another name, until the server has all of it.
    PutRenamed(&'a str),
    /// The entries of the directory go to standard output: by MLSD, where the server does not know that by LIST, and else its names by NLST.
    List(ListingFormat),
    /// The same of what has a name of the pattern that the path ends in.
    ListMatching(ListingFormat),
    /// The files of the directory whose names are of the pattern that the path ends in are removed, each asked once.
    RemoveMatching,
    /// What needs no data connection.
    Simple(Simple<'a>),
    /// The directory is made, and those above it; one that stands is as well.
    MakeDirectories,
}

/// Does a task, and gives the exit status: 0; 1 where it was refused or broke; 2 for a bad login or path; 3 where a connection or a device failed, or
/// memory was refused. All but 0 are told on standard error.
pub fn fetch<R>(rt: &R, asked: &Target<'_>, task: PlaceTask<'_>) -> io::Result<Status>
where
    R: Net<Listener = TcpListener, Stream = TcpStream>
        + Files<File = File>
        + Env
        + Input
        + Print
        + Eprint
        + Clock
        + AllocGlobal,
{
    fetched(rt, rt.alloc(), asked, task)
}

/// The same, of whoever can ask a server and has files.
#[tactic(auto, using(crate::proofs::FetchingLemmas::stopped))]
fn fetched<R>(rt: &R, alloc: Global, asked: &Target<'_>, task: PlaceTask<'_>) -> io::Result<Status>
where
    R: Converses + Logins + LocalFiles + Input + Print + Eprint,
    // Witness: `edits/a_stop_is_done`, and those of `done_at`.
    ensures { DoesTask (R.hears rt.now 1) task.entry asked.now.place.path.now asked.now.how result }
{
    match done_at(rt, alloc, asked, task) {
        Ok(status) => Ok(status),
        Err(stop) => tell_stop(rt, stop, asked, file_of(task)),
    }
}

/// Does a task; what is asked at one place goes over one control connection.
fn done_at<R>(
    rt: &R,
    alloc: Global,
    asked: &Target<'_>,
    task: PlaceTask<'_>,
) -> Result<Status, SessionFault>
where
    R: Converses + Logins + LocalFiles + Input + Print + Eprint,
    // Witness: `edits/a_change_is_left_out`; for what is asked, those of `do_simple` in `tool_job`.
    ensures { DoesTask (R.hears rt.now 1) task.entry asked.now.place.path.now asked.now.how result }
{
    let mut last_reply = LastReply::new();
    let on = &over_one(asked);
    match task {
        PlaceTask::Get(download) => get(rt, alloc, on, download, &mut last_reply),
        PlaceTask::GetMatching(download) => get_matching(
            rt,
            Getting {
                alloc,
                asked: *asked,
                parts: download.parts,
                moment: download.moment,
                targets: download.targets,
            },
            download.file,
            &mut last_reply,
        ),
        PlaceTask::Put(file) => put(rt, alloc, on, file, &mut last_reply),
        PlaceTask::PutRenamed(file) => put_renamed(rt, alloc, on, file, &mut last_reply),
        PlaceTask::List(lines) => list(rt, alloc, on, lines, &mut last_reply),
        PlaceTask::ListMatching(lines) => list_matching(rt, alloc, on, lines, &mut last_reply),
        PlaceTask::RemoveMatching => remove_matching(rt, alloc, *asked, &mut last_reply),
        PlaceTask::Simple(simple) => do_simple(rt, alloc, asked, simple, &mut last_reply),
        PlaceTask::MakeDirectories => make_all(rt, alloc, asked, &mut last_reply),
    }
}

/// Tells why nothing was asked, or no more: of which place, and of which file of this end.
fn tell_stop<'a, R: Eprint>(
    rt: &R,
    stop: SessionFault,
    asked: &'a Target<'a>,
    file: &'a str,
) -> io::Result<Status>
    // Witness: an equation of `tool_session`; `fetched` needs it.
    ensures { IfOk result (λ status. status ≡ stop_status stop.stage) }
{
    stop.tell(rt, asked.subject(file))
}

/// A target, asked over one control connection.
fn over_one<'a>(asked: &Target<'a>) -> Target<'a>
    ensures { result.place.path.now ≡ asked.now.place.path.now }
{
    Target {
        at_once: 1,
        ..*asked
    }
}

/// The file of this end that a task reads or writes.
fn file_of(task: PlaceTask<'_>) -> &str {
    match task {
        PlaceTask::Get(download) | PlaceTask::GetMatching(download) => download.file,
        PlaceTask::Put(file) | PlaceTask::PutRenamed(file) => file,
        PlaceTask::List(_) | PlaceTask::ListMatching(_) | PlaceTask::RemoveMatching => "-",
        PlaceTask::Simple(_) | PlaceTask::MakeDirectories => "-",
    }
}
