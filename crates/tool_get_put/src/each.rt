// Several files of one server, over several control connections at once.
ghost use Rattle.std.specs.Prelude.{map};
ghost use Rattle.tool_get_put.specs.Waiting.{file_in, path_in};

use std::alloc::Global;
use std::env::Env;
use std::fs::{File, Files};
use std::io;
use std::io::{Eprint, Print};
use std::net::{Net, TcpListener, TcpStream};
use std::time::Clock;
use tool_connect::{Converses, Logins};
use tool_files::LocalFiles;
use tool_job::{
    Fetched, Getting, JobQueue, Often, PartHandling, QueuedUpload, Removed, Target, Targets,
    UploadSettings, WaitingJobs, done_all,
};
use tool_session::{LastReply, Phase, SessionFault, at};
use tool_terminal::Status;

/// A file of a server, and one of this end.
pub struct FilePair {
    pub path: String<Global>,
    pub file: String<Global>,
}

/// By hand: a derived drop is proved again, part by part, wherever one is let go.
impl Drop for FilePair {
    fn drop(self) {
        let Self { path: _, file: _ } = self;
    }
}

/// What is done with each of several files.
#[derive(Clone, Copy)]
pub enum Each<'a> {
    /// It is downloaded; `moment`: its last change is to be at the server's moment of the file; `targets`: where the files of the same command line go.
    Get {
        parts: PartHandling,
        moment: bool,
        targets: Option<&'a Targets>,
    },
    /// It is uploaded.
    Put,
    /// It is removed from the server.
    Remove,
}

/// Does the same with each of several files of a server, over as many control connections as are asked for, and gives the worst exit status. One that fails
/// does not stop the others; it is told in its turn.
pub fn fetch_each<R>(
    rt: &R,
    asked: &Target<'_>,
    each: Each<'_>,
    pairs: &[FilePair],
) -> io::Result<Status>
where
    R: Net<Listener = TcpListener, Stream = TcpStream>
        + Files<File = File>
        + Env
        + Input
        + Print
        + Eprint
        + Clock
        + AllocGlobal,
{
    fetched_each(rt, rt.alloc(), asked, each, pairs)
}

/// The same, of whoever can ask a server and has files.
fn fetched_each<R>(
    rt: &R,
    alloc: Global,
    asked: &Target<'_>,
    each: Each<'_>,
    pairs: &[FilePair],
) -> io::Result<Status>
where
    R: Converses + Logins + LocalFiles + Input + Print + Eprint,
{
    let mut last_reply = LastReply::new();
    let done = match each {
        Each::Get {
            parts,
            moment,
            targets,
        } => get_each(
            rt,
            Getting {
                alloc,
                asked: *asked,
                parts,
                moment,
                targets,
            },
            pairs,
            &mut last_reply,
        ),
        Each::Put => put_each(
            rt,
            UploadSettings {
                alloc,
                asked: *asked,
            },
            pairs,
            &mut last_reply,
        ),
        Each::Remove => remove_each(rt, alloc, *asked, pairs, &mut last_reply),
    };
    match done {
        Ok(status) => Ok(status),
        Err(stop) => stop.tell(rt, asked.subject("-")),
    }
}

/// Files that are fetched.
struct Gets<'a, R> {
    rt: &'a R,
    getting: Getting<'a>,
    pairs: &'a [FilePair],
}

/// By hand, as above.
impl<'a, R> Drop for Gets<'a, R> {
    fn drop(self) {
        let Self {
            rt: _,
            getting: _,
            pairs: _,
        } = self;
    }
}

impl<'a, R: LocalFiles + Print + Eprint> WaitingJobs<Fetched<'a, R>> for Gets<'a, R> {
    ghost waits = { λ gets. map path_in gets.pairs.now };

    fn next(&mut self) -> io::Result<Option<Fetched<'a, R>>> {
        let Some((first, rest)) = self.pairs.split_first() else {
            return Ok(None);
        };
        self.pairs = rest;
        let alloc = self.getting.alloc;
        let path = String::from_str(alloc, first.path.as_str())?;
        let file = String::from_str(alloc, first.file.as_str())?;
        Ok(Some(Fetched::new(self.rt, self.getting, path, file, None)?))
    }
}

fn get_each<'a, R>(
    rt: &'a R,
    getting: Getting<'a>,
    pairs: &'a [FilePair],
    last_reply: &mut LastReply,
) -> Result<Status, SessionFault>
where
    R: Converses + Logins + LocalFiles + Print + Eprint,
{
    let asked = getting.asked;
    let waiting = Gets { rt, getting, pairs };
    let mut job_queue = JobQueue::new(rt, getting.alloc, waiting, "copied", Often::On);
    done_all(rt, &asked, &mut job_queue, last_reply)
}

/// Files that are sent.
struct Puts<'a, R> {
    rt: &'a R,
    putting: UploadSettings<'a>,
    pairs: &'a [FilePair],
}

/// By hand, as above.
impl<'a, R> Drop for Puts<'a, R> {
    fn drop(self) {
        let Self {
            rt: _,
            putting: _,
            pairs: _,
        } = self;
    }
}

impl<'a, R: LocalFiles + Input + Eprint> WaitingJobs<QueuedUpload<'a, R>> for Puts<'a, R> {
    ghost waits = { λ puts. map file_in puts.pairs.now };

    fn next(&mut self) -> io::Result<Option<QueuedUpload<'a, R>>> {
        let Some((first, rest)) = self.pairs.split_first() else {
            return Ok(None);
        };
        self.pairs = rest;
        Ok(Some(QueuedUpload::new(
            self.rt,
            self.putting,
            first.file.as_str(),
            first.path.as_str(),
        )))
    }
}

fn put_each<'a, R>(
    rt: &'a R,
    putting: UploadSettings<'a>,
    pairs: &'a [FilePair],
    last_reply: &mut LastReply,
) -> Result<Status, SessionFault>
where
    R: Converses + Logins + LocalFiles + Input + Eprint,
{
    let UploadSettings { alloc, asked } = putting;
    let waiting = Puts { rt, putting, pairs };
    let mut job_queue = JobQueue::new(rt, alloc, waiting, "copied", Often::On);
    done_all(rt, &asked, &mut job_queue, last_reply)
}

/// Files that are removed.
struct Removals<'a, R> {
    rt: &'a R,
    alloc: Global,
    asked: Target<'a>,
    pairs: &'a [FilePair],
}

/// By hand, as above.
impl<'a, R> Drop for Removals<'a, R> {
    fn drop(self) {
        let Self {
            rt: _,
            alloc: _,
            asked: _,
            pairs: _,
        } = self;
    }
}

impl<'a, R: Print + Eprint> WaitingJobs<Removed<'a, R>> for Removals<'a, R> {
    ghost waits = { λ removals. map path_in removals.pairs.now };

    fn next(&mut self) -> io::Result<Option<Removed<'a, R>>> {
        let Some((first, rest)) = self.pairs.split_first() else {
            return Ok(None);
        };
        self.pairs = rest;
        let path = String::from_str(self.alloc, first.path.as_str())?;
        Ok(Some(Removed::new(self.rt, self.alloc, self.asked, path)))
    }
}

fn remove_each<'a, R>(
    rt: &'a R,
    alloc: Global,
    asked: Target<'a>,
    pairs: &'a [FilePair],
    last_reply: &mut LastReply,
) -> Result<Status, SessionFault>
where
    R: Converses + Logins + Print + Eprint,
{
    let waiting = Removals {
        rt,
        alloc,
        asked,
        pairs,
    };
    let mut job_queue = JobQueue::new(rt, alloc, waiting, "done", Often::Once);
    done_all(rt, &asked, &mut job_queue, last_reply)
}
