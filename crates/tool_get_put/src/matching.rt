// The files of a directory whose names are of a pattern, one after another over the same control connections: each is fetched, or each is removed.
ghost use Rattle.std.specs.Prelude.{◌≡◌, ◌++◌, IfOk, string_bytes};
ghost use Rattle.std.specs.Vec.Iter.{into_iter_items};
ghost use Rattle.tool_get_put.specs.Waiting.{paths_below};

use crate::pattern_place::{ChosenNames, PatternPlace};
use ftp_facts::Text;
use ftp_operation::Answer;
use std::alloc::{AllocError, Global};
use std::io::{Eprint, Error, ErrorKind, Print};
use std::vec::IntoIter;
use std::{io, str};
use tool_connect::{Converses, Logins, ask};
use tool_files::LocalFiles;
use tool_job::{
    Fetched, Getting, JobQueue, Often, QueuedJob, Removed, Target, WaitingJobs, done_all, source_of,
};
use tool_location::joined;
use tool_resume::tell;
use tool_session::{
    ClientSession, DataEnding, LastReply, Phase, SessionFault, SessionTask, at, told,
};
use tool_terminal::{Shown, Status};

/// Why a file is not fetched where another one of the same command line goes.
const JUST_CREATED: &str =
    "will not overwrite just-created: another file of the same name is asked for";

/// Fetches the files of a directory whose names are of the pattern that the path ends in, in the order of their names, each into this
/// folder by its own name. Gives the worst status; 1 where no name is of the pattern.
pub(crate) fn get_matching<'a, R>(
    rt: &'a R,
    getting: Getting<'a>,
    folder: &'a str,
    last_reply: &mut LastReply,
) -> Result<Status, SessionFault>
where
    R: Converses + Logins + LocalFiles + Print + Eprint,
{
    let place = PatternPlace::of(getting.alloc, getting.asked);
    let downloads = PatternDownloads {
        rt,
        getting,
        folder,
    };
    do_with_each::<R, Fetched<'_, R>, PatternDownloads<'_, R>>(
        rt,
        place,
        &downloads,
        Often::On,
        last_reply,
    )
}

/// Removes these files from the server, each asked once, in the order of their names, and nothing else. Gives the worst status; 1 where no name is of the
/// pattern.
pub(crate) fn remove_matching<'a, R>(
    rt: &'a R,
    alloc: Global,
    asked: Target<'a>,
    last_reply: &mut LastReply,
) -> Result<Status, SessionFault>
where
    R: Converses + Logins + Print + Eprint,
{
    let place = PatternPlace::of(alloc, asked);
    let removals = PatternRemovals { rt, alloc, asked };
    do_with_each::<R, Removed<'_, R>, PatternRemovals<'_, R>>(
        rt,
        place,
        &removals,
        Often::Once,
        last_reply,
    )
}

/// Does the same with each file whose name is of a pattern.
fn do_with_each<'a, R, E, M>(
    rt: &'a R,
    place: PatternPlace<'a>,
    jobs: &'a M,
    often: Often,
    last_reply: &mut LastReply,
) -> Result<Status, SessionFault>
where
    R: Converses + Logins + Eprint,
    E: QueuedJob + Drop,
    M: JobsOfNames<E>,
{
    let mut matching: Matching<'a, R, E, M> = Matching::new(rt, place, jobs, often);
    let answered = listed_and_done(&mut matching, last_reply);
    matching.finished(answered, last_reply)
}

/// Asks until the directory is listed, and for each file then; what is left over these control connections goes on over one round of others after another.
fn listed_and_done<R, E, M>(
    matching: &mut Matching<'_, R, E, M>,
    last_reply: &mut LastReply,
) -> Result<Answer<Global>, SessionFault>
where
    R: Converses + Logins + Eprint,
    E: QueuedJob + Drop,
    M: JobsOfNames<E>,
{
    let rt = matching.rt;
    let asked = matching.place.asked;
    let answer = ask(rt, asked.server(), asked.user, last_reply, matching)?;
    let Some(files) = &mut matching.files else {
        return Ok(answer);
    };
    if files.is_cut() {
        *last_reply = LastReply::new();
        done_all(rt, &asked, files, last_reply)?;
    }
    Ok(answer)
}

/// What is done with each file whose name a pattern chose.
trait JobsOfNames<E: QueuedJob> {
    /// The job of the file at a path, which has this name in its directory; nothing was asked of it yet. Fails where it can't be made.
    fn job(&self, path: String<Global>, name: &str) -> io::Result<E>
        // Witness: `edits/a_file_of_a_pattern_is_removed_by_its_name_alone`.
        ensures { IfOk result (λ job. E.named job ≡ string_bytes path) };
}

/// Files are fetched.
struct PatternDownloads<'a, R> {
    rt: &'a R,
    getting: Getting<'a>,
    /// Where the files go.
    folder: &'a str,
}

/// By hand: a derived drop is proved again, part by part, wherever one is let go.
impl<'a, R> Drop for PatternDownloads<'a, R> {
    fn drop(self) {
        let Self {
            rt: _,
            getting: _,
            folder: _,
        } = self;
    }
}

impl<'a, R: LocalFiles + Print + Eprint> JobsOfNames<Fetched<'a, R>> for PatternDownloads<'a, R> {
    fn job(&self, path: String<Global>, name: &str) -> io::Result<Fetched<'a, R>> {
        let alloc = self.getting.alloc;
        let file = joined(alloc, self.folder, name)?;
        let is_free = self.is_free(path.as_str(), file.as_str())?;
        let shown = format!(in alloc; "{}", Shown(name.as_bytes()))?;
        let mut fetched = Fetched::new(self.rt, self.getting, path, file, Some(shown.as_str()))?;
        if !is_free {
            fetched.refuse(Error::new(ErrorKind::AlreadyExists, JUST_CREATED));
        }
        Ok(fetched)
    }
}

impl<'a, R> PatternDownloads<'a, R> {
    /// Whether no other file of the command line goes where the file at a path is to go.
    fn is_free(&self, path: &str, file: &str) -> io::Result<bool> {
        match self.getting.targets {
            Some(targets) => {
                let asked = self.getting.asked.at(path);
                let source = source_of(self.getting.alloc, &asked)?;
                Ok(targets.claim(file, source.as_str())?)
            }
            None => Ok(true),
        }
    }
}

/// Files are removed.
struct PatternRemovals<'a, R> {
    rt: &'a R,
    alloc: Global,
    asked: Target<'a>,
}

/// By hand, as above.
impl<'a, R> Drop for PatternRemovals<'a, R> {
    fn drop(self) {
        let Self {
            rt: _,
            alloc: _,
            asked: _,
        } = self;
    }
}

impl<'a, R: Print + Eprint> JobsOfNames<Removed<'a, R>> for PatternRemovals<'a, R> {
    fn job(&self, path: String<Global>, _name: &str) -> io::Result<Removed<'a, R>> {
        Ok(Removed::new(self.rt, self.alloc, self.asked, path))
    }
}

/// The names that a pattern chose of a directory, which are still to come.
struct Names<'a, M> {
    alloc: Global,
    jobs: &'a M,
    dir: &'a str,
    names: IntoIter<Text<Global>, Global>,
}

/// By hand, as above.
impl<'a, M> Drop for Names<'a, M> {
    fn drop(self) {
        let Self {
            alloc: _,
            jobs: _,
            dir: _,
            names: _,
        } = self;
    }
}

impl<'a, E: QueuedJob, M: JobsOfNames<E>> WaitingJobs<E> for Names<'a, M> {
    ghost waits = { λ names. paths_below names.dir.now (into_iter_items names.names) };

    fn next(&mut self) -> io::Result<Option<E>> {
        match self.names.next() {
            Some(name) => Ok(Some(job_below(self.alloc, self.jobs, self.dir, name.as_slice())?)),
            None => Ok(None),
        }
    }
}

/// The job of the file of this name in a directory.
fn job_below<E: QueuedJob, M: JobsOfNames<E>>(
    alloc: Global,
    jobs: &M,
    dir: &str,
    name: &[u8],
) -> io::Result<E>
    ensures { IfOk result (λ job. E.named job ≡ dir.now ++ name.now) }
{
    let Ok(text) = str::from_utf8(name) else {
        return Err(Error::new(ErrorKind::InvalidData, "a name is no text (UTF-8)"));
    };
    let mut path = String::from_str(alloc, dir)?;
    path.push_str(text)?;
    jobs.job(path, text)
}

/// The files of a directory whose names are of a pattern.
struct Matching<'a, R, E, M> {
    rt: &'a R,
    place: PatternPlace<'a>,
    jobs: &'a M,
    often: Often,
    /// The files, once the directory is listed.
    files: Option<JobQueue<'a, R, E, Names<'a, M>>>,
    /// Whether directories are of the pattern too.
    has_directories: bool,
}

/// By hand, as above.
impl<'a, R, E: Drop, M> Drop for Matching<'a, R, E, M> {
    fn drop(self) {
        let Self {
            rt: _,
            place: _,
            jobs: _,
            often: _,
            files: _,
            has_directories: _,
        } = self;
    }
}

impl<'a, R: Eprint, E: QueuedJob + Drop, M: JobsOfNames<E>> Matching<'a, R, E, M> {
    /// Of which nothing was asked yet.
    fn new(rt: &'a R, place: PatternPlace<'a>, jobs: &'a M, often: Often) -> Matching<'a, R, E, M> {
        Matching {
            rt,
            place,
            jobs,
            often,
            files: None,
            has_directories: false,
        }
    }

    /// Lists the directory, once; gives the answer of the server where that is no listing.
    fn list<S: ClientSession>(
        &mut self,
        slot: &mut S,
    ) -> Result<Option<Answer<Global>>, AllocError> {
        if self.files.is_some() {
            return Ok(None);
        }
        let answer = self.place.listed(slot)?;
        match self.place.chosen(&answer)? {
            Some(chosen) => {
                self.take_up(chosen);
                Ok(None)
            }
            None => Ok(Some(answer)),
        }
    }

    /// These are asked for.
    fn take_up(&mut self, chosen: ChosenNames) {
        self.has_directories = chosen.has_directories;
        let waiting = Names {
            alloc: self.place.alloc,
            jobs: self.jobs,
            dir: self.place.dir,
            names: chosen.into_names().into_iter(),
        };
        let done = match self.often {
            Often::On => "copied",
            Often::Once => "done",
        };
        self.files = Some(JobQueue::new(self.rt, self.place.alloc, waiting, done, self.often));
    }

    /// Asks for the files over these control connections. Where these end, a file that has its turn is left over.
    fn play_files<S: ClientSession>(
        &mut self,
        slot: &mut S,
    ) -> Result<Answer<Global>, SessionFault> {
        let Some(files) = &mut self.files else {
            return Ok(Answer::Done);
        };
        let answer = files.play(slot)?;
        drop(answer);
        Ok(Answer::Done)
    }

    /// What was taken up ahead leaves nothing at this end.
    fn abandon(&mut self) {
        if let Some(files) = &mut self.files {
            files.abandon();
        }
    }

    /// Tells why not all was done, where that was answered last, and gives the exit status.
    fn finished(
        &mut self,
        answered: Result<Answer<Global>, SessionFault>,
        last_reply: &LastReply,
    ) -> Result<Status, SessionFault> {
        match answered {
            Ok(answer) => {
                let finished = self.finish(&answer, last_reply);
                drop(answer);
                at(Phase::Report, finished)
            }
            Err(stop) => {
                self.abandon();
                Err(stop)
            }
        }
    }

    fn finish(&mut self, answer: &Answer<Global>, last_reply: &LastReply) -> io::Result<Status> {
        let (taken, worst) = match &mut self.files {
            Some(files) => {
                if files.is_cut() {
                    files.give_up(answer, last_reply)?;
                    files.abandon();
                    return Ok(files.worst());
                }
                files.abandon();
                (files.reach().0, files.worst())
            }
            None => (0, Status::Done),
        };
        self.tell_directories();
        let path = self.place.asked.place.path;
        match answer {
            Answer::Done if taken > 0 => Ok(worst),
            Answer::Done => told(
                self.rt,
                "error: ",
                &Shown(path.as_bytes()),
                ": no file there is of this pattern; with --no-glob it is a name",
                Status::Refused,
            ),
            _ => {
                let stranger = self.place.asked.stranger();
                Ok(tell(self.rt, path, stranger, answer, last_reply)?.worse(worst))
            }
        }
    }

    /// Tells that nothing was done with directories, where they are of the pattern.
    fn tell_directories(&self) {
        if self.has_directories {
            let _told = self
                .rt
                .eprintln("note: directories of this pattern are left out");
        }
    }
}

impl<'a, R, E, M> SessionTask<Result<Answer<Global>, SessionFault>> for Matching<'a, R, E, M>
where
    R: Eprint,
    E: QueuedJob + Drop,
    M: JobsOfNames<E>,
{
    fn play<S: ClientSession>(&mut self, slot: &mut S) -> Result<Answer<Global>, SessionFault> {
        match self.list(slot) {
            Ok(None) => self.play_files(slot),
            Ok(Some(answer)) if slot.ending() == DataEnding::PastLimit => {
                drop(answer);
                at(
                    Phase::Listing,
                    Err(Error::new(ErrorKind::InvalidData, "it has more than 1,000,000 entries")),
                )
            }
            Ok(Some(answer)) => Ok(answer),
            Err(AllocError) => Ok(Answer::Memory),
        }
    }
}
