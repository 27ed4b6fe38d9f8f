// A file that is one of several which are fetched.
ghost use Rattle.std.specs.Prelude.{◌≡◌, IfOk, string_bytes};
ghost use Rattle.tool_job.specs.queue.Fetching.{can_go_on, is_told_in_full};

use crate::queue::queued_job::QueuedJob;
use crate::single::{
    DownloadJob, Job, PartHandling, Target, Targets, discard, keep_part, leave, limit_of,
    place_text, prepare, stamp_of, tell_unwritten,
};
use ftp_operation::Answer;
use std::alloc::Global;
use std::io;
use std::io::{Eprint, Error, Print};
use tool_files::LocalFiles;
use tool_resume::Downloading;
use tool_session::{ClientSession, LastReply, SessionFault};
use tool_terminal::Status;

/// How files are fetched.
#[derive(Clone, Copy)]
pub struct Getting<'a> {
    pub alloc: Global,
    /// What is asked, but for the path of a file.
    pub asked: Target<'a>,
    pub parts: PartHandling,
    /// Whether the last change of a file is to be at the server's moment of it.
    pub moment: bool,
    /// Where the files of the same command line go, where there are several.
    pub targets: Option<&'a Targets>,
}

impl<'a> Getting<'a> {
    /// The download of the file at a path of the server into one here. Fails where memory is refused.
    fn job<'b>(&self, path: &str, file: &'b str) -> io::Result<Job<'b>>
    where
        'a: 'b,
    {
        Ok(Job {
            alloc: self.alloc,
            download: DownloadJob {
                file,
                parts: self.parts,
                moment: self.moment,
                targets: self.targets,
            },
            place: place_text(self.alloc, &self.asked.at(path))?,
        })
    }
}

/// How far a file is that is fetched.
#[derive(Clone, Copy)]
enum FetchState {
    /// Nothing was made of it here yet.
    New,
    /// Its part is made or taken up, where it has one.
    Prepared,
    /// It can't be written here, for this reason.
    Unwritable(Error),
}

/// What is told of a server that refuses a file.
#[derive(Clone, Copy)]
enum RefusalDetail {
    /// The line of its reply.
    Line,
    /// Its code alone: the file is one of a pattern, whose notes name it.
    Code,
}

/// A file that is one of several which are fetched.
pub struct Fetched<'a, R> {
    rt: &'a R,
    getting: Getting<'a>,
    path: String<Global>,
    file: String<Global>,
    downloading: Downloading<'a, R>,
    detail: RefusalDetail,
    state: FetchState,
}

/// By hand: a derived drop is proved again, part by part, wherever one is let go.
impl<'a, R> Drop for Fetched<'a, R> {
    fn drop(self) {
        let Self {
            rt: _,
            getting: _,
            path: _,
            file: _,
            downloading: _,
            detail: _,
            state: _,
        } = self;
    }
}

impl<'a, R: LocalFiles + Print + Eprint> Fetched<'a, R> {
    /// The file at a path of the server, which goes into one here; nothing was asked of it yet. Its notes name it, where a name is given.
    /// Fails where memory is refused.
    pub fn new(
        rt: &'a R,
        getting: Getting<'a>,
        path: String<Global>,
        file: String<Global>,
        name: Option<&str>,
    ) -> io::Result<Fetched<'a, R>>
        // Witness: an equation; callers in `tool_get_put` need it.
        ensures { IfOk result (λ fetched. string_bytes fetched.path ≡ string_bytes path) }
    {
        let how = getting.asked.how;
        let mut downloading = Downloading::new(
            rt,
            getting.alloc,
            path.as_str(),
            how,
            getting.asked.openings,
        )?;
        let limit = limit_of(file.as_str(), getting.asked.limit);
        downloading.put_terms(limit, stamp_of(how, getting.moment));
        let detail = match name {
            Some(name) => {
                downloading.name_as(name)?;
                RefusalDetail::Code
            }
            None => RefusalDetail::Line,
        };
        Ok(Fetched {
            rt,
            getting,
            path,
            file,
            downloading,
            detail,
            state: FetchState::New,
        })
    }

    /// It can't be written here, since another file of the command line goes there.
    pub fn refuse(&mut self, error: Error)
        // Witness: an equation; callers in `tool_get_put` need it.
        ensures { self.new.path ≡ self.old.path }
    {
        self.state = FetchState::Unwritable(error);
    }

    /// Makes the part of a file of which nothing was asked yet, or takes up one that is kept; gives how far it is then.
    fn take_up(&mut self) -> FetchState {
        if let FetchState::New = self.state {
            self.state = match self.prepared() {
                Ok(()) => FetchState::Prepared,
                Err(error) => FetchState::Unwritable(error),
            };
        }
        self.state
    }

    fn prepared(&mut self) -> io::Result<()> {
        let job = self.getting.job(self.path.as_str(), self.file.as_str())?;
        prepare(self.rt, &job, &mut self.downloading)
    }

    fn job(&self) -> io::Result<Job<'_>> {
        self.getting.job(self.path.as_str(), self.file.as_str())
    }

    /// What is asked of the file.
    fn asked(&self) -> Target<'_> {
        self.getting.asked.at(self.path.as_str())
    }
}

impl<'a, R: LocalFiles + Print + Eprint> QueuedJob for Fetched<'a, R> {
    ghost named = { λ fetched. string_bytes fetched.path };

    /// A part that is kept may be gone on with: what is told of it is told in its turn.
    fn foresee<S: ClientSession>(&mut self, slot: &mut S) {
        if matches!(self.getting.parts, PartHandling::Continued) {
            return;
        }
        let state = self.take_up();
        if can_go_on(state) {
            self.downloading.foresee(slot);
        }
    }

    fn is_ahead(&self) -> bool {
        self.downloading.is_ahead()
    }

    fn forget(&mut self) {
        self.downloading.forget_ahead();
    }

    fn ask<S: ClientSession>(&mut self, slot: &mut S) -> Result<Answer<Global>, SessionFault> {
        let state = self.take_up();
        if can_go_on(state) {
            Ok(self.downloading.answer(slot))
        } else {
            Ok(Answer::Done)
        }
    }

    fn reach(&self) -> u64 {
        self.downloading.came().count()
    }

    fn goes_on(&self) -> bool {
        can_go_on(self.state) && !self.downloading.is_spent()
    }

    fn leave(&mut self, answer: &Answer<Global>, last_reply: &LastReply) -> io::Result<Status> {
        let state = self.take_up();
        if let FetchState::Unwritable(error) = state {
            return tell_unwritten(self.rt, &self.asked(), self.file.as_str(), error);
        }
        let job = self.job()?;
        let nothing = LastReply::new();
        let told = if is_told_in_full(self.detail, answer) {
            last_reply
        } else {
            &nothing
        };
        leave(
            self.rt,
            &self.asked(),
            &job,
            answer,
            &self.downloading,
            told,
        )
    }

    fn stop(&mut self, stop: SessionFault) -> io::Result<Status> {
        let state = self.take_up();
        if let FetchState::Unwritable(error) = state {
            return tell_unwritten(self.rt, &self.asked(), self.file.as_str(), error);
        }
        let job = self.job()?;
        keep_part(self.rt, &job, &self.downloading, Status::Failed)?;
        let asked = self.asked();
        let subject = asked.subject(self.file.as_str());
        stop.tell(self.rt, subject)
    }

    fn abandon(&mut self) {
        if let Ok(job) = self.job() {
            discard(self.rt, &job, &self.downloading);
        }
    }

    fn name(&self) -> &str {
        self.path.as_str()
    }
}

/// Whether a file is asked for that is so far: it can be written here, as far as that was tried.
fn can_go_on(state: FetchState) -> bool
    // Witness: an equation; `edits/what_cant_be_written_is_fetched`.
    ensures { result ≡ can_go_on state }
{
    match state {
        FetchState::New | FetchState::Prepared => true,
        FetchState::Unwritable(_) => false,
    }
}

/// Whether the line that the server said last is told of this answer.
fn is_told_in_full(detail: RefusalDetail, answer: &Answer<Global>) -> bool
    // Witness: an equation; `edits/the_end_of_a_control_connection_is_not_told_of_a_pattern`.
    ensures { result ≡ is_told_in_full detail answer.now }
{
    match detail {
        RefusalDetail::Line => true,
        RefusalDetail::Code => match answer {
            Answer::Lost => true,
            _ => false,
        },
    }
}
