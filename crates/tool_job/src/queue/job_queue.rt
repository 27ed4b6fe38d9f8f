// Several things of one kind that are asked of a server, one after another: over several control connections what comes next is asked ahead.
ghost use Rattle.std.specs.Prelude.{◌≡◌, ◌≢◌, OnErr, OnOk, is_some};
ghost use Rattle.tool_terminal.specs.declared.status.Status.TheVariants.{Done};
ghost use Rattle.tool_job.specs.queue.Order.{GivesFirst, GivesNext, KeepsOrder};
ghost use Rattle.tool_job.specs.queue.QueueStatus.{counted};

use crate::queue::ahead_jobs::AheadJobs;
use crate::queue::decisions::{
    AfterRound, AnswerEffect, JobSupply, RoundState, after_round, effect_of, takes_up, waits,
};
use crate::queue::queue_status::QueueStatus;
use crate::queue::queued_job::{Often, QueuedJob, WaitingJobs};
use ftp_operation::Answer;
use std::alloc::Global;
use std::io;
use std::io::Eprint;
use tool_session::{ClientSession, LastReply, Phase, SessionFault, SessionTask, at};
use tool_terminal::{Shown, Status};

/// How often a thing is taken up that may be asked ahead, for each that is done.
const MOST_AHEAD: usize = 8;

/// Things that are asked of a server one after another.
pub struct JobQueue<'a, R, E, W> {
    rt: &'a R,
    waiting: W,
    /// Whether more can be taken up of what waits.
    supply: JobSupply,
    ahead: AheadJobs<E>,
    /// What was in its turn when a control connection ended.
    cut: Option<E>,
    status: QueueStatus,
    /// What is not done where one is not done, as `copied`.
    done: &'static str,
    often: Often,
    round: RoundState,
}

/// By hand: a derived drop is proved again, part by part, wherever one is let go.
impl<'a, R, E: Drop, W: Drop> Drop for JobQueue<'a, R, E, W> {
    fn drop(self) {
        let Self {
            rt: _,
            waiting: _,
            supply: _,
            ahead: _,
            cut: _,
            status: _,
            done: _,
            often: _,
            round: _,
        } = self;
    }
}

impl<'a, R: Eprint, E: QueuedJob + Drop, W: WaitingJobs<E> + Drop> JobQueue<'a, R, E, W> {
    /// Of which nothing was asked yet. `done` says what one is not that is not done.
    pub fn new(
        rt: &'a R,
        alloc: Global,
        waiting: W,
        done: &'static str,
        often: Often,
    ) -> JobQueue<'a, R, E, W> {
        JobQueue {
            rt,
            waiting,
            supply: JobSupply::Open,
            ahead: AheadJobs::new(alloc),
            cut: None,
            status: QueueStatus::new(),
            done,
            often,
            round: RoundState::Asking,
        }
    }

    /// How far it got: how many had their turn, and how many octets came of the one that has it.
    pub fn reach(&self) -> (u64, u64) {
        let came = match &self.cut {
            Some(queued_job) => queued_job.reach(),
            None => 0,
        };
        (self.status.turns, came)
    }

    /// The worst status so far.
    pub fn worst(&self) -> Status
        ensures { result ≡ self.now.status.worst }
    {
        self.status.worst
    }

    /// Whether one was in its turn when a control connection ended.
    pub fn is_cut(&self) -> bool
        ensures { result ≡ is_some self.now.cut }
    {
        self.cut.is_some()
    }

    /// What follows a round of control connections that was answered so last.
    pub(crate) fn after_round(&self, answer: &Answer<Global>) -> AfterRound {
        after_round(answer, self.often)
    }

    /// How often its jobs are asked.
    pub(crate) fn often(&self) -> Often
        ensures { result ≡ self.now.often }
    {
        self.often
    }

    /// Takes up as many ahead as there are control connections that ask ahead, and asks what may be asked ahead.
    fn foresee<S: ClientSession>(&mut self, slot: &mut S) -> io::Result<()> {
        if let RoundState::Draining = self.round {
            return Ok(());
        }
        self.take_up(slot.ahead())?;
        self.ahead.foresee(slot);
        Ok(())
    }

    /// Takes up jobs until so many are ahead, or none can be taken up any more.
    fn take_up(&mut self, most: usize) -> io::Result<()>
        // Witness: `edits/a_job_is_not_taken_up_as_it_waits`.
        ensures { OnOk result (KeepsOrder E.named self.old.ahead.jobs.items self.new.ahead.jobs.items (W.waits self.old.waiting) (W.waits self.new.waiting) self.new.supply) }
    {
        for _ in 0..MOST_AHEAD {
            if !takes_up(self.ahead.len(), most, self.supply) {
                break;
            }
            self.take_up_next()?;
        }
        Ok(())
    }

    /// Takes up the next job that waits, where there is one and it can be made.
    fn take_up_next(&mut self) -> io::Result<()>
        ensures { OnOk result (KeepsOrder E.named self.old.ahead.jobs.items self.new.ahead.jobs.items (W.waits self.old.waiting) (W.waits self.new.waiting) self.new.supply) }
    {
        match self.waiting.next() {
            Ok(Some(queued_job)) => self.ahead.push(queued_job)?,
            Ok(None) => {}
            Err(error) => self.supply = JobSupply::Failed(error),
        }
        Ok(())
    }

    /// The next one that has its turn: the one that had it when a control connection ended, and else the first behind it.
    fn next(&mut self) -> io::Result<Option<E>>
        // Witness: `edits/a_job_that_was_cut_off_comes_last`.
        ensures { GivesNext E.named self.old.cut self.old.ahead.jobs.items self.new.ahead.jobs.items (W.waits self.old.waiting) (W.waits self.new.waiting)
            self.old.supply result }
    {
        if let Some(queued_job) = self.cut.take() {
            return Ok(Some(queued_job));
        }
        let next = self.next_behind()?;
        if next.is_some() {
            self.status.begin_turn();
        }
        Ok(next)
    }

    /// The first one that was taken up ahead, and else the next that waits. Fails where none can be taken up, for the reason of that.
    fn next_behind(&mut self) -> io::Result<Option<E>>
        // Witness: `edits/what_waits_overtakes_what_was_taken_up`.
        ensures { GivesFirst E.named self.old.ahead.jobs.items self.new.ahead.jobs.items (W.waits self.old.waiting) (W.waits self.new.waiting)
            self.old.supply result }
    {
        if let Some(queued_job) = self.ahead.take_first() {
            return Ok(Some(queued_job));
        }
        match self.supply {
            JobSupply::Open => self.waiting.next(),
            JobSupply::Failed(error) => Err(error),
        }
    }

    /// Control connections begin, over which nothing was asked ahead.
    fn begin(&mut self) {
        self.round = RoundState::Asking;
        self.ahead.forget();
        if let Some(queued_job) = &mut self.cut {
            queued_job.forget();
        }
    }

    /// One turn: what the server answered last, where no further one follows over these control connections.
    fn turn<S: ClientSession>(
        &mut self,
        slot: &mut S,
    ) -> Result<Option<Answer<Global>>, SessionFault> {
        at(Phase::Asking, self.foresee(slot))?;
        let Some(queued_job) = at(Phase::Asking, self.next())? else {
            return Ok(Some(Answer::Done));
        };
        if waits(self.round, queued_job.is_ahead()) {
            self.cut = Some(queued_job);
            return Ok(Some(Answer::Lost));
        }
        self.asked(slot, queued_job)
    }

    /// Asks one in its turn; gives the answer where that ends the round.
    fn asked<S: ClientSession>(
        &mut self,
        slot: &mut S,
        queued_job: E,
    ) -> Result<Option<Answer<Global>>, SessionFault> {
        let mut queued_job = queued_job;
        let answer = match queued_job.ask(slot) {
            Ok(answer) => answer,
            Err(stop) => {
                at(Phase::Report, self.stopped(queued_job, stop))?;
                return Ok(None);
            }
        };
        match effect_of(&answer, queued_job.goes_on()) {
            AnswerEffect::CutOff => {
                self.cut = Some(queued_job);
                return Ok(Some(answer));
            }
            AnswerEffect::LeftLast => self.round = RoundState::Draining,
            AnswerEffect::Left => {}
        }
        let last_reply = slot.take_noticed();
        at(Phase::Report, self.left(queued_job, &answer, &last_reply))?;
        Ok(None)
    }

    /// One is left as the server answered.
    fn left(
        &mut self,
        queued_job: E,
        answer: &Answer<Global>,
        last_reply: &LastReply,
    ) -> io::Result<()>
        // Witness: `edits/what_cant_be_told_is_done`.
        ensures { OnErr result (self.new.status.worst ≢ Done) }
    {
        let mut queued_job = queued_job;
        let left = queued_job.leave(answer, last_reply);
        self.settle(&queued_job, left)
    }

    /// One was stopped.
    fn stopped(&mut self, queued_job: E, stop: SessionFault) -> io::Result<()>
        ensures { OnErr result (self.new.status.worst ≢ Done) }
    {
        let mut queued_job = queued_job;
        let left = queued_job.stop(stop);
        self.settle(&queued_job, left)
    }

    /// Counts how one was left: a status that can't be told is that of a failure.
    fn settle(&mut self, queued_job: &E, left: io::Result<Status>) -> io::Result<()>
        // Witness: `edits/what_cant_be_told_is_done`.
        ensures { OnErr result (self.new.status.worst ≢ Done) }
    {
        match left {
            Ok(status) => self.count(queued_job, status),
            Err(error) => {
                self.status.count(Status::Failed);
                Err(error)
            }
        }
    }

    /// Counts the status of one, and tells which one was not done, as its sentence does not say.
    fn count(&mut self, queued_job: &E, status: Status) -> io::Result<()>
        // Witness of counts: an equation; `edits/what_is_not_told_does_not_count`.
        ensures counts { self.new.status ≡ counted self.old.status status }
        ensures fails { OnErr result (self.new.status.worst ≢ Done) }
    {
        self.status.count(status);
        if status != Status::Done {
            let name = Shown(queued_job.name().as_bytes());
            eprintln!(self.rt; "note: not {}: {name}", self.done)?;
        }
        Ok(())
    }

    /// The one that has its turn is left as the server answered, over no control connection any more; says whether there was one.
    /// Fails where none can be taken up, or standard error can't be written.
    pub fn give_up(&mut self, answer: &Answer<Global>, last_reply: &LastReply) -> io::Result<bool> {
        match self.next()? {
            Some(queued_job) => {
                self.left(queued_job, answer, last_reply)?;
                Ok(true)
            }
            None => Ok(false),
        }
    }

    /// The one that has its turn is stopped, where there is one; says whether there was.
    pub(crate) fn stop_next(&mut self, stop: SessionFault) -> io::Result<bool> {
        match self.next()? {
            Some(queued_job) => {
                self.stopped(queued_job, stop)?;
                Ok(true)
            }
            None => Ok(false),
        }
    }

    /// What was taken up and has no turn any more leaves nothing at this end.
    pub fn abandon(&mut self) {
        self.ahead.abandon();
    }
}

impl<'a, R, E, W> SessionTask<Result<Answer<Global>, SessionFault>> for JobQueue<'a, R, E, W>
where
    R: Eprint,
    E: QueuedJob + Drop,
    W: WaitingJobs<E> + Drop,
{
    fn play<S: ClientSession>(&mut self, slot: &mut S) -> Result<Answer<Global>, SessionFault> {
        self.begin();
        for _ in 0..u64::MAX {
            if let Some(answer) = self.turn(slot)? {
                return Ok(answer);
            }
        }
        Ok(Answer::Lost)
    }
}
