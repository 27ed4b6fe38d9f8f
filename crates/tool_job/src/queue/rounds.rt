// All jobs of a queue, over one round of control connections after another.
ghost use Rattle.std.specs.Prelude.{◌≡◌, ◌⊎◌, IfOk};
ghost use Rattle.tool_terminal.specs.declared.status.Status.TheVariants.{Failed};

use crate::queue::decisions::{AfterRound, gets_further};
use crate::queue::job_queue::JobQueue;
use crate::queue::queued_job::{Often, QueuedJob, WaitingJobs};
use crate::single::Target;
use ftp_operation::Answer;
use std::alloc::Global;
use std::io;
use std::io::Eprint;
use tool_connect::{Converses, Logins, ask, converse_as};
use tool_session::{LastReply, Phase, SessionFault, at};
use tool_terminal::Status;

/// How often it goes on that got further over the control connections before.
const ROUNDS: u32 = 1_000_000;

/// Does all of them: one that fails does not stop the others. Gives the worst status, and tells on standard error of each that is not done; `last_reply` is
/// what the server said last. Fails where standard error can't be written, or what waits can't be taken up.
pub fn done_all<R, E, W>(
    rt: &R,
    asked: &Target<'_>,
    job_queue: &mut JobQueue<'_, R, E, W>,
    last_reply: &mut LastReply,
) -> Result<Status, SessionFault>
where
    R: Converses + Logins + Eprint,
    E: QueuedJob + Drop,
    W: WaitingJobs<E> + Drop,
    // Witness: `edits/all_is_done_whatever_the_jobs_say`, `edits/jobs_that_are_left_over_are_done`.
    ensures { IfOk result (λ status. (status ≡ job_queue.new.status.worst) ⊎ (status ≡ Failed)) }
{
    for _ in 0..ROUNDS {
        let goes_on = match ask_rounds(rt, asked, job_queue, last_reply) {
            Ok(answer) => {
                let left = follow_round(job_queue, &answer, last_reply);
                drop(answer);
                left
            }
            Err(stop) => job_queue.stop_next(stop),
        };
        if !at(Phase::Report, goes_on)? {
            return Ok(job_queue.worst());
        }
        *last_reply = LastReply::new();
    }
    Ok(Status::Failed)
}

/// What follows where the server answered so last; says whether anything does.
fn follow_round<R, E, W>(
    job_queue: &mut JobQueue<'_, R, E, W>,
    answer: &Answer<Global>,
    last_reply: &LastReply,
) -> io::Result<bool>
where
    R: Eprint,
    E: QueuedJob + Drop,
    W: WaitingJobs<E> + Drop,
{
    match job_queue.after_round(answer) {
        AfterRound::Over => Ok(false),
        AfterRound::Again => Ok(true),
        AfterRound::GivesUp => job_queue.give_up(answer, last_reply),
    }
}

/// Goes on as long as each round of control connections gets further; what is asked once has one.
fn ask_rounds<R, E, W>(
    rt: &R,
    asked: &Target<'_>,
    job_queue: &mut JobQueue<'_, R, E, W>,
    last_reply: &mut LastReply,
) -> Result<Answer<Global>, SessionFault>
where
    R: Converses + Logins + Eprint,
    E: QueuedJob + Drop,
    W: WaitingJobs<E> + Drop,
{
    if let Often::Once = job_queue.often() {
        return converse_as(rt, asked.server(), asked.user, last_reply, job_queue);
    }
    for _ in 0..ROUNDS {
        let before = job_queue.reach();
        let answered = ask(rt, asked.server(), asked.user, last_reply, job_queue);
        let is_lost = matches!(&answered, Ok(Answer::Lost));
        if !is_lost || !gets_further(before, job_queue.reach()) {
            return answered;
        }
        drop(answered);
    }
    Ok(Answer::Lost)
}
