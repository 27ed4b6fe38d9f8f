// What a queue asks: jobs that wait, and what each does in its turn and ahead of it.
ghost use Rattle.std.specs.Prelude.{◌≡◌, ℕ, List};
ghost use Rattle.tool_job.specs.queue.Order.{GivesWaiting};

use ftp_operation::Answer;
use std::alloc::Global;
use std::io;
use tool_session::{ClientSession, LastReply, SessionFault};
use tool_terminal::Status;

/// One of several things that are asked of a server.
pub trait QueuedJob {
    /// What it is called.
    ghost named: { Self → List ℕ };

    /// Asks ahead of its turn what will be asked, if it was not and may be.
    fn foresee<S: ClientSession>(&mut self, slot: &mut S);

    /// Whether it was asked ahead, over control connections that are still there.
    fn is_ahead(&self) -> bool;

    /// The control connections over which it was asked ahead are gone.
    fn forget(&mut self);

    /// Asks in its turn, and gives what the server answered. Fails where it stops before there is an answer.
    fn ask<S: ClientSession>(&mut self, slot: &mut S) -> Result<Answer<Global>, SessionFault>;

    /// How many octets came of it so far.
    fn reach(&self) -> u64;

    /// Whether it is asked on over another control connection where that of its turn ended.
    fn goes_on(&self) -> bool;

    /// Leaves at this end what came of it, as the server answered; tells why it is not done, if it is not, and gives the exit status. `last_reply` is what the
    /// server said last. Fails where standard error can't be written.
    fn leave(&mut self, answer: &Answer<Global>, last_reply: &LastReply) -> io::Result<Status>;

    /// The same where it was stopped by this fault.
    fn stop(&mut self, stop: SessionFault) -> io::Result<Status>;

    /// Its turn never comes: nothing of it is left at this end.
    fn abandon(&mut self);

    /// What it is called, where it is not done; lent until it changes.
    fn name(&self) -> &str
        // Witness: an equation; `edits/a_job_has_the_name_of_its_file`.
        ensures { result.now ≡ named self.now };
}

/// What waits until it is taken up.
pub trait WaitingJobs<E: QueuedJob> {
    /// What those are called that wait, in their order.
    ghost waits: { Self → List (List ℕ) };

    /// The next one, of which nothing was asked yet; none where all were taken up. Fails where it can't be made, as where memory is refused.
    fn next(&mut self) -> io::Result<Option<E>>
        // Witness: edits of `tool_get_put`, as `a_file_that_waits_is_left_out`.
        ensures { GivesWaiting E.named (waits self.old) (waits self.new) result };
}

/// How often a thing is asked.
#[derive(Clone, Copy)]
pub enum Often {
    /// Once: where its control connection ended, it may be done.
    Once,
    /// On and on, over further control connections, as long as that gets further.
    On,
}
