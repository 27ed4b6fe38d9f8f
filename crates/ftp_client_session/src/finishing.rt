// How an operation ends, and how a client fails (RFC 959, section 5.4).
ghost use Rattle.std.specs.Prelude.{◌≡◌, IfOk, IsTrue, OnErr, OnOk, is_some, option_map};
ghost use Rattle.std.specs.Bool.{then_some};
ghost use Rattle.ftp_operation.specs.Answer.{said_of};
ghost use Rattle.ftp_client_model.specs.Calls.{is_sound};
ghost use Rattle.ftp_client_model.specs.Dialogue.{begins, finishes, finishes_by, finishes_read, next_with};
ghost use Rattle.ftp_client_model.specs.Growing.{is_followed};
ghost use Rattle.ftp_client_model.specs.Telling.{came_of};
ghost use Rattle.ftp_client_model.specs.Tries.{run_at};
ghost use Rattle.ftp_client_model.specs.View.{done_with, dropped, failure_said, fails, stands, strange};
ghost use Rattle.ftp_client_model.specs.declared.client.Failure.TheVariants as Failures;

use crate::dialogue::Dialogue;
use crate::letting_go::let_go;
use crate::task::Task;
use ftp_client_model::client::{ClientLink, Failure, Standing, Step};
use ftp_client_steps::{ClientTransfer, is_size, next_in};
use ftp_facts::Text;
use ftp_operation::Answer;
use std::alloc::{AllocError, Allocator};
use std::mem;

impl<A: Allocator + Copy, F: ClientTransfer<A>> Dialogue<A, F> {
    ghost use Rattle.ftp_client_session.specs.Calm.{is_under_way};
    ghost use Rattle.ftp_client_session.specs.Client.{job_of, shorted, view_of};

    /// What stands of the data connection is to be closed.
    pub(crate) fn drop_link(&mut self)
        ensures op { self.new.op ≡ self.old.op }
        ensures link { view_of F.flow self.new ≡ dropped (view_of F.flow self.old) }
    {
        self.closing = self.closing || stands(self.connection);
        self.connection = ClientLink::Free;
    }

    /// The operation is answered; no link of it is needed. A run goes on with its next operation; only that takes memory.
    pub fn finish(&mut self, answer: Answer<A>) -> Result<(), AllocError>
        ensures ok { OnOk result (view_of F.flow self.new ≡ finishes (said_of answer) (view_of F.flow self.old)) }
        ensures err { OnErr result (shorted (view_of F.flow self.new) ≡ shorted (view_of F.flow self.old)) }
        // Witness of sound: `sound` of `hear_octet`.
        ensures sound { OnErr result (IsTrue (is_sound self.new.standing)) }
        // Witness of was: `err` of `listen_refused`.
        ensures was { OnErr result (IsTrue (is_sound self.old.standing)) }
        // Witness of followed: `grows` of `carry_on`.
        ensures followed { OnErr result (IsTrue (is_some (next_with (view_of F.flow self.old).run self.old.op (said_of answer)))) }
    {
        match &self.place {
            Task::Idle | Task::Waiting | Task::Told(_) => {
                self.drop_link();
                self.tell(answer);
                Ok(())
            }
            Task::Doing(_) | Task::Transferring(_) => self.finish_under_way(answer),
        }
    }

    /// The answer stands until it is taken.
    pub(crate) fn tell(&mut self, answer: Answer<A>)
        ensures { view_of F.flow self.new ≡ done_with (said_of answer) (view_of F.flow self.old) }
    {
        self.place = Task::Told(answer);
        self.run = None;
    }

    /// The operation under way is answered.
    fn finish_under_way(&mut self, answer: Answer<A>) -> Result<(), AllocError>
        requires { IsTrue (is_under_way self.old.place) }
        ensures ok { OnOk result (view_of F.flow self.new
            ≡ finishes_by (next_with (view_of F.flow self.old).run self.old.op (said_of answer)) (said_of answer) (view_of F.flow self.old)) }
        ensures err { OnErr result (shorted (view_of F.flow self.new) ≡ shorted (view_of F.flow self.old)) }
        ensures sound { OnErr result (IsTrue (is_sound self.new.standing)) }
        ensures followed { OnErr result (IsTrue (is_some (next_with (view_of F.flow self.old).run self.old.op (said_of answer)))) }
    {
        match self.next(&answer) {
            Ok(false) => {
                self.drop_link();
                self.tell(answer);
                Ok(())
            }
            Ok(true) => {
                let_go(answer);
                self.try_again()
            }
            Err(error) => {
                let_go(answer);
                Err(error)
            }
        }
    }

    /// What follows the operation under way, where it is a part of a run, takes its place; `false` says that nothing does.
    fn next(&mut self, answer: &Answer<A>) -> Result<bool, AllocError>
        ensures next { IfOk result (λ follows.
            then_some follows self.new.op ≡ next_with (view_of F.flow self.old).run self.old.op (said_of answer.now)) }
        ensures place { self.new.place ≡ self.old.place }
        ensures view { view_of F.flow self.new ≡ record (view_of F.flow self.old) { job = job_of F.flow self.new.op self.old.place } }
        ensures followed { OnErr result (IsTrue (is_some (next_with (view_of F.flow self.old).run self.old.op (said_of answer.now)))) }
    {
        match &mut self.run {
            None => Ok(false),
            Some(run) => next_in(run, &mut self.op, answer, &self.alloc),
        }
    }

    /// The next operation of a run begins.
    fn try_again(&mut self) -> Result<(), AllocError>
        requires { IsTrue (is_under_way self.old.place) }
        ensures ok { OnOk result (view_of F.flow self.new
            ≡ begins self.old.op (record (dropped (view_of F.flow self.old)) { run = option_map (run_at self.old.op) (view_of F.flow self.old).run })) }
        ensures err { OnErr result (shorted (view_of F.flow self.new) ≡ shorted (view_of F.flow self.old)) }
        ensures sound { OnErr result (IsTrue (is_sound self.new.standing)) }
    {
        self.drop_link();
        self.place = Task::Doing(Step::Last);
        self.count_try();
        self.begin()
    }

    /// Every operation of a run but SIZE is a try.
    fn count_try(&mut self)
        ensures run { view_of F.flow self.new ≡ record (view_of F.flow self.old) { run = option_map (run_at self.old.op) (view_of F.flow self.old).run } }
        ensures op { self.new.op ≡ self.old.op }
        ensures standing { self.new.standing ≡ self.old.standing }
    {
        if is_size(&self.op) {
            return;
        }
        if let Some(run) = &mut self.run {
            run.left = run.left.saturating_sub(1);
        }
    }

    /// The operation is answered with what was read, or what was said has no place.
    pub(crate) fn finish_read(&mut self, answer: Option<Answer<A>>) -> Result<(), AllocError>
        ensures ok { OnOk result (view_of F.flow self.new ≡ finishes_read (option_map said_of answer) (view_of F.flow self.old)) }
        ensures err { OnErr result (shorted (view_of F.flow self.new) ≡ shorted (view_of F.flow self.old)) }
        ensures sound { OnErr result (IsTrue (is_sound self.new.standing)) }
        ensures was { OnErr result (IsTrue (is_sound self.old.standing)) }
        ensures followed { OnErr result (IsTrue (is_followed (view_of F.flow self.old).run self.old.op (option_map said_of answer))) }
    {
        match answer {
            None => {
                self.strange();
                Ok(())
            }
            Some(answer) => self.finish(answer),
        }
    }

    /// The server said what has no place.
    pub fn strange(&mut self)
        ensures { view_of F.flow self.new ≡ strange (view_of F.flow self.old) }
    {
        self.fail(Failure::Strange);
    }

    /// The client has failed for good: it sends and hears no more. A second failure changes nothing.
    pub fn fail(&mut self, failure: Failure)
        ensures { view_of F.flow self.new ≡ fails failure (view_of F.flow self.old) }
    {
        if !is_sound(self.standing) {
            return;
        }
        self.drop_link();
        self.output.clear();
        self.run = None;
        if self.is_under_way() {
            self.place = Task::Told(failure_answer(failure));
        }
        self.standing = Standing::Failed(failure);
    }

    /// The control connection ended: the client has failed for good. Hands out what came of a transfer under way, as its answer would have it where
    /// it was cut: of a download of a file. Takes no memory.
    pub fn lose(&mut self) -> Option<Text<A>>
        // Witness: equations; `edits/a_lost_connection_is_told_as_want_of_memory`.
        ensures lost { view_of F.flow self.new ≡ fails Failures.Lost (view_of F.flow self.old) }
        ensures came { result ≡ came_of (view_of F.flow self.old).job }
    {
        let came = self.take_came();
        self.fail(Failure::Lost);
        came
    }

    /// Hands out what came of a transfer under way, whose answer is to be a failure's.
    fn take_came(&mut self) -> Option<Text<A>>
        ensures came { result ≡ came_of (view_of F.flow self.old).job }
        ensures alike { fails Failures.Lost (view_of F.flow self.new) ≡ fails Failures.Lost (view_of F.flow self.old) }
    {
        let Task::Transferring(_) = &self.place else {
            return None;
        };
        let place = mem::replace(&mut self.place, Task::Waiting);
        place.into_came(&self.op, &self.alloc)
    }

    /// Whether an operation is under way.
    fn is_under_way(&self) -> bool
        ensures { result ≡ is_under_way self.now.place }
    {
        match &self.place {
            Task::Idle | Task::Told(_) => false,
            Task::Waiting | Task::Doing(_) | Task::Transferring(_) => true,
        }
    }
}

/// Whether a link, or a port that is listened at, stands.
pub(crate) fn stands(connection: ClientLink) -> bool
    ensures { result ≡ stands connection }
{
    match connection {
        ClientLink::Listening(_) | ClientLink::Accepting(_) | ClientLink::Open => true,
        ClientLink::Free | ClientLink::ListenWanted => false,
        ClientLink::Connecting(_) | ClientLink::Over(_) => false,
    }
}

/// Whether a client has not failed.
pub(crate) fn is_sound(standing: Standing) -> bool
    ensures { result ≡ is_sound standing }
{
    !matches!(standing, Standing::Failed(_))
}

/// The answer of every operation after a failure.
pub(crate) fn failure_answer<A: Allocator + Copy>(failure: Failure) -> Answer<A>
    ensures { said_of result ≡ failure_said failure }
{
    match failure {
        Failure::Lost => Answer::Lost,
        Failure::Strange => Answer::Strange,
        Failure::Memory => Answer::Memory,
    }
}
