// How an operation begins, and how its answer is taken (RFC 959, section 5.4).
ghost use Rattle.std.specs.Prelude.{◌≡◌, ◌&&◌, [], true, IfErr, IfOk, IsTrue, None, OnErr, OnOk, Some, option_map};
ghost use Rattle.ftp_nvt.specs.Fold.{quiet};
ghost use Rattle.ftp_reply.specs.Reader.{Between};
ghost use Rattle.ftp_client_model.specs.Dialogue.{begins};
ghost use Rattle.ftp_operation.specs.Answer.{Memory, said_of};
ghost use Rattle.ftp_operation.specs.Operation.{can_be_sent};
ghost use Rattle.ftp_client_model.specs.Calls.{is_busy, is_sound, report_of, reports, started_by, starts, uploads};
ghost use Rattle.ftp_client_model.specs.Tries.{first_try, over_breaks, run_of};
ghost use Rattle.ftp_client_steps.specs.Tries.{run_in};
ghost use Rattle.ftp_client_model.specs.View.{Told, Waiting, client};
ghost use Rattle.ftp_client_model.specs.Failing.{short};

use crate::dialogue::Dialogue;
use crate::finishing::failure_answer;
use crate::task::Task;
use ftp_client_model::client::{ClientLink, Standing};
use ftp_client_steps::{ClientTransfer, Hearing, Output, Run, can_be_tried};
use ftp_endpoint::Host;
use ftp_facts::Text;
use ftp_operation::{Answer, How, Login, Op, can_be_sent};
use ftp_settings::Representation;
use std::alloc::{AllocError, Allocator};
use std::mem;

impl<A: Allocator + Copy, F: ClientTransfer<A>> Dialogue<A, F> {
    ghost use Rattle.ftp_client_session.specs.Client.{shorted, view_of};

    /// A client as it begins: the server is to speak first. Refused memory, it hands the login back.
    pub fn new(
        alloc: A,
        login: Login<A>,
        here: Host,
        peer: Host,
    ) -> Result<Dialogue<A, F>, Login<A>>
        ensures begun { IfOk result (λ dialogue. view_of F.flow dialogue ≡ client login.user login.pass here peer) }
        ensures back { IfErr result (λ back. back ≡ login) }
    {
        let Ok((hearing, output)) = buffers(&alloc) else {
            return Err(login);
        };
        Ok(Dialogue {
            alloc,
            login,
            here,
            peer,
            standing: Standing::Greeting,
            op: Op::Where,
            place: Task::Idle,
            run: None,
            settings: Representation::default(),
            connection: ClientLink::Free,
            closing: false,
            hearing,
            output,
        })
    }

    /// Whether an operation is begun and its answer was not taken.
    pub fn is_busy(&self) -> bool
        ensures { result ≡ is_busy (view_of F.flow self.now) }
    {
        !matches!(&self.place, Task::Idle)
    }

    /// Begins an operation. Refused memory, it is answered so.
    #[tactic(auto, unfolding(ftp_client_model::specs::Calls::starts))]
    pub fn start(&mut self, op: Op<Text<A>>) -> Result<(), AllocError>
        ensures ok { OnOk result (view_of F.flow self.new ≡ starts op (view_of F.flow self.old)) }
        // Witness of sent: `begun` of `Client::start` and `upload`: an operation that is answered without its server is never short of memory.
        ensures sent { OnErr result (can_be_sent op && is_sound (view_of F.flow self.old).standing ≡ true) }
        ensures err { OnErr result (short (view_of F.flow self.new) ≡ short (record (view_of F.flow self.old) { job = Waiting op; run = None })) }
    {
        if let Standing::Failed(failure) = self.standing {
            drop(op);
            self.tell(failure_answer(failure));
            return Ok(());
        }
        if !can_be_sent(&op) {
            drop(op);
            self.tell(Answer::BadOperation);
            return Ok(());
        }
        self.start_op(op, None)
    }

    /// Begins an upload over breaks. Refused memory, it is answered so.
    #[tactic(auto, unfolding(ftp_client_model::specs::Calls::uploads))]
    pub fn upload(&mut self, path: Text<A>, octets: Text<A>, how: How) -> Result<(), AllocError>
        ensures ok { OnOk result (view_of F.flow self.new ≡ uploads (over_breaks path octets how) (view_of F.flow self.old)) }
        // Witness of sent: as of `start`.
        ensures sent { OnErr result (can_be_sent (first_try (over_breaks path octets how)) && is_sound (view_of F.flow self.old).standing ≡ true) }
        ensures err { OnErr result (short (view_of F.flow self.new)
            ≡ short (record (view_of F.flow self.old) { job = Waiting (first_try (over_breaks path octets how)); run = Some (run_of (over_breaks path octets how)) })) }
    {
        if let Standing::Failed(failure) = self.standing {
            self.tell(failure_answer(failure));
            return Ok(());
        }
        if !can_be_tried(&path, &octets, how) {
            self.tell(Answer::BadOperation);
            return Ok(());
        }
        self.start_run(path, octets, how)
    }

    /// An upload over breaks that can be sent begins. Refused memory, it is answered so.
    fn start_run(&mut self, path: Text<A>, octets: Text<A>, how: How) -> Result<(), AllocError>
        requires sound { IsTrue (is_sound self.old.standing) }
        requires sendable { can_be_sent (first_try (over_breaks path octets how)) ≡ true }
        ensures ok { OnOk result (view_of F.flow self.new
            ≡ started_by self.old.standing (first_try (over_breaks path octets how))
            (record (view_of F.flow self.old) { run = Some (run_of (over_breaks path octets how)) })) }
        ensures err { OnErr result (shorted (view_of F.flow self.new) ≡ shorted (record (view_of F.flow self.old) { job = Told Memory })) }
        ensures standing { OnErr result (self.new.standing ≡ self.old.standing) }
    {
        match ftp_client_steps::first_try(path, octets, how, &self.alloc) {
            Ok((op, run)) => self.start_op(op, Some(run)),
            Err(error) => {
                self.place = Task::Told(Answer::Memory);
                Err(error)
            }
        }
    }

    /// An operation that can be sent begins, alone or as the first of a run: behind the login, or at once. Refused memory, it is answered
    /// so.
    fn start_op(&mut self, op: Op<Text<A>>, run: Option<Run<A>>) -> Result<(), AllocError>
        requires { IsTrue (is_sound self.old.standing) }
        ensures ok { OnOk result (view_of F.flow self.new
            ≡ started_by self.old.standing op (record (view_of F.flow self.old) { run = option_map (run_in op) run })) }
        ensures err { OnErr result (shorted (view_of F.flow self.new) ≡ shorted (record (view_of F.flow self.old) { job = Told Memory })) }
        ensures standing { OnErr result (self.new.standing ≡ self.old.standing) }
    {
        self.run = run;
        drop(mem::replace(&mut self.op, op));
        if let Standing::Entered = self.standing {
            return self.start_now();
        }
        self.place = Task::Waiting;
        Ok(())
    }

    /// The operation begins at once. Refused memory, it is answered so.
    fn start_now(&mut self) -> Result<(), AllocError>
        requires { IsTrue (is_sound self.old.standing) }
        ensures ok { OnOk result (view_of F.flow self.new ≡ begins self.old.op (view_of F.flow self.old)) }
        ensures err { OnErr result (view_of F.flow self.new ≡ record (view_of F.flow self.old) { job = Told Memory }) }
    {
        let begun = self.begin();
        if begun.is_err() {
            self.place = Task::Told(Answer::Memory);
        }
        begun
    }

    /// The answer that stands, which is taken by it.
    pub fn report(&mut self) -> Option<Answer<A>>
        // Witness: equations; `edits/a_report_is_followed_by_another`.
        ensures answer { option_map said_of result ≡ report_of (view_of F.flow self.old) }
        ensures taken { view_of F.flow self.new ≡ reports (view_of F.flow self.old) }
    {
        let Task::Told(_) = &self.place else {
            return None;
        };
        mem::replace(&mut self.place, Task::Idle).into_answer()
    }
}

/// What a client reserves at its start.
fn buffers<A: Allocator + Copy>(alloc: &A) -> Result<(Hearing<A>, Output<A>), AllocError>
    ensures { IfOk result (λ buffers. (buffers.0.ear ≡ quiet) × (buffers.0.gathered ≡ Between) × (buffers.1 ≡ [])) }
{
    let hearing = Hearing::new(*alloc)?;
    let output = Output::new(*alloc)?;
    Ok((hearing, output))
}
