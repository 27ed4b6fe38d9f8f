// How far an operation has come (RFC 959, section 5.4).
ghost use Rattle.std.specs.Prelude.{◌≡◌, ◌<◌, ◌≤◌, ℕ, List, IfErr, IfOk, IsTrue, OnErr, length, min, option_map, take};
ghost use Rattle.ftp_operation.specs.Answer.{Memory, said_of};
ghost use Rattle.ftp_operation.specs.declared.op.Op.{Op};
ghost use Rattle.ftp_ends.specs.Octets.{has_octets};
ghost use Rattle.ftp_client_model.specs.Calls.{report_of_job};
ghost use Rattle.ftp_client_model.specs.Telling.{came_of};
ghost use Rattle.ftp_client_model.specs.View.{failed_job};

use crate::letting_go::let_go;
use ftp_client_model::client::{Abort, Ending, Replied, Step};
use ftp_client_steps::{ClientTransfer, judged};
use ftp_facts::Text;
use ftp_operation::{Answer, Op};
use std::alloc::{AllocError, Allocator};

/// A transfer whose command was sent; `F` is what it carries.
#[derive(Drop)]
pub struct Transfer<F: Drop> {
    pub replied: Replied,
    pub abort: Abort,
    pub flow: F,
}

/// How far the operation that was begun last has come.
pub enum Task<A: Allocator + Copy, F: Drop> {
    /// No operation is under way, and no answer waits.
    Idle,
    /// It waits for the end of the login.
    Waiting,
    /// This step is under way.
    Doing(Step),
    /// Its transfer's command was sent.
    Transferring(Transfer<F>),
    /// It is done, and its answer was not taken yet.
    Told(Answer<A>),
}

/// By hand: a derived drop is proved again wherever a place is let go.
impl<A: Allocator + Copy, F: Drop> Drop for Task<A, F> {
    fn drop(self) {
        match self {
            Task::Idle | Task::Waiting | Task::Doing(_) | Task::Transferring(_) => {}
            Task::Told(answer) => let_go(answer),
        }
    }
}

impl<A: Allocator + Copy, F: ClientTransfer<A>> Task<A, F> {
    ghost use Rattle.ftp_client_session.specs.Calm.{is_under_way};
    ghost use Rattle.ftp_client_session.specs.Client.{JobNotYet, job_heard, octets_of_job, job_noted, job_of, job_unsent, job_went};
    ghost use Rattle.ftp_client_session.specs.Judged.{job_is_down, job_judged};

    /// Notes the mmmm of a 110 reply to an upload.
    pub(crate) fn note(&mut self, op: &Op<Text<A>>, mark: Option<u64>)
        ensures now { job_of F.flow op.now self.new ≡ job_noted mark (job_of F.flow op.now self.old) }
        ensures calm { is_under_way self.new ≡ is_under_way self.old }
    {
        if let Task::Transferring(transfer) = self {
            transfer.flow.note(op, mark);
        }
    }

    /// Gives octets of an upload, and says how many.
    pub(crate) fn give(&mut self, op: &Op<Text<A>>, room: &mut [u8]) -> usize
        // Witness of within, gave, some, most: bounds, and equations.
        ensures within { (result ≤ length room.old) × (result ≤ length (octets_of_job (job_of F.flow op.now self.old))) }
        ensures gave { take result room.new ≡ take result (octets_of_job (job_of F.flow op.now self.old)) }
        // Witness of now: equations; `edits/upload_octets_are_given_before_the_1yz`.
        ensures now { job_of F.flow op.now self.new ≡ job_went result (job_of F.flow op.now self.old) }
        ensures some { 0 < length room.old → 0 < length (octets_of_job (job_of F.flow op.now self.old)) → 0 < result }
        ensures most { result ≡ min (length room.old) (length (octets_of_job (job_of F.flow op.now self.old))) }
        ensures calm { is_under_way self.new ≡ is_under_way self.old }
    {
        match self {
            Task::Transferring(transfer) => transfer.flow.give(op, room),
            Task::Idle | Task::Waiting | Task::Doing(_) | Task::Told(_) => 0,
        }
    }

    /// Whether octets of an upload are still to be given.
    #[tactic(auto, using(crate::proofs::GivenLemmas::some_left))]
    pub(crate) fn has_left(&self, op: &Op<Text<A>>) -> bool
        ensures { result ≡ has_octets (octets_of_job (job_of F.flow op.now self.now)) }
    {
        match self {
            Task::Transferring(transfer) => !transfer.flow.is_down(op)
                && !transfer.flow.is_given(op),
            Task::Idle | Task::Waiting | Task::Doing(_) | Task::Told(_) => false,
        }
    }

    /// Takes octets of a download, and says how many. `Err` says behind how many of them memory was refused.
    pub(crate) fn hear(&mut self, op: &Op<Text<A>>, piece: &[u8]) -> Result<usize, usize>
        ensures heard { IfOk result (λ count. job_of F.flow op.now self.new ≡ job_heard (take count piece.now) (job_of F.flow op.now self.old)) }
        ensures within { IfOk result (λ count. (count ≤ length piece.now) × JobNotYet (take count piece.now) (job_of F.flow op.now self.old)) }
        ensures some { IfOk result (λ count. 0 < length piece.now → 0 < count) }
        ensures refused { IfErr result (λ count. count < length piece.now) }
        ensures short { failed_job Memory (job_of F.flow op.now self.new) ≡ failed_job Memory (job_of F.flow op.now self.old) }
        ensures calm { is_under_way self.new ≡ is_under_way self.old }
    {
        match self {
            Task::Transferring(transfer) => transfer.flow.hear(op, piece),
            Task::Idle | Task::Waiting | Task::Doing(_) | Task::Told(_) => Ok(piece.len()),
        }
    }

    /// The answer that waits.
    pub(crate) fn into_answer(self) -> Option<Answer<A>>
        ensures { (op : Op (List ℕ)) → option_map said_of result ≡ report_of_job (job_of F.flow op self) }
    {
        match self {
            Task::Told(answer) => Some(answer),
            Task::Idle | Task::Waiting | Task::Doing(_) | Task::Transferring(_) => None,
        }
    }

    /// What came of a transfer under way, as its answer would have it where it was cut: of a download of a file. Takes no memory.
    pub(crate) fn into_came(self, op: &Op<Text<A>>, alloc: &A) -> Option<Text<A>>
        ensures { result ≡ came_of (job_of F.flow op.now self) }
    {
        match self {
            Task::Transferring(transfer) => Some(transfer.flow.came(op, alloc)),
            Task::Told(answer) => {
                let_go(answer);
                None
            }
            Task::Idle | Task::Waiting | Task::Doing(_) => None,
        }
    }

    /// What a transfer is answered, by its final reply's code and its link's end. Only the answer of a download takes memory.
    pub(crate) fn judged(
        self,
        ending: Ending,
        code: u16,
        op: &Op<Text<A>>,
        alloc: &A,
    ) -> Result<Option<Answer<A>>, AllocError>
        ensures answer { IfOk result (λ answer. option_map said_of answer ≡ job_judged ending code (job_of F.flow op.now self)) }
        ensures down { OnErr result (IsTrue (job_is_down (job_of F.flow op.now self))) }
    {
        match self {
            Task::Transferring(transfer) => {
                judged(ending, transfer.abort, code, op, transfer.flow, alloc)
            }
            Task::Told(answer) => {
                let_go(answer);
                Ok(None)
            }
            Task::Idle | Task::Waiting | Task::Doing(_) => Ok(None),
        }
    }

    /// Whether it is a transfer that sent no ABOR.
    pub(crate) fn is_unsent(&self, op: &Op<Text<A>>) -> bool
        ensures { result ≡ job_unsent (job_of F.flow op.now self.now) }
    {
        let Task::Transferring(transfer) = self else {
            return false;
        };
        matches!(transfer.abort, Abort::Unsent)
    }
}
