// What follows of where a transfer stands: the close of an upload, the ABOR of a Peek, and the answer (RFC 959, sections 3.4.1, 4.1.3
// and 5.4).
ghost use Rattle.std.specs.Prelude.{◌≡◌, IsTrue, OnErr, OnOk};
ghost use Rattle.ftp_client_model.specs.Calls.{is_sound};
ghost use Rattle.ftp_client_model.specs.Growing.{answering_grows, carrying_grows, judging_grows};
ghost use Rattle.ftp_client_model.specs.Dialogue.{aborts_once_enough, answers_once_over, carries_on, closes_once_given, finishes_read, has_begun, is_unsent, judged};

use crate::dialogue::Dialogue;
use crate::task::Task;
use ftp_client_model::client::{Abort, ClientLink, Ending, Replied, Step};
use ftp_client_steps::ClientTransfer;
use ftp_command::Command;
use std::alloc::{AllocError, Allocator};
use std::mem;

impl<A: Allocator + Copy, F: ClientTransfer<A>> Dialogue<A, F> {
    ghost use Rattle.ftp_client_session.specs.Client.{in_transfer, shorted, to_abort, view_of};

    /// What follows of where a transfer stands. It takes memory only for an ABOR, the answer of a download, and the next operation of a run.
    pub fn carry_on(&mut self) -> Result<(), AllocError>
        // Witness of ok, err: equations; `edits/done_before_the_links_end`.
        ensures ok { OnOk result (view_of F.flow self.new ≡ carries_on (view_of F.flow self.old)) }
        ensures err { OnErr result (shorted (view_of F.flow self.new) ≡ shorted (view_of F.flow self.old)) }
        // Witness of sound, was: `now` of `Client::data_out`.
        ensures sound { OnErr result (IsTrue (is_sound (view_of F.flow self.new).standing)) }
        ensures was { OnErr result (IsTrue (is_sound (view_of F.flow self.old).standing)) }
        // Witness of grows: `spare` of `Client::data_out`; `edits/an_answer_needs_memory_where_nothing_follows`.
        ensures grows { OnErr result (IsTrue (carrying_grows (view_of F.flow self.old))) }
    {
        self.close_once_given();
        let Ok(()) = self.abort_once_enough() else {
            return Err(AllocError);
        };
        self.answer_once_over()
    }

    /// An upload ends by the client's close, once its transfer has begun and all is given.
    fn close_once_given(&mut self)
        ensures { view_of F.flow self.new ≡ closes_once_given (view_of F.flow self.old).job (view_of F.flow self.old) }
    {
        let Task::Transferring(transfer) = &self.place else {
            return;
        };
        if !has_begun(transfer.replied) || !transfer.flow.is_given(&self.op) {
            return;
        }
        let ClientLink::Open = self.connection else {
            return;
        };
        self.close();
    }

    /// ABOR is sent once the transfer has begun, its link is open and a Peek has enough (own choice). Without memory nothing changes.
    pub(crate) fn abort_once_enough(&mut self) -> Result<(), AllocError>
        ensures ok { OnOk result (view_of F.flow self.new ≡ aborts_once_enough (view_of F.flow self.old).job (view_of F.flow self.old)) }
        ensures err { OnErr result (view_of F.flow self.new ≡ view_of F.flow self.old) }
        ensures was { OnErr result (IsTrue (is_sound self.old.standing)) }
        ensures grows { OnErr result (IsTrue (to_abort (view_of F.flow self.old))) }
    {
        if !self.is_to_abort() {
            return Ok(());
        }
        let Task::Transferring(_) = &self.place else {
            return Ok(());
        };
        self.send(Command::Abor)?;
        if let Task::Transferring(transfer) = &mut self.place {
            transfer.abort = Abort::Sent;
        }
        Ok(())
    }

    /// Whether ABOR is to be sent.
    fn is_to_abort(&self) -> bool
        ensures { result ≡ to_abort (view_of F.flow self.now) }
    {
        let Task::Transferring(transfer) = &self.place else {
            return false;
        };
        let ClientLink::Open = self.connection else {
            return false;
        };
        is_unsent(transfer.abort)
            && has_begun(transfer.replied)
            && transfer.flow.has_enough(&self.op)
    }

    /// The answer of a transfer stands as soon as its final reply, its link's end and the reply to its ABOR, where it sent one, are in.
    fn answer_once_over(&mut self) -> Result<(), AllocError>
        ensures ok { OnOk result (view_of F.flow self.new ≡ answers_once_over (view_of F.flow self.old)) }
        ensures err { OnErr result (shorted (view_of F.flow self.new) ≡ shorted (view_of F.flow self.old)) }
        ensures sound { OnErr result (IsTrue (is_sound self.new.standing)) }
        ensures was { OnErr result (IsTrue (is_sound self.old.standing)) }
        ensures grows { OnErr result (IsTrue (answering_grows (view_of F.flow self.old).job (view_of F.flow self.old))) }
    {
        let Task::Transferring(transfer) = &self.place else {
            return Ok(());
        };
        let Replied::Final(code) = transfer.replied else {
            return Ok(());
        };
        let ClientLink::Over(ending) = self.connection else {
            return Ok(());
        };
        if let Abort::Sent = transfer.abort {
            return Ok(());
        }
        self.answer(ending, code)
    }

    /// The transfer under way is answered.
    fn answer(&mut self, ending: Ending, code: u16) -> Result<(), AllocError>
        ensures ok { OnOk result (view_of F.flow self.new ≡ in_transfer (λ op transfer v.
            finishes_read (judged ending transfer.abort code op transfer.flow) v) (view_of F.flow self.old)) }
        ensures err { OnErr result (shorted (view_of F.flow self.new) ≡ shorted (view_of F.flow self.old)) }
        ensures sound { OnErr result (IsTrue (is_sound self.new.standing)) }
        ensures was { OnErr result (IsTrue (is_sound self.old.standing)) }
        ensures grows { OnErr result (IsTrue (judging_grows ending code (view_of F.flow self.old).run (view_of F.flow self.old).job)) }
    {
        let Task::Transferring(_) = &self.place else {
            return Ok(());
        };
        let place = mem::replace(&mut self.place, Task::Doing(Step::Last));
        match place.judged(ending, code, &self.op, &self.alloc) {
            Ok(answer) => self.finish_read(answer),
            Err(error) => Err(error),
        }
    }
}

/// Whether a transfer has begun.
pub(crate) fn has_begun(replied: Replied) -> bool
    ensures { result ≡ has_begun replied }
{
    !matches!(replied, Replied::Nothing)
}

/// Whether no ABOR was sent.
fn is_unsent(abort: Abort) -> bool
    ensures { result ≡ is_unsent abort }
{
    matches!(abort, Abort::Unsent)
}
