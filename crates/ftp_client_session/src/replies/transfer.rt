// The replies to a transfer's command (RFC 959, sections 4.2 and 5.4).
ghost use Rattle.std.specs.Prelude.{◌≡◌, IsTrue, OnErr, OnOk};
ghost use Rattle.ftp_client_model.specs.Calls.{is_sound};
ghost use Rattle.ftp_client_model.specs.Dialogue.{abort_answered, before_opening, behind_opening, noted, transfer_answered};
ghost use Rattle.ftp_client_session.specs.Client.{in_transfer, shorted, view_of};
ghost use Rattle.ftp_client_steps.specs.Verdict.{verdict_in};
ghost use Rattle.ftp_reply.specs.Lines.{joined};

use crate::dialogue::Dialogue;
use crate::task::Task;
use ftp_client_model::client::Replied;
use ftp_client_steps::{ClientTransfer, Verdict};
use ftp_reply::code::MARK;
use ftp_reply::{Reply, mark_of};
use std::alloc::{AllocError, Allocator};

/// A reply during a transfer, by the replies that came before.
pub(crate) fn transfer_answered<A: Allocator + Copy, F: ClientTransfer<A>>(
    dialogue: &mut Dialogue<A, F>,
    verdict: Verdict,
    reply: &Reply<A>,
) -> Result<(), AllocError>
    ensures ok { OnOk result (view_of F.flow dialogue.new ≡ in_transfer (λ op transfer v.
        transfer_answered transfer.replied (verdict_in verdict) reply.now.code (joined reply.now.lines) op transfer v) (view_of F.flow dialogue.old)) }
    ensures err { OnErr result (shorted (view_of F.flow dialogue.new) ≡ shorted (view_of F.flow dialogue.old)) }
    ensures sound { OnErr result (IsTrue (is_sound (view_of F.flow dialogue.new).standing)) }
{
    let Task::Transferring(transfer) = dialogue.place() else {
        return Ok(());
    };
    match transfer.replied {
        Replied::Nothing => before_opening(dialogue, verdict, reply.code),
        Replied::Begun => behind_opening(dialogue, verdict, reply),
        Replied::Final(_) => dialogue.abort_answered(verdict),
    }
}

/// Before its 1yz a transfer is refused or begins; a 2yz or 3yz has no place.
fn before_opening<A: Allocator + Copy, F: ClientTransfer<A>>(
    dialogue: &mut Dialogue<A, F>,
    verdict: Verdict,
    code: u16,
) -> Result<(), AllocError>
    ensures ok { OnOk result (view_of F.flow dialogue.new ≡ in_transfer (before_opening (verdict_in verdict) code) (view_of F.flow dialogue.old)) }
    ensures err { OnErr result (shorted (view_of F.flow dialogue.new) ≡ shorted (view_of F.flow dialogue.old)) }
    ensures sound { OnErr result (IsTrue (is_sound (view_of F.flow dialogue.new).standing)) }
{
    let Task::Transferring(_) = dialogue.place() else {
        return Ok(());
    };
    match verdict {
        Verdict::Preliminary => dialogue.transfer_opened(code),
        Verdict::Negative => {
            dialogue.close();
            dialogue.with_reply(Replied::Final(code))
        }
        Verdict::Completion | Verdict::Intermediate => {
            dialogue.strange();
            Ok(())
        }
        Verdict::Closing | Verdict::Displaced => {
            dialogue.strange();
            Ok(())
        }
    }
}

/// After the 1yz, a 2yz, 4yz or 5yz is the transfer's final reply.
fn behind_opening<A: Allocator + Copy, F: ClientTransfer<A>>(
    dialogue: &mut Dialogue<A, F>,
    verdict: Verdict,
    reply: &Reply<A>,
) -> Result<(), AllocError>
    ensures ok { OnOk result (view_of F.flow dialogue.new
        ≡ in_transfer (behind_opening (verdict_in verdict) reply.now.code (joined reply.now.lines)) (view_of F.flow dialogue.old)) }
    ensures err { OnErr result (shorted (view_of F.flow dialogue.new) ≡ shorted (view_of F.flow dialogue.old)) }
    ensures sound { OnErr result (IsTrue (is_sound (view_of F.flow dialogue.new).standing)) }
{
    let Task::Transferring(_) = dialogue.place() else {
        return Ok(());
    };
    match verdict {
        Verdict::Preliminary => {
            note(dialogue, reply);
            Ok(())
        }
        Verdict::Completion => dialogue.with_reply(Replied::Final(reply.code)),
        Verdict::Negative => {
            dialogue.close_unless_open();
            dialogue.with_reply(Replied::Final(reply.code))
        }
        Verdict::Intermediate | Verdict::Closing | Verdict::Displaced => {
            dialogue.strange();
            Ok(())
        }
    }
}

/// A 110 during a transfer is noted, and any other 1yz is passed over.
#[tactic(auto, using(crate::proofs::ReplyLemmas::noted_is))]
fn note<A: Allocator + Copy, F: ClientTransfer<A>>(dialogue: &mut Dialogue<A, F>, reply: &Reply<A>)
    ensures { view_of F.flow dialogue.new ≡ in_transfer (noted reply.now.code (joined reply.now.lines)) (view_of F.flow dialogue.old) }
{
    if reply.code == MARK {
        dialogue.note(mark_of(reply).ok());
    }
}
