// Replies as they come, and who is answered by each (RFC 959, sections 4.2 and 5.4).
ghost use Rattle.std.specs.Prelude.{◌≡◌, IsTrue, OnErr, OnOk, false};
ghost use Rattle.ftp_client_model.specs.Calls.{hears_octet, is_sound};
ghost use Rattle.ftp_client_model.specs.Dialogue.{answered, job_answered, stand_answered};
ghost use Rattle.ftp_client_model.specs.Telling.{line_with};
ghost use Rattle.ftp_client_session.specs.Client.{shorted, view_of};
ghost use Rattle.ftp_client_steps.specs.Verdict.{verdict_in};

mod login;
mod steps;
mod transfer;

use crate::dialogue::Dialogue;
use crate::task::Task;
use ftp_client_model::client::{Failure, Standing};
use ftp_client_steps::{ClientTransfer, LastLine, Verdict, verdict_of};
use ftp_reply::Reply;
use login::{greeted, pass_answered, user_answered};
use std::alloc::{AllocError, Allocator};
use steps::step_answered;
use transfer::transfer_answered;

/// Takes an octet of the control connection; a client that has failed hears none. Refused memory, the client is short of it, as it was before the
/// octet. The line that it ends is kept in `last` either way.
pub fn hear_octet<A: Allocator + Copy, F: ClientTransfer<A>>(
    dialogue: &mut Dialogue<A, F>,
    octet: u8,
    last: &mut LastLine,
) -> Result<(), AllocError>
    // Witness of ok, err: equations; `edits/another_host_is_contacted`.
    ensures ok { IsTrue (is_sound (view_of F.flow dialogue.old).standing) → OnOk result (view_of F.flow dialogue.new ≡ hears_octet (view_of F.flow dialogue.old) octet) }
    // Witness of failed: an equation: a client that has failed hears nothing.
    ensures failed { is_sound (view_of F.flow dialogue.old).standing ≡ false → view_of F.flow dialogue.new ≡ view_of F.flow dialogue.old }
    ensures err { OnErr result (shorted (view_of F.flow dialogue.new) ≡ shorted (view_of F.flow dialogue.old)) }
    // Witness of sound: `took` of `Client::hear`.
    ensures sound { OnErr result (IsTrue (is_sound (view_of F.flow dialogue.new).standing)) }
    // Witness of told: an equation, of the line that was said last.
    ensures told { IsTrue (is_sound (view_of F.flow dialogue.old).standing) → last.new ≡ line_with (view_of F.flow dialogue.old).ear octet last.old }
{
    if let Standing::Failed(_) = dialogue.standing() {
        return Ok(());
    }
    match dialogue.hear(octet, last) {
        Ok(None) => Ok(()),
        Ok(Some(reply)) => answered(dialogue, &reply),
        Err(error) => Err(error),
    }
}

/// A reply came.
#[tactic(auto, unfolding(ftp_client_model::specs::Dialogue::answered))]
fn answered<A: Allocator + Copy, F: ClientTransfer<A>>(
    dialogue: &mut Dialogue<A, F>,
    reply: &Reply<A>,
) -> Result<(), AllocError>
    requires { IsTrue (is_sound (view_of F.flow dialogue.old).standing) }
    ensures ok { OnOk result (view_of F.flow dialogue.new ≡ answered reply.now.code reply.now.lines (view_of F.flow dialogue.old)) }
    ensures err { OnErr result (shorted (view_of F.flow dialogue.new) ≡ shorted (view_of F.flow dialogue.old)) }
    ensures sound { OnErr result (IsTrue (is_sound (view_of F.flow dialogue.new).standing)) }
{
    let verdict = verdict_of(reply.code);
    match verdict {
        Verdict::Closing => {
            dialogue.fail(Failure::Lost);
            Ok(())
        }
        Verdict::Displaced => {
            dialogue.strange();
            Ok(())
        }
        _ => stand_answered(dialogue, verdict, reply),
    }
}

/// Who is answered: the greeting, USER, PASS, or the operation under way.
fn stand_answered<A: Allocator + Copy, F: ClientTransfer<A>>(
    dialogue: &mut Dialogue<A, F>,
    verdict: Verdict,
    reply: &Reply<A>,
) -> Result<(), AllocError>
    requires { IsTrue (is_sound (view_of F.flow dialogue.old).standing) }
    ensures ok { OnOk result (view_of F.flow dialogue.new
        ≡ stand_answered (view_of F.flow dialogue.old).standing (verdict_in verdict) reply.now.code reply.now.lines (view_of F.flow dialogue.old)) }
    ensures err { OnErr result (shorted (view_of F.flow dialogue.new) ≡ shorted (view_of F.flow dialogue.old)) }
    ensures sound { OnErr result (IsTrue (is_sound (view_of F.flow dialogue.new).standing)) }
{
    match dialogue.standing() {
        Standing::Greeting => greeted(dialogue, verdict, reply.code),
        Standing::User => user_answered(dialogue, verdict),
        Standing::Pass => pass_answered(dialogue, verdict),
        Standing::Entered => job_answered(dialogue, verdict, reply),
        Standing::Failed(_) => Ok(()),
    }
}

/// A reply that comes while an operation is under way, or that nobody waits for.
fn job_answered<A: Allocator + Copy, F: ClientTransfer<A>>(
    dialogue: &mut Dialogue<A, F>,
    verdict: Verdict,
    reply: &Reply<A>,
) -> Result<(), AllocError>
    ensures ok { OnOk result (view_of F.flow dialogue.new
        ≡ job_answered (view_of F.flow dialogue.old).job (verdict_in verdict) reply.now.code reply.now.lines (view_of F.flow dialogue.old)) }
    ensures err { OnErr result (shorted (view_of F.flow dialogue.new) ≡ shorted (view_of F.flow dialogue.old)) }
    ensures sound { OnErr result (IsTrue (is_sound (view_of F.flow dialogue.new).standing)) }
{
    match dialogue.place() {
        Task::Doing(step) => {
            let step = *step;
            step_answered(dialogue, step, verdict, reply)
        }
        Task::Transferring(_) => transfer_answered(dialogue, verdict, reply),
        Task::Idle | Task::Waiting | Task::Told(_) => {
            dialogue.strange();
            Ok(())
        }
    }
}
