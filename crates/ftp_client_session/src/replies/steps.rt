// The replies to the steps of an operation (RFC 959, section 5.4).
ghost use Rattle.std.specs.Prelude.{◌≡◌, IsTrue, OnErr, OnOk, Some};
ghost use Rattle.ftp_client_model.specs.Calls.{is_sound};
ghost use Rattle.ftp_client_model.specs.Plan.{is_extended};
ghost use Rattle.ftp_client_model.specs.Dialogue.{awaits_reply, endpoint_named, intermediate, passive_named, refused, step_answered, step_done};
ghost use Rattle.ftp_client_session.specs.Client.{shorted, view_of};
ghost use Rattle.ftp_client_steps.specs.Verdict.{verdict_in};
ghost use Rattle.ftp_reply.specs.Lines.{joined};

use crate::dialogue::Dialogue;
use ftp_client_model::client::Step;
use ftp_client_steps::{ClientTransfer, Verdict};
use ftp_endpoint::Endpoint;
use ftp_ends::is_same_host;
use ftp_operation::Answer;
use ftp_reply::{Reply, extended_of, passive_of};
use std::alloc::{AllocError, Allocator};

/// A reply to the command of a step, by its first digit.
pub(crate) fn step_answered<A: Allocator + Copy, F: ClientTransfer<A>>(
    dialogue: &mut Dialogue<A, F>,
    step: Step,
    verdict: Verdict,
    reply: &Reply<A>,
) -> Result<(), AllocError>
    requires { IsTrue (is_sound (view_of F.flow dialogue.old).standing) }
    ensures ok { OnOk result (view_of F.flow dialogue.new
        ≡ step_answered dialogue.old.op step (verdict_in verdict) reply.now.code reply.now.lines (view_of F.flow dialogue.old)) }
    ensures err { OnErr result (shorted (view_of F.flow dialogue.new) ≡ shorted (view_of F.flow dialogue.old)) }
    ensures sound { OnErr result (IsTrue (is_sound (view_of F.flow dialogue.new).standing)) }
{
    match verdict {
        Verdict::Completion => step_done(dialogue, step, reply),
        Verdict::Intermediate => intermediate(dialogue, step),
        Verdict::Negative => refused(dialogue, step, reply.code),
        Verdict::Preliminary | Verdict::Closing | Verdict::Displaced => {
            dialogue.strange();
            Ok(())
        }
    }
}

/// A 2yz at a step.
fn step_done<A: Allocator + Copy, F: ClientTransfer<A>>(
    dialogue: &mut Dialogue<A, F>,
    step: Step,
    reply: &Reply<A>,
) -> Result<(), AllocError>
    requires { IsTrue (is_sound (view_of F.flow dialogue.old).standing) }
    ensures ok { OnOk result (view_of F.flow dialogue.new ≡ step_done dialogue.old.op step reply.now.lines (view_of F.flow dialogue.old)) }
    ensures err { OnErr result (shorted (view_of F.flow dialogue.new) ≡ shorted (view_of F.flow dialogue.old)) }
    ensures sound { OnErr result (IsTrue (is_sound (view_of F.flow dialogue.new).standing)) }
{
    match step {
        Step::Kind => dialogue.set_accepted(Step::Kind),
        Step::Structure => dialogue.set_accepted(Step::Structure),
        Step::Mode => dialogue.set_accepted(Step::Mode),
        Step::Port => dialogue.go_on(Step::Port),
        Step::Passive => passive_named(dialogue, reply),
        Step::Last => dialogue.read_answer(reply),
        Step::Listen | Step::Connect | Step::Restart | Step::Source => {
            dialogue.strange();
            Ok(())
        }
    }
}

/// REST and RNFR are answered that a command follows.
fn intermediate<A: Allocator + Copy, F: ClientTransfer<A>>(
    dialogue: &mut Dialogue<A, F>,
    step: Step,
) -> Result<(), AllocError>
    requires { IsTrue (is_sound (view_of F.flow dialogue.old).standing) }
    ensures ok { OnOk result (view_of F.flow dialogue.new ≡ intermediate dialogue.old.op step (view_of F.flow dialogue.old)) }
    ensures err { OnErr result (shorted (view_of F.flow dialogue.new) ≡ shorted (view_of F.flow dialogue.old)) }
    ensures sound { OnErr result (IsTrue (is_sound (view_of F.flow dialogue.new).standing)) }
{
    match step {
        Step::Restart => dialogue.go_on(Step::Restart),
        Step::Source => dialogue.go_on(Step::Source),
        _ => {
            dialogue.strange();
            Ok(())
        }
    }
}

/// A refusal at a step.
fn refused<A: Allocator + Copy, F: ClientTransfer<A>>(
    dialogue: &mut Dialogue<A, F>,
    step: Step,
    code: u16,
) -> Result<(), AllocError>
    ensures ok { OnOk result (view_of F.flow dialogue.new ≡ refused step code (view_of F.flow dialogue.old)) }
    ensures err { OnErr result (shorted (view_of F.flow dialogue.new) ≡ shorted (view_of F.flow dialogue.old)) }
    ensures sound { OnErr result (IsTrue (is_sound (view_of F.flow dialogue.new).standing)) }
{
    if awaits_reply(step) {
        return dialogue.finish(Answer::Refused(code));
    }
    dialogue.strange();
    Ok(())
}

/// What EPSV or PASV was answered with, by which of them was sent.
fn passive_named<A: Allocator + Copy, F: ClientTransfer<A>>(
    dialogue: &mut Dialogue<A, F>,
    reply: &Reply<A>,
) -> Result<(), AllocError>
    requires { IsTrue (is_sound (view_of F.flow dialogue.old).standing) }
    ensures ok { OnOk result (view_of F.flow dialogue.new
        ≡ passive_named (is_extended (view_of F.flow dialogue.old) dialogue.old.op) dialogue.old.op (joined reply.now.lines) (view_of F.flow dialogue.old)) }
    ensures err { OnErr result (shorted (view_of F.flow dialogue.new) ≡ shorted (view_of F.flow dialogue.old)) }
    ensures sound { OnErr result (IsTrue (is_sound (view_of F.flow dialogue.new).standing)) }
{
    if dialogue.is_extended() {
        match extended_of(reply) {
            Ok(port) => {
                let host = dialogue.peer();
                dialogue.dial(Endpoint { host, port });
            }
            Err(_) => dialogue.strange(),
        }
        return Ok(());
    }
    match passive_of(reply) {
        Ok(endpoint) => endpoint_named(dialogue, endpoint),
        Err(_) => {
            dialogue.strange();
            Ok(())
        }
    }
}

/// The endpoint of a 227 has to be on the server's host: no other is contacted (own choice).
fn endpoint_named<A: Allocator + Copy, F: ClientTransfer<A>>(
    dialogue: &mut Dialogue<A, F>,
    endpoint: Endpoint,
) -> Result<(), AllocError>
    requires { IsTrue (is_sound (view_of F.flow dialogue.old).standing) }
    ensures ok { OnOk result (view_of F.flow dialogue.new ≡ endpoint_named (Some endpoint) dialogue.old.op (view_of F.flow dialogue.old)) }
    ensures err { OnErr result (shorted (view_of F.flow dialogue.new) ≡ shorted (view_of F.flow dialogue.old)) }
    ensures sound { OnErr result (IsTrue (is_sound (view_of F.flow dialogue.new).standing)) }
{
    if is_same_host(endpoint.host, dialogue.peer()) {
        dialogue.dial(endpoint);
        return Ok(());
    }
    dialogue.finish(Answer::Foreign)
}

/// Whether a reply is waited for at a step: not while a port or a link is awaited.
fn awaits_reply(step: Step) -> bool
    ensures { result ≡ awaits_reply step }
{
    !matches!(step, Step::Listen | Step::Connect)
}
