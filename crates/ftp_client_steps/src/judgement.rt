// The answer of a transfer, from its final reply and its link's end (RFC 959, section 5.4).
ghost use Rattle.std.specs.Prelude.{◌≡◌, IfOk, IsTrue, OnErr, option_map};
ghost use Rattle.ftp_operation.specs.Answer.{said_of};
ghost use Rattle.ftp_client_model.specs.Calls.{is_down};
ghost use Rattle.ftp_client_model.specs.Dialogue.{broken_off_answer, ended_answer, judged, refused_answer};

use crate::transfer::ClientTransfer;
use crate::verdict::is_refusal;
use ftp_client_model::client::{Abort, Ending};
use ftp_facts::Text;
use ftp_operation::{Answer, Op};
use ftp_reply::code::{BROKEN, NO_CONNECTION};
use std::alloc::{AllocError, Allocator};

/// The answer of a transfer whose final reply has this code: another host first, then a Peek that sent its ABOR, whatever the final
/// reply says, then a refusal, whatever became of the link. Only the answer of a download takes memory.
pub fn judged<A: Allocator + Copy, F: ClientTransfer<A>>(
    ending: Ending,
    abort: Abort,
    code: u16,
    op: &Op<Text<A>>,
    flow: F,
    alloc: &A,
) -> Result<Option<Answer<A>>, AllocError>
    // Witness of answer: an equation, of what is answered where memory was not refused; `edits/every_transfer_is_answered_broken`.
    ensures answer { IfOk result (λ answer. option_map said_of answer ≡ judged ending abort code op.now (F.flow op.now flow)) }
    // Witness of down: only the answer of a download takes memory: `carry_on` of `ftp_client_session` needs it.
    ensures down { OnErr result (IsTrue (is_down (F.flow op.now flow))) }
{
    if let Ending::Foreign = ending {
        return Ok(Some(Answer::Foreign));
    }
    if let Abort::Answered = abort {
        return flow.content(op, alloc);
    }
    if is_refusal(code) {
        return refused_answer(ending, code, op, flow, alloc);
    }
    ended_answer(ending, op, flow, alloc)
}

/// After a refusal: 425 tells that no link was opened, and nothing done; 426 that it broke.
fn refused_answer<A: Allocator + Copy, F: ClientTransfer<A>>(
    ending: Ending,
    code: u16,
    op: &Op<Text<A>>,
    flow: F,
    alloc: &A,
) -> Result<Option<Answer<A>>, AllocError>
    ensures answer { IfOk result (λ answer. option_map said_of answer ≡ refused_answer ending code op.now (F.flow op.now flow)) }
    ensures down { OnErr result (IsTrue (is_down (F.flow op.now flow))) }
{
    if code == NO_CONNECTION {
        return Ok(Some(Answer::Unopened));
    }
    if code == BROKEN {
        return broken_off_answer(ending, op, flow, alloc);
    }
    Ok(Some(Answer::Refused(code)))
}

/// After 426. A Peek goes by its link's end (own choice).
fn broken_off_answer<A: Allocator + Copy, F: ClientTransfer<A>>(
    ending: Ending,
    op: &Op<Text<A>>,
    flow: F,
    alloc: &A,
) -> Result<Option<Answer<A>>, AllocError>
    ensures answer { IfOk result (λ answer. option_map said_of answer ≡ broken_off_answer ending op.now (F.flow op.now flow)) }
    ensures down { OnErr result (IsTrue (is_down (F.flow op.now flow))) }
{
    match ending {
        Ending::Clean => match op {
            Op::Peek(_, _, _) => flow.whole(op, alloc),
            _ => flow.cut(op, alloc),
        },
        _ => flow.cut(op, alloc),
    }
}

/// After a 2yz, by the link's end.
fn ended_answer<A: Allocator + Copy, F: ClientTransfer<A>>(
    ending: Ending,
    op: &Op<Text<A>>,
    flow: F,
    alloc: &A,
) -> Result<Option<Answer<A>>, AllocError>
    ensures answer { IfOk result (λ answer. option_map said_of answer ≡ ended_answer ending op.now (F.flow op.now flow)) }
    ensures down { OnErr result (IsTrue (is_down (F.flow op.now flow))) }
{
    match ending {
        Ending::Clean | Ending::Ours => flow.whole(op, alloc),
        Ending::Broken => flow.cut(op, alloc),
        Ending::Foreign => Ok(Some(Answer::Foreign)),
    }
}
