// Whether something stands at a server, and what is asked of it beside listings and files.
ghost use Rattle.std.specs.Prelude.{◌≡◌, IfErr, is_ok};
ghost use Rattle.tool_mirror.specs.Answering.{entry_stands_by, file_stands_by, is_done, says_unknown};
ghost use Rattle.tool_mirror.specs.Fault.{fault_by};

use crate::facts::size_request;
use crate::fault::MirrorFault;
use crate::request::MirrorRequest;
use ftp_facts::Text;
use ftp_operation::{Answer, Op};
use ftp_reply::code::{NOT_IMPLEMENTED, UNAVAILABLE, UNKNOWN};
use std::alloc::Global;
use tool_session::{ClientSession, Request};

/// Asks a server to do something that has no other answer than that it is done.
pub(crate) fn done_by<S: ClientSession>(
    slot: &mut S,
    op: Op<Text<Global>>,
) -> Result<(), MirrorFault> {
    done(&slot.answer(Request::One(Some(op))))
}

/// Fails where an answer says something else than that it is done.
fn done(answer: &Answer<Global>) -> Result<(), MirrorFault>
    // Witness: equations; `edits/a_refused_change_is_done`.
    ensures done { is_ok result ≡ is_done answer.now }
    ensures fault { IfErr result (λ fault. fault ≡ fault_by answer.now) }
{
    match answer {
        Answer::Done | Answer::Path(_) => Ok(()),
        answer => Err(MirrorFault::of(answer)),
    }
}

/// Whether a server has something at a path, as it says of that alone: by MLST, and of what is no directory by SIZE where it knows no MLST (RFC 3659,
/// sections 4 and 7).
pub(crate) fn stands_there<S: ClientSession>(
    alloc: Global,
    slot: &mut S,
    mirror: &MirrorRequest<'_>,
    below: &str,
    is_dir: bool,
) -> Result<bool, MirrorFault> {
    let answer = slot.answer(Request::One(Some(Op::Facts(mirror.path(alloc, below)?))));
    if is_dir || !says_unknown(&answer) {
        return entry_stands(&answer);
    }
    drop(answer);
    file_stands(&slot.answer(size_request(alloc, mirror, below)?))
}

/// Whether something stands at a path, by the answer to MLST.
fn entry_stands(answer: &Answer<Global>) -> Result<bool, MirrorFault>
    // Witness: an equation; `edits/an_entry_does_not_stand`.
    ensures { result ≡ entry_stands_by answer.now }
{
    match answer {
        Answer::Entry(_) => Ok(true),
        Answer::Refused(UNAVAILABLE) => Ok(false),
        answer => Err(MirrorFault::of(answer)),
    }
}

/// Whether a file stands at a path, by the answer to SIZE.
fn file_stands(answer: &Answer<Global>) -> Result<bool, MirrorFault>
    // Witness: an equation; `edits/a_file_with_a_size_does_not_stand`.
    ensures { result ≡ file_stands_by answer.now }
{
    match answer {
        Answer::Number(_) => Ok(true),
        Answer::Refused(UNAVAILABLE) => Ok(false),
        answer => Err(MirrorFault::of(answer)),
    }
}

/// Whether a server does not know what was asked (RFC 959, section 4.2.2).
fn says_unknown(answer: &Answer<Global>) -> bool
    // Witness: an equation; `edits/what_is_not_implemented_is_known`.
    ensures { result ≡ says_unknown answer.now }
{
    match answer {
        Answer::Refused(code) => *code == UNKNOWN || *code == NOT_IMPLEMENTED,
        _ => false,
    }
}

/// Fails where the directory of a server does not stand: it is gone into (CWD, RFC 959, section 4.1.1), and left for where the client was before.
pub(crate) fn check_dir<S: ClientSession>(
    alloc: Global,
    slot: &mut S,
    mirror: &MirrorRequest<'_>,
) -> Result<(), MirrorFault> {
    let here = match &slot.answer(Request::One(Some(Op::Where))) {
        Answer::Path(here) => Text::copy_of(alloc, here.as_slice())?,
        Answer::Lost => return Err(MirrorFault::Lost),
        _ => return Ok(()),
    };
    done_by(slot, Op::ChangeDir(mirror.path(alloc, "")?))?;
    done_by(slot, Op::ChangeDir(here))
}
