// What a retry asks, and what the answers say of the try before: the same of uploads and downloads.
ghost use Rattle.std.specs.Prelude.{◌≡◌, IfOk, Some};
ghost use Rattle.ftp_operation.specs.declared.answer.Answer.{Answer};
ghost use Rattle.tool_resume.specs.declared.step.FrontOwner.{FrontOwner};
ghost use Rattle.tool_resume.specs.Questions.{moment_question, size_question};
ghost use Rattle.tool_resume.specs.Retry.{ended_by, is_counted, owner_by, there_by};

use crate::step::{Ended, FrontOwner, There};
use ftp_facts::Text;
use ftp_operation::{Answer, How, Op};
use ftp_reply::code::{GIVEN_UP, UNAVAILABLE};
use ftp_settings::{Kind, Structure};
use std::alloc::{AllocError, Global};
use tool_session::Request;

/// Whether SIZE counts the octets of the transfer: in type I and file structure (RFC 3659, section 4).
pub fn is_counted(how: How) -> bool
    // Witness: an equation; `edits/octets_of_records_are_counted`.
    ensures { result ≡ is_counted how }
{
    match (how.representation.kind, how.representation.structure) {
        (Kind::Image, Structure::File) => true,
        _ => false,
    }
}

/// A question for the size of a file at a path, in octets of a transfer that goes so (RFC 3659, section 4). Fails where memory is refused.
pub(crate) fn size_request(alloc: Global, path: &str, how: How) -> Result<Request, AllocError>
    ensures { IfOk result (λ request. request ≡ size_question path.now how) }
{
    let path = Text::copy_of(alloc, path.as_bytes())?;
    Ok(Request::One(Some(Op::Size(path, how))))
}

/// A question for the moment of a file's last change (RFC 3659, section 3). Fails where memory is refused.
pub(crate) fn moment_request(alloc: Global, path: &str) -> Result<Request, AllocError>
    ensures { IfOk result (λ request. request ≡ moment_question path.now) }
{
    let path = Text::copy_of(alloc, path.as_bytes())?;
    Ok(Request::One(Some(Op::Modified(path))))
}

/// How a try ended that was answered so, with a data connection or without, which ended, or did not although all is done; none where its answer is
/// told, whatever is there.
pub(crate) fn ended_of(answer: &Answer<Global>, is_opened: bool, is_unended: bool) -> Option<Ended>
    // Witness: an equation; `edits/a_refusal_before_a_data_connection_is_given_up_in_its_middle`.
    ensures { result ≡ ended_by answer.now is_opened is_unended }
{
    match answer {
        Answer::Done => Some(Ended::Done),
        Answer::Broken { got: _, mark: _ } if is_unended => Some(Ended::Unended),
        Answer::Broken { got: _, mark: _ } => Some(Ended::Broken),
        Answer::Refused(GIVEN_UP) if is_opened => Some(Ended::Failed),
        Answer::Unopened => Some(Ended::Unopened),
        _ => None,
    }
}

/// What the answer to SIZE tells: 550 says that no file is there (RFC 3659, section 4).
pub(crate) fn there_of(answer: &Answer<Global>) -> There
    // Witness: an equation; `edits/a_size_that_is_not_told_is_of_no_file`.
    ensures { result ≡ there_by answer.now }
{
    match answer {
        Answer::Number(count) => There::Octets(*count),
        Answer::Refused(UNAVAILABLE) => There::Nothing,
        Answer::Lost | Answer::Strange => There::Lost,
        _ => There::Untold,
    }
}

/// What was read back of the end of a front, beside the source's own octets at that place.
pub(crate) fn front_of(answer: &Answer<Global>, own: &[u8]) -> FrontOwner
    // Witness of owner: an equation; `edits/a_front_of_the_same_length_counts_as_own`.
    ensures owner { result ≡ owner_by answer.now own.now }
    ensures own { result ≡ FrontOwner.Own → answer.now ≡ Answer.Octets own.now }
{
    match answer {
        Answer::Octets(octets) => {
            if octets.as_slice() == own {
                FrontOwner::Own
            } else {
                FrontOwner::Other
            }
        }
        Answer::Lost | Answer::Strange => FrontOwner::Lost,
        _ => FrontOwner::Other,
    }
}
