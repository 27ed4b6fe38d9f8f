// The reports of orders.
ghost use Rattle.std.specs.Prelude.{◌≡◌, ◌++◌, flat_map, OnOk, IfOk};
ghost use Rattle.std.specs.Io.KnownBytes.{Appends};
ghost use Rattle.tool_script.specs.Report.{report};
ghost use Rattle.tool_script.specs.Status.{status_of, worst_of};

use crate::report::report_of;
use ftp_operation::Answer;
use std::alloc::Allocator;
use std::io;
use std::io::Write;
use tool_terminal::Status;

/// Writes the reports of answers, in order; gives the worst of their statuses.
pub fn write_reports<A: Allocator + Copy, B: Allocator + Copy, W: Write>(
    alloc: B,
    answers: &[Answer<A>],
    writer: &mut W,
) -> io::Result<Status>
    // Witness of wrote: equations.
    ensures wrote { OnOk result (Appends (W.contents writer.old) (W.contents writer.new) (flat_map report answers.now)) }
    ensures status { IfOk result (λ status. status ≡ worst_of answers.now) }
{
    let mut worst = Status::Done;
    for answer in answers {
        worst = worst.worse(write_report(alloc, answer, writer)?);
    }
    Ok(worst)
}

/// Writes the report of an answer; gives its status.
pub fn write_report<A: Allocator + Copy, B: Allocator + Copy, W: Write>(
    alloc: B,
    answer: &Answer<A>,
    writer: &mut W,
) -> io::Result<Status>
    // Witness of wrote: equations.
    ensures wrote { OnOk result (Appends (W.contents writer.old) (W.contents writer.new) (report answer.now)) }
    ensures status { IfOk result (λ status. status ≡ status_of answer.now) }
{
    let text = report_of(alloc, answer)?;
    writer.write_all(text.as_slice())?;
    Ok(status_of(answer))
}

/// The status of an answer: refused where it is no answer to what was asked.
pub fn status_of<A: Allocator + Copy>(answer: &Answer<A>) -> Status
    ensures { result ≡ status_of answer.now }
{
    match answer {
        Answer::Done
        | Answer::Path(_)
        | Answer::Octets(_)
        | Answer::Number(_)
        | Answer::Stamp(_)
        | Answer::Entry(_)
        | Answer::Entries(_)
        | Answer::Names(_) => Status::Done,
        Answer::Refused(_)
        | Answer::BadOperation
        | Answer::Broken { got: _, mark: _ }
        | Answer::Unopened
        | Answer::Foreign
        | Answer::Lost
        | Answer::Strange
        | Answer::Memory => Status::Refused,
    }
}
