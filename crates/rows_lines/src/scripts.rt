//! Whole scripts: how many orders they have, or which line is refused; a report; each growth refused in turn.
use ftp_facts::Text;
use ftp_operation::Answer;
use rows_base::Paper;
use std::alloc::{AllocError, Allocator, Global};
use tool_script::{ScriptFault, report_of, script_of};

/// How many orders a script has.
fn count_of<A: Allocator + Copy>(alloc: A, script: &[u8]) -> Result<usize, ScriptFault> {
    match script_of(alloc, script) {
        Ok(script) => Ok(script.orders.len()),
        Err(fault) => Err(fault),
    }
}

/// Puts how many orders a script has, or the first line that fits no form.
pub(crate) fn put<A: Allocator + Copy>(heap: A, script: &[u8], paper: &mut Paper) {
    match count_of(heap, script) {
        Ok(orders) => {
            paper.number(orders as u64);
            paper.put(b" orders");
        }
        Err(ScriptFault::Line(line)) => {
            paper.put(b"line ");
            paper.number(line as u64);
        }
        Err(ScriptFault::Memory) => paper.put(b"Memory"),
    }
}

/// Whether an answer is reported so. It is let go here, since that is dear to prove.
fn is_reported(alloc: Global, answer: Answer<Global>, text: &[u8]) -> bool {
    let is_so = match report_of(alloc, &answer) {
        Ok(report) => report.as_slice() == text,
        Err(AllocError) => false,
    };
    drop(answer);
    is_so
}

/// Whether a break behind a mark is reported with it.
fn mark_is_reported(alloc: Global) -> bool {
    let mark = Some(7);
    match Text::copy_of(alloc, b"0123") {
        Ok(got) => is_reported(alloc, Answer::Broken { got, mark }, b"broken 0123 mark 7\n"),
        Err(AllocError) => false,
    }
}

/// Tries the one report that no script has.
pub(crate) fn tried(alloc: Global, report: &mut Paper) {
    report.holds("a mark is reported", mark_is_reported(alloc));
}
