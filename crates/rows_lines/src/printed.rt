//! Faults as they are printed.
use crate::report::put_printed;
use ftp_facts::FactFault;
use ftp_reply::ReplyFault;
use ftp_repr::ReprFault;
use rows_base::Paper;
use std::alloc::Global;
use std::fmt::Display;

/// Whether a value is printed so.
fn is_printed<T: Display>(alloc: Global, value: &T, text: &str) -> bool {
    let mut paper = Paper::new(alloc);
    put_printed(alloc, value, &mut paper);
    paper.text() == text.as_bytes()
}

const FAULTS: &[(FactFault, &str)] = &[
    (FactFault::NoSpace, "F1 NoSpace"),
    (FactFault::BadFact, "F2 BadFact"),
    (FactFault::BadMoment, "F3 BadMoment"),
    (FactFault::Memory, "F4 Memory"),
    (FactFault::BadName, "F5 BadName"),
];

fn are_printed(alloc: Global) -> bool {
    let mut all = true;
    for (fault, text) in FAULTS {
        all &= is_printed(alloc, fault, text) & (fault.text() == *text);
    }
    all
}

/// Tries the faults of facts, and those of replies and of representations that no row prints.
pub(crate) fn tried(alloc: Global, report: &mut Paper) {
    let all = are_printed(alloc)
        & is_printed(alloc, &ReplyFault::Memory, "Q6 Memory")
        & is_printed(alloc, &ReprFault::Memory, "P1 Memory");
    report.holds("faults as they are printed", all);
}
