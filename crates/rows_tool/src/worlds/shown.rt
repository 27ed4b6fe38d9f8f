// Reports and marks as a row writes them.
use ftp_operation::Answer;
use ftp_pair::Mark;
use rows_base::{Paper, Tally};
use std::alloc::{Allocator, Global};
use tool_script::report_of;

/// More octets than are written one by one.
const MANY: usize = 200;

/// The reports from that one on.
pub fn put_reports<A: Allocator + Copy>(
    alloc: Global,
    reports: &[Answer<A>],
    from: usize,
    paper: &mut Paper,
) {
    for place in from..reports.len() {
        put_report(alloc, &reports[place], paper);
    }
}

fn put_report<A: Allocator + Copy>(alloc: Global, answer: &Answer<A>, paper: &mut Paper) {
    paper.put(b"= ");
    match answer {
        Answer::Octets(octets) => put_octets(alloc, answer, octets.as_slice(), paper),
        _ => put_text(alloc, answer, paper),
    }
}

/// Octets, or how many they are.
fn put_octets<A: Allocator + Copy>(
    alloc: Global,
    answer: &Answer<A>,
    octets: &[u8],
    paper: &mut Paper,
) {
    if octets.len() <= MANY {
        put_text(alloc, answer, paper);
        return;
    }
    let mut tally = Tally::new();
    tally.take(octets);
    tally.show(paper);
    paper.line(b"");
}

fn put_text<A: Allocator + Copy>(alloc: Global, answer: &Answer<A>, paper: &mut Paper) {
    match report_of(alloc, answer) {
        Ok(text) => paper.put(text.as_slice()),
        Err(_) => paper.fill(),
    }
}

/// The marks of an order.
pub fn put_marks(marks: &[Mark], paper: &mut Paper) {
    for mark in marks {
        put_mark(*mark, paper);
    }
}

fn put_mark(mark: Mark, paper: &mut Paper) {
    match mark {
        Mark::Refused => paper.line(b"~ refused"),
        Mark::Broken(came) => {
            paper.put(b"~ broken at ");
            paper.number(came);
            paper.line(b"");
        }
    }
}
