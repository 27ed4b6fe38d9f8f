//! Years day by day, as Python's `datetime` counts them.
use ftp_facts::{FactFault, moment_of_text, moment_text};
use rows_base::{Paper, number, split};
use std::alloc::Global;

/// The days of the months of a common year.
const MONTHS: &[u64] = &[31, 28, 31, 30, 31, 30, 31, 31, 30, 31, 30, 31];

/// The text of that day at 12:34:56.
fn text_of(alloc: Global, year: u64, month: u64, day: u64) -> Paper {
    let date = year.wrapping_mul(100).wrapping_add(month);
    let date = date.wrapping_mul(100).wrapping_add(day);
    let mut text = Paper::new(alloc);
    text.number(date.wrapping_mul(1_000_000).wrapping_add(123_456));
    text
}

/// Whether that text is the moment of that day number at 12:34:56, both ways.
fn is_moment(text: &[u8], number: u64) -> bool {
    match moment_of_text(text) {
        Ok(moment) => {
            moment.seconds == number.wrapping_mul(86_400).wrapping_add(45_296)
                && moment_text(moment).as_slice() == text
        }
        Err(_) => false,
    }
}

/// Whether the days of that month are those from the day number on, and the day after its last is none.
fn is_month(alloc: Global, year: u64, month: u64, last: u64, first: u64) -> bool {
    let mut number = first;
    for day in 1..=last {
        if !is_moment(text_of(alloc, year, month, day).text(), number) {
            return false;
        }
        number = number.wrapping_add(1);
    }
    let behind = text_of(alloc, year, month, last.wrapping_add(1));
    moment_of_text(behind.text()) == Err(FactFault::BadMoment)
}

/// Whether the days of that year are those from the one day number to the other.
fn is_year(alloc: Global, year: u64, start: u64, next: u64) -> bool {
    let leap = next.wrapping_sub(start) == 366;
    let mut number = start;
    let mut month = 0u64;
    for length in MONTHS {
        month = month.wrapping_add(1);
        let last = if leap && month == 2 { 29 } else { *length };
        if !is_month(alloc, year, month, last, number) {
            return false;
        }
        number = number.wrapping_add(last);
    }
    number == next
}

/// Whether the days of the years from that one on are those of these day numbers of 1 January, up to the last.
fn are_years(alloc: Global, first: u64, starts: &[u8]) -> bool {
    let mut all = true;
    let mut year = first;
    let (mut start, mut rest) = split(starts);
    for _ in 0..starts.len() {
        if rest.is_empty() {
            break;
        }
        let (next, behind) = split(rest);
        all &= is_year(alloc, year, number(start), number(next));
        year = year.wrapping_add(1);
        start = next;
        rest = behind;
    }
    all
}

/// Writes whether the years from the row's first number on begin with the days of the others, but the last, which ends them.
pub(crate) fn show_years(alloc: Global, row: &[u8], paper: &mut Paper) {
    let (first, starts) = split(row);
    paper.put(if are_years(alloc, number(first), starts) {
        b"so it is".as_slice()
    } else {
        b"WRONG"
    });
}
