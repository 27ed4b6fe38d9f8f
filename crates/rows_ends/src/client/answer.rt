// What a client reports.
use ftp_facts::{Entry, moment_text, write_entry};
use ftp_operation::Answer;
use rows_base::Paper;
use std::alloc::{Allocator, Global};

/// A report, on a line behind `= `.
pub fn show_answer<A: Allocator + Copy>(alloc: Global, answer: &Answer<A>, paper: &mut Paper) {
    paper.put(b"= ");
    paper.put(name_of(answer));
    show_value(alloc, answer, paper);
    paper.put(b"\n");
}

/// What a client tells beside its reports: the line that the server said last, and what came of a download amid which the control connection ended.
pub fn show_told(line: &[u8], came: &[u8], paper: &mut Paper) {
    paper.put(b"said ");
    paper.quote(line);
    paper.put(b", came ");
    paper.quote(came);
    paper.put(b"\n");
}

fn name_of<A: Allocator + Copy>(answer: &Answer<A>) -> &'static [u8] {
    match answer {
        Answer::Done => b"done",
        Answer::Path(_) => b"path ",
        Answer::Octets(_) => b"octets ",
        Answer::Number(_) => b"number ",
        Answer::Stamp(_) => b"moment ",
        Answer::Entry(_) => b"entry ",
        Answer::Entries(_) => b"entries",
        Answer::Names(_) => b"names",
        Answer::Refused(_) => b"refused ",
        Answer::BadOperation => b"bad operation",
        Answer::Broken { got: _, mark: _ } => b"broken ",
        Answer::Unopened => b"unopened",
        Answer::Foreign => b"foreign",
        Answer::Lost => b"lost",
        Answer::Strange => b"strange",
        Answer::Memory => b"memory",
    }
}

fn show_value<A: Allocator + Copy>(alloc: Global, answer: &Answer<A>, paper: &mut Paper) {
    match answer {
        Answer::Path(text) | Answer::Octets(text) => paper.quote(text.as_slice()),
        Answer::Number(number) => paper.number(*number),
        Answer::Refused(code) => paper.number(u64::from(*code)),
        Answer::Stamp(moment) => paper.put(&moment_text(*moment)),
        Answer::Entry(entry) => show_entry(alloc, entry, paper),
        Answer::Entries(entries) => show_entries(alloc, entries.as_slice(), paper),
        Answer::Names(names) => for name in names.iter() {
            paper.put(b"\n=   ");
            paper.quote(name.as_slice());
        },
        Answer::Broken { got, mark } => {
            paper.quote(got.as_slice());
            show_mark(*mark, paper);
        }
        _ => {}
    }
}

fn show_mark(mark: Option<u64>, paper: &mut Paper) {
    if let Some(mark) = mark {
        paper.put(b" mark ");
        paper.number(mark);
    }
}

fn show_entries<A: Allocator + Copy>(alloc: Global, entries: &[Entry<A>], paper: &mut Paper) {
    for entry in entries {
        paper.put(b"\n=   ");
        show_entry(alloc, entry, paper);
    }
}

fn show_entry<A: Allocator + Copy>(alloc: Global, entry: &Entry<A>, paper: &mut Paper) {
    let mut line = Vec::new(alloc);
    let _ = write_entry(entry, &mut line);
    paper.octets(line.as_slice());
}
