// What an operation answers.
use ftp_facts::{Entry, write_entry};
use ftp_operation::Answer;
use rows_base::Paper;
use std::alloc::{Allocator, Global};

/// Writes an answer: octets between double quotes, a number, the code of a refusal, entries and names line by line.
pub fn show_answer<A: Allocator + Copy>(alloc: Global, answer: &Answer<A>, paper: &mut Paper) {
    match answer {
        Answer::Done => paper.put(b"done"),
        Answer::BadOperation => paper.put(b"bad"),
        Answer::Path(text) | Answer::Octets(text) => paper.quote(text.as_slice()),
        Answer::Number(number) => paper.number(*number),
        Answer::Stamp(moment) => paper.number(moment.seconds),
        Answer::Refused(code) => paper.number(u64::from(*code)),
        Answer::Entry(entry) => show_entry(alloc, entry, paper),
        Answer::Entries(entries) => show_entries(alloc, entries.as_slice(), paper),
        Answer::Names(names) => for name in names.iter() {
            paper.octets(name.as_slice());
            paper.put(b"\\n");
        },
        _ => paper.put(b"other"),
    }
}

fn show_entries<A: Allocator + Copy>(alloc: Global, entries: &[Entry<A>], paper: &mut Paper) {
    for entry in entries {
        show_entry(alloc, entry, paper);
        paper.put(b"\\n");
    }
}

fn show_entry<A: Allocator + Copy>(alloc: Global, entry: &Entry<A>, paper: &mut Paper) {
    let mut line = Vec::new(alloc);
    let _ = write_entry(entry, &mut line);
    paper.octets(line.as_slice());
}
