//! Rows of the script: a word for what is tried, and behind it small words and octets.
use crate::row::{LineRow, octets_in};
use crate::word::{FactWord, FileWord, LineWord, word_of};
use crate::{
    calendar, ears, endpoints, entries, growing, items, moments, pieces, replies, secrets, sizes,
    wires,
};
use rows_base::{Paper, cut, split};
use std::alloc::Global;

/// Writes each line of a script, and behind it what is said of it. A line of no such word is a remark.
pub(crate) fn play_all(alloc: Global, script: &[u8], paper: &mut Paper) {
    let mut rest = script;
    for _ in 0..script.len() {
        if rest.is_empty() {
            break;
        }
        let (line, behind) = cut(rest, b'\n');
        paper.put(line);
        play(alloc, line, paper);
        paper.put(b"\n");
        rest = behind;
    }
}

fn play(alloc: Global, line: &[u8], paper: &mut Paper) {
    let (word, text) = split(line);
    let Some(word) = word_of(word) else {
        return;
    };
    let (head, quoted) = cut(text, b'"');
    let octets = octets_in(alloc, cut(quoted, b'"').0);
    let row = LineRow {
        text,
        head,
        octets: octets.text(),
    };
    paper.put(b" => ");
    answer(alloc, word, &row, paper);
}

fn answer(alloc: Global, word: LineWord, row: &LineRow<'_>, paper: &mut Paper) {
    match word {
        LineWord::Ear => ears::show(alloc, row, paper),
        LineWord::Growing(asked) => growing::show(alloc, asked, row, paper),
        LineWord::Endpoint(asked) => endpoints::show(alloc, asked, row.octets, paper),
        LineWord::ReplyLimit => replies::show_limit(alloc, row.head, paper),
        LineWord::Opens => secrets::show_opened(alloc, row, paper),
        LineWord::Made => secrets::show_made(alloc, row, paper),
        LineWord::Fact(word) => answer_fact(alloc, word, row, paper),
        LineWord::File(word) => answer_file(alloc, word, row, paper),
    }
}

fn answer_fact(alloc: Global, word: FactWord, row: &LineRow<'_>, paper: &mut Paper) {
    match word {
        FactWord::EntryBack => entries::show_back(alloc, row.octets, paper),
        FactWord::EntryGrowths => entries::show_growths(alloc, row.octets, paper),
        FactWord::Seconds => moments::show_text(row.head, paper),
        FactWord::Moment => moments::show_seconds(row.octets, paper),
        FactWord::Years => calendar::show_years(alloc, row.head, paper),
    }
}

fn answer_file(alloc: Global, word: FileWord, row: &LineRow<'_>, paper: &mut Paper) {
    match word {
        FileWord::Sizes => sizes::show_sizes(row.octets, paper),
        FileWord::Run => sizes::show_run(row, paper),
        FileWord::Skip => sizes::show_skipped(row.head, paper),
        FileWord::Send => items::show_sent(alloc, row, paper),
        FileWord::Receive => items::show_received(alloc, row, paper),
        FileWord::Frame => wires::show_wire(alloc, row, paper),
        FileWord::Deframe => wires::show_file(alloc, row, paper),
        FileWord::Break => wires::show_broken(alloc, row, paper),
        FileWord::Parts => pieces::show_parts(alloc, row, paper),
        FileWord::Pieces => pieces::show_told(alloc, row, paper),
    }
}
