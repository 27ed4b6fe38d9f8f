//! Moments and their texts, one by one.
use crate::report::put_quoted;
use ftp_facts::laws::moment_comes_back;
use ftp_facts::{Moment, moment_of_text, moment_text};
use rows_base::{Paper, number};

/// Writes the text of the moment of these seconds.
pub(crate) fn show_text(seconds: &[u8], paper: &mut Paper) {
    match Moment::new(number(seconds)) {
        Some(moment) => put_text(moment, paper),
        None => paper.put(b"none"),
    }
}

fn put_text(moment: Moment, paper: &mut Paper) {
    put_quoted(&moment_text(moment), paper);
    if moment_comes_back(moment) == Ok(moment) {
        paper.put(b" and back");
    }
}

/// Writes the seconds of a moment's text, or why it is none.
pub(crate) fn show_seconds(text: &[u8], paper: &mut Paper) {
    match moment_of_text(text) {
        Ok(moment) => paper.number(moment.seconds),
        Err(fault) => paper.put(fault.text().as_bytes()),
    }
}
