// The words of a line, and the lines of a row.
use rows_base::{cut, said};

/// What stands between two words of a line whose texts are octets: an octet that no text of a row has.
pub const BETWEEN: u8 = 254;

/// A line up to its first word's end, and the words behind it.
pub fn split(line: &[u8]) -> (&[u8], &[u8]) {
    cut(line, BETWEEN)
}

/// A text up to where such octets stand, and from there on.
pub fn cut_before<'a>(text: &'a [u8], mark: &[u8]) -> (&'a [u8], &'a [u8]) {
    for at in 0..text.len() {
        let (front, rest) = text.split_at(at);
        if rest.starts_with(mark) {
            return (front, rest);
        }
    }
    (text, b"")
}

/// What stands behind a word on the first line that begins with it; nothing where there is none.
pub fn heading<'a>(row: &'a [u8], word: &[u8]) -> &'a [u8] {
    said(row, word).unwrap_or(b"")
}
