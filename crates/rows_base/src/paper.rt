// What a row writes.
use crate::tally::Tally;
use itoa::Buffer;
use std::alloc::Global;

/// The text of a row so far. What memory is refused for is missing from it.
#[derive(Drop)]
pub struct Paper {
    text: Vec<u8>,
    /// Memory was refused.
    full: bool,
    /// Within a line of a control connection.
    within: bool,
    /// A CR of such a line was not written yet.
    held: bool,
}

impl Paper {
    pub fn new(alloc: Global) -> Paper {
        Paper {
            text: Vec::new(alloc),
            full: false,
            within: false,
            held: false,
        }
    }

    pub fn text(&self) -> &[u8] {
        self.text.as_slice()
    }

    pub fn is_full(&self) -> bool {
        self.full
    }

    /// Memory was refused.
    pub fn fill(&mut self) {
        self.full = true;
    }

    pub fn put(&mut self, text: &[u8]) {
        self.full |= self.text.extend_from_slice(text).is_err();
    }

    pub fn line(&mut self, text: &[u8]) {
        self.put(text);
        self.put(b"\n");
    }

    /// A line for what is tried: whether it holds.
    pub fn holds(&mut self, what: &str, holds: bool) {
        self.put(if holds { b"holds: " } else { b"WRONG: " });
        self.line(what.as_bytes());
    }

    pub fn number(&mut self, value: u64) {
        let mut buffer = Buffer::new();
        self.put(buffer.format(value).as_bytes());
    }

    /// Octets between double quotes, or how many they are.
    pub fn quote(&mut self, octets: &[u8]) {
        let mut tally = Tally::new();
        tally.take(octets);
        tally.show(self);
    }

    /// Octets as a script writes them.
    pub fn octets(&mut self, octets: &[u8]) {
        for octet in octets {
            self.octet(*octet);
        }
    }

    fn octet(&mut self, octet: u8) {
        match octet {
            b'\r' => self.put(b"\\r"),
            b'\n' => self.put(b"\\n"),
            0 => self.put(b"\\0"),
            b'\\' => self.put(b"\\\\"),
            32..=126 => self.put(&[octet]),
            _ => self.put(&[b'\\', b'x', digit(octet / 16), digit(octet % 16)]),
        }
    }

    /// Octets of a control connection, each line behind this mark and without its CR LF; another CR or LF is seen.
    pub fn lines(&mut self, mark: &[u8], octets: &[u8]) {
        for octet in octets {
            self.line_octet(mark, *octet);
        }
    }

    fn line_octet(&mut self, mark: &[u8], octet: u8) {
        if self.held && octet == b'\n' {
            self.put(b"\n");
            self.held = false;
            self.within = false;
            return;
        }
        self.begin_line(mark);
        self.held = octet == b'\r';
        if !self.held {
            self.octet(octet);
        }
    }

    /// Before an octet of a line that is not its end.
    fn begin_line(&mut self, mark: &[u8]) {
        if !self.within {
            self.put(mark);
        }
        if self.held {
            self.put(b"\\r");
        }
        self.within = true;
    }

    /// Ends a line of a control connection that has no end.
    pub fn end_line(&mut self) {
        if self.within {
            self.put(b"\n");
        }
        self.within = false;
        self.held = false;
    }
}

/// A hexadecimal digit.
fn digit(value: u8) -> u8 {
    match value {
        0..=9 => b'0' + value,
        10..=15 => b'A' + (value - 10),
        _ => b'?',
    }
}
