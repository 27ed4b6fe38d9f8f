// Octets that are too many to be shown.
use crate::paper::Paper;

/// The most octets that are shown.
const SHOWN: usize = 200;

/// The octets of one text: the first of them, how many they are, and whether each is the one of its place in the fixed sequence.
#[derive(Drop)]
pub struct Tally {
    first: [u8; SHOWN],
    count: u64,
    is_fixed: bool,
}

/// The octet at a place of the fixed sequence, in which the octets 0 to 250 follow one another again and again.
pub fn fixed(place: u64) -> u8 {
    (place % 251) as u8
}

impl Tally {
    pub fn new() -> Tally {
        Tally {
            first: [0; SHOWN],
            count: 0,
            is_fixed: true,
        }
    }

    pub fn count(&self) -> u64 {
        self.count
    }

    pub fn take(&mut self, octets: &[u8]) {
        for octet in octets {
            self.take_one(*octet);
        }
    }

    fn take_one(&mut self, octet: u8) {
        if self.count < SHOWN as u64 {
            self.first[self.count as usize] = octet;
        }
        self.is_fixed &= octet == fixed(self.count);
        self.count = self.count.wrapping_add(1);
    }

    /// Shows the octets between double quotes, or how many they are.
    pub fn show(&self, paper: &mut Paper) {
        if self.count <= SHOWN as u64 {
            paper.put(b"\"");
            paper.octets(&self.first[..self.count as usize]);
            paper.put(b"\"");
            return;
        }
        paper.number(self.count);
        if self.is_fixed {
            paper.put(b" octets of the fixed sequence");
        } else {
            paper.put(b" other octets");
        }
    }
}
