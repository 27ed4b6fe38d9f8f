// The control octets of a row, how its end is played on, and what it writes.
use crate::driven::{ConnectionPlan, Try};
use crate::turn::{RowSettings, RowTurn, Side};
use ftp_ends::Wants;
use rows_base::{Paper, octets_of, quoted};
use std::alloc::Global;
use std::mem;

/// What stands beside an end that is played on.
#[derive(Drop)]
pub struct Desk {
    pub alloc: Global,
    pub side: Side,
    pub paper: Paper,
    /// The control octets so far, and how many of them were taken.
    pub octets: Vec<u8>,
    pub heard: usize,
    /// The most octets of one call.
    pub size: usize,
    /// What was wanted when it was told last.
    pub wanted: Wants,
    /// The tree behind each line.
    pub trees: Vec<Paper>,
    /// How many octets of the line were not taken.
    pub left: usize,
    /// Whether each line tells how much is held.
    pub weighs: bool,
    /// Whether it is told what each call acted on; then control octets are heard one by one, and all that is owed is given at once.
    pub tells: bool,
    /// How connections go that drive the end: then the control octets wait for that.
    pub drive: Option<ConnectionPlan>,
    /// What is tried of these.
    pub tried: Try,
    /// Whether that broke off.
    pub is_broken: bool,
}

/// What a row wrote.
#[derive(Drop)]
pub struct WrittenRow {
    pub paper: Paper,
    /// The tree behind each line.
    pub trees: Vec<Paper>,
    /// How many growths were asked for.
    pub growths: u64,
    /// Whether connections broke off that drive the end.
    pub is_broken: bool,
}

impl Desk {
    pub fn new(turn: RowTurn<'_>, manner: RowSettings) -> Desk {
        Desk {
            alloc: turn.alloc,
            side: turn.side,
            paper: Paper::new(turn.alloc),
            octets: Vec::new(turn.alloc),
            heard: 0,
            size: manner.size,
            wanted: Wants::Nothing,
            trees: Vec::new(turn.alloc),
            left: 0,
            weighs: false,
            tells: false,
            drive: None,
            tried: manner.tried,
            is_broken: false,
        }
    }

    /// What was written, where so many growths were asked for.
    pub fn seen(self, growths: u64) -> WrittenRow {
        WrittenRow {
            paper: self.paper,
            trees: self.trees,
            growths,
            is_broken: self.is_broken,
        }
    }

    /// The octets of a text, which may stand between double quotes; none where memory is refused.
    pub fn octets_of(&mut self, text: &[u8]) -> Vec<u8> {
        let text = match text {
            [b'"', ..] => quoted(text).0,
            _ => text,
        };
        match octets_of(self.alloc, text) {
            Ok(octets) => octets,
            Err(_) => {
                self.paper.fill();
                Vec::new(self.alloc)
            }
        }
    }

    /// The octets of a text come over the control connection, and these behind it.
    pub fn say(&mut self, text: &[u8], behind: &[u8]) {
        let octets = octets_of(self.alloc, text);
        let is_said = match octets {
            Ok(octets) => self.octets.extend_from_slice(octets.as_slice()).is_ok(),
            Err(_) => false,
        };
        if !is_said || self.octets.extend_from_slice(behind).is_err() {
            self.paper.fill();
        }
    }

    /// The control octets of the next call.
    pub fn next_piece(&self) -> &[u8] {
        let all = self.octets.as_slice();
        let (_, rest) = all.split_at(self.heard.min(all.len()));
        let size = if self.tells { 1 } else { self.size };
        rest.split_at(size.min(rest.len())).0
    }

    /// Writes on a sheet of its own from here on, until that is laid aside again.
    pub fn turn_over(&mut self) -> Paper {
        mem::replace(&mut self.paper, Paper::new(self.alloc))
    }

    /// Goes on with this paper; what was written since `turn_over` stands there once where it is one part so many times.
    pub fn turn_back(&mut self, paper: Paper, times: u64) {
        let mut sheet = mem::replace(&mut self.paper, paper);
        sheet.end_line();
        let text = sheet.text();
        let count = (text.len() as u64).checked_div(times).unwrap_or(0) as usize;
        let (part, rest) = text.split_at(count.min(text.len()));
        self.paper
            .put(if text.starts_with(rest) { part } else { text });
    }

    /// A line with a number behind this mark.
    pub fn put_number(&mut self, mark: &[u8], number: u64) {
        self.paper.put(mark);
        self.paper.number(number);
        self.paper.put(b"\n");
    }

    /// The tree as it is behind a line.
    pub fn keep(&mut self, tree: Paper) {
        if self.trees.push(tree).is_err() {
            self.paper.fill();
        }
    }

    /// How many octets of the line a client did not take; a server is offered those of the control connection again.
    pub fn tell_left(&mut self) {
        if self.side.is_client {
            let left = self.octets.len().saturating_sub(self.heard);
            self.left = self.left.saturating_add(left);
            self.heard = self.octets.len();
        }
        if self.left > 0 {
            self.put_number(b"! octets that are not taken: ", self.left as u64);
        }
        self.left = 0;
    }
}
