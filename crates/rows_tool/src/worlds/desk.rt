// What stands beside a world that is played on.
use crate::worlds::plays::HeldOctets;
use crate::worlds::words::Happening;
use rows_base::Paper;
use std::alloc::Global;
use std::mem;

/// The most octets that an end may hold, as the definitions have it.
const HELD_LIMIT: usize = 24_576;

/// How a row is played.
#[derive(Clone, Copy)]
pub enum PlayMode {
    /// Each line is written, with what comes of it.
    Lines,
    /// What is reported is written, and the tree behind it.
    Quiet,
    /// The same, each order event by event; before one of its events that happens.
    Struck(Happening, u64),
    /// The same once that is behind.
    Unstruck,
    /// Behind the lines what was kept happens in one order; what is reported from there on is written.
    Way,
}

/// What a row writes, and how far it has come.
#[derive(Drop)]
pub struct RowOutput {
    pub alloc: Global,
    pub paper: Paper,
    pub manner: PlayMode,
    /// How many orders were begun.
    pub begun: u64,
    /// How many events have happened.
    pub happened: u64,
    /// The most that each end held behind one.
    pub most: HeldOctets,
    /// How many reports were told.
    pub told: usize,
    /// Whether no end was refused memory.
    pub calm: bool,
    /// Whether events are kept, to happen later.
    pub gathers: bool,
    /// Those that are kept.
    pub kept: Vec<Happening>,
    /// Whether what was to happen before one event was possible.
    pub struck: bool,
    /// The places of the events that happen in one order, among those that were kept. Before it is followed: the least place of each of the first.
    pub way: Vec<usize>,
    /// Whether there is an order from those places on.
    pub led: bool,
}

impl RowOutput {
    pub fn new(alloc: Global, manner: PlayMode) -> RowOutput {
        RowOutput {
            alloc,
            paper: Paper::new(alloc),
            manner,
            begun: 0,
            happened: 0,
            most: HeldOctets {
                client: 0,
                server: 0,
            },
            told: 0,
            calm: true,
            gathers: false,
            kept: Vec::new(alloc),
            struck: false,
            way: Vec::new(alloc),
            led: true,
        }
    }

    /// An event happened, behind which the ends hold that.
    pub fn count(&mut self, held: HeldOctets) {
        self.happened = self.happened.saturating_add(1);
        self.most.client = self.most.client.max(held.client);
        self.most.server = self.most.server.max(held.server);
    }

    /// The most that each end held, and whether that is too much.
    pub fn tell_held(&mut self) {
        self.paper.put(b"~ at most ");
        self.paper.number(self.most.client as u64);
        self.paper.put(b" octets are held by the client, ");
        self.paper.number(self.most.server as u64);
        self.paper.line(b" by the server");
        if self.most.client.max(self.most.server) > HELD_LIMIT {
            self.paper.line(b"! too much is held");
        }
    }

    /// An event is kept.
    pub fn keep(&mut self, happening: Happening) {
        if self.kept.push(happening).is_err() {
            self.paper.fill();
        }
    }

    /// The event at this place of those that were kept is the next one of the order.
    pub fn pass(&mut self, place: usize) {
        if self.way.push(place).is_err() {
            self.paper.fill();
        }
    }

    /// What was written, where something was to happen before an event.
    pub fn take_struck(&mut self) -> Paper {
        let mut paper = Paper::new(self.alloc);
        if self.struck {
            mem::swap(&mut self.paper, &mut paper);
        } else {
            paper.line(b"not possible");
        }
        paper
    }

    /// What is kept, which is then kept no more.
    pub fn take_kept(&mut self) -> Vec<Happening> {
        mem::replace(&mut self.kept, Vec::new(self.alloc))
    }
}
