// The words of a line.
use ftp_pair::Queue;
use rows_base::{found, number, split};

/// What may happen to a world, but for the beginning of an order.
#[derive(Clone, Copy)]
pub enum Happening {
    Deliver(Queue, usize),
    Open,
    Refuse,
    End(Queue),
    Break,
    EndControl,
}

/// What a line asks.
#[derive(Clone, Copy)]
pub enum WorldWord {
    /// An order begins.
    Begin,
    /// An order begins by `World::run` of that one event.
    BeginByRun,
    /// An upload of so many octets of the fixed sequence begins.
    Heavy,
    Deliver,
    End,
    /// An event without a queue.
    Plain(Happening),
    /// All that moves by itself.
    Settle,
    /// The control connection and openings, until nothing of the kind is possible.
    Talk,
    /// Deliveries over a queue until none is possible.
    Pour,
    /// Events are kept from here on.
    Gather,
    /// Those that were kept happen.
    Run,
    /// What stands in the tree.
    Tree,
    /// What became of the links of the last order.
    Marks,
    /// The most that each end held behind an event.
    Held,
    /// The name of a row, or what says how it is played.
    Nothing,
}

const WORDS: &[(&'static [u8], WorldWord)] = &[
    (b">", WorldWord::Begin),
    (b">>", WorldWord::BeginByRun),
    (b"heavy", WorldWord::Heavy),
    (b"deliver", WorldWord::Deliver),
    (b"end", WorldWord::End),
    (b"open", WorldWord::Plain(Happening::Open)),
    (b"refuse", WorldWord::Plain(Happening::Refuse)),
    (b"break", WorldWord::Plain(Happening::Break)),
    (b"end-control", WorldWord::Plain(Happening::EndControl)),
    (b"settle", WorldWord::Settle),
    (b"talk", WorldWord::Talk),
    (b"pour", WorldWord::Pour),
    (b"gather", WorldWord::Gather),
    (b"in", WorldWord::Gather),
    (b"run", WorldWord::Run),
    (b"tree", WorldWord::Tree),
    (b"marks", WorldWord::Marks),
    (b"held", WorldWord::Held),
];

const QUEUES: &[(&'static [u8], Queue)] = &[
    (b"control-up", Queue::ControlToServer),
    (b"control-down", Queue::ControlToClient),
    (b"data-up", Queue::DataToServer),
    (b"data-down", Queue::DataToClient),
];

/// What a line asks by its first word, and what stands behind that.
pub fn word_of(line: &[u8]) -> (WorldWord, &[u8]) {
    let (word, rest) = split(line);
    (found(WORDS, word, WorldWord::Nothing), rest)
}

/// The event that a line says; none where it says another thing.
pub fn happening_of(line: &[u8]) -> Option<Happening> {
    let (word, rest) = word_of(line);
    match word {
        WorldWord::Deliver => Some(delivery_of(rest)),
        WorldWord::End => Some(Happening::End(queue_of(rest))),
        WorldWord::Plain(happening) => Some(happening),
        _ => None,
    }
}

/// A delivery: a queue, and how many octets.
pub fn delivery_of(text: &[u8]) -> Happening {
    let (queue, count) = split(text);
    Happening::Deliver(queue_of(queue), number(count).min(1 << 30) as usize)
}

/// A queue; the one to the client over the control connection, where the word says none.
fn queue_of(word: &[u8]) -> Queue {
    found(QUEUES, word, Queue::ControlToClient)
}
