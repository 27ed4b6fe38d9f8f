// What an operation answers.
use ftp_facts::{Entry, Moment, Text};
use std::alloc::Allocator;

/// The answer of an operation: what was asked for, or why it was not had.
pub enum Answer<A: Allocator + Copy> {
    Done,
    Path(Text<A>),
    Octets(Text<A>),
    Number(u64),
    Stamp(Moment),
    Entry(Entry<A>),
    Entries(Vec<Entry<A>, A>),
    Names(Vec<Text<A>, A>),
    /// The code of the reply that refused it.
    Refused(u16),
    /// It cannot be sent, and nothing was.
    BadOperation,
    /// The data connection broke: what came of a download, and the last restart marker.
    Broken { got: Text<A>, mark: Option<u64> },
    /// The data connection was not opened, and nothing was done.
    Unopened,
    /// Another host than the server's was named, or came.
    Foreign,
    /// The control connection ended: it may have been done, or a part of it, or nothing.
    Lost,
    /// The server said what has no place.
    Strange,
    /// Want of memory.
    Memory,
}

/// By hand: a derived drop is proved again, variant by variant, wherever an answer is let go.
impl<A: Allocator + Copy> Drop for Answer<A> {
    fn drop(self) {
        match self {
            Answer::Done | Answer::Number(_) | Answer::Stamp(_) | Answer::Refused(_) => {}
            Answer::Path(_) | Answer::Octets(_) => {}
            Answer::Entry(_) | Answer::Entries(_) | Answer::Names(_) => {}
            Answer::Broken { got: _, mark: _ } => {}
            Answer::BadOperation | Answer::Unopened | Answer::Foreign => {}
            Answer::Lost | Answer::Strange | Answer::Memory => {}
        }
    }
}
