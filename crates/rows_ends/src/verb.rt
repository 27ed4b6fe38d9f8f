// The words that a line begins with.
use crate::event::EndEvent;
use rows_base::found;

/// What a line is about.
#[derive(Clone, Copy)]
pub enum LineVerb {
    /// Says with what a row begins, or is for readers.
    Heading,
    /// A line of the control connection, without its CR LF.
    Says,
    /// Octets of the control connection.
    Octets,
    /// The three replies to a login that is accepted.
    Login,
    Happens(EndEvent),
    /// Octets of the data connection.
    Data,
    /// Data octets are given until there are none, this many at most in a call.
    Give,
    /// Data octets are given, this many at most.
    Out,
    /// Of calls by a list: control octets are given, this many at most.
    Owed,
    Tree,
    /// What a client tells beside its reports.
    Told,
    Held,
    /// From here on each line tells how much is held.
    Weigh,
    /// From here on it is told what each call acted on.
    Tells,
    /// From here on connections drive the end.
    Drive,
    /// They do.
    Run,
    /// The program of the page does, over sockets.
    Page,
    /// Another word: that of an operation.
    Order,
}

const VERBS: &[(&'static [u8], LineVerb)] = &[
    (b"#", LineVerb::Heading),
    (b"root", LineVerb::Heading),
    (b"user", LineVerb::Heading),
    (b"pass", LineVerb::Heading),
    (b"here", LineVerb::Heading),
    (b"peer", LineVerb::Heading),
    (b"dir", LineVerb::Heading),
    (b"dirs", LineVerb::Heading),
    (b"file", LineVerb::Heading),
    (b"full", LineVerb::Heading),
    (b"device", LineVerb::Heading),
    (b"refusals", LineVerb::Heading),
    (b"failures", LineVerb::Heading),
    (b"in", LineVerb::Heading),
    (b"growths", LineVerb::Heading),
    (b"also", LineVerb::Heading),
    (b"reads", LineVerb::Heading),
    (b"writes", LineVerb::Heading),
    (b">", LineVerb::Says),
    (b"<", LineVerb::Says),
    (b">>", LineVerb::Octets),
    (b"<<", LineVerb::Octets),
    (b"login", LineVerb::Login),
    (b"listening", LineVerb::Happens(EndEvent::Listening)),
    (b"portless", LineVerb::Happens(EndEvent::Portless)),
    (b"opened", LineVerb::Happens(EndEvent::Opened)),
    (b"refused", LineVerb::Happens(EndEvent::Refused)),
    (b"end", LineVerb::Happens(EndEvent::Ended)),
    (b"fault", LineVerb::Happens(EndEvent::Broke)),
    (b"closed", LineVerb::Happens(EndEvent::Closed)),
    (b"cut", LineVerb::Happens(EndEvent::Cut)),
    (b"clock", LineVerb::Happens(EndEvent::Clock)),
    (b"data", LineVerb::Data),
    (b"give", LineVerb::Give),
    (b"out", LineVerb::Out),
    (b"owed", LineVerb::Owed),
    (b"tree", LineVerb::Tree),
    (b"told", LineVerb::Told),
    (b"held", LineVerb::Held),
    (b"weigh", LineVerb::Weigh),
    (b"tells", LineVerb::Tells),
    (b"drive", LineVerb::Drive),
    (b"run", LineVerb::Run),
    (b"page", LineVerb::Page),
];

/// What a word says.
pub fn verb_of(word: &[u8]) -> LineVerb {
    found(VERBS, word, LineVerb::Order)
}
