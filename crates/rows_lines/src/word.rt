//! The words that a line of the script begins with.
use crate::{endpoints, growing, values};
use rows_base::found;

/// What is tried on a line of the script.
#[derive(Clone, Copy)]
pub(crate) enum LineWord {
    Ear,
    Growing(growing::Asked),
    Endpoint(endpoints::Asked),
    ReplyLimit,
    /// Whether a password opens a field.
    Opens,
    /// The field that is made of a password.
    Made,
    Fact(FactWord),
    File(FileWord),
}

#[derive(Clone, Copy)]
pub(crate) enum FactWord {
    EntryBack,
    EntryGrowths,
    Seconds,
    Moment,
    Years,
}

#[derive(Clone, Copy)]
pub(crate) enum FileWord {
    Sizes,
    Run,
    Skip,
    Send,
    Receive,
    Frame,
    /// The file of a wire that has ended.
    Deframe,
    /// The file of a wire that broke.
    Break,
    Parts,
    Pieces,
}

const WORDS: &[(&'static [u8], Option<LineWord>)] = &[
    (b"ear", Some(LineWord::Ear)),
    (b"reply-limit", Some(LineWord::ReplyLimit)),
    (b"opens", Some(LineWord::Opens)),
    (b"made", Some(LineWord::Made)),
    (b"line", Some(LineWord::Growing(growing::Asked::Line))),
    (b"command", Some(LineWord::Growing(growing::Asked::Command))),
    (
        b"command-endpoint",
        Some(LineWord::Growing(growing::Asked::CommandEndpoint)),
    ),
    (b"entry", Some(LineWord::Growing(growing::Asked::Entry))),
    (b"reply", Some(LineWord::Growing(growing::Asked::Reply))),
    (b"script", Some(LineWord::Growing(growing::Asked::Script))),
    (
        b"endpoint-of",
        Some(LineWord::Growing(growing::Asked::Value(values::Asked::Endpoint))),
    ),
    (
        b"port-of",
        Some(LineWord::Growing(growing::Asked::Value(values::Asked::Port))),
    ),
    (
        b"size-of",
        Some(LineWord::Growing(growing::Asked::Value(values::Asked::Size))),
    ),
    (
        b"moment-of",
        Some(LineWord::Growing(growing::Asked::Value(values::Asked::Moment))),
    ),
    (
        b"mark-of",
        Some(LineWord::Growing(growing::Asked::Value(values::Asked::Mark))),
    ),
    (
        b"path-of",
        Some(LineWord::Growing(growing::Asked::Value(values::Asked::Path))),
    ),
    (
        b"reply-written",
        Some(LineWord::Growing(growing::Asked::Value(values::Asked::Written))),
    ),
    (
        b"number",
        Some(LineWord::Endpoint(endpoints::Asked::Number)),
    ),
    (b"octet", Some(LineWord::Endpoint(endpoints::Asked::Octet))),
    (b"port", Some(LineWord::Endpoint(endpoints::Asked::Port))),
    (
        b"port-in-front",
        Some(LineWord::Endpoint(endpoints::Asked::PortInFront)),
    ),
    (b"six", Some(LineWord::Endpoint(endpoints::Asked::Six))),
    (
        b"six-in-front",
        Some(LineWord::Endpoint(endpoints::Asked::SixInFront)),
    ),
    (
        b"extended",
        Some(LineWord::Endpoint(endpoints::Asked::Extended)),
    ),
    (
        b"extended-anew",
        Some(LineWord::Endpoint(endpoints::Asked::Anew)),
    ),
    (b"entry-back", Some(LineWord::Fact(FactWord::EntryBack))),
    (
        b"entry-growths",
        Some(LineWord::Fact(FactWord::EntryGrowths)),
    ),
    (b"seconds", Some(LineWord::Fact(FactWord::Seconds))),
    (b"moment", Some(LineWord::Fact(FactWord::Moment))),
    (b"years", Some(LineWord::Fact(FactWord::Years))),
    (b"sizes", Some(LineWord::File(FileWord::Sizes))),
    (b"run", Some(LineWord::File(FileWord::Run))),
    (b"skip", Some(LineWord::File(FileWord::Skip))),
    (b"send", Some(LineWord::File(FileWord::Send))),
    (b"receive", Some(LineWord::File(FileWord::Receive))),
    (b"frame", Some(LineWord::File(FileWord::Frame))),
    (b"deframe", Some(LineWord::File(FileWord::Deframe))),
    (b"decode", Some(LineWord::File(FileWord::Deframe))),
    (b"break", Some(LineWord::File(FileWord::Break))),
    (b"parts", Some(LineWord::File(FileWord::Parts))),
    (b"pieces", Some(LineWord::File(FileWord::Pieces))),
];

/// What a word stands for; nothing where the line is a remark.
pub(crate) fn word_of(word: &[u8]) -> Option<LineWord> {
    found(WORDS, word, None)
}
