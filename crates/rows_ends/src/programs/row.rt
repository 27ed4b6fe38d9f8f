// The lines of a row: which program it is of, what that reads, and what has to come.
use rows_base::{Paper, cut, found, number, octets_of, said, split};
use std::alloc::Global;
use std::str;
use tool_codec::{Direction, Representation, representation_of};

/// A program that reads and writes octets, or a call of one.
#[derive(Clone, Copy)]
pub enum RowProgram {
    Dialogue,
    Facts,
    Frame(Representation, Direction),
    /// Letters that are no type, structure and mode.
    NoForm,
    /// The field of a password, with a salt that the row says.
    Password,
    /// The number that a word of a command line is.
    Number,
    /// Octets are written.
    Put,
    /// One read of up to four octets.
    Get,
}

const PROGRAMS: &[(&'static [u8], RowProgram)] = &[
    (b"facts", RowProgram::Facts),
    (b"password", RowProgram::Password),
    (b"number", RowProgram::Number),
    (b"put", RowProgram::Put),
    (b"get", RowProgram::Get),
];

/// What a program is tried on, and what has to come.
#[derive(Drop)]
pub struct ProgramRow {
    pub program: RowProgram,
    pub status: u8,
    /// With which salt the field of a password is made, and by how many rounds, if that is said.
    pub salt: Paper,
    pub rounds: Option<u32>,
    pub input: Paper,
    pub output: Paper,
    /// What it tells of faults.
    pub told: Paper,
}

/// The row of a text.
pub fn row_of(alloc: Global, text: &[u8]) -> ProgramRow {
    ProgramRow {
        program: program_of(text),
        status: (number(said(text, b"status").unwrap_or(b"")) % 256) as u8,
        salt: written(alloc, text, b"salt"),
        rounds: rounds_of(said(text, b"rounds")),
        input: written(alloc, text, b"in"),
        output: written(alloc, text, b"out"),
        told: written(alloc, text, b"tells"),
    }
}

fn rounds_of(said: Option<&[u8]>) -> Option<u32> {
    match said {
        Some(digits) => Some(number(digits).min(u64::from(u32::MAX)) as u32),
        None => None,
    }
}

fn program_of(text: &[u8]) -> RowProgram {
    let marks = said(text, b"marks").is_some();
    if let Some(form) = said(text, b"wire") {
        frame_of(form, Direction::new(false, marks))
    } else if let Some(form) = said(text, b"file") {
        frame_of(form, Direction::new(true, marks))
    } else {
        found(
            PROGRAMS,
            said(text, b"program").unwrap_or(b""),
            RowProgram::Dialogue,
        )
    }
}

/// Type, structure and mode, each by its letter.
fn frame_of(letters: &[u8], direction: Direction) -> RowProgram {
    let (kind, rest) = split(letters);
    let (structure, mode) = split(rest);
    match representation_of(word(kind), word(structure), word(mode)) {
        Some(form) => RowProgram::Frame(form, direction),
        None => RowProgram::NoForm,
    }
}

/// A word of a command line; none where it is no text.
pub fn word(octets: &[u8]) -> &str {
    str::from_utf8(octets).unwrap_or("")
}

/// The parts of all lines that begin with a word.
fn written(alloc: Global, text: &[u8], word: &[u8]) -> Paper {
    let mut paper = Paper::new(alloc);
    let mut rest = text;
    for _ in 0..text.len() {
        let (line, behind) = cut(rest, b'\n');
        let (first, part) = split(line);
        if first == word {
            put_part(alloc, part, &mut paper);
        }
        rest = behind;
    }
    paper
}

/// A part as it stands; so many times, and between two texts that `|` divides the number of each time; or so many octets of 251 values that begin
/// with this one, again and again.
fn put_part(alloc: Global, part: &[u8], paper: &mut Paper) {
    let (how, rest) = split(part);
    let (count, text) = split(rest);
    if how == b"each".as_slice() {
        put_each(alloc, number(count), cut(text, b'|'), paper);
    } else if how == b"up".as_slice() {
        put_up(number(count), (number(text) % 256) as u8, paper);
    } else {
        put_text(alloc, rest, paper);
    }
}

fn put_text(alloc: Global, text: &[u8], paper: &mut Paper) {
    match octets_of(alloc, text) {
        Ok(octets) => paper.put(octets.as_slice()),
        Err(_) => paper.fill(),
    }
}

fn put_each(alloc: Global, count: u64, (front, back): (&[u8], &[u8]), paper: &mut Paper) {
    for place in 0..count {
        put_text(alloc, front, paper);
        if !back.is_empty() {
            paper.number(place);
            put_text(alloc, back, paper);
        }
    }
}

fn put_up(count: u64, first: u8, paper: &mut Paper) {
    for place in 0..count {
        paper.put(&[first.wrapping_add((place % 251) as u8)]);
    }
}
