// A program runs on a row.
use crate::programs::row::{ProgramRow, RowProgram, word};
use ftp_ports::{Failed, get, put};
use itoa::Buffer;
use rows_base::{FailingReader, FailingWriter, Refusing};
use std::alloc::{Allocator, Global};
use tool_accounts::make;
use tool_codec::{Direction, facts, frame, number_of};
use tool_dialogue::dialogue;

/// The number of no call, and more octets than a call moves.
pub const NEVER: u32 = u32::MAX;

/// The most octets of each call, and the call that fails, counted from 0.
#[derive(Clone, Copy)]
pub struct Calls {
    pub most: usize,
    pub fails: u32,
}

/// How a word is refused, and how a program ends where a call failed.
const REFUSED: u8 = 1;

const FAILED: u8 = 3;

/// Calls that move all and do not fail.
pub const AMPLE: Calls = Calls {
    most: NEVER as usize,
    fails: NEVER,
};

/// How the calls of a program go.
#[derive(Clone, Copy)]
pub struct RunSettings {
    /// The most octets that a dialogue hears at once, where that is not 0.
    pub piece: u32,
    pub reads: Calls,
    pub writes: Calls,
    pub tells: Calls,
    /// The growth that is refused; none at 0.
    pub refused: u64,
}

/// What came of a row.
#[derive(Drop)]
pub struct RunResult {
    pub status: u8,
    pub output: FailingWriter,
    pub told: FailingWriter,
    /// How many growths are left until one is refused.
    pub left: u64,
}

pub fn run(alloc: Global, row: &ProgramRow, way: RunSettings) -> RunResult {
    let tells = tells_of(row.program, way.tells);
    let heap = Refusing::new(alloc, way.refused);
    let mut reader = FailingReader::new(row.input.text(), way.reads.most, way.reads.fails);
    let mut output = FailingWriter::new(alloc, way.writes.most, way.writes.fails);
    let mut told = FailingWriter::new(alloc, tells.most, tells.fails);
    let status = run_on(&heap, row, way.piece, &mut reader, &mut output, &mut told);
    let left = heap.left();
    RunResult {
        status,
        output,
        told,
        left,
    }
}

/// A wire that is written has no faults: its teller refuses all.
fn tells_of(program: RowProgram, tells: Calls) -> Calls {
    match program {
        RowProgram::Frame(_, Direction::ToWire { marks: _ }) => Calls { most: 0, fails: 0 },
        _ => tells,
    }
}

fn run_on<A: Allocator + Copy>(
    heap: A,
    row: &ProgramRow,
    piece: u32,
    reader: &mut FailingReader<'_>,
    output: &mut FailingWriter,
    told: &mut FailingWriter,
) -> u8 {
    match row.program {
        RowProgram::Dialogue => dialogue(heap, reader, output, piece),
        RowProgram::Facts => facts(heap, reader, output),
        RowProgram::Frame(form, direction) => frame(heap, form, direction, reader, output, told),
        RowProgram::Password => { make(row.rounds, row.salt.text(), reader, output, told).number() }
        RowProgram::NoForm => REFUSED,
        RowProgram::Number => tell_number(row.input.text(), output),
        RowProgram::Put => put_status(output, row.input.text()),
        RowProgram::Get => get_once(reader, output),
    }
}

/// The number that is written, where the input is one.
fn tell_number(input: &[u8], output: &mut FailingWriter) -> u8 {
    match number_of(word(input)) {
        Some(number) => put_status(output, Buffer::new().format(number).as_bytes()),
        None => REFUSED,
    }
}

fn put_status(output: &mut FailingWriter, octets: &[u8]) -> u8 {
    match put(output, octets) {
        Ok(()) => 0,
        Err(Failed) => FAILED,
    }
}

fn get_once(reader: &mut FailingReader<'_>, output: &mut FailingWriter) -> u8 {
    let mut room = [0; 4];
    match get(reader, &mut room) {
        Ok(count) => put_status(output, &room[..count]),
        Err(Failed) => FAILED,
    }
}
