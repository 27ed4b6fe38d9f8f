// Readers and writers that give or take little at a time, and fail at one call.
use std::alloc::Global;
use std::io;
use std::io::{Error, ErrorKind, Read, Write};

/// Gives few octets a read, and fails at one read.
#[derive(Drop)]
pub struct FailingReader<'a> {
    rest: &'a [u8],
    most: usize,
    calls: u32,
    fails_at: u32,
}

impl<'a> FailingReader<'a> {
    /// Gives these octets, at most `most` a read, and fails at the read with that number, counted from 0.
    pub fn new(octets: &'a [u8], most: usize, fails_at: u32) -> FailingReader<'a> {
        FailingReader {
            rest: octets,
            most,
            calls: 0,
            fails_at,
        }
    }
}

impl<'a> Read for FailingReader<'a> {
    fn read(&mut self, room: &mut [u8]) -> io::Result<usize> {
        if self.calls == self.fails_at {
            return Err(Error::from(ErrorKind::ConnectionReset));
        }
        self.calls = self.calls.wrapping_add(1);
        let count = self.rest.len().min(room.len()).min(self.most);
        room[..count].copy_from_slice(&self.rest[..count]);
        self.rest = &self.rest[count..];
        Ok(count)
    }
}

/// Takes few octets a write, is interrupted at each second one, and fails at one.
#[derive(Drop)]
pub struct FailingWriter {
    taken: Vec<u8>,
    most: usize,
    calls: u32,
    fails_at: u32,
}

impl FailingWriter {
    /// Takes at most `most` octets a write, and fails at the write with that number, counted from 0.
    pub fn new(alloc: Global, most: usize, fails_at: u32) -> FailingWriter {
        FailingWriter {
            taken: Vec::new(alloc),
            most,
            calls: 0,
            fails_at,
        }
    }

    /// All octets that it took.
    pub fn taken(&self) -> &[u8] {
        self.taken.as_slice()
    }
}

impl Write for FailingWriter {
    fn write(&mut self, octets: &[u8]) -> io::Result<usize> {
        if self.calls == self.fails_at {
            return Err(Error::from(ErrorKind::BrokenPipe));
        }
        self.calls = self.calls.wrapping_add(1);
        if self.calls % 2 == 0 {
            return Err(Error::from(ErrorKind::Interrupted));
        }
        let count = octets.len().min(self.most);
        match self.taken.extend_from_slice(&octets[..count]) {
            Ok(()) => Ok(count),
            Err(_) => Err(Error::from(ErrorKind::OutOfMemory)),
        }
    }

    fn flush(&mut self) -> io::Result<()> {
        Ok(())
    }
}
