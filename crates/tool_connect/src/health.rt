// Whether a control connection failed, as its reader and its writer find it.
use std::cell::Cell;
use std::io;
use std::io::{Error, ErrorKind, Read, Write};

/// Whether a control connection failed: a read or a write of it did, or its server was waited for no longer. One that its server ended did not.
#[derive(Drop)]
pub struct Health {
    failed: Cell<bool>,
}

impl Health {
    /// Of a control connection that is not opened yet.
    pub fn new() -> Health {
        Health {
            failed: Cell::new(false),
        }
    }

    /// Whether it failed.
    pub fn has_failed(&self) -> bool {
        self.failed.get()
    }

    /// It failed.
    pub(crate) fn fail(&self) {
        self.failed.set(true);
    }

    /// A read or a write of it ended so; what a signal interrupts is done again.
    fn met(&self, error: Error) {
        if error.kind() != ErrorKind::Interrupted {
            self.fail();
        }
    }
}

/// The reader or the writer of a control connection, whose failures its `Health` learns.
#[derive(Drop)]
pub(crate) struct Monitored<'a, S> {
    stream: S,
    health: &'a Health,
}

impl<'a, S> Monitored<'a, S> {
    /// This stream, whose octets pass as they are.
    pub(crate) fn new(stream: S, health: &'a Health) -> Monitored<'a, S> {
        Monitored { stream, health }
    }
}

impl<'a, S: Read> Read for Monitored<'a, S> {
    fn read(&mut self, room: &mut [u8]) -> io::Result<usize> {
        match self.stream.read(room) {
            Ok(count) => Ok(count),
            Err(error) => {
                self.health.met(error);
                Err(error)
            }
        }
    }
}

impl<'a, S: Write> Write for Monitored<'a, S> {
    fn write(&mut self, octets: &[u8]) -> io::Result<usize> {
        match self.stream.write(octets) {
            Ok(count) => Ok(count),
            Err(error) => {
                self.health.met(error);
                Err(error)
            }
        }
    }

    fn flush(&mut self) -> io::Result<()> {
        self.stream.flush()
    }
}
