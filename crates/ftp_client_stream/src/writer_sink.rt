// A writer as a sink of octets, which may fail.
ghost use Rattle.std.specs.Prelude.{◌≡◌, ◌++◌, [], None, IsSome, OnErr, OnOk, length};
ghost use Rattle.std.specs.Io.KnownBytes.{Appends};

use crate::went::Went;
use ftp_wire::Sink;
use std::alloc::AllocError;
use std::io::{Error, ErrorKind, Write};

/// A writer to which octets go in order, and which was given nothing else. Once a write of it failed it is given no more, and the failure stays.
#[derive(Drop)]
pub struct WriterSink<W: Write + Drop> {
    writer: W,
    /// How many octets went.
    count: u64,
    fault: Option<Error>,
    went: Went,
    ghost counted: { count ≡ length went.octets },
}

impl<W: Write + Drop> WriterSink<W> {
    /// A writer to which nothing went yet.
    pub fn new(writer: W) -> WriterSink<W>
        ensures none { result.went.octets ≡ [] }
        ensures sound { result.fault ≡ None }
        ensures writer { result.writer ≡ writer }
    {
        WriterSink {
            writer,
            count: 0,
            fault: None,
            went: Went::new(),
        }
    }

    /// How many octets went.
    pub fn count(&self) -> u64
        ensures { result ≡ length self.now.went.octets }
    {
        self.count
    }

    /// Why the writer failed, where it did: it may have the first octets of those that it refused, which are not counted.
    pub fn fault(&self) -> Option<Error>
        ensures { result ≡ self.now.fault }
    {
        self.fault
    }
}

impl<W: Write + Drop> Sink for WriterSink<W> {
    ghost octets = { λ writer_sink. writer_sink.went.octets };

    fn len(&self) -> u64 {
        self.count
    }

    /// Writes octets behind those that went. A writer that fails, and one that failed before, refuses them.
    fn push(&mut self, more: &[u8]) -> Result<(), AllocError>
        // Witness of went, kept, written: equations; `edits/what_a_writer_refuses_counts_as_gone`.
        ensures went { OnOk result (self.new.went.octets ≡ self.old.went.octets ++ more.now) }
        ensures kept { OnErr result (self.new.went.octets ≡ self.old.went.octets) }
        // Witness of told, sound: a fault just where it refused; `edits/a_writer_that_failed_is_not_told`.
        ensures told { OnErr result (IsSome self.new.fault) }
        ensures sound { OnOk result (self.new.fault ≡ None) }
        ensures written { OnOk result (Appends (W.contents self.old.writer) (W.contents self.new.writer) more.now) }
    {
        if self.fault.is_some() {
            return Err(AllocError);
        }
        let Some(count) = self.count.checked_add(more.len() as u64) else {
            self.fault = Some(Error::from(ErrorKind::FileTooLarge));
            return Err(AllocError);
        };
        if let Err(error) = self.writer.write_all(more) {
            self.fault = Some(error);
            return Err(AllocError);
        }
        self.went.note(more);
        self.count = count;
        Ok(())
    }
}
