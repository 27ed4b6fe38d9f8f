// An upload that is asked ahead of its turn.
use crate::retry::{is_counted, size_request};
use crate::source::STAND_IN;
use ftp_client_stream::{ReaderSource, SourceTransfer};
use ftp_facts::Text;
use ftp_operation::{How, Op};
use std::alloc::Global;
use std::io;
use std::time::SystemTime;
use tool_files::{LocalFiles, OpenSource};
use tool_session::{ClientSession, Openings, Request, Ticket};
use tool_terminal::Span;

/// A file of this end, and where it goes.
#[derive(Clone, Copy)]
pub struct Sending<'a> {
    pub file: &'a str,
    /// How many octets it had when its upload was made.
    pub total: u64,
    /// When it was changed last then, where that is known.
    pub changed: Option<SystemTime>,
    pub path: &'a str,
    pub how: How,
    pub openings: &'a Openings,
}

impl<'a> Sending<'a> {
    /// Asks ahead of its turn what the first try of an upload (`Uploading`) asks behind the size of what stands there, where a control connection is free for
    /// that: that all octets of the file go, and then their size. Nothing is asked where the file has changed. Gives by which
    /// ticket its upload is answered (`Uploading::go_by`), where it was asked. Fails where the file can't be opened, or memory is refused.
    pub fn foresee<R, S>(&self, rt: &R, alloc: Global, slot: &mut S) -> io::Result<Option<Ticket>>
    where
        R: LocalFiles,
        S: ClientSession,
    {
        let row = self.row(alloc)?;
        let is_taken = match row.first() {
            Some(first) => slot.takes(first),
            None => false,
        };
        if !is_taken {
            return Ok(None);
        }
        let Some(opened) = self.opened(rt)? else {
            return Ok(None);
        };
        let start = if self.how.marks { Some(0) } else { None };
        let reader_source = ReaderSource::new(opened.opened, self.total);
        let source_transfer = SourceTransfer::new(
            self.how.representation,
            start,
            reader_source,
            alloc,
        )?;
        Ok(slot.foresee_carried(row, source_transfer))
    }

    /// The file, open at its first octet, where it is as it was.
    fn opened<R: LocalFiles>(&self, rt: &R) -> io::Result<Option<OpenSource>> {
        let Some(opened) = rt.open_source(self.file, 0)? else {
            return Ok(None);
        };
        let is_same = opened.total == self.total && opened.changed == self.changed;
        Ok(if is_same { Some(opened) } else { None })
    }

    /// What is asked, in this order: the upload, and the size of what stands there behind it.
    fn row(&self, alloc: Global) -> io::Result<Vec<Request, Global>> {
        let path = Text::copy_of(alloc, self.path.as_bytes())?;
        let stand_in = Text::copy_of(alloc, STAND_IN)?;
        let span = Span {
            start: 0,
            total: Some(self.total),
        };
        let put = Op::Put(path, stand_in, self.openings.how(self.how));
        let mut row = Vec::new(alloc);
        row.push(Request::Drawn(Some(put), span))?;
        if is_counted(self.how) {
            row.push(size_request(alloc, self.path, self.how)?)?;
        }
        Ok(row)
    }
}
