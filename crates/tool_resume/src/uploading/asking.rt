// What a try of an upload asks, and the answer to it.
use crate::source::{FileUploadStream, STAND_IN};
use crate::uploading::Uploading;
use ftp_facts::Text;
use ftp_operation::{Answer, Op};
use std::alloc::{AllocError, Global};
use std::cell::Cell;
use std::io;
use std::io::Eprint;
use tool_files::LocalFiles;
use tool_session::{ClientSession, Request};
use tool_terminal::Span;

impl<'a, R: LocalFiles + Eprint> Uploading<'a, R> {
    /// What the server answers to a try; where it does not know how its data connection is asked for, to the same asked for otherwise.
    pub(crate) fn asked<S: ClientSession>(
        &mut self,
        slot: &mut S,
        from: u64,
    ) -> io::Result<Answer<Global>> {
        let opened = slot.opened();
        let answer = self.asked_once(slot, from)?;
        if !self
            .openings
            .hear(&answer, self.how, slot.opened() > opened)
        {
            return Ok(answer);
        }
        drop(answer);
        self.asked_once(slot, from)
    }

    /// What the server answers to a try.
    fn asked_once<S: ClientSession>(
        &mut self,
        slot: &mut S,
        from: u64,
    ) -> io::Result<Answer<Global>> {
        let source_transfer = self
            .source
            .source_transfer(self.rt, self.alloc, self.how, from)?;
        match source_transfer {
            Some(source_transfer) => self.answer_streamed(slot, from, source_transfer),
            None => self.answer_held(slot, from),
        }
    }

    /// Octets that stay here: a copy of them goes.
    fn answer_held<S: ClientSession>(
        &mut self,
        slot: &mut S,
        from: u64,
    ) -> io::Result<Answer<Global>> {
        let octets = self.source.copy_from(self.alloc, from)?;
        Ok(slot.answer(Request::One(Some(self.operation(from, octets)?))))
    }

    /// Octets of a file are read as they go; where that fails, the try failed, whatever was answered.
    fn answer_streamed<S: ClientSession>(
        &mut self,
        slot: &mut S,
        from: u64,
        source_transfer: FileUploadStream,
    ) -> io::Result<Answer<Global>> {
        let stand_in = Vec::from_slice(self.alloc, STAND_IN)?;
        let span = Span {
            start: from,
            total: Some(self.upload.total),
        };
        let request = Request::Drawn(Some(self.operation(from, stand_in)?), span);
        let home = Cell::new(Some(source_transfer));
        let answer = match self.answered_ahead(slot, &request, &home) {
            Some(answer) => answer,
            None => slot.answer_carried(request, &home),
        };
        let is_done = matches!(&answer, Answer::Done);
        match self.source.fault(home.into_inner(), is_done) {
            None => Ok(answer),
            Some(error) => {
                drop(answer);
                Err(error)
            }
        }
    }

    /// What is answered to a first try that was asked ahead, if that is given; then what went is in the cell.
    fn answered_ahead<S: ClientSession>(
        &mut self,
        slot: &mut S,
        request: &Request,
        home: &Cell<Option<FileUploadStream>>,
    ) -> Option<Answer<Global>> {
        let ticket = self.ahead.take()?;
        slot.answer_ahead(ticket, request, home)
    }

    /// What is asked for a try.
    fn operation(&self, from: u64, octets: Vec<u8, Global>) -> io::Result<Op<Text<Global>>> {
        let path = self.path()?;
        let octets = Text::from_vec(octets);
        let how = self.openings.how(self.how);
        Ok(if from == 0 {
            Op::Put(path, octets, how)
        } else {
            Op::PutFrom(path, from, octets, how)
        })
    }

    /// The path at the server, for a request. Fails where memory is refused.
    pub(crate) fn path(&self) -> Result<Text<Global>, AllocError> {
        Text::copy_of(self.alloc, self.path.as_bytes())
    }
}
