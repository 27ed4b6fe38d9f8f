// What a try of a download asks, and the answer to it.
use crate::downloading::Downloading;
use crate::received::poured;
use crate::version::size_told;
use ftp_facts::Text;
use ftp_operation::{Answer, Op};
use std::alloc::{AllocError, Global};
use std::cell::Cell;
use std::io::Eprint;
use tool_files::LocalFiles;
use tool_session::{ClientSession, FileDownloadStream, Request, Terms};

impl<'a, R: LocalFiles + Eprint> Downloading<'a, R> {
    /// What the server answers to a try; where it does not know how its data connection is asked for, to the same asked for otherwise.
    /// Fails where memory is refused.
    pub(crate) fn asked<S: ClientSession>(
        &mut self,
        slot: &mut S,
    ) -> Result<Answer<Global>, AllocError> {
        let opened = slot.opened();
        let answer = self.asked_once(slot)?;
        if !self
            .openings
            .hear(&answer, self.how, slot.opened() > opened)
        {
            return Ok(answer);
        }
        drop(answer);
        self.asked_once(slot)
    }

    /// What the server answers to a try. Where there is a part, octets go there.
    fn asked_once<S: ClientSession>(&mut self, slot: &mut S) -> Result<Answer<Global>, AllocError> {
        let request = self.request()?;
        if let Some(answer) = self.answer_ahead(slot, &request) {
            return Ok(answer);
        }
        let settings = self.how.representation;
        let Some(sink_transfer) = self.came.sink_transfer(self.alloc, settings)? else {
            return Ok(slot.answer(request));
        };
        let home = Cell::new(Some(sink_transfer));
        let answer = slot.answer_carried(request, &home);
        self.take_poured(home, &answer);
        Ok(answer)
    }

    /// What went to the part before this was answered.
    pub(crate) fn take_poured(
        &mut self,
        home: Cell<Option<FileDownloadStream>>,
        answer: &Answer<Global>,
    ) {
        let (count, fault) = poured(home.into_inner(), answer);
        self.came
            .took(count, fault, matches!(answer, Answer::Octets(_)));
    }

    /// What is asked for a try: the file from the octet on that is wanted next, up to the limit.
    pub(crate) fn request(&self) -> Result<Request, AllocError> {
        let path = Text::copy_of(self.alloc, self.path.as_bytes())?;
        let how = self.openings.how(self.how);
        let from = self.came.start();
        let op = match from {
            0 => Op::Get(path, how),
            from => Op::GetFrom(path, from, how),
        };
        let terms = Terms {
            most: self.limit.saturating_sub(from),
            total: size_told(self.file.size),
        };
        Ok(Request::Download(Some(op), terms))
    }
}
