// Which file the server has: its size and its moment, asked before and after a try.
use crate::downloading::Downloading;
use crate::known_file::{answers_more, asks_moment, asks_size, is_moment_told, moment_by, size_by};
use crate::retry::{moment_request, size_request};
use crate::version::size_told;
use ftp_operation::Answer;
use std::alloc::{AllocError, Global};
use std::io::Eprint;
use tool_files::LocalFiles;
use tool_session::{ClientSession, Request};

impl<'a, R: LocalFiles + Eprint> Downloading<'a, R> {
    /// Asks which file the server has: for its size and its moment. Says whether anything more is answered over this control connection.
    pub(crate) fn look<S: ClientSession>(&mut self, slot: &mut S) -> bool {
        if !self.is_ahead() {
            self.file.asked_at = self.rt.present();
        }
        (!asks_size(self.file.size) || self.look_at_size(slot))
            && (!asks_moment(self.file.moment) || self.look_at_moment(slot))
    }

    /// The same after a try; what the server did not tell before it is not asked for.
    pub(crate) fn look_again<S: ClientSession>(&mut self, slot: &mut S) -> bool {
        (size_told(self.file.size).is_none() || self.look_at_size(slot))
            && (!is_moment_told(self.file.moment) || self.look_at_moment(slot))
    }

    /// Asks for the size; says whether anything more is answered over this control connection.
    fn look_at_size<S: ClientSession>(&mut self, slot: &mut S) -> bool {
        let request = size_request(self.alloc, self.path.as_str(), self.how);
        let answer = answer_to(slot, request);
        self.file.size = size_by(&answer, self.file.size);
        answers_more(&answer)
    }

    /// Asks for the moment; says whether anything more is answered over this control connection.
    fn look_at_moment<S: ClientSession>(&mut self, slot: &mut S) -> bool {
        let answer = answer_to(slot, moment_request(self.alloc, self.path.as_str()));
        self.file.moment = moment_by(&answer, self.file.moment);
        answers_more(&answer)
    }
}

/// What is answered to a question, if memory is not refused for it.
fn answer_to<S: ClientSession>(
    slot: &mut S,
    request: Result<Request, AllocError>,
) -> Answer<Global> {
    match request {
        Ok(request) => slot.answer(request),
        Err(AllocError) => Answer::Memory,
    }
}
