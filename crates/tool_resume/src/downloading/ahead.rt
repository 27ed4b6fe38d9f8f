// A download that is asked ahead of its turn.
ghost use Rattle.std.specs.Prelude.{◌≡◌};
ghost use Rattle.tool_resume.specs.Ahead.{is_foreseen};

use crate::download_tries::VersionCheck;
use crate::downloading::Downloading;
use crate::known_file::{asks_moment, asks_size};
use crate::retry::{moment_request, size_request};
use ftp_operation::Answer;
use std::alloc::{AllocError, Global};
use std::cell::Cell;
use std::io::Eprint;
use tool_files::LocalFiles;
use tool_session::{ClientSession, Request, Ticket};

impl<'a, R: LocalFiles + Eprint> Downloading<'a, R> {
    /// Asks ahead of its turn what its first try asks, where a control connection is free for that: which file the server has, all of it, and again which file
    /// the server has. What comes goes to the part as it comes; where there is none, or something came before, nothing is asked.
    pub fn foresee<S: ClientSession>(&mut self, slot: &mut S) {
        if !is_foreseen(
            self.is_ahead(),
            self.came.part().is_some(),
            self.came.count(),
        ) {
            return;
        }
        if let Ok(row) = self.row() {
            self.ask_ahead(slot, row);
        }
    }

    /// Asks these in a row over a control connection that is free for the first of them.
    fn ask_ahead<S: ClientSession>(&mut self, slot: &mut S, row: Vec<Request, Global>) {
        let is_taken = match row.first() {
            Some(first) => slot.takes(first),
            None => false,
        };
        if !is_taken {
            return;
        }
        if let Ok(Some(sink_transfer)) = self
            .came
            .sink_transfer(self.alloc, self.how.representation)
        {
            self.file.asked_at = self.rt.present();
            self.ahead = slot.foresee_carried(row, sink_transfer);
        }
    }

    /// Whether it was asked ahead, and its turn did not come yet.
    pub fn is_ahead(&self) -> bool {
        self.ahead.is_some()
    }

    /// The control connections over which it was asked ahead are gone: what came over them is left.
    pub fn forget_ahead(&mut self) {
        if self.ahead.take().is_some() {
            self.came.cut(0);
        }
    }

    /// What its first try asks, in this order, where all comes.
    fn row(&self) -> Result<Vec<Request, Global>, AllocError> {
        let mut row = Vec::new(self.alloc);
        if matches!(self.check, VersionCheck::Asked) {
            self.put_questions(&mut row)?;
        }
        row.push(self.request()?)?;
        self.put_questions(&mut row)?;
        Ok(row)
    }

    /// The questions by which it knows which file the server has.
    fn put_questions(&self, row: &mut Vec<Request, Global>) -> Result<(), AllocError> {
        if asks_size(self.file.size) {
            row.push(size_request(self.alloc, self.path.as_str(), self.how)?)?;
        }
        if asks_moment(self.file.moment) {
            row.push(moment_request(self.alloc, self.path.as_str())?)?;
        }
        Ok(())
    }

    /// What is answered to a first try that was asked ahead, if that is given; else what it brought to the part is left.
    pub(crate) fn answer_ahead<S: ClientSession>(
        &mut self,
        slot: &mut S,
        request: &Request,
    ) -> Option<Answer<Global>> {
        let ticket = self.ahead?;
        let home = Cell::new(None);
        match slot.answer_ahead(ticket, request, &home) {
            Some(answer) => {
                self.ahead = None;
                self.take_poured(home, &answer);
                Some(answer)
            }
            None => {
                self.forget_ahead();
                None
            }
        }
    }
}

/// Whether a download is asked ahead that was asked so before or not, with a part to which it goes or without, and of which so many octets came.
fn is_foreseen(is_ahead: bool, has_part: bool, came: u64) -> bool
    // Witness: an equation; `edits/what_came_before_is_asked_for_again_ahead`.
    ensures { result ≡ is_foreseen is_ahead has_part came }
{
    !is_ahead && has_part && came == 0
}
