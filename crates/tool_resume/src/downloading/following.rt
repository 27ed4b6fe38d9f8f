// What follows a try of a download, and what is told of it.
use crate::download_tries::{
    VersionCheck, counted_octets, follows_download, is_asked_after, is_said,
};
use crate::downloading::{DownloadTurn, Downloading, over_with};
use crate::retry::ended_of;
use crate::step::{Ended, NextStep};
use crate::telling::ToldPart;
use crate::version::size_told;
use ftp_operation::Answer;
use std::alloc::Global;
use std::io::Eprint;
use tool_files::LocalFiles;
use tool_session::{ClientSession, DataEnding, say};

/// What is told where a part of an earlier run is not gone on with.
const OTHER_PART: &str = "the end of its part is not the server's; the download begins anew";

impl<'a, R: LocalFiles + Eprint> Downloading<'a, R> {
    /// What follows a try that was answered so, with a data connection or without.
    pub(crate) fn step_behind<S: ClientSession>(
        &mut self,
        slot: &mut S,
        answer: &Answer<Global>,
        is_opened: bool,
    ) -> NextStep {
        let is_unended = slot.ending() == DataEnding::Unended;
        match ended_of(answer, is_opened, is_unended) {
            Some(ended) => self.judge(slot, ended),
            None => NextStep::Tell,
        }
    }

    /// What follows a try that ended so. Which file the server has is asked where anything may follow.
    fn judge<S: ClientSession>(&mut self, slot: &mut S, ended: Ended) -> NextStep {
        let is_asked = is_asked_after(ended, size_told(self.file.size), self.left);
        let now = if !is_asked || self.look_again(slot) {
            Some(self.version())
        } else {
            None
        };
        if is_said(ended, now) {
            self.check = VersionCheck::Said;
        }
        let came = counted_octets(ended, self.came.count(), self.came.seen());
        follows_download(self.left, ended, came, self.begun, now)
    }

    /// Takes a step.
    pub(crate) fn follow(&mut self, answer: Answer<Global>, step: NextStep) -> DownloadTurn {
        match step {
            NextStep::From(next) => {
                drop(answer);
                self.go_on(next);
                DownloadTurn::GoesOn
            }
            NextStep::Again => {
                drop(answer);
                DownloadTurn::GoesOn
            }
            NextStep::Lost => over_with(answer, Answer::Lost),
            NextStep::Done => over_with(answer, Answer::Done),
            NextStep::Tell | NextStep::Wrong(_) | NextStep::Missing => DownloadTurn::Over(answer),
        }
    }

    /// Nothing came; the note of the part, if it has one, is of another file.
    fn begin_anew(&mut self) {
        self.came.cut(0);
        if let Some(noting) = &mut self.noting {
            noting.forget();
        }
    }

    /// The part of an earlier run is of another file: the download begins anew, unless this was the last try.
    pub(crate) fn leave_part(&mut self, answer: Answer<Global>) -> DownloadTurn {
        self.begun = self.version();
        self.begin_anew();
        let head = self.head.as_str();
        let _told = say(self.rt, head, &OTHER_PART, "");
        if self.left == 0 || matches!(&answer, Answer::Lost) {
            return DownloadTurn::Over(answer);
        }
        drop(answer);
        DownloadTurn::GoesOn
    }

    /// Tells from where the download goes on; where that is not after what came, it begins anew, with the file that the server has now.
    pub(crate) fn go_on(&mut self, from: u64) {
        let is_anew = from != self.came.count();
        if from == 0 {
            self.begun = self.version();
        }
        if is_anew {
            self.begin_anew();
            let _told = say(self.rt, self.head.as_str(), &"the download begins anew", "");
        } else if let Some(total) = size_told(self.file.size) {
            let part = ToldPart {
                count: from,
                between: " of ",
                total,
            };
            let _told = say(self.rt, self.head.as_str(), &part, " octets came; going on");
        }
    }
}
