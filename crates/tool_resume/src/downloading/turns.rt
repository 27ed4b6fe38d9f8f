// The tries of a download over one control connection, one after another.
use crate::download_tries::{TryResult, VersionCheck, follows_download, try_result};
use crate::downloading::{DownloadTurn, Downloading, over_with};
use crate::step::Ended;
use crate::version::{Size, is_too_large, resumes};
use ftp_operation::Answer;
use std::alloc::Global;
use std::io;
use std::io::Eprint;
use tool_files::LocalFiles;
use tool_session::ClientSession;

impl<'a, R: LocalFiles + Eprint> Downloading<'a, R> {
    /// Tries until the server answers: over this control connection, after what came over those before. `Answer::Lost`: it goes on over another one.
    pub fn answer<S: ClientSession>(&mut self, slot: &mut S) -> Answer<Global> {
        if matches!(self.check, VersionCheck::Listed) {
            self.check = VersionCheck::Asked;
            return self.tries(slot);
        }
        match self.begin(slot) {
            DownloadTurn::GoesOn => self.tries(slot),
            DownloadTurn::Over(answer) => answer,
        }
    }

    /// Tries while a try is left.
    fn tries<S: ClientSession>(&mut self, slot: &mut S) -> Answer<Global> {
        for _ in 0..self.left {
            match self.turn(slot) {
                DownloadTurn::GoesOn => {}
                DownloadTurn::Over(answer) => return answer,
            }
        }
        Answer::Lost
    }

    /// Asks which file the server has before the first try over a control connection. Where it said before that it is done, that is judged by it; else
    /// the download goes on after what came, where that is of this file.
    fn begin<S: ClientSession>(&mut self, slot: &mut S) -> DownloadTurn {
        if !self.look(slot) {
            return DownloadTurn::Over(Answer::Lost);
        }
        if is_too_large(self.limit, self.file.size) {
            return DownloadTurn::Over(Answer::Done);
        }
        let check = self.check;
        self.check = VersionCheck::Asked;
        match check {
            VersionCheck::Said => self.judge_said(),
            VersionCheck::Asked | VersionCheck::Listed => self.take_up(),
        }
    }

    /// Judges by the file that the server has now what it said over the control connection of before, that it is done.
    fn judge_said(&mut self) -> DownloadTurn {
        let now = Some(self.version());
        let step = follows_download(self.left, Ended::Done, self.came.count(), self.begun, now);
        self.follow(Answer::Done, step)
    }

    /// Goes on after what came over the control connections before, where that is of the file that the server has now.
    fn take_up(&mut self) -> DownloadTurn {
        let came = self.came.count();
        if came > 0 {
            self.go_on(resumes(self.begun, self.version(), came));
        } else {
            self.begun = self.version();
        }
        DownloadTurn::GoesOn
    }

    /// One try, behind what came so far.
    fn turn<S: ClientSession>(&mut self, slot: &mut S) -> DownloadTurn {
        let opened = slot.opened();
        let before = self.came.count();
        let was_ahead = self.is_ahead();
        self.left = self.left.saturating_sub(1);
        self.note();
        let Ok(asked) = self.asked(slot) else {
            return DownloadTurn::Over(Answer::Memory);
        };
        let answer = self.take(asked, slot.came(), before);
        match try_result(self.came.fault(), self.came.owner(), slot.ending()) {
            TryResult::Unwritten => return over_with(answer, Answer::Memory),
            TryResult::OtherPart => return self.leave_part(answer),
            TryResult::PastLimit => {
                self.file.size = Size::Past;
                return over_with(answer, Answer::Done);
            }
            TryResult::Answered => {}
        }
        if !was_ahead {
            self.file.asked_at = self.rt.present();
        }
        let step = self.step_behind(slot, &answer, slot.opened() > opened);
        self.follow(answer, step)
    }

    /// Writes the note of the part before it grows, where one is to stand.
    fn note(&mut self) {
        let (Some(noting), Some(part)) = (&mut self.noting, self.came.part()) else {
            return;
        };
        if let Err(error) = noting.begin(self.rt, self.alloc, part, self.begun) {
            self.came.fail(error);
        }
    }

    /// The octets of the part are on the disk then, and where a note is to stand, it says how many they are. Fails where one can't be written.
    pub fn keep(&self) -> io::Result<()> {
        let Some(part) = self.came.part() else {
            return Ok(());
        };
        part.flush()?;
        if let Some(noting) = &self.noting {
            noting.write(self.rt, self.alloc, part, self.begun, self.came.count())?;
        }
        Ok(())
    }
}
