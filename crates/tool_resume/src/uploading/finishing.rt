// What is told of an upload that the server answered, and its exit status.
ghost use Rattle.std.specs.Prelude.{◌≡◌, IfOk};
ghost use Rattle.tool_resume.specs.Uploading.{done_status, upload_status};

use crate::telling::{ToldPart, tell};
use crate::uploading::{Uploading, Wrong};
use ftp_operation::Answer;
use ftp_reply::code::UNAVAILABLE;
use std::alloc::Global;
use std::io;
use std::io::Eprint;
use tool_files::LocalFiles;
use tool_session::{LastReply, say};
use tool_terminal::Status;

impl<'a, R: LocalFiles + Eprint> Uploading<'a, R> {
    /// Tells on standard error how many tries the upload took, or why it is not done, and gives the exit status. `last_reply` is what the server said last.
    /// Fails where standard error can't be written.
    pub fn finish(&self, answer: &Answer<Global>, last_reply: &LastReply) -> io::Result<Status>
        // Witness: `edits/an_upload_of_fewer_octets_is_done`.
        ensures { IfOk result (λ status. status ≡ upload_status answer.now self.now.wrong) }
    {
        match answer {
            Answer::Done => self.finish_done(last_reply),
            _ => {
                let stranger = self.openings.stranger(self.how);
                let status = tell(self.rt, self.path, stranger, answer, last_reply)?;
                Ok(status)
            }
        }
    }

    /// The same of one that the server says is done.
    fn finish_done(&self, last_reply: &LastReply) -> io::Result<Status>
        ensures { IfOk result (λ status. status ≡ done_status self.now.wrong) }
    {
        match self.wrong {
            None => self.tell_tries(last_reply.opened().saturating_sub(self.read_backs)),
            Some(Wrong::Octets(count)) => self.tell_wrong(count),
            Some(Wrong::Nothing) => self.tell_missing(last_reply),
        }
    }

    /// Tells how many tries the upload took, where it was more than one: each has a data connection of its own.
    fn tell_tries(&self, tries: u32) -> io::Result<Status>
        ensures { IfOk result (λ status. status ≡ Status.Done) }
    {
        if tries > 1 {
            say(self.rt, "note: the upload took ", &tries, " tries")?;
        }
        Ok(Status::Done)
    }

    /// Tells that the server has not what it says that it has.
    fn tell_wrong(&self, count: u64) -> io::Result<Status>
        ensures { IfOk result (λ status. status ≡ Status.Refused) }
    {
        let part = ToldPart {
            count,
            between: " octets of a file that has ",
            total: self.upload.total,
        };
        say(
            self.rt,
            "error: the server says that it is done, and has ",
            &part,
            "",
        )?;
        Ok(Status::Refused)
    }

    /// Tells that the server says that it is done, and then that there is no such file: some servers take a file away at once.
    fn tell_missing(&self, last_reply: &LastReply) -> io::Result<Status>
        ensures { IfOk result (λ status. status ≡ Status.Done) }
    {
        say(
            self.rt,
            "note: the server says that it is done, and then that it has no such file: ",
            &last_reply.refusal(UNAVAILABLE),
            "",
        )?;
        Ok(Status::Done)
    }
}
