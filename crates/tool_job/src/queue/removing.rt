// A file that is one of several which are removed.
ghost use Rattle.std.specs.Prelude.{◌≡◌, IfOk, string_bytes};
ghost use Rattle.tool_job.specs.queue.Removing.{removal};

use crate::queue::queued_job::QueuedJob;
use crate::single::{Target, report};
use ftp_facts::Text;
use ftp_operation::{Answer, Op};
use std::alloc::{AllocError, Global};
use std::io;
use std::io::{Eprint, Print};
use tool_session::{ClientSession, LastReply, Request, SessionFault};
use tool_terminal::Status;

/// A file that is one of several which are removed: it is asked once.
pub struct Removed<'a, R> {
    rt: &'a R,
    alloc: Global,
    /// What is asked, but for the path of the file.
    asked: Target<'a>,
    path: String<Global>,
    /// Whether it was asked ahead, over control connections that are still there.
    is_ahead: bool,
}

/// By hand: a derived drop is proved again, part by part, wherever one is let go.
impl<'a, R> Drop for Removed<'a, R> {
    fn drop(self) {
        let Self {
            rt: _,
            alloc: _,
            asked: _,
            path: _,
            is_ahead: _,
        } = self;
    }
}

impl<'a, R: Print + Eprint> Removed<'a, R> {
    /// The file at a path, of which nothing was asked yet; `asked` says all but the path.
    pub fn new(rt: &'a R, alloc: Global, asked: Target<'a>, path: String<Global>) -> Removed<'a, R>
        // Witness: an equation; callers in `tool_get_put` need it.
        ensures { string_bytes result.path ≡ string_bytes path }
    {
        Removed {
            rt,
            alloc,
            asked,
            path,
            is_ahead: false,
        }
    }

    /// What is asked. Fails where memory is refused.
    fn request(&self) -> Result<Request, AllocError> {
        removal(self.alloc, self.path.as_str())
    }

    /// What is asked of the file.
    fn asked(&self) -> Target<'_> {
        self.asked.at(self.path.as_str())
    }
}

/// The request that a file at a path is removed (DELE, RFC 959, section 4.1.3).
fn removal(alloc: Global, path: &str) -> Result<Request, AllocError>
    // Witness: an equation; `edits/a_directory_is_removed_for_a_file`.
    ensures { IfOk result (λ request. request ≡ removal path.now) }
{
    let path = Text::copy_of(alloc, path.as_bytes())?;
    Ok(Request::One(Some(Op::Delete(path))))
}

impl<'a, R: Print + Eprint> QueuedJob for Removed<'a, R> {
    ghost named = { λ removed. string_bytes removed.path };

    fn foresee<S: ClientSession>(&mut self, slot: &mut S) {
        if self.is_ahead {
            return;
        }
        if let Ok(request) = self.request() {
            self.is_ahead = slot.takes(&request);
            slot.foresee(request);
        }
    }

    fn is_ahead(&self) -> bool {
        self.is_ahead
    }

    fn forget(&mut self) {
        self.is_ahead = false;
    }

    fn ask<S: ClientSession>(&mut self, slot: &mut S) -> Result<Answer<Global>, SessionFault> {
        match self.request() {
            Ok(request) => Ok(slot.answer(request)),
            Err(AllocError) => Ok(Answer::Memory),
        }
    }

    fn reach(&self) -> u64 {
        0
    }

    fn goes_on(&self) -> bool {
        false
    }

    fn leave(&mut self, answer: &Answer<Global>, last_reply: &LastReply) -> io::Result<Status> {
        report(self.rt, &self.asked(), answer, last_reply)
    }

    fn stop(&mut self, stop: SessionFault) -> io::Result<Status> {
        let asked = self.asked();
        let subject = asked.subject("-");
        stop.tell(self.rt, subject)
    }

    fn abandon(&mut self) {}

    fn name(&self) -> &str {
        self.path.as_str()
    }
}
