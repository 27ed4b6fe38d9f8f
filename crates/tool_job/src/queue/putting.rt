// A file that is one of several which are sent.
ghost use Rattle.std.specs.Prelude.{◌≡◌};

use crate::queue::queued_job::QueuedJob;
use crate::single::{FileSeen, Loaded, Target, UploadTooLarge, load};
use ftp_operation::Answer;
use std::alloc::Global;
use std::io;
use std::io::Eprint;
use tool_files::LocalFiles;
use tool_resume::{Sending, Uploading, tell_too_large};
use tool_session::{ClientSession, LastReply, Phase, SessionFault, SessionTask, Ticket, at};
use tool_terminal::Status;

/// How files are sent.
#[derive(Clone, Copy)]
pub struct UploadSettings<'a> {
    pub alloc: Global,
    /// What is asked, but for the path of a file.
    pub asked: Target<'a>,
}

/// What is at hand of a file that is sent.
enum Hand<'a, R> {
    /// It was not opened yet.
    Nothing,
    Upload(Uploading<'a, R>),
    /// It has more octets than may be.
    TooLarge(UploadTooLarge),
    /// It can't be read.
    Unread(SessionFault),
}

/// By hand: a derived drop is proved again, part by part, wherever one is let go.
impl<'a, R> Drop for Hand<'a, R> {
    fn drop(self) {
        match self {
            Hand::Nothing | Hand::TooLarge(_) | Hand::Unread(_) => {}
            Hand::Upload(_) => {}
        }
    }
}

/// Whether the first try of an upload is asked ahead of its turn.
#[derive(Clone, Copy)]
enum Prefetch<'a> {
    /// It is not: the file is not open yet, is held in memory, or had its turn.
    Off,
    /// It may be, of the file as it was opened.
    Due(Sending<'a>),
    /// It was, and is answered by this ticket.
    Asked(Sending<'a>, Ticket),
}

impl<'a> Prefetch<'a> {
    /// The same, where the control connections are gone over which it was asked.
    fn forgotten(self) -> Prefetch<'a> {
        match self {
            Prefetch::Asked(sending, _) => Prefetch::Due(sending),
            Prefetch::Off | Prefetch::Due(_) => self,
        }
    }

    /// By which its upload is answered, where it was asked.
    fn ticket(self) -> Option<Ticket> {
        match self {
            Prefetch::Asked(_, ticket) => Some(ticket),
            Prefetch::Off | Prefetch::Due(_) => None,
        }
    }
}

/// A file that is one of several which are sent.
pub struct QueuedUpload<'a, R> {
    rt: &'a R,
    putting: UploadSettings<'a>,
    file: &'a str,
    path: &'a str,
    hand: Hand<'a, R>,
    prefetch: Prefetch<'a>,
}

/// By hand, as above.
impl<'a, R> Drop for QueuedUpload<'a, R> {
    fn drop(self) {
        let Self {
            rt: _,
            putting: _,
            file: _,
            path: _,
            hand: _,
            prefetch: _,
        } = self;
    }
}

impl<'a, R: LocalFiles + Input + Eprint> QueuedUpload<'a, R> {
    /// The file of this end, which goes to a path of the server; nothing was asked of it yet.
    pub fn new(
        rt: &'a R,
        putting: UploadSettings<'a>,
        file: &'a str,
        path: &'a str,
    ) -> QueuedUpload<'a, R>
        // Witness: an equation; callers in `tool_get_put` need it.
        ensures { result.file.now ≡ file.now }
    {
        QueuedUpload {
            rt,
            putting,
            file,
            path,
            hand: Hand::Nothing,
            prefetch: Prefetch::Off,
        }
    }

    /// Opens a file of which nothing was asked yet.
    fn take_up(&mut self) {
        if !matches!(&self.hand, Hand::Nothing) {
            return;
        }
        let UploadSettings { alloc, asked } = self.putting;
        self.hand = match at(Phase::Reading, load(self.rt, alloc, self.file, asked.limit)) {
            Ok(Ok(loaded)) => self.uploading(loaded),
            Ok(Err(large)) => Hand::TooLarge(large),
            Err(stop) => Hand::Unread(stop),
        };
    }

    /// The upload of a file that is at hand; a file of a known size may be asked ahead.
    fn uploading(&mut self, loaded: Loaded<'a>) -> Hand<'a, R> {
        let UploadSettings { alloc, asked } = self.putting;
        let mut loaded = loaded;
        self.prefetch = match loaded.seen {
            Some(FileSeen { total, changed }) => Prefetch::Due(Sending {
                file: self.file,
                total,
                changed,
                path: self.path,
                how: asked.how,
                openings: asked.openings,
            }),
            None => Prefetch::Off,
        };
        match loaded.take_source() {
            Some(source) => Hand::Upload(Uploading::new(
                self.rt,
                alloc,
                source,
                self.path,
                asked.how,
                asked.openings,
            )),
            None => Hand::Nothing,
        }
    }

    fn asked(&self) -> Target<'a> {
        self.putting.asked
    }
}

impl<'a, R: LocalFiles + Input + Eprint> QueuedJob for QueuedUpload<'a, R> {
    ghost named = { λ upload. upload.file.now };

    fn foresee<S: ClientSession>(&mut self, slot: &mut S) {
        if self.is_ahead() {
            return;
        }
        self.take_up();
        if let Prefetch::Due(sending) = self.prefetch {
            let foreseen = sending.foresee(self.rt, self.putting.alloc, slot);
            if let Ok(Some(ticket)) = foreseen {
                self.prefetch = Prefetch::Asked(sending, ticket);
            }
        }
    }

    fn is_ahead(&self) -> bool {
        matches!(self.prefetch, Prefetch::Asked(_, _))
    }

    fn forget(&mut self) {
        self.prefetch = self.prefetch.forgotten();
    }

    fn ask<S: ClientSession>(&mut self, slot: &mut S) -> Result<Answer<Global>, SessionFault> {
        self.take_up();
        let ahead = self.prefetch.ticket();
        self.prefetch = Prefetch::Off;
        match &mut self.hand {
            Hand::Upload(uploading) => {
                uploading.go_by(ahead);
                uploading.play(slot)
            }
            Hand::Unread(stop) => Err(*stop),
            Hand::Nothing | Hand::TooLarge(_) => Ok(Answer::Done),
        }
    }

    fn reach(&self) -> u64 {
        0
    }

    fn goes_on(&self) -> bool {
        matches!(&self.hand, Hand::Upload(_))
    }

    fn leave(&mut self, answer: &Answer<Global>, last_reply: &LastReply) -> io::Result<Status> {
        self.take_up();
        let (rt, file) = (self.rt, self.file);
        let asked = self.asked();
        let subject = asked.subject(file);
        match &self.hand {
            Hand::Upload(uploading) => uploading.finish(answer, last_reply),
            Hand::TooLarge(large) => tell_too_large(rt, file, large.size, large.limit),
            Hand::Unread(stop) => stop.tell(rt, subject),
            Hand::Nothing => Ok(Status::Failed),
        }
    }

    fn stop(&mut self, stop: SessionFault) -> io::Result<Status> {
        self.take_up();
        let (rt, file) = (self.rt, self.file);
        let asked = self.asked();
        let subject = asked.subject(file);
        match &self.hand {
            Hand::TooLarge(large) => tell_too_large(rt, file, large.size, large.limit),
            Hand::Unread(stop) => stop.tell(rt, subject),
            Hand::Nothing | Hand::Upload(_) => stop.tell(rt, subject),
        }
    }

    fn abandon(&mut self) {}

    fn name(&self) -> &str {
        self.file
    }
}
