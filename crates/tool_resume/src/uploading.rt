// An upload, which goes on where the server has it: over breaks, and where a 226 came and not all is there.
ghost use Rattle.std.specs.Prelude.{◌≡◌};
ghost use Rattle.tool_resume.specs.Uploading.{is_left_out, look_after};

mod asking;
mod finishing;
mod front;

use crate::retry::{ended_of, is_counted, size_request, there_of};
use crate::source::UploadSource;
use crate::step::{NextStep, There, TransferState, follows, is_size_asked_after};
use crate::telling::{Had, ToldPart};
use ftp_client_steps::MOST_TRIES;
use ftp_operation::{Answer, How};
use std::alloc::{AllocError, Global};
use std::io;
use std::io::Eprint;
use tool_files::LocalFiles;
use tool_session::{ClientSession, Openings, Phase, SessionFault, SessionTask, Ticket, at, say};

/// What a server tells of an upload that it said is done, where that is not the file.
#[derive(Clone, Copy)]
pub enum Wrong {
    /// So many octets.
    Octets(u64),
    /// That there is no such file, as where it takes each away at once.
    Nothing,
}

/// Whether the size of what stands there is asked for before a first try over a control connection.
#[derive(Clone, Copy)]
pub(crate) enum FirstLook {
    /// It is, where SIZE counts the octets of the transfer.
    Asked,
    /// It is not: a control connection ended behind that question.
    LeftOut,
}

/// An upload, until the server answers to it. It goes on behind what the server has only where the end of that is read back, and is the source's own.
pub struct Uploading<'a, R> {
    rt: &'a R,
    alloc: Global,
    /// What its notes begin with.
    head: &'a str,
    source: UploadSource<'a>,
    path: &'a str,
    how: How,
    openings: &'a Openings,
    upload: TransferState,
    first_look: FirstLook,
    wrong: Option<Wrong>,
    /// By which its first try is answered, where that was asked ahead.
    ahead: Option<Ticket>,
    /// How many data connections brought fronts back that the server has.
    read_backs: u32,
}

/// By hand: a derived drop is proved again, part by part, wherever an upload is let go.
impl<'a, R> Drop for Uploading<'a, R> {
    fn drop(self) {
        let Self {
            rt: _,
            alloc: _,
            head: _,
            source: _,
            path: _,
            how: _,
            openings: _,
            upload: _,
            first_look: _,
            wrong: _,
            ahead: _,
            read_backs: _,
        } = self;
    }
}

impl<'a, R: LocalFiles + Eprint> Uploading<'a, R> {
    /// These octets are to be at a path of a server.
    pub fn new(
        rt: &'a R,
        alloc: Global,
        source: UploadSource<'a>,
        path: &'a str,
        how: How,
        openings: &'a Openings,
    ) -> Uploading<'a, R> {
        Uploading {
            rt,
            alloc,
            head: "note: ",
            upload: TransferState {
                total: source.total(),
                left: MOST_TRIES,
                older: There::Untold,
            },
            source,
            path,
            how,
            openings,
            first_look: FirstLook::Asked,
            wrong: None,
            ahead: None,
            read_backs: 0,
        }
    }

    /// Its notes begin so, where there are several.
    pub fn begin_notes(&mut self, head: &'a str) {
        self.head = head;
    }

    /// Whether a control connection ended behind the question for the size of what stands there, so that it is not asked before a first try any more.
    pub fn is_blind(&self) -> bool
        ensures { result ≡ is_left_out self.now.first_look }
    {
        match self.first_look {
            FirstLook::Asked => false,
            FirstLook::LeftOut => true,
        }
    }

    /// That is so, of an upload before this one.
    pub fn blind(&mut self) {
        self.first_look = FirstLook::LeftOut;
    }

    /// Its first try was asked ahead over these control connections, and is answered by this ticket; none: it was not.
    pub fn go_by(&mut self, ahead: Option<Ticket>) {
        self.ahead = ahead;
    }

    /// What the server has of an upload that it says is done, where that is not the file.
    pub fn wrong(&self) -> Option<Wrong>
        ensures { result ≡ self.now.wrong }
    {
        self.wrong
    }

    /// Tries until the server answers, over this control connection. `Answer::Lost`: it goes on over another one. Fails where the file can't be read, has
    /// another size or moment than when it was opened first, or memory is refused.
    pub fn answer<S: ClientSession>(&mut self, slot: &mut S) -> io::Result<Answer<Global>> {
        if !self.look(slot) {
            return Ok(Answer::Lost);
        }
        let mut from = 0;
        for _ in 0..self.upload.left {
            match self.turn(slot, from)? {
                UploadTurn::From(next) => from = next,
                UploadTurn::Over(answer) => return Ok(answer),
            }
        }
        Ok(Answer::Lost)
    }

    /// Asks for the size of what stands there before the first try; says whether tries may follow over this control connection.
    fn look<S: ClientSession>(&mut self, slot: &mut S) -> bool {
        if !is_counted(self.how) || self.is_blind() {
            return true;
        }
        self.upload.older = self.size(slot);
        self.first_look = look_after(self.upload.older);
        !self.is_blind()
    }

    /// The size of what stands there.
    fn size<S: ClientSession>(&self, slot: &mut S) -> There {
        match size_request(self.alloc, self.path, self.how) {
            Ok(request) => {
                let answer = slot.answer(request);
                let there = there_of(&answer);
                drop(answer);
                there
            }
            Err(AllocError) => There::Untold,
        }
    }

    /// One try, from an octet of the file on: where the next one begins, or the answer where there is none.
    fn turn<S: ClientSession>(&mut self, slot: &mut S, from: u64) -> io::Result<UploadTurn> {
        let opened = slot.opened();
        self.upload.left = self.upload.left.saturating_sub(1);
        let answer = self.asked(slot, from)?;
        let step = self.step_behind(slot, &answer, slot.opened() > opened);
        let step = self.step_seen(slot, step)?;
        Ok(self.follow(answer, step, from))
    }

    /// What follows a try that was answered so, with a data connection or without.
    fn step_behind<S: ClientSession>(
        &self,
        slot: &mut S,
        answer: &Answer<Global>,
        is_opened: bool,
    ) -> NextStep {
        let Some(ended) = ended_of(answer, is_opened, false) else {
            return NextStep::Tell;
        };
        if !is_counted(self.how) {
            return NextStep::Tell;
        }
        let there = if is_size_asked_after(ended, self.upload.left) {
            self.size(slot)
        } else {
            There::Untold
        };
        follows(self.upload, ended, there)
    }

    /// Takes a step. An answer that is none of the end is let go by a call: where it is let go at an arm's end, it is proved part by part.
    fn follow(&mut self, answer: Answer<Global>, step: NextStep, from: u64) -> UploadTurn {
        match step {
            NextStep::From(next) => {
                drop(answer);
                self.go_on(next);
                UploadTurn::From(next)
            }
            NextStep::Again => {
                drop(answer);
                UploadTurn::From(from)
            }
            NextStep::Lost => {
                drop(answer);
                UploadTurn::Over(Answer::Lost)
            }
            NextStep::Wrong(count) => {
                self.wrong = Some(Wrong::Octets(count));
                UploadTurn::Over(answer)
            }
            NextStep::Missing => {
                self.wrong = Some(Wrong::Nothing);
                UploadTurn::Over(answer)
            }
            NextStep::Done | NextStep::Tell => UploadTurn::Over(answer),
        }
    }

    /// Tells from where the upload goes on. What the server has then is known to be of this upload, unless it begins anew.
    fn go_on(&mut self, from: u64) {
        if from == 0 {
            let _told = say(self.rt, self.head, &"the upload begins anew", "");
            return;
        }
        self.upload.older = There::Nothing;
        let part = ToldPart {
            count: from,
            between: " of ",
            total: self.upload.total,
        };
        let _told = say(self.rt, self.head, &Had { part }, " octets; going on");
    }
}

impl<'a, R: LocalFiles + Eprint> SessionTask<Result<Answer<Global>, SessionFault>>
    for Uploading<'a, R> {
    fn play<S: ClientSession>(&mut self, slot: &mut S) -> Result<Answer<Global>, SessionFault> {
        at(Phase::Reading, self.answer(slot))
    }
}

/// What a try leads to.
#[derive(Drop)]
enum UploadTurn {
    /// Another try, from this octet of the file on.
    From(u64),
    /// This answer, over this control connection.
    Over(Answer<Global>),
}

/// Whether the size is asked for over the next control connection, where this was told of it over the one before.
fn look_after(older: There) -> FirstLook
    // Witness: an equation; `edits/a_size_that_is_not_told_is_not_asked_for_again`.
    ensures { result ≡ look_after older }
{
    match older {
        There::Lost => FirstLook::LeftOut,
        There::Octets(_) | There::Nothing | There::Untold => FirstLook::Asked,
    }
}
