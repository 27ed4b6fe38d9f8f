// A listing over a control connection of its own.
use crate::single::looking::{listing_of_file, may_be_file, settles};
use crate::single::target::Target;
use ftp_facts::Text;
use ftp_operation::{Answer, How, ListVerb, Op};
use ftp_reply::code::UNAVAILABLE;
use std::alloc::{AllocError, Global};
use std::io::{Eprint, Error, ErrorKind};
use tool_connect::{Converses, Logins, ask};
use tool_listing::lists_nothing;
use tool_location::{last_part, says_directory};
use tool_session::{
    ClientSession, DataEnding, LastReply, Openings, Phase, Request, SessionFault, SessionTask, at,
};

/// What is wished for at a place.
#[derive(Clone, Copy)]
pub enum Wish {
    /// The entries, as text: by MLSD with their facts, or by LIST where the server does not know that.
    Entries,
    /// The names of the files alone, by NLST.
    Names,
}

/// Asks for a listing, and gives what the server answered; `last_reply` is what it said last. Where its control connection ends, it is asked anew over another
/// one. Fails where nothing could be asked, or a listing has more than 1,000,000 entries.
pub fn ask_for<R>(
    rt: &R,
    alloc: Global,
    asked: &Target<'_>,
    wish: Wish,
    last_reply: &mut LastReply,
) -> Result<Answer<Global>, SessionFault>
where
    R: Converses + Logins + Eprint,
{
    let mut single = Single {
        alloc,
        path: asked.place.path,
        how: asked.how,
        openings: asked.openings,
        wish,
    };
    ask_at(rt, asked, last_reply, &mut single)
}

/// Does a task that asks at a place, by its user. Where its control connection ends, it is done anew over another one.
pub(crate) fn ask_at<R, P>(
    rt: &R,
    asked: &Target<'_>,
    last_reply: &mut LastReply,
    task: &mut P,
) -> Result<Answer<Global>, SessionFault>
where
    R: Converses + Logins + Eprint,
    P: SessionTask<Result<Answer<Global>, SessionFault>>,
{
    ask(rt, asked.server(), asked.user, last_reply, task)
}

/// A wish at a path, whose request is made anew for each control connection.
#[derive(Drop)]
pub struct Single<'a> {
    pub alloc: Global,
    pub path: &'a str,
    pub how: How,
    pub openings: &'a Openings,
    pub wish: Wish,
}

impl<'a> Single<'a> {
    /// What the server answers. Where entries are asked for and a file may stand there, it is asked for the facts of that (MLST, RFC 3659, section 7): they
    /// are the listing of a file. Where they say nothing of why a listing is refused, it is asked for once more, so that its refusal is what the server says
    /// last.
    fn listing_or_file<S: ClientSession>(
        &self,
        slot: &mut S,
    ) -> Result<Answer<Global>, AllocError> {
        let listed = self.asked(slot)?;
        if !self.asks_facts(&listed)? {
            return self.listing_that_stands(slot, listed);
        }
        let is_refused = matches!(&listed, Answer::Refused(_));
        let path = Text::copy_of(self.alloc, self.path.as_bytes())?;
        let facts = slot.answer(Request::One(Some(Op::Facts(path))));
        if settles(is_refused, &facts) {
            let file = listing_of_file(self.alloc, last_part(self.path), &facts)?;
            return Ok(file.unwrap_or(facts));
        }
        if is_refused {
            self.asked(slot)
        } else {
            self.listing_that_stands(slot, listed)
        }
    }

    /// A listing. LIST may list nothing of a directory that does not stand: then it is gone into (CWD, RFC 959, section 4.1.1), and who says 550 to that has
    /// none.
    fn listing_that_stands<S: ClientSession>(
        &self,
        slot: &mut S,
        listed: Answer<Global>,
    ) -> Result<Answer<Global>, AllocError> {
        if !self.may_stand_nowhere(&listed)? {
            return Ok(listed);
        }
        let path = Text::copy_of(self.alloc, self.path.as_bytes())?;
        let entered = slot.answer(Request::One(Some(Op::ChangeDir(path))));
        if matches!(&entered, Answer::Refused(UNAVAILABLE) | Answer::Lost) {
            return Ok(entered);
        }
        Ok(listed)
    }

    /// Whether a directory that is named was listed so by LIST that it may not stand.
    fn may_stand_nowhere(&self, listed: &Answer<Global>) -> Result<bool, AllocError> {
        let is_list = matches!(self.openings.list_verb(), ListVerb::List);
        if self.path.is_empty() || !self.is_listing() || !is_list {
            return Ok(false);
        }
        match listed {
            Answer::Octets(text) => lists_nothing(self.alloc, text.as_slice()),
            _ => Ok(false),
        }
    }

    /// Whether the facts of a file are asked for behind a listing that was answered so: its path may be a file's, and a file may stand there.
    fn asks_facts(&self, listed: &Answer<Global>) -> Result<bool, AllocError> {
        if !self.is_listing() || says_directory(self.path) {
            return Ok(false);
        }
        match listed {
            Answer::Octets(text) => lists_nothing(self.alloc, text.as_slice()),
            _ => Ok(may_be_file(listed)),
        }
    }

    /// What the server answers; where it does not know the command of a listing, to the same asked for by another one. Fails where memory is refused.
    pub fn asked<S: ClientSession>(&self, slot: &mut S) -> Result<Answer<Global>, AllocError> {
        let answer = self.asked_by_opening(slot)?;
        if !self.is_listing() || !self.openings.hear_listing(&answer) {
            return Ok(answer);
        }
        drop(answer);
        self.asked_by_opening(slot)
    }

    /// What the server answers; where it does not know how the data connection of a listing is asked for, to the same asked for otherwise.
    fn asked_by_opening<S: ClientSession>(
        &self,
        slot: &mut S,
    ) -> Result<Answer<Global>, AllocError> {
        let opened = slot.opened();
        let answer = slot.answer(self.request()?);
        if !self
            .openings
            .hear(&answer, self.how, slot.opened() > opened)
        {
            return Ok(answer);
        }
        drop(answer);
        Ok(slot.answer(self.request()?))
    }

    fn is_listing(&self) -> bool {
        matches!(self.wish, Wish::Entries)
    }

    /// The request of a wish.
    fn request(&self) -> Result<Request, AllocError> {
        let path = Text::copy_of(self.alloc, self.path.as_bytes())?;
        let how = self.openings.how(self.how);
        let op = match self.wish {
            Wish::Entries => Op::Text(self.openings.list_verb(), path, how),
            Wish::Names => Op::Names(path, how),
        };
        Ok(Request::One(Some(op)))
    }
}

impl<'a> SessionTask<Result<Answer<Global>, SessionFault>> for Single<'a> {
    fn play<S: ClientSession>(&mut self, slot: &mut S) -> Result<Answer<Global>, SessionFault> {
        let Ok(answer) = self.listing_or_file(slot) else {
            return Ok(Answer::Memory);
        };
        if slot.ending() != DataEnding::PastLimit {
            return Ok(answer);
        }
        drop(answer);
        at(
            Phase::Listing,
            Err(Error::new(ErrorKind::InvalidData, "it has more than 1,000,000 entries")),
        )
    }
}
