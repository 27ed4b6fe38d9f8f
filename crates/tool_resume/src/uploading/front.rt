// The end of what a server has of an upload, read back before the upload goes on behind it.
use crate::retry::front_of;
use crate::step::{FrontOwner, NextStep, behind_front, front_from};
use crate::uploading::Uploading;
use ftp_operation::Op;
use std::io;
use std::io::Eprint;
use tool_files::LocalFiles;
use tool_session::{ClientSession, DataEnding, Request, Terms};

impl<'a, R: LocalFiles + Eprint> Uploading<'a, R> {
    /// The same step; one that goes on behind what the server has, once that is read back.
    pub(crate) fn step_seen<S: ClientSession>(
        &mut self,
        slot: &mut S,
        step: NextStep,
    ) -> io::Result<NextStep> {
        let NextStep::From(count) = step else {
            return Ok(step);
        };
        if count == 0 {
            return Ok(step);
        }
        Ok(behind_front(count, self.front(slot, count)?))
    }

    /// What the last octets are of the front that the server has, of so many.
    fn front<S: ClientSession>(&mut self, slot: &mut S, count: u64) -> io::Result<FrontOwner> {
        let start = front_from(count);
        let own = self.source.piece(self.rt, self.alloc, (start, count))?;
        let opened = slot.opened();
        let answer = slot.answer(self.front_request(start, count)?);
        self.read_backs = self
            .read_backs
            .saturating_add(slot.opened().saturating_sub(opened));
        let front = front_of(&answer, own.as_slice());
        drop(answer);
        Ok(match slot.ending() {
            DataEnding::PastLimit => FrontOwner::Other,
            DataEnding::Answered | DataEnding::Unended => front,
        })
    }

    /// What reads the front back that the server has, from one octet to another (RFC 3659, section 5).
    fn front_request(&self, start: u64, count: u64) -> io::Result<Request> {
        let path = self.path()?;
        let how = self.openings.how(self.how);
        let op = match start {
            0 => Op::Get(path, how),
            start => Op::GetFrom(path, start, how),
        };
        let terms = Terms {
            most: count.saturating_sub(start),
            total: Some(count),
        };
        Ok(Request::Download(Some(op), terms))
    }
}
