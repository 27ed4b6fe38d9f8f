// A file that is copied one way or the other.
use crate::download::{discard, is_same, leave};
use crate::fault::MirrorFault;
use crate::machine::LocalMachine;
use crate::request::Doing;
use crate::upload::{Upward, copy_up};
use crate::walk::MirrorWalk;
use tool_listing::ItemFacts;
use tool_mirror_plan::CopyDirection;
use tool_session::{ClientSession, Ticket};

/// What is told of a file that is copied.
pub(crate) const COPY: &str = "copy";

impl<'a, R: LocalMachine> MirrorWalk<'a, R> {
    /// Copies a file whose octets differ.
    pub(crate) fn compare<S: ClientSession>(
        &mut self,
        slot: &mut S,
        below: &str,
        facts: ItemFacts,
    ) -> Result<(), MirrorFault> {
        if self.are_same(slot, below, facts)? {
            return Ok(());
        }
        self.copy(slot, below, facts)
    }

    /// Whether a file has the same octets at both ends.
    fn are_same<S: ClientSession>(
        &mut self,
        slot: &mut S,
        below: &str,
        facts: ItemFacts,
    ) -> Result<bool, MirrorFault> {
        let downloading = self.downloaded(slot, below, facts, None)?;
        is_same(self.rt, self.mirror, below, downloading.came())
    }

    /// Copies a file, or tells that it would be.
    pub(crate) fn copy<S: ClientSession>(
        &mut self,
        slot: &mut S,
        below: &str,
        facts: ItemFacts,
    ) -> Result<(), MirrorFault> {
        if self.mirror.doing == Doing::Nothing {
            self.tell_would(COPY, below)?;
            self.tally.add_file(facts.size.unwrap_or(0));
            return Ok(());
        }
        self.copy_to(slot, below, facts, below)?;
        self.tell_done(COPY, below);
        Ok(())
    }

    /// Copies a file to a place of the target.
    pub(crate) fn copy_to<S: ClientSession>(
        &mut self,
        slot: &mut S,
        below: &str,
        facts: ItemFacts,
        to: &str,
    ) -> Result<(), MirrorFault> {
        let count = match self.mirror.rules.way {
            CopyDirection::Down => self.copy_down(slot, below, facts, to)?,
            CopyDirection::Up => {
                let ahead = self.ahead_of(below, to);
                let file = Upward {
                    below,
                    to,
                    size: facts.size,
                    ahead,
                };
                copy_up(
                    self.rt,
                    self.alloc,
                    slot,
                    self.mirror,
                    file,
                    &mut self.is_blind,
                )?
            }
        };
        self.tally.add_file(count);
        self.tell_progress(below);
        Ok(())
    }

    /// Downloads a file to a place of this machine, and gives how many octets it has.
    fn copy_down<S: ClientSession>(
        &mut self,
        slot: &mut S,
        below: &str,
        facts: ItemFacts,
        to: &str,
    ) -> Result<u64, MirrorFault> {
        let downloading = self.downloaded(slot, below, facts, Some(to))?;
        let left = leave(self.rt, self.mirror, to, facts, &downloading);
        if left.is_err() {
            discard(self.rt, self.mirror, to, &downloading);
        }
        left
    }

    /// By which ticket the upload of a file is answered, where it was asked ahead and goes to the file of its own name.
    fn ahead_of(&mut self, below: &str, to: &str) -> Option<Ticket> {
        if to == below {
            self.prefetched.take_upload(below)
        } else {
            None
        }
    }
}
