// What changes the target beside the octets of files, and what is told of that and of copies.
ghost use Rattle.std.specs.Prelude.{◌≡◌};
ghost use Rattle.tool_mirror.specs.Walk.{op_of, word_of};

use crate::fault::MirrorFault;
use crate::machine::LocalMachine;
use crate::request::{ActionOutput, Doing};
use crate::standing::done_by;
use crate::tally::Progress;
use crate::telling::{action_line, shown, tell};
use crate::walk::MirrorWalk;
use ftp_facts::Text;
use ftp_operation::Op;
use std::alloc::Global;
use tool_files::Change;
use tool_mirror_plan::CopyDirection;
use tool_session::ClientSession;

impl<'a, R: LocalMachine> MirrorWalk<'a, R> {
    /// Changes the target beside the octets of files, or tells that it would be.
    pub(crate) fn change<S: ClientSession>(
        &mut self,
        slot: &mut S,
        change: Change,
        below: &str,
    ) -> Result<(), MirrorFault> {
        if self.mirror.doing == Doing::Nothing {
            self.tell_would(word_of(change), below)?;
            self.tally.add_change(change);
            return Ok(());
        }
        self.change_untold(slot, change, below)?;
        self.tell_done(word_of(change), below);
        Ok(())
    }

    /// The same, of which nothing is told.
    pub(crate) fn change_untold<S: ClientSession>(
        &mut self,
        slot: &mut S,
        change: Change,
        below: &str,
    ) -> Result<(), MirrorFault> {
        match self.mirror.rules.way {
            CopyDirection::Down => self.rt.change_below(change, self.mirror.folder, below)?,
            CopyDirection::Up => {
                let path = self.mirror.path(self.alloc, below)?;
                done_by(slot, op_of(change, path))?;
            }
        }
        self.tally.add_change(change);
        Ok(())
    }

    /// Tells what would be done, where nothing is.
    pub(crate) fn tell_would(&self, what: &str, below: &str) -> Result<(), MirrorFault> {
        match self.mirror.actions {
            ActionOutput::Json => self.tell_json(what, below),
            ActionOutput::Words => {
                let name = shown(self.alloc, below)?;
                Ok(self.rt.tell_would(what, name.as_str())?)
            }
        }
    }

    /// Tells what was done, where each action is told; where that fails, it counts as a failure.
    pub(crate) fn tell_done(&mut self, what: &str, below: &str) {
        if matches!(self.mirror.actions, ActionOutput::Json) {
            if let Err(fault) = self.tell_json(what, below) {
                self.fail(below, fault);
            }
        }
    }

    fn tell_json(&self, what: &str, below: &str) -> Result<(), MirrorFault> {
        let line = action_line(self.alloc, what, below)?;
        Ok(self.rt.tell_line(line.as_slice())?)
    }

    /// Tells how far the mirror is, where that is asked for.
    pub(crate) fn tell_progress(&self, below: &str) {
        if self.mirror.server.progress {
            let progress = Progress {
                tally: self.tally,
                left: self.action_queue.count(),
            };
            let _told = tell(self.rt, self.alloc, "", below, &progress);
        }
    }
}

/// What a change does, as it is told.
pub(crate) fn word_of(change: Change) -> &'static str
    // Witness: an equation; `edits/a_directory_made_is_told_as_removed`.
    ensures { result.now ≡ word_of change }
{
    match change {
        Change::MakeDir => "make",
        Change::RemoveFile | Change::RemoveDir => "remove",
    }
}

/// A change of what has this path at a server (MKD, DELE, RMD, RFC 959, section 4.1.3).
fn op_of(change: Change, path: Text<Global>) -> Op<Text<Global>>
    // Witness: an equation; `edits/a_directory_is_deleted`.
    ensures { result ≡ op_of change path }
{
    match change {
        Change::MakeDir => Op::MakeDir(path),
        Change::RemoveFile => Op::Delete(path),
        Change::RemoveDir => Op::RemoveDir(path),
    }
}
