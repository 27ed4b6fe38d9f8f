// The way through a tree, one thing after another: what is done with a path is decided here.
mod changing;
mod copying;
mod cut;
mod removing;
mod replacing;

use crate::entries::{entries_here, entries_there, is_current};
use crate::fault::{FaultEffect, FaultSide, MirrorFault, reason_told};
use crate::machine::LocalMachine;
use crate::prefetch::{Prefetched, foresee};
use crate::queue::{ActionQueue, QueueEntry, QueuedAction, Settled, tell_too_many};
use crate::request::{Doing, MirrorRequest};
use crate::standing::check_dir;
use crate::tally::MirrorTotals;
use crate::telling::{tell, tell_fault, tell_no_text};
use crate::walk::cut::Cut;
use ftp_operation::{Answer, ListVerb};
use std::alloc::{AllocError, Global};
use tool_files::Change;
use tool_listing::{DirectoryListing, ItemFacts};
use tool_mirror_plan::{CopyDirection, RefusalReason, plan};
use tool_session::{ClientSession, SessionFault, SessionTask};

/// A mirror on its way.
pub(crate) struct MirrorWalk<'a, R> {
    rt: &'a R,
    alloc: Global,
    mirror: &'a MirrorRequest<'a>,
    action_queue: ActionQueue,
    /// The download of what comes next, where a control connection ended in its middle.
    cut: Option<Cut<'a, R>>,
    /// What is asked ahead.
    prefetched: Prefetched<'a, R>,
    /// What was done so far.
    pub(crate) tally: MirrorTotals,
    /// Whether the server is not asked for the size of what stands there before an upload: a control connection ended behind that question.
    is_blind: bool,
}

/// By hand: a derived drop is proved again, part by part, wherever a walk is let go.
impl<'a, R> Drop for MirrorWalk<'a, R> {
    fn drop(self) {
        let Self {
            rt: _,
            alloc: _,
            mirror: _,
            action_queue: _,
            cut: _,
            prefetched: _,
            tally: _,
            is_blind: _,
        } = self;
    }
}

impl<'a, R: LocalMachine> SessionTask<Result<Answer<Global>, SessionFault>> for MirrorWalk<'a, R> {
    fn play<S: ClientSession>(&mut self, slot: &mut S) -> Result<Answer<Global>, SessionFault> {
        self.begin();
        for _ in 0..u64::MAX {
            self.foresee(slot);
            let Some(entry) = self.action_queue.next() else {
                if self.settle() {
                    continue;
                }
                return Ok(Answer::Done);
            };
            let Err(fault) = self.perform(slot, entry.action, entry.below.as_str()) else {
                continue;
            };
            if let Some(fault) = self.undone(entry, fault) {
                return Ok(fault.answer());
            }
        }
        Ok(Answer::Lost)
    }
}

impl<'a, R: LocalMachine> MirrorWalk<'a, R> {
    /// At the roots, of which nothing is known yet.
    pub(crate) fn new(
        rt: &'a R,
        alloc: Global,
        mirror: &'a MirrorRequest<'a>,
    ) -> Result<MirrorWalk<'a, R>, AllocError> {
        let mut action_queue = ActionQueue::new(alloc);
        action_queue.put(QueuedAction::Enter, "")?;
        Ok(MirrorWalk {
            rt,
            alloc,
            mirror,
            action_queue,
            cut: None,
            prefetched: Prefetched::new(alloc),
            tally: MirrorTotals::new(),
            is_blind: false,
        })
    }

    /// How far it got: how many things it took up, and how many octets came of the file under way.
    pub(crate) fn reach(&self) -> (u64, u64) {
        let came = match &self.cut {
            Some(cut) => cut.count(),
            None => 0,
        };
        (self.action_queue.taken(), came)
    }

    /// Other control connections begin, over which nothing was asked ahead.
    fn begin(&mut self) {
        self.prefetched.forget();
        if let Some(cut) = &mut self.cut {
            cut.forget_ahead();
        }
    }

    /// Tells what will be asked of the server next, so that it may be asked over other control connections meanwhile. A download that was cut off goes on in
    /// its turn: its file is not asked for ahead once more.
    fn foresee<S: ClientSession>(&mut self, slot: &mut S) {
        for behind in 0..slot.ahead() {
            let Some(entry) = self.action_queue.coming(behind) else {
                return;
            };
            if is_cut_at(&self.cut, entry.below.as_str()) {
                continue;
            }
            let at = (self.rt, self.alloc);
            foresee(at, slot, self.mirror, &mut self.prefetched, entry);
        }
    }

    /// What becomes of a thing that was not done: where the control connection ended, it is done anew over another one; else it may be told, and the
    /// others go on. Gives why nothing more is done over this control connection.
    fn undone(&mut self, entry: QueueEntry, fault: MirrorFault) -> Option<MirrorFault> {
        match fault.effect() {
            FaultEffect::Again => match self.action_queue.put_back(entry) {
                Ok(()) => Some(fault),
                Err(AllocError) => Some(MirrorFault::Memory),
            },
            FaultEffect::Stop => Some(fault),
            FaultEffect::Told => {
                self.fail(entry.below.as_str(), fault);
                None
            }
        }
    }

    /// Tells why something was not done; of a root by the path that was asked for, and of another host with what may help, by how the data connection was
    /// asked for.
    fn fail(&mut self, below: &str, fault: MirrorFault) {
        self.tally.add_failed();
        let fault = match fault {
            MirrorFault::Foreign => {
                MirrorFault::Stranger(self.mirror.openings.stranger(self.mirror.how))
            }
            _ => fault,
        };
        let place = match fault.side() {
            FaultSide::Here if below.is_empty() => self.mirror.folder,
            FaultSide::There if below.is_empty() => self.mirror.path,
            _ => below,
        };
        let _told = tell_fault(self.rt, self.alloc, place, fault);
    }

    /// Once all else is done: the removals are next, where so many may be done. Says whether there is more to do.
    fn settle(&mut self) -> bool {
        match self.action_queue.settle(self.mirror.rules.extra) {
            Settled::Nothing => false,
            Settled::Begun => true,
            Settled::TooMany(counts) => {
                self.tally.add_failed();
                let _told = tell_too_many(self.rt, counts);
                false
            }
        }
    }

    /// Does one thing at a path of the tree.
    fn perform<S: ClientSession>(
        &mut self,
        slot: &mut S,
        action: QueuedAction,
        below: &str,
    ) -> Result<(), MirrorFault> {
        match action {
            QueuedAction::Copy(facts) => self.copy_changed(slot, below, facts),
            QueuedAction::Compare(facts) => self.compare(slot, below, facts),
            QueuedAction::MakeDir => self.make_and_enter(slot, below),
            QueuedAction::Enter => self.enter(slot, below),
            QueuedAction::PassOver => self.pass_over(below),
            QueuedAction::Refuse(reason) => self.refuse(below, reason),
            QueuedAction::RemoveLacking(removal) => self.remove_lacking(slot, removal, below),
            QueuedAction::RemoveEmptied => self.change(slot, Change::RemoveDir, below),
            QueuedAction::Replace(removal, replacement) => {
                self.replace(slot, removal, replacement, below)
            }
            QueuedAction::Count(number) => self.count(slot, number, below),
            QueuedAction::RemoveAside(removal, failed) => {
                self.remove_aside(slot, removal, failed, below)
            }
            QueuedAction::Keep => Err(MirrorFault::KeepsEntries),
            QueuedAction::NoText => {
                self.tally.add_failed();
                let _told = tell_no_text(self.rt, below);
                Ok(())
            }
        }
    }

    /// Goes into a directory that the target has: what is done in it is planned. The target itself is made once the source is listed, where it does not stand,
    /// or may not.
    fn enter<S: ClientSession>(&mut self, slot: &mut S, below: &str) -> Result<(), MirrorFault> {
        let target = match self.target(slot, below) {
            Ok(target) => target,
            Err(fault) if below.is_empty() && fault.is_missing() => return self.make_target(slot),
            Err(fault) => return Err(fault),
        };
        let source = self.source(slot, below)?;
        if below.is_empty() && self.may_lack(&target) {
            self.make_doubtful(slot)?;
        }
        let steps = plan(self.alloc, self.mirror.rules, &source, &target)?;
        self.action_queue.add(below, steps.as_slice(), &target)
    }

    /// Makes the target itself, once the source is listed, and goes into it.
    fn make_target<S: ClientSession>(&mut self, slot: &mut S) -> Result<(), MirrorFault> {
        let source = self.source(slot, "")?;
        self.change(slot, Change::MakeDir, "")?;
        let nothing = DirectoryListing::Whole(Vec::new(self.alloc));
        let steps = plan(self.alloc, self.mirror.rules, &source, &nothing)?;
        self.action_queue.add("", steps.as_slice(), &nothing)
    }

    /// Makes the target itself, unless the server refuses that, as where it stands.
    fn make_doubtful<S: ClientSession>(&mut self, slot: &mut S) -> Result<(), MirrorFault> {
        match self.change(slot, Change::MakeDir, "") {
            Ok(()) | Err(MirrorFault::Refused(_)) => Ok(()),
            Err(fault) => Err(fault),
        }
    }

    /// Makes a directory of the target, and goes into it. One that is there already, as where its making was answered over a connection that ended, is
    /// gone into too.
    fn make_and_enter<S: ClientSession>(
        &mut self,
        slot: &mut S,
        below: &str,
    ) -> Result<(), MirrorFault> {
        let target = match self.change(slot, Change::MakeDir, below) {
            Ok(()) => DirectoryListing::Whole(Vec::new(self.alloc)),
            Err(fault) => match self.target(slot, below) {
                Ok(target) => target,
                Err(_) => return Err(fault),
            },
        };
        let source = self.source(slot, below)?;
        let steps = plan(self.alloc, self.mirror.rules, &source, &target)?;
        self.action_queue.add(below, steps.as_slice(), &target)
    }

    /// What stands in a directory of the target.
    fn target<S: ClientSession>(
        &self,
        slot: &mut S,
        below: &str,
    ) -> Result<DirectoryListing<Global>, MirrorFault> {
        match self.mirror.rules.way {
            CopyDirection::Down => Ok(entries_here(self.rt, self.alloc, self.mirror, below)?),
            CopyDirection::Up => entries_there(self.alloc, slot, self.mirror, below),
        }
    }

    /// What stands in a directory of the source. Fails where that is the source itself, and it does not stand.
    fn source<S: ClientSession>(
        &self,
        slot: &mut S,
        below: &str,
    ) -> Result<DirectoryListing<Global>, MirrorFault> {
        if matches!(self.mirror.rules.way, CopyDirection::Up) {
            return Ok(entries_here(self.rt, self.alloc, self.mirror, below)?);
        }
        let source = entries_there(self.alloc, slot, self.mirror, below)?;
        if below.is_empty() && self.is_doubtful(&source) {
            check_dir(self.alloc, slot, self.mirror)?;
        }
        Ok(source)
    }

    /// Whether the target, which is listed so, is to be made although it may stand.
    fn may_lack(&self, target: &DirectoryListing<Global>) -> bool {
        let is_up = matches!(self.mirror.rules.way, CopyDirection::Up);
        is_up && self.mirror.doing == Doing::All && self.is_doubtful(target)
    }

    /// Whether the directory of the server, which is listed so, may be none: by LIST a server may list nothing of what does not stand there.
    fn is_doubtful(&self, listing: &DirectoryListing<Global>) -> bool {
        let is_listed = matches!(self.mirror.openings.list_verb(), ListVerb::List);
        let is_named = !self.mirror.path.is_empty();
        match listing {
            DirectoryListing::Whole(items) => items.is_empty() && is_listed && is_named,
            _ => false,
        }
    }

    /// Copies a file, unless the one of this machine is the server's still, whatever its listing says.
    fn copy_changed<S: ClientSession>(
        &mut self,
        slot: &mut S,
        below: &str,
        facts: ItemFacts,
    ) -> Result<(), MirrorFault> {
        if matches!(self.mirror.rules.way, CopyDirection::Down)
            && is_current(self.rt, self.alloc, slot, self.mirror, below, facts)?
        {
            return Ok(());
        }
        self.copy(slot, below, facts)
    }

    /// Leaves out what is neither file nor directory. Of this machine that is a failure: a copy of it lacks what a link leads to.
    fn pass_over(&mut self, below: &str) -> Result<(), MirrorFault> {
        let kind = match self.mirror.rules.way {
            CopyDirection::Down => "note: ",
            CopyDirection::Up => {
                self.tally.add_failed();
                "error: "
            }
        };
        let what = "neither file nor directory; it is left out";
        let _told = tell(self.rt, self.alloc, kind, below, &what);
        Ok(())
    }

    /// Tells why an entry is left out.
    fn refuse(&mut self, below: &str, reason: RefusalReason) -> Result<(), MirrorFault> {
        self.tally.add_failed();
        let _told = tell(self.rt, self.alloc, "error: ", below, &reason_told(reason));
        Ok(())
    }
}

/// Whether a download of the file at this path was cut off, and goes on in its turn.
fn is_cut_at<'a, R: LocalMachine>(cut: &Option<Cut<'a, R>>, below: &str) -> bool {
    match cut {
        Some(cut) => cut.is_of(below),
        None => false,
    }
}
