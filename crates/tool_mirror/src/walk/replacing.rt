// What comes in the place of something else: it is made beside it, that is renamed aside, and removed last; by one rename where one does.
ghost use Rattle.std.specs.Prelude.{◌≡◌};
ghost use Rattle.tool_mirror.specs.Replacing.{exchange_of};

use crate::fault::MirrorFault;
use crate::machine::LocalMachine;
use crate::queue::{QueuedAction, Removal, Replacement};
use crate::request::Doing;
use crate::standing::{done_by, stands_there};
use crate::walk::MirrorWalk;
use crate::walk::changing::word_of;
use crate::walk::copying::COPY;
use ftp_operation::Op;
use itoa::Buffer;
use std::alloc::{AllocError, Global};
use tool_files::Change;
use tool_listing::{DirectoryListing, ItemFacts};
use tool_location::last_part;
use tool_mirror_plan::{CopyDirection, plan};
use tool_session::ClientSession;

/// What stands behind the name of something in that of what comes in its place, until it is whole.
const COMING: &str = ".ftp-new";

/// And in that of what stood there.
const ASIDE: &str = ".ftp-old";

/// How many names are tried.
const NAMES: u32 = 10;

impl<'a, R: LocalMachine> MirrorWalk<'a, R> {
    /// Puts something in the place of something else, which is removed then.
    pub(crate) fn replace<S: ClientSession>(
        &mut self,
        slot: &mut S,
        removal: Removal,
        replacement: Replacement,
        below: &str,
    ) -> Result<(), MirrorFault> {
        if self.mirror.doing == Doing::Nothing {
            return self.tell_replacement(slot, removal, replacement, below);
        }
        match exchange_of(removal, replacement, self.mirror.rules.way) {
            Exchange::OneRename(facts) => self.replace_at_once(slot, facts, below),
            Exchange::File(facts) => self.replace_by_file(slot, removal, facts, below),
            Exchange::Dir => self.replace_by_dir(slot, removal, below),
        }
    }

    /// Tells that something would come in the place of something else.
    fn tell_replacement<S: ClientSession>(
        &mut self,
        slot: &mut S,
        removal: Removal,
        replacement: Replacement,
        below: &str,
    ) -> Result<(), MirrorFault> {
        match replacement {
            Replacement::File(facts) => self.copy_changed(slot, below, facts)?,
            Replacement::Dir => self.make_and_enter(slot, below)?,
        }
        self.remove(slot, removal, below)
    }

    /// Puts a file of this machine in the place of what is no directory.
    fn replace_at_once<S: ClientSession>(
        &mut self,
        slot: &mut S,
        facts: ItemFacts,
        below: &str,
    ) -> Result<(), MirrorFault> {
        self.copy_to(slot, below, facts, below)?;
        self.tally.add_change(Change::RemoveFile);
        self.tell_done(COPY, below);
        self.tell_done(word_of(Change::RemoveFile), below);
        Ok(())
    }

    /// Puts a file in the place of something else.
    fn replace_by_file<S: ClientSession>(
        &mut self,
        slot: &mut S,
        removal: Removal,
        facts: ItemFacts,
        below: &str,
    ) -> Result<(), MirrorFault> {
        let coming = self.free_beside(slot, below, COMING)?;
        self.copy_to(slot, below, facts, coming.as_str())?;
        self.exchange(slot, removal, coming.as_str(), below)?;
        self.tell_done(COPY, below);
        Ok(())
    }

    /// Puts a directory in the place of something else, once it is known what stands in it at the source.
    fn replace_by_dir<S: ClientSession>(
        &mut self,
        slot: &mut S,
        removal: Removal,
        below: &str,
    ) -> Result<(), MirrorFault> {
        let source = self.source(slot, below)?;
        let coming = self.free_beside(slot, below, COMING)?;
        self.change_untold(slot, Change::MakeDir, coming.as_str())?;
        self.exchange(slot, removal, coming.as_str(), below)?;
        self.tell_done(word_of(Change::MakeDir), below);
        let nothing = DirectoryListing::Whole(Vec::new(self.alloc));
        let steps = plan(self.alloc, self.mirror.rules, &source, &nothing)?;
        self.action_queue.add(below, steps.as_slice(), &nothing)
    }

    /// Renames what stands there aside, and what came into its place; the first is removed then. Where the second can't be, the first is back.
    fn exchange<S: ClientSession>(
        &mut self,
        slot: &mut S,
        removal: Removal,
        coming: &str,
        below: &str,
    ) -> Result<(), MirrorFault> {
        let aside = self.free_beside(slot, below, ASIDE)?;
        self.rename(slot, below, aside.as_str())?;
        if let Err(fault) = self.rename(slot, coming, below) {
            let _back = self.rename(slot, aside.as_str(), below);
            return Err(fault);
        }
        let failed = self.tally.failed;
        self.action_queue
            .put(QueuedAction::RemoveAside(removal, failed), aside.as_str())?;
        Ok(())
    }

    /// Removes what was renamed aside, unless something failed since, which may have been in its place.
    pub(crate) fn remove_aside<S: ClientSession>(
        &mut self,
        slot: &mut S,
        removal: Removal,
        failed: u64,
        below: &str,
    ) -> Result<(), MirrorFault> {
        if self.tally.failed > failed {
            return Err(MirrorFault::FailedSince);
        }
        self.remove(slot, removal, below)
    }

    /// A name beside something of the target that nothing has there.
    fn free_beside<S: ClientSession>(
        &self,
        slot: &mut S,
        below: &str,
        end: &str,
    ) -> Result<String<Global>, MirrorFault> {
        for number in 0..NAMES {
            let name = named(self.alloc, below, end, number)?;
            if !self.stands_at_target(slot, name.as_str())? {
                return Ok(name);
            }
        }
        Err(MirrorFault::NoFreeName)
    }

    /// Whether the target has something of a path.
    fn stands_at_target<S: ClientSession>(
        &self,
        slot: &mut S,
        below: &str,
    ) -> Result<bool, MirrorFault> {
        match self.mirror.rules.way {
            CopyDirection::Down => Ok(self.rt.found(self.mirror.folder, below)?.is_some()),
            CopyDirection::Up => stands_there(self.alloc, slot, self.mirror, below, true),
        }
    }

    /// Gives something of the target another name in its directory.
    fn rename<S: ClientSession>(
        &self,
        slot: &mut S,
        below: &str,
        to: &str,
    ) -> Result<(), MirrorFault> {
        match self.mirror.rules.way {
            CopyDirection::Down => Ok(
                self.rt
                    .rename_below(self.mirror.folder, below, last_part(to))?,
            ),
            CopyDirection::Up => {
                let from = self.mirror.path(self.alloc, below)?;
                let to = self.mirror.path(self.alloc, to)?;
                done_by(slot, Op::Rename(from, to))
            }
        }
    }
}

/// How something comes in the place of something else.
#[derive(Clone, Copy)]
pub(crate) enum Exchange {
    /// A file by one rename, so that the path is never missing.
    OneRename(ItemFacts),
    /// A file that is made beside it.
    File(ItemFacts),
    /// A directory that is made beside it.
    Dir,
}

/// How it comes there, where the tree is copied in this direction: a rename of this machine puts a file over what is no directory, but none over a
/// directory, and no directory over a file (rename(2)).
fn exchange_of(removal: Removal, replacement: Replacement, way: CopyDirection) -> Exchange
    // Witness: an equation; `edits/a_server_is_asked_to_rename_over_a_file`.
    ensures { result ≡ exchange_of removal replacement way }
{
    match (replacement, removal, way) {
        (Replacement::Dir, _, _) => Exchange::Dir,
        (Replacement::File(facts), Removal::File, CopyDirection::Down) => {
            Exchange::OneRename(facts)
        }
        (Replacement::File(facts), Removal::File, CopyDirection::Up) => Exchange::File(facts),
        (Replacement::File(facts), Removal::Dir, _) => Exchange::File(facts),
    }
}

/// The name of this number beside something.
fn named(alloc: Global, below: &str, end: &str, number: u32) -> Result<String<Global>, AllocError> {
    let mut name: String<Global> = String::from_str(alloc, below)?;
    name.push_str(end)?;
    if number > 0 {
        name.push_str("-")?;
        name.push_str(Buffer::new().format(number))?;
    }
    Ok(name)
}
