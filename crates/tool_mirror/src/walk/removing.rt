// What is removed from the target: it is counted first, asked of the source once more, and a directory is emptied before it goes.
use crate::fault::MirrorFault;
use crate::machine::LocalMachine;
use crate::queue::{QueuedAction, Removal};
use crate::standing::stands_there;
use crate::walk::MirrorWalk;
use std::io::ErrorKind;
use tool_files::Change;
use tool_listing::DirectoryListing;
use tool_mirror_plan::{CopyDirection, Extra, Rules, plan};
use tool_session::ClientSession;

impl<'a, R: LocalMachine> MirrorWalk<'a, R> {
    /// Counts what stands in a directory of the target that is to be removed; where it can't be listed, it stays.
    pub(crate) fn count<S: ClientSession>(
        &mut self,
        slot: &mut S,
        number: usize,
        below: &str,
    ) -> Result<(), MirrorFault> {
        let target = self.target(slot, below);
        match &target {
            Ok(DirectoryListing::Whole(items)) => self
                .action_queue
                .put_counts(number, below, items.as_slice()),
            Ok(DirectoryListing::CutOff) => {
                self.action_queue.keep(number);
                Ok(())
            }
            Err(fault) => {
                if !matches!(fault, MirrorFault::Lost | MirrorFault::Memory) {
                    self.action_queue.keep(number);
                }
                Err(*fault)
            }
        }
    }

    /// Whether the source has something of a path, as it says of that alone.
    fn stands_at_source<S: ClientSession>(
        &self,
        slot: &mut S,
        below: &str,
        is_dir: bool,
    ) -> Result<bool, MirrorFault> {
        match self.mirror.rules.way {
            CopyDirection::Down => stands_there(self.alloc, slot, self.mirror, below, is_dir),
            CopyDirection::Up => self.stands_here(below),
        }
    }

    /// Whether something stands in the folder of this machine; where its directory does not, or is none, nothing does.
    fn stands_here(&self, below: &str) -> Result<bool, MirrorFault> {
        match self.rt.found(self.mirror.folder, below) {
            Ok(found) => Ok(found.is_some()),
            Err(error) if error.kind() == ErrorKind::NotFound => Ok(false),
            Err(error) if error.kind() == ErrorKind::NotADirectory => Ok(false),
            Err(error) => Err(MirrorFault::Here(error)),
        }
    }

    /// Removes something, unless the source says that it has it.
    pub(crate) fn remove_lacking<S: ClientSession>(
        &mut self,
        slot: &mut S,
        removal: Removal,
        below: &str,
    ) -> Result<(), MirrorFault> {
        let is_dir = matches!(removal, Removal::Dir);
        if self.stands_at_source(slot, below, is_dir)? {
            return Err(MirrorFault::StandsAtSource);
        }
        self.remove(slot, removal, below)
    }

    /// Removes something of the target.
    pub(crate) fn remove<S: ClientSession>(
        &mut self,
        slot: &mut S,
        removal: Removal,
        below: &str,
    ) -> Result<(), MirrorFault> {
        match removal {
            Removal::File => self.change(slot, Change::RemoveFile, below),
            Removal::Dir => self.empty_dir(slot, below),
        }
    }

    /// Removes all that stands in a directory of the target, and the directory behind that.
    fn empty_dir<S: ClientSession>(
        &mut self,
        slot: &mut S,
        below: &str,
    ) -> Result<(), MirrorFault> {
        let target = self.target(slot, below)?;
        self.action_queue.put(QueuedAction::RemoveEmptied, below)?;
        let nothing = DirectoryListing::Whole(Vec::new(self.alloc));
        let rules = Rules {
            extra: Extra::Any,
            ..self.mirror.rules
        };
        let steps = plan(self.alloc, rules, &nothing, &target)?;
        self.action_queue.add(below, steps.as_slice(), &target)
    }
}
