// What is still to be done, one thing after another.
ghost use Rattle.std.specs.Prelude.{◌≡◌, ◌++◌, ◌∷◌, [], IfNone, IfSome, OnOk, vec_len};
ghost use Rattle.std.specs.Option.{option_to_list};
ghost use Rattle.tool_mirror.specs.Queue.{deferred, settled_by};
ghost use Rattle.tool_mirror.specs.Tally.{count_on};

use crate::fault::MirrorFault;
use crate::queue::entry::{QueueEntry, QueuedAction, Removal, deferred, queued, replacing, spared};
use crate::queue::removal_counts::{RemovalCounts, Settled};
use crate::telling::shown_below;
use std::alloc::{AllocError, Global};
use std::mem;
use tool_listing::{DirectoryListing, ItemKind, ListedItem, is_name};
use tool_location::joined;
use tool_mirror_plan::{Extra, PlanStep};

/// How many things are done at most.
const MOST_STEPS: u64 = 1_000_000;

/// What is still to be done.
#[derive(Drop)]
pub(crate) struct ActionQueue {
    alloc: Global,
    /// The last comes next.
    waiting: Vec<QueueEntry, Global>,
    /// What is removed or replaced, once all else is done and all is counted.
    removals: Vec<QueueEntry, Global>,
    counts: RemovalCounts,
    /// How many things were planned.
    planned: u64,
    /// How many were taken up.
    taken: u64,
    /// Whether the removals have begun.
    is_removing: bool,
}

impl ActionQueue {
    /// Nothing yet.
    pub(crate) fn new(alloc: Global) -> ActionQueue {
        ActionQueue {
            alloc,
            waiting: Vec::new(alloc),
            removals: Vec::new(alloc),
            counts: RemovalCounts {
                held: 0,
                removed: 0,
            },
            planned: 0,
            taken: 0,
            is_removing: false,
        }
    }

    /// How many things wait.
    pub(crate) fn count(&self) -> usize
        // Witness: an equation; `edits/removals_do_not_wait`.
        ensures { result ≡ count_on (vec_len self.now.waiting) (vec_len self.now.removals) }
    {
        self.waiting.len().saturating_add(self.removals.len())
    }

    /// How many were taken up, and not put back.
    pub(crate) fn taken(&self) -> u64
        // Witness: an equation.
        ensures { result ≡ self.now.taken }
    {
        self.taken
    }

    /// What comes as many places behind what is next.
    pub(crate) fn coming(&self, behind: usize) -> Option<&QueueEntry> {
        let last = self.waiting.len().checked_sub(1)?;
        self.waiting.get(last.checked_sub(behind)?)
    }

    /// Takes up what is next: the last that waits.
    pub(crate) fn next(&mut self) -> Option<QueueEntry>
        // Witness: equations; `edits/a_removal_comes_next`.
        ensures next { self.old.waiting.items ≡ self.new.waiting.items ++ option_to_list result }
        ensures removals { self.new.removals ≡ self.old.removals }
    {
        let Some(entry) = self.waiting.pop() else {
            return None;
        };
        self.taken = self.taken.saturating_add(1);
        Some(entry)
    }

    /// Puts back what was taken up: it is next once more.
    pub(crate) fn put_back(&mut self, entry: QueueEntry) -> Result<(), AllocError>
        // Witness: equations; `edits/what_is_put_back_is_a_removal`.
        ensures next { OnOk result (self.new.waiting.items ≡ self.old.waiting.items ++ entry ∷ []) }
        ensures removals { self.new.removals ≡ self.old.removals }
    {
        self.taken = self.taken.saturating_sub(1);
        Ok(self.waiting.push(entry)?)
    }

    /// This is next, of the root or of a path below it.
    pub(crate) fn put(&mut self, action: QueuedAction, below: &str) -> Result<(), AllocError>
        // Witness: `put_entry` needs it.
        ensures { self.new.removals ≡ self.old.removals }
    {
        let below = String::from_str(self.alloc, below)?;
        self.waiting.push(QueueEntry { action, below })?;
        Ok(())
    }

    /// Once all else is done: the removals are next, where so many may be done; else they are forgotten.
    pub(crate) fn settle(&mut self, extra: Extra) -> Settled
        // Witness: an equation; `edits/no_removal_begins_where_nothing_waits`.
        ensures { result ≡ settled_by extra (vec_len self.old.removals) self.old.counts }
    {
        match self.counts.settle(extra, self.removals.len()) {
            Settled::Begun => {
                self.begin_removals();
                Settled::Begun
            }
            Settled::TooMany(counts) => {
                self.removals.clear();
                Settled::TooMany(counts)
            }
            Settled::Nothing => Settled::Nothing,
        }
    }

    /// The removals are next.
    fn begin_removals(&mut self)
        // Witness: equations; `edits/the_removals_are_forgotten`.
        ensures next { self.new.waiting ≡ self.old.removals }
        ensures removals { self.new.removals.items ≡ [] }
    {
        self.waiting = mem::replace(&mut self.removals, Vec::new(self.alloc));
        self.is_removing = true;
    }

    /// Steps that were planned of a directory wait, the first of them at the end; removals wait until all else is done. `target` is what it has.
    pub(crate) fn add(
        &mut self,
        below: &str,
        steps: &[PlanStep<Global>],
        target: &DirectoryListing<Global>,
    ) -> Result<(), MirrorFault> {
        self.planned = self.planned.saturating_add(steps.len() as u64);
        if self.planned > MOST_STEPS {
            return Err(MirrorFault::TooManySteps);
        }
        if let DirectoryListing::Whole(items) = target {
            self.counts.add_held(items.len());
        }
        self.put_steps(below, steps)?;
        Ok(())
    }

    /// Puts steps, so that the first of them comes next.
    fn put_steps(&mut self, below: &str, steps: &[PlanStep<Global>]) -> Result<(), AllocError> {
        let mut next: Option<&PlanStep<Global>> = None;
        for step in steps.iter().rev() {
            next = self.put_before(below, step, next)?;
        }
        match next {
            Some(first) => self.put_step(queued(first.action), below, first.name.as_slice()),
            None => Ok(()),
        }
    }

    /// Puts the step behind this one, or both as one where it comes in the place of what this one removes. Gives this step where it is still to be put.
    fn put_before<'s>(
        &mut self,
        below: &str,
        step: &'s PlanStep<Global>,
        next: Option<&'s PlanStep<Global>>,
    ) -> Result<Option<&'s PlanStep<Global>>, AllocError> {
        let Some(next) = next else {
            return Ok(Some(step));
        };
        match replacing(step, next) {
            Some(action) => {
                self.put_step(action, below, step.name.as_slice())?;
                Ok(None)
            }
            None => {
                self.put_step(queued(next.action), below, next.name.as_slice())?;
                Ok(Some(step))
            }
        }
    }

    /// Puts what is done of a name, unless that is no text: then nothing but a note can be.
    fn put_step(
        &mut self,
        action: QueuedAction,
        below: &str,
        name: &[u8],
    ) -> Result<(), AllocError> {
        match std::str::from_utf8(name) {
            Ok(name) => {
                let below = joined(self.alloc, below, name)?;
                self.put_entry(QueueEntry { action, below })
            }
            Err(_) => {
                let below = shown_below(self.alloc, below, name)?;
                self.put_entry(QueueEntry {
                    action: QueuedAction::NoText,
                    below,
                })
            }
        }
    }

    /// An entry waits: a removal until all else is done, as long as the removals have not begun, and what it removes is counted.
    fn put_entry(&mut self, entry: QueueEntry) -> Result<(), AllocError>
        // Witness: equations; `edits/a_removal_waits_among_the_others`.
        ensures next { IfNone (deferred entry.action self.old.is_removing)
            (OnOk result (self.new.waiting.items ≡ self.old.waiting.items ++ entry ∷ [])) }
        ensures later { IfSome (deferred entry.action self.old.is_removing)
            (λ removal. OnOk result (self.new.removals.items ≡ self.old.removals.items ++ entry ∷ [])) }
    {
        let Some(removal) = deferred(entry.action, self.is_removing) else {
            self.waiting.push(entry)?;
            return Ok(());
        };
        self.counts.add_removed(1);
        self.put_counting(removal, entry.below.as_str())?;
        self.removals.push(entry)?;
        Ok(())
    }

    /// What stands below a directory is counted, for the removal that comes next.
    fn put_counting(&mut self, removal: Removal, below: &str) -> Result<(), AllocError>
        ensures { self.new.removals ≡ self.old.removals }
    {
        let number = self.removals.len();
        match removal {
            Removal::File => Ok(()),
            Removal::Dir => self.put(QueuedAction::Count(number), below),
        }
    }

    /// What stands in a directory that is to be removed is counted, and all below it then; where that is more than a mirror takes on, it stays.
    pub(crate) fn put_counts(
        &mut self,
        number: usize,
        below: &str,
        items: &[ListedItem<Global>],
    ) -> Result<(), MirrorFault> {
        self.counts.add_held(items.len());
        self.counts.add_removed(items.len());
        if self.counts.removed > MOST_STEPS {
            self.keep(number);
            return Err(MirrorFault::TooManySteps);
        }
        for item in items {
            self.put_count(number, below, item)?;
        }
        Ok(())
    }

    fn put_count(
        &mut self,
        number: usize,
        below: &str,
        item: &ListedItem<Global>,
    ) -> Result<(), AllocError> {
        match (item.kind, std::str::from_utf8(item.name.as_slice())) {
            (ItemKind::Excluded | ItemKind::Odd, _) | (_, Err(_)) => self.spare(number),
            (ItemKind::Dir, Ok(name)) if is_name(name.as_bytes()) => {
                let below = joined(self.alloc, below, name)?;
                self.waiting.push(QueueEntry {
                    action: QueuedAction::Count(number),
                    below,
                })?;
            }
            _ => {}
        }
        Ok(())
    }

    /// What stands in the place of something else has entries that stay: it is not replaced. What is only removed goes as far as it can.
    fn spare(&mut self, number: usize) {
        if let Some(entry) = self.removals.get_mut(number) {
            entry.action = spared(entry.action);
        }
    }

    /// The removal of this number is not done: what it removes can't be counted.
    pub(crate) fn keep(&mut self, number: usize) {
        if let Some(entry) = self.removals.get_mut(number) {
            entry.action = QueuedAction::Keep;
        }
    }
}
