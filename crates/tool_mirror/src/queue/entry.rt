// What is done with one path, as it waits in the queue.
ghost use Rattle.std.specs.Prelude.{◌≡◌};
ghost use Rattle.tool_mirror.specs.Queue.{deferred, queued_by, removal_of, replaced, replacement_of, replacing, spared};

use std::alloc::Global;
use tool_listing::ItemFacts;
use tool_mirror_plan::{Action, PlanStep, RefusalReason};

/// What is still to be done with a path below both roots; an empty one is that of the roots.
pub(crate) struct QueueEntry {
    pub(crate) action: QueuedAction,
    pub(crate) below: String<Global>,
}

/// By hand: a derived drop is proved again, part by part, wherever an entry is let go.
impl Drop for QueueEntry {
    fn drop(self) {
        let Self {
            action: _,
            below: _,
        } = self;
    }
}

/// What is to be done.
#[derive(Clone, Copy)]
pub(crate) enum QueuedAction {
    /// The file is copied, of which this is known.
    Copy(ItemFacts),
    /// The file is copied where its octets are others.
    Compare(ItemFacts),
    /// The directory is made, and gone into.
    MakeDir,
    /// The directory is gone into.
    Enter,
    /// What is neither file nor directory is left out.
    PassOver,
    Refuse(RefusalReason),
    /// This removes what the listing of the source lacked, once the source says of it alone that it has none: a listing that was cut at the end of a
    /// line looks whole.
    RemoveLacking(Removal),
    /// The directory is removed, from which all was removed.
    RemoveEmptied,
    /// What stands there is removed, once something else is made in its place.
    Replace(Removal, Replacement),
    /// What stands below a directory that is to be removed is counted, for the removal of this number, from 0.
    Count(usize),
    /// What was renamed aside is removed, unless more than so many things failed.
    RemoveAside(Removal, u64),
    /// What stands there has entries that are not to be removed.
    Keep,
    /// The name of the entry is no text, and its path is told as it is.
    NoText,
}

/// What is removed.
#[derive(Clone, Copy)]
pub(crate) enum Removal {
    /// What is no directory.
    File,
    /// A directory with all below it.
    Dir,
}

/// What comes in the place of something else.
#[derive(Clone, Copy)]
pub(crate) enum Replacement {
    /// A copy of the file of which this is known.
    File(ItemFacts),
    Dir,
}

/// What waits for a step of a plan that stands alone: what is removed and not replaced is what the listing of the source lacked.
pub(crate) fn queued(action: Action) -> QueuedAction
    // Witness: an equation; `edits/a_directory_is_made_before_it_is_entered`.
    ensures { result ≡ queued_by action }
{
    match action {
        Action::Copy(facts) => QueuedAction::Copy(facts),
        Action::Compare(facts) => QueuedAction::Compare(facts),
        Action::MakeDir => QueuedAction::MakeDir,
        Action::Enter => QueuedAction::Enter,
        Action::RemoveFile => QueuedAction::RemoveLacking(Removal::File),
        Action::RemoveDir => QueuedAction::RemoveLacking(Removal::Dir),
        Action::PassOver => QueuedAction::PassOver,
        Action::Refuse(reason) => QueuedAction::Refuse(reason),
    }
}

/// What an action removes that waits until all else is done, as long as the removals have not begun; none of what is done in its turn.
pub(crate) fn deferred(action: QueuedAction, is_removing: bool) -> Option<Removal>
    // Witness: an equation; `edits/a_replacement_is_done_at_once`.
    ensures { result ≡ deferred action is_removing }
{
    if is_removing {
        return None;
    }
    match action {
        QueuedAction::RemoveLacking(removal) => Some(removal),
        QueuedAction::Replace(removal, _) => Some(removal),
        _ => None,
    }
}

/// What is done where something that stands below has to stay: nothing comes in its place. What is only removed goes as far as it can.
pub(crate) fn spared(action: QueuedAction) -> QueuedAction
    // Witness: an equation; `edits/what_has_to_stay_is_replaced`.
    ensures { result ≡ spared action }
{
    match action {
        QueuedAction::Replace(_, _) => QueuedAction::Keep,
        _ => action,
    }
}

/// What waits for two steps of a plan, one behind the other, where what the first removes gives way to what the next one makes under its name.
pub(crate) fn replacing(step: &PlanStep<Global>, next: &PlanStep<Global>) -> Option<QueuedAction>
    // Witness: an equation; `edits/what_has_another_name_gives_way`.
    ensures { result ≡ replacing step.now next.now }
{
    if step.name.as_slice() == next.name.as_slice() {
        replaced(removal_of(step.action), replacement_of(next.action))
    } else {
        None
    }
}

/// A removal and what comes in its place, where both are.
fn replaced(removal: Option<Removal>, replacement: Option<Replacement>) -> Option<QueuedAction>
    ensures { result ≡ replaced removal replacement }
{
    match (removal, replacement) {
        (Some(removal), Some(replacement)) => Some(QueuedAction::Replace(removal, replacement)),
        _ => None,
    }
}

/// What a step removes, if it removes something.
fn removal_of(action: Action) -> Option<Removal>
    // Witness: an equation; `edits/a_directory_is_removed_as_a_file`.
    ensures { result ≡ removal_of action }
{
    match action {
        Action::RemoveFile => Some(Removal::File),
        Action::RemoveDir => Some(Removal::Dir),
        _ => None,
    }
}

/// What a step makes, if it makes something.
fn replacement_of(action: Action) -> Option<Replacement>
    // Witness: an equation; `edits/a_directory_comes_in_no_place`.
    ensures { result ≡ replacement_of action }
{
    match action {
        Action::Copy(facts) => Some(Replacement::File(facts)),
        Action::MakeDir => Some(Replacement::Dir),
        _ => None,
    }
}
