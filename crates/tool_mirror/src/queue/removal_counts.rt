// How much of the target would be removed.
ghost use Rattle.std.specs.Prelude.{◌≡◌};
ghost use Rattle.tool_mirror.specs.Queue.{settled_by};
ghost use Rattle.tool_mirror.specs.Tally.{with_held, with_removed};

use std::io;
use std::io::Eprint;
use tool_mirror_plan::{Extra, may_remove};

/// How many entries the target held, as far as it was looked at, and how many of them would be removed; no count goes past the greatest `u64`.
#[derive(Clone, Copy)]
pub(crate) struct RemovalCounts {
    pub(crate) held: u64,
    pub(crate) removed: u64,
}

impl RemovalCounts {
    /// The target has so many entries more.
    pub(crate) fn add_held(&mut self, count: usize)
        // Witness: an equation; `edits/what_is_removed_is_held`.
        ensures { self.new ≡ with_held self.old count }
    {
        self.held = self.held.saturating_add(count as u64);
    }

    /// So many more would be removed.
    pub(crate) fn add_removed(&mut self, count: usize)
        // Witness: an equation; `edits/what_is_held_is_removed`.
        ensures { self.new ≡ with_removed self.old count }
    {
        self.removed = self.removed.saturating_add(count as u64);
    }

    /// What becomes of so many removals, once all else is done.
    pub(crate) fn settle(self, extra: Extra, removals: usize) -> Settled
        // Witness: an equation; `edits/more_is_removed_than_is_held`.
        ensures { result ≡ settled_by extra removals self }
    {
        if removals == 0 {
            Settled::Nothing
        } else if may_remove(extra, self.held, self.removed) {
            Settled::Begun
        } else {
            Settled::TooMany(self)
        }
    }
}

/// What becomes of the removals, once all else is done.
#[derive(Clone, Copy)]
pub(crate) enum Settled {
    /// There are none.
    Nothing,
    /// They are next.
    Begun,
    /// They are too many, and not done.
    TooMany(RemovalCounts),
}

/// Tells that so many entries of the target would be removed that none is.
pub(crate) fn tell_too_many<R: Eprint>(rt: &R, counts: RemovalCounts) -> io::Result<()> {
    let RemovalCounts { held, removed } = counts;
    eprintln!(rt;
        "error: {removed} of the {held} entries of the target would be removed; nothing is, without --delete-any"
    )
}
