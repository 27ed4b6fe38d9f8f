// How much of a target a mirror may remove.
ghost use Rattle.std.specs.Prelude.{◌≡◌};
ghost use Rattle.tool_mirror_plan.specs.Actions.{may_remove};

use crate::actions::Extra;

/// How many entries may be removed of a target, however few it held.
const ALWAYS: u64 = 10;

/// Whether so many of the entries that a target held may be removed: all where that is asked for; else ten at most, or half of them.
pub fn may_remove(extra: Extra, held: u64, removed: u64) -> bool
    ensures { result ≡ may_remove extra held removed }
{
    match extra {
        Extra::Kept => false,
        Extra::Removed => removed <= ALWAYS || removed <= held / 2,
        Extra::Any => true,
    }
}
