// Whose slot an address has that has none: one of the address that has the most.
ghost use Rattle.std.specs.Prelude.{◌≡◌, ◌≤◌, length};
ghost use Rattle.tool_scheduler.specs.Crowd.{claim, crowded_place, first_longest, is_longest, is_of, longest, most, quiet_by, slots_of};

/// A session in its slot.
#[derive(Clone, Copy)]
pub(crate) struct Sitting {
    /// As whom its client counts.
    pub(crate) host: u128,
    /// Whether its transfer moves.
    pub(crate) moves: bool,
    /// For how many milliseconds nothing was said or sent.
    pub(crate) quiet: u64,
}

/// The place of the session that gives its slot to an address that has none: of those whose transfers do not move, and of whose address the most have slots, two
/// at least, the one that was silent for the longest time; the first of several.
pub(crate) fn crowded_place(slots: &[Option<Sitting>]) -> Option<usize>
    ensures { result ≡ crowded_place slots.now }
{
    let most = most(slots, slots);
    if most < 2 {
        return None;
    }
    let quiet = longest(slots, most, slots);
    first_longest(slots, most, quiet)
}

/// The first whose claim is so great and who was silent for so long.
#[tactic(auto, unfolding(crate::specs::Crowd::first_longest))]
fn first_longest(slots: &[Option<Sitting>], most: usize, quiet: u64) -> Option<usize>
    ensures { result ≡ first_longest slots.now most quiet }
{
    slots
        .iter()
        .position(|slot| is_longest(slots, most, quiet, *slot))
}

/// Whether a slot has so great a claim, and was silent for so long.
fn is_longest(slots: &[Option<Sitting>], most: usize, quiet: u64, slot: Option<Sitting>) -> bool
    ensures { result ≡ is_longest slots.now most quiet slot }
{
    match slot {
        Some(sitting) => claim(slots, slot) == most && sitting.quiet == quiet,
        None => false,
    }
}

/// The greatest claim of those in the second list.
fn most(slots: &[Option<Sitting>], of: &[Option<Sitting>]) -> usize
    ensures { result ≡ most slots.now of.now }
{
    match of {
        [] => 0,
        [slot, rest @ ..] => claim(slots, *slot).max(most(slots, rest)),
    }
}

/// The longest silence of those in the second list whose claim is so great.
fn longest(slots: &[Option<Sitting>], most: usize, of: &[Option<Sitting>]) -> u64
    ensures { result ≡ longest slots.now most of.now }
{
    match of {
        [] => 0,
        [slot, rest @ ..] => quiet_by(slots, most, *slot).max(longest(slots, most, rest)),
    }
}

/// How long a slot was silent, where its claim is so great.
fn quiet_by(slots: &[Option<Sitting>], most: usize, slot: Option<Sitting>) -> u64
    ensures { result ≡ quiet_by slots.now most slot }
{
    match slot {
        Some(sitting) => {
            if claim(slots, slot) == most {
                sitting.quiet
            } else {
                0
            }
        }
        None => 0,
    }
}

/// How many slots the address of a session has whose transfer does not move; else none.
fn claim(slots: &[Option<Sitting>], slot: Option<Sitting>) -> usize
    ensures { result ≡ claim slots.now slot }
{
    match slot {
        Some(sitting) => {
            if sitting.moves {
                0
            } else {
                slots_of(sitting.host, slots)
            }
        }
        None => 0,
    }
}

/// How many slots an address has.
fn slots_of(host: u128, slots: &[Option<Sitting>]) -> usize
    ensures count { result ≡ slots_of host slots.now }
    ensures within { result ≤ length slots.now }
{
    match slots {
        [] => 0,
        [slot, rest @ ..] => {
            let others = slots_of(host, rest);
            if is_of(host, *slot) {
                others + 1
            } else {
                others
            }
        }
    }
}

/// Whether a slot is that of a client who counts as this one.
fn is_of(host: u128, slot: Option<Sitting>) -> bool
    ensures { result ≡ is_of host slot }
{
    match slot {
        Some(sitting) => sitting.host == host,
        None => false,
    }
}
