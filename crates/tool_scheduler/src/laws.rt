//! What holds of turns in order: functions that do nothing, whose contracts are laws.
ghost use Rattle.tool_scheduler.specs.Fair.{FairFromTheStart, NobodyIsPassedTwice, PlacesStay};
ghost use Rattle.tool_scheduler.specs.Waits.{EachAddressHasATurn, NobodyHasTwoTurns, NobodyWaitsForLong};

/// Who waits and is ready is passed over by each of the others once at most, so by fewer turns than there are places; and the places stay the same.
pub fn turns_are_fair()
    // Witness: each is proved of an empty body: its own witness.
    ensures passed { NobodyIsPassedTwice }
    ensures stay { PlacesStay }
    ensures start { FairFromTheStart }
{}

/// In each round one session of each address that is ready has a turn, and none has two. Before a session that stays ready has its turn, at most as many rounds
/// begin as there are places.
pub fn rounds_are_fair()
    // Witness: the same.
    ensures address { EachAddressHasATurn }
    ensures once { NobodyHasTwoTurns }
    ensures soon { NobodyWaitsForLong }
{}
