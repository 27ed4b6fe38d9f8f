//! Laws of what is claimed of a session: functions that do nothing, whose contracts are laws of `specs/`.
ghost use Rattle.laws_world.specs.Claims.{DoneIsWhole, HeadlineFollows, PeekIsDirect, TriesAreFew, UnmarkedIsDirect};
ghost use Rattle.laws_world.specs.Still.{BlockedIsNotQuiet, QuietIsStill, RestingIsStill, StillIsQuiet};

/// Where no link was refused or broke, the control connection has not ended, no upload over breaks was begun and each operation has its
/// report, agreement is the direct run.
pub fn unmarked_agreement_is_the_direct_run()
    ensures { UnmarkedIsDirect }
{}

/// The headline follows from agreement after every event, and from what holds where nothing is in flight: breaks, refusals, an end of the
/// control connection and uploads over breaks are in both, and left out of it, since the direct run knows none of them.
pub fn headline_follows_from_agreement()
    ensures { HeadlineFollows }
{}

/// A Peek that is neither Unopened nor Lost has the direct answer, unless its link broke before its octets were settled.
pub fn peek_is_direct()
    ensures { PeekIsDirect }
{}

/// Whatever an upload over breaks meets, it makes at most sixteen tries.
pub fn tries_are_few()
    ensures { TriesAreFew }
{}

/// An upload over breaks that reports Done has put exactly its octets, and changed nothing else, whatever broke.
pub fn done_is_whole()
    ensures { DoneIsWhole }
{}

/// Where nothing moves that takes no memory, a world is quiet, or a queue is full whose receiver may not take.
pub fn still_is_quiet()
    ensures quiet { StillIsQuiet }
    ensures blocked { BlockedIsNotQuiet }
    ensures back { QuietIsStill }
    ensures rests { RestingIsStill }
{}
