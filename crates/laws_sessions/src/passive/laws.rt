//! Laws of sessions of turns: functions that do nothing, whose contracts are the claims of `specs/`.
ghost use Rattle.laws_sessions.specs.passive.Laws.{ExampleIsAsked, SessionsAreTheDirectRun, SessionsByCounts, WentHappens};
ghost use Rattle.laws_sessions.specs.passive.Transfers.{FetchIsAsked, PeekIsAsked, PutIsAsked, TransfersAskedAreTheDirectRun, TransfersByCounts};

/// Where no break of a data connection is told, an order of actions as connections in memory have it is one in which each can happen.
pub fn went_happens()
    ensures { WentHappens }
{}

/// The answers that were given, one operation after another, and the map that is left, are those of the operations run directly, where all was over control
/// alone.
pub fn sessions_are_the_direct_run()
    ensures { SessionsAreTheDirectRun }
{}

/// So it is where the counts of both ends are in the end what they were, and fewer than 2^60 actions were done.
pub fn sessions_by_counts()
    ensures { SessionsByCounts }
{}

/// So it is where files were put and fetched, and listings, over passive data connections.
pub fn transfers_asked_are_the_direct_run()
    ensures { TransfersAskedAreTheDirectRun }
{}

/// And where the counts of both ends are then in the end what they were, and fewer than 2^60 actions were done.
pub fn transfers_by_counts()
    ensures { TransfersByCounts }
{}

/// A session meets what is asked of one: its operation is answered over control alone.
pub fn an_example_is_asked()
    ensures { ExampleIsAsked }
{}

/// So does one in which a file is fetched, one in which its first octet is, and one in which another is put in its place.
pub fn transfers_are_asked()
    ensures fetched { FetchIsAsked }
    ensures peeked { PeekIsAsked }
    ensures put { PutIsAsked }
{}
