//! Laws of sessions of turns: functions that do nothing, whose contracts are the claims of `specs/`.
ghost use Rattle.laws_sessions.specs.either.Either.{CallIsAsked, CallPeekIsAsked, EitherAskedAreTheDirectRun, EitherByCounts};

/// The answers that were given, one operation after another, and the map that is left, are those of the operations run directly, where files were put and
/// fetched, and listings, over passive and active data connections.
pub fn either_asked_are_the_direct_run()
    ensures { EitherAskedAreTheDirectRun }
{}

/// So it is where the counts of both ends are in the end what they were, and fewer than 2^60 actions were done.
pub fn either_by_counts()
    ensures { EitherByCounts }
{}

/// Sessions meet what is asked of one: a file is fetched over a data connection that the server dials, and one is peeked into.
pub fn calls_are_asked()
    ensures fetched { CallIsAsked }
    ensures peeked { CallPeekIsAsked }
{}
