//! Laws of a session: functions that do nothing, whose contracts are the claims of `laws_world`, of every list of events, operations and
//! uploads over breaks among them.
ghost use Rattle.laws_agreement.specs.Laws.{RestIsQuiet};
ghost use Rattle.laws_world.specs.Claims.{AgreesAlways, Headline, QuietIsAnswered};

/// Any moment, any break: after every event of every list reports and map agree with the operations that were begun.
pub fn sessions_agree()
    ensures { AgreesAlways }
{}

/// Where nothing is in flight, each of them has its report, and another can be begun.
pub fn sessions_are_answered()
    ensures { QuietIsAnswered }
{}

/// The headline: where no link was refused or broke, the control connection did not end and no upload over breaks was begun, once nothing is in
/// flight, reports and map are those of the operations run directly. The direct run knows none of what is left out; `sessions_agree` has it.
pub fn sessions_are_the_direct_run()
    ensures { Headline }
{}

/// Where no delivery of 1 to 4,096 octets, no opening and no end is possible, nothing is in flight.
pub fn sessions_at_rest_are_quiet()
    ensures { RestIsQuiet }
{}
