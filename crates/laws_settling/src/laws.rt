//! Laws of a session that comes to rest: functions that do nothing, whose contracts are laws.
ghost use Rattle.laws_settling.specs.Laws.{EventsFall, EventsKeepSteady, HasHeight, LoopsEnd, ServingIsLow, StaysSteady, SteadyEnds};
ghost use Rattle.laws_world.specs.Claims.{SettlesAlways, SettlingFalls};

/// What a world does for its ends after an event (closes, ports, leaving, the report) makes no more to do.
pub fn serving_is_low()
    ensures { ServingIsLow }
{}

/// Each delivery, opening and end lowers the first number that it changes of the five that say what is left, in any world whose ends
/// are apart and in which nothing is asked of the client.
pub fn events_fall()
    ensures { EventsFall }
{}

/// What settling needs holds as a session begins, and every event keeps it: deliveries, openings, refusals, ends and breaks, and
/// operations that begin.
pub fn stays_steady()
    ensures keeps { EventsKeepSteady }
    ensures always { StaysSteady }
{}

/// So each delivery, opening and end lowers the first number that it changes, in every world that a fair beginning leads to.
pub fn settling_falls()
    ensures { SettlingFalls }
{}

/// So settling ends: from each such world they lead to one in which nothing is in flight.
pub fn settles_always()
    ensures { SettlesAlways }
{}

/// Nor can a loop go on for ever, whatever each turn of it moves or takes: each run of deliveries, openings and ends from a steady world
/// ends, and there is a number, a function of the world, that each turn lowers. `looping` says it as a loop needs it, of a world that is known
/// to be steady, and of turns that happen whatever reads the server's lines.
pub fn turns_end()
    ensures steady { SteadyEnds }
    ensures height { HasHeight }
    ensures looping { LoopsEnd }
{}
