//! Worked rows: functions that do nothing, whose contracts are rows of `specs/PatternRows`.
ghost use Rattle.tool_listing.specs.pattern.PatternRows.{NamesChosen, PatternsMet};

/// Which paths meet a pattern.
pub fn patterns()
    ensures { PatternsMet }
{}

/// Which names are patterns, and which names of a listing one chooses.
pub fn chosen()
    ensures { NamesChosen }
{}
