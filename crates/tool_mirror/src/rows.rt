//! Worked rows: functions that do nothing, whose contracts are rows of `specs/Rows`.
ghost use Rattle.tool_mirror.specs.Rows.{AnswersMeant, AskedAhead, CopiesCounted, MirrorsEnded, MomentsCounted, RemovalsSettled, StepsQueued};

/// What waits for the steps of a plan.
pub fn steps()
    ensures { StepsQueued }
{}

/// What becomes of removals, once all else is done.
pub fn removals()
    ensures { RemovalsSettled }
{}

/// What is asked ahead.
pub fn prefetch()
    ensures { AskedAhead }
{}

/// What the answers of a server mean.
pub fn answers()
    ensures { AnswersMeant }
{}

/// When a copy counts.
pub fn copies()
    ensures { CopiesCounted }
{}

/// At which moment a file of this machine counts as changed.
pub fn moments()
    ensures { MomentsCounted }
{}

/// How a mirror ends.
pub fn ends()
    ensures { MirrorsEnded }
{}
