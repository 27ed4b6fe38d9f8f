//! Worked rows: functions that do nothing, whose contracts are rows of `specs/Rows`.
ghost use Rattle.tool_login.specs.Rows.{EntriesFound, WordsRead};

/// Which entry of a `.netrc` counts.
pub fn entries()
    ensures { EntriesFound }
{}

/// Comments, macros and quotes in one.
pub fn netrc_words()
    ensures { WordsRead }
{}
