//! Worked rows: functions that do nothing, whose contracts are rows of `specs/Rows`.
ghost use Rattle.tool_terminal.specs.escaped.Rows.{CharactersShown};

/// What is shown of octets.
pub fn characters()
    ensures { CharactersShown }
{}
