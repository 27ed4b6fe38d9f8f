//! Worked rows: functions that do nothing, whose contracts are rows of `specs/Rows`.
ghost use Rattle.tool_pair.specs.Rows.{LinesTold};

/// Lines of both directions, each where its last octet was taken.
pub fn transcripts()
    // Witness: it is a row.
    ensures { LinesTold }
{}
