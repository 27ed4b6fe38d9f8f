//! Worked rows: functions that do nothing, whose contracts are rows of `specs/Rows`.
ghost use Rattle.tool_script.specs.Rows.{FieldsSaid, OperationsSaid, ScriptsSaid, TransfersSaid};

/// Operations on a path, or on none.
pub fn operations()
    ensures { OperationsSaid }
{}

/// Operations in a representation.
pub fn transfers()
    ensures { TransfersSaid }
{}

/// A login, and whole scripts.
pub fn scripts()
    ensures { ScriptsSaid }
{}

/// Fields and their escapes.
pub fn fields()
    ensures { FieldsSaid }
{}
