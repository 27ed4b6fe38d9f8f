//! Worked rows: functions that do nothing, whose contracts are rows of `specs/Rows`.
ghost use Rattle.tool_log.specs.Rows.{FieldsWritten, StringsWritten, TimesWritten, TransfersTold};

/// Texts as strings of JSON.
pub fn strings()
    ensures { StringsWritten }
{}

/// Moments in both formats.
pub fn times()
    ensures { TimesWritten }
{}

/// Fields of `xferlog`.
pub fn fields()
    ensures { FieldsWritten }
{}

/// Which lines of clients are transfers, and which are complete.
pub fn transfers()
    ensures { TransfersTold }
{}
