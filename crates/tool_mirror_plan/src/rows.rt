//! Worked rows: functions that do nothing, whose contracts are rows of `specs/PlanRows`.
ghost use Rattle.tool_mirror_plan.specs.PlanRows.{DirsPlanned, FilesPlanned, OddPlanned, OthersPlanned};

/// What is done of files where nothing, or a file, stands.
pub fn files()
    ensures { FilesPlanned }
{}

/// What is done of directories, and where one end has a file and the other a directory.
pub fn dirs()
    ensures { DirsPlanned }
{}

/// What is done of what the target has alone, of names of no single file, and of listings that are cut off.
pub fn others()
    ensures { OthersPlanned }
{}

/// What is done of lines that are no entries.
pub fn odd_lines()
    ensures { OddPlanned }
{}
