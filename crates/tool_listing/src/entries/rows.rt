//! Worked rows: functions that do nothing, whose contracts are rows of `specs/ShownRows` and `specs/UnixRows`.
ghost use Rattle.tool_listing.specs.entries.ShownRows.{ColumnsShown, JsonWritten, NamesListed};
ghost use Rattle.tool_listing.specs.entries.UnixRows.{ColumnsRead, OthersRead, TimesRead, YearsRead};

/// Which texts are names of single files.
pub fn names()
    ensures { NamesListed }
{}

/// The columns of a listing for people.
pub fn columns()
    ensures { ColumnsShown }
{}

/// Lines for programs.
pub fn json()
    ensures { JsonWritten }
{}

/// Lines of LIST with a time of day.
pub fn times_of_list()
    ensures { TimesRead }
{}

/// Lines of LIST with a year.
pub fn years_of_list()
    ensures { YearsRead }
{}

/// Lines that are none, and the names of odd ones.
pub fn other_lines()
    ensures { OthersRead }
{}

/// The entries that lines of LIST say.
pub fn entries_of_list()
    ensures { ColumnsRead }
{}
