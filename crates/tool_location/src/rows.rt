//! Worked rows: functions that do nothing, whose contracts are rows of `specs/Rows`.
ghost use Rattle.tool_location.specs.Rows.{UrlsRefused, UrlsSaid};

/// Which places URLs say.
pub fn urls()
    ensures { UrlsSaid }
{}

/// Which say none, and why.
pub fn refused_urls()
    ensures { UrlsRefused }
{}
