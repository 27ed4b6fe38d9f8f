//! Worked rows: functions that do nothing, whose contracts are rows of `specs/TryRows`.
ghost use Rattle.tool_resume.specs.TryRows.{DownloadsFollowed, PartsJudged, UploadsFollowed};

/// What follows a try of an upload.
pub fn uploads()
    ensures { UploadsFollowed }
{}

/// What follows a try of a download.
pub fn downloads()
    ensures { DownloadsFollowed }
{}

/// How old a change is, and whose a part of an earlier run is.
pub fn parts()
    ensures { PartsJudged }
{}
