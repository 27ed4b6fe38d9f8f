//! Worked rows of a world of both ends: functions that do nothing, whose contracts are rows of `specs/world/Rows`.
ghost use Rattle.laws_world.specs.Rows.{PeekReports, DownloadBreaks, CutUpload, SessionLogsIn, WholeDownload};

/// The greeting, USER, 331, PASS and 230 go from end to end, octet by octet.
pub fn login()
    ensures { SessionLogsIn }
{}

/// A download, its end and the 226.
pub fn whole_download()
    ensures { WholeDownload }
{}

/// A download that breaks behind a CR.
pub fn broken_download()
    ensures { DownloadBreaks }
{}

/// What an upload leaves that is cut behind a CR.
pub fn cut_upload()
    ensures { CutUpload }
{}

/// A Peek of one octet: ABOR, 426, 226 and the server's close or a break.
pub fn peek()
    ensures { PeekReports }
{}
