//! Laws of uploads whose data connections break: functions that do nothing, whose contracts are the claims of `specs/`.
ghost use Rattle.laws_breaks.specs.uploads.Claims.{CutsAgree, CutsAreOfWorlds, CutsPartingAgree};
ghost use Rattle.laws_breaks.specs.uploads.ByActions.{DownloadsAreCounted, UploadsAreCounted};
ghost use Rattle.laws_breaks.specs.uploads.Late.{UploadsBreakLate, UploadsGiveLate};
ghost use Rattle.laws_breaks.specs.uploads.Over.{CutDrivesAgree};

/// What a client of an upload holds does not depend on what comes to it first: octets of the control connection, or the break of its data connection,
/// or octets that it gives over that.
pub fn uploads_break_late()
    ensures broken { UploadsBreakLate }
    ensures given { UploadsGiveLate }
{}

/// From any moment of a transfer on a decoder reads as many octets as the actions of its end tell, a server's of an upload and a client's of a download.
pub fn octets_are_counted()
    ensures uploads { UploadsAreCounted }
    ensures downloads { DownloadsAreCounted }
{}

/// One server's drive and drives of one client, of which data connections break, those of uploads too, leave what a list of the world's events leads to from
/// the beginning, with marks of these breaks.
pub fn cuts_are_of_worlds()
    ensures { CutsAreOfWorlds }
{}

/// At every moment reports and map agree with the operations that were begun, with these marks, and so they do where the control connection ends then.
pub fn cuts_agree()
    ensures standing { CutsAgree }
    ensures parting { CutsPartingAgree }
{}

/// Where a server's drive is over since the client left, and each drive of the client gave the answer of the operation that was begun before it, these answers
/// and the map that is left agree with the operations, with these marks.
pub fn cut_drives_agree()
    ensures { CutDrivesAgree }
{}
