//! Laws of data connections that break: functions that do nothing, whose contracts are the claims of `specs/`.
ghost use Rattle.laws_breaks.specs.downloads.Claims.{BreaksAgree, BreaksAreOfWorlds, BreaksPartingAgree};
ghost use Rattle.laws_breaks.specs.downloads.Late.{BreaksLate, HearsLate};
ghost use Rattle.laws_breaks.specs.downloads.Over.{OverDrivesAgree};

/// What a client of a download holds does not depend on what comes to it first: octets of the control connection, or octets of the data connection and its
/// break.
pub fn downloads_break_late()
    ensures octets { HearsLate }
    ensures broken { BreaksLate }
{}

/// One server's drive and drives of one client, of which downloads and listings break, for the client while it takes octets, for the server while it gives or
/// after it gave all, or for both, in either order, and Peeks for the client first, leave what a list of the world's events leads to from the beginning, with
/// marks of these breaks.
pub fn breaks_are_of_worlds()
    ensures { BreaksAreOfWorlds }
{}

/// At every moment reports and map agree with the operations that were begun, with these marks, and so they do where the control connection ends then.
pub fn breaks_agree()
    ensures standing { BreaksAgree }
    ensures parting { BreaksPartingAgree }
{}

/// Where a server's drive is over since the client left, and each drive of the client gave the answer of the operation that was begun before it, these answers
/// and the map that is left agree with the operations, with these marks.
pub fn over_drives_agree()
    ensures { OverDrivesAgree }
{}
