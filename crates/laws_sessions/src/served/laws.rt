//! Laws of a session among others, and of the drive of its client: functions that do nothing, whose contracts are the claims of `specs/`.
ghost use Rattle.laws_sessions.specs.served.Alone.{EachIsLeftAlone, TurnsAreOwnDrive};
ghost use Rattle.laws_sessions.specs.served.Rooted.{AccountsStayAt, TurnsAreOwnDriveBut};
ghost use Rattle.laws_sessions.specs.served.Served.{DrivesAreCutUp, ServedAgree, ServedAreDirect, TurnsAreServed};

/// Where others leave the tree as they find it, all turns of a session are one drive of a server of its own, which has that tree; each of several sessions has
/// such turns, whenever the others take theirs.
pub fn turns_are_own_drive()
    ensures turns { TurnsAreOwnDrive }
    ensures each { EachIsLeftAlone }
{}

/// Where others leave what stands at and below a root as they find it, and nobody with another root logs in, they are so, too, but for what stands elsewhere.
/// Where each account has that root, nobody does.
pub fn turns_are_own_drive_but()
    ensures turns { TurnsAreOwnDriveBut }
    ensures accounts { AccountsStayAt }
{}

/// After each turn of such a session reports of its client's drives and the map agree with the operations begun, and so they do where the control connection
/// ends then. Where it is over, and each drive of its client gave the answer of the operation that was begun before it, these answers and the map are those of
/// the operations run directly. Of the map this is all that the turn gave back, or what stands at and below the root.
pub fn served_sessions_are_drives()
    ensures agree { ServedAgree }
    ensures direct { ServedAreDirect }
{}

/// The drive that turns are is such a session's; and every drive of a server of its own that is over is that of such turns, one for each of its actions.
pub fn sessions_are_served()
    ensures turns { TurnsAreServed }
    ensures drives { DrivesAreCutUp }
{}
