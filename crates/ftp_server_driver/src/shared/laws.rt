//! What holds of the turns of a session among others: functions that do nothing, whose contracts are laws.
ghost use Rattle.ftp_server_driver.specs.shared.Among.{AloneIsDrives, TurnsAreOneDrive};
ghost use Rattle.ftp_server_driver.specs.shared.Sharing.{EachIsOneDrive};

/// All turns of a session are one drive, in which the tree is exchanged between them, whatever others do with it meanwhile.
pub fn turns_are_one_drive()
    // Witness: `alone_is_drives`; equations of the trees that are brought.
    ensures { TurnsAreOneDrive }
{}

/// So it is of each of several sessions over one tree, in whatever order they take their turns: each is lent the tree that the turn before it left, whosever
/// that was.
pub fn each_is_one_drive()
    // Witness: equations of the tree that each finds and leaves.
    ensures { EachIsOneDrive }
{}

/// A drive in which no tree is exchanged is what `drive_server` says of a server of its own, word for word.
pub fn alone_is_drives()
    // Witness: both ways.
    ensures { AloneIsDrives }
{}
