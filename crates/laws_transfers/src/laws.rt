//! Laws of two drives that put and fetch files: functions that do nothing, whose contracts are the claims of `specs/`, of the actions that `Drives` of a server's
//! and of a client's drive cites, in any order in which each can happen.
ghost use Rattle.laws_transfers.specs.Claims.{TransfersAgree, TransfersAreOfWorlds, TransfersAreTheDirectRun, TransfersPartingAgree};
ghost use Rattle.laws_transfers.specs.Over.{TransfersOverAreTheDirectRun};
ghost use Rattle.laws_transfers.specs.Quitting.{TransfersThatQuitAreTheDirectRun};
ghost use Rattle.laws_transfers.specs.Refusals.{TriesAgree, TriesAreOfWorlds, TriesPartingAgree};

/// One server's drive and drives of one client that put and fetched whole files and listings over passive data connections, of which nothing failed, leave what
/// a list of the world's events leads to from the beginning.
pub fn transfers_are_of_worlds()
    ensures { TransfersAreOfWorlds }
{}

/// At every moment reports and map agree with the operations that were begun, and so they do where the control connection ends then.
pub fn transfers_agree()
    ensures standing { TransfersAgree }
    ensures parting { TransfersPartingAgree }
{}

/// Where each operation has its report, reports and map are those of the operations run directly.
pub fn transfers_are_the_direct_run()
    ensures { TransfersAreTheDirectRun }
{}

/// Where a server's drive is over since the client left, and each drive of the client gave the answer of the operation that was begun before it, these
/// answers and the map that is left are those of the operations run directly.
pub fn transfers_over_are_the_direct_run()
    ensures { TransfersOverAreTheDirectRun }
{}

/// Where the program of a client that is logged in wrote QUIT after its last drive, and the server's drive is over after that, the answers and the map that is
/// left are those of the operations run directly.
pub fn transfers_that_quit_are_the_direct_run()
    ensures { TransfersThatQuitAreTheDirectRun }
{}

/// So it is where dials of the client fail: the world has a mark of each operation whose dial failed, and no other.
pub fn transfers_of_which_dials_fail_are_of_worlds()
    ensures { TriesAreOfWorlds }
{}

/// At every moment reports and map agree with the operations that were begun, with these marks: an operation is not opened only where its dial failed. So they
/// do where the control connection ends then.
pub fn transfers_of_which_dials_fail_agree()
    ensures standing { TriesAgree }
    ensures parting { TriesPartingAgree }
{}
