//! Laws of two drives that put, fetch and peek over data connections that either dials: functions that do nothing, whose contracts are the claims of `specs/`,
//! of the actions that `Drives` of a server's and of a client's drive cites, in any order in which each can happen.
ghost use Rattle.laws_active.specs.Claims.{EitherAgree, EitherAreOfWorlds, EitherAreTheDirectRun, EitherPartingAgree, PassiveIsEither};
ghost use Rattle.laws_active.specs.Over.{EitherOverAreTheDirectRun};
ghost use Rattle.laws_active.specs.Quitting.{EitherThatQuitAreTheDirectRun};
ghost use Rattle.laws_active.specs.Refusals.{TriesAgreeEitherWay, TriesAreOfWorldsEitherWay, TriesPartingAgreeEitherWay};

/// One server's drive and drives of one client that put and fetched files and listings, and peeked, over passive and active data connections leave what a list
/// of the world's events leads to from the beginning.
pub fn either_are_of_worlds()
    ensures { EitherAreOfWorlds }
{}

/// At every moment reports and map agree with the operations that were begun, and so they do where the control connection ends then.
pub fn either_agree()
    ensures standing { EitherAgree }
    ensures parting { EitherPartingAgree }
{}

/// Where each operation has its report, reports and map are those of the operations run directly.
pub fn either_are_the_direct_run()
    ensures { EitherAreTheDirectRun }
{}

/// Where a server's drive is over since the client left, and each drive of the client gave the answer of the operation that was begun before it, these
/// answers and the map that is left are those of the operations run directly.
pub fn either_over_are_the_direct_run()
    ensures { EitherOverAreTheDirectRun }
{}

/// Where the program of a client that is logged in wrote QUIT after its last drive, and the server's drive is over after that, the answers and the map that is
/// left are those of the operations run directly.
pub fn either_that_quit_are_the_direct_run()
    ensures { EitherThatQuitAreTheDirectRun }
{}

/// Actions over data connections that the server alone listens for are such actions.
pub fn passive_is_either()
    ensures { PassiveIsEither }
{}

/// So it is where dials of either fail: the world has a mark of each operation for which one failed, and no other.
pub fn either_of_which_dials_fail_are_of_worlds()
    ensures { TriesAreOfWorldsEitherWay }
{}

/// At every moment reports and map agree with the operations that were begun, with these marks: an operation is not opened only where a dial for it failed, by
/// the client or by the server. So they do where the control connection ends then.
pub fn either_of_which_dials_fail_agree()
    ensures standing { TriesAgreeEitherWay }
    ensures parting { TriesPartingAgreeEitherWay }
{}
