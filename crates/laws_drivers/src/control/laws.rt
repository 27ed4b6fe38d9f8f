//! Laws of two drives: functions that do nothing, whose contracts are the claims of `specs/`, of the actions that `Drives` of a server's and of a
//! client's drive cites, in any order in which each can happen, where no data connection was wanted; the last three are what transfers will need.
ghost use Rattle.laws_drivers.specs.control.Broken.{ClientsAreCut, DrivesBrokenAgree, ServersAreCut};
ghost use Rattle.laws_drivers.specs.control.Claims.{DrivesAgree, DrivesAreOfWorlds, DrivesAreTheDirectRun, EndsKeepTheMap, PartingAgrees};
ghost use Rattle.laws_drivers.specs.control.Delays.{DownBreaksCommute, EndForgetsBreak, EndForgetsLateBreak, OpeningCommutes, UnopenedIsBroken, UpBreaksCommute, UpRepliesCommute};
ghost use Rattle.laws_drivers.specs.control.Example.{ExampleHasQuit, ExampleIsFair, ExampleIsOver, ExampleIsPlayed};
ghost use Rattle.laws_drivers.specs.control.Over.{DrivesLostAgree, DrivesOverAreTheDirectRun};
ghost use Rattle.laws_drivers.specs.control.Quitting.{DrivesThatQuitAreTheDirectRun};
ghost use Rattle.laws_drivers.specs.control.Swaps.{ActionsChangePlaces, ActionsGoBehind, MovingActionsChangePlaces, NeighboursChangePlaces, OrdersLeaveOne, OrdersLeaveTheEnds};

/// One server's drive and drives of one client leave what a list of the world's events leads to from the beginning, but for the moment that the
/// server was told last.
pub fn drives_are_of_worlds()
    ensures { DrivesAreOfWorlds }
{}

/// At every moment reports and map agree with the operations that were begun, and so they do where the control connection ends then.
pub fn drives_agree()
    ensures standing { DrivesAgree }
    ensures parting { PartingAgrees }
{}

/// Where each operation has its report, reports and map are those of the operations run directly; and a server that is told that the control
/// connection ended keeps that map.
pub fn drives_are_the_direct_run()
    ensures direct { DrivesAreTheDirectRun }
    ensures ends { EndsKeepTheMap }
{}

/// Where a server's drive is over since the client left, and each drive of the client gave the answer of the operation that was begun before it,
/// these answers and the map that is left are those of the operations run directly.
pub fn drives_over_are_the_direct_run()
    ensures { DrivesOverAreTheDirectRun }
{}

/// So it is where the client's program wrote QUIT after all of the client's actions, and the server's drive is over since it heard that.
pub fn drives_that_quit_are_the_direct_run()
    ensures { DrivesThatQuitAreTheDirectRun }
{}

/// The premises can be met: of every map that has a root both drives did a login and one operation, which has its report.
pub fn an_example_is_played()
    ensures { ExampleIsPlayed }
{}

/// So can those of drives that are over: the contracts of both drives say that the server's was over since the client left, or since it heard QUIT; and
/// of a map of the root alone the session is fair.
pub fn an_example_is_over()
    ensures over { ExampleIsOver }
    ensures quit { ExampleHasQuit }
    ensures fair { ExampleIsFair }
{}

/// Where both were told in the midst of the last operation that the control connection ended, answers and map agree with the operations begun.
pub fn drives_lost_agree()
    ensures { DrivesLostAgree }
{}

/// Where both broke off in the midst of the last operation, answers and map agree with the operations begun.
pub fn drives_broken_agree()
    ensures { DrivesBrokenAgree }
{}

/// A drive that broke off did its actions and said a beginning of what it said last, and was told then that the control connection ended: so
/// `drives_agree` has it (`parting`).
pub fn drives_that_broke_off_are_cut()
    ensures servers { ServersAreCut }
    ensures clients { ClientsAreCut }
{}

/// An action beside the control connection can come before one of the other end that was done first, where it reads nothing that this wrote; so can one of
/// a data connection that stands before another of it, where it can happen without that.
pub fn actions_change_places()
    ensures control { ActionsChangePlaces }
    ensures moving { MovingActionsChangePlaces }
{}

/// In an order in which each action can happen, two neighbours of different ends, one of them beside the control connection or both of a data connection that
/// stands, change places where the second can happen without the first, and an action goes behind several of the other end that can happen without it: then
/// each can still happen, and the same lies between. An order leaves but one thing there, and either end what its own actions leave.
pub fn orders_change()
    ensures one { OrdersLeaveOne }
    ensures neighbours { NeighboursChangePlaces }
    ensures behind { ActionsGoBehind }
    ensures ends { OrdersLeaveTheEnds }
{}

/// A client holds the same whether the break of its data connection, an octet or the opening at its port comes before its final reply or after it;
/// and after the end of the control connection the same whether it was told of a break or not.
pub fn clients_hear_late()
    ensures downloads { DownBreaksCommute }
    ensures uploads { UpBreaksCommute }
    ensures replies { UpRepliesCommute }
    ensures openings { OpeningCommutes }
    ensures unopened { UnopenedIsBroken }
    ensures lost { EndForgetsBreak }
    ensures lost_late { EndForgetsLateBreak }
{}
