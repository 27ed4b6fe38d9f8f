//! What holds of the client's machine: functions that do nothing, whose contracts are laws.
ghost use Rattle.ftp_client_model.specs.Bounds.{EventsAddNone, GivingPays, HearingAddsAnAnswer, ReceivingAddsNone, ShortAddsAClose};
ghost use Rattle.ftp_client_model.specs.Busy.{BeginsLeft, EachStaysLeft, OnlyBeginsBusy};
ghost use Rattle.ftp_client_model.specs.Sent.{LoginsHaveLines, StepsHaveLines};
ghost use Rattle.ftp_client_model.specs.InFlight.{ClientDropsAnswer, AnsweredAtRest, ClientHearsInPieces, FrontsAreAlike, ReplyIsHeard, ClientHearsRow};

/// A reply and an answer to a Telnet octet are heard by the client as themselves and as nothing else, wherever they are cut; so is
/// a row of replies, one after another.
pub fn replies_in_flight()
    ensures pieces { ClientHearsInPieces }
    ensures reply { ReplyIsHeard }
    ensures fronts { FrontsAreAlike }
    ensures answer { ClientDropsAnswer }
    ensures rest { AnsweredAtRest }
    ensures row { ClientHearsRow }
{}

/// No call of the client that begins nothing makes more to do for it, but for the answers that Telnet octets are owed.
pub fn comes_to_rest()
    ensures hearing { HearingAddsAnAnswer }
    ensures receiving { ReceivingAddsNone }
    ensures events { EventsAddNone }
    ensures giving { GivingPays }
    ensures want { ShortAddsAClose }
{}

/// Each command of an operation that can be sent, and of a login, has a line.
pub fn commands_have_lines()
    ensures steps { StepsHaveLines }
    ensures login { LoginsHaveLines }
{}

/// No call but `start` and `upload` makes a client busy, also where it is short of memory.
pub fn only_begins_busy()
    ensures { OnlyBeginsBusy }
{}

/// Nothing is left of an operation that is over: no port and no link of it is asked for, and none stands.
pub fn nothing_is_left()
    ensures begins { BeginsLeft }
    ensures stays { EachStaysLeft }
{}
