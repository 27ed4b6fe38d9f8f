//! What an account's root keeps apart, and what an account without rights leaves as it is: functions that do nothing, whose contracts are laws.
ghost use Rattle.ftp_server_model.specs.Play.{RootsAreApart};
ghost use Rattle.laws_server.specs.one.Apart.{CallsStayApart, CopiesLookAlike, StartsAreCopies};
ghost use Rattle.laws_server.specs.one.Lookers.{CallsOnlyLook, FarLeavesTheMap, LookersLeaveTheMap, StartsLook};

/// Whatever is called, hostile octets too: where each login that succeeds is to one root, nothing outside of it changes, and what the calls
/// give is what they give of the part of the map at and below it.
pub fn roots_are_apart()
    ensures { RootsAreApart }
{}

/// Of two that keep the clauses of `Far`, one of which has only what stands at and below the root, each call leaves two such, whichever octets
/// are taken and given, where neither is refused memory and no device fails or strays; they look alike to others, and nothing outside of the root changes.
pub fn calls_stay_apart()
    ensures start { StartsAreCopies }
    ensures calls { CallsStayApart }
    ensures alike { CopiesLookAlike }
{}

/// Where no account has a right to change, the map stays as it is, whatever is called, hostile octets too; and so it is with each call of whoever
/// keeps the clauses of `Far` in which its tree's device doesn't stray, where memory is refused and where the device fails too.
pub fn lookers_leave_the_map()
    ensures start { StartsLook }
    ensures calls { CallsOnlyLook }
    ensures always { LookersLeaveTheMap }
    ensures far { FarLeavesTheMap }
{}
