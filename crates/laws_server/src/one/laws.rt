//! How much a server holds: functions that do nothing, whose contracts are laws.
ghost use Rattle.laws_server.specs.one.Laws.{CallsStaySmall, SmallHoldsLittle, StartIsSmall};
ghost use Rattle.laws_server.specs.one.Links.{LinesGoBeside};
ghost use Rattle.laws_server.specs.one.Logins.{LinesLogIn};
ghost use Rattle.laws_server.specs.one.Losses.{FarStaysSmall};
ghost use Rattle.laws_server.specs.one.Maps.{LinesChangeTheMap};
ghost use Rattle.ftp_server_model.specs.Held.{HoldsLittle};

/// Whatever is called, a server never holds more than 24,576 octets beside the map, the accounts, what came of an upload, and what a transfer
/// shares with the tree, where of a transfer it stores at most 13,352 of them; its lines, its files and its uploads stay within their limits.
pub fn servers_hold_little()
    ensures start { StartIsSmall }
    ensures calls { CallsStaySmall }
    ensures held { SmallHoldsLittle }
    ensures always { HoldsLittle }
{}

/// Whoever keeps the clauses of `Far` stays small with each call in which its tree's device doesn't stray, where memory is refused and where the
/// device fails too.
pub fn servers_stay_small()
    ensures { FarStaysSmall }
{}

/// A line is acted on alike, whatever the data connection of a server is: it stays, is forgotten, asked for or aimed at, or a transfer begins over it.
pub fn lines_go_beside()
    ensures { LinesGoBeside }
{}

/// After a line the login is the one before, nobody's, or that of an account of the server, with its root and its rights.
pub fn lines_log_in()
    ensures { LinesLogIn }
{}

/// After a line the map is the one before, but for what stands at and below the root: by a line that may change it, of somebody who has a right to.
pub fn lines_change_the_map()
    ensures { LinesChangeTheMap }
{}
