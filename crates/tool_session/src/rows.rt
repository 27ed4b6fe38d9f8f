//! Worked rows, and a law: functions that do nothing, with rows of `specs/OpeningRows` and the law of `specs/Again` as contracts.
ghost use Rattle.tool_session.specs.Again.{AgreesInPieces};
ghost use Rattle.tool_session.specs.OpeningRows.{ActiveFallsBack, ListingFallsBack, NamesStrangers, PassiveFallsBack};

/// After which answers PASV is asked for in place of EPSV.
pub fn passive()
    ensures { PassiveFallsBack }
{}

/// After which answers PORT is asked for in place of EPRT.
pub fn active()
    ensures { ActiveFallsBack }
{}

/// After which answers LIST is asked for in place of MLSD.
pub fn listing()
    ensures { ListingFallsBack }
{}

/// What is said of another host than the server's.
pub fn strangers()
    ensures { NamesStrangers }
{}

/// Octets that come once more in pieces are compared as those that come at once.
pub fn octets_in_pieces()
    // Witness: a law, proved of an empty body.
    ensures { AgreesInPieces }
{}
