//! What holds of several sessions over one map: functions that do nothing, whose contracts are laws.
ghost use Rattle.laws_server.specs.several.Asked.{LinesAreDirect, OthersLeaveTheMap};
ghost use Rattle.laws_server.specs.several.Company.{CompanyIsUnseen};
ghost use Rattle.laws_server.specs.several.Actions.{CallsAreActions, EndsAreDirect, OthersOvertake, TurnsAreActions};
ghost use Rattle.laws_server.specs.several.Small.{AllStaySmall};
ghost use Rattle.laws_server.specs.several.Several.{EachIsServer, MapsFollow};

/// Each session of several is a server of its own whose map is exchanged before its calls; and each call is made with the map that the call before
/// it left, whichever session that was.
pub fn each_is_server()
    ensures own { EachIsServer }
    ensures maps { MapsFollow }
{}

/// What sessions below one root are given is what they are given without the others, where those are below roots that have no path with it in common.
pub fn company_is_unseen()
    ensures { CompanyIsUnseen }
{}

/// All of them stay small.
pub fn all_stay_small()
    ensures { AllStaySmall }
{}

/// Each line that asks for an operation is answered as the direct run answers on the map that stands, and leaves what that leaves; each other line leaves
/// the map. Each upload is put at its end as the direct run puts it on the map that stands then; but one that was overtaken leaves the map where it breaks or
/// is cut off.
pub fn lines_are_direct()
    ensures lines { LinesAreDirect }
    ensures others { OthersLeaveTheMap }
    ensures ends { EndsAreDirect }
{}

/// An upload at whose path others changed what stands is overtaken, and stays so; one at whose path that still stands is not.
pub fn others_overtake()
    ensures { OthersOvertake }
{}

/// Each call is made of lines that are acted on and ends of uploads, one after another, and of what the direct run sees nothing of; so is each turn of
/// several, on the map that the turn before it left.
pub fn calls_are_actions()
    ensures calls { CallsAreActions }
    ensures turns { TurnsAreActions }
{}
