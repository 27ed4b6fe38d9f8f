//! What holds of the server's machine: functions that do nothing, whose contracts are laws.
ghost use Rattle.ftp_server_model.specs.Bounds.{ServerLowers};
ghost use Rattle.ftp_server_model.specs.Failing.{NeverFailsWithoutLogin};
ghost use Rattle.ftp_server_model.specs.InFlight.{ServerDropsAnswer, ServerHearsCommand, ServerHearsPieces, ServerHearsEachLine, LineLeavesEar, ServerHearsRow, StatedIsLine};
ghost use Rattle.ftp_server_model.specs.Replies.{RepliesAreWritten, RepliesHaveRoom};
ghost use Rattle.ftp_server_model.specs.Held.{KeepsLittle};
ghost use Rattle.ftp_server_model.specs.Kept.{EachCallKeeps, StartKeeps, UploadOctetKeeps};
ghost use Rattle.ftp_server_model.specs.Told.{LineKeeps, ParentIsPath, PathHasText, PathLeadsToPath, ReadCanBeHeard};
ghost use Rattle.ftp_server_model.specs.Machine.{OneReading, ReadingExists, ReadsStated};

/// Lines are read, in one way, and the line of a command as that command.
pub fn reading()
    ensures exists { ReadingExists }
    ensures one { OneReading }
    ensures stated { ReadsStated }
{}

/// A command line and an answer to a Telnet octet are heard by the server as themselves and as nothing else, wherever they are
/// cut; so is a row of lines, one after another.
pub fn commands_in_flight()
    ensures pieces { ServerHearsPieces }
    ensures line { ServerHearsEachLine }
    ensures stated { StatedIsLine }
    ensures command { ServerHearsCommand }
    ensures answer { ServerDropsAnswer }
    ensures ear { LineLeavesEar }
    ensures row { ServerHearsRow }
{}

/// Each reply that is said can be written, is read again as itself, and has at most 4,096 octets.
pub fn replies_are_written()
    ensures written { RepliesAreWritten }
    ensures room { RepliesHaveRoom }
{}

/// The canonical text of a path of names, within the limits, is a path text; and where a path text leads from there is such a path
/// again, unless it passes the limits.
pub fn paths_have_texts()
    ensures text { PathHasText }
    ensures led { PathLeadsToPath }
    ensures parent { ParentIsPath }
{}

/// What a line makes keeps its limits: the reply tells what is within them, and so do the paths of the session.
pub fn lines_keep_limits()
    ensures heard { ReadCanBeHeard }
    ensures made { LineKeeps }
{}

/// A server keeps its limits at the start and after each call: at most 8,192 control octets are owed. With short lines it holds at most
/// 24,576 octets.
pub fn calls_keep_limits()
    ensures start { StartKeeps }
    ensures calls { EachCallKeeps }
    ensures octets { UploadOctetKeeps }
    ensures little { KeepsLittle }
{}

/// A command that is answered 530 is never answered 451.
pub fn without_login()
    ensures { NeverFailsWithoutLogin }
{}

/// No call of the server that takes no octets makes more to do for it.
pub fn comes_to_rest()
    ensures { ServerLowers }
{}
