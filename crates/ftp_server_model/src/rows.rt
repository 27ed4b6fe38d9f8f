//! Worked rows of a server: functions that do nothing, whose contracts are rows of `specs/Rows`.
ghost use Rattle.ftp_server_model.specs.Rows.{AbortAnswered, AbortPastRoom, BeforeLogin, BrokenUploadKept, ByFamily, DirectoryReplaced, DownloadCut, DownloadSent, EarlyAbort, EarlyEnd, EntriesSent, EntryTold, FactsChosen, FaultyUpload, FeaturesBehindOptions, FeaturesTold, ForeignEndpoint, ForeignOpener, LateRename, LateRestart, ListingSent, LoginAnswered, MadeBelowRoot, MarkerAnswered, NamesSent, OnlyExtended, OntoDone, OntoRefused, OpenLogin, OrderOfDecisions, QuitHeard, RecordsSent, RefusedListen, RefusedOpening, Reinitialized, RenameDone, RestartInAscii, RestartInPair, RestartInRecords, RestartSent, RootIsTop, RootMissing, TooMuchRefused, UploadDropped, UploadFromPlace, UploadInstalled, Utf8Chosen, WaitingLine, WrongPassword};

/// A login with a password.
pub fn login()
    // Witness: as of `answered`.
    ensures { LoginAnswered }
{}

/// A login without a password.
pub fn open_login()
    ensures { OpenLogin }
{}

/// A login to an account whose root is no directory.
pub fn missing_root()
    ensures { RootMissing }
{}

/// A wrong password ends the waiting of a USER.
pub fn wrong_password()
    ensures { WrongPassword }
{}

/// A long line, one that is no command, one of who is not logged in.
pub fn order()
    ensures { OrderOfDecisions }
{}

/// Commands that need no login, and one that does.
pub fn before_login()
    ensures { BeforeLogin }
{}

/// What FEAT tells.
pub fn features()
    ensures { FeaturesTold }
{}

/// OPTS UTF8.
pub fn utf8()
    ensures { Utf8Chosen }
{}

/// OPTS MLST.
pub fn facts()
    ensures { FactsChosen }
{}

/// REIN ends the login.
pub fn reinitialized()
    ensures { Reinitialized }
{}

/// QUIT is the last that is heard.
pub fn quit()
    ensures { QuitHeard }
{}

/// EPSV by the number of a family.
pub fn by_family()
    ensures { ByFamily }
{}

/// Behind EPSV ALL.
pub fn only_extended()
    ensures { OnlyExtended }
{}

/// PORT to another host.
pub fn foreign_endpoint()
    ensures { ForeignEndpoint }
{}

/// No port to listen at.
pub fn refused_listen()
    ensures { RefusedListen }
{}

/// An opening that is refused, and no endpoint.
pub fn refused_opening()
    ensures { RefusedOpening }
{}

/// A file in the place of the current directory.
pub fn no_directory()
    ensures { DirectoryReplaced }
{}

/// Another host at a passive port.
pub fn foreign_opener()
    ensures { ForeignOpener }
{}

/// `..` at the root of an account.
pub fn top()
    ensures { RootIsTop }
{}

/// MKD below the root of an account.
pub fn made()
    ensures { MadeBelowRoot }
{}

/// RNFR and RNTO.
pub fn rename()
    ensures { RenameDone }
{}

/// RNTO onto a file, of an account that may not rename onto files.
pub fn onto_refused()
    ensures { OntoRefused }
{}

/// RNTO onto a file, of an account that may.
pub fn onto_done()
    ensures { OntoDone }
{}

/// RNTO behind another line.
pub fn late_rename()
    ensures { LateRename }
{}

/// A download that the server opens.
pub fn active_download()
    ensures { DownloadSent }
{}

/// A download whose next octet is not had.
pub fn cut_download()
    ensures { DownloadCut }
{}

/// REST right before RETR.
pub fn restart()
    ensures { RestartSent }
{}

/// REST, another line, and RETR.
pub fn late_restart()
    ensures { LateRestart }
{}

/// REST in ASCII.
pub fn restart_in_ascii()
    ensures { RestartInAscii }
{}

/// REST into an octet that goes as two.
pub fn restart_in_pair()
    ensures { RestartInPair }
{}

/// REST in records.
pub fn restart_in_records()
    ensures { RestartInRecords }
{}

/// LIST of a directory.
pub fn listing()
    ensures { ListingSent }
{}

/// An upload that the client opens.
pub fn passive_upload()
    ensures { UploadInstalled }
{}

/// A break of an upload behind a CR.
pub fn broken_upload()
    ensures { BrokenUploadKept }
{}

/// An upload past the room for it.
pub fn too_much()
    ensures { TooMuchRefused }
{}

/// ABOR of an upload past the room for it.
pub fn abort_past_room()
    ensures { AbortPastRoom }
{}

/// An end of the connection before the end of file.
pub fn early_end()
    ensures { EarlyEnd }
{}

/// A fault of the wire in an upload.
pub fn faulty_upload()
    ensures { FaultyUpload }
{}

/// A restart marker in an upload.
pub fn marker()
    ensures { MarkerAnswered }
{}

/// ABOR before the link is open.
pub fn early_abort()
    ensures { EarlyAbort }
{}

/// A line during a transfer.
pub fn waiting_line()
    ensures { WaitingLine }
{}

/// ABOR of an upload.
pub fn abort()
    ensures { AbortAnswered }
{}

/// FEAT behind OPTS MLST.
pub fn features_behind_options()
    ensures { FeaturesBehindOptions }
{}

/// The entry of a directory.
pub fn entry()
    ensures { EntryTold }
{}

/// A file in records.
pub fn records()
    ensures { RecordsSent }
{}

/// NLST of a directory.
pub fn names()
    ensures { NamesSent }
{}

/// MLSD of a directory.
pub fn entries()
    ensures { EntriesSent }
{}

/// REST before STOR.
pub fn upload_from_place()
    ensures { UploadFromPlace }
{}

/// The end of the control connection in an upload.
pub fn dropped_upload()
    ensures { UploadDropped }
{}
