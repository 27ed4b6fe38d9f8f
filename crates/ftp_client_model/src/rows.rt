//! Worked rows of a client: functions that do nothing, whose contracts are rows of `specs/client/Rows`.
ghost use Rattle.ftp_client_model.specs.Rows.{ActiveDownload, ActiveReport, BrokenDownload, BrokenUpload, Endpoints, Judged, AnswersGreeting, LongGreeting, MarkRead, ReadsMoment, NamesRead, NotOpened, OtherHosts, OtherOrders, OwnCode, PassiveDownload, PassiveUpload, PassivePort, PeekAborts, PeekEnds, PeekFails, PeekOrders, PeekUnaborted, Quoted, Renames, TwoCodes, Unasked, Unsendable, UploadBeginsAnew, UploadGivesUp, UploadInTypeA, UploadResumes};

/// The greeting is answered with USER, and a 331 with PASS.
pub fn login()
    ensures { AnswersGreeting }
{}

/// A greeting of several lines is one reply, octet by octet.
pub fn long_greeting()
    ensures { LongGreeting }
{}

/// Six numbers are an endpoint, in parentheses or not.
pub fn endpoints()
    ensures { Endpoints }
{}

/// The port between delimiters.
pub fn passive_port()
    ensures { PassivePort }
{}

/// A path is quoted, and a double quote in it doubled.
pub fn quoted()
    ensures { Quoted }
{}

/// The server's marker stands behind the client's.
pub fn mark()
    ensures { MarkRead }
{}

/// Each line of a listing of names is a path text, or the listing names nothing.
pub fn names()
    ensures { NamesRead }
{}

/// A reply of several lines ends at its own code alone.
pub fn own_code()
    ensures { OwnCode }
{}

/// A reply is judged by its first digit and its place.
pub fn judged()
    ensures { Judged }
{}

/// 332 has no place, and 421 tells that the connection is lost.
pub fn two_codes()
    ensures { TwoCodes }
{}

/// A moment is read without its fraction.
pub fn moment()
    ensures { ReadsMoment }
{}

/// A reply that nobody waits for is strange.
pub fn unasked()
    ensures { Unasked }
{}

/// RNFR wants a 3yz, and RNTO follows it.
pub fn rename()
    ensures { Renames }
{}

/// An operation that can't be sent is answered at once.
pub fn unsendable()
    ensures { Unsendable }
{}

/// TYPE, PASV, the link, RETR, the 150, the octets, the end, the 226.
pub fn passive_download()
    ensures { PassiveDownload }
{}

/// The final reply and the link's end come in either order.
pub fn other_orders()
    ensures { OtherOrders }
{}

/// The client listens before PORT is sent, and accepts after the 150.
pub fn active_download()
    ensures { ActiveDownload }
{}

/// The octets of a download through a port of the client.
pub fn active_report()
    ensures { ActiveReport }
{}

/// A broken download gives what came, and one that ends early counts as broken.
pub fn broken_download()
    ensures { BrokenDownload }
{}

/// Octets of an upload are given after the 150 alone, and behind the last the link is closed.
pub fn passive_upload()
    ensures { PassiveUpload }
{}

/// An upload that breaks behind a CR.
pub fn broken_upload()
    ensures { BrokenUpload }
{}

/// A link or a port that is refused, and a 425, leave the operation undone.
pub fn not_opened()
    ensures { NotOpened }
{}

/// No other host is contacted or heard.
pub fn other_hosts()
    ensures { OtherHosts }
{}

/// An upload that broke after four octets asks SIZE and goes on there.
pub fn upload_resumes()
    ensures { UploadResumes }
{}

/// Where the server has no file, or more octets than there are, it begins anew; where nothing was opened, it tries the same again.
pub fn upload_begins_anew()
    ensures { UploadBeginsAnew }
{}

/// After sixteen tries the last answer is the report.
pub fn upload_gives_up()
    ensures { UploadGivesUp }
{}

/// An upload over breaks goes in type I and file structure.
pub fn upload_in_type_a()
    ensures { UploadInTypeA }
{}

/// A Peek sends ABOR once its 150 is in, its link is open and its octets are settled.
pub fn peek_aborts()
    ensures { PeekAborts }
{}

/// It reports its octets in every order of the two replies and the end of its link.
pub fn peek_orders()
    ensures { PeekOrders }
{}

/// A link that is over before that ends it without an ABOR.
pub fn peek_unaborted()
    ensures { PeekUnaborted }
{}

/// A file with fewer octets is reported whole.
pub fn peek_ends()
    ensures { PeekEnds }
{}

/// With fewer octets it answers as Get.
pub fn peek_fails()
    ensures { PeekFails }
{}
