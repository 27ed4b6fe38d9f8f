// A download, which goes on where it was cut: where its data connection broke, where its control connection ended, and where the server says that all
// is sent and not all came. After each try the server is asked once more which file it has: octets of two files are never joined.
ghost use Rattle.std.specs.Prelude.{◌≡◌};
ghost use Rattle.tool_resume.specs.Known.{moment_told, version_of};
ghost use Rattle.tool_resume.specs.Overlap.{awaited};
ghost use Rattle.tool_resume.specs.Received.{seen_of};
ghost use Rattle.tool_resume.specs.Tries.{is_spent};
ghost use Rattle.tool_resume.specs.Version.{arrived};

mod ahead;
mod asking;
mod following;
mod looking;
mod taking;
mod turns;

use crate::download_tries::{VersionCheck, is_spent};
use crate::known_file::{KnownFile, KnownMoment, moment_told};
use crate::noting::Noting;
use crate::received::ReceivedOctets;
use crate::retry::is_counted;
use crate::version::{Arrival, FileVersion, LastChange, Size, arrived};
use ftp_client_steps::MOST_TRIES;
use ftp_facts::Moment;
use ftp_operation::{Answer, How};
use std::alloc::{AllocError, Global};
use std::io;
use std::io::Eprint;
use tool_files::{LocalFiles, OpenPart};
use tool_session::{ClientSession, Openings, SessionFault, SessionTask, Ticket};

/// A download, until the server answers to it.
pub struct Downloading<'a, R> {
    rt: &'a R,
    alloc: Global,
    /// What its notes begin with.
    head: String<Global>,
    path: String<Global>,
    how: How,
    openings: &'a Openings,
    /// The most octets that the file may have.
    limit: u64,
    /// What came so far.
    came: ReceivedOctets,
    /// Where a note stands beside the part that it goes to.
    noting: Option<Noting>,
    /// How many tries may still begin, over all control connections.
    left: u64,
    /// Which file the server had before the first octet of what came.
    begun: FileVersion,
    /// What the server told last of the file.
    file: KnownFile,
    /// What is asked before a first try over a control connection.
    check: VersionCheck,
    /// By which its first try is answered, where all of the file was asked for ahead.
    ahead: Option<Ticket>,
}

/// By hand: a derived drop is proved again, part by part, wherever a download is let go.
impl<'a, R> Drop for Downloading<'a, R> {
    fn drop(self) {
        let Self {
            rt: _,
            alloc: _,
            head: _,
            path: _,
            how: _,
            openings: _,
            limit: _,
            came: _,
            noting: _,
            left: _,
            begun: _,
            file: _,
            check: _,
            ahead: _,
        } = self;
    }
}

impl<'a, R: LocalFiles + Eprint> Downloading<'a, R> {
    /// What is asked for: the file at a path of a server, of any size; its moment is not asked for. What comes is held in memory.
    /// Fails where memory is refused.
    pub fn new(
        rt: &'a R,
        alloc: Global,
        path: &str,
        how: How,
        openings: &'a Openings,
    ) -> Result<Downloading<'a, R>, AllocError> {
        let head = String::from_str(alloc, "note: ")?;
        let path = String::from_str(alloc, path)?;
        let file = KnownFile::new(how);
        Ok(Downloading {
            rt,
            alloc,
            head,
            path,
            how,
            openings,
            limit: u64::MAX,
            came: ReceivedOctets::new(alloc),
            noting: None,
            left: MOST_TRIES,
            begun: file.version(),
            file,
            check: VersionCheck::Asked,
            ahead: None,
        })
    }

    /// The file may have `limit` octets at most, and its moment is asked for where `moment` is `Untold`.
    pub fn put_terms(&mut self, limit: u64, moment: KnownMoment) {
        self.limit = limit;
        self.file.moment = moment;
    }

    /// Its notes name the file so. Fails where memory is refused.
    pub fn name_as(&mut self, name: &str) -> Result<(), AllocError> {
        self.head.push_str(name)?;
        self.head.push_str(": ")
    }

    /// What comes goes to this part of a file, as it comes, and none of it is held in memory.
    pub fn pour_into(&mut self, part: OpenPart) {
        self.came = ReceivedOctets::into_part(self.alloc, part);
    }

    /// The same, where the part has `count` octets of a file of `total` octets that was changed last at this moment, as its note says, which is none of a
    /// recent moment: the download goes on behind them where the server has that file still, and the last of them come once more; else it begins anew. Without
    /// a moment, and in settings in which octets are not counted, it begins anew. Fails where the part can't be read, or memory is refused.
    pub fn go_on_in(
        &mut self,
        part: OpenPart,
        count: u64,
        total: u64,
        moment: Option<Moment>,
    ) -> io::Result<()> {
        self.came = ReceivedOctets::into_kept(self.alloc, part, count)?;
        match moment {
            Some(moment) if is_counted(self.how) => {
                self.file = KnownFile {
                    size: Size::Told(total),
                    moment: KnownMoment::Told(moment),
                    ..self.file
                };
                self.begun = FileVersion {
                    size: self.file.size,
                    changed: LastChange::Settled(moment.seconds),
                };
            }
            _ => self.came.cut(0),
        }
        Ok(())
    }

    /// A note beside the part says of which file it is, as soon as the server tells that: the file of this end, and the place of the file at its server.
    /// Fails where memory is refused.
    pub fn note_as(&mut self, file: &str, place: &str) -> Result<(), AllocError> {
        self.noting = Some(Noting::new(self.alloc, file, place)?);
        Ok(())
    }

    /// The server listed the file with this size and this moment, and was asked for that at `asked_at` or later, in seconds from the beginning of 1970: the
    /// first try asks for neither. Where the listing lacks one of them, both are asked for, and `expect` is not called.
    pub fn expect(&mut self, total: u64, moment: Moment, asked_at: u64) {
        if is_counted(self.how) {
            self.file = KnownFile {
                size: Size::Told(total),
                moment: KnownMoment::Told(moment),
                asked_at,
            };
            self.begun = self.version();
            self.check = VersionCheck::Listed;
        }
    }

    /// What came, lent until more comes.
    pub fn came(&self) -> &ReceivedOctets {
        &self.came
    }

    /// The most octets that the file may have.
    pub fn limit(&self) -> u64
        ensures { result ≡ self.now.limit }
    {
        self.limit
    }

    /// Which file what came is of, as far as the server told before its first octet.
    pub fn begun(&self) -> FileVersion
        ensures { result ≡ self.now.begun }
    {
        self.begun
    }

    /// The moment that the server told last, if it was asked and tells one.
    pub fn moment(&self) -> Option<Moment>
        ensures { result ≡ moment_told self.now.file.moment }
    {
        moment_told(self.file.moment)
    }

    /// Whether no further try may begin, and none is looked at any more.
    pub fn is_spent(&self) -> bool
        ensures { result ≡ is_spent self.now.left self.now.check }
    {
        is_spent(self.left, self.check)
    }

    /// How it stands, once the server said that it is done.
    pub fn arrived(&self) -> Arrival
        // Witness: an equation; `edits/what_came_is_judged_by_the_file_of_before`.
        ensures { result ≡ arrived self.now.limit self.now.begun (version_of self.now.file)
            (seen_of self.now.came.count (awaited self.now.came.overlap)) }
    {
        arrived(self.limit, self.begun, self.version(), self.came.seen())
    }

    /// Which file the server has, as far as it told.
    fn version(&self) -> FileVersion
        ensures { result ≡ version_of self.now.file }
    {
        self.file.version()
    }
}

impl<'a, R: LocalFiles + Eprint> SessionTask<Result<Answer<Global>, SessionFault>>
    for Downloading<'a, R> {
    fn play<S: ClientSession>(&mut self, slot: &mut S) -> Result<Answer<Global>, SessionFault> {
        Ok(self.answer(slot))
    }
}

/// What a try leads to.
#[derive(Drop)]
pub(crate) enum DownloadTurn {
    /// Another try, behind what came.
    GoesOn,
    /// This answer, over this control connection.
    Over(Answer<Global>),
}

/// It is over with another answer than the last one, which is let go here: where one is let go at an arm's end, it is proved part by part.
pub(crate) fn over_with(last: Answer<Global>, answer: Answer<Global>) -> DownloadTurn {
    drop(last);
    DownloadTurn::Over(answer)
}
