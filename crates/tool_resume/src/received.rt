// What came of a download.
ghost use Rattle.std.specs.Prelude.{◌≡◌};
ghost use Rattle.tool_resume.specs.Overlap.{awaited};
ghost use Rattle.tool_resume.specs.Received.{seen_of, start_of};

use crate::overlap::Overlap;
use crate::step::{FrontOwner, front_from};
use ftp_client_stream::{SinkTransfer, WriterSink};
use ftp_facts::Text;
use ftp_operation::Answer;
use ftp_settings::Representation;
use ftp_wire::Sink;
use std::alloc::{AllocError, Global};
use std::io;
use std::io::{Error, ErrorKind};
use tool_files::OpenPart;
use tool_session::{FileDownloadStream, SharedFile, is_other};

/// The octets that came: in a part of a file, to which they go as they come, or in memory, in pieces, none of which is copied.
pub struct ReceivedOctets {
    /// Those in memory: none where there is a part.
    pieces: Vec<Text<Global>, Global>,
    part: Option<OpenPart>,
    /// How many they are, with those that the part has of an earlier run.
    count: u64,
    /// The last octets of an earlier run, as far as they did not come once more.
    overlap: Overlap,
    /// Why the part could not be written, where it could not.
    fault: Option<Error>,
}

/// By hand: a derived drop is proved again, part by part, wherever octets are let go.
impl Drop for ReceivedOctets {
    fn drop(self) {
        let Self {
            pieces: _,
            part: _,
            count: _,
            overlap: _,
            fault: _,
        } = self;
    }
}

impl ReceivedOctets {
    /// Nothing yet; what comes is held in memory.
    pub fn new(alloc: Global) -> ReceivedOctets {
        ReceivedOctets {
            pieces: Vec::new(alloc),
            part: None,
            count: 0,
            overlap: Overlap::none(alloc),
            fault: None,
        }
    }

    /// Nothing yet; what comes goes to a part that has nothing.
    pub(crate) fn into_part(alloc: Global, part: OpenPart) -> ReceivedOctets {
        ReceivedOctets {
            pieces: Vec::new(alloc),
            part: Some(part),
            count: 0,
            overlap: Overlap::none(alloc),
            fault: None,
        }
    }

    /// So many octets, which a part has of an earlier run; what comes goes after them once the last of them came again.
    pub(crate) fn into_kept(
        alloc: Global,
        part: OpenPart,
        count: u64,
    ) -> io::Result<ReceivedOctets> {
        let last = part.piece(alloc, front_from(count), count)?;
        Ok(ReceivedOctets {
            pieces: Vec::new(alloc),
            part: Some(part),
            count,
            overlap: Overlap::of(last),
            fault: None,
        })
    }

    /// These came behind those of before. Fails where memory is refused; that the part can't be written is told by `fault`.
    pub(crate) fn add(&mut self, piece: Text<Global>) -> Result<(), AllocError> {
        if self.part.is_some() {
            self.write(piece.as_slice());
            return Ok(());
        }
        self.count = self.count.saturating_add(piece.as_slice().len() as u64);
        self.pieces.push(piece)?;
        Ok(())
    }

    /// Writes octets to the part; none of them where those of an earlier run are not seen to be the file's own.
    fn write(&mut self, octets: &[u8]) {
        let Some(part) = &self.part else {
            return;
        };
        if self.overlap.awaited() > 0 {
            return;
        }
        let mut writer_sink = WriterSink::new(part.writer());
        let _written = writer_sink.push(octets);
        let (count, fault) = (writer_sink.count(), writer_sink.fault());
        drop(writer_sink);
        self.wrote(count, fault);
    }

    /// A data connection brought so many octets to the part, of which the first are those that are awaited once more, and it failed or not; `is_done`: the
    /// server says that it sent all. That an awaited octet is another is no failure of the part.
    pub(crate) fn took(&mut self, came: u64, fault: Option<Error>, is_done: bool) {
        let is_other = self.overlap.awaited() > 0 && is_other(fault);
        let joined = self.overlap.hear(came, is_other, is_done);
        self.wrote(joined, if is_other { None } else { fault });
    }

    /// So many octets went to the part, and it failed or not: of those that it took in part it has none then.
    fn wrote(&mut self, count: u64, fault: Option<Error>) {
        self.count = self.count.saturating_add(count);
        if let (Some(error), Some(part)) = (fault, &self.part) {
            let _cut = part.cut(self.count);
            self.fault = Some(error);
        }
    }

    /// What carries octets of a data connection in these settings to the part, where there is one.
    pub(crate) fn sink_transfer(
        &self,
        alloc: Global,
        settings: Representation,
    ) -> Result<Option<FileDownloadStream>, AllocError> {
        match &self.part {
            Some(part) => {
                let awaited = Vec::from_slice(alloc, self.overlap.rest())?;
                let writer = SharedFile::new(part.shared()?, awaited);
                Ok(Some(SinkTransfer::new(settings, WriterSink::new(writer))))
            }
            None => Ok(None),
        }
    }

    /// Leaves the first octets, so many.
    pub(crate) fn cut(&mut self, count: u64) {
        self.count = count;
        self.pieces.clear();
        self.overlap.clear();
        if let Some(part) = &self.part {
            if let Err(error) = part.cut(count) {
                self.fault = Some(error);
            }
        }
    }

    /// How many octets came, with those that the part has of an earlier run.
    pub fn count(&self) -> u64
        ensures { result ≡ self.now.count }
    {
        self.count
    }

    /// From which octet of the file on, counted from 0, the next ones are asked for: from those that are awaited once more.
    pub(crate) fn start(&self) -> u64
        // Witness: an equation; `edits/the_last_octets_of_a_part_are_not_asked_for_again`.
        ensures { result ≡ start_of self.now.count (awaited self.now.overlap) }
    {
        self.count.saturating_sub(self.overlap.awaited())
    }

    /// How many octets are seen to be the file's: none of a part of an earlier run, until its last ones came once more.
    pub(crate) fn seen(&self) -> u64
        // Witness: an equation; `edits/a_part_counts_before_its_last_octets_came_again`.
        ensures { result ≡ seen_of self.now.count (awaited self.now.overlap) }
    {
        if self.overlap.awaited() == 0 {
            self.count
        } else {
            0
        }
    }

    /// Whose the part is, as far as the octets that are awaited once more came.
    pub(crate) fn owner(&self) -> FrontOwner
        ensures { result ≡ self.now.overlap.owner }
    {
        self.overlap.owner()
    }

    /// The part that they are in, where they are in one, lent until more come.
    pub fn part(&self) -> Option<&OpenPart> {
        self.part.as_ref()
    }

    /// Why the part could not be written, where it could not.
    pub fn fault(&self) -> Option<Error>
        ensures { result ≡ self.now.fault }
    {
        self.fault
    }

    /// The part can't be written, for this reason.
    pub(crate) fn fail(&mut self, error: Error) {
        self.fault = Some(error);
    }

    /// Whether these octets came, where they are in memory.
    pub fn is(&self, octets: &[u8]) -> bool {
        let mut rest = octets;
        for piece in &self.pieces {
            let piece = piece.as_slice();
            if !rest.starts_with(piece) {
                return false;
            }
            rest = rest.get(piece.len()..).unwrap_or(&[]);
        }
        rest.is_empty()
    }

    /// The octets in memory, piece by piece, lent until more come; none where there is a part.
    pub fn pieces(&self) -> &[Text<Global>] {
        self.pieces.as_slice()
    }
}

/// How many octets a data connection brought to a part that was answered so, and why that failed, if it did. Where the answer says that they are a whole
/// file, a CR that was held goes there too.
pub(crate) fn poured(
    home: Option<FileDownloadStream>,
    answer: &Answer<Global>,
) -> (u64, Option<Error>) {
    let Some(mut sink_transfer) = home else {
        return (0, Some(Error::from(ErrorKind::NotConnected)));
    };
    if matches!(answer, Answer::Octets(_)) {
        let _ended = sink_transfer.end();
    }
    let writer_sink = sink_transfer.into_sink();
    (writer_sink.count(), writer_sink.fault())
}
