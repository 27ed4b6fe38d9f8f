// The octets of an upload, at this end.
use ftp_client_stream::{ReaderSource, SourceTransfer};
use ftp_operation::How;
use std::alloc::Global;
use std::fs::File;
use std::io;
use std::io::{Error, ErrorKind, Read};
use std::time::SystemTime;
use tool_files::{LocalFiles, OpenSource};

/// What stands for the octets of a file in an operation of which others go: some, so that their end is awaited.
pub(crate) const STAND_IN: &[u8] = b"-";

/// What a data connection of an upload carries: octets of a file, as they are read.
pub(crate) type FileUploadStream = SourceTransfer<ReaderSource<File>, Global>;

/// The octets of an upload.
pub enum UploadSource<'a> {
    /// Those of a file, which are read as they go.
    File(FileSource<'a>),
    /// Those that can be had only once, as from standard input: they stay here.
    Kept(Vec<u8, Global>),
}

/// A file of this end, whose octets go.
pub struct FileSource<'a> {
    name: &'a str,
    /// The file as it was opened first, until its octets go for the first time.
    opened: Option<OpenSource>,
    total: u64,
    /// When it was changed last, where that is known.
    changed: Option<SystemTime>,
}

/// By hand: a derived drop is proved again, part by part, wherever octets are let go.
impl<'a> Drop for UploadSource<'a> {
    fn drop(self) {
        match self {
            UploadSource::File(_) | UploadSource::Kept(_) => {}
        }
    }
}

/// By hand, as above.
impl<'a> Drop for FileSource<'a> {
    fn drop(self) {
        let Self {
            name: _,
            opened: _,
            total: _,
            changed: _,
        } = self;
    }
}

impl<'a> UploadSource<'a> {
    /// A file of this name, open at its first octet.
    pub fn file(name: &'a str, opened: OpenSource) -> UploadSource<'a> {
        UploadSource::File(FileSource {
            name,
            total: opened.total,
            changed: opened.changed,
            opened: Some(opened),
        })
    }

    /// How many octets there are.
    pub(crate) fn total(&self) -> u64 {
        match self {
            UploadSource::File(file) => file.total,
            UploadSource::Kept(octets) => octets.len() as u64,
        }
    }

    /// What carries octets of a file to a data connection, from one of them on; none of those that stay here. Fails where the file has changed since it was
    /// opened first. The first try asks for all.
    pub(crate) fn source_transfer<R: LocalFiles>(
        &mut self,
        rt: &R,
        alloc: Global,
        how: How,
        from: u64,
    ) -> io::Result<Option<FileUploadStream>> {
        match self {
            UploadSource::File(file) => Ok(Some(file.source_transfer(rt, alloc, how, from)?)),
            UploadSource::Kept(_) => Ok(None),
        }
    }

    /// Those from one place to another. Fails where the file has changed since it was opened first.
    pub(crate) fn piece<R: LocalFiles>(
        &self,
        rt: &R,
        alloc: Global,
        (from, to): (u64, u64),
    ) -> io::Result<Vec<u8, Global>> {
        match self {
            UploadSource::File(file) => {
                let mut opened = file.open_again(rt, from)?;
                read_piece(alloc, &mut opened.opened, to.saturating_sub(from))
            }
            UploadSource::Kept(octets) => {
                let (front, _) = octets.split_at(octets.len().min(to as usize));
                let (_, piece) = front.split_at(front.len().min(from as usize));
                Ok(Vec::from_slice(alloc, piece)?)
            }
        }
    }

    /// Why what a data connection carried is not the file as it was opened first: it could not be read, or it has changed by the last octet where all is said
    /// to be done; none where it is.
    pub(crate) fn fault(&self, home: Option<FileUploadStream>, is_done: bool) -> Option<Error> {
        let Some(source_transfer) = home else {
            return Some(Error::from(ErrorKind::NotConnected));
        };
        let reader_source = source_transfer.into_source();
        let fault = reader_source.fault();
        if fault.is_some() || !is_done {
            return fault;
        }
        match self {
            UploadSource::File(file) => file.check(reader_source.reader()).err(),
            UploadSource::Kept(_) => None,
        }
    }

    /// A copy of those that stay here, from one of them on; none of a file.
    pub(crate) fn copy_from(&self, alloc: Global, from: u64) -> io::Result<Vec<u8, Global>> {
        match self {
            UploadSource::File(_) => Ok(Vec::new(alloc)),
            UploadSource::Kept(octets) => {
                let (_, rest) = octets.split_at(octets.len().min(from as usize));
                Ok(Vec::from_slice(alloc, rest)?)
            }
        }
    }
}

impl<'a> FileSource<'a> {
    /// What carries the octets from one of them on.
    fn source_transfer<R: LocalFiles>(
        &mut self,
        rt: &R,
        alloc: Global,
        how: How,
        from: u64,
    ) -> io::Result<FileUploadStream> {
        let opened = match self.opened.take() {
            Some(opened) => opened,
            None => self.open_again(rt, from)?,
        };
        let reader_source = ReaderSource::new(opened.opened, self.total.saturating_sub(from));
        let start = if how.marks { Some(from) } else { None };
        Ok(SourceTransfer::new(how.representation, start, reader_source, alloc)?)
    }

    /// Opens the file anew, at one of its octets; fails where it has another size or moment than before.
    fn open_again<R: LocalFiles>(&self, rt: &R, from: u64) -> io::Result<OpenSource> {
        if let Some(opened) = rt.open_source(self.name, from)? {
            if opened.total == self.total && opened.changed == self.changed {
                return Ok(opened);
            }
        }
        Err(changed())
    }

    /// Fails where a file, which was read, has another size or moment than this one had when it was opened first.
    fn check(&self, read: &File) -> io::Result<()> {
        let found = read.metadata()?;
        if found.len() == self.total && found.modified().ok() == self.changed {
            Ok(())
        } else {
            Err(changed())
        }
    }
}

/// By what a file is refused that is not as it was when it was opened first.
fn changed() -> Error {
    Error::new(
        ErrorKind::InvalidData,
        "it has changed since the upload began",
    )
}

/// So many octets that a reader gives next; fewer where it ends before.
fn read_piece<F: Read>(alloc: Global, reader: &mut F, count: u64) -> io::Result<Vec<u8, Global>> {
    let mut octets = Vec::new(alloc);
    let _count = reader.take(count).read_to_end(&mut octets)?;
    Ok(octets)
}
