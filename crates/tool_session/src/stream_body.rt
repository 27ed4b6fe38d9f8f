// What goes over a data connection in the place of what a client gives and hears, in the kinds that any control connection can carry.
use crate::shared_file::SharedFile;
use ftp_client_stream::{Carries, ReaderSource, SinkTransfer, SourceTransfer, WriterSink};
use std::alloc::Global;
use std::fs::File;
use std::io;
use std::io::{Read, Write};

/// A download whose octets go to a file.
pub type FileDownloadStream = SinkTransfer<WriterSink<SharedFile>>;

/// An upload whose octets are read of a file.
pub type FileUploadStream = SourceTransfer<ReaderSource<File>, Global>;

/// What goes over a data connection; in boxes, since it is handed on often, and has thousands of octets.
pub enum StreamBody {
    /// What a client gives and hears.
    Own,
    /// A download whose octets go to a file.
    ToFile(Box<FileDownloadStream, Global>),
    /// An upload whose octets are read of a file.
    FromFile(Box<FileUploadStream, Global>),
}

/// By hand: a derived drop is proved again wherever one is let go.
impl Drop for StreamBody {
    fn drop(self) {
        match self {
            StreamBody::Own => {}
            StreamBody::ToFile(_) | StreamBody::FromFile(_) => {}
        }
    }
}

impl StreamBody {
    fn into_download(self) -> Option<FileDownloadStream> {
        match self {
            StreamBody::ToFile(download) => Some(Box::into_inner(download)),
            _ => None,
        }
    }

    fn into_upload(self) -> Option<FileUploadStream> {
        match self {
            StreamBody::FromFile(upload) => Some(Box::into_inner(upload)),
            _ => None,
        }
    }

    /// Whether what goes over the data connection is what the client gives and hears.
    pub fn is_own(&self) -> bool {
        matches!(self, StreamBody::Own)
    }
}

impl Carries for StreamBody {
    fn hear<L: Read>(&mut self, link: &mut L, room: &mut [u8]) -> io::Result<usize> {
        match self {
            StreamBody::Own => link.read(room),
            StreamBody::ToFile(download) => Carries::hear(&mut **download, link, room),
            StreamBody::FromFile(upload) => Carries::hear(&mut **upload, link, room),
        }
    }

    fn give<L: Write>(&mut self, link: &mut L, octets: &[u8]) -> io::Result<usize> {
        match self {
            StreamBody::Own => link.write(octets),
            StreamBody::ToFile(download) => download.give(link, octets),
            StreamBody::FromFile(upload) => upload.give(link, octets),
        }
    }
}

/// What can be carried over any control connection.
pub trait FromStreamBody: Carries + Drop {
    /// As what goes over a data connection; itself where memory is refused.
    fn load(self, alloc: Global) -> Result<StreamBody, Self>;

    /// What was loaded; none where it is of another kind.
    fn unload(stream_body: StreamBody) -> Option<Self>;
}

impl FromStreamBody for FileDownloadStream {
    fn load(self, alloc: Global) -> Result<StreamBody, FileDownloadStream> {
        match Box::new(alloc, self) {
            Ok(download) => Ok(StreamBody::ToFile(download)),
            Err(failed) => Err(failed.value),
        }
    }

    fn unload(stream_body: StreamBody) -> Option<FileDownloadStream> {
        stream_body.into_download()
    }
}

impl FromStreamBody for FileUploadStream {
    fn load(self, alloc: Global) -> Result<StreamBody, FileUploadStream> {
        match Box::new(alloc, self) {
            Ok(upload) => Ok(StreamBody::FromFile(upload)),
            Err(failed) => Err(failed.value),
        }
    }

    fn unload(stream_body: StreamBody) -> Option<FileUploadStream> {
        stream_body.into_upload()
    }
}
