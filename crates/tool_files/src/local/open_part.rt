// A part of a file that is open.
use crate::local::identity::FileStatus;
use std::alloc::{AllocError, Global};
use std::fs::File;
use std::io;
use std::os::unix::fs::FileExt;
use std::rc::Rc;

/// A part of a file, beside its name, that is open: what comes goes behind what it has. It stands until it is moved over the file, kept or discarded by
/// `LocalFiles`.
#[derive(Drop)]
pub struct OpenPart {
    /// The number of its name, as `beside` takes it.
    pub(crate) number: u32,
    opened: Rc<File, Global>,
    /// The permissions of the file that it is to replace.
    pub(crate) kept: Option<u32>,
}

impl OpenPart {
    /// A part of this number that was opened.
    pub(crate) fn new(
        alloc: Global,
        number: u32,
        opened: File,
        kept: Option<u32>,
    ) -> Result<OpenPart, AllocError> {
        Ok(OpenPart {
            number,
            opened: Rc::new(alloc, opened)?,
            kept,
        })
    }

    /// What writes behind what it has.
    pub fn writer(&self) -> &File {
        &self.opened
    }

    /// The same, for somebody else who writes behind what it has too.
    pub fn shared(&self) -> Result<Rc<File, Global>, AllocError> {
        self.opened.clone()
    }

    /// What the system says of it, whatever became of its name.
    pub(crate) fn look(&self) -> io::Result<FileStatus> {
        Ok(FileStatus::of(&self.opened.metadata()?))
    }

    /// Its octets from one place to another; fails where it has fewer.
    pub fn piece(&self, alloc: Global, from: u64, to: u64) -> io::Result<Vec<u8, Global>> {
        let mut octets = Vec::new(alloc);
        octets.resize(to.saturating_sub(from) as usize, 0)?;
        self.opened.read_exact_at(octets.as_mut_slice(), from)?;
        Ok(octets)
    }

    /// Leaves its first octets, so many.
    pub fn cut(&self, count: u64) -> io::Result<()> {
        self.opened.set_len(count)
    }

    /// Its octets are on the disk then.
    pub fn flush(&self) -> io::Result<()> {
        self.opened.sync_all()
    }
}
