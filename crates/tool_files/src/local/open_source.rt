// A file that is open, whose octets are read as they go.
use std::fs::{File, Files};
use std::io;
use std::io::{Seek, SeekFrom};
use std::time::SystemTime;

/// A file that is open, whose octets are read as they go.
#[derive(Drop)]
pub struct OpenSource {
    pub opened: File,
    /// How many octets it has.
    pub total: u64,
    /// When it was changed last, where that is known.
    pub changed: Option<SystemTime>,
}

/// A file, open at one of its octets; none where that is no file of a known size, as a pipe or what the system makes up.
pub(crate) fn open_source<R: Files<File = File>>(
    files: &R,
    file: &str,
    from: u64,
) -> io::Result<Option<OpenSource>> {
    let mut opened = File::open(files, file)?;
    let found = opened.metadata()?;
    if !found.is_file() || found.len() == 0 {
        return Ok(None);
    }
    if from > 0 {
        let _place = opened.seek(SeekFrom::Start(from))?;
    }
    Ok(Some(OpenSource {
        opened,
        total: found.len(),
        changed: found.modified().ok(),
    }))
}
