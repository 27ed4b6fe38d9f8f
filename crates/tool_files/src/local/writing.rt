// The octets of a file that is made just now.
use crate::local::kept::name_of_note;
use crate::local::open_part::OpenPart;
use crate::local::part::beside;
use crate::local::place::unread;
use ftp_facts::{Moment, Text};
use std::alloc::Global;
use std::fs::{File, FileTimes, Files, OpenOptions, Permissions, TryLockError};
use std::io::{Error, ErrorKind, Write};
use std::os::unix::fs::{FileTypeExt, OpenOptionsExt, PermissionsExt};
use std::time::{Duration, SystemTime, UNIX_EPOCH};
use std::{fs, io};

/// How many names are tried beside a file: its own with `.ftp-part` behind, and more with `-1`, `-2` and so on behind that.
pub const PARTS: u32 = 100;

/// The permissions of a file that has no predecessor, less the umask.
const NEW_MODE: u32 = 0o666;

/// When the octets of a file that is written are on the disk.
#[derive(Clone, Copy)]
pub enum Flush {
    /// Before it takes its name, so that no power cut leaves a part of it there.
    First,
    /// When the system gets to it.
    Later,
}

/// What goes into a file, and how.
#[derive(Clone, Copy)]
pub(crate) struct FileWriting<'a> {
    pub(crate) pieces: &'a [Text<Global>],
    /// The permissions of the file that it replaces, which it keeps.
    pub(crate) kept: Option<u32>,
    /// When it was changed last, where that is said.
    pub(crate) moment: Option<Moment>,
    pub(crate) flush: Flush,
}

/// Makes a file beside another, by the first name that is free: what stands there may be of another program or of the user, and stays. One that may be
/// kept, which has a note beside it, takes a name by which no note stands yet. No name of a number among `passed` is taken.
pub(crate) fn create_beside<R: Files<File = File>>(
    files: &R,
    alloc: Global,
    file: &str,
    kept: Option<u32>,
    is_noted: bool,
    passed: &[u32],
) -> io::Result<OpenPart> {
    for number in 0..PARTS {
        if passed.contains(&number) {
            continue;
        }
        let name = beside(alloc, file, number)?;
        if is_noted && has_note(files, alloc, name.as_str())? {
            continue;
        }
        if let Some(opened) = open_new(files, name.as_str(), kept)? {
            return Ok(OpenPart::new(alloc, number, opened, kept)?);
        }
    }
    Err(Error::new(
        ErrorKind::AlreadyExists,
        "too many parts of it stand beside it already",
    ))
}

/// Makes a file to read and write, which no other process takes for its own as long as it is open; none where something has its name.
fn open_new<R: Files<File = File>>(
    files: &R,
    name: &str,
    kept: Option<u32>,
) -> io::Result<Option<File>> {
    let mut how = OpenOptions::new();
    how.read(true)
        .append(true)
        .create_new(true)
        .mode(kept.unwrap_or(NEW_MODE));
    match how.open(files, name) {
        Ok(opened) => {
            let _locked = opened.try_lock();
            Ok(Some(opened))
        }
        Err(error) if error.kind() == ErrorKind::AlreadyExists => Ok(None),
        Err(error) => Err(error),
    }
}

/// Opens a part that stands, to be written after what it has; none where another process has it open. It is opened for reading too: so the system opens a
/// named pipe that came in its place at once, and does not wait for who reads that.
pub(crate) fn open_again<R: Files<File = File>>(files: &R, name: &str) -> io::Result<Option<File>> {
    let mut how = OpenOptions::new();
    how.read(true).append(true);
    let opened = how.open(files, name)?;
    match opened.try_lock() {
        Err(TryLockError::WouldBlock) => Ok(None),
        Ok(()) | Err(TryLockError::Error(_)) => Ok(Some(opened)),
    }
}

/// Whether something has the name of a part's note, a link that leads to nothing too.
fn has_note<R: Files>(files: &R, alloc: Global, part: &str) -> io::Result<bool> {
    let note = name_of_note(alloc, part)?;
    match fs::symlink_metadata(files, note.as_str()) {
        Ok(_) => Ok(true),
        Err(error) if error.kind() == ErrorKind::NotFound => Ok(false),
        Err(error) => Err(error),
    }
}

/// Writes the octets of a file, and flushes it where that comes first.
pub(crate) fn write_to(part: &OpenPart, writing: FileWriting<'_>) -> io::Result<()> {
    let mut opened = part.writer();
    for piece in writing.pieces {
        opened.write_all(piece.as_slice())?;
    }
    settle(part, writing.moment, writing.flush)
}

/// Gives a part the permissions of the file that it is to replace, and its moment, where there is one; flushes it where that comes first.
pub(crate) fn settle(part: &OpenPart, moment: Option<Moment>, flush: Flush) -> io::Result<()> {
    let opened = part.writer();
    if let Some(mode) = part.kept {
        opened.set_permissions(Permissions::from_mode(mode))?;
    }
    if let Some(moment) = moment {
        opened.set_times(FileTimes::new().set_modified(time_of(moment)?))?;
    }
    match flush {
        Flush::First => opened.sync_all(),
        Flush::Later => Ok(()),
    }
}

/// Writes octets into what is no file, behind what stands there; `is_pipe`: a pipe, which a process has open.
pub(crate) fn write_into<R: Files<File = File>>(
    files: &R,
    file: &str,
    is_pipe: bool,
    pieces: &[Text<Global>],
) -> io::Result<()> {
    let mut opened = if is_pipe {
        open_behind(files, file, false)?
    } else {
        open_at_once(files, file)?
    };
    for piece in pieces {
        opened.write_all(piece.as_slice())?;
    }
    Ok(())
}

/// Opens what is no pipe, to be written after what it has. It is opened for reading too: so the system opens a named pipe that came in its place at once, and
/// that is refused. What can't be opened so, as where it may not be read, is opened to be written alone: there such a pipe is waited for.
fn open_at_once<R: Files<File = File>>(files: &R, file: &str) -> io::Result<File> {
    let opened = match open_behind(files, file, true) {
        Ok(opened) => opened,
        Err(_) => open_behind(files, file, false)?,
    };
    if opened.metadata()?.file_type().is_fifo() {
        return Err(unread());
    }
    Ok(opened)
}

/// Opens what stands at a name, to be written after what it has.
fn open_behind<R: Files<File = File>>(files: &R, file: &str, is_read: bool) -> io::Result<File> {
    let mut how = OpenOptions::new();
    how.read(is_read).append(true);
    how.open(files, file)
}

/// Makes a file of these octets, and flushes it. Where something has its name, a link too, that stays, and it fails.
pub(crate) fn write_new<R: Files<File = File>>(
    files: &R,
    file: &str,
    octets: &[u8],
) -> io::Result<()> {
    let mut how = OpenOptions::new();
    how.write(true).create_new(true).mode(NEW_MODE);
    let mut opened = how.open(files, file)?;
    opened.write_all(octets)?;
    opened.sync_all()
}

/// The system's time of a moment.
fn time_of(moment: Moment) -> io::Result<SystemTime> {
    match UNIX_EPOCH.checked_add(Duration::from_secs(moment.seconds)) {
        Some(time) => Ok(time),
        None => Err(Error::from(ErrorKind::InvalidInput)),
    }
}
