// Where something lies on a disk, and what is looked at there before a change.
ghost use Rattle.std.specs.Prelude.{◌≡◌, ◌++◌, IfOk, string_bytes};
ghost use Rattle.ftp_disk_host.specs.Place.{folder_text};

use crate::host::{Found, Look, Stamp};
use std::alloc::{AllocError, Global};
use std::fs::{File, Files, Metadata, OpenFile};
use std::io::{Error, ErrorKind};
use std::os::unix::fs::MetadataExt;
use std::{fs, io};

/// The text of a directory: an empty one is the current one.
pub(crate) fn dir_text(dir: &str) -> &str
    ensures { result.now ≡ folder_text dir.now }
{
    if dir.is_empty() { "." } else { dir }
}

/// The text of a folder, and then a place below it.
pub(crate) fn place_of(alloc: Global, dir: &str, below: &str) -> Result<String<Global>, AllocError>
    ensures { IfOk result (λ place. string_bytes place ≡ dir.now ++ below.now) }
{
    let mut place = String::from_str(alloc, dir)?;
    place.push_str(below)?;
    Ok(place)
}

/// Fails where a directory on the way to a place, after the first `start` octets, is none: so no link is followed there.
pub(crate) fn check_way<R: Files>(files: &R, place: &str, start: usize) -> io::Result<()> {
    for end in start..place.len() {
        match place.split_at_checked(end) {
            Some((above, rest)) if end > start && rest.starts_with('/') => {
                check_dir(files, above)?;
            }
            _ => {}
        }
    }
    Ok(())
}

/// Fails where what stands at a place is no directory; a link to one is none.
fn check_dir<R: Files>(files: &R, place: &str) -> io::Result<()> {
    if fs::symlink_metadata(files, place)?.is_dir() {
        Ok(())
    } else {
        Err(Error::from(ErrorKind::NotADirectory))
    }
}

/// Fails where something stands at a place, or where that is not known.
pub(crate) fn check_free<R: Files>(files: &R, place: &str) -> io::Result<()> {
    match fs::symlink_metadata(files, place) {
        Ok(_) => Err(Error::from(ErrorKind::AlreadyExists)),
        Err(error) if error.kind() == ErrorKind::NotFound => Ok(()),
        Err(error) => Err(error),
    }
}

/// What was looked at, or that nothing stands there: also below what is no directory, and by a name that is too long for the system.
pub(crate) fn found_of(looked: io::Result<Metadata>) -> io::Result<Found> {
    match looked {
        Ok(found) if found.is_dir() => Ok(Found::Dir(look_of(&found))),
        Ok(found) if found.is_file() => Ok(Found::File(look_of(&found))),
        Ok(_) => Ok(Found::Other),
        Err(error) if is_absence(error.kind()) => Ok(Found::Nothing),
        Err(error) => Err(error),
    }
}

/// Whether a look failed as where nothing stands.
fn is_absence(kind: ErrorKind) -> bool {
    matches!(
        kind,
        ErrorKind::NotFound | ErrorKind::NotADirectory | ErrorKind::InvalidFilename
    )
}

/// What tells a file from each other one.
pub(crate) fn look_of(found: &Metadata) -> Look {
    Look {
        device: found.dev(),
        inode: found.ino(),
        len: found.len(),
        modified: Stamp {
            seconds: found.mtime(),
            nanos: found.mtime_nsec(),
        },
        touched: Stamp {
            seconds: found.ctime(),
            nanos: found.ctime_nsec(),
        },
    }
}

/// The text of the directory in which a place is.
pub(crate) fn above(place: &str) -> &str {
    match place.rsplit_once('/') {
        Some((dir, _)) => dir,
        None => ".",
    }
}

/// Flushes the directory in which a place is, so that its name there, or that it has none, is on the disk. A file system that can't flush a
/// directory says that the call is not valid; it is left alone (own choice).
pub(crate) fn sync_above<R: Files>(files: &R, place: &str) -> io::Result<()> {
    match File::open(files, above(place))?.sync_all() {
        Err(error) if error.kind() == ErrorKind::InvalidInput => Ok(()),
        synced => synced,
    }
}
