// Changes of names, so that they are on the disk.
use crate::place::{check_free, sync_above};
use std::fs::{Files, Metadata};
use std::io::{Error, ErrorKind};
use std::os::unix::fs::MetadataExt;
use std::{fs, io};

/// Makes a directory, and then its name is on the disk, or there is none.
pub(crate) fn make_at<R: Files>(files: &R, place: &str) -> io::Result<()> {
    fs::create_dir(files, place)?;
    let synced = sync_above(files, place);
    if synced.is_err() {
        let _gone = fs::remove_dir(files, place);
    }
    synced
}

/// Moves to a place where nothing stands, or not at all.
pub(crate) fn move_at<R: Files>(files: &R, from: &str, to: &str) -> io::Result<()> {
    check_free(files, to)?;
    fs::rename(files, from, to)?;
    let synced = sync_both(files, from, to);
    if synced.is_err() {
        let _back = fs::rename(files, to, from);
    }
    synced
}

/// Moves a file into the place of another, in one call of the system, or not at all. What stands at both places is still what a tree has there: two files.
/// Where the names can't be flushed then, it is not moved back, since the file whose place it took is gone.
pub(crate) fn move_onto<R: Files>(files: &R, from: &str, to: &str) -> io::Result<()> {
    let one = fs::symlink_metadata(files, from)?;
    check_two(&one, &fs::symlink_metadata(files, to)?)?;
    fs::rename(files, from, to)?;
    sync_both(files, from, to)
}

/// Fails where what was found at two places is not two files: a link is none, and one file by two names is not moved, though a system says that it is.
fn check_two(one: &Metadata, other: &Metadata) -> io::Result<()> {
    let are_files = one.is_file() && other.is_file();
    if are_files && (one.dev() != other.dev() || one.ino() != other.ino()) {
        Ok(())
    } else {
        Err(Error::from(ErrorKind::AlreadyExists))
    }
}

/// Both names of a move are on the disk: the new one first, so that the file never has none there.
fn sync_both<R: Files>(files: &R, from: &str, to: &str) -> io::Result<()> {
    sync_above(files, to)?;
    sync_above(files, from)
}
