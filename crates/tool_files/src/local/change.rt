// What changes a folder of this machine beside the octets of files.
use std::fs::Files;
use std::{fs, io};

/// What changes a folder beside the octets of files.
#[derive(Clone, Copy)]
pub enum Change {
    MakeDir,
    RemoveFile,
    RemoveDir,
}

/// Changes what stands at a place.
pub(crate) fn changed<R: Files>(files: &R, change: Change, place: &str) -> io::Result<()> {
    match change {
        Change::MakeDir => fs::create_dir(files, place),
        Change::RemoveFile => fs::remove_file(files, place),
        Change::RemoveDir => fs::remove_dir(files, place),
    }
}
