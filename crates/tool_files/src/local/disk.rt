// What is asked of this machine's files by names alone, as a trait without types of its own: what stands on it is proved for less than on the system's
// files, which bring two types and their bounds.
ghost use Rattle.std.specs.Prelude.{ℕ, IfOk, ⊤};
ghost use Rattle.tool_files.specs.declared.local.open_part.OpenPart.{OpenPart};

use crate::local::content::{LimitedContent, read_from};
use crate::local::identity::FileStatus;
use crate::local::open_part::OpenPart;
use crate::local::place::FileKind;
use crate::local::writing::{create_beside, open_again, write_into, write_new};
use ftp_facts::Text;
use std::alloc::Global;
use std::fs::{File, Files};
use std::io::ErrorKind;
use std::path::PathBuf;
use std::{fs, io};

/// A part that stands, open again.
#[derive(Drop)]
pub(crate) struct Reopened {
    pub(crate) opened: File,
    /// How many octets it has.
    pub(crate) count: u64,
    pub(crate) look: FileStatus,
}

/// What is asked of files by their names.
pub(crate) trait Disk {
    /// The system told that a part has so many octets.
    ghost has_length: { OpenPart → (length : ℕ) → Type 0 } = { λ part length. ⊤ };

    /// All octets of a file, where it has `limit` octets at most.
    fn read(&self, name: &str, limit: u64) -> io::Result<LimitedContent>;

    /// What stands at a name, where links are followed.
    fn standing_at(&self, name: &str) -> io::Result<FileKind>;

    /// What has this very name, be it a link; none where nothing has it.
    fn look_at(&self, name: &str) -> io::Result<Option<FileStatus>>;

    /// The permissions of the file that has this very name; none where no file has it, as where a link has.
    fn mode_at(&self, name: &str) -> io::Result<Option<u32>>;

    fn exists(&self, name: &str) -> io::Result<bool>;

    /// The name that a link has, from the directory that the link is in; none where no link has this name.
    fn link_at(&self, name: &PathBuf<Global>) -> io::Result<Option<PathBuf<Global>>>;

    /// Makes a file beside this one, to replace one of these permissions, where there is one; one that may be kept has no note yet. Its number is none of
    /// those that are passed over.
    fn create_beside(
        &self,
        file: &str,
        kept: Option<u32>,
        is_noted: bool,
        passed: &[u32],
    ) -> io::Result<OpenPart>;

    /// Opens a part that stands, to be written behind what it has; none where another process has it open. Nothing is written.
    fn open_again(&self, name: &str) -> io::Result<Option<Reopened>>;

    /// Writes octets behind what stands at a name that is no file's; `is_pipe`: a pipe, which a process has open.
    fn write_into(&self, name: &str, is_pipe: bool, pieces: &[Text<Global>]) -> io::Result<()>;

    /// Makes a file of these octets, and flushes it. Where something has its name, a link too, that stays, and it fails.
    fn write_new(&self, name: &str, octets: &[u8]) -> io::Result<()>;

    fn rename(&self, from: &str, to: &str) -> io::Result<()>;

    /// How many octets a part has.
    fn length(&self, part: &OpenPart) -> io::Result<u64>
        ensures { IfOk result (λ length. has_length part.now length) };

    /// Renames a part that is whole: the system told that it has so many octets.
    fn rename_whole(&self, part: &OpenPart, count: u64, from: &str, to: &str) -> io::Result<()>
        requires { has_length part.now count };

    fn remove(&self, name: &str) -> io::Result<()>;
}

impl<R: Files<File = File> + AllocGlobal> Disk for R {
    fn read(&self, name: &str, limit: u64) -> io::Result<LimitedContent> {
        read_from(self, name, 0, limit)
    }

    fn standing_at(&self, name: &str) -> io::Result<FileKind> {
        standing_at(self, name)
    }

    fn look_at(&self, name: &str) -> io::Result<Option<FileStatus>> {
        look_at(self, name)
    }

    fn mode_at(&self, name: &str) -> io::Result<Option<u32>> {
        match look_at(self, name)? {
            Some(look) => Ok(mode_of(look.standing)),
            None => Ok(None),
        }
    }

    fn exists(&self, name: &str) -> io::Result<bool> {
        fs::exists(self, name)
    }

    fn link_at(&self, name: &PathBuf<Global>) -> io::Result<Option<PathBuf<Global>>> {
        if !is_link(self, name) {
            return Ok(None);
        }
        let target = fs::read_link(self, name)?;
        from_directory(self.alloc(), name, target)
    }

    fn create_beside(
        &self,
        file: &str,
        kept: Option<u32>,
        is_noted: bool,
        passed: &[u32],
    ) -> io::Result<OpenPart> {
        create_beside(self, self.alloc(), file, kept, is_noted, passed)
    }

    fn open_again(&self, name: &str) -> io::Result<Option<Reopened>> {
        match open_again(self, name)? {
            Some(opened) => {
                let found = opened.metadata()?;
                Ok(Some(Reopened {
                    opened,
                    count: found.len(),
                    look: FileStatus::of(&found),
                }))
            }
            None => Ok(None),
        }
    }

    fn write_into(&self, name: &str, is_pipe: bool, pieces: &[Text<Global>]) -> io::Result<()> {
        write_into(self, name, is_pipe, pieces)
    }

    fn write_new(&self, name: &str, octets: &[u8]) -> io::Result<()> {
        write_new(self, name, octets)
    }

    fn rename(&self, from: &str, to: &str) -> io::Result<()> {
        fs::rename(self, from, to)
    }

    fn length(&self, part: &OpenPart) -> io::Result<u64> {
        Ok(part.writer().metadata()?.len())
    }

    fn rename_whole(&self, _part: &OpenPart, _count: u64, from: &str, to: &str) -> io::Result<()> {
        fs::rename(self, from, to)
    }

    fn remove(&self, name: &str) -> io::Result<()> {
        fs::remove_file(self, name)
    }
}

fn standing_at<R: Files>(files: &R, name: &str) -> io::Result<FileKind> {
    match fs::metadata(files, name) {
        Ok(found) => Ok(FileKind::of(&found)),
        Err(error) if error.kind() == ErrorKind::NotFound => Ok(FileKind::Nothing),
        Err(error) => Err(error),
    }
}

fn look_at<R: Files>(files: &R, name: &str) -> io::Result<Option<FileStatus>> {
    match fs::symlink_metadata(files, name) {
        Ok(found) => Ok(Some(FileStatus::of(&found))),
        Err(error) if error.kind() == ErrorKind::NotFound => Ok(None),
        Err(error) => Err(error),
    }
}

/// The permissions of a file.
fn mode_of(standing: FileKind) -> Option<u32> {
    match standing {
        FileKind::File(mode) => Some(mode),
        _ => None,
    }
}

fn is_link<R: Files>(files: &R, name: &PathBuf<Global>) -> bool {
    match fs::symlink_metadata(files, name) {
        Ok(found) => found.is_symlink(),
        Err(_) => false,
    }
}

/// What a link reads, from the directory that the link is in.
fn from_directory(
    alloc: Global,
    link: &PathBuf<Global>,
    target: PathBuf<Global>,
) -> io::Result<Option<PathBuf<Global>>> {
    match link.parent() {
        Some(parent) => Ok(Some(parent.join(alloc, &target)?)),
        None => Ok(Some(target)),
    }
}
