// A file that nobody but root and who runs may use.
ghost use Rattle.std.specs.Prelude.{◌≡◌};
ghost use Rattle.tool_login.specs.Private.{access_of};

use std::alloc::Global;
use std::fs::{File, Files, OpenFile};
use std::io::{Error, ErrorKind, Read};
use std::os::unix::fs::{MetadataExt, PermissionsExt};
use std::{fs, io};

/// The system's number of root.
const ROOT: u32 = 0;

/// The bits of a mode by which the group of a file and others may use it.
const GROUP_AND_OTHERS: u32 = 0o077;

/// Those bits but for the one by which its group may read it.
const MORE_THAN_READING: u32 = 0o037;

/// Why a file was not read.
#[derive(Drop)]
pub enum NotPrivate {
    /// A directory, a device or a pipe, or a file of more octets than are wanted.
    Kind,
    /// Its mode, which has a bit for its group or for others.
    Shared(u32),
    /// Another user owns it, the system refused to read it, or memory was refused.
    System(Error),
}

/// Who may use a file.
#[derive(Clone, Copy)]
pub enum FileAccess {
    /// Root and who runs, and whom root lets read it.
    Private,
    /// Another user owns it, and may write it.
    Foreign,
    /// Its group or others.
    Shared,
}

/// The octets of a file that is root's or the one's who runs, and that nobody else may use, if they are at most so many. Of a file of root's the
/// group may read it: so are files that root hands to a service.
pub fn read_private<R: Files + AllocGlobal>(
    files: &R,
    file: &str,
    most: u64,
) -> Result<Vec<u8, Global>, NotPrivate> {
    check_file(files, file)?;
    let mut opened = match File::open(files, file) {
        Ok(opened) => opened,
        Err(error) => return Err(NotPrivate::System(error)),
    };
    check_private(&opened, most)?;
    let mut octets = Vec::new(files.alloc());
    match opened.read_to_end(&mut octets) {
        Ok(_) => Ok(octets),
        Err(error) => Err(NotPrivate::System(error)),
    }
}

/// Fails where what has a name is no file: a pipe that nobody writes is not waited for.
fn check_file<R: Files>(files: &R, file: &str) -> Result<(), NotPrivate> {
    match fs::metadata(files, file) {
        Ok(found) if found.is_file() => Ok(()),
        Ok(_) => Err(NotPrivate::Kind),
        Err(error) => Err(NotPrivate::System(error)),
    }
}

/// Fails where what is open is no file of so many octets at most, or is one that others may use.
fn check_private<F: OpenFile>(opened: &F, most: u64) -> Result<(), NotPrivate> {
    let found = match opened.metadata() {
        Ok(found) => found,
        Err(error) => return Err(NotPrivate::System(error)),
    };
    if !found.is_file() || found.len() > most {
        return Err(NotPrivate::Kind);
    }
    let mode = found.permissions().mode() & 0o777;
    match access_of(found.uid(), libc::geteuid(), mode) {
        FileAccess::Private => Ok(()),
        FileAccess::Foreign => Err(NotPrivate::System(Error::new(
            ErrorKind::PermissionDenied,
            "the file belongs to another user: root or who runs has to own it",
        ))),
        FileAccess::Shared => Err(NotPrivate::Shared(mode)),
    }
}

/// Who may use a file of this owner and mode, where `me` runs; users by the system's numbers.
pub fn access_of(owner: u32, me: u32, mode: u32) -> FileAccess
    // Witness: an equation; `root_reads_what_another_may_write.edit`, `a_group_reads_the_file_of_any_owner.edit`, beside the gate.
    ensures { result ≡ access_of owner me mode }
{
    if owner != ROOT && owner != me {
        return FileAccess::Foreign;
    }
    let barred = if owner == ROOT {
        MORE_THAN_READING
    } else {
        GROUP_AND_OTHERS
    };
    if mode & barred != 0 {
        FileAccess::Shared
    } else {
        FileAccess::Private
    }
}
