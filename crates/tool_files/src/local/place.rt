// Where the octets of a file of this end go.
ghost use Rattle.std.specs.Prelude.{◌≡◌};
ghost use Rattle.tool_files.specs.local.Place.{way_of};

use crate::local::disk::Disk;
use std::alloc::Global;
use std::fs::Metadata;
use std::io;
use std::io::{Error, ErrorKind};
use std::os::unix::fs::{FileTypeExt, PermissionsExt};
use std::path::PathBuf;

/// The most links that are followed from a name, as Linux does.
const LINKS: u32 = 40;

/// Where names are links that lead to what a process has open, whatever they read as.
const PROCESSES: &str = "/proc/";

/// What stands at a name, or where the links from it lead.
#[derive(Clone, Copy)]
pub enum FileKind {
    Nothing,
    /// A file with these permissions.
    File(u32),
    Directory,
    /// A pipe, whether it has a name or a process has it open.
    Pipe,
    /// What is none of these, as a terminal.
    Other,
}

impl FileKind {
    /// What the system found at a name.
    pub(crate) fn of(found: &Metadata) -> FileKind {
        if found.is_file() {
            FileKind::File(found.permissions().mode() & 0o777)
        } else if found.is_dir() {
            FileKind::Directory
        } else if found.file_type().is_fifo() {
            FileKind::Pipe
        } else {
            FileKind::Other
        }
    }
}

/// How octets get to a name.
#[derive(Clone, Copy)]
pub enum WriteMode {
    /// They are written beside it, and moved over it, with these permissions, where a file stands there.
    Over(Option<u32>),
    /// Behind what stands there, which is never replaced.
    Into,
    Nowhere,
    /// A named pipe has the name: who opens it waits for somebody who reads it.
    Unread,
}

/// Where the octets of a file go.
#[derive(Drop)]
pub(crate) enum Destination {
    /// A file is written beside this name and moved over it. The one that stands there, if one does, has these permissions.
    File {
        name: PathBuf<Global>,
        mode: Option<u32>,
    },
    Device {
        /// Whether it is a pipe, which a process has open.
        is_pipe: bool,
    },
}

/// Where the octets of a file go: past links, so that none is replaced by a file. No octets go to a directory, nor into a pipe by its name.
pub(crate) fn place_of<D: Disk>(disk: &D, alloc: Global, file: &str) -> io::Result<Destination> {
    let standing = disk.standing_at(file)?;
    let name = led(disk, alloc, file)?;
    let is_pipe = matches!(standing, FileKind::Pipe);
    let is_open = if is_pipe {
        !has_pipe(disk, name.as_str())?
    } else {
        name.as_str().starts_with(PROCESSES)
    };
    match way_of(standing, is_open) {
        WriteMode::Over(mode) => Ok(Destination::File { name, mode }),
        WriteMode::Into => Ok(Destination::Device { is_pipe }),
        WriteMode::Nowhere => Err(bad("a directory has that name")),
        WriteMode::Unread => Err(unread()),
    }
}

/// Whether a pipe has this very name. None has it where a link leads to one that a process has open.
fn has_pipe<D: Disk>(disk: &D, name: &str) -> io::Result<bool> {
    match disk.look_at(name)? {
        Some(look) => Ok(matches!(look.standing, FileKind::Pipe)),
        None => Ok(false),
    }
}

/// How octets get to a name where this stands; `is_open`: links lead to what a process has open.
fn way_of(standing: FileKind, is_open: bool) -> WriteMode
    ensures { result ≡ way_of standing is_open }
{
    match standing {
        FileKind::Directory => WriteMode::Nowhere,
        FileKind::Other => WriteMode::Into,
        FileKind::File(_) | FileKind::Nothing | FileKind::Pipe if is_open => WriteMode::Into,
        FileKind::Pipe => WriteMode::Unread,
        FileKind::File(mode) => WriteMode::Over(Some(mode)),
        FileKind::Nothing => WriteMode::Over(None),
    }
}

/// By what a named pipe is refused: whoever reads it would be waited for.
pub(crate) fn unread() -> Error {
    bad("a named pipe has that name; `get URL - > FILE` writes into it")
}

fn bad(why: &'static str) -> Error {
    Error::new(ErrorKind::InvalidInput, why)
}

/// The name to which links lead from a name, whether something stands there or not. A link to what a process has open is not followed.
fn led<D: Disk>(disk: &D, alloc: Global, file: &str) -> io::Result<PathBuf<Global>> {
    let mut name = PathBuf::from_str(alloc, file)?;
    for _ in 0..LINKS {
        if name.as_str().starts_with(PROCESSES) {
            return Ok(name);
        }
        match disk.link_at(&name)? {
            Some(target) => name = target,
            None => return Ok(name),
        }
    }
    Err(bad("too many links follow one another"))
}
