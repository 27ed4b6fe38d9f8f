// The names in a directory.
ghost use Rattle.std.specs.Prelude.{◌≡◌, ◌++◌, OnOk};
ghost use Rattle.ftp_disk_host.specs.Names.{is_dots, listed_name};

use crate::folder::SystemFolder;
use std::alloc::{AllocError, Global};
use std::io;
use std::io::{Error, ErrorKind};

/// How many octets of names are read at once: a name has 255 at most.
const ROOM: usize = 32_768;

/// The names in a directory, a NUL after each, in the order in which the system lists them; without `.` and `..`.
pub(crate) fn names_in(alloc: Global, folder: &SystemFolder) -> io::Result<Vec<u8, Global>> {
    let mut room = vec![in alloc; 0u8; ROOM]?;
    let mut names = Vec::new(alloc);
    for _ in 0..u64::MAX {
        match folder.read_names(room.as_mut_slice()) {
            Ok(0) => return Ok(names),
            Ok(count) => put_names(&mut names, room.get(..count).unwrap_or(&[]))?,
            Err(error) if error.kind() == ErrorKind::Interrupted => {}
            Err(error) => return Err(error),
        }
    }
    Err(Error::from(ErrorKind::TimedOut))
}

/// Puts names, each with a NUL after it.
fn put_names(names: &mut Vec<u8, Global>, more: &[u8]) -> Result<(), AllocError> {
    for name in more.split(|octet| *octet == 0) {
        put_name(names, name)?;
    }
    Ok(())
}

/// Puts a name and a NUL, if it is one of what stands in the directory.
fn put_name(names: &mut Vec<u8, Global>, name: &[u8]) -> Result<(), AllocError>
    ensures { OnOk result (names.new.items ≡ names.old.items ++ listed_name name.now) }
{
    if is_dots(name) {
        return Ok(());
    }
    names.extend_from_slice(name)?;
    names.push(0)?;
    Ok(())
}

/// Whether a name is of the directory itself, or of the one that it is in, or none.
fn is_dots(name: &[u8]) -> bool
    ensures { result ≡ is_dots name.now }
{
    matches!(name, [] | [b'.'] | [b'.', b'.'])
}
