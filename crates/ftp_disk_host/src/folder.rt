// A directory of a system that is open.
use os::FromRawFd;
use std::alloc::{AllocError, Global};
use std::io;
use std::io::Error;
use std::os::fd::{AsRawFd, OwnedFd};

/// A directory that is open, whose names are told whatever becomes of its own name meanwhile.
#[derive(Drop)]
pub struct SystemFolder {
    opened: OwnedFd,
    place: String<Global>,
}

impl SystemFolder {
    /// The directory at a place below another, each on the way opened too. Links of the other one's own path are followed; one below it is refused, also
    /// where it comes meanwhile.
    pub(crate) fn reach(alloc: Global, dir: &str, below: &str) -> io::Result<SystemFolder> {
        let mut place = String::from_str(alloc, dir)?;
        place.push_str("/.")?;
        let mut opened = opened_at(libc::AT_FDCWD, place.as_str())?;
        for name in below.split('/') {
            if !name.is_empty() {
                opened = opened_at(opened.as_raw_fd(), name)?;
            }
        }
        place.truncate(dir.len());
        place.push_str(below)?;
        Ok(SystemFolder { opened, place })
    }

    /// The directory at a place of the system, whose last name is no link: for one that is reached through directories that may be passed and not read.
    pub(crate) fn at(place: String<Global>) -> io::Result<SystemFolder> {
        let opened = opened_at(libc::AT_FDCWD, place.as_str())?;
        Ok(SystemFolder { opened, place })
    }

    /// The place of a name in it. The kit's text can't say the room into which a system tells what stands in an open directory, so that is asked by its place.
    pub(crate) fn place_of(&self, alloc: Global, name: &str) -> Result<String<Global>, AllocError> {
        let mut place = String::from_str(alloc, self.place.as_str())?;
        place.push_str("/")?;
        place.push_str(name)?;
        Ok(place)
    }

    /// Reads the next names in it into `room`, a NUL after each, and says how many octets they take; none at the end.
    pub(crate) fn read_names(&self, room: &mut [u8]) -> io::Result<usize> {
        let count = os::read_dir(self.opened.as_raw_fd(), room);
        let error = os::errno();
        // A directory that was removed has no more names.
        if error == 0 || error == libc::ENOENT {
            Ok(count)
        } else {
            Err(Error::from_raw_os_error(error))
        }
    }
}

/// Opens a directory by its name in another one, where that is no link.
fn opened_at(dir: i32, name: &str) -> io::Result<OwnedFd> {
    let fd = os::open_dir_at(dir, name.as_bytes());
    if fd < 0 {
        return Err(Error::from_raw_os_error(os::errno()));
    }
    Ok(unsafe { OwnedFd::from_raw_fd(fd) })
}
