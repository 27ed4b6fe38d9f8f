// A directory that is open.
use itoa::Buffer;
use os::FromRawFd;
use std::alloc::{AllocError, Global};
use std::io;
use std::io::Error;
use std::os::fd::{AsRawFd, OwnedFd};

/// How many octets of names are read at once: a name has 255 at most.
const ROOM: usize = 8_192;

/// A directory that is open: what is asked of it is of what stands in it, whatever becomes of its name meanwhile.
#[derive(Drop)]
pub(crate) struct OpenFolder {
    opened: OwnedFd,
}

impl OpenFolder {
    /// The directory below a root, whose path is `below` with slashes between its parts. Links of the root are followed; one below it is refused.
    pub(crate) fn reach(alloc: Global, root: &str, below: &str) -> io::Result<OpenFolder> {
        let mut folder = OpenFolder::root(alloc, root)?;
        for part in below.split('/') {
            if !part.is_empty() {
                folder = folder.inner(part)?;
            }
        }
        Ok(folder)
    }

    /// A directory of this machine, where links lead.
    fn root(alloc: Global, root: &str) -> io::Result<OpenFolder> {
        let mut path: String<Global> = String::from_str(alloc, root)?;
        path.push_str("/.")?;
        opened(os::open_dir_at(libc::AT_FDCWD, path.as_bytes()))
    }

    /// A directory that stands in this one, and is no link.
    fn inner(&self, name: &str) -> io::Result<OpenFolder> {
        if name == ".." {
            return Err(Error::from_raw_os_error(libc::EINVAL));
        }
        opened(os::open_dir_at(self.opened.as_raw_fd(), name.as_bytes()))
    }

    /// A path of what stands in this directory, as long as it is open: by its descriptor, so that nothing before the name is looked up.
    pub(crate) fn path_of(&self, alloc: Global, name: &str) -> Result<String<Global>, AllocError> {
        let mut path: String<Global> = String::from_str(alloc, "/proc/self/fd/")?;
        path.push_str(Buffer::new().format(self.opened.as_raw_fd()))?;
        path.push_str("/")?;
        path.push_str(name)?;
        Ok(path)
    }

    /// Removes a file or a link, which is not followed.
    pub(crate) fn remove_file(&self, name: &str) -> io::Result<()> {
        check(os::unlink_at(self.opened.as_raw_fd(), name.as_bytes()))
    }

    /// Removes a directory in which nothing stands.
    pub(crate) fn remove_dir(&self, name: &str) -> io::Result<()> {
        check(os::rmdir_at(self.opened.as_raw_fd(), name.as_bytes()))
    }

    /// Reads the next names into `room`, each with a NUL behind it, and gives how many octets they take; none at the end.
    pub(crate) fn read_names(&self, room: &mut [u8]) -> io::Result<usize> {
        let count = os::read_dir(self.opened.as_raw_fd(), room);
        let error = os::errno();
        if error == 0 || error == libc::ENOENT {
            Ok(count)
        } else {
            Err(Error::from_raw_os_error(error))
        }
    }

    /// Room for the next names.
    pub(crate) fn room() -> [u8; 8_192] {
        [0; ROOM]
    }
}

/// A directory that a call opened, or why it did not.
fn opened(fd: i32) -> io::Result<OpenFolder> {
    if fd < 0 {
        return Err(Error::from_raw_os_error(os::errno()));
    }
    let opened: OwnedFd = unsafe { OwnedFd::from_raw_fd(fd) };
    Ok(OpenFolder { opened })
}

fn check(status: i32) -> io::Result<()> {
    if status < 0 {
        Err(Error::from_raw_os_error(os::errno()))
    } else {
        Ok(())
    }
}
