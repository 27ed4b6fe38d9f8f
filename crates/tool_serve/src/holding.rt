// The folder is one server's: a lock of the system on its directory, which is held while the server lives.
use os::FromRawFd;
use std::fmt;
use std::fmt::{Display, Formatter};
use std::io::Error;
use std::os::fd::{AsRawFd, OwnedFd};
use tool_log::Placed;

/// How the lock of a folder was had.
#[derive(Drop)]
pub(crate) enum Hold {
    /// It is held until this is let go.
    Held(OwnedFd),
    /// Another server has it.
    Taken,
    /// The file system gives none.
    Refused(Error),
    /// It was not asked for.
    Unasked,
}

impl Hold {
    /// Takes the lock of the directory at a place, without waiting, and makes no file. Where it can't be opened, no lock is asked for.
    pub(crate) fn take(place: &str) -> Hold {
        let fd = os::open_dir_at(libc::AT_FDCWD, place.as_bytes());
        if fd < 0 {
            return Hold::Unasked;
        }
        let opened = unsafe { OwnedFd::from_raw_fd(fd) };
        if libc::flock(opened.as_raw_fd(), libc::LOCK_EX | libc::LOCK_NB) == 0 {
            return Hold::Held(opened);
        }
        match os::errno() {
            libc::EAGAIN => Hold::Taken,
            errno => Hold::Refused(Error::from_raw_os_error(errno)),
        }
    }
}

/// Why a folder is not served that another server has.
#[derive(Clone, Copy)]
pub(crate) struct FolderTaken<'a>(pub(crate) &'a str);

impl<'a> Display for FolderTaken<'a> {
    fn fmt<W: fmt::Write>(&self, formatter: &mut Formatter<W>) -> fmt::Result {
        let dir = Placed {
            dir: self.0,
            below: &[],
        };
        write!(formatter, "{dir}: another server serves this folder")
    }
}
