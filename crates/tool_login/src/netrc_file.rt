// The file `.netrc`, which has who logs in at which host, and the password.
use crate::entry::NetrcEntry;
use crate::fault::NetrcFault;
use crate::netrc::netrc_entry;
use crate::private::NotPrivate;
use crate::secrets::Secrets;
use ftp_facts::Text;
use std::alloc::Global;
use std::io;
use std::io::{Error, ErrorKind};
use tool_terminal::Shown;

/// The most octets of the file.
const FILE_LIMIT: u64 = 65_536;

/// Its name in the directory of who runs.
const NAME: &str = "/.netrc";

/// A file that was read.
#[derive(Drop)]
struct Netrc {
    path: String<Global>,
    octets: Vec<u8, Global>,
}

/// The first entry of the file that is of a host and has a user, or anybody where the user is empty. The file is the one that NETRC in the environment
/// names, and else `.netrc` in the directory that HOME names; there is no entry where that does not stand there. One that others may use is refused.
pub(crate) fn suited<S: Secrets>(
    rt: &S,
    alloc: Global,
    host: &str,
    user: &[u8],
) -> io::Result<Option<NetrcEntry<Text<Global>>>> {
    match &file(rt, alloc)? {
        Some(netrc) => suited_in(alloc, netrc, host, user),
        None => Ok(None),
    }
}

/// The same, of a file that was read.
fn suited_in(
    alloc: Global,
    netrc: &Netrc,
    host: &str,
    user: &[u8],
) -> io::Result<Option<NetrcEntry<Text<Global>>>> {
    match netrc_entry(alloc, netrc.octets.as_slice(), host.as_bytes(), user) {
        Ok(entry) => Ok(entry),
        Err(NetrcFault::Quote) => Err(refused(
            alloc,
            ErrorKind::InvalidInput,
            "a word's quotes do not end on its line in",
            netrc.path.as_str(),
        )),
        Err(NetrcFault::Memory) => Err(Error::from(ErrorKind::OutOfMemory)),
    }
}

/// The file, where there is one.
fn file<S: Secrets>(rt: &S, alloc: Global) -> io::Result<Option<Netrc>> {
    match rt.variable("NETRC")? {
        Some(path) => named_file(rt, alloc, path),
        None => file_at_home(rt, alloc),
    }
}

/// The file that NETRC names, which has to be there.
fn named_file<S: Secrets>(
    rt: &S,
    alloc: Global,
    path: String<Global>,
) -> io::Result<Option<Netrc>> {
    match octets_of(rt, alloc, path.as_str()) {
        Ok(octets) => Ok(Some(Netrc { path, octets })),
        Err(error) if error.kind() == ErrorKind::NotFound => Err(refused(
            alloc,
            ErrorKind::NotFound,
            "NETRC names no file:",
            path.as_str(),
        )),
        Err(error) => Err(error),
    }
}

/// The file in the directory of who runs, where there is one.
fn file_at_home<S: Secrets>(rt: &S, alloc: Global) -> io::Result<Option<Netrc>> {
    let Some(mut path) = rt.variable("HOME")? else {
        return Ok(None);
    };
    path.push_str(NAME)?;
    match octets_of(rt, alloc, path.as_str()) {
        Ok(octets) => Ok(Some(Netrc { path, octets })),
        Err(error) if error.kind() == ErrorKind::NotFound => Ok(None),
        Err(error) => Err(error),
    }
}

/// The octets of a file that its owner alone may use.
fn octets_of<S: Secrets>(rt: &S, alloc: Global, path: &str) -> io::Result<Vec<u8, Global>> {
    let why = match rt.private(path, FILE_LIMIT) {
        Ok(octets) => return Ok(octets),
        Err(NotPrivate::Kind) => "no file of 65,536 octets at most:",
        Err(NotPrivate::Shared(_)) => "mode 600 is wanted of",
        Err(NotPrivate::System(error)) if error.kind() == ErrorKind::NotFound => return Err(error),
        Err(NotPrivate::System(error)) if error.kind() == ErrorKind::OutOfMemory => {
            return Err(error);
        }
        Err(NotPrivate::System(_)) => "unreadable, or another user's:",
    };
    Err(refused(alloc, ErrorKind::PermissionDenied, why, path))
}

/// That a file is refused: why, and its path, of which a long one is cut, since an error has room for 80 octets.
fn refused(alloc: Global, kind: ErrorKind, why: &str, path: &str) -> Error {
    match format!(in alloc; "{why} {}", Shown(path.as_bytes())) {
        Ok(text) => Error::new(kind, text.as_str()),
        Err(_) => Error::from(ErrorKind::OutOfMemory),
    }
}

/// A user has no password anywhere.
pub(crate) fn no_password() -> Error {
    Error::new(
        ErrorKind::NotFound,
        "this user needs FTP_PASSWORD, --password-file or an entry in .netrc",
    )
}

/// A user whom a URL names has no password that may be sent.
pub(crate) fn no_password_of_url() -> Error {
    Error::new(
        ErrorKind::NotFound,
        "the user of a URL needs --password-file or .netrc; --user takes FTP_PASSWORD",
    )
}
