// Who asks: a user name and the password, each from where it is said.
use crate::entry::NetrcEntry;
use crate::netrc_file::{no_password, no_password_of_url, suited};
use crate::private::NotPrivate;
use crate::secrets::Secrets;
use crate::source::{Known, PasswordSource, source_of};
use ftp_facts::Text;
use ftp_operation::Login;
use std::alloc::Global;
use std::env::Env;
use std::fs::Files;
use std::io;
use std::io::{Error, ErrorKind};

/// Who asks, and where the password is, as far as it is said.
#[derive(Clone, Copy)]
pub struct User<'a> {
    /// Who logs in; else it is whom a `.netrc` has for the host, and else `anonymous`.
    pub name: Option<&'a str>,
    /// The file that has the password; its owner alone may use it.
    pub password_file: Option<&'a str>,
    /// The password that a URL has.
    pub password: Option<&'a str>,
    /// Whether it is a URL that names who logs in.
    pub is_of_url: bool,
}

/// The user who needs no password.
const ANONYMOUS: &str = "anonymous";

/// What stands for the password of that user (RFC 1635; own choice).
const GUEST: &[u8] = b"anonymous@";

/// The most octets of a file that has a password.
const FILE_LIMIT: u64 = 1024;

/// The login of a user at a host. The password is the first of these: that of a URL, that in the file that is named, that of the user's entry in a
/// `.netrc`, and that in the environment, in FTP_PASSWORD, which is not sent for a user whom a URL names. `anonymous` needs none.
pub fn login_of<R>(rt: &R, host: &str, user: User<'_>) -> io::Result<Login<Global>>
where
    R: Files + Env + AllocGlobal,
{
    login_by(rt, rt.alloc(), host, user)
}

/// The same, of whoever has secrets.
fn login_by<S: Secrets>(
    rt: &S,
    alloc: Global,
    host: &str,
    user: User<'_>,
) -> io::Result<Login<Global>> {
    match user.name {
        Some(name) => login_of_name(rt, alloc, host, user, name),
        None => login_of_nobody(rt, alloc, host, user),
    }
}

/// The login of a user who is named; a `.netrc` is read where neither a URL nor a file has the password, and the user needs one.
fn login_of_name<S: Secrets>(
    rt: &S,
    alloc: Global,
    host: &str,
    user: User<'_>,
    name: &str,
) -> io::Result<Login<Global>> {
    let is_said = user.password.is_some() || user.password_file.is_some();
    let kept = if is_said || name == ANONYMOUS {
        None
    } else {
        password_of(suited(rt, alloc, host, name.as_bytes())?)
    };
    login_with(
        rt,
        alloc,
        user,
        Text::copy_of(alloc, name.as_bytes())?,
        kept,
    )
}

/// The password of an entry, if there is one.
fn password_of(entry: Option<NetrcEntry<Text<Global>>>) -> Option<Text<Global>> {
    entry?.password
}

/// The login of whom a `.netrc` has for the host, and else of `anonymous`.
fn login_of_nobody<S: Secrets>(
    rt: &S,
    alloc: Global,
    host: &str,
    user: User<'_>,
) -> io::Result<Login<Global>> {
    match suited(rt, alloc, host, b"")? {
        Some(entry) => {
            let NetrcEntry { login, password } = entry;
            login_with(rt, alloc, user, login, password)
        }
        None => login_of_name(rt, alloc, host, user, ANONYMOUS),
    }
}

/// The login of a user for whom a `.netrc` has this password, or none.
fn login_with<S: Secrets>(
    rt: &S,
    alloc: Global,
    user: User<'_>,
    name: Text<Global>,
    kept: Option<Text<Global>>,
) -> io::Result<Login<Global>> {
    let pass = password_from(rt, alloc, user, name.as_slice(), kept)?;
    login(name, pass)
}

fn login(name: Text<Global>, pass: Text<Global>) -> io::Result<Login<Global>> {
    match Login::new(name, pass) {
        Some(login) => Ok(login),
        None => Err(Error::new(
            ErrorKind::InvalidInput,
            "a user has 1 to 255 octets, a password 255 at most, none CR, LF or NUL",
        )),
    }
}

/// The password of a user, from where it is taken.
fn password_from<S: Secrets>(
    rt: &S,
    alloc: Global,
    user: User<'_>,
    name: &[u8],
    kept: Option<Text<Global>>,
) -> io::Result<Text<Global>> {
    let said = rt.variable("FTP_PASSWORD")?;
    let known = Known {
        in_url: user.password.is_some(),
        in_file: user.password_file.is_some(),
        in_netrc: kept.is_some(),
        in_environment: said.is_some(),
        is_of_url: user.is_of_url,
        is_anonymous: name == ANONYMOUS.as_bytes(),
    };
    match source_of(known) {
        PasswordSource::Url => Ok(Text::copy_of(alloc, user.password.unwrap_or("").as_bytes())?),
        PasswordSource::File => password_in(rt, alloc, user.password_file.unwrap_or("")),
        PasswordSource::Netrc => kept.ok_or(no_password()),
        PasswordSource::Environment => copied(alloc, said.as_ref()),
        PasswordSource::Guest => Ok(Text::copy_of(alloc, GUEST)?),
        PasswordSource::Nowhere if user.is_of_url => Err(no_password_of_url()),
        PasswordSource::Nowhere => Err(no_password()),
    }
}

/// The octets of a password, if there is one.
fn copied(alloc: Global, said: Option<&String<Global>>) -> io::Result<Text<Global>> {
    match said {
        Some(pass) => Ok(Text::copy_of(alloc, pass.as_bytes())?),
        None => Err(no_password()),
    }
}

/// The password that a file has: its octets up to the end of its first line.
fn password_in<S: Secrets>(rt: &S, alloc: Global, file: &str) -> io::Result<Text<Global>> {
    match rt.private(file, FILE_LIMIT) {
        Ok(octets) => Ok(Text::copy_of(alloc, first_line(octets.as_slice()))?),
        Err(NotPrivate::Kind) => Err(Error::new(
            ErrorKind::InvalidInput,
            "a file of at most 1,024 octets is wanted",
        )),
        Err(NotPrivate::Shared(_)) => Err(Error::new(
            ErrorKind::PermissionDenied,
            "others may use it, and its owner alone may (mode 600)",
        )),
        Err(NotPrivate::System(error)) => Err(unread(error)),
    }
}

/// Why a file that is named is not read; of memory the error itself.
fn unread(error: Error) -> Error {
    let kind = error.kind();
    match kind {
        ErrorKind::NotFound => Error::new(kind, "it is not there"),
        ErrorKind::PermissionDenied => Error::new(
            kind,
            "it can't be read, or is not owned by root or who runs",
        ),
        _ => error,
    }
}

/// All before the first CR or LF.
fn first_line(octets: &[u8]) -> &[u8] {
    let end = octets
        .iter()
        .position(|octet| *octet == b'\r' || *octet == b'\n');
    match end {
        Some(end) => octets.get(..end).unwrap_or(octets),
        None => octets,
    }
}
