// What was asked, as a fault tells of it: the server, the file with the password, the file of this end.
use crate::fault::Phase;
use crate::server::ServerAddress;
use std::fmt;
use std::fmt::{Display, Formatter};
use std::io::Error;
use tool_terminal::Shown;

/// The port of a control connection where none is said (RFC 959, section 8).
const CONTROL_PORT: u16 = 21;

/// What a fault may be of.
#[derive(Clone, Copy)]
pub struct Subject<'a> {
    pub server: ServerAddress<'a>,
    /// The file that is said to have the password.
    pub password_file: Option<&'a str>,
    /// The file of this end that is read or written; `-` for a standard stream.
    pub file: &'a str,
}

/// Why a program stops, and of what.
#[derive(Clone, Copy)]
pub(crate) struct Stop<'a> {
    pub(crate) stage: Phase,
    pub(crate) error: Error,
    pub(crate) subject: Subject<'a>,
}

impl<'a> Display for Stop<'a> {
    fn fmt<W: fmt::Write>(&self, formatter: &mut Formatter<W>) -> fmt::Result {
        let subject = &self.subject;
        let sentence = self.stage.sentence();
        match self.stage {
            Phase::Connection => {
                let ShownServer { host, port } = subject.named();
                write!(
                    formatter,
                    "{sentence} to {host} at port {port}: {}",
                    self.error
                )?;
                formatter.write_str(hint_of(port))
            }
            Phase::Reading | Phase::Writing => {
                let file = Shown(subject.file.as_bytes());
                write!(formatter, "{file}: {sentence}: {}", self.error)
            }
            Phase::Login => {
                formatter.write_str(sentence)?;
                if let Some(file) = subject.password_file {
                    write!(formatter, " by --password-file {}", Shown(file.as_bytes()))?;
                }
                write!(formatter, ": {}", self.error)
            }
            _ => write!(formatter, "{sentence}: {}", self.error),
        }
    }
}

/// A server, as it is told of.
#[derive(Clone, Copy)]
struct ShownServer<'a> {
    host: Shown<'a>,
    port: u16,
}

impl<'a> Subject<'a> {
    fn named(&self) -> ShownServer<'a> {
        ShownServer {
            host: Shown(self.server.host.as_bytes()),
            port: self.server.port,
        }
    }
}

/// What may help where nobody answers at a port.
fn hint_of(port: u16) -> &'static str {
    if port == CONTROL_PORT {
        "; another port than 21 is said after the host, as HOST:2121/PATH"
    } else {
        ""
    }
}
