// What a server holds (RFC 959, sections 3.2 and 4.1).
ghost use Rattle.std.specs.Prelude.{◌≡◌, ◌≤◌};
ghost use Rattle.ftp_server_model.specs.Held.{access_len};
ghost use Rattle.ftp_path.specs.Login.{login_limit};
ghost use Rattle.ftp_server.specs.Busy.{HasRoom, MayWait};

use crate::reader::Reader;
use ftp_command::Argument;
use ftp_server_model::HeardLine;
use ftp_server_replies::{ActedLine, Output};
use ftp_server_session::{Context, Session};
use std::alloc::Allocator;

/// A server's end of a session: who may log in, the session, the line that is read, the one that waits and the one that was
/// acted on, and the octets that are owed. `J` is how a transfer is held.
pub struct Server<A: Allocator + Copy, T: Drop, J: Drop> {
    pub(crate) context: Context<A>,
    pub(crate) session: Session<A, T, J>,
    pub(crate) reader: Reader<A>,
    pub(crate) waiting: Option<HeardLine<Argument<A>>>,
    pub(crate) output: Output<A>,
    /// The line that the last call acted on, where it acted on one.
    pub(crate) heard: Option<ActedLine>,
    /// In how many calls a growth was refused; it wraps.
    pub(crate) refusals: u64,
    ghost room: { HasRoom session.connection output },
    ghost paths: { ∥ MayWait waiting ∥₁ },
    ghost named: { access_len session.access ≤ login_limit },
}

/// By hand: a derived drop is proved again, part by part, wherever a server is let go.
impl<A: Allocator + Copy, T: Drop, J: Drop> Drop for Server<A, T, J> {
    fn drop(self) {
        let Self {
            context: _,
            session: _,
            reader: _,
            waiting: _,
            output: _,
            heard: _,
            refusals: _,
        } = self;
    }
}

impl<A: Allocator + Copy, T: Drop, J: Drop> Server<A, T, J> {
    /// Its session, where nothing more is to be served.
    pub(crate) fn into_session(self) -> Session<A, T, J>
        ensures { result ≡ self.session }
    {
        let Self {
            context: _,
            session,
            reader: _,
            waiting: _,
            output: _,
            heard: _,
            refusals: _,
        } = self;
        session
    }
}
