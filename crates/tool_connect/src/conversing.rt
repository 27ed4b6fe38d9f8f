// Who can ask servers, as whoever asks sees it: what stands on traits without types of their own is proved for less than on those of the system's
// sockets, files and environment.
ghost use Rattle.std.specs.Prelude.{ℕ, List};
ghost use Rattle.tool_session.specs.Talking.{Conversed, SessionExchange};
ghost use Rattle.tool_connect.specs.Answering.{CanHear};

use crate::conversation::Conversation;
use crate::health::Health;
use crate::server::seconds_since;
use ftp_client::play_client;
use ftp_client_transfer::OperationTransfer;
use ftp_operation::Login;
use std::alloc::Global;
use std::env::Env;
use std::fs::Files;
use std::io;
use std::io::Eprint;
use std::net::{Net, TcpListener, TcpStream};
use std::time::Clock;
use tool_login::{User, login_of};
use tool_session::{LastReply, Phase, ServerAddress, SessionFault, SessionTask, at};
use tool_sockets::monotonic_millis;

/// Who can open control connections.
pub trait Converses {
    /// What can be heard over so many control connections at once.
    ghost hears: { Self → (at_once : ℕ) → List SessionExchange → Type 0 };

    /// Opens the control connections that `server` wants, plays over them by a client at each, says QUIT and closes them (RFC 959, section 4.1.1).
    ///
    /// `last_reply` learns the line that was said last, and what ended the connection; `health` whether a single one failed, of several that is not known.
    /// A fault at `Phase::Connection`: none was opened. At `Phase::Talking`: the system refused what a client needs beside it. At `Phase::Asking`: memory.
    fn converse<T, P>(
        &self,
        server: ServerAddress<'_>,
        login: Login<Global>,
        last_reply: &mut LastReply,
        health: &Health,
        play: &mut P,
    ) -> Result<T, SessionFault>
    where
        T: Drop,
        P: SessionTask<Result<T, SessionFault>>,
        // Witness: `run_orders` of `tool_get_put` needs it, and its edits, as `nothing_is_asked`.
        ensures { Conversed P.tells (hears self.now server.entry.at_once) P.plays play.old play.new result };
}

/// Who knows the logins of users.
pub trait Logins {
    /// The login of a user at a host: `login_of` of `tool_login`.
    fn login(&self, host: &str, user: User<'_>) -> io::Result<Login<Global>>;
}

impl<R> Converses for R
where
    R: Net<Listener = TcpListener, Stream = TcpStream> + Eprint + Clock + AllocGlobal,
{
    ghost hears = { λ rt. CanHear };

    fn converse<T, P>(
        &self,
        server: ServerAddress<'_>,
        login: Login<Global>,
        last_reply: &mut LastReply,
        health: &Health,
        play: &mut P,
    ) -> Result<T, SessionFault>
    where
        T: Drop,
        P: SessionTask<Result<T, SessionFault>>,
    {
        let conversation = Conversation {
            rt: self,
            server,
            login,
            last_reply,
            health,
        };
        play_client::<Global, OperationTransfer<Global>, _, _, _>(conversation, play)
    }
}

impl<R: Files + Env + AllocGlobal> Logins for R {
    fn login(&self, host: &str, user: User<'_>) -> io::Result<Login<Global>> {
        login_of(self, host, user)
    }
}

/// Converses for a user whose password is still to be had, and tells `last_reply` how many seconds the control connections took. A fault at `Phase::Login`:
/// there is no password, and no control connection was opened; else as of `Converses::converse`.
pub fn converse_as<R, T, P>(
    rt: &R,
    server: ServerAddress<'_>,
    user: User<'_>,
    last_reply: &mut LastReply,
    play: &mut P,
) -> Result<T, SessionFault>
where
    R: Converses + Logins,
    T: Drop,
    P: SessionTask<Result<T, SessionFault>>,
    // Witness: as `converse`.
    ensures { Conversed P.tells (R.hears rt.now server.entry.at_once) P.plays play.old play.new result }
{
    let login = at(Phase::Login, rt.login(server.host, user))?;
    let begun = monotonic_millis();
    let done = rt.converse(server, login, last_reply, &Health::new(), play);
    last_reply.add_spent(seconds_since(begun));
    done
}
