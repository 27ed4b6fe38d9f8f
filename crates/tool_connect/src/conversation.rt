// What is done over control connections that are opened for it, as a task of the clients at them.
ghost use Rattle.tool_session.specs.Talking.{Conversed};
ghost use Rattle.tool_connect.specs.Answering.{CanHear};

use crate::health::Health;
use crate::server::{connected, leave};
use crate::several::play_over_several;
use crate::single::play_over_one;
use ftp_client::{ClientTask, NewClient};
use ftp_operation::Login;
use std::alloc::Global;
use std::io::Eprint;
use std::net::{Net, TcpListener, TcpStream};
use std::time::Clock;
use tool_session::{LastReply, Phase, ServerAddress, SessionFault, SessionTask, at};

/// Which server is talked with, by which login, and who learns what it says.
pub(crate) struct Conversation<'a, 'b, R> {
    pub(crate) rt: &'a R,
    pub(crate) server: ServerAddress<'a>,
    pub(crate) login: Login<Global>,
    pub(crate) last_reply: &'b mut LastReply,
    pub(crate) health: &'a Health,
}

impl<'a, 'b, R, T, P> ClientTask<Global, P, Result<T, SessionFault>> for Conversation<'a, 'b, R>
where
    R: Net<Listener = TcpListener, Stream = TcpStream> + Eprint + Clock + AllocGlobal,
    T: Drop,
    P: SessionTask<Result<T, SessionFault>>,
{
    ghost does = { λ conversation result old new. Conversed P.tells (CanHear conversation.server.at_once) P.plays old new result };

    #[tactic(auto, using(crate::proofs::ConversingLemmas::heard_of_one, crate::proofs::ConversingLemmas::heard_of_several))]
    fn play<N: NewClient<Global>>(self, play: &mut P) -> Result<T, SessionFault> {
        let Conversation {
            rt,
            server,
            login,
            last_reply,
            health,
        } = self;
        if server.at_once > 1 {
            return play_over_several::<N, R, T, P>(rt, server, &login, last_reply, play);
        }
        let stream = at(Phase::Connection, connected(rt, server))?;
        let done = play_over_one::<N, R, T, P>(
            rt,
            server,
            login,
            &stream,
            (last_reply, health),
            play,
        );
        let _gone = leave(&stream);
        done
    }
}
