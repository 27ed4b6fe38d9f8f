// A client and a server in one thread: turns of both, one after the other, until nothing moves any more.
use crate::client::ClientSlot;
use crate::joining::Joins;
use crate::server::ServerSlot;
use ftp_client_model::Near;
use ftp_ports::TURNS;
use ftp_server_model::Far;
use ftp_tree_memory::MemTree;
use std::alloc::Global;
use std::io;
use std::io::{Error, ErrorKind};

/// Both ends of a session, in their slots.
pub(crate) struct Pair<'h, J, N, S>
where
    J: Joins,
    N: Near<Global>,
    S: Far<Global, MemTree<Global>>,
{
    pub(crate) client: ClientSlot<'h, J, N>,
    pub(crate) server: ServerSlot<'h, J, S>,
}

/// By hand: a derived drop is proved again, part by part, wherever a pair is let go.
impl<'h, J, N, S> Drop for Pair<'h, J, N, S>
where
    J: Joins,
    N: Near<Global>,
    S: Far<Global, MemTree<Global>>,
{
    fn drop(self) {
        let Self {
            client: _,
            server: _,
        } = self;
    }
}

impl<'h, J, N, S> Pair<'h, J, N, S>
where
    J: Joins,
    N: Near<Global>,
    S: Far<Global, MemTree<Global>>,
{
    /// Rounds until two of them had no turn, since a reply that was owed may go in the first; or 1,099,511,627,776 of them.
    pub(crate) fn settle(&mut self) -> io::Result<()> {
        let mut was_quiet = false;
        for _ in 0..TURNS {
            let is_quiet = !self.round();
            if is_quiet && was_quiet {
                return Ok(());
            }
            was_quiet = is_quiet;
        }
        Err(Error::from(ErrorKind::TimedOut))
    }

    /// One round: a turn of the server, and one of the client; says whether any was made.
    fn round(&mut self) -> bool {
        let served = self.server.turn();
        let asked = self.client.turn();
        served || asked
    }
}
