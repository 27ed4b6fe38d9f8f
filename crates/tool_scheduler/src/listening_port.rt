// Where clients come in.
use libc::net as c;
use std::io;
use std::io::ErrorKind;
use std::net::{SocketAddr, TcpListener, TcpStream};
use tool_polling::Awaits;
use tool_sockets::{asking, monotonic_millis};

/// How long a client is waited for again where one could not be taken, in milliseconds.
const AGAIN_MILLIS: u64 = 1_000;

/// A port that is listened at.
#[derive(Drop)]
pub(crate) struct ListeningPort<'a> {
    listener: &'a TcpListener,
    /// Until when no client is taken, since the system gave none.
    shut: Option<u64>,
}

/// What came in.
#[derive(Drop)]
pub(crate) enum Caller {
    Nobody,
    Client(TcpStream, SocketAddr),
    /// The system gives no connection, and gave one the last time.
    Failed(io::Error),
}

impl<'a> ListeningPort<'a> {
    pub(crate) fn new(listener: &'a TcpListener) -> ListeningPort<'a> {
        ListeningPort {
            listener,
            shut: None,
        }
    }

    /// What is waited for now where clients are taken, or looked for.
    pub(crate) fn awaits(&self, now: u64) -> Awaits {
        let mut awaits = Awaits::nothing();
        let until = self.shut.unwrap_or(0);
        if now < until {
            awaits.until = until;
        } else {
            awaits.rows[0] = asking(self.listener, c::POLLIN);
        }
        awaits
    }

    /// The next client, if one came. Where the system gives none, that is told once, and tried again each second.
    pub(crate) fn next(&mut self) -> Caller {
        let now = monotonic_millis();
        if self.shut.is_some_and(|until| now < until) {
            return Caller::Nobody;
        }
        let error = match self.listener.accept() {
            Ok((stream, peer)) => {
                self.shut = None;
                return Caller::Client(stream, peer);
            }
            Err(error) => error,
        };
        if error.kind() == ErrorKind::WouldBlock {
            self.shut = None;
            return Caller::Nobody;
        }
        let is_known = self.shut.is_some();
        self.shut = Some(now.saturating_add(AGAIN_MILLIS));
        if is_known {
            Caller::Nobody
        } else {
            Caller::Failed(error)
        }
    }
}
