// How a data connection of a server comes to be: a port is listened at, or a connection is opened, and looked at until it stands or failed.
use crate::awaits::Awaits;
use crate::link::LineLink;
use crate::link_look::events_beside;
use crate::opening::PendingConnection;
use crate::ports::LinePorts;
use ftp_endpoint::{Endpoint, Host};
use ftp_ports::{Accepted, Beside, Spoken};
use libc::net as c;
use std::io;
use std::io::ErrorKind;
use std::net::TcpStream;
use tool_sockets::{Sockets, asking, host_of};

/// The most connections from other hosts than the client's that are let go in one look.
const FOREIGN: u32 = 16;

/// What came at a port.
#[derive(Drop)]
pub(crate) enum PortArrival {
    /// A connection of the client's host.
    Stream(TcpStream, Host),
    /// The system gives none.
    Failed,
}

impl<'a, R: Sockets> LinePorts<'a, R> {
    /// Listens at one of the passive ports, and says which; fails where none is free.
    pub(crate) fn begin(&mut self) -> io::Result<u16> {
        let listening = self.passive.listen(self.net, self.here)?;
        let port = listening.port;
        self.listening = Some(listening);
        self.is_new = true;
        Ok(port)
    }

    /// Takes the next connection of the client's host that came, if one did; others are let go.
    fn take_next(&mut self) {
        let Some(listening) = &self.listening else {
            self.came = Some(PortArrival::Failed);
            return;
        };
        for _ in 0..FOREIGN {
            match listening.listener.accept() {
                Ok((stream, peer)) => {
                    let host = host_of(peer);
                    if host == self.client {
                        self.came = Some(PortArrival::Stream(stream, host));
                        return;
                    }
                }
                Err(error) if error.kind() == ErrorKind::WouldBlock => return,
                Err(_) => {
                    self.came = Some(PortArrival::Failed);
                    return;
                }
            }
        }
    }

    /// Whether a connection came, or what is awaited beside is there. Where the reply that names the port went in this turn, it comes later.
    pub(crate) fn looks_accepted(&mut self, beside: Beside) -> Result<(), Awaits> {
        let is_over = self.came.is_some() || self.line.timeouts.left() == Some(0);
        let comes_later = self.is_new && self.line.has_replied();
        self.is_new = false;
        let Some(listening) = &self.listening else {
            return Ok(());
        };
        let mut rows = [
            self.line.row(events_beside(beside)),
            asking(&listening.listener, c::POLLIN),
        ];
        if comes_later && !is_over {
            return Err(Awaits::both(rows[0], rows[1]));
        }
        self.line.ask(&listening.listener, &mut rows);
        if self.came.is_none() && rows[1].revents != 0 {
            self.take_next();
        }
        if is_over || self.came.is_some() || rows[0].revents != 0 {
            return Ok(());
        }
        Err(Awaits::both(rows[0], rows[1]))
    }

    /// Whether a connection to an endpoint stands or failed. It is begun at the first look.
    pub(crate) fn looks_connected(&mut self, endpoint: Endpoint) -> Result<(), Awaits> {
        if self.opening.is_none() {
            self.rest();
            self.drain();
            self.opening = Some(PendingConnection::begin(self.net, endpoint));
        }
        match &self.opening {
            Some(opening) => opening.looks(&self.line),
            None => Ok(()),
        }
    }

    /// How the waiting for a connection ends that did not come: where `hears`, by octets of the control connection or its end.
    pub(crate) fn unaccepted(&self, hears: bool) -> Accepted<LineLink> {
        if !hears {
            return Accepted::Refused;
        }
        match self.line.spoken() {
            Spoken::Nothing => Accepted::Refused,
            Spoken::Octets | Spoken::Ended => Accepted::Spoken,
        }
    }
}
