// Where an end awaits a data connection, as both ends see it.
use crate::joining::Joins;
use crate::socket::Socket;
use std::cell::RefCell;
use std::io;
use std::net::TcpListener;

/// The port at which an end listens, if it does, and what came there until it is accepted.
pub(crate) struct PassiveListener {
    listener: RefCell<Option<TcpListener>>,
    came: RefCell<Option<Socket>>,
}

/// By hand: a derived drop is proved again, part by part, wherever this is let go.
impl Drop for PassiveListener {
    fn drop(self) {
        let Self {
            listener: _,
            came: _,
        } = self;
    }
}

impl PassiveListener {
    /// Nothing is listened at.
    pub(crate) fn new() -> PassiveListener {
        PassiveListener {
            listener: RefCell::new(None),
            came: RefCell::new(None),
        }
    }

    /// Listens at a port of the system's choice, and says which; one that was listened at before is let go.
    pub(crate) fn listen<J: Joins>(&self, net: &J) -> io::Result<u16> {
        let listener = net.bound()?;
        let port = listener.local_addr()?.port();
        drop(self.listener.try_replace(Some(listener)));
        Ok(port)
    }

    /// Connects to the port, where it is the one that is listened at: then nothing more is. None where it is another one, or the system refuses it.
    pub(crate) fn join<J: Joins>(&self, net: &J, port: u16) -> Option<Socket> {
        let listener = self.listener.try_replace(None).ok()??;
        if listener.local_addr().ok()?.port() != port {
            drop(self.listener.try_replace(Some(listener)));
            return None;
        }
        let (own, came) = net.joined(&listener).ok()?;
        drop(self.came.try_replace(Some(came)));
        Some(own)
    }

    /// Whether a data connection came.
    pub(crate) fn has_come(&self) -> bool {
        match self.came.try_borrow() {
            Ok(came) => came.is_some(),
            Err(_) => false,
        }
    }

    /// The data connection that came, which is given once.
    pub(crate) fn take(&self) -> Option<Socket> {
        self.came.try_replace(None).ok()?
    }

    /// Nothing is listened at any more, and what came is let go.
    pub(crate) fn shut(&self) {
        drop(self.listener.try_replace(None));
        if let Some(socket) = self.take() {
            socket.reset();
        }
    }
}
