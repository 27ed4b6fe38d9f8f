// What stands between both ends: their control connection, and where each awaits data connections.
use crate::joining::Joins;
use crate::passive_listener::PassiveListener;
use crate::ports::LoopPorts;
use crate::socket::Socket;
use std::io;

/// The two sockets of a control connection, the client's and the server's, and where each of them awaits data connections.
pub(crate) struct Between {
    pub(crate) asks: Socket,
    pub(crate) serves: Socket,
    near: PassiveListener,
    far: PassiveListener,
}

/// By hand: a derived drop is proved again, part by part, wherever this is let go.
impl Drop for Between {
    fn drop(self) {
        let Self {
            asks: _,
            serves: _,
            near: _,
            far: _,
        } = self;
    }
}

impl Between {
    /// A control connection that is opened for both; fails where the system opens none, or memory is refused.
    pub(crate) fn new<J: Joins>(net: &J) -> io::Result<Between> {
        let listener = net.bound()?;
        let (asks, serves) = net.joined(&listener)?;
        Ok(Between {
            asks,
            serves,
            near: PassiveListener::new(),
            far: PassiveListener::new(),
        })
    }

    /// The data connections of the client, which are lent both sockets and the listeners.
    pub(crate) fn client_ports<'h, J: Joins>(&'h self, net: &'h J) -> LoopPorts<'h, J> {
        LoopPorts::new(net, &self.asks, &self.near, &self.far)
    }

    /// The data connections of the server, which are lent the same the other way round.
    pub(crate) fn server_ports<'h, J: Joins>(&'h self, net: &'h J) -> LoopPorts<'h, J> {
        LoopPorts::new(net, &self.serves, &self.far, &self.near)
    }
}
