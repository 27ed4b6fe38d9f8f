// The data connections of an end, which are those of the process with itself.
ghost use Rattle.std.specs.Prelude.{◌≡◌, None};
ghost use Rattle.ftp_ports.specs.Asking.{Closes};

use crate::joining::{Joins, LOOPBACK};
use crate::passive_listener::PassiveListener;
use crate::socket::Socket;
use ftp_endpoint::{Endpoint, Host};
use ftp_ports::{Accepted, Awaited, Beside, For, Ports, Ready, Spoken, Whole};

/// The host of both ends.
pub(crate) const HERE: Host = Host::V4(LOOPBACK);

/// Data connections beside a control connection (RFC 959, section 3.2); those to the other end go to the port where that listens. Nothing is waited for: all
/// that is not on its way stays away until the other end has its turn.
#[derive(Drop)]
pub(crate) struct LoopPorts<'h, J> {
    net: &'h J,
    control: &'h Socket,
    own: &'h PassiveListener,
    other: &'h PassiveListener,
}

impl<'h, J: Joins> LoopPorts<'h, J> {
    /// None is open yet; `own` is where this end listens, and `other` where the other one does.
    pub(crate) fn new(
        net: &'h J,
        control: &'h Socket,
        own: &'h PassiveListener,
        other: &'h PassiveListener,
    ) -> LoopPorts<'h, J> {
        LoopPorts {
            net,
            control,
            own,
            other,
        }
    }

    /// Whether what is awaited of the control connection is there.
    fn is_told(&self, beside: Beside) -> bool {
        match beside {
            Beside::Nothing => false,
            Beside::End => self.control.spoken() == Spoken::Ended,
            Beside::Octets => self.control.has_octets(),
        }
    }
}

impl<'h, J: Joins> Ports for LoopPorts<'h, J> {
    type Stream = Socket;

    fn listen(&mut self) -> Option<u16> {
        self.own.shut();
        self.own.listen(self.net).ok()
    }

    fn accept(&mut self, hears: bool) -> Accepted<Socket> {
        match self.own.take() {
            Some(socket) => Accepted::Came(socket, HERE),
            None if hears && self.control.has_octets() => Accepted::Spoken,
            None => Accepted::Refused,
        }
    }

    fn connect(&mut self, endpoint: Endpoint) -> Option<Socket> {
        self.own.shut();
        self.other.join(self.net, endpoint.port)
    }

    fn wait(&mut self, stream: &mut Socket, what: For, hears: bool) -> Ready {
        match self.control.spoken() {
            Spoken::Octets if hears => Ready::Control,
            Spoken::Ended if !stream.is_ready(what) => {
                if hears { Ready::Control } else { Ready::Lost }
            }
            Spoken::Nothing | Spoken::Octets | Spoken::Ended => Ready::Data,
        }
    }

    fn looks(&mut self, what: Awaited) -> bool {
        match what {
            Awaited::Control => self.control.has_octets(),
            Awaited::Accepted(beside) => self.own.has_come() || self.is_told(beside),
            Awaited::Connected(_) => true,
            Awaited::Replies => self.control.has_room_for_replies(),
        }
    }

    fn looks_at(&mut self, stream: &mut Socket, what: For, beside: Beside) -> bool {
        stream.is_ready(what) || self.is_told(beside)
    }

    fn spoken(&mut self) -> Spoken {
        self.control.spoken()
    }

    /// What sockets are asked is not told.
    fn close(&mut self, stream: Option<Whole<Socket>>)
        ensures { Closes (λ socket. None) (λ socket. None) stream None None }
    {
        self.own.shut();
        if let Some(whole) = stream {
            whole.into_stream().close();
        }
    }

    fn reset(&mut self, stream: Socket) {
        self.own.shut();
        stream.reset();
    }
}
