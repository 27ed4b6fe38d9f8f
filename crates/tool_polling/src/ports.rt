// Data connections of a server or of one of several clients, opened by either end, none of which is waited for.
ghost use Rattle.std.specs.Prelude.{◌≡◌, None};
ghost use Rattle.std.specs.Global.{Global};
ghost use Rattle.ftp_ports.specs.Asking.{Closes};

use crate::awaits::Awaits;
use crate::establishing::PortArrival;
use crate::hangup::{DataInput, LinkOwner, told_beside};
use crate::line::ControlLine;
use crate::link::LineLink;
use crate::opening::PendingConnection;
use crate::passive::{Listening, PassivePorts};
use ftp_endpoint::{Endpoint, Host};
use ftp_ports::{Accepted, Awaited, Beside, For, Ports, Ready, Spoken, Whole};
use std::alloc::Global;
use std::io;
use std::net::{IpAddr, TcpStream};
use std::rc::Rc;
use tool_sockets::{Sockets, host_of};

/// Data connections beside one control connection, at the address that its client reached: a passive one listens at one of these ports, and no host but the
/// client's is accepted there.
#[derive(Drop)]
pub struct LinePorts<'a, R: Sockets> {
    pub(crate) net: &'a R,
    pub(crate) line: Rc<ControlLine, Global>,
    pub(crate) passive: &'a PassivePorts,
    owner: LinkOwner,
    /// The address of this end.
    pub(crate) here: IpAddr,
    pub(crate) client: Host,
    pub(crate) listening: Option<Listening>,
    /// Whether nobody was looked for there yet.
    pub(crate) is_new: bool,
    /// What came at the port that is listened at, until it is accepted.
    pub(crate) came: Option<PortArrival>,
    /// A connection that this end opens.
    pub(crate) opening: Option<PendingConnection>,
    /// A connection that was ended, until what the peer sent too much is read.
    leaving: Option<LineLink>,
    /// What the last look that told of nothing waits for.
    awaits: Awaits,
    /// What was looked for at the data connection that was looked at last.
    awaited: For,
}

impl<'a, R: Sockets> LinePorts<'a, R> {
    /// Those of a client; none is open yet. Fails where the system does not tell an address of the control connection.
    pub fn new(
        net: &'a R,
        line: Rc<ControlLine, Global>,
        passive: &'a PassivePorts,
    ) -> io::Result<LinePorts<'a, R>> {
        let here = line.here()?.ip().to_canonical();
        let client = host_of(line.peer()?);
        Ok(LinePorts {
            net,
            line,
            passive,
            owner: LinkOwner::Client,
            here,
            client,
            listening: None,
            is_new: false,
            came: None,
            opening: None,
            leaving: None,
            awaits: Awaits::nothing(),
            awaited: For::Room,
        })
    }

    /// Those of a server; none is open yet. Where its client ends or breaks the control connection during an upload, that is told once the data connection
    /// ended or broke, or gave nothing for ten seconds. A data connection that fails is something done: the session goes on. Fails as `new` does.
    pub fn serving(
        net: &'a R,
        line: Rc<ControlLine, Global>,
        passive: &'a PassivePorts,
    ) -> io::Result<LinePorts<'a, R>> {
        let mut ports = LinePorts::new(net, line, passive)?;
        ports.owner = LinkOwner::Server;
        Ok(ports)
    }

    /// What the last look that told of nothing waits for, and until when the port that is listened at is kept, where another one is wanted.
    pub fn awaits(&self) -> Awaits {
        let kept = self
            .listening
            .as_ref()
            .and_then(|it| self.passive.kept_until(it));
        match kept {
            Some(until) => self.awaits.or_until(until.min(self.awaits.until)),
            None => self.awaits,
        }
    }

    /// The connection that was ended last, where what its peer sends too much is still to be read.
    pub fn take_leaving(&mut self) -> Option<LineLink> {
        self.leaving.take()
    }

    /// Whether that is there; keeps what is waited for.
    fn kept(&mut self, looked: Result<(), Awaits>) -> bool {
        match looked {
            Ok(()) => true,
            Err(awaits) => {
                self.awaits = awaits;
                false
            }
        }
    }

    /// Nothing is listened at, and nothing is opened.
    fn stop(&mut self) {
        self.rest();
        self.came = None;
        self.opening = None;
    }

    /// Nobody waits any longer at the port that is listened at.
    pub(crate) fn rest(&mut self) {
        if let Some(listening) = self.listening.take() {
            self.passive.rest(listening);
        }
    }

    /// Gives up the port that is listened at, where nobody opened it for long and another one is wanted.
    fn give_up(&mut self) {
        if let Some(listening) = self.listening.take() {
            self.listening = self.passive.keep(listening);
        }
    }

    /// Ends a data connection; what the peer sends too much is read later. One whose peer has ended is dropped at once.
    fn leave(&mut self, link: LineLink) {
        self.drain();
        if !link.has_ended() && link.end().is_ok() {
            self.leaving = Some(link);
        }
    }

    /// Reads what the peer of the last data connection sent too much, and drops that.
    pub(crate) fn drain(&mut self) {
        if let Some(mut link) = self.leaving.take() {
            let _more = link.drain();
        }
    }

    /// An open connection as a link.
    fn linked(&self, stream: TcpStream) -> Option<LineLink> {
        let line = self.line.clone().ok()?;
        LineLink::new(line, stream, self.owner).ok()
    }
}

impl<'a, R: Sockets> Ports for LinePorts<'a, R> {
    type Stream = LineLink;

    fn listen(&mut self) -> Option<u16> {
        self.stop();
        self.drain();
        self.begin().ok()
    }

    fn accept(&mut self, hears: bool) -> Accepted<LineLink> {
        match self.came.take() {
            Some(PortArrival::Stream(stream, host)) => {
                self.rest();
                match self.linked(stream) {
                    Some(link) => Accepted::Came(link, host),
                    None => Accepted::Refused,
                }
            }
            Some(PortArrival::Failed) => Accepted::Refused,
            None => self.unaccepted(hears),
        }
    }

    fn connect(&mut self, _endpoint: Endpoint) -> Option<LineLink> {
        let stream = self.opening.take()?.stream()?;
        self.linked(stream)
    }

    fn wait(&mut self, stream: &mut LineLink, what: For, hears: bool) -> Ready {
        stream.ready(what, hears)
    }

    fn looks(&mut self, what: Awaited) -> bool {
        if self.came.is_none() {
            self.give_up();
        }
        let looked = match what {
            Awaited::Control => self.line.has_octets(),
            Awaited::Replies => self.line.has_room(),
            Awaited::Accepted(beside) => self.looks_accepted(beside),
            Awaited::Connected(endpoint) => self.looks_connected(endpoint),
        };
        self.kept(looked)
    }

    fn looks_at(&mut self, stream: &mut LineLink, what: For, beside: Beside) -> bool {
        self.awaited = what;
        let looked = stream.looks(what, beside);
        self.kept(looked)
    }

    /// What the control connection has beside a data connection that ended or broke.
    fn spoken(&mut self) -> Spoken {
        let control = self.line.spoken();
        if !matches!((self.owner, self.awaited), (LinkOwner::Server, For::Octets)) {
            return control;
        }
        if control == Spoken::Ended && self.line.has_unread() {
            return Spoken::Octets;
        }
        told_beside(control, DataInput::Something)
    }

    /// What sockets are asked is not told.
    fn close(&mut self, stream: Option<Whole<LineLink>>)
        ensures { Closes (λ link. None) (λ link. None) stream None None }
    {
        self.stop();
        if let Some(whole) = stream {
            self.leave(whole.into_stream());
        }
    }

    fn reset(&mut self, stream: LineLink) {
        self.stop();
        self.drain();
        stream.reset();
    }
}
