// A socket of a connection of the process with itself: it reads only what is on its way, and writes only what there is room for.
ghost use Rattle.std.specs.Prelude.{◌≤◌, IfOk, length};
ghost use Rattle.std.specs.Global.{Global};

use crate::pipe::Pipe;
use crate::way::Flow;
use ftp_ports::{Duplex, For, Spoken};
use std::alloc::Global;
use std::io;
use std::io::{Error, ErrorKind, Read, Write};
use std::net::{Shutdown, TcpStream};
use std::rc::Rc;

/// The most octets that an end owes at once over a control connection: what `Awaited::Replies` asks room for here.
const REPLIES: usize = 3072;

/// One of the two sockets of a connection. What would wait fails as `WouldBlock`: who looks first does not meet that.
pub(crate) struct Socket {
    stream: TcpStream,
    /// What comes to it, and what goes from it.
    coming: Rc<Pipe, Global>,
    going: Rc<Pipe, Global>,
}

/// By hand: a derived drop is proved again, part by part, wherever a socket is let go.
impl Drop for Socket {
    fn drop(self) {
        let Self {
            stream: _,
            coming: _,
            going: _,
        } = self;
    }
}

impl Socket {
    /// The two sockets of a connection over which nothing went yet; each write goes out at once. Fails where memory is refused.
    pub(crate) fn both(
        alloc: Global,
        one: TcpStream,
        other: TcpStream,
    ) -> io::Result<(Socket, Socket)> {
        one.set_nodelay(true)?;
        other.set_nodelay(true)?;
        let up = Rc::new(alloc, Pipe::new())?;
        let down = Rc::new(alloc, Pipe::new())?;
        let near = Socket {
            stream: one,
            coming: down.clone()?,
            going: up.clone()?,
        };
        let far = Socket {
            stream: other,
            coming: up,
            going: down,
        };
        Ok((near, far))
    }

    /// Whether octets can be read, or the end or the break is there: a read ends at once.
    pub(crate) fn has_octets(&self) -> bool {
        self.coming.way().reads_at_once()
    }

    /// Whether there is room for what an end owes at once over a control connection, or nobody takes it.
    pub(crate) fn has_room_for_replies(&self) -> bool {
        self.going.way().writes_at_once(REPLIES)
    }

    /// Whether what is waited for is there: a read, or a write of one octet, ends at once.
    pub(crate) fn is_ready(&self, what: For) -> bool {
        match what {
            For::Octets => self.has_octets(),
            For::Room => self.going.way().writes_at_once(1),
        }
    }

    /// What it has, as a control connection.
    pub(crate) fn spoken(&self) -> Spoken {
        self.coming.way().spoken()
    }

    /// Reads what is on its way; none is the end behind it. Fails as `ConnectionReset` where the way was cut, and as `WouldBlock` where nothing is on it.
    pub(crate) fn receive_some(&self, room: &mut [u8]) -> io::Result<usize>
        ensures within { IfOk result (λ count. count ≤ length room.new) }
    {
        let way = self.coming.way();
        if let Flow::Broken = way.flow {
            return Err(Error::from(ErrorKind::ConnectionReset));
        }
        if !way.reads_at_once() {
            return Err(Error::from(ErrorKind::WouldBlock));
        }
        let mut stream = &self.stream;
        let count = stream.read(room)?;
        self.coming.came(count);
        Ok(count)
    }

    /// Writes as many octets as there is room for. Fails as `BrokenPipe` where nobody takes any, and as `WouldBlock` where there is no room.
    pub(crate) fn send_some(&self, octets: &[u8]) -> io::Result<usize>
        ensures within { IfOk result (λ count. count ≤ length octets.now) }
    {
        let way = self.going.way();
        let Flow::Open = way.flow else {
            return Err(Error::from(ErrorKind::BrokenPipe));
        };
        let room = way.room();
        if room == 0 {
            return Err(Error::from(ErrorKind::WouldBlock));
        }
        let (front, _) = octets.split_at(room.min(octets.len()));
        let mut stream = &self.stream;
        let count = stream.write(front)?;
        self.going.went(count);
        Ok(count)
    }

    /// Its end sends nothing more: the other socket finds the end behind all that was written.
    pub(crate) fn end(&self) {
        self.going.end();
        let _ended = self.stream.shutdown(Shutdown::Write);
    }

    /// Its end sends nothing more, and takes nothing.
    pub(crate) fn close(self) {
        self.end();
        self.coming.cut();
    }

    /// Nothing more goes over the connection, and what is on its way is lost.
    pub(crate) fn reset(self) {
        self.coming.cut();
        self.going.cut();
    }
}

impl Read for Socket {
    fn read(&mut self, room: &mut [u8]) -> io::Result<usize> {
        self.receive_some(room)
    }
}

impl Write for Socket {
    fn write(&mut self, octets: &[u8]) -> io::Result<usize> {
        self.send_some(octets)
    }

    fn flush(&mut self) -> io::Result<()> {
        Ok(())
    }
}

impl Duplex for Socket {
    fn receive(&mut self, room: &mut [u8]) -> io::Result<usize> {
        self.read(room)
    }

    fn send(&mut self, octets: &[u8]) -> io::Result<usize> {
        self.write(octets)
    }
}

/// A control connection, as its reader and as its writer.
#[derive(Drop)]
pub(crate) struct ControlSocket<'h> {
    socket: &'h Socket,
}

impl<'h> ControlSocket<'h> {
    /// One side of a socket, which is lent while the session lasts.
    pub(crate) fn new(socket: &'h Socket) -> ControlSocket<'h> {
        ControlSocket { socket }
    }
}

impl<'h> Read for ControlSocket<'h> {
    fn read(&mut self, room: &mut [u8]) -> io::Result<usize> {
        self.socket.receive_some(room)
    }
}

impl<'h> Write for ControlSocket<'h> {
    fn write(&mut self, octets: &[u8]) -> io::Result<usize> {
        self.socket.send_some(octets)
    }

    fn flush(&mut self) -> io::Result<()> {
        Ok(())
    }
}
