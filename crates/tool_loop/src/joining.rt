// Connections of this process with itself, over the loopback.
use crate::socket::Socket;
use ftp_ports::TURNS;
use std::alloc::Global;
use std::io;
use std::io::{Error, ErrorKind};
use std::net::{Net, SocketAddr, TcpListener, TcpStream};

/// The octets of the host of both ends.
pub(crate) const LOOPBACK: [u8; 4] = [127, 0, 0, 1];

/// Who joins sockets, as one trait without types of its own: what stands on it is proved for less.
pub(crate) trait Joins {
    /// Where memory is had.
    fn heap(&self) -> Global;

    /// Listens at a port of the loopback (127.0.0.1) that the system chooses; fails where it gives none.
    fn bound(&self) -> io::Result<TcpListener>;

    /// Connects to a port that this process listens at: the socket that connects, and the one that comes. Fails where the system or memory refuses it.
    fn joined(&self, listener: &TcpListener) -> io::Result<(Socket, Socket)>;
}

impl<R> Joins for R
where
    R: Net<Listener = TcpListener, Stream = TcpStream> + AllocGlobal,
{
    fn heap(&self) -> Global {
        self.alloc()
    }

    fn bound(&self) -> io::Result<TcpListener> {
        TcpListener::bind(self, SocketAddr::from((LOOPBACK, 0)))
    }

    fn joined(&self, listener: &TcpListener) -> io::Result<(Socket, Socket)> {
        let stream = TcpStream::connect(self, listener.local_addr()?)?;
        let came = accepted(listener, stream.local_addr()?)?;
        Socket::both(self.alloc(), stream, came)
    }
}

/// The connection that comes from an address; another process that connected before is let go.
fn accepted(listener: &TcpListener, address: SocketAddr) -> io::Result<TcpStream> {
    for _ in 0..TURNS {
        let (stream, peer) = listener.accept()?;
        if peer == address {
            return Ok(stream);
        }
    }
    Err(Error::from(ErrorKind::TimedOut))
}
