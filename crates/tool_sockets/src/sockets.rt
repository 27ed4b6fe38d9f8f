// The sockets of a system as one trait without types of its own: what stands on it is proved for less than on the system's, which has two types and
// their bounds.
use std::io;
use std::net::{Net, SocketAddr, TcpListener, TcpStream};

/// Who has sockets. Whoever has those of a system is one.
pub trait Sockets {
    /// Listens at an address; fails where the system does not let it, as where its port is taken.
    fn listener(&self, address: SocketAddr) -> io::Result<TcpListener>;

    /// Begins to connect to an address, and returns at once: that it stands, or failed, is told by a poll. Fails where the system begins none.
    fn connecting(&self, address: SocketAddr) -> io::Result<mio::net::TcpStream>;
}

impl<R: Net<Listener = TcpListener, Stream = TcpStream>> Sockets for R {
    fn listener(&self, address: SocketAddr) -> io::Result<TcpListener> {
        TcpListener::bind(self, address)
    }

    fn connecting(&self, address: SocketAddr) -> io::Result<mio::net::TcpStream> {
        mio::net::TcpStream::connect(self, address)
    }
}
