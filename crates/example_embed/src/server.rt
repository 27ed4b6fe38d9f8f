// The server: a tree in memory, one account, and one session over sockets.
use crate::{LOOPBACK, PORT, SECONDS};
use ftp::client::Text;
use ftp::net::{Control, ControlReader, ControlWriter, Host, SocketPorts, SystemWatch, Timeouts};
use ftp::server::{Account, Accounts, Clocked, Rights, Server, TreeTransfer, drive_server};
use ftp::tree::{MemTree, Path};
use std::alloc::{AllocError, Global};
use std::io;
use std::io::{Error, ErrorKind};
use std::net::{Net, SocketAddr, TcpListener, TcpStream};
use std::time::Clock;

/// Serves the first client that comes, until it says QUIT.
pub(crate) fn serve_one<R>(rt: &R) -> io::Result<()>
where
    R: Net<Listener = TcpListener, Stream = TcpStream> + Clock + AllocGlobal,
{
    let alloc = rt.alloc();
    let listener = TcpListener::bind(rt, SocketAddr::from((LOOPBACK, PORT)))?;
    let (stream, _peer) = listener.accept()?;
    let timeouts = Timeouts::new(SECONDS, None);
    let mut control = Control::new(
        ControlReader::new(&stream, &timeouts),
        ControlWriter::new(&stream, &timeouts),
    );
    let mut ports = SocketPorts::new(rt, &stream, &timeouts)?;
    let mut clocked = Clocked {
        server: server(alloc)?,
        watch: SystemWatch::new(rt),
        watcher: (),
    };
    drive_server(&mut clocked, &mut control, &mut ports).map_err(|_| Error::from(
        ErrorKind::BrokenPipe,
    ))
}

/// A server over an empty tree, where `anonymous` may do everything.
fn server(
    alloc: Global,
) -> io::Result<Server<Global, MemTree<Global>, TreeTransfer<Global, MemTree<Global>>>> {
    let accounts = accounts(alloc).map_err(|_| out_of_memory())?;
    let here = Host::V4(LOOPBACK);
    Server::new(alloc, MemTree::new(alloc), accounts, here, here).map_err(|_| out_of_memory())
}

/// The one account.
fn accounts(alloc: Global) -> Result<Accounts<Global>, AllocError> {
    let mut list = Vec::new(alloc);
    list.push(Account {
        user: Text::copy_of(alloc, b"anonymous")?,
        pass: None,
        root: Path::root(alloc),
        rights: Rights::all(),
    })?;
    Accounts::new(list).map_err(|_| AllocError)
}

fn out_of_memory() -> Error {
    Error::from(ErrorKind::OutOfMemory)
}
