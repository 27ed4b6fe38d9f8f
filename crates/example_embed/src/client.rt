// The client: it logs in, puts a file, and gets it back over sockets.
use crate::{LOOPBACK, PORT, SECONDS};
use ftp::client::{
    Answer, Client, Driven, How, Kind, Login, Mode, Near, Op, OperationTransfer, Representation,
    Structure, Text, drive_client,
};
use ftp::net::{Control, ControlReader, ControlWriter, Data, Host, Ports, SocketPorts, Timeouts};
use std::alloc::{AllocError, Global};
use std::io;
use std::io::{Error, ErrorKind, Read, Write};
use std::net::{Net, SocketAddr, TcpListener, TcpStream};

/// As it is, with a passive data connection (EPSV).
const AS_IT_IS: How = How {
    representation: Representation {
        kind: Kind::Image,
        structure: Structure::File,
        mode: Mode::Stream,
    },
    marks: false,
    active: false,
    extended: true,
};

/// Puts a file, gets it back, and prints what came.
pub(crate) fn put_and_get<R>(rt: &R) -> io::Result<()>
where
    R: Net<Listener = TcpListener, Stream = TcpStream> + Print + AllocGlobal,
{
    let alloc = rt.alloc();
    let stream = TcpStream::connect(rt, SocketAddr::from((LOOPBACK, PORT)))?;
    let timeouts = Timeouts::new(SECONDS, None);
    let mut control = Control::new(
        ControlReader::new(&stream, &timeouts),
        ControlWriter::new(&stream, &timeouts),
    );
    let mut ports = SocketPorts::new(rt, &stream, &timeouts)?;
    let mut client = anonymous(alloc)?;
    for op in both(alloc).map_err(|_| Error::from(ErrorKind::OutOfMemory))? {
        match &ask(&mut client, &mut control, &mut ports, op)? {
            Answer::Done => {}
            Answer::Octets(octets) => io::writer(rt).write_all(octets.as_slice())?,
            _ => return Err(Error::from(ErrorKind::Other)),
        }
    }
    Ok(())
}

/// Does an operation; gives its answer.
fn ask<N: Near<Global>, C: Read + Drop, W: Write + Drop, P: Ports>(
    client: &mut N,
    control: &mut Control<C, W>,
    ports: &mut P,
    op: Op<Text<Global>>,
) -> io::Result<Answer<Global>> {
    client.start(op).map_err(|_| Error::from(ErrorKind::Other))?;
    let mut data = Data::new();
    let Driven { report, off: _ } = drive_client(client, control, ports, &mut data);
    data.finish(ports);
    report.ok_or_else(|| Error::from(ErrorKind::BrokenPipe))
}

/// The upload, and the download.
fn both(alloc: Global) -> Result<Vec<Op<Text<Global>>, Global>, AllocError> {
    let mut ops = Vec::new(alloc);
    let octets = Text::copy_of(alloc, b"Hello\n")?;
    ops.push(Op::Put(Text::copy_of(alloc, b"/greeting")?, octets, AS_IT_IS))?;
    ops.push(Op::Get(Text::copy_of(alloc, b"/greeting")?, AS_IT_IS))?;
    Ok(ops)
}

/// A client that logs in as `anonymous` before its first operation.
fn anonymous(alloc: Global) -> io::Result<Client<Global, OperationTransfer<Global>>> {
    let out_of_memory = || Error::from(ErrorKind::OutOfMemory);
    let user = Text::copy_of(alloc, b"anonymous").map_err(|_| out_of_memory())?;
    let pass = Text::copy_of(alloc, b"example").map_err(|_| out_of_memory())?;
    let login = Login::new(user, pass).ok_or_else(out_of_memory)?;
    let here = Host::V4(LOOPBACK);
    Client::new(alloc, login, here, here).map_err(|_| out_of_memory())
}
