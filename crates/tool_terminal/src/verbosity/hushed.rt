// A handle of a system that tells all, or errors alone.
use crate::verbosity::head::Head;
use crate::verbosity::told::{Verbosity, is_told};
use std::alloc::{AllocError, Allocator};
use std::env::Env;
use std::fmt::{Display, Write};
use std::fs::{Files, Metadata, OpenOptions, Permissions};
use std::io::{Eprint, Lines, PipeReader, PipeWriter, Print};
use std::net::{Net, SocketAddr, UdpSocket};
use std::os::fd::{BorrowedFd, OwnedFd};
use std::os::unix::net::{SocketAddr as UnixAddress, UnixStream};
use std::path::PathBuf;
use std::time::{Clock, Duration};
use std::{env, io};

/// Gives what another handle gives, and tells on its standard error what is to be told.
pub struct QuietHandle<'a, R> {
    pub rt: &'a R,
    pub told: Verbosity,
}

/// By hand: a derived one asks for as much of what it borrows.
impl<'a, R> Clone for QuietHandle<'a, R> {
    fn clone(&self) -> Result<QuietHandle<'a, R>, AllocError> {
        Ok(*self)
    }
}

impl<'a, R> Copy for QuietHandle<'a, R> {}

impl<'a, R> QuietHandle<'a, R> {
    /// Whether a value is told.
    fn tells<D: Display>(&self, value: &D) -> bool {
        if self.told == Verbosity::All {
            return true;
        }
        let mut head = Head::new();
        let _put = write!(head, "{value}");
        is_told(self.told, head.octets())
    }
}

impl<'a, R: Eprint> Eprint for QuietHandle<'a, R> {
    fn eprint<D: Display + Drop>(&self, value: D) -> io::Result<()> {
        if self.tells(&value) {
            self.rt.eprint(value)
        } else {
            Ok(())
        }
    }

    fn eprintln<D: Display + Drop>(&self, value: D) -> io::Result<()> {
        if self.tells(&value) {
            self.rt.eprintln(value)
        } else {
            Ok(())
        }
    }
}

impl<'a, R: Print> Print for QuietHandle<'a, R> {
    fn print<D: Display + Drop>(&self, value: D) -> io::Result<()> {
        self.rt.print(value)
    }

    fn println<D: Display + Drop>(&self, value: D) -> io::Result<()> {
        self.rt.println(value)
    }

    fn write_all(&self, octets: &[u8]) -> io::Result<()> {
        self.rt.write_all(octets)
    }

    fn write_some(&self, octets: &[u8]) -> io::Result<usize> {
        self.rt.write_some(octets)
    }
}

impl<'a, R: Input> Input for QuietHandle<'a, R> {
    type Reader = R::Reader;

    fn read_line<A: Allocator + Clone>(&self, line: &mut String<A>) -> io::Result<usize> {
        self.rt.read_line(line)
    }

    fn lines<A: Allocator>(&self, alloc: A) -> Lines<R::Reader, A> {
        self.rt.lines(alloc)
    }

    fn reader(&self) -> R::Reader {
        self.rt.reader()
    }
}

impl<'a, R: Env> Env for QuietHandle<'a, R> {
    fn arg(&self, at: usize, room: &mut [u8]) -> Result<usize, env::FillError> {
        self.rt.arg(at, room)
    }

    fn var(&self, name: &str, room: &mut [u8]) -> Result<usize, env::FillError> {
        self.rt.var(name, room)
    }

    fn var_at(&self, at: usize, room: &mut [u8]) -> Result<usize, env::FillError> {
        self.rt.var_at(at, room)
    }

    fn current_dir(&self, room: &mut [u8]) -> io::Result<usize> {
        self.rt.current_dir(room)
    }

    fn set_current_dir(&self, path: &str) -> io::Result<()> {
        self.rt.set_current_dir(path)
    }
}

impl<'a, R: Clock> Clock for QuietHandle<'a, R> {
    fn monotonic(&self) -> io::Result<Duration> {
        self.rt.monotonic()
    }

    fn since_1970(&self) -> io::Result<Duration> {
        self.rt.since_1970()
    }

    fn sleep(&self, duration: Duration) {
        self.rt.sleep(duration);
    }
}

impl<'a, R: Alloc> Alloc for QuietHandle<'a, R> {
    type A = R::A;

    fn alloc(&self) -> R::A {
        self.rt.alloc()
    }
}

impl<'a, R: Net> Net for QuietHandle<'a, R> {
    type Stream = R::Stream;

    type Listener = R::Listener;

    fn bind(&self, addr: SocketAddr) -> io::Result<R::Listener> {
        self.rt.bind(addr)
    }

    fn connect(&self, addr: SocketAddr) -> io::Result<R::Stream> {
        self.rt.connect(addr)
    }

    fn connect_timeout(&self, addr: SocketAddr, timeout: Duration) -> io::Result<R::Stream> {
        self.rt.connect_timeout(addr, timeout)
    }

    fn bind_udp(&self, addr: SocketAddr) -> io::Result<UdpSocket> {
        self.rt.bind_udp(addr)
    }

    fn lookup_host(&self, host: &str, port: u16, found: &mut [SocketAddr]) -> io::Result<usize> {
        self.rt.lookup_host(host, port, found)
    }

    fn connect_unix(&self, addr: &UnixAddress) -> io::Result<UnixStream> {
        self.rt.connect_unix(addr)
    }

    fn unix_pair(&self) -> io::Result<(UnixStream, UnixStream)> {
        self.rt.unix_pair()
    }

    fn unix_socket(&self) -> io::Result<OwnedFd> {
        self.rt.unix_socket()
    }
}

impl<'a, R: Files> Files for QuietHandle<'a, R> {
    type File = R::File;

    type Dir = R::Dir;

    fn open_file(&self, how: &OpenOptions, path: &str) -> io::Result<R::File> {
        self.rt.open_file(how, path)
    }

    fn open_dir(&self, path: &str) -> io::Result<R::Dir> {
        self.rt.open_dir(path)
    }

    fn metadata(&self, path: &str) -> io::Result<Metadata> {
        self.rt.metadata(path)
    }

    fn symlink_metadata(&self, path: &str) -> io::Result<Metadata> {
        self.rt.symlink_metadata(path)
    }

    fn copy(&self, from: &str, to: &str) -> io::Result<u64> {
        self.rt.copy(from, to)
    }

    fn rename(&self, from: &str, to: &str) -> io::Result<()> {
        self.rt.rename(from, to)
    }

    fn remove_file(&self, path: &str) -> io::Result<()> {
        self.rt.remove_file(path)
    }

    fn create_dir(&self, path: &str) -> io::Result<()> {
        self.rt.create_dir(path)
    }

    fn remove_dir(&self, path: &str) -> io::Result<()> {
        self.rt.remove_dir(path)
    }

    fn remove_dir_all<B: Allocator>(&self, alloc: B, path: &str) -> io::Result<()> {
        self.rt.remove_dir_all(alloc, path)
    }

    fn canonicalize<B: Allocator>(&self, alloc: B, path: &str) -> io::Result<PathBuf<B>> {
        self.rt.canonicalize(alloc, path)
    }

    fn read_link<B: Allocator>(&self, alloc: B, path: &str) -> io::Result<PathBuf<B>> {
        self.rt.read_link(alloc, path)
    }

    fn hard_link(&self, original: &str, link: &str) -> io::Result<()> {
        self.rt.hard_link(original, link)
    }

    fn set_permissions(&self, path: &str, permissions: Permissions) -> io::Result<()> {
        self.rt.set_permissions(path, permissions)
    }

    fn symlink(&self, original: &str, link: &str) -> io::Result<()> {
        self.rt.symlink(original, link)
    }

    fn pipe(&self) -> io::Result<(PipeReader, PipeWriter)> {
        self.rt.pipe()
    }

    fn chown(&self, path: &str, uid: Option<u32>, gid: Option<u32>) -> io::Result<()> {
        self.rt.chown(path, uid, gid)
    }

    fn lchown(&self, path: &str, uid: Option<u32>, gid: Option<u32>) -> io::Result<()> {
        self.rt.lchown(path, uid, gid)
    }

    fn create_dir_with_mode(&self, path: &str, mode: u32) -> io::Result<()> {
        self.rt.create_dir_with_mode(path, mode)
    }

    fn bind_unix(&self, socket: BorrowedFd<'_>, addr: &UnixAddress) -> io::Result<()> {
        self.rt.bind_unix(socket, addr)
    }
}
