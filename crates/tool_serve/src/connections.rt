// The connections of a session, of which its session log is told.
ghost use Rattle.std.specs.Global.{Global};
ghost use Rattle.std.specs.Prelude.{None};
ghost use Rattle.ftp_ports.specs.Asking.{Closes};

use crate::log_line::Tells;
use crate::session_log::SessionLog;
use ftp_endpoint::Endpoint;
use ftp_ports::{Accepted, Awaited, Beside, For, Ports, Ready, Spoken, Whole};
use std::alloc::Global;
use std::io;
use std::io::{ErrorKind, Write};
use std::rc::Rc;
use tool_log::DataClose;
use tool_polling::{LineLink, LinePorts, LineWriter};
use tool_sockets::Sockets;

/// The writing side of a control connection: after the last refused login nothing more is written, also to what was read before.
#[derive(Drop)]
pub(crate) struct SaidWriter<'a, R: Tells> {
    inner: LineWriter,
    session_log: Rc<SessionLog<'a, R>, Global>,
    /// Whether the last write took a front of what it was given, whose rest is written next.
    is_amid: bool,
}

impl<'a, R: Tells> SaidWriter<'a, R> {
    /// Nothing was written yet.
    pub(crate) fn new(
        inner: LineWriter,
        session_log: Rc<SessionLog<'a, R>, Global>,
    ) -> SaidWriter<'a, R> {
        SaidWriter {
            inner,
            session_log,
            is_amid: false,
        }
    }
}

impl<'a, R: Tells> Write for SaidWriter<'a, R> {
    fn write(&mut self, octets: &[u8]) -> io::Result<usize> {
        if !self.is_amid && self.session_log.is_over() {
            return Err(io::Error::from(ErrorKind::TimedOut));
        }
        self.session_log.write();
        let count = self.inner.write(octets)?;
        self.is_amid = count < octets.len();
        if !self.is_amid {
            self.session_log.written();
        }
        Ok(count)
    }

    fn flush(&mut self) -> io::Result<()> {
        Ok(())
    }
}

/// The data connections of a session: its log is told how each one comes and goes. The control connection counts their octets (`take_transferred`).
#[derive(Drop)]
pub(crate) struct LoggedPorts<'a, R: Sockets + Tells> {
    pub(crate) inner: LinePorts<'a, R>,
    pub(crate) session_log: Rc<SessionLog<'a, R>, Global>,
}

impl<'a, R: Sockets + Tells> Ports for LoggedPorts<'a, R> {
    type Stream = LineLink;

    fn listen(&mut self) -> Option<u16> {
        self.inner.listen()
    }

    fn accept(&mut self, hears: bool) -> Accepted<LineLink> {
        match self.inner.accept(hears) {
            Accepted::Came(link, host) => {
                self.session_log.opened();
                Accepted::Came(link, host)
            }
            Accepted::Spoken => Accepted::Spoken,
            Accepted::Refused => {
                self.session_log.give_up();
                Accepted::Refused
            }
        }
    }

    fn connect(&mut self, endpoint: Endpoint) -> Option<LineLink> {
        let Some(link) = self.inner.connect(endpoint) else {
            self.session_log.give_up();
            return None;
        };
        self.session_log.opened();
        Some(link)
    }

    fn wait(&mut self, stream: &mut LineLink, what: For, hears: bool) -> Ready {
        self.inner.wait(stream, what, hears)
    }

    /// While the front of an upload is copied, replies go, and nothing else is there.
    fn looks(&mut self, what: Awaited) -> bool {
        if self.session_log.is_copying() && !matches!(what, Awaited::Replies) {
            return false;
        }
        self.inner.looks(what)
    }

    fn looks_at(&mut self, stream: &mut LineLink, what: For, beside: Beside) -> bool {
        if self.session_log.is_copying() {
            return false;
        }
        self.inner.looks_at(stream, what, beside)
    }

    fn spoken(&mut self) -> Spoken {
        self.inner.spoken()
    }

    fn close(&mut self, stream: Option<Whole<LineLink>>)
        ensures { Closes (λ link. None) (λ link. None) stream None None }
    {
        match stream {
            Some(whole) => {
                self.inner.close(Some(whole));
                self.session_log.parted(DataClose::Ended);
            }
            None => self.inner.close(None),
        }
    }

    fn reset(&mut self, stream: LineLink) {
        self.inner.reset(stream);
        self.session_log.parted(DataClose::Reset);
    }
}
