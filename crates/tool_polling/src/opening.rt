// A data connection that a server opens: it is begun, and looked at until it stands or failed.
use crate::awaits::{Awaits, look};
use crate::line::ControlLine;
use ftp_endpoint::Endpoint;
use libc::net as c;
use std::net::TcpStream;
use tool_sockets::{OPENING_MILLIS, Sockets, addr_of, asking, monotonic_millis};

/// A connection that was begun.
#[derive(Drop)]
pub(crate) struct PendingConnection {
    /// None where the system began none.
    begun: Option<mio::net::TcpStream>,
    /// Until when it is waited for.
    until: u64,
}

impl PendingConnection {
    /// Begins one to an endpoint.
    pub(crate) fn begin<R: Sockets>(net: &R, endpoint: Endpoint) -> PendingConnection {
        PendingConnection {
            begun: net.connecting(addr_of(endpoint)).ok(),
            until: monotonic_millis().saturating_add(OPENING_MILLIS),
        }
    }

    /// Whether it stands or failed, within 30 seconds and while timeouts and the control connection last.
    pub(crate) fn looks(&self, line: &ControlLine) -> Result<(), Awaits> {
        let Some(begun) = &self.begun else {
            return Ok(());
        };
        let mut rows = [line.row(c::POLLRDHUP), asking(begun, c::POLLOUT)];
        look(&mut rows);
        let is_told = rows[0].revents != 0 || rows[1].revents != 0;
        if is_told || self.until <= monotonic_millis() || line.timeouts.left() == Some(0) {
            return Ok(());
        }
        Err(Awaits::both(rows[0], rows[1]).or_until(self.until))
    }

    /// The connection, where it stands now.
    pub(crate) fn stream(self) -> Option<TcpStream> {
        let begun = self.begun?;
        let mut rows = [asking(&begun, c::POLLOUT)];
        look(&mut rows);
        if rows[0].revents == 0 {
            return None;
        }
        match begun.take_error() {
            Ok(None) => Some(TcpStream::from(begun)),
            _ => None,
        }
    }
}
