// A row of a script, and the end that it is played on.
use crate::driven::Try;
use crate::event::host_or;
use ftp_endpoint::Host;
use rows_base::said;
use std::alloc::Global;

/// How rows are played on an end.
#[derive(Clone, Copy)]
pub struct Side {
    pub is_client: bool,
    /// What stands before the lines that it sends.
    pub mark: &'static [u8],
    /// The hosts of both ends, where nothing else is said.
    pub here: Host,
    pub peer: Host,
    /// The most octets of one call.
    pub size: usize,
    /// Each row is played in pieces of up to so many octets, too; more where it says so.
    pub pieces: u64,
}

pub const SERVER: Side = Side {
    is_client: false,
    mark: b"< ",
    here: Host::V4([127, 0, 0, 1]),
    peer: Host::V4([10, 0, 0, 2]),
    size: 1_000,
    pieces: 0,
};

pub const CLIENT: Side = Side {
    is_client: true,
    mark: b"> ",
    here: Host::V4([192, 0, 2, 7]),
    peer: Host::V4([192, 0, 2, 1]),
    size: 65_536,
    pieces: 3,
};

/// A row, and what it writes where that was seen before: then the tree is kept behind each line, up to the first that writes something else.
#[derive(Clone, Copy)]
pub struct RowTurn<'a> {
    pub alloc: Global,
    pub side: Side,
    pub row: &'a [u8],
    pub whole: Option<&'a [u8]>,
}

/// How a row is played.
#[derive(Clone, Copy)]
pub struct RowSettings {
    /// The most octets of one call.
    pub size: usize,
    /// The growth that is refused; none at 0.
    pub refused: u64,
    /// What is tried of connections that drive the end.
    pub tried: Try,
}

impl Side {
    /// How a row is played first.
    pub fn whole(&self) -> RowSettings {
        RowSettings {
            size: self.size,
            refused: 0,
            tried: Try::Whole,
        }
    }
}

impl RowTurn<'_> {
    /// The hosts of both ends.
    pub fn hosts(&self) -> (Host, Host) {
        let here = said(self.row, b"here").unwrap_or(b"");
        let peer = said(self.row, b"peer").unwrap_or(b"");
        (host_or(here, self.side.here), host_or(peer, self.side.peer))
    }
}
