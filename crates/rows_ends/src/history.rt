// What was asked of the other side of data connections, and what it answered, in order (RFC 959, section 3.2).
ghost use Rattle.std.specs.Prelude.{◌≡◌, ◌∷◌, [], false};
ghost use Rattle.rows_ends.specs.History.{ListsActions, asked_by_call, asked_in};

use ftp_endpoint::{Endpoint, Host, write_extended};
use http_server::Log;
use rows_base::Paper;
use std::alloc::Global;

/// What was asked and answered.
#[derive(Clone, Copy)]
pub enum PortCall {
    /// A port was asked for, and had or not.
    Listened(Option<u16>),
    /// A data connection came from this host.
    Came(Host),
    Connected(Endpoint),
    NotCame,
    NotConnected(Endpoint),
    /// A data connection was closed by an end, or reset.
    Ended,
    Reset,
    /// The port alone was closed.
    Shut,
    /// It was told that the control connection ended.
    Lost,
}

/// What was asked so far: a list for rows, as long as memory was had for it, and one that only proofs read.
#[derive(Drop)]
pub struct History {
    alloc: Global,
    actions: Vec<PortCall>,
    is_short: bool,
    /// Each action, with the octets that were written to its data connection by then.
    pub(crate) log: Log<PortCall, Vec<u8>>,
    ghost said: { ListsActions is_short actions.items log.items },
}

impl History {
    pub fn new(alloc: Global) -> History
        // Witness: equations; `edits/a_closed_port_is_not_noted`, `a_connection_came_from_elsewhere`, `a_reset_is_noted_as_an_end`.
        ensures { result.log.items ≡ [] }
    {
        History {
            alloc,
            actions: Vec::new(alloc),
            is_short: false,
            log: Log::new(),
        }
    }

    /// This was asked too, of no data connection that stands.
    pub fn note(&mut self, action: PortCall)
        // Witness: as of `new`.
        ensures { asked_in self.new.log.items ≡ asked_by_call action [] ∷ asked_in self.old.log.items }
    {
        let none = Vec::new(self.alloc);
        self.note_of(action, &none);
    }

    /// This was asked too, of a data connection to which these octets were written by then.
    pub fn note_of(&mut self, action: PortCall, written: &Vec<u8>)
        // Witness: as of `new`.
        ensures { asked_in self.new.log.items ≡ asked_by_call action written.now.items ∷ asked_in self.old.log.items }
    {
        let log = self.log.and(&action, written);
        if self.actions.push(action).is_err() {
            self.is_short = true;
        }
        self.log = log;
    }

    /// Writes what was asked, in order; nothing where memory was refused for that.
    pub fn show(&self, paper: &mut Paper) {
        if self.is_short {
            paper.fill();
            return;
        }
        paper.put(b"= asked");
        for action in self.actions.as_slice() {
            show_action(*action, paper);
        }
        paper.put(b"\n");
    }
}

fn show_action(action: PortCall, paper: &mut Paper) {
    match action {
        PortCall::Listened(Some(port)) => {
            paper.put(b", listened ");
            paper.number(port as u64);
        }
        PortCall::Listened(None) => paper.put(b", no port"),
        PortCall::Came(host) => show_endpoint(b", came ", Endpoint { host, port: 0 }, paper),
        PortCall::Connected(endpoint) => show_endpoint(b", connected ", endpoint, paper),
        PortCall::NotCame => paper.put(b", did not come"),
        PortCall::NotConnected(endpoint) => show_endpoint(b", not connected ", endpoint, paper),
        PortCall::Ended => paper.put(b", ended"),
        PortCall::Reset => paper.put(b", reset"),
        PortCall::Shut => paper.put(b", shut"),
        PortCall::Lost => paper.put(b", lost"),
    }
}

/// An endpoint as in EPRT.
fn show_endpoint(words: &[u8], endpoint: Endpoint, paper: &mut Paper) {
    paper.put(words);
    paper.put(write_extended(endpoint).as_slice());
}
