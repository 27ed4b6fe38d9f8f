// What a server wants of the connections (RFC 959, section 3.2).
ghost use Rattle.std.specs.Prelude.{◌≡◌, drop, length, option_map};
ghost use Rattle.ftp_ends.specs.Octets.{has_octets};
ghost use Rattle.ftp_server_model.specs.Calls.{is_done, may_receive, to_give, wants, wants_of};
ghost use Rattle.ftp_server_model.specs.Heard.{code_in, lent, login_of_session};
ghost use Rattle.ftp_server_model.specs.Machine.{is_running, is_transferring};
ghost use Rattle.ftp_server.specs.Busy.{is_opening};

use crate::hear::is_transferring;
use crate::server::Server;
use ftp_endpoint::Host;
use ftp_ends::Wants;
use ftp_operation::Rights;
use ftp_path::Path;
use ftp_server_model::{Answered, Life, ServerLink, Way};
use ftp_server_replies::is_in;
use ftp_server_session::ServerTransfer;
use ftp_tree::Tree;
use std::alloc::Allocator;

impl<A: Allocator + Copy, T: Tree<A>, J: ServerTransfer<A, T>> Server<A, T, J> {
    ghost use Rattle.ftp_server.specs.Server.{view_of};

    /// What it wants of the connections. Takes no memory.
    pub fn wants(&self) -> Wants
        ensures { result ≡ wants (view_of T.table J.view self.now) }
    {
        if self.session.closing {
            return Wants::CloseData;
        }
        if self.is_done() {
            return Wants::CloseAll;
        }
        self.wants_of_link()
    }

    /// Whether a transfer was begun whose data connection is not open yet: its 150 is said, and `Accept` or `Connect` is for it.
    pub fn is_opening(&self) -> bool
        ensures { result ≡ is_opening (view_of T.table J.view self.now).session.connection }
    {
        matches!(self.session.connection, ServerLink::Opening(_, _))
    }

    /// How many control octets are owed, at most 8,192.
    pub fn owed(&self) -> usize
        ensures { result ≡ length (view_of T.table J.view self.now).owed }
    {
        self.output.len()
    }

    /// Whether control octets are owed.
    pub fn owes(&self) -> bool
        ensures { result ≡ has_octets (view_of T.table J.view self.now).owed }
    {
        self.output.len() > 0
    }

    /// Whether octets of the data connection are still to be given.
    pub fn has_data(&self) -> bool
        ensures { result ≡ has_octets (to_give (view_of T.table J.view self.now)) }
    {
        self.session.has_data()
    }

    /// Whether an octet of the data connection may be taken: an upload is under way, and its markers have room to be answered.
    pub fn may_receive(&self) -> bool
        ensures { result ≡ may_receive (view_of T.table J.view self.now) }
    {
        self.session.is_upload() && self.output.has_room()
    }

    /// The host that it stands on.
    pub fn here(&self) -> Host
        ensures { result ≡ (view_of T.table J.view self.now).context.here }
    {
        self.context.here
    }

    /// The line that the last call acted on, if it acted on one. Takes no memory.
    pub fn answered(&self) -> Option<Answered<'_>>
        // Witness: equations; `edits/a_code_is_read_one_octet_on` of `ftp_server_replies`.
        ensures { option_map lent result ≡ self.now.heard }
    {
        match &self.heard {
            Some(line) => Some(line.lend()),
            None => None,
        }
    }

    /// The root of the account of who is logged in, and its rights; none where nobody is.
    pub fn login(&self) -> Option<(&Path<A>, Rights)>
        // Witness: as of `answered`.
        ensures { option_map (λ login. (login.0.now, login.1)) result ≡ login_of_session (view_of T.table J.view self.now).session }
    {
        if !is_in(&self.session.access) {
            return None;
        }
        Some((&self.session.root, self.session.rights))
    }

    /// The code whose three digits stand at a place of the octets that are owed; none where no three digits stand there.
    pub fn code_at(&self, place: usize) -> Option<u16>
        // Witness: as of `answered`.
        ensures { result ≡ code_in (drop place (view_of T.table J.view self.now).owed) }
    {
        self.output.code_at(place)
    }

    /// Whether a transfer is under way, its data connection open or still to come.
    pub fn is_transferring(&self) -> bool
        // Witness: as of `answered`.
        ensures { result ≡ is_transferring (view_of T.table J.view self.now).session.connection }
    {
        is_transferring(&self.session.connection)
    }

    /// Whether neither QUIT nor the end of the control connection came.
    pub fn is_running(&self) -> bool
        ensures { result ≡ is_running (view_of T.table J.view self.now).session.life }
    {
        matches!(self.session.life, Life::Running)
    }

    /// Whether it is done with the control connection.
    fn is_done(&self) -> bool
        ensures { let v = view_of T.table J.view self.now in result ≡ is_done v.session.life v.owed }
    {
        match self.session.life {
            Life::Running => false,
            Life::Quit => self.output.len() == 0,
            Life::Cut => true,
        }
    }

    /// What the state of the data connection asks for.
    fn wants_of_link(&self) -> Wants
        ensures { result ≡ wants_of (view_of T.table J.view self.now).session.connection }
    {
        match &self.session.connection {
            ServerLink::Free | ServerLink::Active(_) | ServerLink::Ready => Wants::Nothing,
            ServerLink::Asked(_) => Wants::Listen,
            ServerLink::Passive => Wants::Accept,
            ServerLink::Opening(_, Way::Connect(endpoint)) => Wants::Connect(*endpoint),
            ServerLink::Opening(_, Way::Accept) => Wants::Accept,
            ServerLink::Transferring(transfer) => {
                if transfer.takes_octets() {
                    Wants::Receive
                } else {
                    Wants::Send
                }
            }
        }
    }
}
