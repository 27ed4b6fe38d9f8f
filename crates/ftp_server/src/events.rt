// What the events of a server do before the line that waits is acted on: its steps (RFC 959, sections 3.2 and 4.1).
ghost use Rattle.std.specs.Prelude.{◌≡◌, None};
ghost use Rattle.ftp_server_model.specs.Calls.{close_step, control_end, listening_step, no_port_step, opened_step, refused_step};

use crate::server::Server;
use ftp_endpoint::{Endpoint, Host};
use ftp_server_model::{FixedReply, Life, PassiveVerb, Pending, ServerLink};
use ftp_server_session::{ServerTransfer, is_same_host};
use ftp_tree::Tree;
use std::alloc::Allocator;

impl<A: Allocator + Copy, T: Tree<A>, J: ServerTransfer<A, T>> Server<A, T, J> {
    ghost use Rattle.ftp_server.specs.Server.{counts_of, view_of};

    /// This port is listened at.
    pub(crate) fn listen(&mut self, port: u16)
        ensures step { view_of T.table J.view self.new ≡ listening_step port (view_of T.table J.view self.old) }
        ensures steady { counts_of T.failures self.new ≡ counts_of T.failures self.old }
    {
        if self.session.closing {
            return;
        }
        let ServerLink::Asked(asked) = &self.session.connection else {
            return;
        };
        let asked = *asked;
        self.session.connection = ServerLink::Passive;
        match asked {
            PassiveVerb::Pasv => {
                let host = self.context.here;
                self.output.put_passive(Endpoint { host, port });
            }
            PassiveVerb::Epsv => self.output.put_extended(port),
        }
    }

    /// No port was had.
    pub(crate) fn give_up_port(&mut self)
        ensures step { view_of T.table J.view self.new ≡ no_port_step (view_of T.table J.view self.old) }
        ensures steady { counts_of T.failures self.new ≡ counts_of T.failures self.old }
    {
        if self.session.closing {
            return;
        }
        if let ServerLink::Asked(_) = &self.session.connection {
            self.session.connection = ServerLink::Free;
            self.output.put_fixed(FixedReply::NoConnection);
        }
    }

    /// The data connection is open, and this host is at its other end.
    pub(crate) fn open(&mut self, host: Host)
        ensures step { view_of T.table J.view self.new ≡ opened_step host (view_of T.table J.view self.old) }
        ensures steady { counts_of T.failures self.new ≡ counts_of T.failures self.old }
    {
        let is_peer = is_same_host(host, self.context.peer);
        if !self.session.closing {
            self.connect(is_peer);
        }
        self.complete();
    }

    /// The data connection was not had.
    pub(crate) fn give_up_opening(&mut self)
        ensures step { view_of T.table J.view self.new ≡ refused_step (view_of T.table J.view self.old) }
        ensures steady { counts_of T.failures self.new ≡ counts_of T.failures self.old }
    {
        if self.session.closing {
            return;
        }
        match &self.session.connection {
            ServerLink::Passive => self.session.forget(),
            ServerLink::Opening(_, _) => {
                self.session.forget();
                self.output.put_fixed(FixedReply::NoConnection);
            }
            _ => {}
        }
    }

    /// A close that was wanted is done.
    pub(crate) fn close(&mut self)
        ensures step { view_of T.table J.view self.new ≡ close_step (view_of T.table J.view self.old) }
        ensures steady { counts_of T.failures self.new ≡ counts_of T.failures self.old }
    {
        self.session.closing = false;
    }

    /// The control connection ended.
    #[tactic(auto, unfolding(ftp_server_model::specs::Calls::control_end))]
    pub(crate) fn cut(&mut self)
        ensures step { view_of T.table J.view self.new ≡ control_end (view_of T.table J.view self.old) }
        ensures told { self.new.heard ≡ None }
        ensures steady { counts_of T.failures self.new ≡ counts_of T.failures self.old }
    {
        self.session.forget();
        self.session.pending = Pending::Nothing;
        self.session.life = Life::Cut;
        self.waiting = None;
        self.output.clear();
        self.heard = None;
    }
}
