// The data connection opens (RFC 959, section 3.2).
ghost use Rattle.std.specs.Prelude.{◌≡◌, true};
ghost use Rattle.ftp_server_model.specs.Calls.{opens};

use crate::server::Server;
use ftp_server_model::{FixedReply, ServerLink, Way};
use ftp_server_session::ServerTransfer;
use ftp_tree::Tree;
use std::alloc::Allocator;
use std::mem;

impl<A: Allocator + Copy, T: Tree<A>, J: ServerTransfer<A, T>> Server<A, T, J> {
    ghost use Rattle.ftp_server.specs.Server.{counts_of, view_of};

    /// It is open to the peer of the control connection, or to another host.
    pub(crate) fn connect(&mut self, is_peer: bool)
        ensures step { view_of T.table J.view self.new ≡ opens (view_of T.table J.view self.old).session.connection is_peer (view_of T.table J.view self.old) }
        ensures steady { counts_of T.failures self.new ≡ counts_of T.failures self.old }
    {
        if is_peer {
            return self.link();
        }
        match &self.session.connection {
            ServerLink::Opening(_, Way::Connect(_)) => self.link(),
            ServerLink::Opening(_, Way::Accept) => {
                self.session.forget();
                self.output.put_fixed(FixedReply::NoConnection);
            }
            ServerLink::Passive => self.session.forget(),
            _ => {}
        }
    }

    /// It is open to the host that it is to be open to.
    fn link(&mut self)
        ensures step { view_of T.table J.view self.new ≡ opens (view_of T.table J.view self.old).session.connection true (view_of T.table J.view self.old) }
        ensures steady { counts_of T.failures self.new ≡ counts_of T.failures self.old }
    {
        let connection = mem::replace(&mut self.session.connection, ServerLink::Free);
        self.session.connection = match connection {
            ServerLink::Passive => ServerLink::Ready,
            ServerLink::Opening(transfer, _) => ServerLink::Transferring(transfer),
            other => other,
        };
    }
}
