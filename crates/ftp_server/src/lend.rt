// A tree is lent to a server for some of its calls.
ghost use Rattle.std.specs.Prelude.{◌≡◌};
ghost use Rattle.ftp_server_model.specs.Calls.{with_connection};
ghost use Rattle.ftp_server_model.specs.Standing.{overtaken_in, standing_of};
ghost use Rattle.ftp_server_session.specs.Little.{is_busy};
ghost use Rattle.ftp_server_session.specs.Session.{connection_seen};

use crate::server::Server;
use ftp_server_model::{ServerLink, Standing};
use ftp_server_replies::still_stands;
use ftp_server_session::ServerTransfer;
use ftp_tree::Tree;
use laws_server::Lends;
use std::alloc::Allocator;
use std::mem;

impl<A: Allocator + Copy, T: Tree<A>, J: ServerTransfer<A, T>> Lends<A, T> for Server<A, T, J> {
    // Witness of taken, left, failures, told: equations; `edits/a_tree_brings_all_rights`, `edits/an_exchange_is_counted_as_a_failure`,
    // `edits/an_exchange_forgets_the_line_before`, `edits/an_upload_is_not_overtaken_by_others`,
    // `edits/each_upload_that_is_lent_a_tree_is_overtaken`.
    fn lend(&mut self, tree: &mut T, stood: Option<Standing>) {
        mem::swap(&mut self.session.tree, tree);
        if !still_stands(stood, self.stands()) {
            self.overtake();
        }
    }

    // Witness of taken, left, failures, told: as of `lend`.
    fn give_back(&mut self, tree: &mut T) -> Option<Standing> {
        let stands = self.stands();
        mem::swap(&mut self.session.tree, tree);
        stands
    }
}

impl<A: Allocator + Copy, T: Tree<A>, J: ServerTransfer<A, T>> Server<A, T, J> {
    ghost use Rattle.ftp_server.specs.Server.{counts_of, view_of};

    /// What stands at the path of an upload that is under way.
    fn stands(&self) -> Option<Standing>
        ensures { result ≡ standing_of (view_of T.table J.view self.now).session }
    {
        match &self.session.connection {
            ServerLink::Opening(transfer, _) => {
                transfer.stands(&self.session.tree, &self.session.root)
            }
            ServerLink::Transferring(transfer) => {
                transfer.stands(&self.session.tree, &self.session.root)
            }
            _ => None,
        }
    }

    /// Others changed what stands at the path of an upload that is under way.
    fn overtake(&mut self)
        ensures view { let v = view_of T.table J.view self.old in view_of T.table J.view self.new ≡ with_connection (overtaken_in v.session.connection) v }
        ensures steady { counts_of T.failures self.new ≡ counts_of T.failures self.old }
        ensures heard { self.new.heard ≡ self.old.heard }
    {
        let link = mem::replace(&mut self.session.connection, ServerLink::Free);
        self.session.connection = overtaken(link);
    }
}

/// A data connection whose transfer is overtaken, if it is an upload.
fn overtaken<A: Allocator + Copy, T: Tree<A>, J: ServerTransfer<A, T>>(
    link: ServerLink<J>,
) -> ServerLink<J>
    ensures connection { connection_seen J.view result ≡ overtaken_in (connection_seen J.view link) }
    ensures busy { is_busy result ≡ is_busy link }
{
    match link {
        ServerLink::Opening(transfer, way) => {
            let mut transfer = transfer;
            transfer.overtake();
            ServerLink::Opening(transfer, way)
        }
        ServerLink::Transferring(transfer) => {
            let mut transfer = transfer;
            transfer.overtake();
            ServerLink::Transferring(transfer)
        }
        other => other,
    }
}
