// Which octets go over the data connection, and those that are given to it (RFC 959, section 3).
ghost use Rattle.std.specs.Prelude.{◌≡◌, ◌≤◌, false, length, min, take, true};
ghost use Rattle.ftp_server_model.specs.Calls.{connection_of as connection_in, given_by, is_upload};
ghost use Rattle.ftp_server_model.specs.Counting.{TellsSome};
ghost use Rattle.ftp_ends.specs.Octets.{has_octets};
ghost use Rattle.ftp_server_model.specs.View.{View};
ghost use Rattle.ftp_tree.specs.Change.{IsSteady, NoStray};
ghost use Rattle.ftp_server_session.specs.Giving.{Gives, GivesOut};

use crate::session::Session;
use ftp_server_model::ServerLink;
use ftp_server_replies::{Given, ServerTransfer};
use ftp_tree::Tree;
use std::alloc::Allocator;

impl<A: Allocator + Copy, T: Tree<A>, J: ServerTransfer<A, T>> Session<A, T, J> {
    ghost use Rattle.ftp_server_session.specs.Session.{has_transfer, session_of};

    /// Whether an upload is under way.
    pub fn is_upload(&self) -> bool
        ensures { result ≡ is_upload (connection_in (session_of T.table J.view self.now)) }
    {
        if self.closing {
            return false;
        }
        match &self.connection {
            ServerLink::Transferring(transfer) => transfer.takes_octets(),
            _ => false,
        }
    }

    /// Whether octets of a download or a listing are still to be given.
    #[tactic(auto, using(crate::proofs::GivenLemmas::some_left))]
    pub fn has_data(&self) -> bool
        ensures { result ≡ has_octets (given_by (connection_in (session_of T.table J.view self.now))) }
    {
        if self.closing {
            return false;
        }
        match &self.connection {
            ServerLink::Transferring(transfer) => {
                !transfer.takes_octets() && !transfer.is_given_out()
            }
            _ => false,
        }
    }

    /// Gives octets to the data connection. Where the tree's device strays, nothing is said of what is given but that there was room for it.
    pub fn give(&mut self, room: &mut [u8]) -> Given
        // Witness of within, gave, most, on, full: equations and bounds of the count.
        ensures within { result.count ≤ length room.old }
        ensures gave { NoStray (T.failures self.old.tree) (T.failures self.new.tree) → take result.count room.new ≡ take result.count (given_by (connection_in (session_of T.table J.view self.old))) }
        ensures most { NoStray (T.failures self.old.tree) (T.failures self.new.tree) → result.count ≤ length (given_by (connection_in (session_of T.table J.view self.old))) }
        ensures on { NoStray (T.failures self.old.tree) (T.failures self.new.tree) → (v : View) → v.session ≡ session_of T.table J.view self.old → Gives v result.count result.lost (session_of T.table J.view self.new) }
        ensures full { NoStray (T.failures self.old.tree) (T.failures self.new.tree) → result.lost ≡ false → result.count ≡ min (length room.old) (length (given_by (connection_in (session_of T.table J.view self.old)))) }
        ensures table { T.table self.new.tree ≡ T.table self.old.tree }
        ensures steady { result.lost ≡ false → IsSteady (T.failures self.old.tree) (T.failures self.new.tree) }
        // Witness of few: by how much a count moves at most.
        ensures few { TellsSome 1 (T.failures self.old.tree) (T.failures self.new.tree) }
        // Witness of free, busy: follow from `on`.
        ensures free { result.lost ≡ true → self.new.connection ≡ ServerLink.Free }
        ensures busy { has_transfer self.new.connection ≡ true → has_transfer self.old.connection ≡ true }
        ensures access { self.new.access ≡ self.old.access }
    {
        if self.closing {
            return Given {
                count: 0,
                lost: false,
            };
        }
        let given = match &mut self.connection {
            ServerLink::Transferring(transfer) => transfer.give(&mut self.tree, room),
            _ => Given {
                count: 0,
                lost: false,
            },
        };
        if given.lost {
            self.forget();
        }
        given
    }

    /// A download or a listing of which all is given is over: whether the 226 is to be said.
    pub fn give_out(&mut self) -> bool
        ensures on { (v : View) → v.session ≡ session_of T.table J.view self.old → GivesOut v result (session_of T.table J.view self.new) }
        ensures tree { self.new.tree ≡ self.old.tree }
        ensures free { result ≡ true → self.new.connection ≡ ServerLink.Free }
        ensures same { result ≡ false → self.new.connection ≡ self.old.connection }
        ensures access { self.new.access ≡ self.old.access }
    {
        let ServerLink::Transferring(transfer) = &self.connection else {
            return false;
        };
        if !transfer.is_given_out() {
            return false;
        }
        self.forget();
        true
    }
}
