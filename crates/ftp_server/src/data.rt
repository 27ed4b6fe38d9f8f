// The octets of the data connection (RFC 959, section 3).
ghost use Rattle.std.specs.Prelude.{◌≡◌, ◌≤◌, ◌<◌, None, OnErr, OnOk, length, min, take, true, ◌-◌};
ghost use Rattle.ftp_server_model.specs.Counting.{TellsSome};
ghost use Rattle.ftp_server_model.specs.Calls.{given_step, may_receive, to_give};
ghost use Rattle.ftp_server_model.specs.Failing.{AreReceived, GiveFails, Late};
ghost use Rattle.ftp_server_model.specs.Heard.{heard_received};
ghost use Rattle.ftp_server_model.specs.Machine.{faulted};
ghost use Rattle.ftp_server_model.specs.Most.{IsMostReceived};
ghost use Rattle.ftp_server_model.specs.View.{View};
ghost use Rattle.ftp_server.specs.Data.{IsSaid, ReceivesTo, SayingFails, TellsSaid};
ghost use Rattle.ftp_tree.specs.Change.{IsSteady};

use crate::line::{Failed, Moved};
use crate::server::Server;
use ftp_server_model::{FREE_ROOM, FixedReply, OUTPUT_ROOM, ServerLink};
use ftp_server_replies::Told;
use ftp_server_session::ServerTransfer;
use ftp_tree::Tree;
use std::alloc::Allocator;

impl<A: Allocator + Copy, T: Tree<A>, J: ServerTransfer<A, T>> Server<A, T, J> {
    ghost use Rattle.ftp_server.specs.Server.{OnCourse, counts_of, view_of};

    /// Takes octets as long as it may, and says how many; the last of them may have failed.
    pub(crate) fn receive_octets(&mut self, piece: &[u8]) -> Moved
        ensures within { result.count ≤ length piece.now }
        ensures done { OnOk result.outcome (OnCourse T.failures self.old self.new → ReceivesTo (take result.count piece.now) (view_of T.table J.view self.old) (view_of T.table J.view self.new)) }
        ensures told { OnOk result.outcome (OnCourse T.failures self.old self.new → self.new.heard ≡ heard_received None (view_of T.table J.view self.old) (take result.count piece.now)) }
        ensures steady { OnOk result.outcome (IsSteady (T.failures self.old.session.tree) (T.failures self.new.session.tree)) }
        ensures lost { OnErr result.outcome (OnCourse T.failures self.old self.new → AreReceived (view_of T.table J.view self.old) (take result.count piece.now) (view_of T.table J.view self.new)) }
        ensures refusals { self.new.refusals ≡ self.old.refusals }
        ensures some { may_receive (view_of T.table J.view self.old) ≡ true → 0 < length piece.now → 0 < result.count }
        ensures most { OnOk result.outcome (OnCourse T.failures self.old self.new → IsMostReceived result.count piece.now (view_of T.table J.view self.new)) }
        ensures few { TellsSome 1 (T.failures self.old.session.tree) (T.failures self.new.session.tree) }
    {
        self.heard = None;
        let mut count = 0;
        while count < piece.len() {
            if !self.may_receive() {
                break;
            }
            let (_, rest) = piece.split_at(count);
            let taken = self.receive(rest);
            count += taken.count;
            if taken.outcome.is_err() {
                return Moved {
                    count,
                    outcome: taken.outcome,
                };
            }
        }
        Moved {
            count,
            outcome: Ok(()),
        }
    }

    /// Takes octets of an upload, all or up to the first of which something is to be said, and says it.
    fn receive(&mut self, piece: &[u8]) -> Moved
        requires may { may_receive (view_of T.table J.view self.old) ≡ true }
        ensures within { result.count ≤ length piece.now }
        ensures done { OnOk result.outcome (OnCourse T.failures self.old self.new → ReceivesTo (take result.count piece.now) (view_of T.table J.view self.old) (view_of T.table J.view self.new)) }
        ensures told { OnOk result.outcome (OnCourse T.failures self.old self.new → self.new.heard ≡ heard_received self.old.heard (view_of T.table J.view self.old) (take result.count piece.now)) }
        ensures steady { OnOk result.outcome (IsSteady (T.failures self.old.session.tree) (T.failures self.new.session.tree)) }
        ensures lost { OnErr result.outcome (OnCourse T.failures self.old self.new → AreReceived (view_of T.table J.view self.old) (take result.count piece.now) (view_of T.table J.view self.new)) }
        ensures refusals { self.new.refusals ≡ self.old.refusals }
        ensures some { 0 < length piece.now → 0 < result.count }
        ensures few { TellsSome 1 (T.failures self.old.session.tree) (T.failures self.new.session.tree) }
    {
        let session = &mut self.session;
        let ServerLink::Transferring(transfer) = &mut session.connection else {
            return Moved {
                count: 0,
                outcome: Ok(()),
            };
        };
        let received = transfer.receive(&session.tree, &session.root, piece);
        let outcome = self.tell(received.told);
        Moved {
            count: received.count,
            outcome,
        }
    }

    /// Says what is to be said of octets that came: a marker is answered, and by a fault or for want of memory the transfer is over.
    fn tell(&mut self, told: Told) -> Result<(), Failed>
        requires room { length self.old.output ≤ OUTPUT_ROOM - FREE_ROOM }
        ensures done { OnOk result (OnCourse T.failures self.old self.new → IsSaid told (view_of T.table J.view self.old) (view_of T.table J.view self.new)) }
        ensures told { OnOk result (OnCourse T.failures self.old self.new → TellsSaid told (view_of T.table J.view self.old) self.old.heard self.new.heard) }
        ensures steady { OnOk result (IsSteady (T.failures self.old.session.tree) (T.failures self.new.session.tree)) }
        ensures lost { OnErr result (OnCourse T.failures self.old self.new → SayingFails told (view_of T.table J.view self.old) (view_of T.table J.view self.new)) }
        ensures refusals { self.new.refusals ≡ self.old.refusals }
        ensures few { TellsSome 1 (T.failures self.old.session.tree) (T.failures self.new.session.tree) }
    {
        match told {
            Told::Nothing => Ok(()),
            Told::Mark(marker) => {
                self.output.put_mark(&marker.text, marker.held);
                Ok(())
            }
            Told::Faulty => {
                self.drop_transfer();
                self.later_again()
            }
            Told::NoMemory => {
                self.drop_transfer();
                let _settled = self.later();
                Err(Failed)
            }
        }
    }

    /// A transfer is over by a fault of this end: it is answered 451, and what stands of its data connection is to be closed.
    fn drop_transfer(&mut self)
        requires room { length self.old.output ≤ OUTPUT_ROOM - FREE_ROOM }
        ensures view { view_of T.table J.view self.new ≡ faulted (view_of T.table J.view self.old) }
        ensures steady { counts_of T.failures self.new ≡ counts_of T.failures self.old }
        ensures heard { self.new.heard ≡ self.old.heard }
    {
        self.session.forget();
        self.output.put_fixed(FixedReply::LocalFault);
    }

    /// Gives octets; with the last the transfer is over. It may fail: what comes next was not had, for want of memory or as the device failed.
    pub(crate) fn give(&mut self, room: &mut [u8]) -> Moved
        ensures within { result.count ≤ length room.old }
        ensures left { OnCourse T.failures self.old self.new → result.count ≤ length (to_give (view_of T.table J.view self.old)) }
        ensures gave { OnCourse T.failures self.old self.new → take result.count room.new ≡ take result.count (to_give (view_of T.table J.view self.old)) }
        ensures done { OnOk result.outcome (OnCourse T.failures self.old self.new → view_of T.table J.view self.new ≡ given_step result.count (view_of T.table J.view self.old)) }
        ensures lost { OnErr result.outcome (OnCourse T.failures self.old self.new → (x : View) → Late (view_of T.table J.view self.new) x → GiveFails result.count (view_of T.table J.view self.old) x) }
        ensures full { OnOk result.outcome (OnCourse T.failures self.old self.new → result.count ≡ min (length room.old) (length (to_give (view_of T.table J.view self.old)))) }
        ensures steady { OnOk result.outcome (IsSteady (T.failures self.old.session.tree) (T.failures self.new.session.tree)) }
        ensures refusals { self.new.refusals ≡ self.old.refusals }
        ensures few { TellsSome 1 (T.failures self.old.session.tree) (T.failures self.new.session.tree) }
    {
        let ServerLink::Transferring(_) = &self.session.connection else {
            return Moved {
                count: 0,
                outcome: Ok(()),
            };
        };
        let given = self.session.give(room);
        if given.lost {
            self.output.put_fixed(FixedReply::LocalFault);
            return Moved {
                count: given.count,
                outcome: Err(Failed),
            };
        }
        self.complete();
        Moved {
            count: given.count,
            outcome: Ok(()),
        }
    }
}
