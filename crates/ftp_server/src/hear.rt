// The octets of the control connection (RFC 854; RFC 959, sections 4.1.3 and 5.4).
ghost use Rattle.std.specs.Prelude.{◌≡◌, ◌≤◌, ◌<◌, IsTrue, None, OnErr, OnOk, Some, length, take, true, ◌-◌};
ghost use Rattle.ftp_command.specs.Line.{line_limit};
ghost use Rattle.ftp_nvt.specs.Ear.{lent_line};
ghost use Rattle.ftp_server_model.specs.Counting.{TellsSome};
ghost use Rattle.ftp_server_model.specs.Far.{Hears};
ghost use Rattle.ftp_server_model.specs.Failing.{ActingFails, AreHeard, LineIsHeard, OctetIsHeard};
ghost use Rattle.ftp_server_model.specs.Heard.{TellsHeard, heard_by_line, heard_by_octet};
ghost use Rattle.ftp_server_model.specs.Machine.{IsReading, MayHear, Reading, hears, hears_octet, heard_line, is_abor, is_abort, is_transferring, may_hear};
ghost use Rattle.ftp_server_model.specs.Most.{IsMostHeard};
ghost use Rattle.ftp_server.specs.Busy.{MayWait};
ghost use Rattle.ftp_server.specs.HearsTo.{AreHeardTo, HearsTo, TellsTo};
ghost use Rattle.ftp_server_session.specs.Session.{has_transfer};
ghost use Rattle.ftp_tree.specs.Change.{IsSteady};

use crate::line::{Failed, Moved};
use crate::reading::read_line;
use crate::server::Server;
use ftp_command::{Argument, Command, CommandFault};
use ftp_nvt::Event;
use ftp_server_model::{FREE_ROOM, HeardLine, Life, OUTPUT_ROOM, ServerLink};
use ftp_server_replies::ActedLine;
use ftp_server_session::ServerTransfer;
use ftp_tree::Tree;
use std::alloc::Allocator;

impl<A: Allocator + Copy, T: Tree<A>, J: ServerTransfer<A, T>> Server<A, T, J> {
    ghost use Rattle.ftp_server.specs.Server.{OnCourse, counts_of, server_of, view_of};

    /// Takes octets of the control connection, and says how many.
    pub fn hear(&mut self, piece: &[u8]) -> usize
        // Witness of within, some: bounds of the count; `edits/a_server_hears_nothing`.
        ensures within { result ≤ length piece.now }
        // Witness of took: an equation for the octets taken where no count changed; else each octet is heard, or fails as the definitions say.
        ensures took { Hears (take result piece.now) (server_of T.table T.failures J.view self.old) (server_of T.table T.failures J.view self.new) }
        // Witness of told: as of `clock`.
        ensures told { TellsHeard (take result piece.now) self.new.heard (server_of T.table T.failures J.view self.old) (server_of T.table T.failures J.view self.new) }
        ensures some { IsTrue (may_hear (view_of T.table J.view self.old)) → 0 < length piece.now → 0 < result }

        // Where nothing failed it takes all of them, or as many as it may.
        // Witness of most: `edits/a_server_hears_one_octet_of_a_piece`.
        ensures most { counts_of T.failures self.new ≡ counts_of T.failures self.old → IsMostHeard result piece.now (view_of T.table J.view self.new) }
    {
        let failures = self.session.tree.device_failures();
        let taken = self.hear_octets(piece);
        self.count(taken.outcome, failures);
        taken.count
    }

    /// Whether a control octet may be taken.
    pub fn may_hear(&self) -> bool
        ensures { result ≡ may_hear (view_of T.table J.view self.now) }
    {
        matches!(self.session.life, Life::Running)
            && self.waiting.is_none()
            && self.output.has_room()
    }

    /// Whether a line is an ABOR that comes during a transfer.
    fn is_abort(&self, heard: &HeardLine<Argument<A>>) -> bool
        ensures is { result ≡ is_abort heard.now (view_of T.table J.view self.now) }
        ensures busy { result ≡ true → is_transferring (view_of T.table J.view self.now).session.connection ≡ true }
    {
        is_abor(heard) && is_transferring(&self.session.connection)
    }

    /// A whole line: ABOR is taken at once during a transfer, any other line waits until it may be acted on.
    fn hear_line(&mut self, heard: HeardLine<Argument<A>>) -> Result<(), Failed>
        requires room { length self.old.output ≤ OUTPUT_ROOM - FREE_ROOM }
        requires none { self.old.waiting ≡ None }
        requires waits { MayWait (Some heard) }
        ensures done { OnOk result (OnCourse T.failures self.old self.new → view_of T.table J.view self.new ≡ heard_line heard (view_of T.table J.view self.old)) }
        ensures told { OnOk result (OnCourse T.failures self.old self.new → self.new.heard ≡ heard_by_line heard (view_of T.table J.view self.old)) }
        ensures steady { OnOk result (IsSteady (T.failures self.old.session.tree) (T.failures self.new.session.tree)) }
        ensures lost { OnErr result (OnCourse T.failures self.old self.new → ActingFails (is_abort heard (view_of T.table J.view self.old)) heard (view_of T.table J.view self.old) (view_of T.table J.view self.new)) }
        ensures refusals { self.new.refusals ≡ self.old.refusals }
        ensures few { TellsSome 1 (T.failures self.old.session.tree) (T.failures self.new.session.tree) }
    {
        if self.is_abort(&heard) {
            let aborted = self.abort();
            self.heard = Some(ActedLine::abort());
            return aborted;
        }
        self.waiting = Some(heard);
        self.later()
    }

    /// The line that the last octet ended.
    fn hear_text(&mut self) -> Result<(), Failed>
        requires room { length self.old.output ≤ OUTPUT_ROOM - FREE_ROOM }
        requires none { self.old.waiting ≡ None }
        requires short { length (lent_line self.old.reader.ear) ≤ line_limit }
        ensures done { OnOk result (OnCourse T.failures self.old self.new → (read : Reading) → IsReading read → view_of T.table J.view self.new ≡ heard_line (read (lent_line self.old.reader.ear)) (view_of T.table J.view self.old)) }
        ensures told { OnOk result (OnCourse T.failures self.old self.new → (read : Reading) → IsReading read → self.new.heard ≡ heard_by_line (read (lent_line self.old.reader.ear)) (view_of T.table J.view self.old)) }
        ensures steady { OnOk result (IsSteady (T.failures self.old.session.tree) (T.failures self.new.session.tree)) }
        ensures lost { OnErr result (OnCourse T.failures self.old self.new → (read : Reading) → IsReading read → LineIsHeard (read (lent_line self.old.reader.ear)) (view_of T.table J.view self.old) (view_of T.table J.view self.new)) }
        ensures refusals { self.new.refusals ≡ self.old.refusals }
        ensures few { TellsSome 1 (T.failures self.old.session.tree) (T.failures self.new.session.tree) }
    {
        match read_line(self.session.alloc, self.reader.line()) {
            Some(heard) => self.hear_line(heard),
            None => {
                let _heard = self.hear_line(HeardLine::Bad(CommandFault::Memory));
                Err(Failed)
            }
        }
    }

    /// Takes octets as long as it may, and says how many; the last of them may have failed.
    pub(crate) fn hear_octets(&mut self, piece: &[u8]) -> Moved
        ensures within { result.count ≤ length piece.now }
        ensures done { OnOk result.outcome (OnCourse T.failures self.old self.new → HearsTo (take result.count piece.now) (view_of T.table J.view self.old) (view_of T.table J.view self.new)) }
        ensures told { OnOk result.outcome (OnCourse T.failures self.old self.new → TellsTo (take result.count piece.now) (view_of T.table J.view self.old) self.new.heard) }
        ensures steady { OnOk result.outcome (IsSteady (T.failures self.old.session.tree) (T.failures self.new.session.tree)) }
        ensures lost { OnErr result.outcome (OnCourse T.failures self.old self.new → AreHeardTo (take result.count piece.now) (view_of T.table J.view self.old) (view_of T.table J.view self.new)) }
        ensures refusals { self.new.refusals ≡ self.old.refusals }
        ensures some { may_hear (view_of T.table J.view self.old) ≡ true → 0 < length piece.now → 0 < result.count }
        ensures most { OnOk result.outcome (OnCourse T.failures self.old self.new → IsMostHeard result.count piece.now (view_of T.table J.view self.new)) }
        ensures few { TellsSome 1 (T.failures self.old.session.tree) (T.failures self.new.session.tree) }
    {
        self.heard = None;
        let mut count = 0;
        for octet in piece {
            if !self.may_hear() {
                break;
            }
            count += 1;
            let outcome = self.hear_octet(*octet);
            if outcome.is_err() {
                return Moved { count, outcome };
            }
        }
        Moved {
            count,
            outcome: Ok(()),
        }
    }

    /// Takes one octet.
    #[tactic(auto, unfolding(ftp_server_model::specs::Machine::hears_octet, ftp_server_model::specs::Heard::heard_by_octet))]
    fn hear_octet(&mut self, octet: u8) -> Result<(), Failed>
        requires room { length self.old.output ≤ OUTPUT_ROOM - FREE_ROOM }
        requires none { self.old.waiting ≡ None }
        ensures done { OnOk result (OnCourse T.failures self.old self.new → (read : Reading) → IsReading read → view_of T.table J.view self.new ≡ hears_octet read (view_of T.table J.view self.old) octet) }
        ensures told { OnOk result (OnCourse T.failures self.old self.new → (read : Reading) → IsReading read → self.new.heard ≡ heard_by_octet read (view_of T.table J.view self.old) octet) }
        ensures steady { OnOk result (IsSteady (T.failures self.old.session.tree) (T.failures self.new.session.tree)) }
        ensures lost { OnErr result (OnCourse T.failures self.old self.new → (read : Reading) → IsReading read → OctetIsHeard read (view_of T.table J.view self.old) octet (view_of T.table J.view self.new)) }
        ensures refusals { self.new.refusals ≡ self.old.refusals }
        ensures few { TellsSome 1 (T.failures self.old.session.tree) (T.failures self.new.session.tree) }
    {
        self.heard = None;
        match self.reader.hear(octet) {
            Event::More => Ok(()),
            Event::Line => self.hear_text(),
            Event::TooLong => self.hear_line(HeardLine::TooLong),
            Event::Owed(answer) => {
                self.output.put(&answer);
                Ok(())
            }
        }
    }
}

/// Whether a line is an ABOR.
fn is_abor<A: Allocator + Copy>(heard: &HeardLine<Argument<A>>) -> bool
    ensures { result ≡ is_abor heard.now }
{
    matches!(heard, HeardLine::Asks(Command::Abor))
}

/// Whether a transfer is under way, its data connection open or still to come.
pub(crate) fn is_transferring<J>(connection: &ServerLink<J>) -> bool
    // Witness: as of `answered`.
    ensures { result ≡ has_transfer connection.now }
{
    matches!(
        connection,
        ServerLink::Opening(_, _) | ServerLink::Transferring(_)
    )
}
