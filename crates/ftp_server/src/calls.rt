// The calls of a server: a step, and then the line that waits (RFC 959, sections 3.2 and 4.1).
ghost use Rattle.std.specs.Prelude.{◌≡◌, ◌<◌, ◌≤◌, length, min, take, None, OnErr, OnOk};
ghost use Rattle.ftp_server_model.specs.Counting.{MovesOn, TellsSome};
ghost use Rattle.ftp_server_model.specs.Calls.{clock_step, close_step, control_end, control_step, listening_step, no_port_step, opened_step, refused_step};
ghost use Rattle.ftp_server_model.specs.Far.{Acts, AreTold};
ghost use Rattle.ftp_server_model.specs.Heard.{Tells};
ghost use Rattle.ftp_server.specs.Settled.{HasMoved, IsStepSettled};

use crate::line::Failed;
use crate::server::Server;
use ftp_endpoint::Host;
use ftp_facts::Moment;
use ftp_server_model::Counts;
use ftp_server_session::ServerTransfer;
use ftp_tree::Tree;
use std::alloc::Allocator;

impl<A: Allocator + Copy, T: Tree<A>, J: ServerTransfer<A, T>> Server<A, T, J> {
    ghost use Rattle.ftp_server.specs.Server.{counts_of, server_of, view_of};

    /// What has failed so far.
    pub fn counts(&self) -> Counts
        // Witness: an equation.
        ensures { AreTold result (counts_of T.failures self.now) }
    {
        Counts {
            refusals: self.refusals,
            failures: self.session.tree.device_failures(),
        }
    }

    /// Counts a refused growth where a call failed and the device's count did not move since it stood at `failures`.
    pub(crate) fn count(&mut self, outcome: Result<(), Failed>, failures: u64)
        ensures view { view_of T.table J.view self.new ≡ view_of T.table J.view self.old }
        ensures done { OnOk outcome (counts_of T.failures self.new ≡ counts_of T.failures self.old) }
        ensures failed { OnErr outcome (HasMoved failures (counts_of T.failures self.old) (counts_of T.failures self.new)) }
        ensures few { MovesOn 1 self.old.refusals self.new.refusals }
        ensures device { T.failures self.new.session.tree ≡ T.failures self.old.session.tree }
        ensures told { self.new.heard ≡ self.old.heard }
    {
        if outcome.is_err() && self.session.tree.device_failures() == failures {
            self.refusals = self.refusals.wrapping_add(1);
        }
    }

    /// The end of each call: the line that waits is acted on, if it may be.
    pub(crate) fn settle(&mut self)
        ensures acts { Acts (λ v. v) (server_of T.table T.failures J.view self.old) (server_of T.table T.failures J.view self.new) }
        ensures told { Tells (λ v. v) self.new.heard (server_of T.table T.failures J.view self.old) (server_of T.table T.failures J.view self.new) }
        ensures alone { self.old.waiting ≡ None → server_of T.table T.failures J.view self.new ≡ server_of T.table T.failures J.view self.old }
    {
        if self.waiting.is_none() {
            self.heard = None;
            return;
        }
        let failures = self.session.tree.device_failures();
        self.settle_behind(Ok(()), failures);
    }

    /// The end of a call whose step may have failed; it began where the device's count stood at `failures`.
    pub(crate) fn settle_behind(&mut self, step: Result<(), Failed>, failures: u64)
        ensures settled { IsStepSettled step failures (server_of T.table T.failures J.view self.old) (server_of T.table T.failures J.view self.new) }
        ensures told { OnOk step (failures ≡ (T.failures self.old.session.tree).told → Tells (λ v. v) self.new.heard (server_of T.table T.failures J.view self.old) (server_of T.table T.failures J.view self.new)) }
        ensures refusals { MovesOn 1 self.old.refusals self.new.refusals }
        ensures few { TellsSome 1 (T.failures self.old.session.tree) (T.failures self.new.session.tree) }
    {
        let settled = self.later();
        if step.is_err() {
            self.count(step, failures);
        } else {
            self.count(settled, failures);
        }
    }

    /// The moment in force from now on.
    #[tactic(auto, using(crate::proofs::CallLemmas::acts, crate::proofs::ToldLemmas::tells))]
    pub fn clock(&mut self, moment: Moment)
        // Witness of acts: an equation where no count changed; else what the definitions say that a failure leaves.
        ensures acts { Acts (clock_step moment.seconds) (server_of T.table T.failures J.view self.old) (server_of T.table T.failures J.view self.new) }
        // Witness of told: an equation where no count changed; `edits/a_line_that_waits_is_told_when_it_is_heard`,
        // `edits/the_code_of_the_line_before_is_told`, `edits/the_text_of_pass_is_told` of `ftp_server_replies`.
        ensures told { Tells (clock_step moment.seconds) self.new.heard (server_of T.table T.failures J.view self.old) (server_of T.table T.failures J.view self.new) }

        // Where no line waits that is all, and the tree's device is not asked.
        // Witness of alone: an equation, where no line waits; `alone` of `Far`.
        ensures alone { let old = server_of T.table T.failures J.view self.old in old.view.waiting ≡ None → server_of T.table T.failures J.view self.new ≡ record old { view = clock_step moment.seconds old.view } }
    {
        self.context.moment = moment;
        self.settle();
    }

    /// Gives octets of the control connection, and says how many.
    pub fn control_out(&mut self, room: &mut [u8]) -> usize
        // Witness of within, gave, now, some: bounds of the count, and equations.
        ensures within { (result ≤ length room.old) × (result ≤ length (view_of T.table J.view self.old).owed) }
        ensures gave { take result room.new ≡ take result (view_of T.table J.view self.old).owed }
        ensures now { Acts (control_step result) (server_of T.table T.failures J.view self.old) (server_of T.table T.failures J.view self.new) }
        // Witness of told: as of `clock`.
        ensures told { Tells (control_step result) self.new.heard (server_of T.table T.failures J.view self.old) (server_of T.table T.failures J.view self.new) }
        ensures some { 0 < length room.old → 0 < length (view_of T.table J.view self.old).owed → 0 < result }

        // It gives all that is owed, or fills the room.
        ensures most { result ≡ min (length room.old) (length (view_of T.table J.view self.old).owed) }
    {
        let count = self.output.give(room);
        self.settle();
        count
    }

    /// A port is listened at.
    pub fn listening(&mut self, port: u16)
        // Witness of acts: as of `clock`.
        ensures acts { Acts (listening_step port) (server_of T.table T.failures J.view self.old) (server_of T.table T.failures J.view self.new) }
        // Witness of told: as of `clock`.
        ensures told { Tells (listening_step port) self.new.heard (server_of T.table T.failures J.view self.old) (server_of T.table T.failures J.view self.new) }
    {
        self.listen(port);
        self.settle();
    }

    /// No port was had.
    pub fn listen_refused(&mut self)
        // Witness of acts: as of `clock`.
        ensures acts { Acts no_port_step (server_of T.table T.failures J.view self.old) (server_of T.table T.failures J.view self.new) }
        // Witness of told: as of `clock`.
        ensures told { Tells no_port_step self.new.heard (server_of T.table T.failures J.view self.old) (server_of T.table T.failures J.view self.new) }
    {
        self.give_up_port();
        self.settle();
    }

    /// The data connection is open; this host is at its other end.
    pub fn data_opened(&mut self, host: Host)
        // Witness of acts: as of `clock`.
        ensures acts { Acts (opened_step host) (server_of T.table T.failures J.view self.old) (server_of T.table T.failures J.view self.new) }
        // Witness of told: as of `clock`.
        ensures told { Tells (opened_step host) self.new.heard (server_of T.table T.failures J.view self.old) (server_of T.table T.failures J.view self.new) }
    {
        self.open(host);
        self.settle();
    }

    /// The data connection was not had.
    pub fn data_refused(&mut self)
        // Witness of acts: as of `clock`.
        ensures acts { Acts refused_step (server_of T.table T.failures J.view self.old) (server_of T.table T.failures J.view self.new) }
        // Witness of told: as of `clock`.
        ensures told { Tells refused_step self.new.heard (server_of T.table T.failures J.view self.old) (server_of T.table T.failures J.view self.new) }
    {
        self.give_up_opening();
        self.settle();
    }

    /// A close that it wanted is done.
    pub fn data_closed(&mut self)
        // Witness of acts: as of `clock`.
        ensures acts { Acts close_step (server_of T.table T.failures J.view self.old) (server_of T.table T.failures J.view self.new) }
        // Witness of told: as of `clock`.
        ensures told { Tells close_step self.new.heard (server_of T.table T.failures J.view self.old) (server_of T.table T.failures J.view self.new) }
    {
        self.close();
        self.settle();
    }

    /// The control connection ended.
    pub fn control_end(&mut self)
        // Witness of acts: as of `clock`.
        ensures acts { server_of T.table T.failures J.view self.new ≡ record (server_of T.table T.failures J.view self.old) { view = control_end (view_of T.table J.view self.old) } }
        // Witness of told: as of `clock`.
        ensures told { self.new.heard ≡ None }
    {
        self.cut();
    }
}
