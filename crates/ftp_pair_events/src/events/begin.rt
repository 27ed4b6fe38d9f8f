// The next operation.
ghost use Rattle.std.specs.Prelude.{◌≡◌, ◌<◌, ℕ, List, Some, [], true, false, vec_len, vec_capacity, IfOk, OnErr, OnOk};
ghost use Rattle.ftp_client_model.specs.Calls.{is_busy, starts, uploads};
ghost use Rattle.ftp_client_model.specs.Tries.{over_breaks};
ghost use Rattle.ftp_server_model.specs.Calls.{clocked};
ghost use Rattle.ftp_operation.specs.declared.op.Op.{Op};
ghost use Rattle.laws_world.specs.Events.{Happens, Next, Upload, begins_at_moment, can_happen, lends_none};
ghost use Rattle.ftp_pair_events.specs.events.Calm.{Counted, tally_of};
ghost use Rattle.ftp_pair_events.specs.events.Shown.{shown, Calmly, HasRoom, Steps, is_unlinked};

use crate::events::counts::{both_stay, stays};
use crate::events::parts::Parts;
use crate::queues::{Link, Mark, keep};
use ftp_client_model::Near;
use ftp_facts::{Moment, Text};
use ftp_operation::{How, Op};
use ftp_server_model::SureFar;
use ftp_tree::Tree;
use std::alloc::{AllocError, Allocator};

impl<A: Allocator + Copy, T: Tree<A>, N: Near<A>, F: SureFar<A, T>> Parts<A, T, N, F> {
    /// The operation that is given is begun, where none is open and no link stands or is wanted. Room for its report and a mark is made first.
    pub(crate) fn step_next(
        &mut self,
        alloc: A,
        given: &mut Option<Op<Text<A>>>,
        moment: Moment,
    ) -> Result<bool, AllocError>
        ghost op: { Op (List ℕ) }
        requires given { given.old ≡ Some op }
        requires report { HasRoom N.client self.old }
        ensures ok { IfOk result (λ possible. Steps self.old.calm self.new.calm (λ read. Happens read (Next op moment.seconds) (shown N.client F.server self.old) possible (shown N.client F.server self.new))) }
        ensures possible { IfOk result (λ possible. possible ≡ can_happen (Next op moment.seconds) (shown N.client F.server self.old)) }
        ensures idle { IfOk result (λ possible. possible ≡ false → (shown N.client F.server self.new ≡ shown N.client F.server self.old) × (self.new.calm ≡ self.old.calm)) }
        ensures err { OnErr result ((shown N.client F.server self.new ≡ shown N.client F.server self.old) × (self.new.calm ≡ self.old.calm)) }
        ensures report { HasRoom N.client self.new }
        ensures unmoved { OnErr result (tally_of N.client F.server self.new ≡ tally_of N.client F.server self.old) }
        ensures counted { Counted 24 N.client F.server self.old self.new }
    {
        if !self.is_unlinked() {
            return Ok(false);
        }
        let marks = self.make_room(alloc, 1)?;
        if !self.start(given) {
            return Ok(false);
        }
        self.note(moment, marks);
        self.finish();
        Ok(true)
    }

    /// An upload over breaks of the path and the octets that are given is begun, where no operation is open and no link stands or is wanted. Room for its report and 16 marks is made first.
    pub(crate) fn step_upload(
        &mut self,
        alloc: A,
        given: &mut Option<(Text<A>, Text<A>)>,
        how: How,
        moment: Moment,
    ) -> Result<bool, AllocError>
        ghost texts: { List ℕ × List ℕ }
        requires given { given.old ≡ Some texts }
        requires report { HasRoom N.client self.old }
        ensures ok { IfOk result (λ possible. Steps self.old.calm self.new.calm (λ read. Happens read (Upload (over_breaks texts.0 texts.1 how) moment.seconds) (shown N.client F.server self.old) possible (shown N.client F.server self.new))) }
        ensures possible { IfOk result (λ possible. possible ≡ can_happen (Upload (over_breaks texts.0 texts.1 how) moment.seconds) (shown N.client F.server self.old)) }
        ensures idle { IfOk result (λ possible. possible ≡ false → (shown N.client F.server self.new ≡ shown N.client F.server self.old) × (self.new.calm ≡ self.old.calm)) }
        ensures err { OnErr result ((shown N.client F.server self.new ≡ shown N.client F.server self.old) × (self.new.calm ≡ self.old.calm)) }
        ensures report { HasRoom N.client self.new }
        ensures unmoved { OnErr result (tally_of N.client F.server self.new ≡ tally_of N.client F.server self.old) }
        ensures counted { Counted 24 N.client F.server self.old self.new }
    {
        if !self.is_unlinked() {
            return Ok(false);
        }
        let marks = self.make_room(alloc, 16)?;
        if !self.start_upload(given, how) {
            return Ok(false);
        }
        self.note(moment, marks);
        self.finish();
        Ok(true)
    }

    /// No link stands or is wanted.
    fn is_unlinked(&self) -> bool
        ensures { result ≡ is_unlinked (shown N.client F.server self.now) }
    {
        matches!(self.link, Link::Gone) && !self.is_asked_for()
    }

    /// Room for a report, and for the marks of an operation; what is answered has room for so many.
    fn make_room(&mut self, alloc: A, marks: usize) -> Result<Vec<Mark, A>, AllocError>
        ensures same { shown N.client F.server self.new ≡ shown N.client F.server self.old }
        ensures none { IfOk result (λ marks. marks.items ≡ []) }
        ensures room { OnOk result (vec_len self.new.reports < vec_capacity self.new.reports) }
        ensures report { HasRoom N.client self.old → HasRoom N.client self.new }
        ensures marks { OnOk result (vec_len self.new.marks < vec_capacity self.new.marks) }
        ensures calm { self.new.calm ≡ self.old.calm }
        ensures ends { tally_of N.client F.server self.new ≡ tally_of N.client F.server self.old }
        ensures counted { Counted 0 N.client F.server self.old self.new }
    {
        self.reports.reserve(1)?;
        self.marks.reserve(1)?;
        let mut kept = Vec::new(alloc);
        kept.reserve(marks)?;
        Ok(kept)
    }

    /// The client begins the operation that is given, where none is open.
    #[tactic(auto, using(crate::proofs::events::Beginning::handed_some, crate::proofs::events::Beginning::handed_none))]
    fn start(&mut self, given: &mut Option<Op<Text<A>>>) -> bool
        ghost op: { Op (List ℕ) }
        requires given { given.old ≡ Some op }
        ensures begun { result ≡ true → (is_busy (N.client self.old.near).view ≡ false) × Calmly self.old self.new (shown N.client F.server self.new ≡ record (shown N.client F.server self.old) { near = starts op (N.client self.old.near).view }) }
        ensures busy { result ≡ false → (is_busy (N.client self.old.near).view ≡ true) × (shown N.client F.server self.new ≡ shown N.client F.server self.old) × (self.new.calm ≡ self.old.calm) }
        ensures marks { self.new.marks ≡ self.old.marks }
        ensures reports { self.new.reports ≡ self.old.reports }
        ensures counted { Counted 3 N.client F.server self.old self.new }
    {
        let refusals = self.near.refusals();
        self.near.begin(given);
        if given.is_some() {
            return false;
        }
        self.calm = stays(self.calm, refusals, self.near.refusals());
        true
    }

    /// The client begins an upload over breaks of what is given, where no operation is open.
    #[tactic(auto, using(crate::proofs::events::Beginning::handed_some, crate::proofs::events::Beginning::handed_none))]
    fn start_upload(&mut self, given: &mut Option<(Text<A>, Text<A>)>, how: How) -> bool
        ghost texts: { List ℕ × List ℕ }
        requires given { given.old ≡ Some texts }
        ensures begun { result ≡ true → (is_busy (N.client self.old.near).view ≡ false) × Calmly self.old self.new (shown N.client F.server self.new ≡ record (shown N.client F.server self.old) { near = uploads (over_breaks texts.0 texts.1 how) (N.client self.old.near).view }) }
        ensures busy { result ≡ false → (is_busy (N.client self.old.near).view ≡ true) × (shown N.client F.server self.new ≡ shown N.client F.server self.old) × (self.new.calm ≡ self.old.calm) }
        ensures marks { self.new.marks ≡ self.old.marks }
        ensures reports { self.new.reports ≡ self.old.reports }
        ensures counted { Counted 3 N.client F.server self.old self.new }
    {
        let refusals = self.near.refusals();
        self.near.begin_upload(given, how);
        if given.is_some() {
            return false;
        }
        self.calm = stays(self.calm, refusals, self.near.refusals());
        true
    }

    /// What begins with an operation: the server's clock is set, the operation has no mark yet, and no octets are lent.
    fn note(&mut self, moment: Moment, marks: Vec<Mark, A>)
        requires room { vec_len self.old.marks < vec_capacity self.old.marks }
        requires none { marks.items ≡ [] }
        ensures moved { Calmly self.old self.new (shown N.client F.server self.new ≡ begins_at_moment moment.seconds (N.client self.old.near).view (lends_none (shown N.client F.server self.old))) }
        ensures reports { self.new.reports ≡ self.old.reports }
        ensures counted { Counted 3 N.client F.server self.old self.new }
    {
        self.set_clock(moment);
        keep(&mut self.marks, marks);
        self.taken.clear();
    }

    /// The server's clock is set.
    #[tactic(auto, unfolding(ftp_server_model::specs::Calls::clocked))]
    fn set_clock(&mut self, moment: Moment)
        ensures moved { Calmly self.old self.new (shown N.client F.server self.new ≡ record (shown N.client F.server self.old) { far = clocked moment.seconds (shown N.client F.server self.old).far }) }
        ensures marks { self.new.marks ≡ self.old.marks }
        ensures reports { self.new.reports ≡ self.old.reports }
        ensures counted { Counted 3 N.client F.server self.old self.new }
    {
        let counts = self.far_counts();
        self.far.clock(moment);
        self.calm = both_stay(self.calm, counts, self.far_counts());
    }
}
