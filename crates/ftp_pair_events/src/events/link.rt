// Links that open, are refused, or break, and the marks of the two last.
ghost use Rattle.std.specs.Prelude.{◌≡◌, ◌<◌, ◌++◌, [], ◌∷◌, map, true, false, vec_len, vec_capacity, IfOk, OnErr, OnOk};
ghost use Rattle.ftp_client_model.specs.Calls as near;
ghost use Rattle.ftp_ends.specs.Link.{is_connecting, is_wanted};
ghost use Rattle.ftp_server_model.specs.Calls as far;
ghost use Rattle.laws_world.specs.Events.{Happens, Open, Break, Refuse, broken_by, refused_by, can_happen, is_asked_for, link_opens, lends_none};
ghost use Rattle.laws_world.specs.World.{gone, marked_last, with_mark};
ghost use Rattle.ftp_pair_events.specs.events.Calm.{Counted, tally_of};
ghost use Rattle.ftp_pair_events.specs.events.Shown.{shown, Calmly, HasRoom, Steps, link_shown, mark_of};

use crate::events::counts::{both_stay, stays};
use crate::events::parts::Parts;
use crate::queues::{Link, Mark, keep};
use ftp_client_model::Near;
use ftp_ends::Wants;
use ftp_server_model::SureFar;
use ftp_tree::Tree;
use std::alloc::{AllocError, Allocator};

/// One end connects and the other accepts.
fn is_wanted(one: Wants, other: Wants) -> bool
    ensures { result ≡ is_wanted one other }
{
    (matches!(one, Wants::Connect(_)) && matches!(other, Wants::Accept))
        || (matches!(one, Wants::Accept) && matches!(other, Wants::Connect(_)))
}

/// An end wants to connect.
fn is_connecting(wants: Wants) -> bool
    ensures { result ≡ is_connecting wants }
{
    matches!(wants, Wants::Connect(_))
}

/// One mark more.
fn add<A: Allocator + Copy>(marks: &mut Vec<Mark, A>, mark: Mark) -> Result<(), AllocError>
    ensures ok { OnOk result (marks.new.items ≡ marks.old.items ++ mark ∷ []) }
    ensures err { OnErr result (marks.new.items ≡ marks.old.items) }
{
    marks.push(mark)?;
    Ok(())
}

/// The last of these has one mark more.
#[tactic(auto, using(crate::proofs::events::Marking::marks_last, crate::proofs::events::Marking::marks_none))]
fn mark_last<A: Allocator + Copy>(
    marks: &mut Vec<Vec<Mark, A>, A>,
    mark: Mark,
) -> Result<(), AllocError>
    ensures ok { OnOk result (map (λ marks. map mark_of marks.items) marks.new.items ≡ marked_last (mark_of mark) (map (λ marks. map mark_of marks.items) marks.old.items)) }
    ensures err { OnErr result (map (λ marks. map mark_of marks.items) marks.new.items ≡ map (λ marks. map mark_of marks.items) marks.old.items) }
{
    let Some(mut last) = marks.pop() else {
        return Ok(());
    };
    let added = add(&mut last, mark);
    keep(marks, last);
    added
}

impl<A: Allocator + Copy, T: Tree<A>, N: Near<A>, F: SureFar<A, T>> Parts<A, T, N, F> {
    /// Whether a link is wanted: there is none, one end connects and the other accepts.
    pub(crate) fn is_asked_for(&self) -> bool
        ensures { result ≡ is_asked_for (shown N.client F.server self.now) }
    {
        matches!(self.link, Link::Gone) && is_wanted(self.near.wants(), self.far.wants())
    }

    /// A wanted link opens; it answers whether one was wanted. Takes no memory.
    pub(crate) fn step_open(&mut self) -> bool
        requires report { HasRoom N.client self.old }
        ensures does { Steps self.old.calm self.new.calm (λ read. Happens read Open (shown N.client F.server self.old) result (shown N.client F.server self.new)) }
        ensures possible { result ≡ can_happen Open (shown N.client F.server self.old) }
        ensures idle { result ≡ false → (shown N.client F.server self.new ≡ shown N.client F.server self.old) × (self.new.calm ≡ self.old.calm) }
        ensures report { HasRoom N.client self.new }
        ensures counted { Counted 24 N.client F.server self.old self.new }
    {
        if !self.is_asked_for() {
            return false;
        }
        self.lend_none();
        self.open_link();
        self.finish();
        true
    }

    #[tactic(auto, unfolding(ftp_server_model::specs::Calls::data_opened), using(crate::proofs::events::Busy::data_opened_busy))]
    pub(crate) fn open_link(&mut self)
        ensures moved { Calmly self.old self.new (shown N.client F.server self.new ≡ link_opens (shown N.client F.server self.old)) }
        ensures report { HasRoom N.client self.old → HasRoom N.client self.new }
        ensures counted { Counted 6 N.client F.server self.old self.new }
    {
        let near_refusals = self.near.refusals();
        let counts = self.far_counts();
        let near_host = self.near.here();
        let far_host = self.far.here();
        self.link = Link::Opened;
        self.came = 0;
        self.near.data_opened(far_host);
        self.far.data_opened(near_host);
        let calm = stays(self.calm, near_refusals, self.near.refusals());
        self.calm = both_stay(calm, counts, self.far_counts());
    }

    /// A wanted link is refused; it answers whether one was wanted. Room for the mark and for a report is made first.
    pub(crate) fn step_refuse(&mut self) -> Result<bool, AllocError>
        requires report { HasRoom N.client self.old }
        ensures ok { IfOk result (λ possible. Steps self.old.calm self.new.calm (λ read. Happens read Refuse (shown N.client F.server self.old) possible (shown N.client F.server self.new))) }
        ensures possible { IfOk result (λ possible. possible ≡ can_happen Refuse (shown N.client F.server self.old)) }
        ensures idle { IfOk result (λ possible. possible ≡ false → (shown N.client F.server self.new ≡ shown N.client F.server self.old) × (self.new.calm ≡ self.old.calm)) }
        ensures err { OnErr result ((shown N.client F.server self.new ≡ shown N.client F.server self.old) × (self.new.calm ≡ self.old.calm)) }
        ensures report { HasRoom N.client self.new }
        ensures unmoved { OnErr result (tally_of N.client F.server self.new ≡ tally_of N.client F.server self.old) }
        ensures counted { Counted 24 N.client F.server self.old self.new }
    {
        if !self.is_asked_for() {
            return Ok(false);
        }
        self.ready_marked(Mark::Refused)?;
        self.refuse_link();
        self.finish();
        Ok(true)
    }

    /// Room for a report; the operation that was begun last has one mark more, and no octets are lent any longer.
    fn ready_marked(&mut self, mark: Mark) -> Result<(), AllocError>
        ensures ok { OnOk result (shown N.client F.server self.new ≡ lends_none (with_mark (mark_of mark) (shown N.client F.server self.old))) }
        ensures err { OnErr result (shown N.client F.server self.new ≡ shown N.client F.server self.old) }
        ensures room { OnOk result (vec_len self.new.reports < vec_capacity self.new.reports) }
        ensures report { HasRoom N.client self.old → HasRoom N.client self.new }
        ensures calm { self.new.calm ≡ self.old.calm }
        ensures ends { tally_of N.client F.server self.new ≡ tally_of N.client F.server self.old }
        ensures counted { Counted 0 N.client F.server self.old self.new }
    {
        self.reports.reserve(1)?;
        self.add_mark(mark)?;
        self.taken.clear();
        Ok(())
    }

    /// The end that connects is told that the link is refused.
    fn refuse_link(&mut self)
        ensures moved { Calmly self.old self.new (shown N.client F.server self.new ≡ refused_by (is_connecting (near.wants (N.client self.old.near).view)) (shown N.client F.server self.old)) }
        ensures reports { self.new.reports ≡ self.old.reports }
        ensures counted { Counted 3 N.client F.server self.old self.new }
    {
        if is_connecting(self.near.wants()) {
            self.refuse_near();
        } else {
            self.refuse_far();
        }
    }

    fn refuse_near(&mut self)
        ensures moved { Calmly self.old self.new (shown N.client F.server self.new ≡ refused_by true (shown N.client F.server self.old)) }
        ensures reports { self.new.reports ≡ self.old.reports }
        ensures counted { Counted 3 N.client F.server self.old self.new }
    {
        let refusals = self.near.refusals();
        self.near.data_refused();
        self.calm = stays(self.calm, refusals, self.near.refusals());
    }

    #[tactic(auto, unfolding(ftp_server_model::specs::Calls::data_refused))]
    fn refuse_far(&mut self)
        ensures moved { Calmly self.old self.new (shown N.client F.server self.new ≡ refused_by false (shown N.client F.server self.old)) }
        ensures reports { self.new.reports ≡ self.old.reports }
        ensures counted { Counted 3 N.client F.server self.old self.new }
    {
        let counts = self.far_counts();
        self.far.data_refused();
        self.calm = both_stay(self.calm, counts, self.far_counts());
    }

    /// The link breaks; it answers whether there was one. Room for the mark and for a report is made first.
    pub(crate) fn step_break(&mut self) -> Result<bool, AllocError>
        requires report { HasRoom N.client self.old }
        ensures ok { IfOk result (λ possible. Steps self.old.calm self.new.calm (λ read. Happens read Break (shown N.client F.server self.old) possible (shown N.client F.server self.new))) }
        ensures possible { IfOk result (λ possible. possible ≡ can_happen Break (shown N.client F.server self.old)) }
        ensures idle { IfOk result (λ possible. possible ≡ false → (shown N.client F.server self.new ≡ shown N.client F.server self.old) × (self.new.calm ≡ self.old.calm)) }
        ensures err { OnErr result ((shown N.client F.server self.new ≡ shown N.client F.server self.old) × (self.new.calm ≡ self.old.calm)) }
        ensures report { HasRoom N.client self.new }
        ensures unmoved { OnErr result (tally_of N.client F.server self.new ≡ tally_of N.client F.server self.old) }
        ensures counted { Counted 24 N.client F.server self.old self.new }
    {
        if !self.is_linked() {
            return Ok(false);
        }
        self.ready_marked(Mark::Broken(self.came))?;
        self.break_link();
        self.finish();
        Ok(true)
    }

    /// There is a link.
    fn is_linked(&self) -> bool
        ensures { result ≡ can_happen Break (shown N.client F.server self.now) }
    {
        !matches!(self.link, Link::Gone)
    }

    fn break_link(&mut self)
        ensures moved { Calmly self.old self.new (shown N.client F.server self.new ≡ gone (broken_by (link_shown self.old.link) (shown N.client F.server self.old))) }
        ensures report { HasRoom N.client self.old → HasRoom N.client self.new }
        ensures counted { Counted 6 N.client F.server self.old self.new }
    {
        self.tell_break();
        self.lose_link();
    }

    /// Each end that hasn't closed the link is told that it broke.
    fn tell_break(&mut self)
        ensures moved { Calmly self.old self.new (shown N.client F.server self.new ≡ broken_by (link_shown self.old.link) (shown N.client F.server self.old)) }
        ensures report { HasRoom N.client self.old → HasRoom N.client self.new }
        ensures counted { Counted 6 N.client F.server self.old self.new }
    {
        match self.link {
            Link::Gone => {}
            Link::Opened => {
                self.fault_near();
                self.fault_far();
            }
            Link::ClosedByNear => self.fault_far(),
            Link::ClosedByFar => self.fault_near(),
        }
    }

    #[tactic(auto, using(crate::proofs::events::Busy::data_fault_busy))]
    fn fault_near(&mut self)
        ensures moved { Calmly self.old self.new (shown N.client F.server self.new ≡ record (shown N.client F.server self.old) { near = near.data_fault (N.client self.old.near).view }) }
        ensures report { HasRoom N.client self.old → HasRoom N.client self.new }
        ensures counted { Counted 3 N.client F.server self.old self.new }
    {
        let refusals = self.near.refusals();
        self.near.data_fault();
        self.calm = stays(self.calm, refusals, self.near.refusals());
    }

    #[tactic(auto, unfolding(ftp_server_model::specs::Calls::data_fault))]
    fn fault_far(&mut self)
        ensures moved { Calmly self.old self.new (shown N.client F.server self.new ≡ record (shown N.client F.server self.old) { far = far.data_fault (F.server self.old.far).view }) }
        ensures report { HasRoom N.client self.old → HasRoom N.client self.new }
        ensures counted { Counted 3 N.client F.server self.old self.new }
    {
        let counts = self.far_counts();
        self.far.data_fault();
        self.calm = both_stay(self.calm, counts, self.far_counts());
    }

    /// The operation that was begun last has one mark more.
    pub(crate) fn add_mark(&mut self, mark: Mark) -> Result<(), AllocError>
        ensures ok { OnOk result (shown N.client F.server self.new ≡ with_mark (mark_of mark) (shown N.client F.server self.old)) }
        ensures err { OnErr result (shown N.client F.server self.new ≡ shown N.client F.server self.old) }
        ensures calm { self.new.calm ≡ self.old.calm }
        ensures reports { self.new.reports ≡ self.old.reports }
        ensures near { self.new.near ≡ self.old.near }
        ensures ends { tally_of N.client F.server self.new ≡ tally_of N.client F.server self.old }
        ensures counted { Counted 0 N.client F.server self.old self.new }
    {
        mark_last(&mut self.marks, mark)
    }
}
