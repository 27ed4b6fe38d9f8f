// One event, and what follows each: what is wanted is served, and the report is taken.
ghost use Rattle.std.specs.Prelude.{◌≡◌, ◌<◌, vec_capacity, false, IfOk, OnErr};
ghost use Rattle.laws_world.specs.Events.{Happens, can_happen, lends_none};
ghost use Rattle.laws_world.specs.Serving.{after_event, collected};
ghost use Rattle.ftp_pair_events.specs.events.Calm.{Counted, most_in, tally_of};
ghost use Rattle.ftp_pair_events.specs.events.Happening.{event_of};
ghost use Rattle.ftp_pair_events.specs.events.Shown.{shown, Calmly, HasRoom, Steps};

use crate::events::event::Event;
use crate::events::parts::Parts;
use crate::queues::keep;
use ftp_client_model::Near;
use ftp_server_model::SureFar;
use ftp_tree::Tree;
use std::alloc::{AllocError, Allocator};

impl<A: Allocator + Copy, T: Tree<A>, N: Near<A>, F: SureFar<A, T>> Parts<A, T, N, F> {
    /// An event happens where it is possible; it answers whether it was. The room that it takes is made first.
    pub fn step(&mut self, alloc: A, event: Event<A>) -> Result<bool, AllocError>
        requires report { HasRoom N.client self.old }
        // Witness of ok: `edits/a_mark_is_put_on_the_first_operation`, `the_reports_are_filled_in`.
        // Witness of ok: `edits/a_break_tells_the_client_alone`, `no_operation_can_begin`, `a_delivery_takes_from_the_middle`.
        // Witness of ok: `edits/an_end_is_told_while_octets_are_due`, `an_end_is_told_before_its_octets`, `the_clock_is_left`.
        // Witness of ok: `edits/a_delivery_offers_nothing`, `octets_are_counted_by_wrapping`, `a_break_is_marked_refused`,
        // `the_client_alone_is_served`.
        ensures ok { IfOk result (λ possible. Steps self.old.calm self.new.calm (λ read. Happens read (event_of event) (shown N.client F.server self.old) possible (shown N.client F.server self.new))) }
        // Witness of possible: an equation, in every world; `edits/a_world_that_failed_calls_an_opening_possible`.
        ensures possible { IfOk result (λ possible. possible ≡ can_happen (event_of event) (shown N.client F.server self.old)) }
        // Witness of idle: equations; `edits/a_break_without_a_link_forgets_what_came`.
        ensures idle { IfOk result (λ possible. possible ≡ false → (shown N.client F.server self.new ≡ shown N.client F.server self.old) × (self.new.calm ≡ self.old.calm)) }
        // Witness of err, report, unmoved: `edits/no_room_for_a_report` (report).
        ensures err { OnErr result ((shown N.client F.server self.new ≡ shown N.client F.server self.old) × (self.new.calm ≡ self.old.calm)) }
        ensures report { HasRoom N.client self.new }
        ensures unmoved { OnErr result (tally_of N.client F.server self.new ≡ tally_of N.client F.server self.old) }
        // Witness of counted: `edits/counts_are_compared_with_themselves`, `device_failures_are_not_compared`.
        // Witness of counted: `edits/the_clock_is_left_and_calm_cleared`, `a_delivery_clears_calm`, `a_failure_is_forgotten`.
        ensures counted { Counted (most_in (event_of event)) N.client F.server self.old self.new }
    {
        match event {
            Event::Deliver(queue, count) => self.step_deliver(queue, count),
            Event::Open => Ok(self.step_open()),
            Event::Refuse => self.step_refuse(),
            Event::End(queue) => Ok(self.step_end(queue)),
            Event::Break => self.step_break(),
            Event::EndControl => Ok(self.step_end_control()),
            Event::Next(op, moment) => {
                let mut given = Some(op);
                let possible = self.step_next(alloc, &mut given, moment);
                drop(given);
                possible
            }
            Event::Upload(path, octets, how, moment) => {
                let mut given = Some((path, octets));
                let possible = self.step_upload(alloc, &mut given, how, moment);
                drop(given);
                possible
            }
        }
    }

    /// No octets are lent any longer.
    pub(crate) fn lend_none(&mut self)
        ensures moved { shown N.client F.server self.new ≡ lends_none (shown N.client F.server self.old) }
        ensures same { self.new ≡ record self.old { taken = self.new.taken } }
        ensures lent { vec_capacity self.new.taken.octets ≡ vec_capacity self.old.taken.octets }
        ensures calm { self.new.calm ≡ self.old.calm }
        ensures report { HasRoom N.client self.old → HasRoom N.client self.new }
        ensures counted { Counted 0 N.client F.server self.old self.new }
    {
        self.taken.clear();
    }

    /// What is wanted after an event is served, and the report is taken.
    pub(crate) fn finish(&mut self)
        requires report { HasRoom N.client self.old }
        ensures moved { Calmly self.old self.new (shown N.client F.server self.new ≡ after_event (shown N.client F.server self.old)) }
        ensures report { HasRoom N.client self.new }
        ensures counted { Counted 18 N.client F.server self.old self.new }
    {
        self.serve();
        self.collect();
    }

    /// The report of the client is taken, if there is one.
    #[tactic(auto, using(crate::proofs::events::Beginning::none_told, crate::proofs::events::Beginning::told_is_busy, crate::proofs::events::Busy::taken_is_free))]
    fn collect(&mut self)
        requires report { HasRoom N.client self.old }
        ensures moved { shown N.client F.server self.new ≡ collected (shown N.client F.server self.old) }
        ensures report { HasRoom N.client self.new }
        ensures calm { self.new.calm ≡ self.old.calm }
        ensures counted { Counted 0 N.client F.server self.old self.new }
    {
        if let Some(answer) = self.near.report() {
            keep(&mut self.reports, answer);
        }
    }
}
