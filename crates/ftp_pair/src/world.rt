// A world of two ends.
ghost use Rattle.std.specs.Prelude.{◌≡◌, ◌∷◌, [], true, false, length, map, nat_eq, option_map, IfErr, IfOk, OnErr, OnOk};
ghost use Rattle.std.specs.List.{slice_get};
ghost use Rattle.ftp_operation.specs.Answer.{said_of};
ghost use Rattle.laws_world.specs.Agreement.{begun_by_event};
ghost use Rattle.laws_world.specs.Claims.{Beginning, IsFair, world_of};
ghost use Rattle.laws_world.specs.Events.{Happens, IsQuiet, can_happen};
ghost use Rattle.laws_world.specs.World.{world};
ghost use Rattle.ftp_pair_events.specs.events.Calm.{most_in};
ghost use Rattle.ftp_pair_events.specs.events.Happening.{event_of};
ghost use Rattle.ftp_pair_events.specs.events.Shown.{HasRoom, Steps, mark_of};
ghost use Rattle.ftp_pair.specs.Session.{AgreesAfter, AgreesBy, AgreesHere, AreIdle, Counted, IsReached, KeepsCalmBy, LeadsCalmly, LeadsPartly, Reached, seen};

use ftp_client_model::Near;
use ftp_operation::Answer;
use ftp_pair_events::{Event, Mark, Parts};
use ftp_server_model::SureFar;
use ftp_tree::Tree;
use std::alloc::{AllocError, Allocator};
use std::marker::Model;

/// A client and a server, and what lies between them (RFC 959, section 2.3).
#[derive(Drop)]
pub struct World<A: Allocator + Copy, T: Tree<A>, N: Near<A>, F: SureFar<A, T>> {
    pub(crate) parts: Parts<A, T, N, F>,
    alloc: A,
    ghost reached: { ∥ IsReached (seen N.client F.server parts) ∥₁ },
}

impl<A: Allocator + Copy, T: Tree<A>, N: Near<A>, F: SureFar<A, T>> Model for World<A, T, N, F> {
    ghost use Rattle.ftp_pair_events.specs.events.Shown.{HasRoom};
    ghost use Rattle.ftp_pair.specs.Session.{Seen, seen};
    ghost use Rattle.std.specs.Coded.{codes};
    ghost use Rattle.ftp_tree.specs.Rows.{table_code};

    ghost Value = { Seen };

    ghost coded = { Prim.hlevel (codes, table_code) };

    ghost view = { λ w. seen N.client F.server w.parts };

    ghost invariant = { λ w. HasRoom N.client w.parts };
}

impl<A: Allocator + Copy, T: Tree<A>, N: Near<A>, F: SureFar<A, T>> World<A, T, N, F> {
    /// Two ends as they begin, each on the host of the other's peer. There is room for 4,096 octets in each queue, and for as many that are lent;
    /// refused that, it hands both ends back.
    pub fn new(alloc: A, near: N, far: F) -> Result<Self, (N, F)>
        requires fair { (from : Beginning) × IsFair from × (world (N.client near).view (F.server far).view ≡ world_of from) }
        ensures world { IfOk result (λ w. w.world ≡ world (N.client near).view (F.server far).view) }
        ensures calm { IfOk result (λ w. w.calm ≡ true) }
        ensures counted { IfOk result (λ w. w.tally ≡ record { near = (N.client near).refusals; far = (F.server far).counts }) }
        ensures err { IfErr result (λ ends. ends ≡ (near, far)) }
    {
        match Parts::new(alloc, near, far) {
            Ok(parts) => Ok(World { parts, alloc }),
            Err(ends) => Err(ends),
        }
    }

    /// Nothing failed so far: no end was refused memory, and no device failed.
    #[tactic(auto, using(crate::proofs::Reaching::reached_calm))]
    pub fn is_calm(&self) -> bool
        // Witness of calm: an equation; `edits/every_world_is_calm`.
        ensures calm { result ≡ self.now.calm }
        // Witness of reached, agrees: `edits/every_world_is_calm`.
        ensures reached { result ≡ true → ∥ Reached self.now.world ∥₁ }
        ensures agrees { result ≡ true → ∥ AgreesHere self.now.world ∥₁ }
    {
        self.parts.calm
    }

    /// An event happens where it is possible; it answers whether it was. What it is given it keeps or lets go. Refused the room that it takes,
    /// it has changed nothing.
    pub fn step(&mut self, event: Event<A>) -> Result<bool, AllocError>
        // Witness of does, agrees: the edits of `ftp_pair_events`.
        ensures does { IfOk result (λ possible. Steps self.old.calm self.new.calm (λ read. Happens read (event_of event) self.old.world possible self.new.world)) }
        // Witness of possible: an equation; `edits/every_event_was_possible_once_something_failed`.
        ensures possible { IfOk result (λ possible. possible ≡ can_happen (event_of event) self.old.world) }
        // Witness of idle: equations; `run` (idle) needs it.
        ensures idle { IfOk result (λ possible. possible ≡ false → (self.new.world ≡ self.old.world) × (self.new.calm ≡ self.old.calm)) }
        ensures agrees { IfOk result (λ possible. AgreesBy (event_of event) (begun_by_event (event_of event) possible) self.old self.new) }
        // Witness of calm, counted: the edits of `ftp_pair_events`.
        ensures calm { KeepsCalmBy (event_of event ∷ []) self.old self.new }
        ensures counted { Counted (most_in (event_of event)) self.old self.new }
        ensures err { OnErr result (self.new ≡ self.old) }
    {
        self.parts.step(self.alloc, event)
    }

    /// The events happen in order, each where it is possible, on a copy of what it is given. Refused the room of one, or of its copy, those before it
    /// have happened, and no other.
    pub fn run(&mut self, events: &[Event<A>]) -> Result<(), AllocError>
        // Witness of leads, agrees, partly: `edits/each_event_is_an_opening`.
        ensures leads { OnOk result (LeadsCalmly (map event_of events.now) self.old self.new) }
        ensures agrees { OnOk result (AgreesAfter (map event_of events.now) self.old self.new) }
        ensures partly { OnErr result (LeadsPartly (map event_of events.now) self.old self.new) }
        // Witness of idle: that of `step`.
        ensures idle { AreIdle (map event_of events.now) self.old.world → (self.new.world ≡ self.old.world) × (self.new.calm ≡ self.old.calm) }
        // Witness of calm: that of `step`.
        ensures calm { KeepsCalmBy (map event_of events.now) self.old self.new }
    {
        for event in events {
            let own = event.copied(self.alloc)?;
            self.step(own)?;
        }
        Ok(())
    }

    /// Nothing is in flight: no octet moves, no link opens, and nobody is to be told of an end.
    pub fn is_quiet(&self) -> bool
        // Witness: the edits of `ftp_pair_events`.
        ensures quiet { result ≡ true → IsQuiet self.now.world }
        ensures not { IsQuiet self.now.world → result ≡ true }
    {
        self.parts.is_quiet()
    }

    /// Each operation that was begun has its report.
    pub fn finished(&self) -> bool
        ensures { result ≡ nat_eq (length self.now.world.reports) (length self.now.world.marks) }
    {
        self.parts.reports.len() == self.parts.marks.len()
    }

    /// What became of links that an operation asked for: that they were refused, or broke, in order. Operations are counted from 0, as they
    /// were begun; none where that one was not.
    pub fn marks(&self, operation: usize) -> Option<&[Mark]>
        // Witness: `edits/marks_are_of_the_operation_before`.
        ensures { option_map (λ marks. map mark_of marks.now) result ≡ slice_get self.now.world.marks operation }
    {
        Some(self.parts.marks.get(operation)?.as_slice())
    }

    /// The reports so far, of the operations in the order in which they were begun.
    pub fn reports(&self) -> &[Answer<A>]
        ensures { map said_of result.now ≡ self.now.world.reports }
    {
        &self.parts.reports
    }

    /// The octets that the last event handed to a receiver, where it was a delivery, and else none. Lent until the next event.
    pub fn taken(&self) -> &[u8]
        ensures { result.now ≡ self.now.world.taken }
    {
        self.parts.taken.as_slice()
    }

    /// The client.
    pub fn near(&self) -> &N
        ensures view { (N.client result.now).view ≡ self.now.world.near }
        ensures refusals { (N.client result.now).refusals ≡ self.now.tally.near }
    {
        &self.parts.near
    }

    /// The server.
    pub fn far(&self) -> &F
        ensures view { (F.server result.now).view ≡ self.now.world.far }
        ensures counts { (F.server result.now).counts ≡ self.now.tally.far }
    {
        &self.parts.far
    }

    /// The server's tree.
    pub fn tree(&self) -> &T
        ensures { T.table result.now ≡ self.now.world.far.session.table }
    {
        self.parts.far.tree()
    }
}
