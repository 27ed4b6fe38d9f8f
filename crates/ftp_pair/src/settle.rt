// A world that comes to rest by itself.
ghost use Rattle.std.specs.Prelude.{◌≡◌, ◌<◌, ◌-◌, true, false, if◌then◌else◌};
ghost use Rattle.laws_settling.specs.Steady.{IsSteadyWorld};
ghost use Rattle.laws_world.specs.Still.{IsStill};
ghost use Rattle.ftp_pair_events.specs.events.Happening.{Progresses};
ghost use Rattle.ftp_pair.specs.Session.{Counted, KeepsCalm, LeadsSmall, SettlesAfter};

use crate::world::World;
use ftp_client_model::Near;
use ftp_server_model::SureFar;
use ftp_tree::Tree;
use std::alloc::Allocator;

/// How many turns are made at most once something has failed (own choice).
const TURNS: u64 = 1 << 40;

/// How many turns are left after one: while all is calm none is counted.
fn left_after(left: u64, calm: bool) -> u64
    requires { 0 < left }
    ensures { result ≡ (if calm then left else left - 1) }
{
    if calm { left } else { left - 1 }
}

impl<A: Allocator + Copy, T: Tree<A>, N: Near<A>, F: SureFar<A, T>> World<A, T, N, F> {
    /// Octets are delivered, at most 4,096 at once, wanted links open, and ends are told, until nothing of the kind is possible. It always returns:
    /// where nothing failed, since each turn leaves less to do; once an end was refused memory, or a device failed, after 2^40 turns more at most.
    /// Takes no memory of its own.
    pub fn settle(&mut self)
        // Witness of leads, still, settles: `edits/settling_makes_no_turn`, `calm_turns_are_counted`.
        ensures leads { LeadsSmall self.old self.new }
        ensures still { self.new.calm ≡ true → IsStill self.new.world }
        ensures settles { SettlesAfter self.old self.new }
        // Witness of idle: `edits/what_was_taken_is_forgotten_once_something_failed`.
        ensures idle { IsStill self.old.world → self.new ≡ self.old }
        // Witness of calm: `edits/settling_clears_calm`.
        ensures calm { KeepsCalm self.old self.new }
    {
        let mut left = TURNS;
        while left != 0 {
            if !self.turn() {
                return;
            }
            left = left_after(left, self.is_calm());
        }
    }

    /// One turn; it answers whether there was one to make.
    fn turn(&mut self) -> bool
        ensures does { result ≡ true → Progresses self.old.calm self.new.calm self.old.world self.new.world }
        ensures still { result ≡ false → IsStill self.old.world }
        ensures progresses { result ≡ true → ¬ IsStill self.old.world }
        ensures same { result ≡ false → self.new ≡ self.old }
        ensures counted { Counted 12312 self.old self.new }
        ensures steady { self.old.calm ≡ true → ∥ IsSteadyWorld self.old.world ∥₁ }
    {
        self.parts.turn()
    }
}
