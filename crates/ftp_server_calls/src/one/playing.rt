// Calls of a server in order.
ghost use Rattle.std.specs.Prelude.{◌≡◌, ◌≢◌, ◌<◌, ◌+◌, ◌^◌, ◌++◌, [], ◌∷◌, IfOk, OnErr, false, true, vec_capacity, vec_len};
ghost use Rattle.ftp_server_calls.specs.one.Cues.{cue_of, cues_of, gifts_of};
ghost use Rattle.ftp_server_calls.specs.one.Making.{ArePlayed, MakesNext};
ghost use Rattle.ftp_server_calls.specs.one.Playing.{KeepsApart, KeepsTheMap, PlaysAs, PlaysSome};

use crate::one::calling::call;
use crate::one::cue::{Cue, Gift, Played};
use ftp_server_model::{Counts, SureFar};
use ftp_tree::Tree;
use std::alloc::{AllocError, Allocator};

/// A server's end that makes calls by a list: whatever keeps `Far` over a tree whose device never strays.
pub trait Plays<A: Allocator + Copy, T: Tree<A>>: SureFar<A, T> {
    /// Makes all of these calls in order, and says what each gave and in how many of the first of them nothing failed.
    ///
    /// Refused memory for what the calls give, the calls before stand.
    fn play(&mut self, alloc: A, cues: &[Cue<A>]) -> Result<Played<A>, AllocError>
        // Witness of made: relations, each the clause of its call; `edits/a_failure_is_told_as_calm`, `edits/a_free_seat_takes_octets`,
        // `edits/failures_are_those_of_a_tree_of_its_own`.
        // Witness of made: relations, each the clause of its call; `edits/calls_end_after_a_failure`, `edits/a_failure_is_told_as_calm`,
        // `edits/no_call_is_told_as_calm`, `edits/all_octets_are_told_as_taken`.
        ensures made { IfOk result (λ played. ArePlayed played.calm (cues_of cues.now) (gifts_of played.gifts.items) (Self.server self.old) (Self.server self.new)) }

        // Up to the first call in which something failed they give what the definitions say.
        // Witness of plays: equations of gifts, map and sessions; `edits/a_turn_is_made_in_the_first_seat`.
        // Witness of plays: equations of gifts and view; `edits/a_cue_is_skipped`, `edits/no_list_is_given`.
        ensures plays { IfOk result (λ played. PlaysAs played.calm (cues_of cues.now) (gifts_of played.gifts.items) (Self.server self.old) (Self.server self.new)) }

        // Where each login that succeeds is to one root, they keep the rest of the map apart.
        // Witness of apart: an equation of the gifts, and of the map outside of the root.
        ensures apart { IfOk result (λ played. KeepsApart played.calm (cues_of cues.now) (gifts_of played.gifts.items) (Self.server self.old) (Self.server self.new)) }

        // Witness of begun: the same relations, for the turns that were made.
        // Witness of begun: the same relations, for the calls that were made.
        ensures begun { OnErr result (PlaysSome (cues_of cues.now) (Self.server self.old) (Self.server self.new)) }

        // Where no account has a right to change, they leave the map as it was, whatever failed in them or before one of them.
        // Witness of looks: an equation of the map, where no account has a right to change; its law is `far` of `lookers_leave_the_map`
        // (`laws_server`).
        ensures looks { KeepsTheMap (Self.server self.old) (Self.server self.new) };
}

impl<A: Allocator + Copy, T: Tree<A>, S: SureFar<A, T>> Plays<A, T> for S {
    fn play(&mut self, alloc: A, cues: &[Cue<A>]) -> Result<Played<A>, AllocError> {
        let played = play_all(alloc, self, cues)?;
        Ok(played)
    }
}

/// Makes all calls in order.
fn play_all<A: Allocator + Copy, T: Tree<A>, S: SureFar<A, T>>(
    alloc: A,
    server: &mut S,
    cues: &[Cue<A>],
) -> Result<Played<A>, AllocError>
    ensures made { IfOk result (λ played. ArePlayed played.calm (cues_of cues.now) (gifts_of played.gifts.items) (S.server server.old) (S.server server.new)) }
    ensures begun { OnErr result (PlaysSome (cues_of cues.now) (S.server server.old) (S.server server.new)) }
    ensures looks { KeepsTheMap (S.server server.old) (S.server server.new) }
{
    let mut gifts = Vec::new(alloc);
    let mut calm = 0;
    for cue in cues {
        let made = gifts.len();
        let Ok(is_calm) = play_one(alloc, server, cue, &mut gifts) else {
            return Err(AllocError);
        };
        calm = calm_after(calm, made, is_calm);
    }
    Ok(Played { gifts, calm })
}

/// Makes a call, and keeps what it gave; says whether nothing failed in it.
fn play_one<A: Allocator + Copy, T: Tree<A>, S: SureFar<A, T>>(
    alloc: A,
    server: &mut S,
    cue: &Cue<A>,
    gifts: &mut Vec<Gift<A>, A>,
) -> Result<bool, AllocError>
    ensures next { IfOk result (λ is_calm. MakesNext is_calm (cue_of cue.now) (gifts_of gifts.old.items) (gifts_of gifts.new.items) (S.server server.old) (S.server server.new)) }
    ensures back { OnErr result (S.server server.new ≡ S.server server.old) }
{
    let counts = server.counts();
    gifts.reserve(1)?;
    let gift = call(alloc, server, cue)?;
    keep(gifts, gift);
    Ok(is_same(counts, server.counts()))
}

/// How many of the first calls were calm, after one more: `calm` of those `made` before it were.
pub fn calm_after(calm: usize, made: usize, is_calm: bool) -> usize
    requires { made < 2 ^ 63 }
    ensures on { is_calm ≡ true → calm ≡ made → result ≡ calm + 1 }
    ensures off { is_calm ≡ false → result ≡ calm }
    ensures past { calm < made → result ≡ calm }
{
    if is_calm && calm == made {
        calm + 1
    } else {
        calm
    }
}

/// Adds what a call gave, for which there is room.
pub fn keep<A: Allocator + Copy>(gifts: &mut Vec<Gift<A>, A>, gift: Gift<A>)
    requires { vec_len gifts.old < vec_capacity gifts.old }
    ensures { gifts.new.items ≡ gifts.old.items ++ gift ∷ [] }
{
    if gifts.push(gift).is_err() {
        unreachable!()
    }
}

/// Whether neither count has moved.
pub fn is_same(old: Counts, new: Counts) -> bool
    // Witness: an equation of the counts, and what follows where they differ.
    ensures same { result ≡ true → new ≡ old }
    ensures moved { result ≡ false → new ≢ old }
{
    new == old
}
