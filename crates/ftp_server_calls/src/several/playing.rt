// Turns of several sessions in order.
ghost use Rattle.std.specs.Prelude.{◌≡◌, ◌<◌, IfOk, OnErr, vec_len};
ghost use Rattle.ftp_server_calls.specs.one.Cues.{gifts_of};
ghost use Rattle.ftp_server_calls.specs.one.Order.{OneMore};

use crate::one::{Cue, Gift, Played, calm_after, is_same, keep};
use crate::several::sessions::Sessions;
use ftp_server_model::{Counts, Far};
use ftp_tree::{SureTree, Tree};
use laws_server::Lends;
use std::alloc::{AllocError, Allocator};

/// A call of the session in a slot.
#[derive(Drop)]
pub struct Turn<A: Allocator + Copy> {
    pub slot: usize,
    pub cue: Cue<A>,
}

impl<A: Allocator + Copy, T: SureTree<A>, F: Lends<A, T>> Sessions<A, T, F> {
    ghost use Rattle.ftp_server_calls.specs.several.Slots.{slots_seen};
    ghost use Rattle.ftp_server_calls.specs.several.Playing.{AreTaken, EachIsOwn, IsCalm, KeepsCompany, PlaysSeveral, Takes, TakesSome, told_at, turn_of, turns_of};

    /// Makes all of these turns in order, and says what each gave and in how many of the first of them nothing failed. A turn of a slot that nobody
    /// has gives nothing.
    ///
    /// Refused memory for what they give, the turns before stand.
    pub fn play(&mut self, turns: &[Turn<A>]) -> Result<Played<A>, AllocError>
        // Witness of made: as of `play`.
        ensures made { IfOk result (λ played. AreTaken played.calm (turns_of turns.now) (gifts_of played.gifts.items) (slots_seen T.table T.failures F.Far.server self.old) (slots_seen T.table T.failures F.Far.server self.new)) }

        // Up to the first turn in which something failed they give what the definitions of several sessions say.
        // Witness of plays: as of `play`.
        ensures plays { IfOk result (λ played. PlaysSeveral played.calm (turns_of turns.now) (gifts_of played.gifts.items) (slots_seen T.table T.failures F.Far.server self.old) (slots_seen T.table T.failures F.Far.server self.new)) }

        // Each session is given what a server of its own gives, whose map is exchanged before each of its calls.
        // Witness of own, unseen: equations of what is given.
        ensures own { IfOk result (λ played. EachIsOwn played.calm (turns_of turns.now) (gifts_of played.gifts.items) (slots_seen T.table T.failures F.Far.server self.old)) }

        // Those below one root see nothing of others below roots that have no path with it in common.
        ensures unseen { IfOk result (λ played. KeepsCompany played.calm (turns_of turns.now) (gifts_of played.gifts.items) (slots_seen T.table T.failures F.Far.server self.old)) }

        // Witness of begun: the same relations, for the turns that were made.
        // Witness of begun: the same relations, for the calls that were made.
        ensures begun { OnErr result (TakesSome (turns_of turns.now) (slots_seen T.table T.failures F.Far.server self.old) (slots_seen T.table T.failures F.Far.server self.new)) }
    {
        let played = self.play_all(turns)?;
        Ok(played)
    }

    /// Makes all turns in order.
    fn play_all(&mut self, turns: &[Turn<A>]) -> Result<Played<A>, AllocError>
        ensures made { IfOk result (λ played. AreTaken played.calm (turns_of turns.now) (gifts_of played.gifts.items) (slots_seen T.table T.failures F.Far.server self.old) (slots_seen T.table T.failures F.Far.server self.new)) }
        ensures begun { OnErr result (TakesSome (turns_of turns.now) (slots_seen T.table T.failures F.Far.server self.old) (slots_seen T.table T.failures F.Far.server self.new)) }
    {
        let mut gifts = Vec::new(self.alloc);
        let mut calm = 0;
        for turn in turns {
            let made = gifts.len();
            let Ok(is_calm) = self.take_turn(turn, &mut gifts) else {
                return Err(AllocError);
            };
            calm = calm_after(calm, made, is_calm);
        }
        Ok(Played { gifts, calm })
    }

    /// Makes a turn, and keeps what it gave; says whether nothing failed in it.
    fn take_turn(&mut self, turn: &Turn<A>, gifts: &mut Vec<Gift<A>, A>) -> Result<bool, AllocError>
        ensures next { IfOk result (λ is_calm. OneMore Takes IsCalm is_calm (turn_of turn.now) (gifts_of gifts.old.items) (gifts_of gifts.new.items) (slots_seen T.table T.failures F.Far.server self.old) (slots_seen T.table T.failures F.Far.server self.new)) }
        ensures back { OnErr result (slots_seen T.table T.failures F.Far.server self.new ≡ slots_seen T.table T.failures F.Far.server self.old) }
    {
        gifts.reserve(1)?;
        if turn.slot >= self.len() {
            keep(gifts, Gift::Nothing);
            return Ok(true);
        }
        let before = self.told(turn.slot);
        let gift = self.call(turn.slot, &turn.cue)?;
        keep(gifts, gift);
        Ok(is_same(before, self.told(turn.slot)))
    }

    /// The growths that were refused to the session in a slot, and the failures that the tree of all has counted.
    fn told(&self, slot: usize) -> Counts
        requires { slot < vec_len self.now.slots }
        ensures { result ≡ told_at slot (slots_seen T.table T.failures F.Far.server self.now) }
    {
        Counts {
            refusals: self.slots[slot].server.counts().refusals,
            failures: self.tree.device_failures(),
        }
    }
}
