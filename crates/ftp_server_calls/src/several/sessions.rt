// Sessions over one tree.
ghost use Rattle.std.specs.Prelude.{◌≡◌, ◌<◌, ◌++◌, [], ◌∷◌, None, IfOk, OnErr, OnOk, vec_len};
ghost use Rattle.ftp_server_calls.specs.one.Cues.{cue_of, gift_of};
ghost use Rattle.ftp_server_calls.specs.several.Lent.{Lent};
ghost use Rattle.ftp_server_calls.specs.several.Slots.{in_slot_of};

use crate::one::{Cue, Gift, make_into, room_for};
use ftp_server_model::Standing;
use ftp_tree::Tree;
use laws_server::Lends;
use std::alloc::{AllocError, Allocator};

/// A session in its slot.
#[derive(Drop)]
pub struct InSlot<F: Drop> {
    pub(crate) server: F,
    /// What stood at the path of its upload after its last call, in the tree of all.
    pub(crate) stood: Option<Standing>,
}

/// Sessions, each in its slot, and the one tree of all. It is lent to the session that is called, and to no other: between two of its calls a session
/// has the tree that it came with, which no call of `Sessions` reads or changes.
#[derive(Drop)]
pub struct Sessions<A: Allocator + Copy, T: Drop, F: Drop> {
    pub(crate) tree: T,
    pub(crate) slots: Vec<InSlot<F>, A>,
    pub(crate) alloc: A,
}

impl<A: Allocator + Copy, T: Tree<A>, F: Lends<A, T>> Sessions<A, T, F> {
    ghost use Rattle.ftp_server_calls.specs.several.Slots.{GivesIn, SlotTurned, slots_seen};

    /// No session yet, over this tree.
    pub fn new(alloc: A, tree: T) -> Sessions<A, T, F>
        ensures tree { result.tree ≡ tree }
        ensures none { result.slots.items ≡ [] }
    {
        Sessions {
            tree,
            slots: Vec::new(alloc),
            alloc,
        }
    }

    /// Gives a session a slot, the next one. Refused memory, it is let go, and all else stays.
    pub fn slot(&mut self, server: F) -> Result<(), AllocError>
        ensures in_slot { OnOk result (self.new.slots.items ≡ self.old.slots.items ++ record { server = server; stood = None } ∷ []) }
        ensures stays { OnErr result (self.new.slots.items ≡ self.old.slots.items) }
        ensures tree { self.new.tree ≡ self.old.tree }
    {
        let in_slot = InSlot {
            server,
            stood: None,
        };
        match self.slots.push(in_slot) {
            Ok(()) => Ok(()),
            Err(_) => Err(AllocError),
        }
    }

    /// How many slots are taken.
    pub fn len(&self) -> usize
        ensures { result ≡ vec_len self.now.slots }
    {
        self.slots.len()
    }

    /// The tree of all.
    pub fn tree(&self) -> &T
        ensures { result.now ≡ self.now.tree }
    {
        &self.tree
    }

    /// Calls the session in a slot, with the tree of all; gives what it gave. Where there is no memory for the octets that it may give, it is not called.
    pub fn call(&mut self, slot: usize, cue: &Cue<A>) -> Result<Gift<A>, AllocError>
        requires { slot < vec_len self.old.slots }

        // The call is made as its clause of `Far` says, with the tree of all, and all else stays.
        // Witness of turned: relations, each the clause of its call, and equations of all else; `edits/a_tree_is_not_taken_back`,
        // `edits/a_tree_is_lent_to_two`, `edits/another_session_is_called`, `edits/what_others_changed_is_not_asked`.
        ensures turned { IfOk result (λ gift. SlotTurned (record { slot = slot; cue = cue_of cue.now }) (gift_of gift) (slots_seen T.table T.failures F.Far.server self.old) (slots_seen T.table T.failures F.Far.server self.new)) }

        // Where no growth was refused to the session, and the device of the tree did not fail or stray, it is the turn of the definitions.
        // Witness of gives: an equation, where nothing failed; `edits/a_call_has_an_old_map`.
        ensures gives { IfOk result (λ gift. GivesIn (record { slot = slot; cue = cue_of cue.now }) (gift_of gift) (slots_seen T.table T.failures F.Far.server self.old) (slots_seen T.table T.failures F.Far.server self.new)) }

        // Witness of back: an equation; `edits/a_tree_is_lent_before_there_is_room`.
        ensures back { OnErr result (slots_seen T.table T.failures F.Far.server self.new ≡ slots_seen T.table T.failures F.Far.server self.old) }
    {
        let in_slot = &mut self.slots[slot];
        lent::<A, T, F>(self.alloc, in_slot, &mut self.tree, cue)
    }
}

/// Calls a session with a tree that is not its own, which is taken back after the call. It is lent once there is room for the octets that the call may give.
fn lent<A: Allocator + Copy, T: Tree<A>, F: Lends<A, T>>(
    alloc: A,
    in_slot: &mut InSlot<F>,
    tree: &mut T,
    cue: &Cue<A>,
) -> Result<Gift<A>, AllocError>
    ensures lent { IfOk result (λ gift. Lent (cue_of cue.now) (gift_of gift) (in_slot_of F.Far.server in_slot.old) (T.table tree.old) (T.failures tree.old) (in_slot_of F.Far.server in_slot.new) (T.table tree.new) (T.failures tree.new)) }
    ensures in_slot { OnErr result (in_slot_of F.Far.server in_slot.new ≡ in_slot_of F.Far.server in_slot.old) }
    ensures tree { OnErr result ((T.table tree.new ≡ T.table tree.old) × (T.failures tree.new ≡ T.failures tree.old)) }
{
    let room = room_for(alloc, cue)?;
    in_slot.server.lend(tree, in_slot.stood);
    let gift = make_into::<A, T, F>(&mut in_slot.server, cue, room);
    in_slot.stood = in_slot.server.give_back(tree);
    Ok(gift)
}
