// What the octets of an upload are read of.
ghost use Rattle.std.specs.Prelude.{◌≡◌, ◌+◌, ◌++◌, ◌≤◌, ◌<◌, ℕ, List, IfOk, OnErr, length, take};

/// A source failed, or is not what it was said to be: it says why itself.
#[derive(Clone, Copy)]
pub struct Unread;

/// What the octets of an upload are read of.
pub trait Source: Drop {
    /// The octets that it gave, in order.
    ghost gave: { Self → List ℕ };

    /// How many are still to come, as it was said.
    ghost left: { Self → ℕ };

    /// Gives its next octets, and says how many; none to a room that has some is the end of the file. Where it fails it gives none.
    fn draw(&mut self, room: &mut [u8]) -> Result<usize, Unread>
        // Witness: equations of what was given and of what is still to come; `edits/what_was_read_is_not_told`, `a_source_is_read_past_its_end`.
        ensures within { IfOk result (λ count. count ≤ length room.new) }
        ensures ok { IfOk result (λ count. gave self.new ≡ gave self.old ++ take count room.new) }
        ensures count { IfOk result (λ count. left self.old ≡ count + left self.new) }
        ensures end { IfOk result (λ count. count ≡ 0 → 0 < length room.old → left self.new ≡ 0) }
        ensures err { OnErr result (gave self.new ≡ gave self.old) };
}
