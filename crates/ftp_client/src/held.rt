// How much a client holds (own choice of the limits).
ghost use Rattle.std.specs.Prelude.{◌≡◌, ◌≤◌};
ghost use Rattle.ftp_client.specs.Whole.{IsWholeClient};
ghost use Rattle.ftp_client_model.specs.Held.{held, block_stored_limit};
ghost use Rattle.ftp_ends.specs.Limits.{held_limit};

use crate::client::Client;
use ftp_client_steps::{CountedTransfer, KEPT_LIMIT};
use std::alloc::Allocator;

impl<A: Allocator + Copy, F: CountedTransfer<A>> Client<A, F> {
    ghost use Rattle.ftp_client.specs.Calls.{client_of};
    ghost use Rattle.ftp_client_session.specs.Stored.{stored_in};

    /// How many octets it holds, beside the texts of an operation and what its report brings: the login, the line that is being read, the
    /// reply that it is of, what is owed, what its transfer stores, and the room of the line that was said last; at most 24,576 (own choice of the
    /// limits). There is room in them for all that a transfer may ever store.
    pub fn held(&self) -> usize
        // Witness of exact: an equation; `edits/the_room_of_the_line_is_not_counted`.
        ensures exact { result ≡ held (stored_in F.stored self.now.counted.dialogue.place) (client_of F.flow self.now).view }
        // Witness of little: a bound of the result, by `clients_stay_fit` of `ftp_client_model` and the ghost field `fit`.
        ensures little { result ≤ held_limit }
        // Witness of room: a bound of what it would be with all that a transfer may store, by the same.
        ensures room { held block_stored_limit (client_of F.flow self.now).view ≤ held_limit }
        // Witness of whole: `edits/a_client_keeps_the_line_before`.
        ensures whole { IsWholeClient self.now }
    {
        self.counted.stored_len() + (self.counted.talk_len() + KEPT_LIMIT)
    }
}
