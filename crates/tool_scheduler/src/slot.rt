// A session in a slot, and who slots clients, as the rounds see them.
ghost use Rattle.std.specs.Prelude.{◌≡◌, ◌∷◌, [], ℕ, IfSome, List, None, Option};
ghost use Rattle.ftp_ports.specs.Asking.{Adds};
ghost use Rattle.tool_scheduler.specs.Rounds.{RoundAction, Began, action_of, place_of};

use crate::session_limits::Full;
use std::alloc::Global;
use std::io;
use std::net::{SocketAddr, TcpStream};
use std::rc::Rc;
use tool_polling::{Awaits, ControlLine, Leaving, Timeouts};

/// How a turn of a session ended.
#[derive(Clone, Copy)]
pub enum TurnResult {
    /// It waits.
    Later,
    /// It goes on at once, where others had their turn.
    More,
    /// It is over.
    Over,
}

/// Whose turn it is.
#[derive(Clone, Copy)]
pub enum Turn {
    /// That of the session in this slot, which is the next in order.
    Next(usize),
    /// One more of the session in this slot, which is ended for another client.
    Last(usize),
}

impl Turn {
    /// The slot.
    pub fn place(self) -> usize
        ensures { result ≡ place_of self }
    {
        match self {
            Turn::Next(place) => place,
            Turn::Last(place) => place,
        }
    }
}

/// A session over a tree `T`, which is lent to it for each turn. None of its calls waits.
pub trait Slot<T>: Drop {
    /// What was told of rounds and turns, the last one first, where a tree tells that.
    ghost history: { T → Option (List RoundAction) } = { λ tree. None };

    ghost use Rattle.tool_scheduler.specs.declared.slot.TurnResult.{TurnResult};

    /// What a turn does, as its owner states it: of the tree that was lent, the tree that it left, how it ended, and the session before and after.
    ghost takes: { T → T → TurnResult → (old new : Self) → Type 0 };

    /// Goes on until it waits, is over, or has had its part; `told` is what the last poll told of what it waited for.
    fn turn(&mut self, turn: Turn, told: Awaits, tree: &mut T) -> TurnResult
        // Witness of told: what an owner tells of itself: rounds tell by no other call, and `serve_rounds` says what they told.
        ensures told { Adds (history tree.old) (history tree.new) (action_of turn ∷ []) }
        // Witness of takes: what an owner states of its turns: `serve_rounds` says that they follow one another.
        ensures takes { takes tree.old tree.new result self.old self.new };

    /// What it waits for.
    fn awaits(&self) -> Awaits;

    /// How long its client is waited for.
    fn timeouts(&self) -> &Timeouts;

    /// Whether a transfer is under way, or a reply.
    fn is_busy(&self) -> bool;

    /// Whether its next turn may hash a password, for which all others wait.
    fn may_hash(&self) -> bool;

    /// It is over: says the last reply, and gives what stays of its connections, and whether all went well.
    fn leave(&mut self) -> (Leaving, bool);
}

/// Whether the server was asked to stop.
#[derive(Clone, Copy)]
pub enum StopRequest {
    /// Nobody can ask it.
    Never,
    /// Nobody did yet.
    NotYet,
    /// It is to stop.
    Made,
}

/// Who slots clients.
pub trait Slots {
    /// What they are served over.
    type Tree;

    type Slot: Slot<Self::Tree>;

    /// What becomes of the tree as a round begins, whose clients count as these.
    ghost begins: { (hosts : List ℕ) → (old new : Self.Tree) → Type 0 };

    /// How a session is as it starts.
    ghost starts: { Self.Slot → Type 0 };

    /// As whom a client counts, of whom only so many are served at once.
    fn host(&self, peer: SocketAddr) -> u128;

    /// A session of a client that came now; none where it can't be had, which was told.
    fn slot(
        &self,
        stream: TcpStream,
        peer: SocketAddr,
        tree: &Self::Tree,
    ) -> Option<Box<Self::Slot, Global>>
        // Witness: what an owner states of its sessions: `serve_rounds` says that each one that takes a slot starts so.
        ensures starts { IfSome result (λ session. starts session.value) };

    /// A round begins, in which the sessions in these slots are ready, and whose clients count as these; who does not tell that does nothing.
    fn begin_round(&self, ready: &[bool], hosts: &[u128], tree: &mut Self::Tree)
        // Witness of told: as of `turn`.
        // Witness of begins: as of `takes`.
        ensures told { Adds (Self.Slot.history tree.old) (Self.Slot.history tree.new) (Began ready.now hosts.now ∷ []) }
        ensures begins { begins hosts.now tree.old tree.new };

    /// A client for whom there is no slot was told so, and its connection.
    fn turn_away(
        &self,
        stream: TcpStream,
        peer: SocketAddr,
        why: Full,
    ) -> Option<Rc<ControlLine, Global>>;

    /// Whether the server was asked to stop. It is looked for at the start, and then once a second, as long as that can be asked.
    fn stop_request(&self) -> StopRequest;

    /// The system gave no connection.
    fn none_came(&self, error: io::Error);
}
