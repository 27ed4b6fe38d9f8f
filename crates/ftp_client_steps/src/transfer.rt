// What goes over the data connection of a client's transfer, as a client uses it (RFC 959, sections 3.1 to 3.5).
ghost use Rattle.std.specs.Prelude.{◌≡◌, ◌<◌, ◌≤◌, ℕ, List, IfErr, IfOk, IsTrue, OnErr, length, min, take, option_map};
ghost use Rattle.ftp_operation.specs.Answer.{said_of};
ghost use Rattle.ftp_operation.specs.declared.op.Op.{Op as AnyOp};
ghost use Rattle.ftp_client_model.specs.Calls.{is_down, left_of, went};
ghost use Rattle.ftp_client_model.specs.Dialogue.{is_given, marked_flow};
ghost use Rattle.ftp_client_model.specs.Octets.{content_answer, cut_answer, flow_of, has_enough, settled_of, whole_answer};
ghost use Rattle.ftp_client_model.specs.Telling.{came_in};
ghost use Rattle.ftp_client_model.specs.View.{Flow};
ghost use Rattle.ftp_client_steps.specs.Hearing.{NotYet, heard_all};

use ftp_facts::Text;
use ftp_operation::{Answer, Op};
use std::alloc::{AllocError, Allocator};

/// The octets of a transfer: those of an upload that are still to give, or what those of a download have said.
pub trait ClientTransfer<A: Allocator + Copy>: Drop {
    /// How it is seen, where this operation is under way.
    ghost flow: { AnyOp (List ℕ) → Self → Flow };

    /// What an operation's transfer carries at its start, where it has one.
    fn begin(op: &Op<Text<A>>, alloc: &A) -> Result<Option<Self>, AllocError>
        // Witness: the function of `ftp_client_model` that each names.
        ensures { IfOk result (λ begun. option_map (flow op.now) begun ≡ flow_of op.now) };

    /// Whether it is a download.
    fn is_down(&self, op: &Op<Text<A>>) -> bool
        // Witness: the function of `ftp_client_model` that each names.
        ensures { result ≡ is_down (flow op.now self.now) };

    /// Whether all octets of an upload are out; of a download there are none to give.
    fn is_given(&self, op: &Op<Text<A>>) -> bool
        // Witness: the function of `ftp_client_model` that each names.
        ensures { result ≡ is_given (flow op.now self.now) };

    /// Whether a Peek has all octets that it asked for; no other operation has ever enough.
    fn has_enough(&self, op: &Op<Text<A>>) -> bool
        // Witness: the function of `ftp_client_model` that each names.
        ensures { result ≡ has_enough op.now (flow op.now self.now) };

    /// Notes the mmmm of a 110 reply to an upload.
    fn note(&mut self, op: &Op<Text<A>>, mark: Option<u64>)
        // Witness: the function of `ftp_client_model` that each names.
        ensures { flow op.now self.new ≡ marked_flow mark (flow op.now self.old) };

    /// What its settled octets answer. Only the answer of a download takes memory.
    fn content(self, op: &Op<Text<A>>, alloc: &A) -> Result<Option<Answer<A>>, AllocError>
        // Witness of answer: the function of `ftp_client_model` that each names.
        ensures answer { IfOk result (λ answer. option_map said_of answer ≡ content_answer op.now (settled_of (flow op.now self))) }
        // Witness of down: as of `judged`.
        ensures down { OnErr result (IsTrue (is_down (flow op.now self))) };

    /// What it answers after a clean end. Only the answer of a download takes memory.
    fn whole(self, op: &Op<Text<A>>, alloc: &A) -> Result<Option<Answer<A>>, AllocError>
        // Witness of answer: the function of `ftp_client_model` that each names.
        ensures answer { IfOk result (λ answer. option_map said_of answer ≡ whole_answer op.now (flow op.now self)) }
        // Witness of down: as of `judged`.
        ensures down { OnErr result (IsTrue (is_down (flow op.now self))) };

    /// What it answers where it was cut. Only the answer of a download takes memory.
    fn cut(self, op: &Op<Text<A>>, alloc: &A) -> Result<Option<Answer<A>>, AllocError>
        // Witness of answer: the function of `ftp_client_model` that each names.
        ensures answer { IfOk result (λ answer. option_map said_of answer ≡ cut_answer op.now (flow op.now self)) }
        // Witness of down: as of `judged`.
        ensures down { OnErr result (IsTrue (is_down (flow op.now self))) };

    /// What came of a download of a file, as its answer would have it where it was cut; of any other transfer nothing. Takes no memory.
    fn came(self, op: &Op<Text<A>>, alloc: &A) -> Text<A>
        // Witness: the function of `ftp_client_model` that each names.
        ensures { result ≡ came_in op.now (flow op.now self) };

    /// Takes octets of a download, and says how many: all, or up to one behind which a Peek has enough. `Err` says behind how many of them
    /// memory was refused; it is of no use any more then. Only a download takes memory.
    fn hear(&mut self, op: &Op<Text<A>>, piece: &[u8]) -> Result<usize, usize>
        // Witness of heard, within, some, refused: an equation for the octets taken, and bounds of the result.
        ensures heard { IfOk result (λ count. flow op.now self.new ≡ heard_all (flow op.now self.old) (take count piece.now)) }
        ensures within { IfOk result (λ count. (count ≤ length piece.now) × NotYet op.now (flow op.now self.old) (take count piece.now)) }
        ensures some { IfOk result (λ count. 0 < length piece.now → 0 < count) }
        ensures refused { IfErr result (λ count. count < length piece.now) }
        // Witness of down: `edits/an_upload_that_hears_is_refused_memory` of `ftp_client_transfer`.
        ensures down { OnErr result (IsTrue (is_down (flow op.now self.old))) };

    /// Gives octets of an upload, and says how many.
    fn give(&mut self, op: &Op<Text<A>>, room: &mut [u8]) -> usize
        // Witness: bounds, and equations.
        ensures within { (result ≤ length room.old) × (result ≤ length (left_of (flow op.now self.old))) }
        ensures gave { take result room.new ≡ take result (left_of (flow op.now self.old)) }
        ensures now { flow op.now self.new ≡ went result (flow op.now self.old) }
        ensures some { 0 < length room.old → 0 < length (left_of (flow op.now self.old)) → 0 < result }

        // It gives all that is left, or fills the room.
        ensures most { result ≡ min (length room.old) (length (left_of (flow op.now self.old))) };
}
