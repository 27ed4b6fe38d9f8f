// An upload whose octets are read of a source as they go.
ghost use Rattle.std.specs.Prelude.{◌≡◌, ◌+◌, ◌≤◌, ◌<◌, ℕ, List, [], IfOk, IsTrue, OnErr, OnOk, drop, false, length, take, true, vec_len};
ghost use Rattle.std.specs.Io.KnownBytes.{Keeps};
ghost use Rattle.ftp_wire.specs.Encoding.{still_to_give};
ghost use Rattle.ftp_client_stream.specs.Text.{CanBeMarked, text_of};

use crate::source::{Source, Unread};
use ftp_settings::Representation;
use ftp_wire::Encoder;
use std::alloc::{AllocError, Allocator};
use std::io;
use std::io::{Error, ErrorKind, Write};

/// How many octets are read of a source at once, and how many of the wire are made at once.
const PIECE: usize = 65_536;

/// An upload whose octets are read of a source as they go (RFC 959, sections 3.1 to 3.5). It holds at most one piece of them, and their wire.
#[derive(Drop)]
pub struct SourceTransfer<D: Drop, A: Allocator> {
    encoder: Encoder,
    source: D,
    /// Octets that were read: those up to `end`, from `at` on, are not encoded yet.
    piece: Vec<u8, A>,
    at: usize,
    end: usize,
    /// Whether the source gave its last.
    is_last: bool,
    /// Octets of the wire: those up to `made`, from `sent` on, did not go yet.
    wire: Vec<u8, A>,
    sent: usize,
    made: usize,
    ghost read: { at ≤ end },
    ghost within: { end ≤ vec_len piece },
    ghost some: { 0 < vec_len piece },
    ghost gone: { sent ≤ made },
    ghost room: { made ≤ vec_len wire },
    ghost last: { is_last ≡ true → at ≡ end },
}

impl<D: Source, A: Allocator + Copy> SourceTransfer<D, A> {
    ghost use Rattle.ftp_client_stream.specs.SourceTransfer.{Reads, SendsFront, Stays, left_to_go, unsent};

    /// An upload of what a source gives, in these settings; with own markers where `start` says from where on they count.
    pub fn new(
        settings: Representation,
        start: Option<u64>,
        source: D,
        alloc: A,
    ) -> Result<SourceTransfer<D, A>, AllocError>
        // Witness: equations; `edits/an_upload_has_no_markers`.
        ensures text { IfOk result (λ source_transfer. (file : List ℕ) → CanBeMarked start file → left_to_go source_transfer file ≡ text_of start settings file) }
        ensures source { IfOk result (λ source_transfer. source_transfer.source ≡ source) }
        ensures going { IfOk result (λ source_transfer. source_transfer.is_last ≡ false) }
    {
        let piece = Vec::from_elem(alloc, 0, PIECE)?;
        let wire = Vec::from_elem(alloc, 0, PIECE)?;
        Ok(SourceTransfer::with_room(encoder_of(settings, start), source, piece, wire))
    }

    /// An upload by this encoder, of which nothing was read yet.
    fn with_room(
        encoder: Encoder,
        source: D,
        piece: Vec<u8, A>,
        wire: Vec<u8, A>,
    ) -> SourceTransfer<D, A>
        requires { 0 < vec_len piece }
        ensures text { (file : List ℕ) → left_to_go result file ≡ still_to_give encoder file }
        ensures source { result.source ≡ source }
        ensures going { result.is_last ≡ false }
    {
        SourceTransfer {
            encoder,
            source,
            piece,
            at: 0,
            end: 0,
            is_last: false,
            wire,
            sent: 0,
            made: 0,
        }
    }

    /// Octets of the wire that are to go next.
    pub fn unsent(&self) -> &[u8]
        ensures { result.now ≡ unsent self.now }
    {
        between(self.wire.as_slice(), self.sent, self.made)
    }

    /// Whether all that was made went.
    pub fn is_sent(&self) -> bool
        // Witness: what is so where it says yes.
        ensures { IsTrue result → self.now.sent ≡ self.now.made }
    {
        self.sent == self.made
    }

    /// Whether the last octet of the wire went.
    #[tactic(auto, using(crate::proofs::SourceTransferLemmas::over))]
    pub fn is_over(&self) -> bool
        // Witness: what is so where it says yes; that no upload ends too late is said by none.
        ensures none { IsTrue result → left_to_go self.now [] ≡ [] }
        ensures last { IsTrue result → IsTrue self.now.is_last }
    {
        if !self.is_last || !self.is_sent() {
            return false;
        }
        self.encoder.is_out(true)
    }

    /// Reads the next octets of the source where none is at hand, and makes their wire; not before all that was made went.
    pub fn fill(&mut self) -> Result<(), Unread>
        // Witness: equations of what is still to go, whatever comes; `edits/what_was_read_goes_twice`, `an_upload_ends_before_its_source`.
        ensures ok { OnOk result (Reads D.gave D.left self.old self.new) }
        ensures err { OnErr result (Stays D.gave self.old self.new) }
    {
        if !self.is_sent() {
            return Ok(());
        }
        if self.at == self.end && !self.is_last {
            self.draw()?;
        }
        self.encode();
        Ok(())
    }

    /// Makes the wire of octets that were read, as far as there is room for it.
    fn encode(&mut self)
        requires sent { self.old.sent ≡ self.old.made }
        ensures source { self.new.source ≡ self.old.source }
        ensures last { self.new.is_last ≡ self.old.is_last }
        ensures text { (more : List ℕ) → (IsTrue self.old.is_last → more ≡ []) → left_to_go self.new more ≡ left_to_go self.old more }
    {
        let rest = between(self.piece.as_slice(), self.at, self.end);
        let encoded = self
            .encoder
            .put(rest, self.is_last, self.wire.as_mut_slice());
        self.at += encoded.taken;
        self.sent = 0;
        self.made = encoded.made;
    }

    /// Reads the next octets of the source.
    fn draw(&mut self) -> Result<(), Unread>
        requires none { self.old.at ≡ self.old.end }
        requires sent { self.old.sent ≡ self.old.made }
        ensures ok { OnOk result (Reads D.gave D.left self.old self.new) }
        ensures err { OnErr result (Stays D.gave self.old self.new) }
        ensures same { self.new.sent ≡ self.new.made }
    {
        match self.source.draw(self.piece.as_mut_slice()) {
            Ok(count) => {
                self.at = 0;
                self.end = count;
                self.is_last = count == 0;
                Ok(())
            }
            Err(Unread) => Err(Unread),
        }
    }

    /// One write of octets that are to go, where there are some.
    pub fn send<L: Write>(&mut self, link: &mut L) -> io::Result<()>
        // Witness: equations of what went; `edits/what_did_not_go_counts_as_gone`.
        ensures ok { OnOk result (SendsFront (L.contents link.old) (L.contents link.new) self.old self.new) }
        ensures err { OnErr result (Keeps (L.contents link.old) (L.contents link.new)) }
        ensures same { OnErr result (self.new ≡ self.old) }
    {
        if self.is_sent() {
            return Ok(());
        }
        let count = link.write(self.unsent())?;
        if count == 0 {
            return Err(Error::from(ErrorKind::WriteZero));
        }
        self.sent += count;
        Ok(())
    }

    /// Gives the source back.
    pub fn into_source(self) -> D
        ensures { result ≡ self.source }
    {
        self.source
    }
}

/// The wire of a file in these settings.
fn encoder_of(settings: Representation, start: Option<u64>) -> Encoder
    ensures { (file : List ℕ) → CanBeMarked start file → still_to_give result file ≡ text_of start settings file }
{
    match start {
        Some(start) => Encoder::marked(settings, start),
        None => Encoder::new(settings),
    }
}

/// The octets from one place to another.
fn between(octets: &[u8], from: usize, to: usize) -> &[u8]
    requires order { from ≤ to }
    requires within { to ≤ length octets.now }
    ensures octets { result.now ≡ drop from (take to octets.now) }
    ensures count { from + length result.now ≡ to }
{
    let (front, _) = octets.split_at(to);
    let (_, between) = front.split_at(from);
    between
}
