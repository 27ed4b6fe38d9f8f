// A download whose octets go to a sink as they come.
ghost use Rattle.std.specs.Prelude.{◌≡◌, ◌<◌, ◌≤◌, IsTrue, OnErr, OnOk, length};
ghost use Rattle.ftp_wire.specs.Decoder.{decoded, ended, is_whole, no_octets};
ghost use Rattle.ftp_client_stream.specs.SinkTransfer.{goes_on};

use ftp_settings::Representation;
use ftp_wire::{Decoded, Decoder, Encoder, Sink};
use std::alloc::AllocError;

/// A download whose octets go to a sink as they come (RFC 959, sections 3.1 to 3.5). It holds none of them.
#[derive(Drop)]
pub struct SinkTransfer<S: Sink> {
    pub(crate) decoder: Decoder<S>,
    /// An empty file in the same settings, which whoever waits for the file is given in its place.
    pub(crate) blank: Encoder,
}

impl<S: Sink> SinkTransfer<S> {
    /// A download in these settings, before its first octet; its file goes behind what the sink has.
    pub fn new(settings: Representation, sink: S) -> SinkTransfer<S>
        ensures { result.decoder.decoder ≡ record (no_octets settings) { content = S.octets sink } }
    {
        SinkTransfer {
            decoder: Decoder::new(settings, sink),
            blank: Encoder::new(settings),
        }
    }

    /// Takes octets of the data connection, all of them, and says whether the sink took what they say. One that refused some is to be given no more.
    pub fn hear(&mut self, piece: &[u8]) -> bool
        // Witness: an equation where the sink took all; `edits/a_sink_that_refuses_is_not_told`, `a_piece_is_poured_twice`.
        ensures { IsTrue result → self.new.decoder.decoder ≡ decoded self.old.decoder.decoder piece.now }
    {
        let mut rest = piece;
        while !rest.is_empty() {
            let taken = self.decoder.hear(rest, u64::MAX);
            if !goes_on(taken.heard) {
                return false;
            }
            let (_, behind) = rest.split_at(taken.count);
            rest = behind;
        }
        true
    }

    /// Whether a clean end of the data connection leaves a whole file (RFC 959, section 3.4).
    pub fn is_whole(&self) -> bool
        ensures { result ≡ is_whole self.now.decoder.decoder }
    {
        self.decoder.is_whole()
    }

    /// The clean end of a file that is whole: an unpaired CR goes to the sink too. Where that refuses it, all is as before.
    pub fn end(&mut self) -> Result<(), AllocError>
        ensures ok { OnOk result (self.new.decoder.decoder ≡ ended self.old.decoder.decoder) }
        ensures err { OnErr result (self.new ≡ self.old) }
    {
        self.decoder.end()
    }

    /// What whoever waits for the file is given at its end, an octet of an empty file after the other: nothing of one that is not whole. Says how many.
    pub fn rest(&mut self, room: &mut [u8]) -> usize
        // Witness: a bound, octets after a whole file alone, and that nothing of the download changes.
        ensures within { result ≤ length room.new }
        ensures whole { 0 < result → IsTrue (is_whole self.old.decoder.decoder) }
        ensures decoder { self.new.decoder ≡ self.old.decoder }
    {
        if !self.is_whole() {
            return 0;
        }
        self.blank.put(&[], true, room).made
    }

    /// Gives the sink back.
    pub fn into_sink(self) -> S
        ensures { S.octets result ≡ self.decoder.decoder.content }
    {
        self.decoder.into_sink()
    }
}

/// Whether more octets may follow: behind a fault they change nothing.
fn goes_on(heard: Decoded) -> bool
    ensures { result ≡ goes_on heard }
{
    match heard {
        Decoded::More | Decoded::Faulty(_) => true,
        Decoded::Over | Decoded::NoMemory => false,
    }
}
