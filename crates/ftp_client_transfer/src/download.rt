// A download: the file that the octets of a data connection say (RFC 959, section 3).
ghost use Rattle.std.specs.Prelude.{◌≡◌, ◌<◌, ◌≤◌, IfErr, IfOk, length, take};
ghost use Rattle.ftp_client_model.specs.Octets.{download_flow};
ghost use Rattle.std.specs.Option.{option_or};
ghost use Rattle.ftp_facts.specs.Value.{number_value};
ghost use Rattle.ftp_client_steps.specs.Hearing.{heard_all};
ghost use Rattle.ftp_client_transfer.specs.Heard.{goes_on};

use ftp_endpoint::number;
use ftp_settings::Representation;
use ftp_wire::{Decoded, Decoder};
use std::alloc::{AllocError, Allocator};

/// A download: what was settled of the file.
#[derive(Drop)]
pub struct Download<A: Allocator + Copy> {
    pub(crate) decoder: Decoder<Vec<u8, A>>,
    /// The last restart marker that is a number.
    pub(crate) mark: Option<u64>,
}

impl<A: Allocator + Copy> Download<A> {
    ghost use Rattle.ftp_client_transfer.specs.Flow.{flow_of_download};

    /// A download in these settings, before its first octet.
    pub(crate) fn new(settings: Representation, alloc: A) -> Download<A>
        ensures { flow_of_download result ≡ download_flow settings }
    {
        Download {
            decoder: Decoder::new(settings, Vec::new(alloc)),
            mark: None,
        }
    }

    /// Takes octets, and says how many. `Err` says behind how many of them memory was refused.
    pub(crate) fn hear(&mut self, piece: &[u8]) -> Result<usize, usize>
        ensures heard { IfOk result (λ count. flow_of_download self.new ≡ heard_all (flow_of_download self.old) (take count piece.now)) }
        ensures within { IfOk result (λ count. count ≤ length piece.now) }
        ensures some { IfOk result (λ count. 0 < length piece.now → 0 < count) }
        ensures refused { IfErr result (λ count. count < length piece.now) }
    {
        if piece.is_empty() {
            return Ok(0);
        }
        let taken = self.decoder.hear(piece, u64::MAX);
        if !goes_on(taken.heard) {
            return Err(taken.count - 1);
        }
        if taken.mark.is_some() {
            self.note();
        }
        Ok(taken.count)
    }

    /// The restart marker that came last is noted, if it is a number (own choice).
    fn note(&mut self)
        ensures mark { self.new.mark ≡ option_or (number_value self.old.decoder.marker) self.old.mark }
        ensures decoder { self.new.decoder ≡ self.old.decoder }
    {
        if let Some(mark) = number_in(self.decoder.marker()) {
            self.mark = Some(mark);
        }
    }
}

/// The number that a text is: 1 to 18 digits.
#[tactic(auto, using(ftp_facts::proofs::NumberLemmas::no_number))]
fn number_in(text: &[u8]) -> Option<u64>
    ensures { result ≡ number_value text.now }
{
    match number(text) {
        Some(value) => Some(value),
        None => None,
    }
}

/// Whether more octets may follow: behind a fault they change nothing.
fn goes_on(heard: Decoded) -> bool
    ensures { result ≡ goes_on heard }
{
    match heard {
        Decoded::More | Decoded::Faulty(_) => true,
        Decoded::Over | Decoded::NoMemory => false,
    }
}
