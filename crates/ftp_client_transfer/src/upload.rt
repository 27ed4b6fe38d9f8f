// An upload: the octets of an operation, as its data connection carries them (RFC 959, section 3).
ghost use Rattle.std.specs.Prelude.{◌≡◌, ◌<◌, ◌≤◌, IfOk, drop, length, min, take};
ghost use Rattle.ftp_client_model.specs.Dialogue.{is_given};
ghost use Rattle.ftp_client_model.specs.Octets.{upload_flow};
ghost use Rattle.ftp_client_transfer.specs.Octets.{octets_of};

use ftp_facts::Text;
use ftp_operation::{How, Op};
use ftp_wire::Encoder;
use std::alloc::{AllocError, Allocator};

/// An upload. It holds no octet of the file but those in one block: they are the operation's.
#[derive(Drop)]
pub struct Upload {
    pub(crate) encoder: Encoder,
    /// The place in the operation's octets of the next one that is encoded.
    pub(crate) at: usize,
    /// The mmmm of the last 110 reply.
    pub(crate) mark: Option<u64>,
}

impl Upload {
    ghost use Rattle.ftp_client_transfer.specs.Flow.{left_in, flow_of_upload};

    /// An upload of these octets, whose own markers count from `start`. Markers that would count past what can be said are want of
    /// memory.
    #[tactic(auto, using(crate::proofs::UploadLemmas::written_if))]
    pub(crate) fn new(how: How, start: u64, octets: &[u8]) -> Result<Upload, AllocError>
        ensures { IfOk result (λ upload. flow_of_upload octets.now upload ≡ upload_flow how start octets.now) }
    {
        if start > u64::MAX - octets.len() as u64 {
            return Err(AllocError);
        }
        let encoder = if how.marks {
            Encoder::marked(how.representation, start)
        } else {
            Encoder::new(how.representation)
        };
        Ok(Upload {
            encoder,
            at: 0,
            mark: None,
        })
    }

    /// Whether all octets are out.
    pub(crate) fn is_given<A: Allocator + Copy>(&self, op: &Op<Text<A>>) -> bool
        ensures { result ≡ is_given (flow_of_upload (octets_of op.now) self.now) }
    {
        self.encoder.is_out(octets_of(op).len() <= self.at)
    }

    /// Gives octets, and says how many.
    pub(crate) fn give<A: Allocator + Copy>(&mut self, op: &Op<Text<A>>, room: &mut [u8]) -> usize
        ensures within { (result ≤ length room.old) × (result ≤ length (left_in (octets_of op.now) self.old)) }
        ensures gave { take result room.new ≡ take result (left_in (octets_of op.now) self.old) }
        ensures now { left_in (octets_of op.now) self.new ≡ drop result (left_in (octets_of op.now) self.old) }
        ensures mark { self.new.mark ≡ self.old.mark }
        ensures some { 0 < length room.old → 0 < length (left_in (octets_of op.now) self.old) → 0 < result }
        ensures most { result ≡ min (length room.old) (length (left_in (octets_of op.now) self.old)) }
    {
        let rest = behind(octets_of(op), self.at);
        let encoded = self.encoder.put(rest, true, room);
        self.at += encoded.taken;
        encoded.made
    }
}

/// The octets of an upload; none of another operation.
pub(crate) fn octets_of<A: Allocator + Copy>(op: &Op<Text<A>>) -> &[u8]
    ensures { result.now ≡ octets_of op.now }
{
    match op {
        Op::Put(_, octets, _) | Op::Append(_, octets, _) | Op::PutFrom(_, _, octets, _) =>
            octets.as_slice(),
        _ => &[],
    }
}

/// The octets from a place on; none behind the last.
fn behind(octets: &[u8], at: usize) -> &[u8]
    ensures { result.now ≡ drop at octets.now }
{
    if at >= octets.len() {
        return &[];
    }
    let (_, rest) = octets.split_at(at);
    rest
}
