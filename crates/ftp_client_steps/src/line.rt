// What a line comes to.
ghost use Rattle.std.specs.Prelude.{◌≡◌, ◌≤◌, IfOk, IfSome};
ghost use Rattle.ftp_reply.specs.Reader.{line_heard};
ghost use Rattle.ftp_client_steps.specs.Reader.{CountsTexts, ReaderReadsOn, gathered_in, with_line};
ghost use Rattle.ftp_client_steps.specs.Comes.{LineLeads};
ghost use Rattle.ftp_reply.specs.declared.lines.TheConstants.{MAX_OCTETS};

use ftp_reply::{Reader, Reply, ReplyFault};
use std::alloc::{AllocError, Allocator};
use std::mem;

/// What an octet of the control connection comes to.
#[derive(Drop)]
pub enum Spoken<A: Allocator + Copy> {
    /// Nothing yet.
    Nothing,
    /// The answer that Telnet octets are owed.
    Owed([u8; 3]),
    /// The reply that ends with it.
    Reply(Reply<A>),
    /// A line that is too long, or has no place in a reply.
    Misplaced,
}

/// Takes a line without its end. A line that has no place leaves the reader between two replies. `gathered` counts the octets that
/// the texts of the reply that has begun have.
pub(crate) fn take_line<A: Allocator + Copy>(
    reader: &mut Reader<A>,
    gathered: &mut Option<usize>,
    line: &[u8],
    alloc: &A,
) -> Result<Spoken<A>, AllocError>
    requires reading { ReaderReadsOn reader.old }
    requires counted { CountsTexts gathered.old (gathered_in reader.old) }
    ensures reading { ReaderReadsOn reader.new }
    ensures counted { CountsTexts gathered.new (gathered_in reader.new) }
    ensures heard { IfOk result (λ heard. LineLeads (line_heard (gathered_in reader.old) line.now) heard (gathered_in reader.new)) }
{
    let fresh = Reader::new(*alloc);
    let mut taken = mem::replace(reader, fresh);
    let before = gathered.take();
    match taken.line(line) {
        Ok(None) => {
            *reader = taken;
            *gathered = Some(with_line(before, line));
            Ok(Spoken::Nothing)
        }
        Ok(Some(reply)) => {
            *reader = taken;
            Ok(Spoken::Reply(reply))
        }
        Err(ReplyFault::Memory) => Err(AllocError),
        Err(_) => Ok(Spoken::Misplaced),
    }
}

/// How many octets the texts of a reply have with one line more. Of its first line, code and hyphen are no text.
fn with_line(gathered: Option<usize>, line: &[u8]) -> usize
    requires { IfSome gathered (λ count. count ≤ MAX_OCTETS) }
    ensures { result ≡ with_line gathered line.now }
{
    match gathered {
        None => line.len().saturating_sub(4),
        Some(count) => count + line.len(),
    }
}
