// What the octets of a download answer (RFC 959, section 4.1.3; RFC 3659, section 7).
ghost use Rattle.std.specs.Prelude.{◌≡◌, ◌≤◌, [], IfOk, Some, length, option_map, take};
ghost use Rattle.ftp_operation.specs.Answer.{Entries, Names, said_of};
ghost use Rattle.ftp_facts.specs.Listing.{entries_value, names_value};
ghost use Rattle.ftp_client_model.specs.Octets.{content_answer};
ghost use Rattle.ftp_client_transfer.specs.Octets.{cut_octets};

use crate::listing::{entries_in, names_in};
use ftp_facts::Text;
use ftp_operation::{Answer, Op};
use std::alloc::{AllocError, Allocator};

/// What the octets of a whole download answer; `None` where a line of a listing says nothing. Those of a file, or of a listing as text, go into the
/// answer themselves, and none is copied.
pub(crate) fn content_in<A: Allocator + Copy>(
    op: &Op<Text<A>>,
    octets: Vec<u8, A>,
    alloc: &A,
) -> Result<Option<Answer<A>>, AllocError>
    ensures { IfOk result (λ answer. option_map said_of answer ≡ content_answer op.now octets.items) }
{
    match op {
        Op::List(_, _) => entries_answer(octets.as_slice(), alloc),
        Op::Names(_, _) => names_answer(octets.as_slice(), alloc),
        Op::Peek(_, count, _) => Ok(Some(Answer::Octets(first(octets, *count)))),
        _ => Ok(Some(Answer::Octets(Text::from_vec(octets)))),
    }
}

/// The octets that came of a download that is cut, where it is of a file; of a Peek no more than it asked for. None is copied.
pub(crate) fn came_in<A: Allocator + Copy>(
    op: &Op<Text<A>>,
    octets: Vec<u8, A>,
    alloc: &A,
) -> Text<A>
    ensures { result ≡ cut_octets op.now octets.items }
{
    match op {
        Op::Get(_, _) | Op::GetFrom(_, _, _) => Text::from_vec(octets),
        Op::Peek(_, count, _) => first(octets, *count),
        _ => Text::from_vec(Vec::new(*alloc)),
    }
}

/// What no octets answer. It takes no memory.
pub(crate) fn nothing_in<A: Allocator + Copy>(op: &Op<Text<A>>, alloc: &A) -> Answer<A>
    ensures { Some (said_of result) ≡ content_answer op.now [] }
{
    match op {
        Op::List(_, _) => Answer::Entries(Vec::new(*alloc)),
        Op::Names(_, _) => Answer::Names(Vec::new(*alloc)),
        _ => Answer::Octets(Text::from_vec(Vec::new(*alloc))),
    }
}

/// The entries of a machine listing.
fn entries_answer<A: Allocator + Copy>(
    octets: &[u8],
    alloc: &A,
) -> Result<Option<Answer<A>>, AllocError>
    ensures { IfOk result (λ answer. option_map said_of answer ≡ option_map Entries (entries_value octets.now)) }
{
    match entries_in(octets, alloc)? {
        Some(entries) => Ok(Some(Answer::Entries(entries))),
        None => Ok(None),
    }
}

/// The pathnames of a listing of names.
fn names_answer<A: Allocator + Copy>(
    octets: &[u8],
    alloc: &A,
) -> Result<Option<Answer<A>>, AllocError>
    ensures { IfOk result (λ answer. option_map said_of answer ≡ option_map Names (names_value octets.now)) }
{
    match names_in(octets, alloc)? {
        Some(names) => Ok(Some(Answer::Names(names))),
        None => Ok(None),
    }
}

/// A copy of octets.
pub(crate) fn copy_of<A: Allocator + Copy>(octets: &[u8], alloc: &A) -> Result<Text<A>, AllocError>
    ensures { IfOk result (λ text. text ≡ octets.now) }
{
    Text::copy_of(*alloc, octets)
}

/// The first octets, so many if there are so many.
fn first<A: Allocator + Copy>(octets: Vec<u8, A>, count: u64) -> Text<A>
    ensures { result ≡ take count octets.items }
{
    let mut front = octets;
    if count < front.len() as u64 {
        front.truncate(count as usize);
    }
    Text::from_vec(front)
}
