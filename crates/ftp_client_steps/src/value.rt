// The values of replies (RFC 959, section 5.4; RFC 3659, sections 3, 4 and 7).
ghost use Rattle.std.specs.Prelude.{◌≡◌, IfOk, List, Some, None, option_map};
ghost use Rattle.ftp_operation.specs.Answer.{said_of, Number, Path, Stamp, Entry as said_entry};
ghost use Rattle.ftp_reply.specs.Lines.{joined};
ghost use Rattle.ftp_reply.specs.Values.{facts_in, path_value};
ghost use Rattle.ftp_facts.specs.Moment.{moment_value};
ghost use Rattle.ftp_facts.specs.Value.{number_value};
ghost use Rattle.ftp_facts.specs.Listed.{entry_value};
ghost use Rattle.ftp_facts.specs.Entry.{listed_of};
ghost use Rattle.ftp_client_model.specs.Dialogue.{answer_in};

use ftp_facts::{Entry, FactFault, Text, read_entry};
use ftp_operation::{Answer, Op};
use ftp_reply::{Lines, Reply, ReplyFault, moment_of, quoted_of, size_of};
use std::alloc::{AllocError, Allocator};

/// What the reply to an operation's own command answers; `None` where it has no value that is asked for.
pub fn answer_in<A: Allocator + Copy>(
    op: &Op<Text<A>>,
    reply: &Reply<A>,
    alloc: &A,
) -> Result<Option<Answer<A>>, AllocError>
    // Witness: equations, of what is answered where memory was not refused.
    ensures { IfOk result (λ answer. option_map said_of answer ≡ answer_in op.now reply.now.lines) }
{
    match op {
        Op::Where => path_answer(reply, alloc),
        Op::MakeDir(_) => path_answer(reply, alloc),
        Op::Size(_, _) => Ok(number_answer(reply)),
        Op::Modified(_) => Ok(stamp_answer(reply)),
        Op::Facts(_) => entry_answer(&reply.lines, alloc),
        _ => Ok(Some(Answer::Done)),
    }
}

/// The path that a reply quotes.
fn path_answer<A: Allocator + Copy>(
    reply: &Reply<A>,
    alloc: &A,
) -> Result<Option<Answer<A>>, AllocError>
    ensures { IfOk result (λ answer. option_map said_of answer ≡ option_map Path (path_value (joined reply.now.lines))) }
{
    match quoted_of(*alloc, reply) {
        Ok(path) => Ok(Some(Answer::Path(Text::copy_of(*alloc, path.as_slice())?))),
        Err(ReplyFault::NoPath) => Ok(None),
        Err(_) => Err(AllocError),
    }
}

/// The number that a reply's text is.
fn number_answer<A: Allocator + Copy>(reply: &Reply<A>) -> Option<Answer<A>>
    ensures { option_map said_of result ≡ option_map Number (number_value (joined reply.now.lines)) }
{
    match size_of(reply) {
        Ok(number) => Some(Answer::Number(number)),
        Err(_) => None,
    }
}

/// The moment that a reply's text is.
fn stamp_answer<A: Allocator + Copy>(reply: &Reply<A>) -> Option<Answer<A>>
    ensures { option_map said_of result ≡ option_map Stamp (moment_value (joined reply.now.lines)) }
{
    match moment_of(reply) {
        Ok(moment) => Some(Answer::Stamp(moment)),
        Err(_) => None,
    }
}

/// The entry in a reply to MLST: the line behind the first, behind one SP, and never the last (RFC 3659, section 7.2).
fn entry_answer<A: Allocator + Copy>(
    lines: &Lines<A>,
    alloc: &A,
) -> Result<Option<Answer<A>>, AllocError>
    ensures { IfOk result (λ answer. option_map said_of answer ≡ option_map said_entry (facts_in lines.now)) }
{
    if lines.len() < 3 {
        return Ok(None);
    }
    let Some(line) = lines.get(1) else {
        return Ok(None);
    };
    match line {
        [b' ', text @ ..] => match entry_in(text, alloc)? {
            Some(entry) => Ok(Some(Answer::Entry(entry))),
            None => Ok(None),
        },
        _ => Ok(None),
    }
}

/// The entry that a line says, if it says one (RFC 3659, section 7.2).
#[tactic(auto, using(crate::proofs::EntryLemmas::says_none))]
pub fn entry_in<A: Allocator + Copy>(line: &[u8], alloc: &A) -> Result<Option<Entry<A>>, AllocError>
    // Witness: equations, of what is answered where memory was not refused.
    ensures { IfOk result (λ entry. option_map listed_of entry ≡ entry_value line.now) }
{
    match read_entry(*alloc, line) {
        Ok(entry) => Ok(Some(entry)),
        Err(FactFault::Memory) => Err(AllocError),
        Err(FactFault::NoSpace) => Ok(None),
        Err(FactFault::BadFact) => Ok(None),
        Err(FactFault::BadMoment) => Ok(None),
        Err(FactFault::BadName) => Ok(None),
    }
}
