// A listing that was asked for, of what may be a file.
ghost use Rattle.std.specs.Prelude.{◌≡◌};
ghost use Rattle.ftp_path.specs.Path.{IsPathText};
ghost use Rattle.tool_job.specs.single.Looking.{is_file, is_file_kind, may_be_file, means_no_directory, says_more, settles};

use ftp_facts::{Entry, EntryKind, Text};
use ftp_operation::Answer;
use ftp_path::is_path_text;
use ftp_reply::code::{BAD_ARGUMENT, UNAVAILABLE};
use std::alloc::{AllocError, Global};

/// Whether a file may stand at a path of which the entries were asked for, and this was answered.
pub(crate) fn may_be_file(answer: &Answer<Global>) -> bool
    // Witness: an equation; `edits/a_listing_with_entries_may_be_of_a_file`.
    ensures { result ≡ may_be_file answer.now }
{
    match answer {
        Answer::Refused(code) => means_no_directory(*code),
        Answer::Entries(entries) => entries.is_empty(),
        _ => false,
    }
}

/// Whether a server says by it that no directory stands at a path (RFC 3659, section 7.2.1; RFC 959, section 4.2.2).
fn means_no_directory(code: u16) -> bool
    ensures { result ≡ means_no_directory code }
{
    code == BAD_ARGUMENT || code == UNAVAILABLE
}

/// Whether the facts that were asked for then are the answer, and not the listing, which was refused, or has no entries.
pub(crate) fn settles(is_refused: bool, facts: &Answer<Global>) -> bool
    // Witness: an equation; `edits/the_facts_of_a_directory_are_its_listing`.
    ensures { result ≡ settles is_refused facts.now }
{
    is_file(facts) || (is_refused && says_more(facts))
}

/// Whether they are those of a file.
fn is_file(facts: &Answer<Global>) -> bool
    ensures { result ≡ is_file facts.now }
{
    match facts {
        Answer::Entry(entry) => is_file_kind(&entry.kind),
        _ => false,
    }
}

/// Whether this is the type of a file (RFC 3659, section 7.5.1).
fn is_file_kind(kind: &Option<EntryKind<Global>>) -> bool
    ensures { result ≡ is_file_kind kind.now }
{
    match kind {
        Some(EntryKind::File) => true,
        _ => false,
    }
}

/// Whether the answer says more of why a listing is refused than its refusal.
fn says_more(facts: &Answer<Global>) -> bool
    ensures { result ≡ says_more facts.now }
{
    match facts {
        Answer::Refused(code) => *code == UNAVAILABLE,
        Answer::Lost | Answer::Memory => true,
        _ => false,
    }
}

/// The facts of a file as a listing of it alone, by this name, where that may be one; none of another answer. A server names a file by its path (RFC 3659,
/// section 7.2). Fails where memory is refused.
pub(crate) fn listing_of_file(
    alloc: Global,
    name: &str,
    answer: &Answer<Global>,
) -> Result<Option<Answer<Global>>, AllocError> {
    match answer {
        Answer::Entry(entry) if is_path_text(name.as_bytes()) => {
            let mut entries = Vec::new(alloc);
            entries.push(named(alloc, name.as_bytes(), entry)?)?;
            Ok(Some(Answer::Entries(entries)))
        }
        _ => Ok(None),
    }
}

/// The entry of a file, by another name.
fn named(alloc: Global, name: &[u8], entry: &Entry<Global>) -> Result<Entry<Global>, AllocError>
    requires { IsPathText name.now }
{
    let name = Text::copy_of(alloc, name)?;
    let perm = match &entry.perm {
        Some(perm) => Some(Text::copy_of(alloc, perm.as_slice())?),
        None => None,
    };
    Ok(Entry {
        name,
        kind: Some(EntryKind::File),
        size: entry.size,
        modify: entry.modify,
        perm,
    })
}
