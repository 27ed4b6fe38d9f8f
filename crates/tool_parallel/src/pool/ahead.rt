// What is prefetched, how it is known again, and which of its answers is given.
ghost use Rattle.std.specs.Prelude.{◌≡◌, ◌≢◌, IfOk, IsFalse, IsTrue, Some};
ghost use Rattle.std.specs.Option.{option_map};
ghost use Rattle.tool_parallel.specs.pool.Ahead.{asked_ahead, changes_none, is_fact, leaves_all, moves_file, wants_login, wants_login_of};
ghost use Rattle.tool_parallel.specs.pool.Ahead.{is_done, is_for, is_given, is_removed, is_told, says_none};

use ftp_facts::Text;
use ftp_operation::{Answer, Op};
use ftp_reply::code::{NOT_IMPLEMENTED, UNAVAILABLE, UNKNOWN};
use std::alloc::{AllocError, Global};
use tool_session::{DataEnding, Request, StreamBody, Ticket};

/// What can be prefetched of a path.
#[derive(Clone, Copy)]
pub(crate) enum PrefetchKind {
    Download,
    Upload,
    Listing,
    Removal,
    Size,
    Moment,
}

/// By which a request is known again: what it asks, and of which path.
pub(crate) struct RequestKey {
    kind: PrefetchKind,
    path: Text<Global>,
}

/// By hand: a derived drop is proved again, part by part, wherever a key is let go.
impl Drop for RequestKey {
    fn drop(self) {
        let Self { kind: _, path: _ } = self;
    }
}

/// What was answered ahead of its turn.
pub(crate) struct PrefetchedAnswer {
    pub(crate) answer: Answer<Global>,
    /// How its data connection ended.
    pub(crate) ending: DataEnding,
    /// How many data connections were opened for it.
    pub(crate) opened: u32,
    /// What went over its data connection.
    pub(crate) stream_body: StreamBody,
}

/// By hand: a derived drop is proved again, part by part, wherever one is let go.
impl Drop for PrefetchedAnswer {
    fn drop(self) {
        let Self {
            answer: _,
            ending: _,
            opened: _,
            stream_body: _,
        } = self;
    }
}

impl RequestKey {
    /// That of a request; none where it is never prefetched. Fails where memory is refused.
    pub(crate) fn of(alloc: Global, request: &Request) -> Result<Option<RequestKey>, AllocError>
        // Witness: `edits/nothing_is_ever_prefetched`.
        ensures { IfOk result (λ found. option_map (λ key. (key.kind, key.path)) found ≡ asked_ahead request.now) }
    {
        let Some((kind, path)) = parts_of(request) else {
            return Ok(None);
        };
        let path = Text::copy_of(alloc, path)?;
        Ok(Some(RequestKey { kind, path }))
    }

    /// What is asked.
    pub(crate) fn kind(&self) -> PrefetchKind
        ensures { result ≡ self.now.kind }
    {
        self.kind
    }

    /// Whether this asks something of the same path.
    pub(crate) fn is_at(&self, request: &Request) -> bool
        // Witness of yes: `edits/a_path_below_is_the_same_path`.
        ensures yes { IsTrue result → option_map (λ asked. asked.1) (asked_ahead request.now) ≡ Some self.now.path }
        // Witness of no: `edits/a_path_is_prefetched_twice`.
        ensures no { IsFalse result → option_map (λ asked. asked.1) (asked_ahead request.now) ≢ Some self.now.path }
    {
        match parts_of(request) {
            Some((_, path)) => path == self.path.as_slice(),
            None => false,
        }
    }

    /// Whether this asks for the same.
    pub(crate) fn is_of(&self, request: &Request) -> bool
        // Witness of yes: `edits/a_size_is_the_answer_to_a_removal`.
        ensures yes { IsTrue result → asked_ahead request.now ≡ Some (self.now.kind, self.now.path) }
        // Witness of no: `edits/nothing_that_was_prefetched_is_given`.
        ensures no { IsFalse result → asked_ahead request.now ≢ Some (self.now.kind, self.now.path) }
    {
        match parts_of(request) {
            Some((kind, path)) => is_same(kind, self.kind) && path == self.path.as_slice(),
            None => false,
        }
    }
}

/// Whether both are the same.
fn is_same(one: PrefetchKind, other: PrefetchKind) -> bool
    // Witness of yes: `edits/a_download_is_an_upload`.
    ensures yes { IsTrue result → one ≡ other }
    // Witness of no: `edits/no_moment_is_that_of_the_same_file`.
    ensures no { IsFalse result → one ≢ other }
{
    match (one, other) {
        (PrefetchKind::Download, PrefetchKind::Download)
        | (PrefetchKind::Upload, PrefetchKind::Upload) => true,
        (PrefetchKind::Listing, PrefetchKind::Listing)
        | (PrefetchKind::Removal, PrefetchKind::Removal) => true,
        (PrefetchKind::Size, PrefetchKind::Size) | (PrefetchKind::Moment, PrefetchKind::Moment) =>
            true,
        _ => false,
    }
}

/// What a request asks of which path: of a download all of the file.
fn parts_of(request: &Request) -> Option<(PrefetchKind, &[u8])>
    ensures { option_map (λ parts. (parts.0, parts.1.now)) result ≡ asked_ahead request.now }
{
    match request {
        Request::One(Some(Op::List(path, _))) => Some((PrefetchKind::Listing, path.as_slice())),
        Request::One(Some(Op::Text(_, path, _))) => Some((PrefetchKind::Listing, path.as_slice())),
        Request::One(Some(Op::Delete(path))) => Some((PrefetchKind::Removal, path.as_slice())),
        Request::One(Some(Op::Size(path, _))) => Some((PrefetchKind::Size, path.as_slice())),
        Request::One(Some(Op::Modified(path))) => Some((PrefetchKind::Moment, path.as_slice())),
        Request::Download(Some(Op::Get(path, _)), _) => Some((
            PrefetchKind::Download,
            path.as_slice(),
        )),
        Request::Upload(Some((path, _)), _) => Some((PrefetchKind::Upload, path.as_slice())),
        Request::Drawn(Some(Op::Put(path, _, _)), _) => Some((
            PrefetchKind::Upload,
            path.as_slice(),
        )),
        _ => None,
    }
}

/// Whether what was prefetched by this ticket, or by none, is the answer to what is asked by one or none: what went over its data connection is of whoever has
/// its ticket, and of nobody else.
pub(crate) fn is_for(held: Option<Ticket>, asked: Option<Ticket>) -> bool
    // Witness: an equation; `edits/any_ticket_has_the_answer`.
    ensures { result ≡ is_for held asked }
{
    match (held, asked) {
        (Some(held), Some(asked)) => held.number == asked.number,
        (None, None) => true,
        _ => false,
    }
}

/// Whether this is a fact of a file, which a reply alone tells.
pub(crate) fn is_fact(kind: PrefetchKind) -> bool
    // Witness: an equation; `edits/a_moment_is_no_fact`.
    ensures { result ≡ is_fact kind }
{
    matches!(kind, PrefetchKind::Size | PrefetchKind::Moment)
}

/// Whether octets of a file go over its data connection.
pub(crate) fn moves_file(kind: PrefetchKind) -> bool
    // Witness: an equation; `edits/no_octet_of_an_upload_is_carried`.
    ensures { result ≡ moves_file kind }
{
    matches!(kind, PrefetchKind::Download | PrefetchKind::Upload)
}

/// Whether a request that is asked in its turn leaves the files of the server as they are. Of what is never prefetched that is known of a download alone.
pub(crate) fn changes_none(request: &Request) -> bool
    // Witness: an equation; `edits/an_operation_of_any_kind_changes_no_file`.
    ensures { result ≡ changes_none (asked_ahead request.now) request.now }
{
    match parts_of(request) {
        Some((kind, _)) => leaves_all(kind),
        None => matches!(request, Request::Download(_, _)),
    }
}

/// Whether this leaves the files of the server as they are.
fn leaves_all(kind: PrefetchKind) -> bool
    // Witness: an equation; `edits/a_removal_leaves_all_files`.
    ensures { result ≡ leaves_all kind }
{
    !matches!(kind, PrefetchKind::Upload | PrefetchKind::Removal)
}

/// Whether a request is prefetched only over a control connection whose login was accepted.
pub(crate) fn wants_login_of(request: &Request) -> bool
    ensures { result ≡ wants_login_of (asked_ahead request.now) }
{
    match parts_of(request) {
        Some((kind, _)) => wants_login(kind),
        None => false,
    }
}

/// The same of what is asked.
fn wants_login(kind: PrefetchKind) -> bool
    // Witness: an equation; `edits/a_removal_is_prefetched_without_a_login`.
    ensures { result ≡ wants_login kind }
{
    matches!(kind, PrefetchKind::Removal)
}

/// Whether an answer that came ahead is given: another one is asked for once more in its turn, so that what is told of it is of that.
pub(crate) fn is_given(kind: PrefetchKind, answer: &Answer<Global>) -> bool
    // Witness: an equation; `edits/a_removal_that_was_lost_is_asked_again`.
    ensures { result ≡ is_given kind answer.now }
{
    match kind {
        PrefetchKind::Size | PrefetchKind::Moment => is_told(answer),
        PrefetchKind::Removal => is_removed(answer),
        PrefetchKind::Download | PrefetchKind::Upload | PrefetchKind::Listing => is_done(answer),
    }
}

/// Whether the answer to a removal is given: it is done, or its control connection ended, and then it may be done.
fn is_removed(answer: &Answer<Global>) -> bool
    ensures { result ≡ is_removed answer.now }
{
    matches!(answer, Answer::Done | Answer::Lost)
}

/// Whether the answer to the question for a fact is given: the fact, or that there is none.
fn is_told(answer: &Answer<Global>) -> bool
    ensures { result ≡ is_told answer.now }
{
    match answer {
        Answer::Number(_) | Answer::Stamp(_) => true,
        Answer::Refused(code) => says_none(*code),
        _ => false,
    }
}

/// Whether a server says by this code that it tells no such fact, or has no such file.
fn says_none(code: u16) -> bool
    // Witness: an equation; `edits/a_file_that_is_not_there_is_asked_for_again`.
    ensures { result ≡ says_none code }
{
    code == UNKNOWN || code == NOT_IMPLEMENTED || code == UNAVAILABLE
}

/// Whether the answer to anything else is given: it is done, or its data connection broke.
fn is_done(answer: &Answer<Global>) -> bool
    // Witness: an equation; `edits/a_transfer_that_broke_is_asked_again`.
    ensures { result ≡ is_done answer.now }
{
    match answer {
        Answer::Done | Answer::Octets(_) | Answer::Entries(_) => true,
        Answer::Broken { got: _, mark: _ } => true,
        _ => false,
    }
}
