// What is asked of a client.
ghost use Rattle.std.specs.Prelude.{◌≡◌};
ghost use Rattle.tool_session.specs.Beginning.{Begins};
ghost use Rattle.tool_session.specs.Moving.{most_of, most_of_operation, span_of, span_of_operation, start_of};

use crate::request_state::DataLimits;
use ftp_client_model::Near;
use ftp_facts::Text;
use ftp_operation::{How, Op};
use std::alloc::Global;
use tool_terminal::Span;

/// The most entries of a listing that are taken (own choice).
pub const MOST_ENTRIES: usize = 1_000_000;

/// The most octets of a listing.
const MOST_LISTED: u64 = 1_073_741_824;

/// An operation, or an upload over breaks; empty once a client has it.
pub enum Request {
    One(Option<Op<Text<Global>>>),
    /// A path and the octets of the file.
    Upload(Option<(Text<Global>, Text<Global>)>, How),
    /// A download.
    Download(Option<Op<Text<Global>>>, Terms),
    /// An upload of what a source gives: what it moves of the file. The octets of its operation stand for those, and never go.
    Drawn(Option<Op<Text<Global>>>, Span),
}

/// The terms of a download.
#[derive(Clone, Copy)]
pub struct Terms {
    /// The most octets that its data connection may bring.
    pub most: u64,
    /// How many octets the file has, where that is known.
    pub total: Option<u64>,
}

/// By hand: a derived drop is proved again, part by part, wherever a request is let go.
impl Drop for Request {
    fn drop(self) {
        match self {
            Request::One(_) | Request::Upload(_, _) => {}
            Request::Download(_, _) | Request::Drawn(_, _) => {}
        }
    }
}

/// The most that the data connection of a request may bring: a download has terms of its own.
pub(crate) fn most_of(request: &Request) -> DataLimits
    // Witness: an equation; `edits/a_download_is_taken_without_its_limit`.
    ensures { result ≡ most_of request.now }
{
    match request {
        Request::One(Some(op)) => most_of_operation(op),
        Request::Download(_, terms) => DataLimits {
            octets: terms.most,
            lines: None,
        },
        Request::One(None) | Request::Upload(_, _) | Request::Drawn(_, _) => DataLimits {
            octets: u64::MAX,
            lines: None,
        },
    }
}

/// The same of an operation: a listing is limited.
fn most_of_operation(op: &Op<Text<Global>>) -> DataLimits
    // Witness: an equation; `edits/the_names_of_a_directory_are_taken_without_a_limit`.
    ensures { result ≡ most_of_operation op.now }
{
    match op {
        Op::List(_, _) | Op::Names(_, _) | Op::Text(_, _, _) => DataLimits {
            octets: MOST_LISTED,
            lines: Some(MOST_ENTRIES as u64),
        },
        _ => DataLimits {
            octets: u64::MAX,
            lines: None,
        },
    }
}

/// What a request moves of a file.
pub(crate) fn span_of(request: &Request) -> Span
    // Witness: an equation; `edits/a_resumed_download_counts_from_its_first_octet`.
    ensures { result ≡ span_of request.now }
{
    match request {
        Request::Download(op, terms) => Span {
            start: start_of(op),
            total: terms.total,
        },
        Request::Drawn(_, span) => *span,
        Request::One(Some(op)) => span_of_operation(op),
        Request::One(None) | Request::Upload(_, _) => Span {
            start: 0,
            total: None,
        },
    }
}

/// The same of an operation: an upload moves all of its octets, behind those of the file that stay.
fn span_of_operation(op: &Op<Text<Global>>) -> Span
    // Witness: an equation; `edits/a_resumed_upload_has_the_size_of_its_rest`.
    ensures { result ≡ span_of_operation op.now }
{
    match op {
        Op::Put(_, octets, _) => Span {
            start: 0,
            total: Some(octets.as_slice().len() as u64),
        },
        Op::PutFrom(_, from, octets, _) => Span {
            start: *from,
            total: Some(from.saturating_add(octets.as_slice().len() as u64)),
        },
        _ => Span {
            start: 0,
            total: None,
        },
    }
}

/// From which octet of the file on a download is.
fn start_of(op: &Option<Op<Text<Global>>>) -> u64
    ensures { result ≡ start_of op.now }
{
    match op {
        Some(Op::GetFrom(_, from, _)) => *from,
        _ => 0,
    }
}

/// Begins what is requested, which is taken out of there.
pub fn begin<N: Near<Global>>(client: &mut N, request: &mut Request)
    // Witness: `edits/an_upload_is_not_begun`.
    ensures { Begins request.old (N.client client.old) (N.client client.new) }
{
    match request {
        Request::One(op) | Request::Download(op, _) | Request::Drawn(op, _) => client.begin(op),
        Request::Upload(file, how) => client.begin_upload(file, *how),
    }
}
