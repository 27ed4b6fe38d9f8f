// What is prefetched over one of several control connections, one request directly behind another, and what was answered of it.
use crate::pool::ahead::{PrefetchedAnswer, RequestKey, is_fact, is_for, is_given, moves_file};
use std::alloc::Global;
use std::mem;
use tool_session::{Request, StreamBody, Ticket};

/// How far one request of a batch is.
enum RequestProgress {
    /// It is still to be asked, with what goes over its data connection.
    Unasked(Request, StreamBody),
    Asked,
    Answered(PrefetchedAnswer),
}

/// By hand: a derived drop is proved again, part by part, wherever one is let go.
impl Drop for RequestProgress {
    fn drop(self) {
        match self {
            RequestProgress::Unasked(_, _) => {}
            RequestProgress::Asked => {}
            RequestProgress::Answered(_) => {}
        }
    }
}

impl RequestProgress {
    fn into_unasked(self) -> Option<(Request, StreamBody)> {
        match self {
            RequestProgress::Unasked(request, stream_body) => Some((request, stream_body)),
            RequestProgress::Asked | RequestProgress::Answered(_) => None,
        }
    }

    fn into_answered(self) -> Option<PrefetchedAnswer> {
        match self {
            RequestProgress::Answered(answered) => Some(answered),
            RequestProgress::Asked | RequestProgress::Unasked(_, _) => None,
        }
    }
}

/// One request of a batch.
struct BatchedRequest {
    key: RequestKey,
    /// By which it is given alone, where something of its own goes over its data connection.
    ticket: Option<Ticket>,
    progress: RequestProgress,
}

/// By hand, as above.
impl Drop for BatchedRequest {
    fn drop(self) {
        let Self {
            key: _,
            ticket: _,
            progress: _,
        } = self;
    }
}

impl BatchedRequest {
    fn is_unasked(&self) -> bool {
        match &self.progress {
            RequestProgress::Unasked(_, _) => true,
            RequestProgress::Asked | RequestProgress::Answered(_) => false,
        }
    }

    fn is_answered(&self) -> bool {
        match &self.progress {
            RequestProgress::Answered(_) => true,
            RequestProgress::Asked | RequestProgress::Unasked(_, _) => false,
        }
    }
}

/// Requests that are asked one after another over one control connection, and given in that order: first those that were answered, then the one that is
/// asked now, then those that are still to be asked. What was given is in it no more.
pub(crate) struct RequestBatch {
    requests: Vec<BatchedRequest, Global>,
}

/// By hand, as above.
impl Drop for RequestBatch {
    fn drop(self) {
        let Self { requests: _ } = self;
    }
}

impl RequestBatch {
    /// These, in their order. `stream_body` goes over the data connection of the first transfer, which then is given by its ticket alone. None where there are
    /// no requests, where one of them is never prefetched, or memory is refused.
    pub(crate) fn of(
        alloc: Global,
        requests: Vec<Request, Global>,
        stream_body: StreamBody,
        ticket: Option<Ticket>,
    ) -> Option<RequestBatch> {
        let mut stream_body = stream_body;
        let mut batched = Vec::new(alloc);
        for request in requests {
            let Ok(Some(key)) = RequestKey::of(alloc, &request) else {
                return None;
            };
            let carried = if moves_file(key.kind()) {
                mem::replace(&mut stream_body, StreamBody::Own)
            } else {
                StreamBody::Own
            };
            let ticket = if carried.is_own() { None } else { ticket };
            let one = BatchedRequest {
                key,
                ticket,
                progress: RequestProgress::Unasked(request, carried),
            };
            if batched.push(one).is_err() {
                return None;
            }
        }
        if batched.is_empty() {
            return None;
        }
        Some(RequestBatch { requests: batched })
    }

    /// What is to be asked now, where something still is, with what goes over its data connection.
    pub(crate) fn next(&mut self) -> Option<(Request, StreamBody)> {
        let next = self.requests.iter_mut().find(|one| one.is_unasked())?;
        mem::replace(&mut next.progress, RequestProgress::Asked).into_unasked()
    }

    /// What was asked last is answered so. Where that is not given, nothing is of it and of what comes behind it; says whether it is.
    pub(crate) fn keep(&mut self, answered: PrefetchedAnswer) -> bool {
        let Some(place) = self.requests.iter().position(|one| !one.is_answered()) else {
            return false;
        };
        if let Some(one) = self.requests.get_mut(place) {
            if is_given(one.key.kind(), &answered.answer) {
                one.progress = RequestProgress::Answered(answered);
                return true;
            }
        }
        self.requests.truncate(place);
        false
    }

    /// Whether this, by this ticket or by none, is what is given next.
    pub(crate) fn is_of(&self, request: &Request, ticket: Option<Ticket>) -> bool {
        match self.requests.first() {
            Some(one) => is_for(one.ticket, ticket) && one.key.is_of(request),
            None => false,
        }
    }

    /// Facts of files in it are given no more, nor what comes behind the first of them.
    pub(crate) fn forget_facts(&mut self) {
        if let Some(place) = self.requests.iter().position(|one| is_fact(one.key.kind())) {
            self.requests.truncate(place);
        }
    }

    /// Whether something of it is of the path of a request.
    pub(crate) fn is_at(&self, request: &Request) -> bool {
        self.requests.iter().any(|one| one.key.is_at(request))
    }

    /// Whether what is given next is not answered yet.
    pub(crate) fn is_awaited(&self) -> bool {
        match self.requests.first() {
            Some(one) => !one.is_answered(),
            None => false,
        }
    }

    /// Takes what is given next out of it, and gives its answer, if it has one.
    pub(crate) fn take(&mut self) -> Option<PrefetchedAnswer> {
        if self.requests.is_empty() {
            return None;
        }
        let mut first = self.requests.remove(0);
        mem::replace(&mut first.progress, RequestProgress::Asked).into_answered()
    }

    /// Whether all was given, or is not given any more.
    pub(crate) fn is_empty(&self) -> bool {
        self.requests.is_empty()
    }
}
