// What a client holds, apart from the count of refused growths (RFC 959, sections 2.3 and 5.4).
ghost use Rattle.std.specs.Prelude.{IsTrue};
ghost use Rattle.ftp_client_model.specs.Calls.{is_sound};
ghost use Rattle.ftp_client_session.specs.Calm.{is_under_way};

use crate::task::Task;
use ftp_client_model::client::{ClientLink, Standing};
use ftp_client_steps::{Hearing, Output, Run};
use ftp_endpoint::Host;
use ftp_facts::Text;
use ftp_operation::{Login, Op};
use ftp_settings::Representation;
use std::alloc::Allocator;

/// A client as commands, replies and events change it.
pub struct Dialogue<A: Allocator + Copy, F: Drop> {
    pub(crate) alloc: A,
    pub(crate) login: Login<A>,
    pub(crate) here: Host,
    pub(crate) peer: Host,
    pub(crate) standing: Standing,
    /// The operation that was begun last; before the first, `Where`.
    pub(crate) op: Op<Text<A>>,
    pub(crate) place: Task<A, F>,
    /// The upload over breaks of which the operation is a part.
    pub(crate) run: Option<Run<A>>,
    /// The settings that the server accepted last.
    pub(crate) settings: Representation,
    pub(crate) connection: ClientLink,
    /// Whether a link, or a port that is listened at, is to be closed.
    pub(crate) closing: bool,
    pub(crate) hearing: Hearing<A>,
    pub(crate) output: Output<A>,
    /// A client that has failed has no operation under way.
    ghost calm: { IsTrue (is_under_way place) → IsTrue (is_sound standing) },
}

/// By hand, as the drop of a place: a client is let go at each way out of what holds one.
impl<A: Allocator + Copy, F: Drop> Drop for Dialogue<A, F> {
    fn drop(self) {
        let Self {
            alloc: _,
            login: _,
            here: _,
            peer: _,
            standing: _,
            op: _,
            place: _,
            run: _,
            settings: _,
            connection: _,
            closing: _,
            hearing: _,
            output: _,
        } = self;
    }
}
