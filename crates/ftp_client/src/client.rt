// The client, and what its owner begins (RFC 959, sections 2.3 and 5.4).
ghost use Rattle.std.specs.Prelude.{◌≡◌, ◌<◌, IfErr, IfOk, length};
ghost use Rattle.std.specs.List.{AllByRecursion};
ghost use Rattle.ftp_endpoint.specs.Written.{IsTypedHost};
ghost use Rattle.ftp_client_model.specs.Telling.{untold};
ghost use Rattle.ftp_client_model.specs.View as view;
ghost use Rattle.ftp_client.specs.Counted.{StaysFit};

use crate::counted::Counted;
use ftp_client_steps::{ClientTransfer, LastLine};
use ftp_endpoint::Host;
use ftp_facts::Text;
use ftp_operation::Login;
use std::alloc::Allocator;

/// A client. `F` is what a transfer carries; its calls are those of the trait `Near` of `ftp_client_model`.
pub struct Client<A: Allocator + Copy, F: Drop> {
    pub(crate) counted: Counted<A, F>,
    /// The line that the server said last.
    pub(crate) line: LastLine,
    /// What came of a transfer amid which the control connection ended, until another operation is begun.
    pub(crate) came: Option<Text<A>>,
    /// It holds little, and goes on so.
    ghost fit: { ∥ StaysFit counted ∥₁ },
}

/// By hand: a derived drop is proved again, part by part, wherever a client is let go.
impl<A: Allocator + Copy, F: Drop> Drop for Client<A, F> {
    fn drop(self) {
        let Self {
            counted: _,
            line: _,
            came: _,
        } = self;
    }
}

impl<A: Allocator + Copy, F: ClientTransfer<A>> Client<A, F> {
    ghost use Rattle.ftp_client.specs.Calls.{client_of, told_of};

    /// A client of this login, on this host, of the server on its peer's host. Refused memory, it hands the login back.
    pub fn new(alloc: A, login: Login<A>, here: Host, peer: Host) -> Result<Client<A, F>, Login<A>>
        ensures begun { IfOk result (λ client. (client_of F.flow client).view ≡ view.client login.user login.pass here peer) }
        ensures told { IfOk result (λ client. told_of client ≡ untold) }
        ensures back { IfErr result (λ back. back ≡ login) }
    {
        is_typed(here);
        match Counted::new(alloc, login, here, peer) {
            Ok(counted) => Ok(Client {
                counted,
                line: LastLine::new(),
                came: None,
            }),
            Err(login) => Err(login),
        }
    }
}

/// A host is four or sixteen octets.
fn is_typed(host: Host)
    ensures { IsTypedHost host }
{
    match host {
        Host::V4(octets) => are_typed(octets),
        Host::V6(octets) => are_typed(octets),
    }
}

/// So many octets are that many numbers of eight bits.
fn are_typed<const N: usize>(octets: [u8; N])
    ensures count { length octets.entry ≡ N }
    ensures octets { AllByRecursion (λ octet. octet < 256) octets.entry }
{
    are_octets(octets.as_slice());
}

fn are_octets(octets: &[u8])
    ensures { AllByRecursion (λ octet. octet < 256) octets.now }
{
    let _count = octets.len();
}
