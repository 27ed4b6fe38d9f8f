// Tasks of clients: whoever writes one names no client, and is proved for less.
ghost use Rattle.std.specs.Prelude.{◌≡◌, None, IfNone, IfSome, IsSomeAnd, OnSome, ⊤};
ghost use Rattle.ftp_client_model.specs.Telling.{untold};
ghost use Rattle.ftp_client_model.specs.View as view;

use crate::client::Client;
use ftp_client_model::Near;
use ftp_client_steps::ClientTransfer;
use ftp_endpoint::Host;
use ftp_operation::Login;
use std::alloc::Allocator;

/// A client of which new ones can be made.
pub trait NewClient<A: Allocator + Copy>: Near<A> + Sized {
    /// A client of the login that `login` has, on this host, of the server on its peer's host. The login is taken out of there; refused memory, it stays.
    fn create(alloc: A, login: &mut Option<Login<A>>, here: Host, peer: Host) -> Option<Self>
        // Witness of begun: an equation; `edits/a_new_client_is_on_the_host_of_its_peer`.
        ensures begun { IfSome result (λ it. IsSomeAnd login.old (λ given. (Self.client it).view ≡ view.client given.user given.pass here peer)) }
        // Witness of told, taken, back: equations.
        ensures told { IfSome result (λ it. Self.told it ≡ untold) }
        ensures taken { OnSome result (login.new ≡ None) }
        ensures back { IfNone result (login.new ≡ login.old) };
}

impl<A: Allocator + Copy, F: ClientTransfer<A>> NewClient<A> for Client<A, F> {
    fn create(
        alloc: A,
        login: &mut Option<Login<A>>,
        here: Host,
        peer: Host,
    ) -> Option<Client<A, F>> {
        let given = login.take()?;
        match Client::new(alloc, given, here, peer) {
            Ok(client) => Some(client),
            Err(back) => {
                *login = Some(back);
                None
            }
        }
    }
}

/// What is done by clients that are made for it, with a `G` that is lent.
pub trait ClientTask<A: Allocator + Copy, G, T> {
    /// What came of it, and what was done with what was lent, where that is known.
    ghost does: { (task : Self) → T → (old new : G) → Type 0 } = { λ task result old new. ⊤ };

    /// Does it by such clients.
    fn play<N: NewClient<A>>(self, lent: &mut G) -> T
        // Witness: edits of `tool_connect`, as `a_task_is_played_twice`.
        ensures { does self result lent.old lent.new };
}

/// Does a task by clients whose transfers are such. No other call here passes a client on.
pub fn play_client<A, F, K, G, T>(task: K, lent: &mut G) -> T
where
    A: Allocator + Copy,
    F: ClientTransfer<A>,
    K: ClientTask<A, G, T>,
    // Witness: `converse` of `tool_connect` needs it.
    ensures { K.does task result lent.old lent.new }
{
    task.play::<Client<A, F>>(lent)
}
