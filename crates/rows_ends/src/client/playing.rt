// A run of a row on a client.
use crate::client::played::PlayedClient;
use crate::desk::Desk;
use crate::lines::play;
use crate::plays::Holds;
use crate::turn::RowTurn;
use ftp_client::Client;
use ftp_client_model::Near;
use ftp_client_steps::CountedTransfer;
use ftp_client_transfer::OperationTransfer;
use ftp_facts::Text;
use ftp_operation::Login;
use rows_base::{Refusing, said};
use std::alloc::Allocator;

/// What is written where the client was not had.
const NO_CLIENT: &[u8] = b"! no client";

/// Plays a row with this growth refused, and says how many growths were asked for.
pub fn run(turn: RowTurn<'_>, refused: u64, desk: &mut Desk) -> u64 {
    let heap = Refusing::new(turn.alloc, refused);
    match login(&heap, turn.row) {
        Some(login) => enter(&heap, login, turn, desk),
        None => desk.paper.line(NO_CLIENT),
    }
    refused.wrapping_sub(heap.left())
}

/// The login of a row; none where memory is refused.
fn login<A: Allocator + Copy>(heap: A, row: &[u8]) -> Option<Login<A>> {
    let user = Text::copy_of(heap, said(row, b"user").unwrap_or(b"guest"));
    let pass = Text::copy_of(heap, said(row, b"pass").unwrap_or(b"secret"));
    match (user, pass) {
        (Ok(user), Ok(pass)) => Login::new(user, pass),
        _ => None,
    }
}

/// Plays a row on a client before the greeting, with the transfers of the product.
fn enter<A: Allocator + Copy>(heap: A, login: Login<A>, turn: RowTurn<'_>, desk: &mut Desk) {
    enter_by::<A, OperationTransfer<A>>(heap, login, turn, desk);
}

/// The same with such transfers: who names a client does not name them.
fn enter_by<A: Allocator + Copy, J: CountedTransfer<A>>(
    heap: A,
    login: Login<A>,
    turn: RowTurn<'_>,
    desk: &mut Desk,
) {
    let (here, peer) = turn.hosts();
    let begun: Result<Client<A, J>, _> = Client::new(heap, login, here, peer);
    match begun {
        Ok(client) => play_on(client, heap, turn, desk),
        Err(_) => desk.paper.line(NO_CLIENT),
    }
}

fn play_on<A: Allocator + Copy, C: Near<A> + Holds>(
    client: C,
    heap: A,
    turn: RowTurn<'_>,
    desk: &mut Desk,
) {
    play(&mut PlayedClient::new(client, heap), desk, turn);
}
