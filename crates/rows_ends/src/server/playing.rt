// A run of a row on a server.
use crate::desk::Desk;
use crate::event::YEAR_2000;
use crate::lines::play;
use crate::plays::Holds;
use crate::server::begun::{accounts, plants};
use crate::server::cued::{cues_of, tell};
use crate::server::played::PlayedServer;
use crate::turn::RowTurn;
use ftp_operation::Accounts;
use ftp_server::Server;
use ftp_server_calls::{Cue, Played as Made, Plays};
use ftp_server_model::Far;
use ftp_server_replies::{Counted, ServerTransfer};
use ftp_server_transfer::TreeTransfer;
use ftp_tree::SureTree;
use ftp_tree_memory::MemTree;
use rows_base::{Refusing, number, said};
use rows_tree::FailingTree;
use std::alloc::{AllocError, Allocator};

/// What is written where the server was not had.
const NOT_BEGUN: &[u8] = b"= not begun";

/// The memory of a run: that of the server and its tree, that of what calls of a list give, and that of all else.
#[derive(Clone, Copy)]
struct Heaps<A: Allocator + Copy> {
    server: A,
    gifts: A,
    ample: A,
}

/// Plays a row with this growth refused, and says how many growths were asked for.
pub fn run(turn: RowTurn<'_>, refused: u64, desk: &mut Desk) -> u64 {
    let ample = Refusing::new(turn.alloc, 0);
    let heap = Refusing::new(turn.alloc, refused);
    match accounts(&ample, said(turn.row, b"root").unwrap_or(b"/")) {
        Ok(accounts) => plant(heaps_of(turn, &heap, &ample), accounts, turn, desk),
        Err(_) => desk.paper.line(NOT_BEGUN),
    }
    refused.wrapping_sub(heap.left())
}

/// Whose growths are refused: where a row lists calls, of what these give, but with the word `failures`, and else of the server and its tree.
fn heaps_of<A: Allocator + Copy>(turn: RowTurn<'_>, heap: A, ample: A) -> Heaps<A> {
    let is_servers = !lists_calls(turn) || said(turn.row, b"failures").is_some();
    Heaps {
        server: if is_servers { heap } else { ample },
        gifts: if is_servers { ample } else { heap },
        ample,
    }
}

/// Whether a row has calls that are made by a list.
fn lists_calls(turn: RowTurn<'_>) -> bool {
    said(turn.row, b"call").is_some()
}

fn plant<A: Allocator + Copy>(
    heaps: Heaps<A>,
    accounts: Accounts<A>,
    turn: RowTurn<'_>,
    desk: &mut Desk,
) {
    let mut tree = MemTree::new(heaps.server);
    if plants(turn, heaps.server, &mut tree) {
        let tree = FailingTree::new(tree, number(said(turn.row, b"device").unwrap_or(b"")));
        serve::<A, TreeTransfer<A, FailingTree<A>>>(heaps, tree, accounts, turn, desk);
    } else {
        drop(tree);
        drop(accounts);
        desk.paper.line(NOT_BEGUN);
    }
}

/// Plays a row on a server with such transfers: who names a server does not name them.
fn serve<A: Allocator + Copy, J: Counted<A, FailingTree<A>>>(
    heaps: Heaps<A>,
    tree: FailingTree<A>,
    accounts: Accounts<A>,
    turn: RowTurn<'_>,
    desk: &mut Desk,
) {
    let (here, peer) = turn.hosts();
    let begun: Result<Server<A, FailingTree<A>, J>, _> = Server::new(
        heaps.server,
        tree,
        accounts,
        here,
        peer,
    );
    match begun {
        Ok(server) => begin(heaps, server, turn, desk),
        Err(_) => desk.paper.line(NOT_BEGUN),
    }
}

/// A server that makes calls by a list. What plays rows on one is generic in it: only who makes one names it.
trait Lists<A: Allocator + Copy> {
    /// Makes these calls, and gives what they gave.
    fn make(&mut self, heap: A, cues: &[Cue<A>]) -> Result<Made<A>, AllocError>;
}

impl<A: Allocator + Copy, T: SureTree<A>, J: ServerTransfer<A, T>> Lists<A> for Server<A, T, J> {
    fn make(&mut self, heap: A, cues: &[Cue<A>]) -> Result<Made<A>, AllocError> {
        self.play(heap, cues)
    }
}

/// Makes the calls that a row lists, and plays the lines behind them in the year 2000.
fn begin<A: Allocator + Copy, S: Far<A, FailingTree<A>> + Holds + Lists<A>>(
    heaps: Heaps<A>,
    mut server: S,
    turn: RowTurn<'_>,
    desk: &mut Desk,
) {
    let row = call_listed(heaps, &mut server, turn, desk);
    server.clock(YEAR_2000);
    let mut end: PlayedServer<A, S> = PlayedServer::new(server);
    play(&mut end, desk, RowTurn { row, ..turn });
}

/// Makes the calls that a row lists, and gives the lines behind them.
fn call_listed<'a, A: Allocator + Copy, S: Lists<A>>(
    heaps: Heaps<A>,
    server: &mut S,
    turn: RowTurn<'a>,
    desk: &mut Desk,
) -> &'a [u8] {
    if !lists_calls(turn) {
        return turn.row;
    }
    match cues_of(heaps.ample, turn) {
        Ok(cues) => tell(turn.row, &server.make(heaps.gifts, cues.as_slice()), desk),
        Err(_) => {
            desk.paper.fill();
            turn.row
        }
    }
}
