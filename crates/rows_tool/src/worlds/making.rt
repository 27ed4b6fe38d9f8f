// The world that a row is played in.
use crate::worlds::desk::RowOutput;
use crate::worlds::lines::play_in;
use crate::worlds::world::PlayedWorld;
use ftp_client_model::Near;
use ftp_client_steps::CountedTransfer;
use ftp_client_transfer::OperationTransfer;
use ftp_operation::Login;
use ftp_pair::World;
use ftp_server_model::SureFar;
use ftp_server_replies::Counted;
use ftp_server_transfer::TreeTransfer;
use ftp_tree::SureTree;
use ftp_tree_memory::{HeldTree, MemTree};
use rows_base::{Refusing, cut};
use rows_ends::Holds;
use std::alloc::{Allocator, Global};
use tool_pair::{Beginning, beginning_of, world_of};
use tool_script::login_of;

/// The first line of a world that memory is refused for.
pub const NO_WORLD: &'static [u8] = b"! no world";

/// Plays a row in a world of its own, with this growth refused, none for 0; says how many growths were asked for.
pub fn play(alloc: Global, row: &[u8], refused: u64, desk: &mut RowOutput) -> u64 {
    let heap = Refusing::new(alloc, refused);
    match login_of(&heap, login_line(row)) {
        Ok(login) => enter(&heap, login, row, desk),
        Err(_) => desk.paper.line(NO_WORLD),
    }
    refused.wrapping_sub(heap.left())
}

/// The line that says who logs in; where there is none, `anonymous` does.
pub fn login_line(row: &[u8]) -> &[u8] {
    let mut rest = row;
    for _ in 0..row.len() {
        let (line, behind) = cut(rest, b'\n');
        if line.starts_with(b"login ") {
            return line;
        }
        rest = behind;
    }
    b"login anonymous \\e"
}

fn enter<A: Allocator + Copy>(heap: A, login: Login<A>, row: &[u8], desk: &mut RowOutput) {
    match beginning_of(heap, login, false) {
        Ok(of) => begin::<A, MemTree<A>, OperationTransfer<A>, TreeTransfer<A, MemTree<A>>>(
            heap, of, row, desk,
        ),
        Err(_) => desk.paper.line(NO_WORLD),
    }
}

/// Plays a row in a world over such a tree, with such transfers: who names both ends does not name these.
fn begin<
    A: Allocator + Copy,
    T: HeldTree<A> + SureTree<A>,
    C: CountedTransfer<A>,
    J: Counted<A, T>,
>(heap: A, of: Beginning<A, T>, row: &[u8], desk: &mut RowOutput) {
    match world_of::<A, T, C, J>(heap, of) {
        Ok(world) => play_world(world, heap, row, desk),
        Err(_) => desk.paper.line(NO_WORLD),
    }
}

fn play_world<A: Allocator + Copy, T: HeldTree<A>, N: Near<A> + Holds, F: SureFar<A, T> + Holds>(
    world: World<A, T, N, F>,
    heap: A,
    row: &[u8],
    desk: &mut RowOutput,
) {
    play_in(&mut PlayedWorld { world, heap }, desk, row);
}
