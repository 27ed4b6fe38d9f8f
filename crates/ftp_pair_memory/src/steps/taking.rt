// Both ends take turns.
ghost use Rattle.std.specs.Prelude.{◌≡◌, ◌<◌, IsTrue, false, suc};
ghost use Rattle.ftp_pair_memory.specs.steps.Seating.{both_ends_of, held_at, pair_of};
ghost use Rattle.ftp_pair_memory.specs.steps.Stopping.{AsksUnanswered, FarGoes, IsRefused, NearGoes, RoundGoes, SettlesNot};
ghost use Rattle.ftp_pair_memory.specs.steps.Taking.{AsksAnswered, Begins, FarTurns, NearTurns, Rounds, SettlesAnswer};
ghost use Rattle.ftp_server_driver.specs.alone.Side.{timed};

use crate::steps::slots::{MemoryControl, Slot};
use crate::steps::turn_ending::{Course, Stop};
use crate::steps::turns::{far_turn, near_turn};
use crate::streams::{MemoryPorts, Wire, meet};
use ftp_client_model::Near;
use ftp_facts::Text;
use ftp_operation::{Answer, Op};
use ftp_ports::{TURNS, Watch};
use ftp_server_driver::{Clocked, Watches};
use ftp_server_model::Far;
use ftp_tree::Tree;
use std::alloc::Allocator;

/// After so many rounds in which nothing was said over the control connection none is awaited any more: data connections move all that they can in one.
const SILENT_ROUNDS: u64 = 8;

/// The client's turn.
fn client_turn<A, T, N, F, C, O>(
    client: &mut Slot<N>,
    server: &mut Slot<Clocked<F, C, O>>,
    control: &mut MemoryControl,
    most: usize,
) -> Course<Answer<A>>
where
    A: Allocator + Copy,
    T: Tree<A>,
    N: Near<A>,
    F: Far<A, T>,
    C: Watch,
    O: Watches<F>,
    ensures took { NearTurns result
        (both_ends_of (timed F.server C.told) N.client client.old server.old control.old)
        (both_ends_of (timed F.server C.told) N.client client.new server.new control.new) }
    ensures turned { NearGoes result
        (pair_of (timed F.server C.told) N.client client.old server.old control.old)
        (pair_of (timed F.server C.told) N.client client.new server.new control.new) }
{
    if !meet(&mut client.memory_end, &mut server.memory_end) {
        return Course::Off(Stop::Unmet);
    }
    client
        .memory_end
        .tell(most > 0 && !control.to_client.is_empty());
    let course = near_turn::<A, N, MemoryPorts, Wire>(
        &mut client.end,
        &mut client.memory_end.memory_ports,
        &mut client.memory_end.stream,
        &mut control.to_client,
        &mut control.to_server,
        most,
    );
    if client.memory_end.is_known() {
        course
    } else {
        Course::Off(Stop::Unknown)
    }
}

/// The server's turn.
fn server_turn<A, T, N, F, C, O>(
    client: &mut Slot<N>,
    server: &mut Slot<Clocked<F, C, O>>,
    control: &mut MemoryControl,
    most: usize,
) -> Course<()>
where
    A: Allocator + Copy,
    T: Tree<A>,
    N: Near<A>,
    F: Far<A, T>,
    C: Watch,
    O: Watches<F>,
    ensures took { FarTurns result
        (both_ends_of (timed F.server C.told) N.client client.old server.old control.old)
        (both_ends_of (timed F.server C.told) N.client client.new server.new control.new) }
    ensures turned { FarGoes result
        (pair_of (timed F.server C.told) N.client client.old server.old control.old)
        (pair_of (timed F.server C.told) N.client client.new server.new control.new) }
{
    if !meet(&mut server.memory_end, &mut client.memory_end) {
        return Course::Off(Stop::Unmet);
    }
    server
        .memory_end
        .tell(most > 0 && !control.to_server.is_empty());
    let course = far_turn::<A, T, F, C, O, MemoryPorts, Wire>(
        &mut server.end,
        &mut server.memory_end.memory_ports,
        &mut server.memory_end.stream,
        &mut control.to_server,
        &mut control.to_client,
        most,
    );
    if server.memory_end.is_known() {
        course
    } else {
        Course::Off(Stop::Unknown)
    }
}

/// A turn of the server, and then one of the client.
fn round<A, T, N, F, C, O>(
    client: &mut Slot<N>,
    server: &mut Slot<Clocked<F, C, O>>,
    control: &mut MemoryControl,
    most: usize,
) -> Course<Answer<A>>
where
    A: Allocator + Copy,
    T: Tree<A>,
    N: Near<A>,
    F: Far<A, T>,
    C: Watch,
    O: Watches<F>,
    ensures took { Rounds result
        (both_ends_of (timed F.server C.told) N.client client.old server.old control.old)
        (both_ends_of (timed F.server C.told) N.client client.new server.new control.new) }
    ensures turned { RoundGoes result
        (pair_of (timed F.server C.told) N.client client.old server.old control.old)
        (pair_of (timed F.server C.told) N.client client.new server.new control.new) }
{
    match server_turn::<A, T, N, F, C, O>(client, server, control, most) {
        Course::On => client_turn::<A, T, N, F, C, O>(client, server, control, most),
        Course::Over(()) => Course::Off(Stop::Done),
        Course::Off(stop) => Course::Off(stop),
    }
}

/// How many rounds in a row were silent, with this one.
fn silent_with(silent: u64, is_silent: bool) -> u64
    requires { silent < 8 }
    ensures more { IsTrue is_silent → result ≡ suc silent }
    ensures none { is_silent ≡ false → result ≡ 0 }
{
    if is_silent { silent + 1 } else { 0 }
}

/// Turns of both until the client's operation is answered; none where one broke off, or nothing was said for so many rounds.
fn settle<A, T, N, F, C, O>(
    client: &mut Slot<N>,
    server: &mut Slot<Clocked<F, C, O>>,
    control: &mut MemoryControl,
    most: usize,
) -> Option<Answer<A>>
where
    A: Allocator + Copy,
    T: Tree<A>,
    N: Near<A>,
    F: Far<A, T>,
    C: Watch,
    O: Watches<F>,
    ensures settled { SettlesAnswer result
        (both_ends_of (timed F.server C.told) N.client client.old server.old control.old)
        (both_ends_of (timed F.server C.told) N.client client.new server.new control.new) }
    ensures none { SettlesNot result
        (pair_of (timed F.server C.told) N.client client.old server.old control.old)
        (pair_of (timed F.server C.told) N.client client.new server.new control.new) }
{
    let mut silent: u64 = 0;
    for made in 0..TURNS {
        match round::<A, T, N, F, C, O>(client, server, control, most) {
            Course::On => {
                if silent >= SILENT_ROUNDS {
                    return None;
                }
                silent = silent_with(silent, control.is_empty());
            }
            Course::Over(answer) => return Some(answer),
            Course::Off(_) => return None,
        }
    }
    None
}

/// Begins an operation, and says whether the client was free for it.
fn begin<A, N>(client: &mut Slot<N>, op: Op<Text<A>>) -> bool
where
    A: Allocator + Copy,
    N: Near<A>,
    ensures begun { IsTrue result
        → Begins op (held_at N.client client.old) (held_at N.client client.new) }
    ensures same { client.new.memory_end ≡ client.old.memory_end }
    ensures busy { result ≡ false → IsRefused (N.client client.old.end) (N.client client.new.end) }
{
    let mut given = Some(op);
    client.end.begin(&mut given);
    given.is_none()
}

/// Begins an operation, and lets both ends take turns over their connections, the server first, until the client has its answer: in each turn an end
/// reads at most `most` of the octets that came over the control connection. None where the client was busy, where a turn was the last one (`Stop`), where
/// nothing lay in the control connection before each of the last eight rounds, or where all rounds were made.
pub fn ask<A, T, N, F, C, O>(
    op: Op<Text<A>>,
    client: &mut Slot<N>,
    server: &mut Slot<Clocked<F, C, O>>,
    control: &mut MemoryControl,
    most: usize,
) -> Option<Answer<A>>
where
    A: Allocator + Copy,
    T: Tree<A>,
    N: Near<A>,
    F: Far<A, T>,
    C: Watch,
    O: Watches<F>,
    // Witness: `edits/an_operation_is_answered_that_was_not_begun`, `one_that_broke_off_is_answered`, `octets_that_nobody_heard_are_let_go`,
    // `a_turn_is_not_prepared`; what it leads to: `transfers_asked_are_the_direct_run`.
    ensures answered { AsksAnswered op result
        (both_ends_of (timed F.server C.told) N.client client.old server.old control.old)
        (both_ends_of (timed F.server C.told) N.client client.new server.new control.new) }
    // Witness: `edits/one_that_was_answered_is_kept_back`, `an_operation_is_given_up_at_once`, `a_round_stops_without_a_reason`.
    ensures unanswered { AsksUnanswered op result
        (pair_of (timed F.server C.told) N.client client.old server.old control.old)
        (pair_of (timed F.server C.told) N.client client.new server.new control.new) }
{
    if !begin::<A, N>(client, op) {
        return None;
    }
    settle::<A, T, N, F, C, O>(client, server, control, most)
}
