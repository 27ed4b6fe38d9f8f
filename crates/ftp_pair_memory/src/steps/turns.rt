// Some turns of a drive over a control connection in memory.
ghost use Rattle.std.specs.Prelude.{[], List, ℕ};
ghost use Rattle.ftp_ports.specs.Machine.{held};
ghost use Rattle.ftp_driver.specs.Standing.{channel_at};
ghost use Rattle.ftp_pair_memory.specs.steps.Turning.{FarTurned, NearTurned};
ghost use Rattle.ftp_server_driver.specs.alone.Side.{timed};

use crate::steps::turn_ending::{Course, far_course, near_course};
use crate::streams::{ReadHalf, WriteHalf};
use ftp_client_driver::{Control, Data};
use ftp_client_model::Near;
use ftp_operation::Answer;
use ftp_ports::{Duplex, Ports, TURNS, Watch};
use ftp_server_driver::{Clocked, Watches};
use ftp_server_model::Far;
use ftp_tree::Tree;
use std::alloc::Allocator;

/// Lets a client's drive go on until it waits or is over. Of the octets that came over its control connection at most `most` are read, and they leave `came`;
/// what the client says goes behind `goes`.
pub(crate) fn near_turn<A, N, P, S>(
    client: &mut N,
    ports: &mut P,
    data: &mut Data<S>,
    came: &mut Vec<u8>,
    goes: &mut Vec<u8>,
    most: usize,
) -> Course<Answer<A>>
where
    A: Allocator + Copy,
    N: Near<A>,
    P: Ports<Stream = S>,
    S: Duplex,
    ensures { NearTurned result
        (held (N.client client.old) (channel_at S.remaining S.contents (P.history ports.old) data.old []))
        (held (N.client client.new) (channel_at S.remaining S.contents (P.history ports.new) data.new []))
        came.old.items came.new.items goes.old.items goes.new.items }
{
    let mut control = Control::new(ReadHalf::new(came, most), WriteHalf::new(goes));
    let turned = ftp_client_driver::drive_some::<A, N, ReadHalf<'_>, WriteHalf<'_>, P>(
        client,
        &mut control,
        ports,
        data,
        TURNS,
    );
    let is_heard = !control.has_unheard();
    near_course(turned, is_heard)
}

/// Lets a server's drive go on until it waits or is over, as `near_turn` does a client's.
pub(crate) fn far_turn<A, T, F, C, O, P, S>(
    clocked: &mut Clocked<F, C, O>,
    ports: &mut P,
    data: &mut Data<S>,
    came: &mut Vec<u8>,
    goes: &mut Vec<u8>,
    most: usize,
) -> Course<()>
where
    A: Allocator + Copy,
    T: Tree<A>,
    F: Far<A, T>,
    C: Watch,
    O: Watches<F>,
    P: Ports<Stream = S>,
    S: Duplex,
    ensures { FarTurned result
        (held (timed F.server C.told clocked.old)
        (channel_at S.remaining S.contents (P.history ports.old) data.old []))
        (held (timed F.server C.told clocked.new)
        (channel_at S.remaining S.contents (P.history ports.new) data.new []))
        came.old.items came.new.items goes.old.items goes.new.items }
{
    let mut control = Control::new(ReadHalf::new(came, most), WriteHalf::new(goes));
    let turned = ftp_server_driver::drive_some::<A, T, F, ReadHalf<'_>, WriteHalf<'_>, P, C, O>(
        clocked,
        &mut control,
        ports,
        data,
        TURNS,
    );
    let is_heard = !control.has_unheard();
    far_course(turned, is_heard)
}
