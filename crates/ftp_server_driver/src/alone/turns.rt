// Some turns of a drive, of one who serves others between them.
ghost use Rattle.std.specs.Prelude.{[]};
ghost use Rattle.ftp_ports.specs.Machine.{held};
ghost use Rattle.ftp_driver.specs.Calling.{IsLater};
ghost use Rattle.ftp_driver.specs.Standing.{channel_at};
ghost use Rattle.ftp_server_driver.specs.alone.Driving.{DrivesOn, MakesTurns};
ghost use Rattle.ftp_server_driver.specs.alone.Side.{beside, timed};

use crate::alone::clocked::{Clocked, Watches};
use crate::alone::serves::Serves;
use ftp_driver::{Data, Turned, drive_on};
use ftp_ports::{Cause, Control, Ports, Watch};
use ftp_server_model::Far;
use ftp_tree::Tree;
use std::alloc::Allocator;
use std::io::{Read, Write};

/// Serves a control connection for some turns: until the server is done with it, until the next turn would wait, or `most` turns. None of them waits
/// where `ports` looks rightly, so that others are served meanwhile. The next call, with the same server, connections and `data`, goes on where this one
/// ended; before the first one no data connection stands.
///
/// Once it is over, and where it breaks off, all is as `drive_server` leaves it: the server is told that the control connection ended where it broke off,
/// and the data connection and the port are closed.
pub fn drive_some<A, T, F, R, W, P, C, O>(
    clocked: &mut Clocked<F, C, O>,
    control: &mut Control<R, W>,
    ports: &mut P,
    data: &mut Data<P::Stream>,
    most: u64,
) -> Result<Turned<()>, Cause>
where
    A: Allocator + Copy,
    T: Tree<A>,
    F: Far<A, T>,
    R: Read + Drop,
    W: Write + Drop,
    P: Ports,
    C: Watch,
    O: Watches<F>,
    // Witness of drives: `what_would_wait_counts_as_over`, `a_data_connection_is_left_between_two_turns`, `one_that_broke_off_is_not_told`.
    ensures drives { DrivesOn most control.new.failed (beside R.remaining W.contents (held (timed F.server C.told clocked.old) (channel_at P.Stream.remaining P.Stream.contents (P.history ports.old) data.old [])) control.old) (beside R.remaining W.contents (held (timed F.server C.told clocked.new) (channel_at P.Stream.remaining P.Stream.contents (P.history ports.new) data.new [])) control.new) result }
    // Witness of made: as of `drives`; `lent_turns` of `ftp_server_driver`.
    ensures made { MakesTurns most control.new.failed (beside R.remaining W.contents (held (timed F.server C.told clocked.old) (channel_at P.Stream.remaining P.Stream.contents (P.history ports.old) data.old [])) control.old) (beside R.remaining W.contents (held (timed F.server C.told clocked.new) (channel_at P.Stream.remaining P.Stream.contents (P.history ports.new) data.new [])) control.new) result }
    // Witness of later: as of `drive_on` of `ftp_driver`.
    ensures later { IsLater (P.waits ports.new) result }
{
    let turned = drive_on::<Serves<A, T>, Clocked<F, C, O>, R, W, P>(
        clocked, control, ports, data, most,
    );
    match turned {
        Ok(turned) => match turned {
            Turned::Over(over) => {
                data.leave(ports);
                Ok(Turned::Over(over))
            }
            Turned::Later => Ok(Turned::Later),
            Turned::More => Ok(Turned::More),
        },
        Err(cause) => {
            data.cut::<Serves<A, T>, Clocked<F, C, O>>(clocked);
            data.leave(ports);
            Err(cause)
        }
    }
}
