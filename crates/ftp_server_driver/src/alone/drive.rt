// The drive: what the server wants is done, turn by turn.
ghost use Rattle.ftp_ports.specs.Channel.{no_channel};
ghost use Rattle.ftp_ports.specs.Machine.{held};
ghost use Rattle.ftp_server_driver.specs.alone.Driving.{Drives};
ghost use Rattle.ftp_server_driver.specs.alone.Side.{beside, timed};

use crate::alone::clocked::{Clocked, Watches};
use crate::alone::serves::Serves;
use ftp_driver::{Data, drive_end};
use ftp_ports::{Cause, Control, Ports, Watch};
use ftp_server_model::Far;
use ftp_tree::Tree;
use std::alloc::Allocator;
use std::io::{Read, Write};

/// Serves a control connection until the server is done with it.
///
/// All that the server owes is written before more is read, and all that was read is heard, while a transfer is under way too: between its
/// pieces, and where its data connection would wait. Where the drive breaks off, which it does only for a `Cause` that is so, the server is told
/// that the control connection ended. Who looks on is shown the server behind each of its calls. Data connections and ports are closed at the end.
pub fn drive_server<A, T, F, R, W, P, C, O>(
    clocked: &mut Clocked<F, C, O>,
    control: &mut Control<R, W>,
    ports: &mut P,
) -> Result<(), Cause>
where
    A: Allocator + Copy,
    T: Tree<A>,
    F: Far<A, T>,
    R: Read + Drop,
    W: Write + Drop,
    P: Ports,
    C: Watch,
    O: Watches<F>,
    // Witness: `a_broken_connection_is_not_told`, `another_cause_is_told`, those of `ftp_driver`; each read and write failed in turn: `rows_ends`.
    ensures { Drives control.new.failed (beside R.remaining W.contents (held (timed F.server C.told clocked.old) (no_channel (P.history ports.old))) control.old) (beside R.remaining W.contents (held (timed F.server C.told clocked.new) (no_channel (P.history ports.new))) control.new) result }
{
    let mut data = Data::new();
    let ended = drive_end::<Serves<A, T>, Clocked<F, C, O>, R, W, P>(
        clocked, control, ports, &mut data,
    );
    match ended {
        Ok(()) => {
            data.finish(ports);
            Ok(())
        }
        Err(cause) => {
            data.cut::<Serves<A, T>, Clocked<F, C, O>>(clocked);
            data.finish(ports);
            Err(cause)
        }
    }
}
