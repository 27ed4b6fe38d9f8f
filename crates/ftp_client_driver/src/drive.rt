// The drive: what a client wants is done, turn by turn, until its operation is answered.
ghost use Rattle.std.specs.Option.{option_map};
ghost use Rattle.ftp_ports.specs.Channel.{no_channel};
ghost use Rattle.ftp_ports.specs.Machine.{held};
ghost use Rattle.ftp_driver.specs.Standing.{HasNone};
ghost use Rattle.ftp_operation.specs.Answer.{said_of};
ghost use Rattle.ftp_client_driver.specs.Driving.{ClientDrives};
ghost use Rattle.ftp_client_driver.specs.Side.{client_beside};

use crate::asks::Asks;
use ftp_client_model::Near;
use ftp_driver::{Data, drive_end};
use ftp_operation::Answer;
use ftp_ports::{Cause, Control, Ports};
use std::alloc::Allocator;
use std::io::{Read, Write};

/// How a drive of a client ended.
pub struct Driven<A: Allocator + Copy> {
    /// The report of the operation; none where none was begun.
    pub report: Option<Answer<A>>,
    /// Why the drive broke off, where it did.
    pub off: Option<Cause>,
}

/// Does what a client wants until the operation that it has begun is answered, and gives that report.
///
/// `data` is room for its data connections: none stands there before, and none does then. A read or a write of one that would wait is to fail as
/// `WouldBlock` where the control connection has octets or ended: so replies are heard while a transfer is under way. Where the drive breaks off, which it
/// does only for a `Cause` that is so, the client is told that the control connection ended. The data connection and the port are closed at the end.
pub fn drive_client<A, N, R, W, P>(
    client: &mut N,
    control: &mut Control<R, W>,
    ports: &mut P,
    data: &mut Data<P::Stream>,
) -> Driven<A>
where
    A: Allocator + Copy,
    N: Near<A>,
    R: Read + Drop,
    W: Write + Drop,
    P: Ports,
    // Witness of drives: `edits/a_broken_connection_is_not_told.edit`, `an_operation_under_way_has_no_report`, `another_cause_is_told`,
    // `its_report_is_never_asked_for`, `no_octet_is_heard`, `no_octet_of_a_download_is_taken`, and those of `ftp_driver`.
    ensures drives { HasNone P.Stream.remaining P.Stream.contents data.old → ClientDrives control.new.failed (client_beside R.remaining W.contents (held (N.client client.old) (no_channel (P.history ports.old))) control.old) (client_beside R.remaining W.contents (held (N.client client.new) (no_channel (P.history ports.new))) control.new) result.off (option_map said_of result.report) }
    // Witness of none: `answer` of `tool_connect`: the next drive begins where none stands.
    ensures none { HasNone P.Stream.remaining P.Stream.contents data.new }
{
    let ended = drive_end::<Asks<A>, N, R, W, P>(client, control, ports, data);
    match ended {
        Ok(answer) => {
            data.leave(ports);
            client.data_closed();
            Driven {
                report: Some(answer),
                off: None,
            }
        }
        Err(cause) => {
            data.cut::<Asks<A>, N>(client);
            data.reset(ports);
            data.leave(ports);
            client.data_closed();
            Driven {
                report: client.report(),
                off: Some(cause),
            }
        }
    }
}
