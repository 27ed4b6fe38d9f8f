// Some turns of a drive of a client, between those of others.
ghost use Rattle.std.specs.Prelude.{[]};
ghost use Rattle.ftp_ports.specs.Machine.{held};
ghost use Rattle.ftp_driver.specs.Calling.{IsLater};
ghost use Rattle.ftp_driver.specs.Standing.{channel_at};
ghost use Rattle.ftp_client_driver.specs.Driving.{ClientDrivesOn, ClientMakesTurns};
ghost use Rattle.ftp_client_driver.specs.Side.{client_beside};

use crate::asks::Asks;
use crate::drive::Driven;
use ftp_client_model::Near;
use ftp_driver::{Data, Turned, drive_on};
use ftp_ports::{Control, Ports};
use std::alloc::Allocator;
use std::io::{Read, Write};

/// Does what a client wants for some turns: until the operation that it has begun is answered, until the next turn would wait, or `most` turns. None of
/// them waits where `ports` looks rightly, so that others are served meanwhile. The next call, with the same client, connections and `data`, goes on
/// where this one ended; before the first one no data connection stands.
///
/// Once the operation is answered, and where the drive breaks off, it is over, and all is as `drive_client` leaves it: the client was told that the control
/// connection ended where the drive broke off, and the data connection and the port are closed.
pub fn drive_some<A, N, R, W, P>(
    client: &mut N,
    control: &mut Control<R, W>,
    ports: &mut P,
    data: &mut Data<P::Stream>,
    most: u64,
) -> Turned<Driven<A>>
where
    A: Allocator + Copy,
    N: Near<A>,
    R: Read + Drop,
    W: Write + Drop,
    P: Ports,
    // Witness of drives: `a_data_connection_is_left_between_two_turns`, `one_that_broke_off_in_some_turns_is_not_told`,
    // `some_turns_give_no_report_of_an_operation_under_way`, `some_turns_tell_another_cause`, `what_would_wait_counts_as_more_turns`.
    ensures drives { ClientDrivesOn most control.new.failed (client_beside R.remaining W.contents (held (N.client client.old) (channel_at P.Stream.remaining P.Stream.contents (P.history ports.old) data.old [])) control.old) (client_beside R.remaining W.contents (held (N.client client.new) (channel_at P.Stream.remaining P.Stream.contents (P.history ports.new) data.new [])) control.new) result }
    // Witness of made: as of `drives`; `ask` of `ftp_pair_memory`.
    ensures made { ClientMakesTurns most control.new.failed (client_beside R.remaining W.contents (held (N.client client.old) (channel_at P.Stream.remaining P.Stream.contents (P.history ports.old) data.old [])) control.old) (client_beside R.remaining W.contents (held (N.client client.new) (channel_at P.Stream.remaining P.Stream.contents (P.history ports.new) data.new [])) control.new) result }
    // Witness of later: `what_is_due_counts_as_waiting`, and as of `drive_on` of `ftp_driver`.
    ensures later { IsLater (P.waits ports.new) (Ok result) }
{
    let turned = drive_on::<Asks<A>, N, R, W, P>(client, control, ports, data, most);
    match turned {
        Ok(turned) => match turned {
            Turned::Over(answer) => {
                data.leave(ports);
                client.data_closed();
                Turned::Over(Driven {
                    report: Some(answer),
                    off: None,
                })
            }
            Turned::Later => Turned::Later,
            Turned::More => Turned::More,
        },
        Err(cause) => {
            data.cut::<Asks<A>, N>(client);
            data.reset(ports);
            data.leave(ports);
            client.data_closed();
            Turned::Over(Driven {
                report: client.report(),
                off: Some(cause),
            })
        }
    }
}
