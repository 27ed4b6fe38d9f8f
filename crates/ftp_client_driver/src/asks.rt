// The calls of a client, as a drive makes them.
ghost use Rattle.std.specs.Prelude.{◌≡◌, false, None, true};
ghost use Rattle.ftp_client_driver.specs.Driving.{Reports};
ghost use Rattle.ftp_client_driver.specs.Side.{Reporting, client_machine};

use ftp_client_model::Near;
use ftp_driver::{EndCalls, Given};
use ftp_endpoint::Host;
use ftp_ends::Wants;
use ftp_operation::Answer;
use ftp_ports::Rest;
use std::alloc::Allocator;
use std::marker::PhantomData;

/// Those of a client whose answers grow by an `A`.
pub(crate) struct Asks<A> {
    _answers: PhantomData<A>,
}

impl<A: Allocator + Copy, N: Near<A>> EndCalls<N> for Asks<A> {
    type Over = Answer<A>;

    ghost machine = { client_machine };

    ghost here = { N.client };

    /// It was asked for its report, which was this.
    ghost last = { λ answer old new. Reports answer old new };

    /// It was asked for its report, and had none.
    ghost goes_on = { Reporting None };

    fn serves() -> bool {
        false
    }

    fn over(end: &mut N) -> Option<Answer<A>> {
        end.report()
    }

    fn wants(end: &N) -> Wants {
        end.wants()
    }

    fn may_hear(end: &N) -> bool {
        end.may_hear()
    }

    fn hear(end: &mut N, unheard: &[u8]) -> usize {
        end.hear(unheard)
    }

    fn owes(end: &N) -> bool {
        end.owes()
    }

    fn control_out(end: &mut N, room: &mut [u8]) -> usize {
        end.control_out(room)
    }

    fn control_end(end: &mut N) {
        end.control_end();
    }

    fn listening(end: &mut N, port: u16) {
        end.listening(port);
    }

    fn listen_refused(end: &mut N) {
        end.listen_refused();
    }

    fn data_opened(end: &mut N, host: Host) {
        end.data_opened(host);
    }

    fn data_refused(end: &mut N) {
        end.data_refused();
    }

    fn data_hear(end: &mut N, piece: &[u8]) -> usize {
        end.data_hear(piece)
    }

    fn data_end(end: &mut N) {
        end.data_end();
    }

    fn data_fault(end: &mut N) {
        end.data_fault();
    }

    /// It has more to give where it still wants to send.
    fn data_out(end: &mut N, room: &mut [u8]) -> Given {
        let count = end.data_out(room);
        let rest = match end.wants() {
            Wants::Send => Rest::More,
            _ => Rest::Nothing,
        };
        Given { count, rest }
    }

    fn data_closed(end: &mut N) {
        end.data_closed();
    }

    ghost is_over = { λ old new asked serves. absurd (let e : false ≡ true = serves in cc) };

    ghost close_due = { λ there wanted sound under. wanted };
}
