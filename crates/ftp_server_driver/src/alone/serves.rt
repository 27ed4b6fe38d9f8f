// The calls of a server, as a drive makes them.
ghost use Rattle.std.specs.Prelude.{◌≡◌, ◌<◌, ◌≤◌, ℕ, IsTrue, true, [], ◌∷◌, length, take};
ghost use Rattle.ftp_ports.specs.Asking.{Adds};
ghost use Rattle.ftp_server_model.specs.Calls.{clock_step};
ghost use Rattle.ftp_server_model.specs.Far.{Acts, Hears};
ghost use Rattle.ftp_server_model.specs.Machine.{may_hear};
ghost use Rattle.ftp_server_driver.specs.alone.Driving.{IsFoundDone};
ghost use Rattle.ftp_server_driver.specs.alone.Side.{Timely, ends_line, rest_told, server_machine, timed};

use crate::alone::clocked::{Clocked, Watches};
use ftp_driver::{EndCalls, Given};
use ftp_endpoint::Host;
use ftp_ends::Wants;
use ftp_ports::{Rest, Watch};
use ftp_reply::code::COMPLETE;
use ftp_server_model::Far;
use ftp_tree::Tree;
use std::alloc::Allocator;
use std::marker::PhantomData;

/// Those of a server of a tree `T` that grows by an `A`, beside its clock.
pub(crate) struct Serves<A, T> {
    _serves: PhantomData<(A, T)>,
}

impl<A, T, F, C, O> EndCalls<Clocked<F, C, O>> for Serves<A, T>
where
    A: Allocator + Copy,
    T: Tree<A>,
    F: Far<A, T>,
    C: Watch,
    O: Watches<F>,
{
    type Over = ();

    ghost machine = { server_machine };

    ghost here = { timed F.server C.told };

    ghost last = { λ over old new. IsFoundDone old new };

    ghost goes_on = { tt };

    fn serves() -> bool {
        true
    }

    /// It is over where the server is done with the control connection.
    fn over(end: &mut Clocked<F, C, O>) -> Option<()> {
        match end.server.wants() {
            Wants::CloseAll => Some(()),
            _ => None,
        }
    }

    fn wants(end: &Clocked<F, C, O>) -> Wants {
        end.server.wants()
    }

    fn may_hear(end: &Clocked<F, C, O>) -> bool {
        end.server.may_hear()
    }

    /// One octet a call: what is behind it is heard where the server takes it, or waits for a transfer's end.
    fn hear(end: &mut Clocked<F, C, O>, unheard: &[u8]) -> usize {
        if ends_line(unheard) {
            return hear_end::<A, T, F, C, O>(end, unheard);
        }
        let count = hear_one::<A, T, F>(&mut end.server, unheard);
        end.watcher.saw(&end.server);
        count
    }

    fn owes(end: &Clocked<F, C, O>) -> bool {
        end.server.owes()
    }

    fn control_out(end: &mut Clocked<F, C, O>, room: &mut [u8]) -> usize {
        let count = end.server.control_out(room);
        end.watcher.saw(&end.server);
        count
    }

    fn control_end(end: &mut Clocked<F, C, O>) {
        end.server.control_end();
        end.watcher.saw(&end.server);
    }

    fn listening(end: &mut Clocked<F, C, O>, port: u16) {
        end.server.listening(port);
        end.watcher.saw(&end.server);
    }

    fn listen_refused(end: &mut Clocked<F, C, O>) {
        end.server.listen_refused();
        end.watcher.saw(&end.server);
    }

    fn data_opened(end: &mut Clocked<F, C, O>, host: Host) {
        end.server.data_opened(host);
        end.watcher.saw(&end.server);
    }

    fn data_refused(end: &mut Clocked<F, C, O>) {
        end.server.data_refused();
        end.watcher.saw(&end.server);
    }

    fn data_hear(end: &mut Clocked<F, C, O>, piece: &[u8]) -> usize {
        let count = end.server.data_hear(piece);
        end.watcher.saw(&end.server);
        count
    }

    fn data_end(end: &mut Clocked<F, C, O>) {
        tell_time::<A, T, F, C, O>(end);
        end.server.data_end();
        end.watcher.saw(&end.server);
    }

    fn data_fault(end: &mut Clocked<F, C, O>) {
        tell_time::<A, T, F, C, O>(end);
        end.server.data_fault();
        end.watcher.saw(&end.server);
    }

    /// The reply that it says first behind these octets tells whether they were the last: 226, or 451 where what comes next was not had, or none.
    fn data_out(end: &mut Clocked<F, C, O>, room: &mut [u8]) -> Given {
        let before = end.server.owed();
        let count = end.server.data_out(room);
        end.watcher.saw(&end.server);
        Given {
            count,
            rest: rest_told(end.server.code_at(before)),
        }
    }

    fn data_closed(end: &mut Clocked<F, C, O>) {
        end.server.data_closed();
        end.watcher.saw(&end.server);
    }

    ghost is_over = { λ old new asked serves. asked.1 };

    ghost close_due = { λ there wanted. wanted };
}

/// Whether it has more of a download or a listing to give, by the code of the reply that came first in the call in which it gave.
fn rest_told(code: Option<u16>) -> Rest
    ensures { result ≡ rest_told code }
{
    match code {
        Some(COMPLETE) => Rest::Nothing,
        _ => Rest::More,
    }
}

/// The server is told the moment that its clock tells.
fn tell_time<A, T, F, C, O>(end: &mut Clocked<F, C, O>)
where
    A: Allocator + Copy,
    T: Tree<A>,
    F: Far<A, T>,
    C: Watch,
    O: Watches<F>,
    ensures timed { (moment : ℕ) × Adds (C.told end.old.watch) (C.told end.new.watch) (moment ∷ []) × Acts (clock_step moment) (F.server end.old.server) (F.server end.new.server) }
    ensures hears { IsTrue (may_hear (F.server end.old.server).view) → IsTrue (may_hear (F.server end.new.server).view) }
{
    let moment = end.watch.moment();
    end.server.clock(moment);
    end.watcher.saw(&end.server);
}

/// Hears an octet that ends a line, behind the moment.
fn hear_end<A, T, F, C, O>(end: &mut Clocked<F, C, O>, unheard: &[u8]) -> usize
where
    A: Allocator + Copy,
    T: Tree<A>,
    F: Far<A, T>,
    C: Watch,
    O: Watches<F>,
    ensures within { (result ≤ length unheard.now) × (length (take result unheard.now) ≤ 1) }
    ensures took { Timely (Hears (take result unheard.now)) (timed F.server C.told end.old) (timed F.server C.told end.new) }
    ensures some { IsTrue (may_hear (F.server end.old.server).view) → 0 < length unheard.now → 0 < result }
{
    tell_time::<A, T, F, C, O>(end);
    let count = hear_one::<A, T, F>(&mut end.server, unheard);
    end.watcher.saw(&end.server);
    count
}

/// Hears the first of these octets, and gives how many were taken.
fn hear_one<A, T, F>(server: &mut F, unheard: &[u8]) -> usize
where
    A: Allocator + Copy,
    T: Tree<A>,
    F: Far<A, T>,
    ensures within { (result ≤ length unheard.now) × (length (take result unheard.now) ≤ 1) }
    ensures took { Hears (take result unheard.now) (F.server server.old) (F.server server.new) }
    ensures some { IsTrue (may_hear (F.server server.old).view) → 0 < length unheard.now → 0 < result }
{
    let (first, _) = unheard.split_at(unheard.len().min(1));
    server.hear(first)
}

/// Whether the first of these octets ends a line.
fn ends_line(unheard: &[u8]) -> bool
    ensures { result ≡ ends_line unheard.now }
{
    match unheard {
        [first, ..] => *first == b'\n',
        [] => false,
    }
}
