// The orders of a script, one after another.
ghost use Rattle.std.specs.Prelude.{◌≡◌, ◌+◌, ◌∷◌, [], true, IfOk, OnOk, length};
ghost use Rattle.laws_world.specs.Events.{IsQuiet};
ghost use Rattle.tool_pair.specs.Leading.{LeadsTo, Rests, first_second, order_at, script_orders_at};
ghost use Rattle.tool_pair.specs.Telling.{LeadsTelling};

use crate::rounds::round;
use crate::transcript::Transcript;
use ftp_client_model::Near;
use ftp_facts::{Moment, Text};
use ftp_pair::{Event, World};
use ftp_ports::TURNS;
use ftp_server_model::SureFar;
use ftp_tree::Tree;
use std::alloc::{AllocError, Allocator};
use std::io;
use std::io::{Error, ErrorKind};
use tool_script::{Order, moment_of};

/// Does orders: rounds until one in which nothing moves and no order begins, where all has come to rest. An order begins once the one before has its
/// report. The transcript is told of all that is taken.
pub(crate) fn obey<A, T, N, S>(
    world: &mut World<A, T, N, S>,
    piece: u32,
    orders: Vec<Order<Text<A>>, A>,
    transcript: &mut Transcript<A>,
) -> io::Result<()>
where
    A: Allocator + Copy,
    T: Tree<A>,
    N: Near<A>,
    S: SureFar<A, T>,
    ensures leads { OnOk result (LeadsTelling (script_orders_at first_second orders.items) world.old world.new transcript.old transcript.new) }
    ensures rests { OnOk result (Rests (script_orders_at first_second orders.items) world.old world.new) }
    ensures each { OnOk result (length world.new.world.reports ≡ length world.old.world.reports + length orders.items) }
{
    let wanted = reports_wanted(world, &orders)?;
    let mut number = 0u64;
    for order in orders {
        until_finished(world, piece, transcript)?;
        if !begin(world, order, moment_at(number)?)? {
            return Err(unreported());
        }
        number = number.saturating_add(1);
    }
    until_still(world, piece, transcript)?;
    at_rest(world, wanted)
}

/// How many reports there are.
fn report_count<A, T, N, S>(world: &World<A, T, N, S>) -> usize
where
    A: Allocator + Copy,
    T: Tree<A>,
    N: Near<A>,
    S: SureFar<A, T>,
    ensures { result ≡ length world.now.world.reports }
{
    world.reports().len()
}

/// How many reports there are once each of these orders has its own.
fn reports_wanted<A, T, N, S>(
    world: &World<A, T, N, S>,
    orders: &Vec<Order<Text<A>>, A>,
) -> io::Result<usize>
where
    A: Allocator + Copy,
    T: Tree<A>,
    N: Near<A>,
    S: SureFar<A, T>,
    ensures { IfOk result (λ count. count ≡ length world.now.world.reports + length orders.now.items) }
{
    match report_count(world).checked_add(orders.len()) {
        Some(count) => Ok(count),
        None => Err(unreported()),
    }
}

/// Whether there are so many reports.
fn has_reports<A, T, N, S>(world: &World<A, T, N, S>, wanted: usize) -> bool
where
    A: Allocator + Copy,
    T: Tree<A>,
    N: Near<A>,
    S: SureFar<A, T>,
    ensures { result ≡ true → length world.now.world.reports ≡ wanted }
{
    report_count(world) == wanted
}

/// Fails where something is in flight, or there are not so many reports.
fn at_rest<A, T, N, S>(world: &World<A, T, N, S>, wanted: usize) -> io::Result<()>
where
    A: Allocator + Copy,
    T: Tree<A>,
    N: Near<A>,
    S: SureFar<A, T>,
    ensures quiet { OnOk result (IsQuiet world.now.world) }
    ensures each { OnOk result (length world.now.world.reports ≡ wanted) }
{
    if world.is_quiet() && has_reports(world, wanted) {
        Ok(())
    } else {
        Err(unreported())
    }
}

/// The moment of the order with this number.
fn moment_at(number: u64) -> io::Result<Moment>
    ensures { IfOk result (λ moment. moment.seconds ≡ first_second + number) }
{
    match moment_of(number) {
        Some(moment) => Ok(moment),
        None => Err(Error::new(ErrorKind::Other, "an order is past the year 9999")),
    }
}

fn unreported() -> Error {
    Error::new(
        ErrorKind::Other,
        "nothing moves any more, and not all is done",
    )
}

/// The client begins what is ordered; says whether it could.
fn begin<A, T, N, S>(
    world: &mut World<A, T, N, S>,
    order: Order<Text<A>>,
    moment: Moment,
) -> Result<bool, AllocError>
where
    A: Allocator + Copy,
    T: Tree<A>,
    N: Near<A>,
    S: SureFar<A, T>,
    ensures { IfOk result (λ possible. possible ≡ true → LeadsTo (order_at moment.seconds order ∷ []) [] world.old world.new) }
{
    match order.into_parts() {
        Ok(op) => world.step(Event::Next(op, moment)),
        Err((path, octets, how)) => world.step(Event::Upload(path, octets, how, moment)),
    }
}

/// Rounds until each order that began has its report, or nothing moves any more; one at least.
#[tactic(auto, using(crate::proofs::Leading::nothing_told_of))]
fn until_finished<A, T, N, S>(
    world: &mut World<A, T, N, S>,
    piece: u32,
    transcript: &mut Transcript<A>,
) -> io::Result<()>
where
    A: Allocator + Copy,
    T: Tree<A>,
    N: Near<A>,
    S: SureFar<A, T>,
    ensures { OnOk result (LeadsTelling [] world.old world.new transcript.old transcript.new) }
{
    for _ in 0..TURNS {
        if !round(world, piece, transcript)? || world.finished() {
            return Ok(());
        }
    }
    Err(Error::from(ErrorKind::TimedOut))
}

/// Rounds until nothing moves any more.
#[tactic(auto, using(crate::proofs::Leading::nothing_told_of))]
fn until_still<A, T, N, S>(
    world: &mut World<A, T, N, S>,
    piece: u32,
    transcript: &mut Transcript<A>,
) -> io::Result<()>
where
    A: Allocator + Copy,
    T: Tree<A>,
    N: Near<A>,
    S: SureFar<A, T>,
    ensures { OnOk result (LeadsTelling [] world.old world.new transcript.old transcript.new) }
{
    for _ in 0..TURNS {
        if !round(world, piece, transcript)? {
            return Ok(());
        }
    }
    Err(Error::from(ErrorKind::TimedOut))
}
