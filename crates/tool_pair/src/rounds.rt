// Rounds of a world.
ghost use Rattle.std.specs.Prelude.{IfOk, OnOk, []};
ghost use Rattle.ftp_pair_events.specs.events.Shown.{queue_of};
ghost use Rattle.laws_world.specs.Events.{Deliver};
ghost use Rattle.tool_pair.specs.Leading.{LeadsTo, delivered_by};
ghost use Rattle.tool_pair.specs.Telling.{LeadsTelling};

use crate::transcript::Transcript;
use ftp_client_model::Near;
use ftp_pair::{Event, Queue, World};
use ftp_ports::TURNS;
use ftp_server_model::SureFar;
use ftp_tree::Tree;
use std::alloc::{AllocError, Allocator};

/// The most octets of one delivery.
const DELIVERY: usize = 4096;

/// One round: octets of the control connection to the server and to the client, data to the server and to the client, at most so many of each
/// (0: all), and then openings and ends; says whether anything moved.
pub(crate) fn round<A, T, N, S>(
    world: &mut World<A, T, N, S>,
    piece: u32,
    transcript: &mut Transcript<A>,
) -> Result<bool, AllocError>
where
    A: Allocator + Copy,
    T: Tree<A>,
    N: Near<A>,
    S: SureFar<A, T>,
    ensures { OnOk result (LeadsTelling [] world.old world.new transcript.old transcript.new) }
{
    let asked = flow(world, Queue::ControlToServer, piece, transcript)?;
    let answered = flow(world, Queue::ControlToClient, piece, transcript)?;
    let up = flow(world, Queue::DataToServer, piece, transcript)?;
    let down = flow(world, Queue::DataToClient, piece, transcript)?;
    let opened = open(world)?;
    let ended = end(world)?;
    Ok(asked || answered || up || down || opened || ended)
}

/// The receivers of queues are told of their ends, each where it is possible; says whether one was.
#[tactic(auto, using(crate::proofs::Leading::nothing))]
fn end<A, T, N, S>(world: &mut World<A, T, N, S>) -> Result<bool, AllocError>
where
    A: Allocator + Copy,
    T: Tree<A>,
    N: Near<A>,
    S: SureFar<A, T>,
    ensures { OnOk result (LeadsTo [] [] world.old world.new) }
{
    let left = tell(world, Queue::ControlToServer)?;
    let parted = tell(world, Queue::ControlToClient)?;
    let up = tell(world, Queue::DataToServer)?;
    let down = tell(world, Queue::DataToClient)?;
    Ok(left || parted || up || down)
}

/// The receiver of a queue is told of its end, where it is possible; says whether it was.
fn tell<A, T, N, S>(world: &mut World<A, T, N, S>, queue: Queue) -> Result<bool, AllocError>
where
    A: Allocator + Copy,
    T: Tree<A>,
    N: Near<A>,
    S: SureFar<A, T>,
    ensures { OnOk result (LeadsTo [] [] world.old world.new) }
{
    world.step(Event::End(queue))
}

/// A wanted link opens, where it is possible; says whether it was.
#[tactic(auto, using(crate::proofs::Leading::open_leads))]
fn open<A, T, N, S>(world: &mut World<A, T, N, S>) -> Result<bool, AllocError>
where
    A: Allocator + Copy,
    T: Tree<A>,
    N: Near<A>,
    S: SureFar<A, T>,
    ensures { OnOk result (LeadsTo [] [] world.old world.new) }
{
    world.step(Event::Open)
}

/// Octets go over a queue, where it is possible; says whether it was.
fn carry<A, T, N, S>(
    world: &mut World<A, T, N, S>,
    queue: Queue,
    count: usize,
) -> Result<bool, AllocError>
where
    A: Allocator + Copy,
    T: Tree<A>,
    N: Near<A>,
    S: SureFar<A, T>,
    ensures { IfOk result (λ possible. LeadsTo [] (delivered_by (Deliver (queue_of queue) count) possible world.new.world) world.old world.new) }
{
    world.step(Event::Deliver(queue, count))
}

/// Octets go over a queue, at most so many (0: all); says whether any moved.
#[tactic(auto, using(crate::proofs::Leading::nothing_told_of))]
fn flow<A, T, N, S>(
    world: &mut World<A, T, N, S>,
    queue: Queue,
    piece: u32,
    transcript: &mut Transcript<A>,
) -> Result<bool, AllocError>
where
    A: Allocator + Copy,
    T: Tree<A>,
    N: Near<A>,
    S: SureFar<A, T>,
    ensures { OnOk result (LeadsTelling [] world.old world.new transcript.old transcript.new) }
{
    let mut left = most_of(piece);
    let mut moved = false;
    for _ in 0..TURNS {
        let Some(taken) = deliver(world, queue, left.min(DELIVERY), transcript)? else {
            return Ok(moved);
        };
        moved = true;
        left = left.saturating_sub(taken);
        if taken == 0 || left == 0 {
            return Ok(true);
        }
    }
    Ok(moved)
}

/// How many octets go at most.
fn most_of(piece: u32) -> usize {
    match piece {
        0 => usize::MAX,
        count => count as usize,
    }
}

/// One delivery: how many octets were taken, or none where none was possible.
fn deliver<A, T, N, S>(
    world: &mut World<A, T, N, S>,
    queue: Queue,
    count: usize,
    transcript: &mut Transcript<A>,
) -> Result<Option<usize>, AllocError>
where
    A: Allocator + Copy,
    T: Tree<A>,
    N: Near<A>,
    S: SureFar<A, T>,
    ensures { OnOk result (LeadsTelling [] world.old world.new transcript.old transcript.new) }
{
    if !carry(world, queue, count)? {
        return Ok(None);
    }
    let taken = world.taken();
    transcript.take(queue, taken)?;
    Ok(Some(taken.len()))
}
