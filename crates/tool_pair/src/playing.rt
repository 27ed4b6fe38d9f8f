// A script between a reader and a writer.
ghost use Rattle.std.specs.Prelude.{◌≡◌, true, IfOk, OnOk};
ghost use Rattle.tool_pair.specs.Begun.{begun};
ghost use Rattle.tool_terminal.specs.declared.status.Status.TheVariants.{Done, Failed};
ghost use Rattle.tool_pair.specs.Leading.{Rests, first_second, script_orders_at};
ghost use Rattle.tool_pair.specs.Making.{own_beginning};
ghost use Rattle.tool_script.specs.Status.{status_without};
ghost use Rattle.tool_pair.specs.Played.{Plays, PlaysIn, Tells};

use crate::beginning::Beginning;
use crate::ends::world_of;
use crate::making::beginning_of;
use crate::orders::obey;
use crate::transcript::Transcript;
use ftp_client_model::Near;
use ftp_client_steps::ClientTransfer;
use ftp_client_transfer::OperationTransfer;
use ftp_facts::Text;
use ftp_pair::World;
use ftp_server_model::SureFar;
use ftp_server_session::ServerTransfer;
use ftp_server_transfer::TreeTransfer;
use ftp_tree::{SureTree, Tree};
use ftp_tree_memory::MemTree;
use std::alloc::Allocator;
use std::io;
use std::io::{Error, Read, Write};
use tool_script::{NoScript, Order, Script, read_script, write_reports};
use tool_terminal::Status;

/// How a script is played.
#[derive(Clone, Copy)]
pub struct PairSettings {
    /// The most octets that go over a queue in one round; 0: all.
    pub piece: u32,
    /// The lines of the control connection are written before the reports.
    pub transcript: bool,
    /// `guest` is at `/guest` and `anonymous` at `/pub`, and else both are at the root.
    pub roots: bool,
}

/// Plays the script that a reader gives, and writes the report of each order; gives the exit status.
///
/// The ends are `ftp_client` and `ftp_server` over a new tree in memory, where `guest` with the password `secret` and `anonymous` without one may log
/// in; what lies between them is the world of `ftp_pair`. The first order has the first second of the year 2000, each other the next one. `Done`: each
/// order was answered as wanted. `Refused`: an order was refused or failed, or an end was refused memory: each order has its report all the same.
/// `BadWords`: a line of the script fits no form, and nothing was done. `Failed`: a read or a write failed, or memory was refused outside both ends.
/// `faults` is told of the last two.
#[tactic(auto, using(crate::proofs::Reporting::tells_none, crate::proofs::Reporting::tells_script))]
pub fn pair<A, R, W, F>(
    alloc: A,
    settings: PairSettings,
    reader: &mut R,
    writer: &mut W,
    faults: &mut F,
) -> Status
where
    A: Allocator + Copy,
    R: Read,
    W: Write,
    F: Write,
    // Witness: `edits/octets_that_were_taken_are_not_told`, `the_client_says_what_the_server_did`, `a_script_that_was_played_is_told_of_as_a_fault`.
    // Witness: `edits/the_transcript_is_empty`, `the_transcript_is_written_twice`, `a_transcript_is_written_unasked`.
    // Witness: `edits/an_order_is_left_out`, `each_order_has_one_second`, `both_logins_are_at_the_root`, `something_is_in_flight`.
    // Witness: `edits/no_report_is_written`, `a_report_is_left_out_at_status_1`, `a_refusal_is_status_0`, `refused_memory_of_an_end_is_status_3`.
    ensures { Tells A settings.transcript settings.roots (R.remaining reader.old) (R.remaining reader.new) (W.contents writer.old) (W.contents writer.new)
        (F.contents faults.old) (F.contents faults.new) result }
{
    let script = match read_script(alloc, reader) {
        Ok(script) => script,
        Err(fault) => return no_script(alloc, fault, faults),
    };
    match play_script(alloc, settings, script, writer) {
        Ok(status) => status,
        Err(error) => failed(alloc, error, faults),
    }
}

/// Tells why there is no script.
fn no_script<A: Allocator + Copy, F: Write>(alloc: A, fault: NoScript, faults: &mut F) -> Status
    ensures { result ≡ status_without fault }
{
    if let Ok(text) = format!(in alloc; "error: {fault}\n") {
        let _told = faults.write_all(text.as_bytes());
    }
    fault.status()
}

/// Tells what failed.
fn failed<A: Allocator + Copy, F: Write>(alloc: A, error: Error, faults: &mut F) -> Status
    ensures { result ≡ Failed }
{
    if let Ok(text) = format!(in alloc; "error: {error}\n") {
        let _told = faults.write_all(text.as_bytes());
    }
    Status::Failed
}

/// Plays a script between a client and a server that begin for it.
fn play_script<A: Allocator + Copy, W: Write>(
    alloc: A,
    settings: PairSettings,
    script: Script<A>,
    writer: &mut W,
) -> io::Result<Status>
    ensures { IfOk result (λ status. Plays A settings.transcript (own_beginning settings.roots (script.login.user, script.login.pass)) script.orders.items
        (W.contents writer.old) (W.contents writer.new) status) }
{
    let Script { login, orders } = script;
    let of = beginning_of(alloc, login, settings.roots)?;
    play_from::<A, MemTree<A>, OperationTransfer<A>, TreeTransfer<A, MemTree<A>>, W>(
        alloc, settings, of, orders, writer,
    )
}

/// Plays orders from a beginning, by ends over such a tree and with such transfers; these are parameters, since named ones cost the proof more.
fn play_from<A, T, C, J, W>(
    alloc: A,
    settings: PairSettings,
    of: Beginning<A, T>,
    orders: Vec<Order<Text<A>>, A>,
    writer: &mut W,
) -> io::Result<Status>
where
    A: Allocator + Copy,
    T: SureTree<A>,
    C: ClientTransfer<A>,
    J: ServerTransfer<A, T>,
    W: Write,
    ensures { IfOk result (λ status. Plays A settings.transcript (begun of.login.user of.login.pass of.accounts (T.table of.tree) of.near_host of.far_host) orders.items
        (W.contents writer.old) (W.contents writer.new) status) }
{
    let mut world = world_of::<A, T, C, J>(alloc, of)?;
    play_in(alloc, settings, &mut world, orders, writer)
}

/// Plays orders in a world: the transcript, where it is wanted, and then the reports. Where an end was refused memory the status is `Refused`.
pub fn play_in<A, T, N, S, W>(
    alloc: A,
    settings: PairSettings,
    world: &mut World<A, T, N, S>,
    orders: Vec<Order<Text<A>>, A>,
    writer: &mut W,
) -> io::Result<Status>
where
    A: Allocator + Copy,
    T: Tree<A>,
    N: Near<A>,
    S: SureFar<A, T>,
    W: Write,
    // Witness of plays, rests: `pair`.
    ensures plays { IfOk result (λ status. PlaysIn A settings.transcript orders.items world.old world.new
        (W.contents writer.old) (W.contents writer.new) status) }
    ensures rests { OnOk result (Rests (script_orders_at first_second orders.items) world.old world.new) }
    // Witness of calm: `edits/refused_memory_is_status_0`.
    ensures calm { IfOk result (λ status. status ≡ Done → world.new.calm ≡ true) }
{
    let mut transcript = Transcript::new(alloc, settings.transcript);
    obey(world, settings.piece, orders, &mut transcript)?;
    writer.write_all(transcript.lines())?;
    let status = write_reports(alloc, world.reports(), writer)?;
    if world.is_calm() {
        Ok(status)
    } else {
        Ok(Status::Refused)
    }
}
