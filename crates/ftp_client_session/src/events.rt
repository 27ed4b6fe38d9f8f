// The data connection: its port, its link, and how that ends (RFC 959, section 3.2).
ghost use Rattle.std.specs.Prelude.{◌≡◌, false, IsTrue, OnErr, OnOk};
ghost use Rattle.ftp_client_model.specs.Calls.{accepted, connected, data_end, data_fault, data_opened, data_refused, is_sound, listen_refused, listening};
ghost use Rattle.ftp_client_model.specs.Dialogue.{carries_on};
ghost use Rattle.ftp_client_model.specs.Failing.{data_end_short, data_fault_short, data_opened_short, data_refused_short, listen_refused_short, short};
ghost use Rattle.ftp_client_model.specs.declared.client.ClientLink.TheVariants as Data;
ghost use Rattle.ftp_client_session.specs.Client.{shorted, view_of};
ghost use Rattle.ftp_ends.specs.Link.{same_host};

use crate::dialogue::Dialogue;
use crate::task::Task;
use ftp_client_model::client::{ClientLink, Ending, Step};
use ftp_client_steps::ClientTransfer;
use ftp_endpoint::Host;
use ftp_ends::is_same_host;
use ftp_operation::Answer;
use std::alloc::{AllocError, Allocator};

/// A port is listened at, and PORT names it. Refused memory, it is listened at all the same.
#[tactic(auto, unfolding(ftp_client_model::specs::Calls::listening))]
pub fn listening<A: Allocator + Copy, F: ClientTransfer<A>>(
    dialogue: &mut Dialogue<A, F>,
    port: u16,
) -> Result<(), AllocError>
    // Witness of ok, err: equations; `edits/a_link_from_another_host_is_kept`, `edits/a_refused_link_is_not_closed`.
    ensures ok { OnOk result (view_of F.flow dialogue.new ≡ listening port (view_of F.flow dialogue.old)) }
    // Witness of wanted, open: the lone clause of `Client::listening`.
    ensures wanted { OnErr result ((view_of F.flow dialogue.old).connection ≡ ClientLink.ListenWanted) }
    ensures open { OnErr result ((view_of F.flow dialogue.old).closing ≡ false) }
    ensures err { OnErr result (view_of F.flow dialogue.new ≡ record (view_of F.flow dialogue.old) { connection = Data.Listening port }) }
{
    if dialogue.is_closing() {
        return Ok(());
    }
    let ClientLink::ListenWanted = dialogue.connection() else {
        return Ok(());
    };
    let Task::Doing(Step::Listen) = dialogue.place() else {
        return Ok(());
    };
    dialogue.put_connection(ClientLink::Listening(port));
    dialogue.go_on(Step::Listen)
}

/// No port can be had: the operation is not opened.
#[tactic(auto, unfolding(ftp_client_model::specs::Calls::listen_refused), using(crate::proofs::HeardLemmas::short_alike))]
pub fn listen_refused<A: Allocator + Copy, F: ClientTransfer<A>>(
    dialogue: &mut Dialogue<A, F>,
) -> Result<(), AllocError>
    // Witness: as of `listening`.
    ensures ok { OnOk result (view_of F.flow dialogue.new ≡ listen_refused (view_of F.flow dialogue.old)) }
    ensures err { OnErr result (short (view_of F.flow dialogue.new) ≡ listen_refused_short (view_of F.flow dialogue.old)) }
{
    if dialogue.is_closing() {
        return Ok(());
    }
    let ClientLink::ListenWanted = dialogue.connection() else {
        return Ok(());
    };
    dialogue.finish(Answer::Unopened)
}

/// The link is open; this host is at its other end.
#[tactic(auto, unfolding(ftp_client_model::specs::Calls::data_opened), using(crate::proofs::HeardLemmas::short_alike))]
pub fn data_opened<A: Allocator + Copy, F: ClientTransfer<A>>(
    dialogue: &mut Dialogue<A, F>,
    host: Host,
) -> Result<(), AllocError>
    // Witness: as of `listening`.
    ensures ok { OnOk result (view_of F.flow dialogue.new ≡ data_opened host (view_of F.flow dialogue.old)) }
    ensures err { OnErr result (short (view_of F.flow dialogue.new) ≡ data_opened_short (view_of F.flow dialogue.old)) }
{
    if dialogue.is_closing() {
        return Ok(());
    }
    match dialogue.connection() {
        ClientLink::Connecting(_) => connected(dialogue),
        ClientLink::Accepting(_) => accepted(dialogue, host),
        ClientLink::Free | ClientLink::ListenWanted => Ok(()),
        ClientLink::Listening(_) | ClientLink::Open => Ok(()),
        ClientLink::Over(_) => Ok(()),
    }
}

/// The link broke, or the server closed it before its time.
#[tactic(auto, unfolding(ftp_client_model::specs::Calls::data_fault), using(crate::proofs::HeardLemmas::short_alike))]
pub fn data_fault<A: Allocator + Copy, F: ClientTransfer<A>>(
    dialogue: &mut Dialogue<A, F>,
) -> Result<(), AllocError>
    // Witness: as of `listening`.
    ensures ok { OnOk result (view_of F.flow dialogue.new ≡ data_fault (view_of F.flow dialogue.old)) }
    ensures err { OnErr result (short (view_of F.flow dialogue.new) ≡ data_fault_short (view_of F.flow dialogue.old)) }
{
    if dialogue.is_closing() {
        return Ok(());
    }
    let ClientLink::Open = dialogue.connection() else {
        return Ok(());
    };
    over(dialogue, Ending::Broken)
}

/// The server closed the open link.
#[tactic(auto, unfolding(ftp_client_model::specs::Calls::data_end), using(crate::proofs::HeardLemmas::short_alike))]
pub fn data_end<A: Allocator + Copy, F: ClientTransfer<A>>(
    dialogue: &mut Dialogue<A, F>,
) -> Result<(), AllocError>
    // Witness: as of `listening`.
    ensures ok { OnOk result (view_of F.flow dialogue.new ≡ data_end (view_of F.flow dialogue.old)) }
    ensures err { OnErr result (short (view_of F.flow dialogue.new) ≡ data_end_short (view_of F.flow dialogue.old)) }
{
    if dialogue.is_closing() {
        return Ok(());
    }
    let ClientLink::Open = dialogue.connection() else {
        return Ok(());
    };
    let ending = dialogue.ending();
    over(dialogue, ending)
}

/// The link was not had: an operation without one is not opened, and at the client's port it counts as broken (own choice).
#[tactic(auto, unfolding(ftp_client_model::specs::Calls::data_refused), using(crate::proofs::HeardLemmas::short_alike))]
pub fn data_refused<A: Allocator + Copy, F: ClientTransfer<A>>(
    dialogue: &mut Dialogue<A, F>,
) -> Result<(), AllocError>
    // Witness: as of `listening`.
    ensures ok { OnOk result (view_of F.flow dialogue.new ≡ data_refused (view_of F.flow dialogue.old)) }
    ensures err { OnErr result (short (view_of F.flow dialogue.new) ≡ data_refused_short (view_of F.flow dialogue.old)) }
{
    if dialogue.is_closing() {
        return Ok(());
    }
    match dialogue.connection() {
        ClientLink::Connecting(_) => dialogue.finish(Answer::Unopened),
        ClientLink::Accepting(_) => {
            dialogue.want_close();
            over(dialogue, Ending::Broken)
        }
        ClientLink::Free | ClientLink::ListenWanted => Ok(()),
        ClientLink::Listening(_) | ClientLink::Open => Ok(()),
        ClientLink::Over(_) => Ok(()),
    }
}

/// The link that the client opened is there, and the next command is sent.
fn connected<A: Allocator + Copy, F: ClientTransfer<A>>(
    dialogue: &mut Dialogue<A, F>,
) -> Result<(), AllocError>
    ensures ok { OnOk result (view_of F.flow dialogue.new ≡ connected (view_of F.flow dialogue.old).job (view_of F.flow dialogue.old)) }
    ensures err { OnErr result (view_of F.flow dialogue.new ≡ record (view_of F.flow dialogue.old) { connection = Data.Open }) }
    ensures was { OnErr result (IsTrue (is_sound (view_of F.flow dialogue.old).standing)) }
{
    let Task::Doing(Step::Connect) = dialogue.place() else {
        return Ok(());
    };
    dialogue.put_connection(ClientLink::Open);
    dialogue.go_on(Step::Connect)
}

/// A link at the client's port has to come from the server's host, and another is closed (own choice).
fn accepted<A: Allocator + Copy, F: ClientTransfer<A>>(
    dialogue: &mut Dialogue<A, F>,
    host: Host,
) -> Result<(), AllocError>
    requires { (view_of F.flow dialogue.old).closing ≡ false }
    ensures ok { OnOk result (view_of F.flow dialogue.new ≡ accepted (same_host host (view_of F.flow dialogue.old).peer) (view_of F.flow dialogue.old)) }
    ensures err { OnErr result (shorted (view_of F.flow dialogue.new) ≡ shorted (record (view_of F.flow dialogue.old) { connection = Data.Open })) }
    ensures sound { OnErr result (IsTrue (is_sound (view_of F.flow dialogue.new).standing)) }
    ensures was { OnErr result (IsTrue (is_sound (view_of F.flow dialogue.old).standing)) }
{
    if is_same_host(host, dialogue.peer()) {
        dialogue.put_connection(ClientLink::Open);
        return dialogue.carry_on();
    }
    dialogue.want_close();
    over(dialogue, Ending::Foreign)
}

/// The link is over, in this way.
fn over<A: Allocator + Copy, F: ClientTransfer<A>>(
    dialogue: &mut Dialogue<A, F>,
    ending: Ending,
) -> Result<(), AllocError>
    ensures ok { OnOk result (view_of F.flow dialogue.new ≡ carries_on (record (view_of F.flow dialogue.old) { connection = Data.Over ending })) }
    ensures err { OnErr result (shorted (view_of F.flow dialogue.new) ≡ shorted (record (view_of F.flow dialogue.old) { connection = Data.Over ending })) }
    ensures sound { OnErr result (IsTrue (is_sound (view_of F.flow dialogue.new).standing)) }
    ensures was { OnErr result (IsTrue (is_sound (view_of F.flow dialogue.old).standing)) }
{
    dialogue.put_connection(ClientLink::Over(ending));
    dialogue.carry_on()
}
