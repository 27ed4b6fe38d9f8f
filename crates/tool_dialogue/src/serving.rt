// A server between two octets of its control connection, which has no data connection (RFC 959, section 3.2). Its tree's device never strays, so
// counts tell whether a call was done.
ghost use Rattle.std.specs.Prelude.{◌≡◌, ◌≢◌, None, false, length, true};
ghost use Rattle.ftp_server_model.specs.Failing.{OctetIsHeard};
ghost use Rattle.ftp_server_model.specs.Machine.{IsReading, Reading, hears_octet, may_hear};
ghost use Rattle.ftp_server.specs.Server.{counts_of, view_of};
ghost use Rattle.tool_dialogue.specs.Dialogue.{said, served_twice, serves};

use ftp_ends::Wants;
use ftp_server::Server;
use ftp_server_session::ServerTransfer;
use ftp_tree::SureTree;
use std::alloc::Allocator;

/// The port that is told to whoever asks for one.
const PORT: u16 = 1930;

/// Hears an octet, where one may be taken; says whether no growth was refused.
pub fn take<A, T, J>(server: &mut Server<A, T, J>, octet: u8) -> bool
where
    A: Allocator + Copy,
    T: SureTree<A>,
    J: ServerTransfer<A, T>,
    requires { may_hear (view_of T.table J.view server.old) ≡ true }
    // Witness of calm: an equation, but for want of memory; `want_of_memory_is_forgotten`.
    ensures calm { result ≡ true → (read : Reading) → IsReading read
        → view_of T.table J.view server.new ≡ hears_octet read (view_of T.table J.view server.old) octet }
    // Witness of heard: `Answers::answer` needs it where memory was refused.
    ensures heard { (read : Reading) → IsReading read
        → OctetIsHeard read (view_of T.table J.view server.old) octet (view_of T.table J.view server.new) }
    ensures counted { result ≡ false → counts_of T.failures server.new ≢ counts_of T.failures server.old }
{
    let counts = server.counts();
    let _count = server.hear(&[octet]);
    server.counts() == counts
}

/// Does what is wanted of the data connection, as often as there is something.
pub fn serve<A, T, J>(server: &mut Server<A, T, J>)
where
    A: Allocator + Copy,
    T: SureTree<A>,
    J: ServerTransfer<A, T>,
    requires none { (view_of T.table J.view server.old).waiting ≡ None }
    ensures served { view_of T.table J.view server.new ≡ served_twice (view_of T.table J.view server.old) }
    ensures none { (view_of T.table J.view server.new).waiting ≡ None }
{
    serve_one(server);
    serve_one(server);
}

/// Does what is wanted of the data connection: a port is told, an opening is refused, a close is done.
fn serve_one<A, T, J>(server: &mut Server<A, T, J>)
where
    A: Allocator + Copy,
    T: SureTree<A>,
    J: ServerTransfer<A, T>,
    requires none { (view_of T.table J.view server.old).waiting ≡ None }
    ensures serves { view_of T.table J.view server.new ≡ serves (view_of T.table J.view server.old) }
    ensures none { (view_of T.table J.view server.new).waiting ≡ None }
{
    match server.wants() {
        Wants::Listen => server.listening(PORT),
        Wants::Connect(_) => server.data_refused(),
        Wants::Accept => {
            if server.is_opening() {
                server.data_refused();
            }
        }
        Wants::CloseData => server.data_closed(),
        Wants::Nothing | Wants::Receive | Wants::Send | Wants::CloseAll => {}
    }
}

/// Gives all that is owed into a room of just that length.
pub fn give<A, T, J>(server: &mut Server<A, T, J>, room: &mut [u8])
where
    A: Allocator + Copy,
    T: SureTree<A>,
    J: ServerTransfer<A, T>,
    requires none { (view_of T.table J.view server.old).waiting ≡ None }
    requires fits { length room.old ≡ length (view_of T.table J.view server.old).owed }
    ensures view { view_of T.table J.view server.new ≡ said (view_of T.table J.view server.old) }
    ensures octets { room.new ≡ (view_of T.table J.view server.old).owed }
{
    server.control_out(room);
}
