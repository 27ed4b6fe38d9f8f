// The dialogue of one control connection between a reader and a writer.
ghost use Rattle.std.specs.Prelude.{◌≡◌, ◌≢◌, ◌≤◌, ◌<◌};
ghost use Rattle.ftp_tree.specs.Tree.{root_alone};
ghost use Rattle.ftp_server.specs.Server.{view_of};
ghost use Rattle.tool_dialogue.specs.Converses.{Ends, EndsOff, EndsWell, most_of};
ghost use Rattle.tool_dialogue.specs.Dialogue.{begun};

use crate::answers::Answers;
use ftp_endpoint::Host;
use ftp_ports::{Failed, PIECE_LIMIT, TURNS};
use ftp_server::Server;
use ftp_server_session::ServerTransfer;
use ftp_server_transfer::TreeTransfer;
use ftp_tree::SureTree;
use ftp_tree_memory::MemTree;
use std::alloc::Allocator;
use std::io::{Read, Write};
use tool_accounts::two_accounts;

/// The host of both ends.
const HERE: Host = Host::V4([127, 0, 0, 1]);

/// Answers the octets of a control connection and gives the exit status (RFC 959, section 5.4).
///
/// The server is `ftp_server` over an empty tree, where `guest` with the password `secret` and `anonymous` without one may log in. Its
/// data connection has port 1930 wherever one is asked for, and is never opened: a transfer is answered 150, and then 425. At most
/// `piece` octets are read at a time, or what a read gives where it is 0. The greeting is written before the first read, and the replies
/// to what was read before the next. Nothing is read after the reply to QUIT; a line that the input's end cuts is dropped. Refused memory,
/// the server answers 451 and goes on. 0: done. 1: done, and a reply of 4yz or 5yz was written. 3: a read or a write failed, memory was
/// refused outside the server or at its start, or a loop over reads or writes has made 1,099,511,627,776 turns.
pub fn dialogue<A, R, W>(alloc: A, reader: &mut R, writer: &mut W, piece: u32) -> u8
where
    A: Allocator + Copy,
    R: Read,
    W: Write,
    // Witness of done: the law `laws::one_dialogue`: of a known input it leaves one output and one status; `a_refusal_is_status_0`,
    // `refused_memory_is_status_0`, `refused_memory_is_forgotten`, `reads_on_after_goodbye`, `reads_more_than_asked_for`.
    ensures done { result ≢ 3 → EndsWell (most_of piece) (R.remaining reader.old) (R.remaining reader.new) (W.contents writer.old) (W.contents writer.new) result }
    // Witness of failed: `never_greets`.
    ensures failed { result ≡ 3 → EndsOff (most_of piece) (R.remaining reader.old) (R.remaining reader.new) (W.contents writer.old) (W.contents writer.new) }
{
    let tree = MemTree::new(alloc);
    match answer_all::<A, MemTree<A>, TreeTransfer<A, MemTree<A>>, R, W>(
        alloc,
        tree,
        reader,
        writer,
        most_of(piece),
    ) {
        Ok(false) => 0,
        Ok(true) => 1,
        Err(Failed) => 3,
    }
}

/// Answers all octets over this tree; gives whether a reply refused something, or memory was refused.
#[tactic(auto, using(crate::proofs::Conversing::ends_unread))]
fn answer_all<A, T, J, R, W>(
    alloc: A,
    tree: T,
    reader: &mut R,
    writer: &mut W,
    most: usize,
) -> Result<bool, Failed>
where
    A: Allocator + Copy,
    T: SureTree<A>,
    J: ServerTransfer<A, T>,
    R: Read,
    W: Write,
    requires empty { T.table tree ≡ root_alone }
    requires some { 0 < most }
    requires within { most ≤ 4096 }
    ensures { Ends most (R.remaining reader.old) (R.remaining reader.new) (W.contents writer.old) (W.contents writer.new) result }
{
    let Ok(accounts) = two_accounts(alloc) else {
        return Err(Failed);
    };
    let Ok(mut server) = Server::<A, T, J>::new(alloc, tree, accounts, HERE, HERE) else {
        return Err(Failed);
    };
    converse(alloc, &mut server, reader, writer, most)
}

/// Greets, and answers all octets; gives whether a reply refused something, or memory was refused.
fn converse<A, T, J, R, W>(
    alloc: A,
    server: &mut Server<A, T, J>,
    reader: &mut R,
    writer: &mut W,
    most: usize,
) -> Result<bool, Failed>
where
    A: Allocator + Copy,
    T: SureTree<A>,
    J: ServerTransfer<A, T>,
    R: Read,
    W: Write,
    requires begun { view_of T.table J.view server.old ≡ begun }
    requires some { 0 < most }
    requires within { most ≤ 4096 }
    ensures { Ends most (R.remaining reader.old) (R.remaining reader.new) (W.contents writer.old) (W.contents writer.new) result }
{
    let mut answers = Answers::new(alloc);
    answers.tell(server)?;
    ftp_ports::put(writer, answers.text.as_slice())?;
    let mut buffer = [0u8; PIECE_LIMIT];
    for _ in 0..TURNS {
        let (room, _) = buffer.split_at_mut(most);
        let count = ftp_ports::get(reader, room)?;
        if count == 0 {
            return Ok(answers.refuses());
        }
        let (octets, _) = room.split_at(count);
        answers.exchange(server, octets, writer)?;
        if !server.is_running() {
            return Ok(answers.refuses());
        }
    }
    Err(Failed)
}

/// How many octets are read at a time.
fn most_of(piece: u32) -> usize
    ensures is { result ≡ most_of piece }
    ensures some { 0 < result }
    ensures within { result ≤ 4096 }
{
    match piece as usize {
        0 => PIECE_LIMIT,
        count => count.min(PIECE_LIMIT),
    }
}
