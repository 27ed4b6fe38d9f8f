// What is said to a command (RFC 959, section 4.2).
ghost use Rattle.std.specs.Prelude.{◌≡◌, ◌≤◌, ◌+◌, ◌++◌, true, length, ◌-◌};
ghost use Rattle.ftp_server.specs.Busy.{is_short_reply};
ghost use Rattle.ftp_server_model.specs.Replies.{said_octets};
ghost use Rattle.ftp_server_session.specs.Session.{session_of};

use crate::entry::say_entry;
use ftp_path::Path;
use ftp_server_model::{FREE_ROOM, OUTPUT_ROOM, ReplyKind};
use ftp_server_replies::Output;
use ftp_server_session::{ServerTransfer, Session};
use ftp_tree::Tree;
use std::alloc::Allocator;

/// Owes the reply of this kind to a command that left the session so.
pub(crate) fn say<A: Allocator + Copy, T: Tree<A>, J: ServerTransfer<A, T>>(
    output: &mut Output<A>,
    kind: &ReplyKind<Path<A>>,
    session: &Session<A, T, J>,
)
    requires room { length output.old ≤ OUTPUT_ROOM - FREE_ROOM }
    ensures said { output.new ≡ output.old ++ said_octets (session_of T.table J.view session.now) kind.now }
    ensures short { is_short_reply kind.now ≡ true → length output.new ≤ length output.old + 64 }
{
    match kind {
        ReplyKind::Nothing => {}
        ReplyKind::Fixed(text) => output.put_fixed(*text),
        ReplyKind::Here => output.put_here(&session.cwd),
        ReplyKind::Made(path) => output.put_made(path),
        ReplyKind::Restarting(place) => output.put_restarting(*place),
        ReplyKind::Passive(endpoint) => output.put_passive(*endpoint),
        ReplyKind::Extended(port) => output.put_extended(*port),
        ReplyKind::Size(count) => output.put_size(*count),
        ReplyKind::Stamp(digits) => output.put_stamp(digits),
        ReplyKind::Entry(path) => say_entry(output, path, session),
        ReplyKind::Features => output.put_features(session.facts),
        ReplyKind::Chosen => output.put_chosen(session.facts),
    }
}
