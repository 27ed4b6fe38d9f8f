// The reply to MLST (RFC 3659, section 7).
ghost use Rattle.std.specs.Prelude.{◌≡◌, ◌≤◌, ◌++◌, length, ◌-◌};
ghost use Rattle.ftp_ends.specs.Reply.{reply_octets};
ghost use Rattle.ftp_server_model.specs.Replies.{entry_reply};
ghost use Rattle.ftp_server_session.specs.Session.{session_of};

use ftp_direct::{entry_of, file_at, is_root};
use ftp_path::Path;
use ftp_server_model::{FREE_ROOM, OUTPUT_ROOM};
use ftp_server_replies::Output;
use ftp_server_session::{ServerTransfer, Session};
use ftp_tree::Tree;
use std::alloc::Allocator;

/// Owes the reply to MLST of what stands at a path. Takes no memory.
pub(crate) fn say_entry<A: Allocator + Copy, T: Tree<A>, J: ServerTransfer<A, T>>(
    output: &mut Output<A>,
    path: &Path<A>,
    session: &Session<A, T, J>,
)
    requires { length output.old ≤ OUTPUT_ROOM - FREE_ROOM }
    ensures { output.new ≡ output.old ++ reply_octets (entry_reply (session_of T.table J.view session.now) path.now) }
{
    let file = file_at(&session.tree, &session.root, path);
    let entry = entry_of(file, is_root(path), path.text());
    output.put_listed(entry, session.facts);
}
