// What is told where a tree takes no file.
ghost use Rattle.std.specs.Prelude.{◌≡◌};
ghost use Rattle.ftp_direct.specs.Refusal.{name_refusal};
ghost use Rattle.ftp_server_model.specs.Walk.{refusal_text};

use ftp_server_model::FixedReply;
use ftp_tree::TreeFault;

/// The reply where a tree takes no file for this reason (RFC 959, section 5.4): 452 where it is full, else 553.
pub fn room_text(fault: TreeFault) -> FixedReply
    ensures { result ≡ refusal_text (name_refusal fault) }
{
    match fault {
        TreeFault::Full => FixedReply::NoRoom,
        _ => FixedReply::NameRefused,
    }
}
