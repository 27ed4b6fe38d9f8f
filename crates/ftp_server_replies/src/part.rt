// How much the parts of a server's session hold.
ghost use Rattle.std.specs.Prelude.{◌≡◌, ◌<◌, ◌≤◌, ◌^◌};
ghost use Rattle.ftp_server_model.specs.Held.{access_len, path_len, pending_len, waiting_len};

use crate::line::line_len;
use ftp_command::Argument;
use ftp_path::{Path, TEXT_LIMIT};
use ftp_server_model::{Access, HeardLine, Pending};
use std::alloc::Allocator;

/// A path, by its text: at most `TEXT_LIMIT` octets.
pub fn path_len<A: Allocator + Copy>(path: &Path<A>) -> usize
    ensures len { result ≡ path_len path.now }
    // Witness of short: `pending_len` needs it.
    ensures short { result ≤ TEXT_LIMIT }
{
    path.text().len()
}

/// The name of a USER that waits for its PASS.
pub fn access_len<A: Allocator + Copy>(access: &Access<Argument<A>>) -> usize
    ensures len { result ≡ access_len access.now }
    // Witness of short: `Server::held` of `ftp_server` needs it.
    ensures short { result < 2 ^ 63 }
{
    match access {
        Access::AwaitsPass(name) => name.octets().len(),
        Access::Nobody | Access::Known => 0,
    }
}

/// The path of an RNFR: at most `TEXT_LIMIT` octets.
pub fn pending_len<A: Allocator + Copy>(pending: &Pending<Path<A>>) -> usize
    ensures len { result ≡ pending_len pending.now }
    // Witness of short: `Server::held` of `ftp_server` needs it.
    ensures short { result ≤ TEXT_LIMIT }
{
    match pending {
        Pending::Rename(from) => path_len(from),
        Pending::Nothing | Pending::Restart(_) => 0,
    }
}

/// A line that waits, as it would be written.
pub fn waiting_len<A: Allocator + Copy>(waiting: &Option<HeardLine<Argument<A>>>) -> usize
    ensures { result ≡ waiting_len waiting.now }
{
    match waiting {
        Some(HeardLine::Asks(command)) => line_len(command),
        Some(HeardLine::TooLong) | Some(HeardLine::Bad(_)) | None => 0,
    }
}
