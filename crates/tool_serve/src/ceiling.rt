// The largest file that the system lets the server write.
ghost use Rattle.std.specs.Prelude.{◌≡◌, min};

use ftp_tree::Limits;
use libc::types::rlimit;

/// The number of the limit of file sizes, on Linux.
const FILE_SIZE: i32 = 1;

/// The most octets of a file that the system lets this program write; a write past them would end it by a signal.
pub(crate) fn most_written() -> u64 {
    let mut limit = rlimit {
        rlim_cur: u64::MAX,
        rlim_max: u64::MAX,
    };
    if libc::getrlimit(FILE_SIZE, &mut limit) == 0 {
        limit.rlim_cur
    } else {
        u64::MAX
    }
}

/// These limits, with no larger file than one of so many octets.
pub(crate) fn within(limits: Limits, most: u64) -> Limits
    ensures { result ≡ record limits { file = min limits.file most } }
{
    Limits {
        file: limits.file.min(most),
        ..limits
    }
}
