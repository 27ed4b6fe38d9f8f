// The times of a system, and the moments of a tree.
ghost use Rattle.std.specs.Prelude.{◌≡◌};
ghost use Rattle.ftp_disk_host.specs.Moment.{nearest};

use crate::host::Stamp;
use ftp_facts::Moment;
use std::io;
use std::io::{Error, ErrorKind};
use std::time::{Clock, Duration, SystemTime, UNIX_EPOCH};

/// The last moment of the profile, the end of the year 9999.
const LAST_SECOND: u64 = 253_402_300_799;

/// The moment of a file: the nearest of the profile.
pub fn moment_of(seconds: i64) -> Moment
    ensures { result.seconds ≡ nearest seconds }
{
    let seconds = u64::try_from(seconds).unwrap_or(0);
    Moment {
        seconds: seconds.min(LAST_SECOND),
    }
}

/// The system's time of a moment.
pub(crate) fn time_of(moment: Moment) -> io::Result<SystemTime> {
    match UNIX_EPOCH.checked_add(Duration::from_secs(moment.seconds)) {
        Some(time) => Ok(time),
        None => Err(Error::from(ErrorKind::InvalidInput)),
    }
}

/// The time now; the start of 1970 where the clock can't be read, so that each file seems to have changed after it.
pub(crate) fn now<R: Clock>(clock: &R) -> Stamp {
    let since = clock.since_1970().unwrap_or(Duration::ZERO);
    Stamp {
        seconds: i64::try_from(since.as_secs()).unwrap_or(i64::MAX),
        nanos: i64::from(since.subsec_nanos()),
    }
}
