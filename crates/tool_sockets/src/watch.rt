// The system's clock.
ghost use Rattle.std.specs.Prelude.{◌≡◌};

use ftp_facts::Moment;
use ftp_ports::Watch;
use std::time::{Clock, SystemTime, UNIX_EPOCH};

/// The moment by the system's clock, in whole seconds since 1970 (RFC 3659, section 2.3). Where the clock tells none from 1970 to the year 9999, the one that
/// it told last stays.
#[derive(Drop)]
pub struct SystemWatch<'a, R: Clock> {
    clock: &'a R,
    last: Moment,
}

impl<'a, R: Clock> SystemWatch<'a, R> {
    /// Nothing was told yet: the start of 1970 stands.
    pub fn new(clock: &'a R) -> SystemWatch<'a, R>
        ensures { result.last.seconds ≡ 0 }
    {
        SystemWatch {
            clock,
            last: Moment { seconds: 0 },
        }
    }
}

/// The moment that the clock tells, if it is from 1970 to the year 9999.
fn now<R: Clock>(clock: &R) -> Option<Moment> {
    let now = SystemTime::now(clock).ok()?;
    let since = now.duration_since(UNIX_EPOCH).ok()?;
    Moment::new(since.as_secs())
}

impl<'a, R: Clock> Watch for SystemWatch<'a, R> {
    fn moment(&mut self) -> Moment {
        if let Some(moment) = now(self.clock) {
            self.last = moment;
        }
        self.last
    }
}
