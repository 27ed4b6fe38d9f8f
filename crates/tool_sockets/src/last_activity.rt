// The last activity on a control connection and its data connections, from which silence is counted.
ghost use Rattle.std.specs.Prelude.{◌≡◌};
ghost use Rattle.tool_sockets.specs.Timeouts.{activity_behind_line, activity_moment};

/// The last activity, with its moment in milliseconds of the monotonic clock.
#[derive(Clone, Copy)]
pub enum LastActivity {
    /// Something was done: this end said something, or octets of a data connection went.
    Done(u64),
    /// The peer said a line behind that. A line behind this one is no activity, so that lines without end are none.
    Line(u64),
}

impl LastActivity {
    /// Its moment, in milliseconds.
    pub fn moment(self) -> u64
        ensures { result ≡ activity_moment self }
    {
        match self {
            LastActivity::Done(moment) => moment,
            LastActivity::Line(moment) => moment,
        }
    }

    /// The last activity once the peer said a line, `now` in milliseconds.
    pub fn behind_line(self, now: u64) -> LastActivity
        ensures { result ≡ activity_behind_line self now }
    {
        match self {
            LastActivity::Done(_) => LastActivity::Line(now),
            LastActivity::Line(moment) => LastActivity::Line(moment),
        }
    }
}
