// How a program ended.
ghost use Rattle.std.specs.Prelude.{◌≡◌};
ghost use Rattle.tool_terminal.specs.Status.{number, worse};

/// How a program ended; each is worse than those above it.
#[derive(Clone, Copy, Debug, PartialEq, Eq)]
pub enum Status {
    /// All that was asked for is done.
    Done,
    /// Something was refused, or broke off.
    Refused,
    /// A command line, a script, a login or a path is none, or is not served; nothing was done.
    BadWords,
    /// A connection, a device, the folder or the file of accounts failed, or memory was refused.
    Failed,
}

impl Status {
    /// The number with which the process ends.
    pub fn number(self) -> u8
        ensures { result ≡ number self }
    {
        match self {
            Status::Done => 0,
            Status::Refused => 1,
            Status::BadWords => 2,
            Status::Failed => 3,
        }
    }

    /// The worse of two.
    pub fn worse(self, other: Status) -> Status
        ensures { result ≡ worse self other }
    {
        if self.number() < other.number() {
            other
        } else {
            self
        }
    }
}
