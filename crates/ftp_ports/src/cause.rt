// Why a drive breaks off, and the turns that it may make.
ghost use Rattle.std.specs.Prelude.{◌≡◌, IfErr, OnErr, OnOk, suc};

use crate::limits::TURNS;

/// Why a drive of an end breaks off.
#[derive(Clone, Copy)]
pub enum Cause {
    /// A read or a write of the control connection failed.
    Failed,
    /// `Ports` told that the control connection ended, or that waiting failed.
    Lost,
    /// Octets stand that the end may not hear, and it wants nothing that goes on beside them.
    Unheard,
    /// The end wants all to be closed, and has no report.
    Closed,
    /// All turns were made.
    Spent(Spent),
}

/// That all turns were made: only `Turns` gives one, where none is left.
#[derive(Clone, Copy)]
pub struct Spent {
    left: u64,
    ghost none: { left ≡ 0 },
}

/// How many turns a loop of a drive may still make.
#[derive(Drop)]
pub struct Turns {
    left: u64,
}

impl Turns {
    ghost use Rattle.ftp_ports.specs.Cause.{IsSpent};

    /// As many as a loop may make.
    pub fn new() -> Turns
        ensures { result.left ≡ 1099511627776 }
    {
        Turns { left: TURNS }
    }

    /// One turn more, where one is left.
    pub fn next(&mut self) -> Result<(), Cause>
        // Witness: `edits/half_of_the_turns_are_left_out.edit` (made); the type `Spent` (none); `IsCause` of `drive_end` (spent).
        ensures made { OnOk result (self.old.left ≡ suc self.new.left) }
        ensures none { OnErr result (self.old.left ≡ 0) }
        ensures spent { IfErr result (λ cause. IsSpent cause) }
    {
        if self.left == 0 {
            return Err(Cause::Spent(Spent { left: self.left }));
        }
        self.left -= 1;
        Ok(())
    }
}
