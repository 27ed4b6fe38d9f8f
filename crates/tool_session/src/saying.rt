// What is told on standard error.
ghost use Rattle.std.specs.Prelude.{◌≡◌, IfOk};

use std::fmt::Display;
use std::io;
use std::io::Eprint;
use tool_terminal::Status;

/// Tells on standard error, in a line: a text, what it is about, and the text behind that.
pub fn say<R, D>(rt: &R, before: &str, what: &D, behind: &str) -> io::Result<()>
where
    R: Eprint,
    D: Display,
{
    eprintln!(rt; "{before}{what}{behind}")
}

/// The same, and gives an exit status.
pub fn told<R, D>(
    rt: &R,
    before: &str,
    what: &D,
    behind: &str,
    status: Status,
) -> io::Result<Status>
where
    R: Eprint,
    D: Display,
    // Witness: an equation; `SessionFault::tell` needs it.
    ensures { IfOk result (λ said. said ≡ status) }
{
    say(rt, before, what, behind)?;
    Ok(status)
}
