// Why a line is no command, and why a command has no line.

use thiserror::Error;

/// Why a line says no command that can be done, or why a value has no line.
#[derive(Clone, Copy, Debug, PartialEq, Eq, Error)]
pub enum CommandFault {
    /// No verb that is known: 500.
    #[error("Unknown")]
    Unknown,
    /// A missing or unreadable argument: 501. Of `write`: a value that no line stands for.
    #[error("BadArgument")]
    BadArgument,
    /// A verb that is known and not done: 502.
    #[error("NotDone")]
    NotDone,
    /// A parameter that the standard has and that is not done: 504.
    #[error("BadParameter")]
    BadParameter,
    /// A network protocol other than IPv4 and IPv6: 522.
    #[error("Protocol")]
    Protocol,
    /// A growth was refused.
    #[error("Memory")]
    Memory,
}
