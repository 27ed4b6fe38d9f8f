//! Why a line, or the text of a reply, is refused.
use thiserror::Error;

/// A refusal of this crate.
#[derive(Clone, Copy, Debug, PartialEq, Eq, Error)]
pub enum ReplyFault {
    /// No reply begins with the line.
    #[error("Q1 BadCode")]
    BadCode,
    /// More than 64 lines, or more than 8,192 octets in their texts together.
    #[error("Q2 TooMany")]
    TooMany,
    /// The text names no endpoint.
    #[error("Q3 NoEndpoint")]
    NoEndpoint,
    /// The text has no quoted path.
    #[error("Q4 NoPath")]
    NoPath,
    /// The text has no number where one belongs.
    #[error("Q5 NoNumber")]
    NoNumber,
    /// A growth was refused.
    #[error("Q6 Memory")]
    Memory,
    /// The reader met a fault before.
    #[error("Q7 Failed")]
    Failed,
}
