// Why no field is made of an input.
use ftp_secret::SecretFault;
use thiserror::Error;

/// What is wrong, the first of it.
#[derive(Clone, Copy, Debug, PartialEq, Eq, Error)]
pub enum PasswordFault {
    /// The line is empty: an account that needs no password has an empty field.
    #[error("no password is given; an account that needs none has an empty field")]
    Empty,
    /// No login has so many octets.
    #[error("a password has at most 255 octets")]
    TooLong,
    /// No login has such an octet.
    #[error("a password is one line, without CR and NUL")]
    Octet,
    /// The salt is none, or the rounds are too few or too many.
    #[error("{0}")]
    Secret(SecretFault),
}
