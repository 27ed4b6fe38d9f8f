// Why a field says no secret.
use thiserror::Error;

/// What is wrong with a field, the first of it.
#[derive(Clone, Copy, Debug, PartialEq, Eq, Error)]
pub enum SecretFault {
    /// It has over 255 octets.
    #[error("a password of over 255 octets")]
    TooLong,
    /// It has the form of a secret that is not plain (crypt(5)), and is neither `$5$` nor `$6$`.
    #[error("a password of a kind that is not known")]
    Kind,
    /// `rounds=` is not followed by a number of at least 1,000, without zeros in front, and `$`.
    #[error("no number of rounds")]
    Rounds,
    /// It asks for more than 1,000,000 rounds.
    #[error("more than 1,000,000 rounds")]
    TooManyRounds,
    /// There is no salt of at most 16 octets of `./0-9A-Za-z`, and `$` behind it.
    #[error("no salt")]
    Salt,
    /// What stands behind the salt is not 43 or 86 letters of `./0-9A-Za-z`.
    #[error("no digest")]
    Hash,
}
