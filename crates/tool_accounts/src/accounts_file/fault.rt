// Why a file says no accounts.
ghost use Rattle.std.specs.Prelude.{◌≡◌};
ghost use Rattle.tool_accounts.specs.accounts_file.Line.{of_accounts};

use ftp_operation::AccountsFault;
use ftp_secret::SecretFault;
use std::io;
use thiserror::Error;

/// What is wrong with a line.
#[derive(Clone, Copy, Debug, PartialEq, Eq, Error)]
pub enum AccountFault {
    #[error("wanted is user:password:root or user:password:root:rights")]
    Fields,
    /// No octet, or over 255, or CR or NUL.
    #[error("the user is no user name")]
    User,
    /// Over 255 octets, or CR or NUL.
    #[error("the password is none")]
    Password,
    /// It is written as a digest, `$6$..` or another kind, and none that is known.
    #[error("the password is none: {0}")]
    Secret(SecretFault),
    /// It does not begin with `/`, or is no path text, or is past the limits of a path.
    #[error("the root is no path that begins with /")]
    Root,
    #[error("the rights are none: letters of r, w, p, a, d, m, x, f and o are wanted after the root, or no colon")]
    Rights,
    #[error("a line above has this user")]
    SameUser,
    #[error("the root is below that of a line above, or above it, and the upper account may change something")]
    NestedRoots,
    #[error("out of memory")]
    Memory,
}

impl From<AccountsFault> for AccountFault {
    ghost from_gives = { λ fault told. told ≡ of_accounts fault };

    fn from(fault: AccountsFault) -> AccountFault {
        match fault {
            AccountsFault::SameUser => AccountFault::SameUser,
            AccountsFault::NestedRoots => AccountFault::NestedRoots,
        }
    }
}

/// Why a text says no accounts. Lines count from 1.
#[derive(Clone, Copy, Debug, PartialEq, Eq, Error)]
pub enum TextFault {
    #[error("line {line}: {fault}")]
    Line { line: usize, fault: AccountFault },
    /// The octets EF BB BF, which some editors put there.
    #[error("it begins with a byte order mark, which has to go")]
    Mark,
    #[error("more than 1,000 accounts")]
    TooMany,
    /// The allocator refused a growth.
    #[error("out of memory")]
    Memory,
}

/// Why a file says no accounts.
#[derive(Debug, Drop, Error)]
pub enum AccountsFileFault {
    #[error("{0}")]
    Text(TextFault),
    /// Its mode has a bit for its group or for others.
    #[error("others may use the file (mode {0:o}): its owner alone may")]
    Shared(u32),
    /// A directory, a device or a pipe, or over 1,048,576 octets.
    #[error("no file of accounts: a file of at most 1,048,576 octets is wanted")]
    Kind,
    /// The system refused to read it.
    #[error("{0}")]
    System(io::Error),
}
