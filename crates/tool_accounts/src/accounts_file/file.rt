// The file of accounts.
ghost use Rattle.std.specs.Prelude.{◌≡◌, None, IfOk};
ghost use Rattle.ftp_operation.specs.Account.{accounts_refusal};

use crate::accounts_file::fault::AccountsFileFault;
use crate::accounts_file::reach::{Reach, read_reach};
use crate::accounts_file::reading::read_accounts;
use ftp_operation::Accounts;
use std::alloc::Global;
use std::fs::Files;
use tool_login::{NotPrivate, read_private};

/// The most octets of a file of accounts (own choice).
const FILE_LIMIT: u64 = 1_048_576;

/// The accounts that a file says. It has passwords, so its owner alone may use it.
pub fn load_accounts<R: Files + AllocGlobal>(
    files: &R,
    file: &str,
) -> Result<Accounts<Global>, AccountsFileFault>
    // Witness: an equation of what is given.
    ensures allowed { IfOk result (λ accounts. accounts_refusal accounts ≡ None) }
{
    let text = text_of(files, file)?;
    match read_accounts(files.alloc(), text.as_slice()) {
        Ok(accounts) => Ok(accounts),
        Err(fault) => Err(AccountsFileFault::Text(fault)),
    }
}

/// How far the accounts reach that a file says.
pub fn load_reach<R: Files + AllocGlobal>(
    files: &R,
    file: &str,
) -> Result<Reach<Global>, AccountsFileFault> {
    let text = text_of(files, file)?;
    match read_reach(files.alloc(), text.as_slice()) {
        Ok(reach) => Ok(reach),
        Err(fault) => Err(AccountsFileFault::Text(fault)),
    }
}

/// The octets of a file that its owner alone may use.
fn text_of<R: Files + AllocGlobal>(
    files: &R,
    file: &str,
) -> Result<Vec<u8, Global>, AccountsFileFault> {
    match read_private(files, file, FILE_LIMIT) {
        Ok(text) => Ok(text),
        Err(NotPrivate::Kind) => Err(AccountsFileFault::Kind),
        Err(NotPrivate::Shared(mode)) => Err(AccountsFileFault::Shared(mode)),
        Err(NotPrivate::System(error)) => Err(AccountsFileFault::System(error)),
    }
}
