// Who may log in where no file of accounts is given (RFC 959, section 4.1.1).
ghost use Rattle.std.specs.Prelude.{◌≡◌, IfOk};
ghost use Rattle.tool_accounts.specs.accounts_file.Known.{anonymous, guest, two_accounts};

use ftp_facts::Text;
use ftp_operation::{Account, Accounts, Rights};
use ftp_path::Path;
use ftp_secret::Secret;
use std::alloc::{AllocError, Allocator};

/// `guest` with the password `secret`, and `anonymous` without one, both at the root (own choice).
pub fn two_accounts<A: Allocator + Copy>(alloc: A) -> Result<Accounts<A>, AllocError>
    // Witness: an equation; `anonymous_needs_a_password.edit`, `any_other_word_is_the_password.edit`, beside the gate.
    ensures { IfOk result (λ accounts. accounts ≡ two_accounts) }
{
    let mut list = Vec::new(alloc);
    list.push(guest(alloc)?)?;
    list.push(anonymous(alloc)?)?;
    match Accounts::new(list) {
        Ok(accounts) => Ok(accounts),
        Err(_) => Err(AllocError),
    }
}

/// The account that needs a password.
fn guest<A: Allocator + Copy>(alloc: A) -> Result<Account<Text<A>, Path<A>>, AllocError>
    ensures { IfOk result (λ account. account ≡ guest) }
{
    let user = Text::copy_of(alloc, b"guest")?;
    let pass = Some(Secret::plain(b"secret"));
    let root = Path::root(alloc);
    Ok(Account {
        user,
        pass,
        root,
        rights: Rights::all(),
    })
}

/// The account without one.
fn anonymous<A: Allocator + Copy>(alloc: A) -> Result<Account<Text<A>, Path<A>>, AllocError>
    ensures { IfOk result (λ account. account ≡ anonymous) }
{
    let user = Text::copy_of(alloc, b"anonymous")?;
    let pass = None;
    let root = Path::root(alloc);
    Ok(Account {
        user,
        pass,
        root,
        rights: Rights::all(),
    })
}
