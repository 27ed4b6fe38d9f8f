// Which octets of an input are the password.
ghost use Rattle.std.specs.Prelude.{◌≡◌, Ok, Err, MatchResult};
ghost use Rattle.tool_accounts.specs.field.Typed.{checked, line_in, password_in};

use crate::field::fault::PasswordFault;
use ftp_path::{LOGIN_LIMIT, is_password};

/// A line without its end, CR LF or LF.
fn line_in(input: &[u8]) -> &[u8]
    ensures { result.now ≡ line_in input.now }
{
    if input.ends_with(b"\r\n") {
        &input[..input.len() - 2]
    } else if input.ends_with(b"\n") {
        &input[..input.len() - 1]
    } else {
        input
    }
}

/// A password of a login that is not empty, and else why it is none.
fn checked(password: &[u8]) -> Result<&[u8], PasswordFault>
    ensures { MatchResult result (λ given. checked password.now ≡ Ok given.now) (λ fault. checked password.now ≡ Err fault) }
{
    if password.is_empty() {
        return Err(PasswordFault::Empty);
    }
    if password.len() > LOGIN_LIMIT {
        return Err(PasswordFault::TooLong);
    }
    if !is_password(password) {
        return Err(PasswordFault::Octet);
    }
    Ok(password)
}

/// The password of an input: a line, with LF, CR LF or nothing after it.
pub(crate) fn password_in(input: &[u8]) -> Result<&[u8], PasswordFault>
    ensures { MatchResult result (λ password. password_in input.now ≡ Ok password.now) (λ fault. password_in input.now ≡ Err fault) }
{
    checked(line_in(input))
}
