// The field that is made of an input.
ghost use Rattle.std.specs.Prelude.{◌≡◌, Ok, Err, MatchResult};
ghost use Rattle.tool_accounts.specs.field.Field.{made_field};

use crate::field::fault::PasswordFault;
use crate::field::typed::password_in;
use ftp_secret::{Field, Method, Secret};

/// The field that is made of an input, by SHA-512, with this salt, and with so many rounds or the default.
pub fn field_of(rounds: Option<u32>, salt: &[u8], input: &[u8]) -> Result<Field, PasswordFault>
    ensures { MatchResult result (λ made. made_field rounds salt.now input.now ≡ Ok made.items) (λ fault. made_field rounds salt.now input.now ≡ Err fault) }
{
    let password = match password_in(input) {
        Ok(password) => password,
        Err(fault) => return Err(fault),
    };
    match Secret::made(Method::Sha512, rounds, salt, password) {
        Ok(secret) => Ok(secret.text()),
        Err(fault) => Err(PasswordFault::Secret(fault)),
    }
}
