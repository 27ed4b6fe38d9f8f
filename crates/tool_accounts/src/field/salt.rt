// The salt of random octets.
ghost use Rattle.std.specs.Prelude.{◌≡◌, ◌<◌, IsTrue, length};
ghost use Rattle.std.specs.List.{list_all};
ghost use Rattle.ftp_secret.specs.Crypt.{letter};
ghost use Rattle.ftp_secret.specs.Secret.{is_letter};
ghost use Rattle.tool_accounts.specs.field.Salt.{salt_of};

use arrayvec::ArrayVec;

/// The letters of a salt (SHA-crypt has 16 at most).
const SALT_LIMIT: usize = 16;

/// A salt of `./0-9A-Za-z`.
pub type Salt = ArrayVec<u8, SALT_LIMIT>;

/// The letter of six bits: `.`, `/`, the digits, the capitals, the small letters.
fn letter(bits: u8) -> u8
    requires { bits < 64 }
    ensures { result ≡ letter bits }
{
    if bits < 12 {
        bits + b'.'
    } else if bits < 38 {
        bits + (b'A' - 12)
    } else {
        bits + (b'a' - 38)
    }
}

/// The salt of 16 random octets: a letter for the lowest six bits of each.
pub fn salt_of(octets: &[u8; SALT_LIMIT]) -> Salt
    // Witness: equations; salt follows from letters.
    ensures letters { result.items ≡ salt_of octets.now }
    ensures len { length result.items ≡ 16 }
    ensures salt { IsTrue (list_all is_letter result.items) }
{
    let mut salt = Salt::new();
    for octet in octets {
        salt.push(letter(*octet % 64));
    }
    salt
}
