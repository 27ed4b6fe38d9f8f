//! Which texts are user names and passwords (RFC 959, section 5.3.2): one rule for lines, logins and accounts.

ghost use Rattle.std.specs.Prelude.{◌≡◌};
ghost use Rattle.std.specs.List.{list_all};
ghost use Rattle.ftp_path.specs.Login.{is_login_octet, is_password, is_user};

/// The most octets of a user name, and of a password.
pub const LOGIN_LIMIT: usize = 255;

/// Whether a text is a user name: 1 to 255 octets, none of them CR, LF or NUL.
pub fn is_user(user: &[u8]) -> bool
    // Witness: equations; `a_user_name_of_256_octets_is_taken` beside the gate.
    ensures { result ≡ is_user user.now }
{
    1 <= user.len() && user.len() <= LOGIN_LIMIT && are_login_octets(user)
}

/// Whether a text is a password: at most 255 octets, none of them CR, LF or NUL.
pub fn is_password(pass: &[u8]) -> bool
    // Witness: as of `is_user`.
    ensures { result ≡ is_password pass.now }
{
    pass.len() <= LOGIN_LIMIT && are_login_octets(pass)
}

/// Whether no octet of a text is CR, LF or NUL.
pub fn are_login_octets(octets: &[u8]) -> bool
    // Witness: as of `is_user`.
    ensures { result ≡ list_all is_login_octet octets.now }
{
    octets.iter().all(|octet| is_login_octet(*octet))
}

fn is_login_octet(octet: u8) -> bool
    ensures { result ≡ is_login_octet octet }
{
    octet != 0 && octet != b'\n' && octet != b'\r'
}
