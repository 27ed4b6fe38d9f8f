// What a reply's code says (RFC 959, section 4.2.1).
ghost use Rattle.std.specs.Prelude.{◌≡◌};
ghost use Rattle.ftp_client_model.specs.Dialogue.{is_refusal_code};
ghost use Rattle.ftp_client_model.specs.Replies.{verdict_by, verdict_of};
ghost use Rattle.ftp_client_steps.specs.Verdict.{verdict_in};

use ftp_reply::code::{ACCOUNT_NEEDED, NOT_AVAILABLE};

/// What a reply's code says by its first digit; two codes say more.
#[derive(Clone, Copy)]
pub enum Verdict {
    /// 1yz.
    Preliminary,
    /// 2yz.
    Completion,
    /// 3yz.
    Intermediate,
    /// 4yz and 5yz.
    Negative,
    /// 421: the service closes.
    Closing,
    /// 332: an account is asked for, which has no place in this profile (own choice).
    Displaced,
}

/// What a reply's code says.
pub fn verdict_of(code: u16) -> Verdict
    ensures { verdict_in result ≡ verdict_of code }
{
    if code == NOT_AVAILABLE {
        Verdict::Closing
    } else if code == ACCOUNT_NEEDED {
        Verdict::Displaced
    } else {
        verdict_by(code / 100)
    }
}

/// What a first digit says.
fn verdict_by(digit: u16) -> Verdict
    ensures { verdict_in result ≡ verdict_by digit }
{
    if digit == 1 {
        Verdict::Preliminary
    } else if digit == 2 {
        Verdict::Completion
    } else if digit == 3 {
        Verdict::Intermediate
    } else {
        Verdict::Negative
    }
}

/// Whether a code is 4yz or 5yz.
pub fn is_refusal(code: u16) -> bool
    ensures { result ≡ is_refusal_code code }
{
    code >= 400
}
