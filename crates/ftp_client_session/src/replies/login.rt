// The replies to the login (RFC 959, section 5.4).
ghost use Rattle.std.specs.Prelude.{◌≡◌, OnErr, OnOk};
ghost use Rattle.ftp_client_model.specs.Dialogue.{greeted, pass_answered, user_answered};
ghost use Rattle.ftp_client_session.specs.Client.{view_of};
ghost use Rattle.ftp_client_steps.specs.Verdict.{verdict_in};

use crate::dialogue::Dialogue;
use ftp_client_model::client::Standing;
use ftp_client_steps::{ClientTransfer, Verdict};
use ftp_reply::code::DELAYED;
use std::alloc::{AllocError, Allocator};

/// After a greeting USER is sent; 120 is skipped, and another greeting has no place (own choice).
pub(crate) fn greeted<A: Allocator + Copy, F: ClientTransfer<A>>(
    dialogue: &mut Dialogue<A, F>,
    verdict: Verdict,
    code: u16,
) -> Result<(), AllocError>
    requires { (view_of F.flow dialogue.old).standing ≡ Standing.Greeting }
    ensures ok { OnOk result (view_of F.flow dialogue.new ≡ greeted (verdict_in verdict) code (view_of F.flow dialogue.old)) }
    ensures err { OnErr result (view_of F.flow dialogue.new ≡ view_of F.flow dialogue.old) }
{
    match verdict {
        Verdict::Completion => dialogue.send_user(),
        Verdict::Preliminary => {
            if code != DELAYED {
                dialogue.strange();
            }
            Ok(())
        }
        Verdict::Intermediate | Verdict::Negative => {
            dialogue.strange();
            Ok(())
        }
        Verdict::Closing | Verdict::Displaced => {
            dialogue.strange();
            Ok(())
        }
    }
}

/// PASS is sent where USER is answered that it is needed.
pub(crate) fn user_answered<A: Allocator + Copy, F: ClientTransfer<A>>(
    dialogue: &mut Dialogue<A, F>,
    verdict: Verdict,
) -> Result<(), AllocError>
    requires { (view_of F.flow dialogue.old).standing ≡ Standing.User }
    ensures ok { OnOk result (view_of F.flow dialogue.new ≡ user_answered (verdict_in verdict) (view_of F.flow dialogue.old)) }
    ensures err { OnErr result (view_of F.flow dialogue.new ≡ view_of F.flow dialogue.old) }
{
    match verdict {
        Verdict::Intermediate => dialogue.send_pass(),
        Verdict::Completion | Verdict::Negative => dialogue.login_ends(),
        Verdict::Preliminary | Verdict::Closing | Verdict::Displaced => {
            dialogue.strange();
            Ok(())
        }
    }
}

/// What PASS is answered with ends the login, a refusal too.
pub(crate) fn pass_answered<A: Allocator + Copy, F: ClientTransfer<A>>(
    dialogue: &mut Dialogue<A, F>,
    verdict: Verdict,
) -> Result<(), AllocError>
    requires { (view_of F.flow dialogue.old).standing ≡ Standing.Pass }
    ensures ok { OnOk result (view_of F.flow dialogue.new ≡ pass_answered (verdict_in verdict) (view_of F.flow dialogue.old)) }
    ensures err { OnErr result (view_of F.flow dialogue.new ≡ view_of F.flow dialogue.old) }
{
    match verdict {
        Verdict::Completion | Verdict::Negative => dialogue.login_ends(),
        Verdict::Preliminary | Verdict::Intermediate => {
            dialogue.strange();
            Ok(())
        }
        Verdict::Closing | Verdict::Displaced => {
            dialogue.strange();
            Ok(())
        }
    }
}
