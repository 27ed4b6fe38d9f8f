// Why an operation is refused, and how a reply tells it (RFC 959, section 4.2).
ghost use Rattle.std.specs.Prelude.{◌≡◌, ◌≢◌, IsTrue, IfOk, IfErr, OnOk, MatchOption, true, false};
ghost use Rattle.ftp_path.specs.Path.{fits, resolved};
ghost use Rattle.ftp_operation.specs.Answer.{Refused, said_of};
ghost use Rattle.ftp_operation.specs.Operation.{is_path_text};
ghost use Rattle.ftp_direct.specs.Refusal.{code_of, told};

use ftp_facts::Text;
use ftp_operation::Answer;
use ftp_tree::{Path, PathFault, TreeFault};
use std::alloc::{AllocError, Allocator};

/// Why an operation is refused.
#[derive(Clone, Copy)]
pub enum Refusal {
    /// The tree's device failed.
    LocalFault,
    /// All nodes are taken.
    NoRoom,
    /// A file is no directory to be listed.
    BadArgument,
    /// An offset that the representation does not have.
    BadParameter,
    NotLoggedIn,
    /// What is named does not stand there, or may not be taken.
    Unavailable,
    /// The account may not do that.
    NotAllowed,
    /// The octets are too many.
    TooMuch,
    /// The new name may not be had, or the file there is not as long as it has to be.
    BadName,
}

impl Refusal {
    /// The code of the reply that tells it.
    pub fn code(self) -> u16
        ensures { result ≡ code_of self }
    {
        match self {
            Refusal::LocalFault => 451,
            Refusal::NoRoom => 452,
            Refusal::BadArgument => 501,
            Refusal::BadParameter => 504,
            Refusal::NotLoggedIn => 530,
            Refusal::Unavailable => 550,
            Refusal::NotAllowed => 550,
            Refusal::TooMuch => 552,
            Refusal::BadName => 553,
        }
    }
}

/// The answer that tells a refusal.
pub(crate) fn tell<A: Allocator + Copy>(why: Refusal) -> Answer<A>
    ensures { said_of result ≡ Refused (code_of why) }
{
    Answer::Refused(why.code())
}

/// What a call that the tree refused makes of an operation: want of memory ends the run, a failure of the device is a local
/// fault, and any other refusal is told as it is given.
pub(crate) fn refused<A: Allocator + Copy>(
    fault: TreeFault,
    why: Refusal,
) -> Result<Answer<A>, AllocError>
    ensures said { IfOk result (λ answer. said_of answer ≡ Refused (code_of (told fault why))) }
    ensures memory { IfErr result (λ _. fault ≡ TreeFault.Memory) }
    ensures other { OnOk result (fault ≢ TreeFault.Memory) }
{
    match fault {
        TreeFault::Memory => Err(AllocError),
        TreeFault::Device => Ok(tell(Refusal::LocalFault)),
        _ => Ok(tell(why)),
    }
}

/// The path that a text names, read from the current directory, or `None` where it is past the limits of paths.
pub(crate) fn find<A: Allocator + Copy>(
    alloc: &A,
    cwd: &Path<A>,
    text: &Text<A>,
) -> Result<Option<Path<A>>, AllocError>
    requires { IsTrue (is_path_text text.now) }
    ensures { IfOk result (λ found. MatchOption found (fits (resolved cwd.now text.now) ≡ false)
        (λ path. (path ≡ resolved cwd.now text.now) × (fits path ≡ true))) }
{
    match cwd.resolve(*alloc, text.as_slice()) {
        Ok(path) => Ok(Some(path)),
        Err(PathFault::TooBig) => Ok(None),
        Err(_) => Err(AllocError),
    }
}
