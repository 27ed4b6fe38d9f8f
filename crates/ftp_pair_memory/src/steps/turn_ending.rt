// How some turns of a drive ended.
ghost use Rattle.std.specs.Prelude.{◌≡◌};
ghost use Rattle.ftp_pair_memory.specs.steps.Turning.{IsFarCourse, IsNearCourse, IsReported};

use ftp_client_driver::{Driven, Turned};
use ftp_operation::Answer;
use ftp_ports::Cause;
use std::alloc::Allocator;

/// How some turns of a drive ended.
#[derive(Drop)]
pub(crate) enum Course<T> {
    /// The drive is over, and this is what the end gave.
    Over(T),
    /// It goes on.
    On,
    /// No turn comes after.
    Off(Stop),
}

/// Why no turn comes after one.
#[derive(Clone, Copy)]
pub(crate) enum Stop {
    /// Its drive broke off.
    Broken(Cause),
    /// Octets were read that the end did not hear, and no later turn would find them.
    Unheard,
    /// Its drive was over, and the end gave nothing: a server's; no client's, as its drive says.
    Done,
    /// It could not begin: an end and its ports did not agree on who had the data connection, or one was called who had one.
    Unmet,
    /// After it the ports did not know where the data connection is: the end gave back one that was not its own, or it and its ports do not agree who has it.
    Unknown,
}

/// That of a client's drive, where all that was read was heard or not.
pub(crate) fn near_course<A: Allocator + Copy>(
    turned: Turned<Driven<A>>,
    is_heard: bool,
) -> Course<Answer<A>>
    ensures { IsNearCourse result turned is_heard }
{
    match turned {
        Turned::Over(driven) => {
            let Driven { report, off } = driven;
            match off {
                Some(cause) => Course::Off(Stop::Broken(cause)),
                None => reported(report, is_heard),
            }
        }
        Turned::Later | Turned::More => if is_heard {
            Course::On
        } else {
            Course::Off(Stop::Unheard)
        }
    }
}

/// That of a client's drive which did not break off.
fn reported<A: Allocator + Copy>(report: Option<Answer<A>>, is_heard: bool) -> Course<Answer<A>>
    ensures { IsReported result report is_heard }
{
    match report {
        Some(answer) => if is_heard {
            Course::Over(answer)
        } else {
            Course::Off(Stop::Unheard)
        }
        None => Course::Off(Stop::Done),
    }
}

/// That of a server's drive.
pub(crate) fn far_course(turned: Result<Turned<()>, Cause>, is_heard: bool) -> Course<()>
    ensures { IsFarCourse result turned is_heard }
{
    let turned = match turned {
        Ok(turned) => turned,
        Err(cause) => return Course::Off(Stop::Broken(cause)),
    };
    if !is_heard {
        return unheard(turned);
    }
    match turned {
        Turned::Over(over) => Course::Over(over),
        Turned::Later | Turned::More => Course::On,
    }
}

fn unheard(turned: Turned<()>) -> Course<()>
    ensures { result ≡ Course.Off Stop.Unheard }
{
    match turned {
        Turned::Over(()) | Turned::Later | Turned::More => Course::Off(Stop::Unheard),
    }
}
