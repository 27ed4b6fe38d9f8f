// What others changed is taken up.
ghost use Rattle.std.specs.Prelude.{◌≡◌};

use crate::loading::changes::{Changes, Findings, Stands};
use crate::loading::dirs::{Dirs, Seen};
use crate::loading::fault::{LeftOut, LoadFault, Reason, UnservedHandling};
use crate::loading::version::{Held, Version};
use crate::loading::walking::{Kept, Walk};
use ftp_disk_host::Host;
use ftp_tree_nodes::Nodes;
use std::alloc::Global;
use std::{io, mem};

/// Takes up what a look found: what is gone is cut, a file that is another one gets a version of its own, and of a new directory all that is below it
/// comes too. What passes a limit, counted by roots, or can't be served is left out; where that is what was asked for, or above it, this fails. Nothing
/// is left out for a limit of numbers before what others took away below its root has been looked for. What passed a limit is told beside.
///
/// Where it fails otherwise, a part may be taken up; the next look finds the rest.
pub fn take_up<H: Host, K: Held>(
    host: &H,
    nodes: &mut Nodes<Global, Version<K>>,
    dirs: &mut Dirs,
    version: &mut u64,
    findings: Findings,
) -> (io::Result<()>, LeftOut)
    ensures limits { nodes.new.limits ≡ nodes.old.limits }
{
    let (asked, changes, listed, why) = findings.into_parts();
    let alloc = host.memory();
    let limits = nodes.limits();
    let none = Nodes::within(alloc, limits);
    let kept = Kept {
        nodes: mem::replace(nodes, none),
        dirs: mem::replace(dirs, Dirs::new(alloc)),
        version: *version,
    };
    let left = LeftOut::nothing();
    let place = asked;
    let mut walk = Walk::new(host, kept, UnservedHandling::Asked { place, why, left });
    let taken = take_all(&mut walk, &changes, listed);
    let (kept, handling) = walk.into_parts();
    (*nodes, *dirs, *version) = kept.into_parts();
    nodes.limit(limits);
    (answer(taken, handling.why()), handling.into_left())
}

/// Takes up changes: first what is gone, the last first, so that little moves; then what takes no more room than before.
fn take_all<H: Host, K: Held>(
    walk: &mut Walk<'_, H, K>,
    changes: &Changes,
    listed: Option<Seen>,
) -> Result<(), LoadFault> {
    for place in changes.gone.iter().rev() {
        walk.cut(place.as_str())?;
    }
    walk.count();
    put_all(walk, changes.not_longer.as_slice())?;
    put_all(walk, changes.more.as_slice())?;
    if let Some(seen) = listed {
        walk.note(seen)?;
    }
    walk.load_all()
}

/// Takes in what stands at some places.
fn put_all<H: Host, K: Held>(walk: &mut Walk<'_, H, K>, all: &[Stands]) -> Result<(), LoadFault> {
    for stands in all {
        walk.put_found(stands.place.as_str(), stands.thing)?;
    }
    Ok(())
}

/// Whether what was asked for can be served.
fn answer(taken: Result<(), LoadFault>, why: Option<Reason>) -> io::Result<()> {
    match taken {
        Err(fault) => Err(fault.error()),
        Ok(()) => match why {
            Some(why) => Err(why.error()),
            None => Ok(()),
        },
    }
}
