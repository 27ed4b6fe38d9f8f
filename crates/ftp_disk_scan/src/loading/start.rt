// What a tree of a disk begins with: the files and directories below its folder. No file is opened.
ghost use Rattle.std.specs.Prelude.{◌≡◌, IfOk};

use crate::loading::dirs::Dirs;
use crate::loading::fault::{LeftOut, LoadFault, Reason, Unserved, UnservedHandling};
use crate::loading::version::{Held, Version};
use crate::loading::walking::{Kept, Walk, reason_of};
use ftp_disk_host::{Found, Host, Look};
use ftp_path::Path;
use ftp_tree::Limits;
use ftp_tree_nodes::Nodes;
use std::alloc::Global;
use std::io::{Error, ErrorKind};

/// What a tree of a disk begins with.
pub struct Loaded<K: Held> {
    /// The files and directories, each file with its moment.
    pub nodes: Nodes<Global, Version<K>>,
    /// How directories looked.
    pub dirs: Dirs,
    /// The number of the last version of a file.
    pub version: u64,
    /// What of the folder is left out.
    pub left_out: LeftOut,
}

/// The files and directories below the folder of a host.
///
/// Below each of the roots limits are counted as sessions at that root count them: what they leave can be loaded. What is below none of them is
/// counted together, as one root. What is below two of them is counted at the lower one alone: who has the upper one may only look, so below that
/// there may be more than the limits. So it is counted at each look, too.
///
/// What an interrupted write left is kept under a name of its own, and is not part of the tree; it is removed where it is empty.
///
/// What is neither a file nor a directory, has a name that is none of a tree, passes a limit, or can't be looked at or listed: the first of it is the
/// fault, in the order of the octets of names in each directory, or all of it is left out. A directory that can't be listed is there then, and empty.
pub fn load<H: Host, K: Held>(
    host: &H,
    roots: &[Path<Global>],
    limits: Limits,
    unserved: Unserved,
) -> Result<Loaded<K>, LoadFault>
    ensures limits { IfOk result (λ loaded. loaded.nodes.limits ≡ limits) }
{
    let alloc = host.memory();
    let Ok(dirs) = Dirs::below(alloc, roots) else {
        return Err(LoadFault::Memory);
    };
    let kept = Kept {
        nodes: Nodes::within(alloc, limits),
        dirs,
        version: 0,
    };
    let (kept, left_out) = load_all(host, kept, unserved)?;
    let (mut nodes, dirs, version) = kept.into_parts();
    nodes.limit(limits);
    Ok(Loaded {
        nodes,
        dirs,
        version,
        left_out,
    })
}

/// Takes in all that is below the folder.
fn load_all<H: Host, K: Held>(
    host: &H,
    kept: Kept<K>,
    unserved: Unserved,
) -> Result<(Kept<K>, LeftOut), LoadFault> {
    let look = folder_look(host)?;
    let mut walk = Walk::new(host, kept, handling_of(unserved));
    let Ok(()) = walk.await_dir("", look) else {
        return Err(LoadFault::Memory);
    };
    walk.load_all()?;
    let (kept, handling) = walk.into_parts();
    Ok((kept, handling.into_left()))
}

/// How the folder itself looks.
fn folder_look<H: Host>(host: &H) -> Result<Look, LoadFault> {
    let error = match host.found("") {
        Ok(Found::Dir(look)) => return Ok(look),
        Ok(Found::Nothing) => Error::from(ErrorKind::NotFound),
        Ok(Found::File(_) | Found::Other) => Error::from(ErrorKind::NotADirectory),
        Err(error) => error,
    };
    let why = reason_of(error)?;
    Err(LoadFault::at(host.memory(), b"".as_slice(), why))
}

/// What becomes of what can't be served, of which nothing was met yet.
fn handling_of(unserved: Unserved) -> UnservedHandling {
    match unserved {
        Unserved::Refuse => UnservedHandling::Refuse,
        Unserved::LeaveOut => UnservedHandling::LeaveOut(LeftOut::nothing()),
    }
}
