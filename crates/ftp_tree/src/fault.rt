// Why a call on a tree was refused.
ghost use Rattle.std.specs.Prelude.{◌≡◌};
ghost use Rattle.ftp_tree.specs.Tree.{of_path};

use ftp_path::PathFault;
use thiserror::Error;

/// A refused call changes nothing; of several refusals the first of the call's own order is given, `Memory` last.
#[derive(Clone, Copy, Debug, PartialEq, Eq, Error)]
pub enum TreeFault {
    /// Nothing stands there, or no parent.
    #[error("nothing stands there")]
    Absent,
    /// Something stands there already.
    #[error("something stands there already")]
    Exists,
    /// A directory in which something stands.
    #[error("the directory is not empty")]
    NotEmpty,
    /// A file where a directory is needed, or the other way round; a path that would come below itself; a text that is
    /// no path text.
    #[error("what stands there is of the wrong kind")]
    WrongKind,
    /// A name of over 255 octets, a canonical text of over 900, or a file past its limit.
    #[error("too long")]
    TooBig,
    /// As many nodes stand beside the root as may, or all files together would pass their limit.
    #[error("the tree is full")]
    Full,
    /// The root, or a directory in use.
    #[error("it is in use")]
    Busy,
    /// A place past the end of a file.
    #[error("past the end of the file")]
    BadOffset,
    /// The device that keeps the tree failed.
    #[error("the device failed")]
    Device,
    /// The allocator refused a growth.
    #[error("out of memory")]
    Memory,
}

/// The tree's device failed at a reading, and that is counted.
#[derive(Clone, Copy)]
pub struct Broken;

impl From<PathFault> for TreeFault {
    ghost from_gives = { λ fault told. told ≡ of_path fault };

    fn from(fault: PathFault) -> TreeFault {
        match fault {
            PathFault::NotText => TreeFault::WrongKind,
            PathFault::TooBig => TreeFault::TooBig,
            PathFault::Memory => TreeFault::Memory,
        }
    }
}
