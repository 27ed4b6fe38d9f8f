// Which file a name leads to, by values alone.
ghost use Rattle.std.specs.Prelude.{◌≡◌};
ghost use Rattle.tool_files.specs.local.Identity.{is_file, is_lone_file, is_own_part, is_same_file};

use crate::local::place::FileKind;
use std::fs::Metadata;
use std::os::unix::fs::MetadataExt;

/// Which file of this machine it is: no two that stand at the same time have both numbers in common. A link has its own.
#[derive(Clone, Copy, PartialEq, Eq)]
pub struct FileId {
    pub device: u64,
    pub inode: u64,
}

/// What the system says of what is open, or of what has a name.
#[derive(Clone, Copy)]
pub struct FileStatus {
    pub id: FileId,
    pub standing: FileKind,
    /// How many names it has.
    pub links: u64,
}

impl FileStatus {
    /// What the system found.
    pub(crate) fn of(found: &Metadata) -> FileStatus {
        FileStatus {
            id: FileId {
                device: found.dev(),
                inode: found.ino(),
            },
            standing: FileKind::of(found),
            links: found.nlink(),
        }
    }
}

/// Whether the file that has a name, if one has it, is the one that is open.
pub fn is_same_file(opened: FileId, named: Option<FileId>) -> bool
    // Witness: an equation; `edits/a_file_of_another_device_is_the_same`, `edits/a_part_without_its_name_is_moved`.
    ensures { result ≡ is_same_file opened named }
{
    match named {
        Some(named) => opened.device == named.device && opened.inode == named.inode,
        None => false,
    }
}

/// Whether it is a regular file that has one name at most.
pub fn is_lone_file(look: FileStatus) -> bool
    // Witness: an equation; `edits/a_part_of_two_names_is_written_to`.
    ensures { result ≡ is_lone_file look }
{
    is_file(look.standing) && look.links < 2
}

/// Whether a part that was opened again may be written to, where the file of this identity has its name.
pub fn is_own_part(opened: FileStatus, named: Option<FileId>) -> bool
    // Witness: an equation; `edits/a_link_is_written_through`.
    ensures { result ≡ is_own_part opened named }
{
    is_lone_file(opened) && is_same_file(opened.id, named)
}

fn is_file(standing: FileKind) -> bool
    ensures { result ≡ is_file standing }
{
    match standing {
        FileKind::File(_) => true,
        FileKind::Directory | FileKind::Pipe | FileKind::Other | FileKind::Nothing => false,
    }
}
