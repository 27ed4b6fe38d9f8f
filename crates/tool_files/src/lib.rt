//! Files and folders of this machine.
#![tactic(auto)]

pub mod folders;
pub mod local;

pub use folders::{DirectoryEntry, OpenBelow, OpenDir, Places, Sightings};
pub use local::{
    Change, FileContent, FileId, FileKind, FileStatus, Flush, GROWING, KeptPart, LimitedContent,
    LocalFiles, Note, OpenPart, OpenSource, PARTS, PartBeside, WriteMode, beside, is_lone_file,
    is_own_part, is_same_file, note_in, note_of, read_from, read_most,
};
