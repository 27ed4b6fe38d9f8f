// Files of this end: read, also from an octet on and up to a limit; written beside their names, also as their octets come, and moved over them once they
// are whole (own choice).

mod change;
mod content;
mod disk;
mod identity;
mod kept;
mod local_files;
mod note;
mod open_part;
mod open_source;
mod part;
mod place;
mod writing;

pub use change::Change;
pub use content::{FileContent, LimitedContent, read_from, read_most};
pub use identity::{FileId, FileStatus, is_lone_file, is_own_part, is_same_file};
pub use kept::{KeptPart, PartBeside};
pub use local_files::LocalFiles;
pub use note::{GROWING, Note, note_in, note_of};
pub use open_part::OpenPart;
pub use open_source::OpenSource;
pub use part::beside;
pub use place::{FileKind, WriteMode};
pub use writing::{Flush, PARTS};
