// What a tree of a disk asks of a system that has its files.
ghost use Rattle.std.specs.Prelude.{◌≤◌, ◌<◌, IfOk, length};

use ftp_facts::Moment;
use std::alloc::Global;
use std::io;

/// A time of a system: seconds since 1970, and nanoseconds of the second.
#[derive(Clone, Copy, Debug, PartialEq, Eq)]
pub struct Stamp {
    pub seconds: i64,
    pub nanos: i64,
}

/// What tells a file or a directory from each other one, and from what it was before a change: its device and inode, how many octets it has, and
/// when it and its inode were changed last.
#[derive(Clone, Copy, Debug, PartialEq, Eq)]
pub struct Look {
    pub device: u64,
    pub inode: u64,
    pub len: u64,
    pub modified: Stamp,
    pub touched: Stamp,
}

/// What stands at a place. A link is not followed.
#[derive(Clone, Copy, Debug, PartialEq, Eq)]
pub enum Found {
    Nothing,
    Dir(Look),
    File(Look),
    /// A link, a device, a pipe or a socket.
    Other,
}

/// Who has the files of a folder. A place `below` it is a `/` before each of its names, and empty for the folder itself; no name of it is `.` or `..`.
/// No link on the way to a place is followed: such a call fails. `found` alone looks at no directory on the way: who asks it comes from the folder down,
/// and has found each of them. Where a call fails, what stood at its place stands there still, unless it says else.
pub trait Host {
    /// A directory that is open, whose names are told whatever becomes of its own name.
    type Folder: Drop;
    /// A file that is open.
    type File: Drop;
    /// A file that is written beside a name, and has that once it is whole. Let go of by `discard`, it is gone.
    type Part: Drop;

    /// Where memory is had.
    fn memory(&self) -> Global;

    /// The time now, as the system stamps files: none of its stamps is later, but for those that others set.
    fn now(&self) -> Stamp;

    /// What stands at a place. Nothing does below a file, and by a name that is too long for the system.
    fn found(&self, below: &str) -> io::Result<Found>;

    /// Opens a directory.
    fn folder(&self, below: &str) -> io::Result<Self::Folder>;

    /// The names in it, a NUL after each, in the order in which the system lists them; without `.` and `..`. They are told once.
    fn names(&self, folder: &Self::Folder) -> io::Result<Vec<u8, Global>>;

    /// What stands in it by a name, in which no `/` is. Nothing does by one that is too long for the system.
    fn found_in(&self, folder: &Self::Folder, name: &str) -> io::Result<Found>;

    /// Opens the file that looked so, and no other that has come in its place: the same inode, with as many octets, changed at the same time. That its
    /// inode was touched since is no change.
    fn open(&self, below: &str, look: Look) -> io::Result<Self::File>;

    /// Reads octets of an open file from a place on, and says how many; an end before the first of them is a failure. So is it where the last of its octets
    /// are read and others changed them since it was opened: it has another length or moment, or its inode was touched and neither its name, its links,
    /// its permissions nor its owner tell why.
    fn read(&self, file: &mut Self::File, at: u64, room: &mut [u8]) -> io::Result<usize>
        // Witness: of whoever has files: at most what there is room for, and something where there is room.
        ensures most { IfOk result (λ count. count ≤ length room.old) }
        ensures some { IfOk result (λ count. 0 < length room.old → 0 < count) };

    /// Begins a file that is written beside a place, in its directory, by a name that `is_left` knows. Once that directory has another
    /// name itself, the part gets none any more.
    fn begin(&self, below: &str) -> io::Result<Self::Part>;

    /// The same of one that is to be put over the file that looked so, after the first octets of that, `count` of them. `copy_on` may copy these
    /// meanwhile; `keep` copies them where it did not, or where another file stands there by then.
    fn begin_after(&self, below: &str, _look: Look, _count: u64) -> io::Result<Self::Part> {
        self.begin(below)
    }

    /// The number by which `copy_on` copies the first octets of the part that was begun last, once; none where `keep` copies them.
    fn begun(&self) -> Option<u64> {
        None
    }

    /// Copies some more of these first octets, few enough that nobody else waits for long, and says whether there are more to copy.
    fn copy_on(&self, _number: u64) -> bool {
        false
    }

    /// Writes octets after those that a part has. Where that fails, the part is of no use any more.
    fn write(&self, part: &mut Self::Part, octets: &[u8]) -> io::Result<()>;

    /// Puts the first octets of the file that looked so, `count` of them, in front of those that a part has. Where that fails, the part is of no use
    /// any more.
    fn keep(&self, part: &mut Self::Part, below: &str, look: Look, count: u64) -> io::Result<()>;

    /// Gives a part its moment and the name of a place where nothing stands; it and its name are on the disk then. Where something does, that stays,
    /// and this fails. How it looks.
    fn put_new(&self, part: &mut Self::Part, below: &str, moment: Moment) -> io::Result<Look>;

    /// Gives a part its moment, the permissions of the file that stands at a place, and the name of that, in one step; it and its name are on the disk
    /// then. Where only the flush of the directory fails, the file is replaced already. How it looks.
    fn put_over(&self, part: &mut Self::Part, below: &str, moment: Moment) -> io::Result<Look>;

    /// Removes a part that got no name.
    fn discard(&self, part: &mut Self::Part);

    /// Makes a directory, and its name is on the disk then.
    fn make_dir(&self, below: &str) -> io::Result<()>;

    /// Removes an empty directory. Where only the flush of the directory above fails, it is gone already.
    fn remove_dir(&self, below: &str) -> io::Result<()>;

    /// Removes a file. Where only the flush of the directory fails, it is gone already.
    fn delete(&self, below: &str) -> io::Result<()>;

    /// Moves what stands at a place to one where nothing stands. Its inode is touched by that.
    fn rename(&self, from: &str, to: &str) -> io::Result<()>;

    /// Moves a file into the place of another, in one step. Its inode is touched by that. Where only the flush of the directories fails, it is there
    /// already.
    fn rename_onto(&self, from: &str, to: &str) -> io::Result<()>;

    /// Whether a name is that of a part, of this program or one that an interrupted write left, or of one that was kept so. A look leaves it out.
    fn is_left(&self, name: &str) -> bool;

    /// Keeps a part that an interrupted write left under a name of its own, where nobody finds it by the protocol; one without octets is removed. Only
    /// before anything is begun: a part that is written now has such a name too.
    fn leave(&self, below: &str, len: u64) -> io::Result<()>;

    /// Notes why a call failed, for whoever tells of it.
    fn blame(&self, error: io::Error);

    /// Why the last call that was blamed failed, once.
    fn reason(&self) -> Option<io::Error>;
}
