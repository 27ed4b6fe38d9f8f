// How the directories of a disk looked when their names were taken in.
ghost use Rattle.std.specs.Prelude.{◌≡◌};

use crate::loading::roots::Roots;
use ftp_disk_host::{Look, Stamp};
use ftp_path::Path;
use ftp_tree::Sight;
use std::alloc::{AllocError, Global};
use std::collections::BTreeMap;

/// What was changed less than so many nanoseconds ago may be changed again without looking otherwise (own choice).
const FRESH: i64 = 100_000_000;

/// The same where stamps seem to have no parts of a second (own choice).
const COARSELY_FRESH: i64 = 2_000_000_000;

/// For want of room alone names are listed again once so many times as long went by as it took before (own choice).
const REST: i64 = 10;

/// How a directory was taken in.
#[derive(Clone, Copy, Debug, PartialEq, Eq)]
pub(crate) enum Taken {
    /// All that can be served.
    Whole,
    /// Something was left out that passed a limit: a file in it that becomes shorter does not change how the directory looks.
    Short,
    /// It was changed so shortly before that a later change may look the same.
    Fresh,
}

/// How a directory looked, and how it was taken in then.
#[derive(Clone, Copy)]
pub struct Seen {
    look: Look,
    taken: Taken,
    /// When it was, in nanoseconds since 1970.
    at: i64,
    /// How many nanoseconds that took.
    took: i64,
    /// How often this tree changed a name in it since.
    pub changes: u32,
}

impl Seen {
    /// A directory that looked so before its names were listed, at a time.
    pub fn of(look: Look, now: Stamp) -> Seen
        // Witness: equations; `edits/a_listed_directory_was_changed_since`.
        ensures look { result.look ≡ look }
        ensures changes { result.changes ≡ 0 }
    {
        let is_fresh = is_fresh(look.modified, now) || is_fresh(look.touched, now);
        let taken = if is_fresh { Taken::Fresh } else { Taken::Whole };
        Seen {
            look,
            taken,
            at: nanos(now),
            took: 0,
            changes: 0,
        }
    }

    /// The same, where its names were taken in by a time.
    pub fn by(self, now: Stamp) -> Seen
        ensures look { result.look ≡ self.look }
        ensures changes { result.changes ≡ self.changes }
    {
        Seen {
            took: nanos(now).saturating_sub(self.at),
            ..self
        }
    }

    /// The same, where something passed a limit.
    pub(crate) fn short(self) -> Seen
        ensures look { result.look ≡ self.look }
        ensures changes { result.changes ≡ self.changes }
    {
        let taken = match self.taken {
            Taken::Whole | Taken::Short => Taken::Short,
            Taken::Fresh => Taken::Fresh,
        };
        Seen { taken, ..self }
    }

    /// Whether so long went by since then that its names may be listed for want of room; also where the clock was set back.
    pub fn has_rested(self, now: Stamp) -> bool {
        let age = nanos(now).saturating_sub(self.at);
        age < 0 || age >= self.took.saturating_mul(REST)
    }

    /// Whether its names need not be listed again.
    fn is_current(self, look: Look, sight: Sight) -> bool {
        let is_enough = match self.taken {
            Taken::Whole => true,
            Taken::Short => sight == Sight::Path,
            Taken::Fresh => false,
        };
        is_enough && self.changes == 0 && self.look == look
    }
}

/// Whether a later change may have the same stamp.
fn is_fresh(stamp: Stamp, now: Stamp) -> bool {
    let age = nanos(now).saturating_sub(nanos(stamp));
    let bound = if stamp.nanos == 0 {
        COARSELY_FRESH
    } else {
        FRESH
    };
    age < bound
}

/// Nanoseconds since 1970.
fn nanos(stamp: Stamp) -> i64 {
    stamp
        .seconds
        .saturating_mul(1_000_000_000)
        .saturating_add(stamp.nanos)
}

/// The directories whose names were taken in, by their names joined, and below which roots limits are counted. Nothing is wrong where one is forgotten:
/// its names are listed again.
pub struct Dirs {
    pub roots: Roots,
    alloc: Global,
    seen: BTreeMap<Vec<u8, Global>, Seen, Global>,
}

/// By hand, as that of a tree.
impl Drop for Dirs {
    fn drop(self) {
        let Self {
            roots: _,
            alloc: _,
            seen: _,
        } = self;
    }
}

impl Dirs {
    /// None, and no root but the tree's.
    pub fn new(alloc: Global) -> Dirs {
        Dirs {
            roots: Roots::none(alloc),
            alloc,
            seen: BTreeMap::new(alloc),
        }
    }

    /// None, and limits that are counted below each of some roots.
    pub(crate) fn below(alloc: Global, roots: &[Path<Global>]) -> Result<Dirs, AllocError> {
        let roots = Roots::of(alloc, roots)?;
        Ok(Dirs {
            roots,
            alloc,
            seen: BTreeMap::new(alloc),
        })
    }

    /// Whether the names of a directory that looks so need not be listed.
    pub fn has(&self, key: &[u8], look: Look, sight: Sight) -> bool {
        match self.seen.get(key) {
            Some(seen) => seen.is_current(look, sight),
            None => false,
        }
    }

    /// How a directory was taken in; none where that is not known.
    pub fn seen(&self, key: &[u8]) -> Option<Seen> {
        match self.seen.get(key) {
            Some(seen) => Some(*seen),
            None => None,
        }
    }

    /// The names of a directory were taken in. Refused memory, it is not noted.
    pub fn note(&mut self, key: &[u8], seen: Seen) -> Result<(), AllocError> {
        if let Some(before) = self.seen.get_mut(key) {
            *before = seen;
            return Ok(());
        }
        let key = Vec::from_slice(self.alloc, key)?;
        match self.seen.insert(key, seen) {
            Ok(_) => Ok(()),
            Err(_) => Err(AllocError),
        }
    }

    /// This tree changed a name in a directory, whose names are listed at the next look at it.
    pub fn changed(&mut self, key: &[u8]) {
        if let Some(seen) = self.seen.get_mut(key) {
            seen.changes = seen.changes.saturating_add(1);
        }
    }

    /// The names of a directory are listed at the next look, and those of each that stands below it.
    pub fn forget(&mut self, key: &[u8]) {
        self.forget_one(key);
        if self.forget_below(key).is_err() {
            self.seen.clear();
        }
    }

    /// The names of a directory are listed at the next look.
    pub fn forget_one(&mut self, key: &[u8]) {
        let _seen = self.seen.remove(key);
    }

    /// Forgets the directories below another, one after another.
    fn forget_below(&mut self, key: &[u8]) -> Result<(), AllocError> {
        let mut above = Vec::from_slice(self.alloc, key)?;
        above.push(b'/')?;
        for _ in 0..self.seen.len() {
            let Some(below) = self.first_from(above.as_slice())? else {
                return Ok(());
            };
            self.forget_one(below.as_slice());
        }
        Ok(())
    }

    /// The first directory whose names joined start so.
    fn first_from(&self, front: &[u8]) -> Result<Option<Vec<u8, Global>>, AllocError> {
        let from = Vec::from_slice(self.alloc, front)?;
        match self.seen.range(from..).next() {
            Some((key, _)) if key.as_slice().starts_with(front) => {
                Ok(Some(Vec::from_slice(self.alloc, key.as_slice())?))
            }
            _ => Ok(None),
        }
    }
}
