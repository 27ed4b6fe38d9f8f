// What a device answered, but for the octets.

/// Octets were read of a version of a file that has so many, from a place on.
#[derive(Clone, Copy)]
pub struct Reading {
    pub version: u64,
    pub len: u64,
    pub at: u64,
}

/// The first octets of a version of a file that has so many: how many of them are kept.
#[derive(Clone, Copy)]
pub struct Front {
    pub version: u64,
    pub len: u64,
    pub count: u64,
}

/// A version of a file was put that has so many octets: those that were kept, and then those that came.
#[derive(Clone, Copy)]
pub struct Putting {
    pub version: u64,
    pub len: u64,
    pub front: Front,
}

/// What a device answered.
#[derive(Clone, Copy)]
pub enum Answer {
    /// It took octets that came.
    Took,
    Read(Reading),
    Put(Putting),
    /// What it keeps was changed by others.
    Changed,
    /// A directory was made at a place.
    Made,
    /// An empty directory was removed.
    Emptied,
    /// A file was removed.
    Removed,
    /// Something left a place, for the one of the next answer.
    Left,
    /// It came to a place where nothing stood.
    Came,
    /// It came into the place of a file.
    CameOver,
}

impl Front {
    /// Nothing is kept.
    pub(crate) const NONE: Front = Front {
        version: 0,
        len: 0,
        count: 0,
    };
}
