// What stands below a folder of this machine, reached through directories that are open: no link below the folder is followed, also none that comes
// meanwhile (own choice).

mod folder;
mod places;

pub use places::{DirectoryEntry, OpenBelow, OpenDir, Places, Sightings};
