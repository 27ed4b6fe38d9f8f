// A directory that is looked at or walked.
ghost use Rattle.std.specs.Prelude.{◌≡◌, ◌++◌, OnOk, codes, string_bytes};

use crate::loading::roots::Roots;
use ftp_path::{Path, PathFault};
use std::alloc::{AllocError, Global};

/// A directory, as a place on the disk and as a path of the tree.
pub struct Directory {
    /// Its place on the disk: a `/` before each name.
    pub below: String<Global>,
    /// The deepest root that is at it or above it.
    pub root: Path<Global>,
    /// Its path below that root.
    pub path: Path<Global>,
}

/// By hand, as that of a tree.
impl Drop for Directory {
    fn drop(self) {
        let Self {
            below: _,
            root: _,
            path: _,
        } = self;
    }
}

impl Directory {
    /// The root of the tree.
    pub(crate) fn top(alloc: Global) -> Directory {
        Directory {
            below: String::new(alloc),
            root: Path::root(alloc),
            path: Path::root(alloc),
        }
    }

    /// The directory at a place.
    pub fn at(alloc: Global, roots: &Roots, below: &str) -> Result<Directory, PathFault> {
        let root = roots.at(below.as_bytes());
        let rest = below.as_bytes().strip_prefix(root.key()).unwrap_or(&[]);
        let path = path_of(alloc, rest)?;
        let (Ok(root), Ok(below)) = (root.copy(alloc), String::from_str(alloc, below)) else {
            return Err(PathFault::Memory);
        };
        Ok(Directory { below, root, path })
    }

    /// The path of a name in it.
    pub fn child(&self, alloc: Global, name: &str) -> Result<Path<Global>, PathFault> {
        self.path.resolve(alloc, name.as_bytes())
    }

    /// Writes the place of a name in it.
    pub fn put_place(&self, name: &str, place: &mut String<Global>) -> Result<(), AllocError>
        // Witness: an equation; `edits/a_name_stands_beside_its_directory`.
        ensures { OnOk result
            (string_bytes place.new ≡ string_bytes self.now.below ++ codes "/" ++ name.now) }
    {
        place.clear();
        place.push_str(self.below.as_str())?;
        place.push_str("/")?;
        place.push_str(name)
    }
}

/// The path whose names are joined so.
fn path_of(alloc: Global, key: &[u8]) -> Result<Path<Global>, PathFault> {
    let top = Path::root(alloc);
    if key.is_empty() {
        Ok(top)
    } else {
        top.resolve(alloc, key)
    }
}
