// The roots below which the limits of a tree are counted, each by itself.
use crate::loading::fault::is_at_or_above;
use ftp_path::Path;
use std::alloc::{AllocError, Global};

/// The roots of accounts, and the root of the tree.
pub struct Roots {
    top: Path<Global>,
    /// In the order of their octets, none of them twice.
    others: Vec<Path<Global>, Global>,
}

/// By hand, as that of a tree.
impl Drop for Roots {
    fn drop(self) {
        let Self { top: _, others: _ } = self;
    }
}

impl Roots {
    /// The root of the tree alone.
    pub(crate) fn none(alloc: Global) -> Roots {
        Roots {
            top: Path::root(alloc),
            others: Vec::new(alloc),
        }
    }

    /// It and some others.
    pub(crate) fn of(alloc: Global, roots: &[Path<Global>]) -> Result<Roots, AllocError> {
        let mut others = Vec::new(alloc);
        for root in roots {
            if !root.key().is_empty() {
                others.push(root.copy(alloc)?)?;
            }
        }
        others.sort_unstable_by(|one: &Path<Global>, other: &Path<Global>| one
            .key()
            .cmp(other.key()));
        others.dedup_by(|one, other| one.key() == other.key());
        Ok(Roots {
            top: Path::root(alloc),
            others,
        })
    }

    /// The deepest root at a place or above it.
    pub(crate) fn at(&self, key: &[u8]) -> &Path<Global> {
        for end in (0..=key.len()).rev() {
            let (front, rest) = key.split_at(end);
            if rest.is_empty() || rest[0] == b'/' {
                if let Some(root) = self.find(front) {
                    return root;
                }
            }
        }
        &self.top
    }

    /// The root at a place.
    fn find(&self, key: &[u8]) -> Option<&Path<Global>> {
        match self.others.binary_search_by(|root| root.key().cmp(key)) {
            Ok(at) => self.others.get(at),
            Err(_) => None,
        }
    }

    /// The roots but that of the tree.
    pub(crate) fn others(&self) -> &[Path<Global>] {
        self.others.as_slice()
    }

    /// Whether a root stands below another, with no third between them.
    pub(crate) fn is_next(&self, above: &Path<Global>, root: &Path<Global>) -> bool {
        root.key().len() > above.key().len()
            && is_at_or_above(above.key(), root.key())
            && self.at(root.parent_key()).key() == above.key()
    }
}
