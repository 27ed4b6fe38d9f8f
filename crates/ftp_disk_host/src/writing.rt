// Where parts are written, so that no directory is moved away above one.
ghost use Rattle.std.specs.Global.{Global};

use std::alloc::{AllocError, Global};
use std::cell::RefCell;

/// A part that is written.
#[derive(Drop)]
struct Written {
    number: u64,
    /// Where it is.
    place: String<Global>,
}

/// The parts that are written, each by a number of its own.
#[derive(Drop)]
pub(crate) struct Writing {
    alloc: Global,
    parts: RefCell<Vec<Written, Global>>,
}

impl Writing {
    /// None is.
    pub(crate) fn new(alloc: Global) -> Writing {
        Writing {
            alloc,
            parts: RefCell::new(Vec::new(alloc)),
        }
    }

    /// One is, at a place.
    pub(crate) fn add(&self, number: u64, place: &str) -> Result<(), AllocError> {
        let place = String::from_str(self.alloc, place)?;
        let Ok(mut parts) = self.parts.try_borrow_mut() else {
            return Err(AllocError);
        };
        parts.push(Written { number, place })?;
        Ok(())
    }

    /// It is no more.
    pub(crate) fn remove(&self, number: u64) {
        if let Ok(mut parts) = self.parts.try_borrow_mut() {
            parts.retain(|part| part.number != number);
        }
    }

    /// Whether one is below a directory.
    pub(crate) fn is_below(&self, dir: &str) -> bool {
        match self.parts.try_borrow() {
            Ok(parts) => parts
                .iter()
                .any(|part| stands_below(part.place.as_str(), dir)),
            Err(_) => true,
        }
    }
}

fn stands_below(place: &str, dir: &str) -> bool {
    place
        .strip_prefix(dir)
        .is_some_and(|rest| rest.starts_with('/'))
}
