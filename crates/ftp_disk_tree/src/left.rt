// What looks left out.
use ftp_disk_scan::LeftOut;
use std::cell::Cell;

/// What looks left out for a limit last, and whether that was not told yet.
pub(crate) struct Left {
    pub(crate) last: LeftOut,
    pub(crate) is_new: Cell<bool>,
}

/// By hand, as that of the tree.
impl Drop for Left {
    fn drop(self) {
        let Self { last: _, is_new: _ } = self;
    }
}

impl Left {
    /// Nothing is left out.
    pub(crate) fn nothing() -> Left {
        Left {
            last: LeftOut::nothing(),
            is_new: Cell::new(false),
        }
    }

    /// A look left this out. The same as last is not told again.
    pub(crate) fn see(&mut self, left: LeftOut) {
        if left.count > 0 && !left.is_same(&self.last) {
            self.last = left;
            self.is_new.set(true);
        }
    }
}
