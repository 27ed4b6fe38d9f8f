// One way of a connection, as both of its sockets share it.
use crate::way::Way;
use std::cell::Cell;

/// A way that both sockets of a connection see: whoever writes, reads, ends or cuts it says so here.
#[derive(Drop)]
pub(crate) struct Pipe {
    way: Cell<Way>,
}

impl Pipe {
    /// Nothing is on its way yet.
    pub(crate) fn new() -> Pipe {
        Pipe {
            way: Cell::new(Way::new()),
        }
    }

    /// How it stands.
    pub(crate) fn way(&self) -> Way {
        self.way.get()
    }

    /// So many octets were written.
    pub(crate) fn went(&self, count: usize) {
        self.way.set(self.way.get().after_write(count));
    }

    /// So many octets were read.
    pub(crate) fn came(&self, count: usize) {
        self.way.set(self.way.get().after_read(count));
    }

    /// Its sender sends nothing more.
    pub(crate) fn end(&self) {
        self.way.set(self.way.get().after_end());
    }

    /// Nothing more comes over it.
    pub(crate) fn cut(&self) {
        self.way.set(self.way.get().after_cut());
    }
}
