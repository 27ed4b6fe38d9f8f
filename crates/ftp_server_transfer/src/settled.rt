// What is settled of an upload, apart from the tree until the upload ends.
ghost use Rattle.std.specs.Prelude.{◌≡◌, ◌++◌, OnErr, OnOk, length};

use ftp_tree::{Draft, Tree};
use ftp_wire::Sink;
use std::alloc::{AllocError, Allocator};

/// The octets that came, as a draft of the tree holds them.
#[derive(Drop)]
pub struct Came<A: Allocator + Copy, T: Tree<A>> {
    pub(crate) draft: T::Draft,
}

impl<A: Allocator + Copy, T: Tree<A>> Sink for Came<A, T> {
    ghost octets = { λ came. T.Draft.octets came.draft };

    fn len(&self) -> u64 {
        self.draft.len()
    }

    fn push(&mut self, more: &[u8]) -> Result<(), AllocError> {
        self.draft.push(more)
    }
}
