//! What a device answered, for clauses alone.
ghost use Rattle.std.specs.Prelude.{◌≡◌, List, [], ◌∷◌};
ghost use Rattle.std.specs.Borrow.{ftrue};
ghost use Rattle.ftp_disk_tree.specs.Note.{NotedAnswer, noted_event, taken};

use crate::answer::Answer;
use std::marker::{Model, PhantomData};

/// What a device answered, the newest first, that only clauses read: it takes no memory.
#[derive(Drop)]
pub struct Record {
    marker: PhantomData<u8>,
    pub ghost events: { List NotedAnswer },
}

impl Model for Record {
    ghost also_owns = { λ _. ftrue };
}

impl Record {
    /// Nothing was answered yet.
    pub(crate) fn new() -> Record
        ensures { result.events ≡ [] }
    {
        Record {
            marker: PhantomData,
        }
    }

    /// The device answered so, with these octets.
    pub(crate) fn note(&mut self, _answer: &Answer, _octets: &[u8])
        ensures { self.new.events ≡ noted_event _answer.now _octets.now ∷ self.old.events }
    {}

    /// The same, with all octets that another record has of those that came.
    pub(crate) fn adopt(&mut self, _answer: &Answer, _other: &Record)
        ensures { self.new.events ≡ noted_event _answer.now (taken _other.now.events) ∷ self.old.events }
    {}
}
