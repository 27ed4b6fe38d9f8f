// Octets that are to become a file of a disk.
ghost use Rattle.std.specs.Prelude.{◌≡◌, ◌++◌, [], OnErr, OnOk, length};
ghost use Rattle.ftp_disk_tree.specs.Note.{taken};

use crate::answer::Answer;
use crate::record::Record;
use crate::thing::Thing;
use ftp_disk_host::Host;
use ftp_tree::Draft;
use std::alloc::AllocError;

/// What became of a part.
#[derive(Clone, Copy)]
pub(crate) enum State {
    /// It has all octets that came so far.
    Whole,
    /// A write failed, so that nobody knows what it has.
    Torn,
    /// It has a name, and is a file.
    Named,
}

/// A file that is written beside its name. Let go of before it has that, it is removed.
pub struct DiskDraft<'a, H: Host> {
    host: &'a H,
    pub(crate) part: H::Part,
    pub(crate) state: State,
    pub(crate) len: u64,
    pub(crate) written: Record,
    /// What stood at its path when it was begun.
    pub(crate) stood: Thing,
    ghost counted: { len ≡ length (taken written.events) },
}

impl<'a, H: Host> Drop for DiskDraft<'a, H> {
    fn drop(self) {
        let Self {
            host,
            mut part,
            state,
            len: _,
            written: _,
            stood: _,
        } = self;
        match state {
            State::Named => {}
            State::Whole | State::Torn => host.discard(&mut part),
        }
    }
}

impl<'a, H: Host> DiskDraft<'a, H> {
    /// A part to which nothing came.
    pub(crate) fn new(host: &'a H, part: H::Part, stood: Thing) -> DiskDraft<'a, H>
        ensures none { taken result.written.events ≡ [] }
        ensures whole { result.state ≡ State.Whole }
        ensures stood { result.stood ≡ stood }
    {
        DiskDraft {
            host,
            part,
            state: State::Whole,
            len: 0,
            written: Record::new(),
            stood,
        }
    }
}

impl<'a, H: Host> Draft for DiskDraft<'a, H> {
    ghost octets = { λ draft. taken draft.written.events };

    fn len(&self) -> u64 {
        self.len
    }

    /// Writes octets to the part, and notes them: that they are the same is seen by eye. Refused, it is torn from then on.
    fn push(&mut self, more: &[u8]) -> Result<(), AllocError>
        ensures ok { OnOk result (taken self.new.written.events ≡ taken self.old.written.events ++ more.now) }
        ensures err { OnErr result (taken self.new.written.events ≡ taken self.old.written.events) }
        ensures torn { OnErr result (self.new.state ≡ State.Torn) }
        ensures state { OnOk result (self.new.state ≡ self.old.state) }
        ensures stood { self.new.stood ≡ self.old.stood }
    {
        let Some(len) = self.len.checked_add(more.len() as u64) else {
            self.state = State::Torn;
            return Err(AllocError);
        };
        if let Err(error) = self.host.write(&mut self.part, more) {
            self.host.blame(error);
            self.state = State::Torn;
            return Err(AllocError);
        }
        self.written.note(&Answer::Took, more);
        self.len = len;
        Ok(())
    }
}
