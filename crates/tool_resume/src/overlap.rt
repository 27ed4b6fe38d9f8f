// The last octets of a part that an earlier run left of a download: they come once more before anything is joined to the part.
ghost use Rattle.std.specs.Prelude.{◌≡◌, length};
ghost use Rattle.tool_resume.specs.Overlap.{awaited};
ghost use Rattle.tool_resume.specs.Steps.{joins, part_owner};

use crate::step::{FrontOwner, joins, part_owner};
use std::alloc::Global;

/// What is awaited of a part, and whose the part is as far as that came.
pub(crate) struct Overlap {
    /// The last octets of the part, up to 65,536; none of a part that an earlier run did not leave.
    octets: Vec<u8, Global>,
    /// How many of these came once more.
    agreed: usize,
    owner: FrontOwner,
}

/// By hand: a derived drop is proved again, part by part, wherever octets are let go.
impl Drop for Overlap {
    fn drop(self) {
        let Self {
            octets: _,
            agreed: _,
            owner: _,
        } = self;
    }
}

impl Overlap {
    /// Of a part that has nothing of an earlier run: nothing is awaited.
    pub(crate) fn none(alloc: Global) -> Overlap
        ensures { awaited result ≡ 0 }
    {
        Overlap {
            octets: Vec::new(alloc),
            agreed: 0,
            owner: FrontOwner::Own,
        }
    }

    /// Of a part whose last octets are these: all of them are awaited.
    pub(crate) fn of(octets: Vec<u8, Global>) -> Overlap
        ensures { awaited result ≡ length octets.items }
    {
        Overlap {
            octets,
            agreed: 0,
            owner: FrontOwner::Lost,
        }
    }

    /// Those that are awaited still.
    pub(crate) fn rest(&self) -> &[u8]
        ensures { length result.now ≡ awaited self.now }
    {
        let octets = self.octets.as_slice();
        let (_, rest) = octets.split_at(octets.len().min(self.agreed));
        rest
    }

    /// How many octets are awaited still.
    pub(crate) fn awaited(&self) -> u64
        ensures { result ≡ awaited self.now }
    {
        self.rest().len() as u64
    }

    /// Takes in that so many octets came, of which the first are the awaited ones; `is_other`: one came that is another than the part's; `is_done`: the
    /// server says that it sent all. Gives how many of them are joined to the part: those behind the awaited ones, and none where the part is not seen to be
    /// the file's.
    pub(crate) fn hear(&mut self, came: u64, is_other: bool, is_done: bool) -> u64
        // Witness of owner: an equation.
        ensures owner { self.new.owner ≡ part_owner (awaited self.old) came is_other is_done }
        // Witness of joined: an equation; `edits/octets_that_were_awaited_are_joined`.
        ensures joined { result ≡ joins self.new.owner (awaited self.old) came }
    {
        let awaited = self.awaited();
        self.owner = part_owner(awaited, came, is_other, is_done);
        self.agreed = self.agreed.saturating_add(came.min(awaited) as usize);
        joins(self.owner, awaited, came)
    }

    /// Whose the part is, as far as these came.
    pub(crate) fn owner(&self) -> FrontOwner
        ensures { result ≡ self.now.owner }
    {
        self.owner
    }

    /// Nothing is awaited any more: the part has nothing of an earlier run.
    pub(crate) fn clear(&mut self)
        ensures { awaited self.new ≡ 0 }
    {
        self.octets.clear();
        self.agreed = 0;
        self.owner = FrontOwner::Own;
    }
}
