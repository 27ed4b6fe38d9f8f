// What others changed on a disk, as a look found it and as it is taken up.
ghost use Rattle.std.specs.Prelude.{◌≡◌, ◌∷◌, ◌++◌, [], true, OnOk, length, map, string_bytes};
ghost use Rattle.ftp_disk_scan.specs.loading.Compared.{all_agree, are_none, pair_of};
ghost use Rattle.ftp_disk_scan.specs.loading.Difference.{More, NotLonger, Replaced, Same, difference_of, is_away};

use crate::loading::compared::Compared;
use crate::loading::dirs::Seen;
use crate::loading::fault::Reason;
use crate::loading::tree_entry::TreeEntry;
use ftp_disk_host::{Found, Look};
use std::alloc::{AllocError, Global};

/// A file or a directory on the disk, and how it looks.
#[derive(Clone, Copy)]
pub enum Thing {
    File(Look),
    Dir(Look),
}

/// What stands somewhere on the disk.
pub(crate) struct Stands {
    pub(crate) place: String<Global>,
    pub(crate) thing: Thing,
}

/// By hand, as that of a tree.
impl Drop for Stands {
    fn drop(self) {
        let Self { place: _, thing: _ } = self;
    }
}

/// What others changed, as it is taken up: first what is gone, then what takes no more room than before. There is none just where all that was compared
/// agrees.
pub struct Changes {
    /// What the tree has and the disk has not, or not of this kind.
    pub(crate) gone: Vec<String<Global>, Global>,
    /// Files that have no more octets than before.
    pub(crate) not_longer: Vec<Stands, Global>,
    /// Longer files, and what the tree has not.
    pub(crate) more: Vec<Stands, Global>,
    /// All that was compared with the tree.
    pub(crate) compared: Compared,
    ghost told: { all_agree compared.pairs ≡ are_none (length gone.items) (length not_longer.items) (length more.items) },
}

/// By hand, as that of a tree.
impl Drop for Changes {
    fn drop(self) {
        let Self {
            gone: _,
            not_longer: _,
            more: _,
            compared: _,
        } = self;
    }
}

impl Changes {
    /// None yet.
    pub fn none(alloc: Global) -> Changes
        ensures { result.compared.pairs ≡ [] }
    {
        Changes {
            gone: Vec::new(alloc),
            not_longer: Vec::new(alloc),
            more: Vec::new(alloc),
            compared: Compared::none(),
        }
    }

    /// Whether nothing is another.
    pub fn is_empty(&self) -> bool
        // Witness: `edits/a_longer_file_is_no_change`, `what_agrees_is_added_as_gone`, `what_is_gone_counts_as_the_same`.
        ensures { result ≡ all_agree self.now.compared.pairs }
    {
        self.gone.is_empty() && self.not_longer.is_empty() && self.more.is_empty()
    }

    /// What was found at a place is what the tree has there.
    pub(crate) fn same(&mut self, found: Found, entry: TreeEntry)
        requires { difference_of found entry ≡ Same }
        ensures { self.new.compared.pairs ≡ pair_of found entry ∷ self.old.compared.pairs }
    {
        self.compared.note(&found, &entry);
    }

    /// Adds a place at which what the tree has does not stand any more.
    pub(crate) fn add_gone(
        &mut self,
        alloc: Global,
        place: &str,
        found: Found,
        entry: TreeEntry,
    ) -> Result<(), AllocError>
        requires { is_away (difference_of found entry) ≡ true }
        ensures { OnOk result
            (self.new.compared.pairs ≡ pair_of found entry ∷ self.old.compared.pairs) }
    {
        let place = String::from_str(alloc, place)?;
        self.gone.push(place)?;
        self.compared.note(&found, &entry);
        Ok(())
    }

    /// Adds a file that has no more octets than before.
    pub(crate) fn add_not_longer(
        &mut self,
        alloc: Global,
        place: &str,
        look: Look,
        found: Found,
        entry: TreeEntry,
    ) -> Result<(), AllocError>
        requires { difference_of found entry ≡ NotLonger }
        ensures { OnOk result
            (self.new.compared.pairs ≡ pair_of found entry ∷ self.old.compared.pairs) }
    {
        let place = String::from_str(alloc, place)?;
        let thing = Thing::File(look);
        self.not_longer.push(Stands { place, thing })?;
        self.compared.note(&found, &entry);
        Ok(())
    }

    /// Adds a file that is longer, or what the tree has not.
    pub(crate) fn add_more(
        &mut self,
        alloc: Global,
        place: &str,
        thing: Thing,
        found: Found,
        entry: TreeEntry,
    ) -> Result<(), AllocError>
        requires { difference_of found entry ≡ More }
        ensures { OnOk result
            (self.new.compared.pairs ≡ pair_of found entry ∷ self.old.compared.pairs) }
    {
        let place = String::from_str(alloc, place)?;
        self.more.push(Stands { place, thing })?;
        self.compared.note(&found, &entry);
        Ok(())
    }

    /// Adds what stands where the tree has one of another kind.
    pub(crate) fn add_replaced(
        &mut self,
        alloc: Global,
        place: &str,
        thing: Thing,
        found: Found,
        entry: TreeEntry,
    ) -> Result<(), AllocError>
        requires { difference_of found entry ≡ Replaced }
        ensures { OnOk result
            (self.new.compared.pairs ≡ pair_of found entry ∷ self.old.compared.pairs) }
    {
        let gone = String::from_str(alloc, place)?;
        let place = String::from_str(alloc, place)?;
        self.gone.push(gone)?;
        self.compared.note(&found, &entry);
        self.more.push(Stands { place, thing })?;
        Ok(())
    }
}

/// What a look found.
pub struct Findings {
    /// The place that was asked for.
    pub(crate) asked: String<Global>,
    changes: Changes,
    /// How the directory there, or that it is in, looked before its names were listed, if they were.
    listed: Option<Seen>,
    /// Why what was asked for can't be served, though the tree has it or what is above it.
    why: Option<Reason>,
}

/// By hand, as that of a tree.
impl Drop for Findings {
    fn drop(self) {
        let Self {
            asked: _,
            changes: _,
            listed: _,
            why: _,
        } = self;
    }
}

impl Findings {
    /// What was found at a place: `listed` where the names of a directory were listed, `why` where what was asked for can't be served.
    pub fn new(
        asked: String<Global>,
        changes: Changes,
        listed: Option<Seen>,
        why: Option<Reason>,
    ) -> Findings
        ensures asked { result.asked ≡ asked }
        ensures changes { result.changes ≡ changes }
    {
        Findings {
            asked,
            changes,
            listed,
            why,
        }
    }

    /// Whether all is as the tree has it.
    pub fn is_empty(&self) -> bool
        // Witness: `edits/findings_are_never_empty`.
        ensures { result ≡ all_agree self.now.changes.compared.pairs }
    {
        self.changes.is_empty()
    }

    /// What was compared.
    pub fn compared(&self) -> &Compared
        ensures { result.now ≡ self.now.changes.compared }
    {
        &self.changes.compared
    }

    /// The place that was asked for, the changes, how the directory there looked, and why it can't be served.
    pub(crate) fn into_parts(self) -> (String<Global>, Changes, Option<Seen>, Option<Reason>) {
        let Self {
            asked,
            changes,
            listed,
            why,
        } = self;
        (asked, changes, listed, why)
    }
}
