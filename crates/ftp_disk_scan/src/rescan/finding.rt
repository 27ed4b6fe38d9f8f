// What stands on a disk, compared with what a tree has there.
ghost use Rattle.std.specs.Prelude.{◌≡◌, ◌∷◌, OnOk};
ghost use Rattle.ftp_disk_scan.specs.loading.Compared.{pair_of};
ghost use Rattle.ftp_disk_scan.specs.loading.Difference.{difference_of, same_file};
ghost use Rattle.ftp_disk_scan.specs.rescan.Finding.{difference_in};

use crate::loading::{Changes, Thing, TreeEntry};
use ftp_disk_host::{Found, Look};
use std::alloc::{AllocError, Global};

/// How what stands at a place on the disk differs from what the tree has there.
#[derive(Clone, Copy)]
pub(crate) enum Finding {
    /// Nothing stands in either.
    Nothing,
    /// A file that is as it was.
    SameFile,
    /// A directory in both.
    SameDir(Look),
    /// The tree has something, and the disk nothing.
    Gone,
    /// Another file, that has no more octets.
    NotLonger(Look),
    /// A file that has more octets.
    Longer(Look),
    /// What the tree has not.
    New(Thing),
    /// The tree has one of another kind there.
    Replaced(Thing),
    /// Neither a file nor a directory, where the tree has nothing.
    Other,
    /// The same, where it has something.
    TurnedOther,
}

impl Finding {
    /// What was found at a place at which the tree has this.
    pub(crate) fn of(found: Found, entry: TreeEntry) -> Finding
        // Witness: equations; `edits/a_longer_file_is_not_longer`, `a_file_of_another_inode_is_as_it_was`.
        ensures { difference_in result ≡ difference_of found entry }
    {
        match entry {
            TreeEntry::Nothing => Finding::of_new(found),
            TreeEntry::Dir => Finding::of_dir(found),
            TreeEntry::File(before) => Finding::of_file(found, before),
        }
    }

    /// The same where the tree has nothing.
    #[tactic(auto, unfolding(crate::specs::loading::Difference::difference_of, crate::specs::rescan::Finding::difference_in))]
    fn of_new(found: Found) -> Finding
        ensures { difference_in result ≡ difference_of found TreeEntry.Nothing }
    {
        match found {
            Found::Nothing => Finding::Nothing,
            Found::Dir(look) => Finding::New(Thing::Dir(look)),
            Found::File(look) => Finding::New(Thing::File(look)),
            Found::Other => Finding::Other,
        }
    }

    /// The same where it has a directory.
    #[tactic(auto, unfolding(crate::specs::loading::Difference::difference_of, crate::specs::rescan::Finding::difference_in))]
    fn of_dir(found: Found) -> Finding
        ensures { difference_in result ≡ difference_of found TreeEntry.Dir }
    {
        match found {
            Found::Nothing => Finding::Gone,
            Found::Dir(look) => Finding::SameDir(look),
            Found::File(look) => Finding::Replaced(Thing::File(look)),
            Found::Other => Finding::TurnedOther,
        }
    }

    /// The same where it has a file that looked so.
    #[tactic(auto, unfolding(crate::specs::loading::Difference::difference_of, crate::specs::rescan::Finding::difference_in))]
    fn of_file(found: Found, before: Look) -> Finding
        ensures { difference_in result ≡ difference_of found (TreeEntry.File before) }
    {
        match found {
            Found::Nothing => Finding::Gone,
            Found::Dir(look) => Finding::Replaced(Thing::Dir(look)),
            Found::File(look) if is_as_it_was(look, before) => Finding::SameFile,
            Found::File(look) if look.len <= before.len => Finding::NotLonger(look),
            Found::File(look) => Finding::Longer(look),
            Found::Other => Finding::TurnedOther,
        }
    }
}

/// Whether a file is the one that looked so, with as many octets and the same moment. That it was moved or got other permissions moves its `touched`
/// alone, and changes nothing that a tree tells.
fn is_as_it_was(look: Look, before: Look) -> bool
    ensures { result ≡ same_file look before }
{
    look.device == before.device
        && look.inode == before.inode
        && look.len == before.len
        && look.modified == before.modified
}

/// Compares what was found at a place with what the tree has there, and adds it where that is a change. Refused memory, it adds nothing.
#[tactic(auto, unfolding(crate::specs::rescan::Finding::difference_in))]
pub(crate) fn compare(
    changes: &mut Changes,
    alloc: Global,
    place: &str,
    found: Found,
    entry: TreeEntry,
) -> Result<(), AllocError>
    ensures { OnOk result
        (changes.new.compared.pairs ≡ pair_of found entry ∷ changes.old.compared.pairs) }
{
    match Finding::of(found, entry) {
        Finding::Nothing | Finding::SameFile | Finding::SameDir(_) | Finding::Other => {
            changes.same(found, entry);
            Ok(())
        }
        Finding::Gone | Finding::TurnedOther => changes.add_gone(alloc, place, found, entry),
        Finding::NotLonger(look) => changes.add_not_longer(alloc, place, look, found, entry),
        Finding::Longer(look) => changes.add_more(alloc, place, Thing::File(look), found, entry),
        Finding::New(thing) => changes.add_more(alloc, place, thing, found, entry),
        Finding::Replaced(thing) => changes.add_replaced(alloc, place, thing, found, entry),
    }
}
