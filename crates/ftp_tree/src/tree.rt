// What a tree answers, as what its clauses say of one map, however the tree is kept.
ghost use Rattle.std.specs.Prelude.{◌≡◌, ◌≤◌, ◌<◌, ◌++◌, ℕ, List, [], None, IfOk, IfErr, OnOk, OnErr, length, nat_le, take, drop, option_map, false, true};
ghost use Rattle.std.specs.List.{slice_get};
ghost use Rattle.ftp_tree.specs.Tree.{Table, children, delete_refusal, entries_at, file_refusal, install_refusal, installed, kind_at, made, make_refusal, freed, moved, node_at, octets_in, octets_or_none, onto_refusal, remove_refusal, removed, rename_refusal, room_at, room_refusal, size_at, stamp_at, total_limit, under, with_part};
ghost use Rattle.ftp_tree.specs.Change.{Failures, IsDone, IsRefused, IsSteady, NoStray, Refuses, Tells, TellsOne};
ghost use Rattle.ftp_tree.specs.Sound.{IsSoundTree};

use crate::draft::Draft;
use crate::entries::DirEntries;
use crate::fault::{Broken, TreeFault};
use ftp_facts::Moment;
use ftp_path::{Name, Path};
use std::alloc::{AllocError, Allocator};

/// What stands at a path.
#[derive(Clone, Copy, Debug, PartialEq, Eq)]
pub enum NodeKind {
    Dir,
    File,
}

/// How far a tree looks at a path before a command acts there.
#[derive(Clone, Copy, Debug, PartialEq, Eq)]
pub enum Sight {
    /// At what stands at it and above it: of a directory, which names it has.
    Path,
    /// Also at each file in the directory there: how large it is, and of when. A listing tells that.
    Files,
}

/// What a directory shows of a file in it: how many octets it has, and when it was installed.
#[derive(Clone, Copy)]
pub struct FileFacts {
    pub size: u64,
    pub moment: Moment,
}

/// What stands in a directory by a name, lent. A directory in it has no facts.
#[derive(Clone, Copy)]
pub struct DirEntry<'a> {
    pub name: Name<'a>,
    pub file: Option<FileFacts>,
}

/// A finite map from paths to directories and files (RFC 959, section 4.1.3). A refused call changes nothing; of several
/// refusals the first of the call's own order is given, then `Memory`, then `Device`, which comes just where the count of
/// device failures moves on in the call, by one.
///
/// A device may stray, which nobody can tell: what it gives is not what the map says, or others changed what it keeps. Only looks, `read`
/// and `put` meet that, and of a call that does nothing is said but how the count of failures moved.
pub trait Tree<A: Allocator + Copy>: Drop {
    /// A file as it was when it was opened, whatever became of the tree after that.
    type Open: Drop;
    /// Octets that are to become a file.
    type Draft: Draft;

    /// The map that it holds, however it is kept.
    ghost table: { Self → Table };
    /// What its device did so far: failures told, which move on by wrapping, and strays.
    ghost failures: { Self → Failures };
    /// The octets of a file as it was opened.
    ghost opened: { Self.Open → List ℕ };

    /// Looks whether what stands at a path, above it, or in the directory there was changed by others, and takes up what it finds. A command
    /// looks before it reads a path, as far as it tells of it. Where nobody else can change anything there is nothing to do. Says whether what
    /// stands at the path itself was changed: another file is, even if it has as many octets and the same moment.
    fn look<B: Allocator + Copy, C: Allocator + Copy>(
        &mut self,
        root: &Path<B>,
        path: &Path<C>,
        sight: Sight,
    ) -> Result<bool, Broken>
        // Witness: equations; that a look is made no clause says.
        ensures same { NoStray (failures self.old) (failures self.new) → table self.new ≡ table self.old }
        ensures changed { NoStray (failures self.old) (failures self.new) → IfOk result (λ is_changed. is_changed ≡ false) }
        ensures steady { OnOk result (IsSteady (failures self.old) (failures self.new)) }
        ensures failed { OnErr result (TellsOne (failures self.old) (failures self.new)) };

    /// Looks at the path of a draft that broke, as `look` does. Says whether what stands there is another thing than when the draft was begun,
    /// whoever changed it: on a device by more than length and moment tell. That counts as a stray, as what others changed does.
    fn look_since<B: Allocator + Copy, C: Allocator + Copy>(
        &mut self,
        root: &Path<B>,
        path: &Path<C>,
        draft: &Self::Draft,
    ) -> Result<bool, Broken>
        // Witness: as of `look`.
        ensures same { NoStray (failures self.old) (failures self.new) → table self.new ≡ table self.old }
        ensures changed { NoStray (failures self.old) (failures self.new) → IfOk result (λ is_changed. is_changed ≡ false) }
        ensures steady { OnOk result (IsSteady (failures self.old) (failures self.new)) }
        ensures failed { OnErr result (TellsOne (failures self.old) (failures self.new)) };

    /// What stands at a path, if anything does.
    fn kind<B: Allocator + Copy, C: Allocator + Copy>(
        &self,
        root: &Path<B>,
        path: &Path<C>,
    ) -> Option<NodeKind>
        ensures { result ≡ kind_at (under (table self.now) root.now) path.now };

    /// How many octets the file at a path has, where one stands there.
    fn size<B: Allocator + Copy, C: Allocator + Copy>(
        &self,
        root: &Path<B>,
        path: &Path<C>,
    ) -> Option<u64>
        ensures { result ≡ size_at (under (table self.now) root.now) path.now };

    /// When the file at a path was installed, where one stands there.
    fn stamp<B: Allocator + Copy, C: Allocator + Copy>(
        &self,
        root: &Path<B>,
        path: &Path<C>,
    ) -> Option<Moment>
        ensures { option_map (λ moment. moment.seconds) result ≡ stamp_at (under (table self.now) root.now) path.now };

    /// Opens the file at a path. The tree stays as it is.
    ///
    /// Refused: `Absent`, `WrongKind` of a directory.
    fn open<B: Allocator + Copy, C: Allocator + Copy>(
        &mut self,
        root: &Path<B>,
        path: &Path<C>,
    ) -> Result<Self::Open, TreeFault>
        // Witness: equations; `edits/a_directory_is_opened` of `ftp_tree_memory`.
        ensures opened { IfOk result (λ file. opened file ≡ octets_or_none (under (table self.old) root.now) path.now) }
        ensures done { OnOk result (IsDone (file_refusal (node_at (under (table self.old) root.now) path.now)) (table self.old) (table self.new) (failures self.old) (failures self.new)) }
        ensures refused { IfErr result (λ fault. IsRefused (file_refusal (node_at (under (table self.old) root.now) path.now)) fault (table self.old) (table self.new) (failures self.old) (failures self.new)) };

    /// How many octets a file had when it was opened.
    fn open_len(file: &Self::Open) -> u64
        ensures { result ≡ length (opened file.now) };

    /// Reads octets of an open file from a place on into the front of the room, and says how many: none only at its end, or
    /// where there is no room. What follows them in the room may be anything. Tree and file stay as they are.
    fn read(&mut self, file: &mut Self::Open, at: u64, room: &mut [u8]) -> Result<usize, Broken>
        // Witness of octets, most, some: as of `piece` of `ftp_tree_memory`; the rows of `rows_tree` read files whole with rooms of 1 octet and up.
        ensures octets { NoStray (failures self.old) (failures self.new) → IfOk result (λ count. take count room.new ≡ take count (drop at (opened file.old))) }
        ensures most { IfOk result (λ count. (count ≤ length room.old) × (count ≤ length (drop at (opened file.old)))) }
        ensures some { IfOk result (λ count. 0 < length room.old → at < length (opened file.old) → 0 < count) }
        ensures file { opened file.new ≡ opened file.old }
        ensures table { table self.new ≡ table self.old }
        // Witness of steady, failed: equations.
        ensures steady { OnOk result (IsSteady (failures self.old) (failures self.new)) }
        ensures failed { OnErr result (TellsOne (failures self.old) (failures self.new)) };

    /// The name that comes at a place, counted from 0, among those in a directory in the order of their octets.
    fn nth_name<B: Allocator + Copy, C: Allocator + Copy>(
        &self,
        root: &Path<B>,
        path: &Path<C>,
        place: usize,
    ) -> Option<Name<'_>>
        ensures { option_map (λ name. name.octets.now) result ≡ slice_get (children (under (table self.now) root.now) path.now) place };

    /// What the directory at a path shows, in the order of the octets of the names, as it is now.
    fn entries<B: Allocator + Copy, C: Allocator + Copy>(
        &self,
        root: &Path<B>,
        path: &Path<C>,
    ) -> Result<DirEntries<A>, AllocError>
        ensures { IfOk result (λ entries. entries ≡ entries_at (under (table self.now) root.now) path.now) };

    /// The most octets that `put` takes at a path, or why it takes none: `WrongKind` where a directory stands there or a
    /// file above, `Absent` where nothing stands above, `Full` where as many nodes stand beside the root as may.
    fn room<B: Allocator + Copy, C: Allocator + Copy>(
        &self,
        root: &Path<B>,
        path: &Path<C>,
    ) -> Result<u64, TreeFault>
        ensures room { IfOk result (λ count. (room_refusal (under (table self.now) root.now) path.now ≡ None) × (count ≡ room_at (under (table self.now) root.now) path.now)) }
        ensures refused { IfErr result (λ fault. room_refusal (under (table self.now) root.now) path.now ≡ Some fault) };

    /// The most octets that a file may have at a path by the limits, whether or not the tree takes one there.
    fn most<B: Allocator + Copy, C: Allocator + Copy>(&self, root: &Path<B>, path: &Path<C>) -> u64
        ensures { result ≡ room_at (under (table self.now) root.now) path.now };

    /// How many failures of its device it has counted; the count moves on by wrapping.
    fn device_failures(&self) -> u64
        ensures { result ≡ (failures self.now).told };

    /// Whether the octets of all files below a root together are within the limit. `put` keeps each root that
    /// it is given within it; a root above two of them may be past it.
    ///
    /// Whatever it answers, the map is a tree, and what stands in it is sound: paths of names, and of every file a moment.
    fn fits<B: Allocator + Copy>(&self, root: &Path<B>) -> bool
        // Witness of octets: an equation; `edits/a_part_of_67108865_octets_fits` of `ftp_tree_nodes`.
        ensures octets { result ≡ nat_le (octets_in (under (table self.now) root.now)) (total_limit (table self.now)) }
        // Witness of sound: what `IsFair` of `laws_world` asks of the map: `tree` and `entries`.
        ensures sound { IsSoundTree (table self.now) };

    /// Makes a directory.
    ///
    /// Refused: `Exists` where something stands there, `Absent` where nothing stands above, `WrongKind` where a file does,
    /// `Full` where as many nodes stand beside the root as may.
    fn make_dir<B: Allocator + Copy, C: Allocator + Copy>(
        &mut self,
        root: &Path<B>,
        path: &Path<C>,
    ) -> Result<(), TreeFault>
        // Witness of done: equations of the map; the laws below say of single paths what it is.
        ensures done { OnOk result (let part = under (table self.old) root.now in IsDone (make_refusal part path.now) (with_part (table self.old) root.now (made part path.now)) (table self.new) (failures self.old) (failures self.new)) }
        // Witness of refused: an equation of the map, and of the fault where a refusal applies; `direct` of `ftp_direct` for what memory and the
        // device may refuse; `edits/full_comes_before_exists` of `ftp_tree_nodes`.
        ensures refused { IfErr result (λ fault. IsRefused (make_refusal (under (table self.old) root.now) path.now) fault (table self.old) (table self.new) (failures self.old) (failures self.new)) };

    /// Removes a directory.
    ///
    /// Refused: `Absent`, `WrongKind` of a file, `NotEmpty`, `Busy` of the root.
    fn remove_dir<B: Allocator + Copy, C: Allocator + Copy>(
        &mut self,
        root: &Path<B>,
        path: &Path<C>,
    ) -> Result<(), TreeFault>
        // Witness of done: as of `make_dir`.
        ensures done { OnOk result (let part = under (table self.old) root.now in IsDone (remove_refusal part path.now) (with_part (table self.old) root.now (removed part path.now)) (table self.new) (failures self.old) (failures self.new)) }
        // Witness of refused: as of `make_dir`.
        ensures refused { IfErr result (λ fault. IsRefused (remove_refusal (under (table self.old) root.now) path.now) fault (table self.old) (table self.new) (failures self.old) (failures self.new)) };

    /// Deletes a file.
    ///
    /// Refused: `Absent`, `WrongKind` of a directory.
    fn delete<B: Allocator + Copy, C: Allocator + Copy>(
        &mut self,
        root: &Path<B>,
        path: &Path<C>,
    ) -> Result<(), TreeFault>
        // Witness of done: as of `make_dir`.
        ensures done { OnOk result (let part = under (table self.old) root.now in IsDone (delete_refusal part path.now) (with_part (table self.old) root.now (removed part path.now)) (table self.new) (failures self.old) (failures self.new)) }
        // Witness of refused: as of `make_dir`.
        ensures refused { IfErr result (λ fault. IsRefused (delete_refusal (under (table self.old) root.now) path.now) fault (table self.old) (table self.new) (failures self.old) (failures self.new)) };

    /// Moves what stands at a path, with all below it.
    ///
    /// Refused: `Absent` where nothing stands there, `Busy` of the root; then `Exists` where something stands at the new path,
    /// `WrongKind` where that is below the old one, `Absent` or `WrongKind` where no directory is above it, `TooBig` where a
    /// canonical text would pass 900 octets.
    fn rename<B: Allocator + Copy, C: Allocator + Copy, D: Allocator + Copy>(
        &mut self,
        root: &Path<B>,
        from: &Path<C>,
        to: &Path<D>,
    ) -> Result<(), TreeFault>
        // Witness of done: as of `make_dir`.
        ensures done { OnOk result (let part = under (table self.old) root.now in IsDone (rename_refusal part from.now to.now) (with_part (table self.old) root.now (moved part from.now to.now)) (table self.new) (failures self.old) (failures self.new)) }
        // Witness of refused: as of `make_dir`.
        ensures refused { IfErr result (λ fault. IsRefused (rename_refusal (under (table self.old) root.now) from.now to.now) fault (table self.old) (table self.new) (failures self.old) (failures self.new)) };

    /// Moves a file into the place of another, in one change.
    ///
    /// Refused: `WrongKind` where not both are files, or where both are one.
    fn rename_onto<B: Allocator + Copy, C: Allocator + Copy, D: Allocator + Copy>(
        &mut self,
        root: &Path<B>,
        from: &Path<C>,
        to: &Path<D>,
    ) -> Result<(), TreeFault>
        // Witness of done: as of `make_dir`.
        ensures done { OnOk result (let part = under (table self.old) root.now in IsDone (onto_refusal part from.now to.now) (with_part (table self.old) root.now (moved (freed true part from.now to.now) from.now to.now)) (table self.new) (failures self.old) (failures self.new)) }
        // Witness of refused: as of `make_dir`.
        ensures refused { IfErr result (λ fault. IsRefused (onto_refusal (under (table self.old) root.now) from.now to.now) fault (table self.old) (table self.new) (failures self.old) (failures self.new)) }
        // Witness of sound: as of `fits`.
        ensures sound { IsSoundTree (table self.old) };

    /// Begins a file that is to come to a path: none of its octets came yet, and the tree stays as it is until it is put there. So many first
    /// octets of the file there `put` is expected to keep, `keep` of them: a tree may copy them before that.
    fn begin<B: Allocator + Copy, C: Allocator + Copy>(
        &mut self,
        root: &Path<B>,
        path: &Path<C>,
        keep: u64,
    ) -> Result<Self::Draft, TreeFault>
        // Witness: equations; `edits/a_draft_begins_with_an_octet` of `ftp_tree_memory`.
        ensures none { IfOk result (λ draft. Self.Draft.octets draft ≡ []) }
        ensures done { OnOk result ((table self.new ≡ table self.old) × (failures self.new ≡ failures self.old)) }
        ensures refused { IfErr result (λ fault. IsRefused None fault (table self.old) (table self.new) (failures self.old) (failures self.new)) };

    /// Puts a file at a path, in the place of one that stands there: the first octets of that, `keep` of them if it has so
    /// many, and then those that came.
    ///
    /// Refused: as `room` says, then `TooBig` past the most octets of a file, `Full` where all files below the root together would.
    fn put<B: Allocator + Copy, C: Allocator + Copy>(
        &mut self,
        root: &Path<B>,
        path: &Path<C>,
        keep: u64,
        came: Self::Draft,
        moment: Moment,
    ) -> Result<(), TreeFault>
        // Witness of done: as of `make_dir`.
        ensures done { NoStray (failures self.old) (failures self.new) → OnOk result (let part = under (table self.old) root.now in let octets = take keep (octets_or_none part path.now) ++ Self.Draft.octets came in IsDone (install_refusal part path.now (length octets)) (with_part (table self.old) root.now (installed part path.now octets moment.seconds)) (table self.new) (failures self.old) (failures self.new)) }
        // Witness of refused: as of `make_dir`.
        ensures refused { NoStray (failures self.old) (failures self.new) → IfErr result (λ fault. let part = under (table self.old) root.now in let octets = take keep (octets_or_none part path.now) ++ Self.Draft.octets came in IsRefused (install_refusal part path.now (length octets)) fault (table self.old) (table self.new) (failures self.old) (failures self.new)) }
        // Witness of told: what `at_end` of `ftp_server_transfer` tells a failed device by.
        ensures told { Tells result (failures self.old) (failures self.new) };
}

/// A tree whose device never strays: what is said of a tree where it does not stray is said of this one as it is.
pub trait SureTree<A: Allocator + Copy>: Tree<A> {
    ghost use Rattle.std.specs.Prelude.{◌≡◌};

    ghost never: { (tree : Self) → (Self.failures tree).strays ≡ 0 };
}
