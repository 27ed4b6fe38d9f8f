// A folder outside memory, as a mirrored tree uses it.
ghost use Rattle.std.specs.Prelude.{◌≡◌, ℕ, Option, OnErr, OnOk, true};
ghost use Rattle.ftp_tree.specs.Tree.{Table, freed, installed, made, moved, removed};
ghost use Rattle.ftp_tree_memory.specs.trees.Folder.{HasFailed, IsPathFree, IsKept, changed_below};

use crate::trees::content::Content;
use ftp_facts::Moment;
use ftp_path::Path;
use std::alloc::Allocator;

/// A call on a folder failed; what the folder keeps is as it was.
#[derive(Clone, Copy)]
pub struct FolderFault;

/// A folder that keeps directories and files outside memory. A path is one below a root, as it is of a `Tree`.
///
/// A call is done, or it fails: then the folder keeps what it kept, and counts one failure more. What a folder refuses that a
/// tree would not is a failure too.
pub trait Folder: Drop {
    /// The map that it keeps, where that is known: of files of a system nothing is.
    ghost kept: { Self → Option Table };
    /// The count of its failures, moved on by wrapping.
    ghost failures: { Self → ℕ };

    /// How many failures it has counted; the count moves on by wrapping.
    fn failures(&self) -> u64
        ensures { result ≡ failures self.now };

    /// Makes a directory.
    fn make_dir<B: Allocator + Copy, C: Allocator + Copy>(
        &mut self,
        root: &Path<B>,
        path: &Path<C>,
    ) -> Result<(), FolderFault>
        // Witness: of a folder: equations of what is kept and of the count; `FailingFolder` of `rows_tree` meets them.
        ensures done { OnOk result (IsKept (changed_below root.now (λ part. made part path.now)) (kept self.old) (kept self.new) (failures self.old) (failures self.new)) }
        ensures failed { OnErr result (HasFailed (kept self.old) (kept self.new) (failures self.old) (failures self.new)) };

    /// Removes an empty directory.
    fn remove_dir<B: Allocator + Copy, C: Allocator + Copy>(
        &mut self,
        root: &Path<B>,
        path: &Path<C>,
    ) -> Result<(), FolderFault>
        // Witness: as of `make_dir`.
        ensures done { OnOk result (IsKept (changed_below root.now (λ part. removed part path.now)) (kept self.old) (kept self.new) (failures self.old) (failures self.new)) }
        ensures failed { OnErr result (HasFailed (kept self.old) (kept self.new) (failures self.old) (failures self.new)) };

    /// Deletes a file.
    fn delete<B: Allocator + Copy, C: Allocator + Copy>(
        &mut self,
        root: &Path<B>,
        path: &Path<C>,
    ) -> Result<(), FolderFault>
        // Witness: as of `make_dir`.
        ensures done { OnOk result (IsKept (changed_below root.now (λ part. removed part path.now)) (kept self.old) (kept self.new) (failures self.old) (failures self.new)) }
        ensures failed { OnErr result (HasFailed (kept self.old) (kept self.new) (failures self.old) (failures self.new)) };

    /// Moves what stands at a path, with all below it, to a path where nothing stands.
    fn rename<B: Allocator + Copy, C: Allocator + Copy, D: Allocator + Copy>(
        &mut self,
        root: &Path<B>,
        from: &Path<C>,
        to: &Path<D>,
    ) -> Result<(), FolderFault>
        // Witness: as of `make_dir`.
        ensures done { OnOk result (IsKept (changed_below root.now (λ part. moved part from.now to.now)) (kept self.old) (kept self.new) (failures self.old) (failures self.new)) }
        ensures failed { OnErr result (HasFailed (kept self.old) (kept self.new) (failures self.old) (failures self.new)) };

    /// Moves a file into the place of another, in one change.
    fn rename_onto<B: Allocator + Copy, C: Allocator + Copy, D: Allocator + Copy>(
        &mut self,
        root: &Path<B>,
        from: &Path<C>,
        to: &Path<D>,
    ) -> Result<(), FolderFault>
        // Witness: as of `make_dir`.
        ensures done { OnOk result (IsKept (changed_below root.now (λ part. moved (freed true part from.now to.now) from.now to.now)) (kept self.old) (kept self.new) (failures self.old) (failures self.new)) }
        ensures failed { OnErr result (HasFailed (kept self.old) (kept self.new) (failures self.old) (failures self.new)) };

    /// Writes a file of these octets, in the place of one that stands there.
    fn write<A: Allocator + Copy, B: Allocator + Copy, C: Allocator + Copy>(
        &mut self,
        root: &Path<B>,
        path: &Path<C>,
        content: &Content<A>,
        moment: Moment,
    ) -> Result<(), FolderFault>
        // Witness: as of `make_dir`.
        ensures done { OnOk result (IsKept (changed_below root.now (λ part. installed part path.now content.now moment.seconds)) (kept self.old) (kept self.new) (failures self.old) (failures self.new)) }
        ensures failed { OnErr result (HasFailed (kept self.old) (kept self.new) (failures self.old) (failures self.new)) };

    /// Writes a file of these octets where nothing stands; it fails where something does.
    fn write_new<A: Allocator + Copy, B: Allocator + Copy, C: Allocator + Copy>(
        &mut self,
        root: &Path<B>,
        path: &Path<C>,
        content: &Content<A>,
        moment: Moment,
    ) -> Result<(), FolderFault>
        // Witness of done, failed: as of `make_dir`.
        ensures done { OnOk result (IsKept (changed_below root.now (λ part. installed part path.now content.now moment.seconds)) (kept self.old) (kept self.new) (failures self.old) (failures self.new)) }
        // Witness of free: of a folder: `put` and `install` of `Mirror`, whose clause `spares` needs it.
        ensures free { OnOk result (IsPathFree (kept self.old) root.now path.now) }
        ensures failed { OnErr result (HasFailed (kept self.old) (kept self.new) (failures self.old) (failures self.new)) };
}
