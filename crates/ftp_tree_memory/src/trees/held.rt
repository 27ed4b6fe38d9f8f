// A tree that has its files' octets at hand.
ghost use Rattle.std.specs.Prelude.{◌≡◌, ◌≤◌, ◌<◌, [], IfErr, OnErr, OnOk, drop, length, take};
ghost use Rattle.ftp_tree.specs.Change.{IsDone, IsRefused};
ghost use Rattle.ftp_tree.specs.Tree.{install_refusal, installed, octets_or_none, under, with_part};

use crate::trees::content::Content;
use ftp_facts::Moment;
use ftp_path::Path;
use ftp_tree::{Tree, TreeFault};
use std::alloc::Allocator;

/// A tree that holds the octets of its files: it lends them, and takes those of a file that is gathered in memory.
pub trait HeldTree<A: Allocator + Copy>: Tree<A> {
    /// Some octets of the file at a path from a place on, at most `max` of them: none only at its end, or where `max` is 0,
    /// or where no file stands. They are lent until the next change.
    fn piece<B: Allocator + Copy, C: Allocator + Copy>(
        &self,
        root: &Path<B>,
        path: &Path<C>,
        at: u64,
        max: usize,
    ) -> &[u8]
        // Witness: `Content::of`, whose clause `front` needs all three; `a_piece_is_empty.edit`.
        // Witness: as of `piece`.
        ensures octets { result.now ≡ take (length result.now) (drop at (octets_or_none (under (Self.table self.now) root.now) path.now)) }
        ensures most { length result.now ≤ max }
        ensures some { 0 < max → at < length (octets_or_none (under (Self.table self.now) root.now) path.now) → 0 < length result.now };

    /// Puts a file at a path, in the place of one that stands there. Its octets are taken out of the content.
    ///
    /// Refused: as `room` says, then `TooBig` past the most octets of a file, `Full` where all files below the root together would.
    /// Refused, it leaves the content as it was.
    fn install<B: Allocator + Copy, C: Allocator + Copy>(
        &mut self,
        root: &Path<B>,
        path: &Path<C>,
        content: &mut Content<A>,
        moment: Moment,
    ) -> Result<(), TreeFault>
        // Witness of done, refused: as of `put` of `ftp_tree`: equations of the map and of the fault.
        ensures done { OnOk result (let part = under (Self.table self.old) root.now in IsDone (install_refusal part path.now (length content.old)) (with_part (Self.table self.old) root.now (installed part path.now content.old moment.seconds)) (Self.table self.new) (Self.failures self.old) (Self.failures self.new)) }
        ensures refused { IfErr result (λ fault. IsRefused (install_refusal (under (Self.table self.old) root.now) path.now (length content.old)) fault (Self.table self.old) (Self.table self.new) (Self.failures self.old) (Self.failures self.new)) }
        // Witness of taken, back: equations; `a_file_is_installed_with_moment_0.edit` of what is put.
        ensures taken { OnOk result (content.new ≡ []) }
        ensures back { OnErr result (content.new ≡ content.old) };
}
