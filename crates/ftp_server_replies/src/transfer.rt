// What a transfer does, however it holds what came and what is still to be given.
ghost use Rattle.std.specs.Prelude.{◌≡◌, ◌≤◌, ◌<◌, IfErr, IfOk, OnErr, OnOk, drop, false, length, min, take, true};
ghost use Rattle.ftp_wire.specs.Decoder.{no_octets};
ghost use Rattle.ftp_server_model.specs.Ask.{or_empty};
ghost use Rattle.ftp_server_model.specs.Listing.{entry_lines, list_lines, listing_wire, name_lines};
ghost use Rattle.ftp_server_model.specs.Machine.{at_break, at_end};
ghost use Rattle.ftp_server_model.specs.Standing.{overtaken, standing_for};
ghost use Rattle.ftp_server_model.specs.Transfer.{file_wire};
ghost use Rattle.ftp_server_model.specs.View.{Session as Seen};
ghost use Rattle.ftp_server_model.specs.declared.session.Transfer.TheVariants as Transfers;
ghost use Rattle.ftp_server_model.specs.Counting.{TellsSome};
ghost use Rattle.ftp_server_replies.specs.Fault.{Counted};
ghost use Rattle.ftp_server_replies.specs.ServerTransfer.{Comes, Ends, IsUpload, behind, left_to_give, has_nothing_left, takes_octets};
ghost use Rattle.ftp_tree.specs.Change.{IsSteady, NoStray};
ghost use Rattle.ftp_tree.specs.Tree.{octets_or_none, under};

use crate::fault::Fault;
use arrayvec::ArrayVec;
use ftp_command::Argument;
use ftp_facts::{Facts, Moment};
use ftp_operation::Rights;
use ftp_path::Path;
use ftp_server_model::{FixedReply, Keep, Standing};
use ftp_settings::{MARKER_LIMIT, Mode, Representation};
use ftp_tree::Tree;
use std::alloc::{AllocError, Allocator};

/// A restart marker that came, and how many octets of the file are held by then, kept and settled ones.
#[derive(Drop)]
pub struct Marker {
    pub text: ArrayVec<u8, MARKER_LIMIT>,
    pub held: u64,
}

/// What is to be said of octets that came.
#[derive(Drop)]
pub enum Told {
    Nothing,
    /// A restart marker is to be answered.
    Mark(Marker),
    /// A fault was met: the transfer is over.
    Faulty,
    /// Memory was refused: the transfer is over.
    NoMemory,
}

/// How many octets were taken, and what is to be said of the last of them.
#[derive(Drop)]
pub struct Received {
    pub count: usize,
    pub told: Told,
}

/// How many octets were given, and whether those that come next were not had, for want of memory or as the device failed.
#[derive(Clone, Copy)]
pub struct Given {
    pub count: usize,
    pub lost: bool,
}

/// A transfer of a server over trees `T`. What it is still to give is fixed when it begins, whatever becomes of the tree after that.
pub trait ServerTransfer<A: Allocator + Copy, T: Tree<A>>: Drop {
    ghost use Rattle.ftp_server_model.specs.View.{Transfer};

    /// The transfer of the definitions.
    ghost view: { Self → Transfer };

    /// A download of the file at a path, from a place on, as the file is now. Where no file stands that is told as want of memory.
    fn download(
        tree: &mut T,
        root: &Path<A>,
        path: &Path<A>,
        place: u64,
        settings: Representation,
    ) -> Result<Self, Fault>
        // Witness: equations of the transfer, where nothing failed, and of the map; the count tells a failed device.
        ensures download { IfOk result (λ transfer. view transfer ≡ Transfers.Download (file_wire settings place (drop place (octets_or_none (under (T.table tree.old) root.now) path.now)))) }
        ensures table { T.table tree.new ≡ T.table tree.old }
        ensures steady { OnOk result (T.failures tree.new ≡ T.failures tree.old) }
        ensures failed { IfErr result (λ fault. Counted fault (T.failures tree.old) (T.failures tree.new)) };

    /// An upload to a path, which keeps so much of the file there. The path is taken out, here and below.
    fn upload(
        alloc: A,
        tree: &mut T,
        root: &Path<A>,
        path: &mut Path<A>,
        keep: Keep,
        settings: Representation,
    ) -> Result<Self, Fault>
        // Witness: the same.
        ensures upload { IfOk result (λ transfer. view transfer ≡ Transfers.Upload path.old keep (no_octets settings)) }
        ensures table { T.table tree.new ≡ T.table tree.old }
        ensures steady { OnOk result (T.failures tree.new ≡ T.failures tree.old) }
        ensures failed { IfErr result (λ fault. Counted fault (T.failures tree.old) (T.failures tree.new)) };

    /// What LIST sends of what stands at a path.
    fn list(
        alloc: A,
        tree: &T,
        root: &Path<A>,
        path: &mut Path<A>,
        mode: Mode,
    ) -> Result<Self, AllocError>
        // Witness: equations, where memory was not refused.
        ensures { IfOk result (λ listing. view listing ≡ Transfers.Listing (listing_wire mode (list_lines (under (T.table tree.now) root.now) path.old))) };

    /// What NLST sends of what stands at a path, for the argument that named it.
    fn names(
        alloc: A,
        tree: &T,
        root: &Path<A>,
        path: &mut Path<A>,
        text: &Option<Argument<A>>,
        mode: Mode,
    ) -> Result<Self, AllocError>
        // Witness: equations, where memory was not refused.
        ensures { IfOk result (λ listing. view listing ≡ Transfers.Listing (listing_wire mode (name_lines (under (T.table tree.now) root.now) path.old (or_empty text.now)))) };

    /// What MLSD sends of the directory at a path, with these facts.
    fn entries(
        alloc: A,
        tree: &T,
        root: &Path<A>,
        path: &mut Path<A>,
        facts: Facts,
        mode: Mode,
    ) -> Result<Self, AllocError>
        // Witness: equations, where memory was not refused.
        ensures { IfOk result (λ listing. view listing ≡ Transfers.Listing (listing_wire mode (entry_lines facts (under (T.table tree.now) root.now) path.old))) };

    /// Whether it takes octets of the data connection, and does not give them.
    fn takes_octets(&self) -> bool
        // Witness: equations, where memory was not refused.
        ensures { result ≡ takes_octets (view self.now) };

    /// Takes octets of the data connection. Where the transfer is over by them, it is of no use any more.
    fn receive(&mut self, tree: &T, root: &Path<A>, piece: &[u8]) -> Received
        // Witness: for every server's view an equation, by what is told; bounds of the count.
        ensures within { result.count ≤ length piece.now }
        ensures comes { Comes (under (T.table tree.now) root.now) (view self.old) (take result.count piece.now) result.told (view self.new) }
        ensures some { takes_octets (view self.old) ≡ true → 0 < length piece.now → 0 < result.count };

    /// Gives octets to the data connection. The tree stays as it is. Where its device strays, nothing is said of what is given but that there was
    /// room for it.
    fn give(&mut self, tree: &mut T, room: &mut [u8]) -> Given
        // Witness: as of `give`.
        ensures within { result.count ≤ length room.old }
        ensures gave { NoStray (T.failures tree.old) (T.failures tree.new) → take result.count room.new ≡ take result.count (left_to_give (view self.old)) }
        ensures most { NoStray (T.failures tree.old) (T.failures tree.new) → result.count ≤ length (left_to_give (view self.old)) }
        ensures on { NoStray (T.failures tree.old) (T.failures tree.new) → view self.new ≡ behind result.count (view self.old) }

        // It fills the room or gives all that is left, or what comes next was not had.
        ensures full { NoStray (T.failures tree.old) (T.failures tree.new) → result.lost ≡ false → result.count ≡ min (length room.old) (length (left_to_give (view self.old))) }
        ensures lost { NoStray (T.failures tree.old) (T.failures tree.new) → result.lost ≡ true → result.count < length (left_to_give (view self.old)) }
        ensures takes { takes_octets (view self.new) ≡ takes_octets (view self.old) }
        ensures table { T.table tree.new ≡ T.table tree.old }
        ensures steady { result.lost ≡ false → IsSteady (T.failures tree.old) (T.failures tree.new) }
        ensures few { TellsSome 1 (T.failures tree.old) (T.failures tree.new) };

    /// Whether all is given.
    fn is_given_out(&self) -> bool
        // Witness: equations, where memory was not refused.
        ensures { result ≡ has_nothing_left (view self.now) };

    /// What stands at the path of an upload; none of another transfer.
    fn stands(&self, tree: &T, root: &Path<A>) -> Option<Standing>
        ensures { result ≡ standing_for (view self.now) (under (T.table tree.now) root.now) };

    /// Others changed what stands at the path of an upload: from now on it is put there only if it is whole. Another transfer stays as it is.
    fn overtake(&mut self)
        ensures { view self.new ≡ overtaken (view self.old) };

    /// The other end closed the data connection: what came of an upload is put into the tree, or refused there, by an account that
    /// may change so much. The reply that ends the transfer.
    fn at_end(
        self,
        tree: &mut T,
        root: &Path<A>,
        rights: Rights,
        moment: Moment,
    ) -> Result<FixedReply, Fault>
        // Witness of ends: equations of what is answered where nothing failed, and of the map, where the device did not stray.
        ensures ends { (s : Seen) → s.table ≡ T.table tree.old → s.root ≡ root.now → s.rights ≡ rights
            → Ends (at_end moment.seconds (view self) s) s (T.table tree.new) result (T.failures tree.old) (T.failures tree.new) }
        // Witness of upload: a failure is an upload's alone.
        ensures upload { OnErr result (IsUpload (view self)) };

    /// The data connection broke: what was settled of an upload is put into the tree, or refused there. The reply that ends the transfer.
    fn at_break(
        self,
        tree: &mut T,
        root: &Path<A>,
        rights: Rights,
        moment: Moment,
    ) -> Result<FixedReply, Fault>
        // Witness of ends: as of `at_end`.
        ensures ends { (s : Seen) → s.table ≡ T.table tree.old → s.root ≡ root.now → s.rights ≡ rights
            → Ends (at_break moment.seconds (view self) s) s (T.table tree.new) result (T.failures tree.old) (T.failures tree.new) }
        // Witness of upload: a failure is an upload's alone.
        ensures upload { OnErr result (IsUpload (view self)) };
}
