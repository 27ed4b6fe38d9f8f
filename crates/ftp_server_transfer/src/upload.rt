// An upload: the octets of its data connection are settled into a file, apart from the tree until it ends (RFC 959, section 3.4).
ghost use Rattle.std.specs.Prelude.{◌≡◌, ◌≤◌, ◌<◌, ◌+◌, ◌^◌, ℕ, IfOk, OnErr, OnOk, Some, false, length, take, is_none, is_some, if◌then◌else◌};
ghost use Rattle.std.specs.Option.{IfSome};
ghost use Rattle.ftp_wire.specs.Decoder.{no_octets};
ghost use Rattle.ftp_server_replies.specs.ServerTransfer.{Comes, Ends};
ghost use Rattle.ftp_server_model.specs.Keep.{kept_count};
ghost use Rattle.ftp_server_model.specs.Machine.{at_break, at_end, installs};
ghost use Rattle.ftp_server_model.specs.Standing.{overtaken};
ghost use Rattle.ftp_server_model.specs.View.{Session};
ghost use Rattle.ftp_server_model.specs.declared.session.Transfer.TheVariants as Transfers;
ghost use Rattle.ftp_server_transfer.specs.Receiving.{is_over};
ghost use Rattle.ftp_tree.specs.Change.{IsSteady, NoStray, TellsOne};
ghost use Rattle.ftp_tree.specs.Tree.{octets_refusal, under};

use crate::ending::{
    end_refusal, fault_by, is_overtaken, kept_at, kept_count, overtaken_keep, room_behind,
};
use crate::settled::Came;
use arrayvec::ArrayVec;
use ftp_facts::Moment;
use ftp_operation::Rights;
use ftp_path::Path;
use ftp_server_model::{FixedReply, Keep};
use ftp_server_replies::{Fault, Marker, Received, Told};
use ftp_settings::{MARKER_LIMIT, Representation};
use ftp_tree::{Broken, Sight, Tree};
use ftp_wire::{Decoded, Decoder, Taken};
use std::alloc::Allocator;

/// A file that is received. What is settled of it is a draft of the tree.
#[derive(Drop)]
pub struct Upload<A: Allocator + Copy, T: Tree<A>> {
    pub(crate) path: Path<A>,
    /// What is kept of the file that stands at the path, in front of what comes.
    pub(crate) keep: Keep,
    pub(crate) decoder: Decoder<Came<A, T>>,
}

/// What came of octets, and whether the upload passed a limit of octets by them. Past it the rest is dropped unread, and the
/// upload is of no use any more.
#[derive(Drop)]
pub struct Arrived {
    pub received: Received,
    pub is_over: bool,
}

impl<A: Allocator + Copy, T: Tree<A>> Upload<A, T> {
    ghost use Rattle.ftp_server_transfer.specs.Receiving.{IsSaidOfHeard, Leaves};
    ghost use Rattle.ftp_server_transfer.specs.Upload.{upload_seen};

    /// An upload to a path, which keeps so much of the file there, in a representation, into a draft. Takes no memory.
    pub fn new(path: Path<A>, keep: Keep, settings: Representation, draft: T::Draft) -> Upload<A, T>
        // Witness: an equation, where memory was not refused.
        ensures { upload_seen result ≡ Transfers.Upload path keep (record (no_octets settings) { content = T.Draft.octets draft }) }
    {
        Upload {
            path,
            keep,
            decoder: Decoder::new(settings, Came { draft }),
        }
    }

    /// Takes octets of the data connection: all of them, or up to the first of which something is to be said.
    ///
    /// Whether a file can be put at the path is asked at the end. Where the octets that are kept pass a limit by themselves, the first
    /// octet is told as want of memory (own choice: a tree within its own limits does not meet it).
    pub fn receive<B: Allocator + Copy>(
        &mut self,
        tree: &T,
        root: &Path<B>,
        piece: &[u8],
    ) -> Arrived
        // Witness of within, some: bounds of the count.
        ensures within { result.received.count ≤ length piece.now }
        // Witness of comes: for every server's view an equation, by what is told; `TreeTransfer::receive` needs it; `room_left`'s `none`:
        // `edits/a_directory_is_told_as_no_memory`.
        ensures comes { Comes (under (T.table tree.now) root.now) (upload_seen self.old) (take result.received.count piece.now)
            result.received.told (if result.is_over then Transfers.OverLimit else upload_seen self.new) }
        ensures some { 0 < length piece.now → 0 < result.received.count }
    {
        if piece.is_empty() {
            return Arrived::of(0, Told::Nothing);
        }
        let Some(room) = self.room_left(tree, root) else {
            return Arrived::of(1, Told::NoMemory);
        };
        let taken = self.decoder.hear(piece, room);
        Arrived {
            received: Received {
                count: taken.count,
                told: self.told(taken),
            },
            is_over: is_over(taken.heard),
        }
    }

    /// How many octets may still be settled; `None` where those that are held pass a limit.
    fn room_left<B: Allocator + Copy>(&self, tree: &T, root: &Path<B>) -> Option<u64>
        ensures room { IfSome result (λ room. Leaves (under (T.table tree.now) root.now) self.now.path (kept_count self.now.keep) (length self.now.decoder.decoder.content + room)) }
        ensures none { is_none result ≡ is_some (octets_refusal (under (T.table tree.now) root.now) self.now.path (kept_count self.now.keep + length self.now.decoder.decoder.content)) }
    {
        let Some(most) = room_behind(tree, root, &self.path, kept_count(self.keep)) else {
            return None;
        };
        most.checked_sub(self.decoder.len())
    }

    /// What is to be said of octets that were taken.
    fn told(&self, taken: Taken) -> Told
        requires { (held : ℕ) → taken.mark ≡ Some held → (kept_count self.now.keep + held < 2 ^ 64) × (length self.now.decoder.marker ≤ MARKER_LIMIT) }
        ensures { IsSaidOfHeard (kept_count self.now.keep) taken.mark self.now.decoder.marker taken.heard result }
    {
        match taken.heard {
            Decoded::Faulty(_) => Told::Faulty,
            Decoded::NoMemory => Told::NoMemory,
            Decoded::More | Decoded::Over => match taken.mark {
                None => Told::Nothing,
                Some(held) => Told::Mark(Marker {
                    text: copied(self.decoder.marker()),
                    held: kept_count(self.keep) + held,
                }),
            },
        }
    }

    /// The other end closed the data connection: the file is whole and put into the tree, or it ended early, which counts as broken.
    /// It is put by an account that may change so much. The reply that ends the transfer.
    pub fn at_end(
        mut self,
        tree: &mut T,
        root: &Path<A>,
        rights: Rights,
        moment: Moment,
    ) -> Result<FixedReply, Fault>
        // Witness: of one that was overtaken: `edits/what_broke_is_put_over_anothers_file`, `edits/a_whole_file_is_dropped_once_it_is_overtaken`,
        // `edits/an_upload_is_never_overtaken`, `edits/a_file_of_another_moment_is_the_same`.
        // Witness: of what is answered: equations where nothing failed; `edits/the_end_does_not_ask_for_the_rights`,
        // `edits/fewer_octets_than_rest_kept_are_put`, `edits/a_failed_device_is_told_as_memory`, `edits/a_failed_look_is_answered_as_an_end`.
        // Witness: of what is put: equations of the map where nothing failed; `edits/a_break_of_a_whole_file_is_answered_226`,
        // `edits/one_octet_fewer_is_kept`, `edits/nothing_is_kept`, `edits/appe_keeps_what_stood_when_it_began`.
        ensures { (s : Session) → s.table ≡ T.table tree.old → s.root ≡ root.now → s.rights ≡ rights
            → Ends (at_end moment.seconds (upload_seen self) s) s (T.table tree.new) result (T.failures tree.old) (T.failures tree.new) }
    {
        if !self.decoder.is_whole() {
            return self.at_break(tree, root, rights, moment);
        }
        let Ok(()) = self.decoder.end() else {
            return Err(Fault::Memory);
        };
        self.install(tree, root, rights, moment, FixedReply::Complete)
    }

    /// The data connection broke: what was settled is put into the tree, unless others changed what stands at the path. The reply that ends the
    /// transfer.
    pub fn at_break(
        self,
        tree: &mut T,
        root: &Path<A>,
        rights: Rights,
        moment: Moment,
    ) -> Result<FixedReply, Fault>
        // Witness: as of `at_end`.
        ensures { (s : Session) → s.table ≡ T.table tree.old → s.root ≡ root.now → s.rights ≡ rights
            → Ends (at_break moment.seconds (upload_seen self) s) s (T.table tree.new) result (T.failures tree.old) (T.failures tree.new) }
    {
        if is_overtaken(self.keep) {
            return Ok(FixedReply::Broken);
        }
        self.install(tree, root, rights, moment, FixedReply::Broken)
    }

    /// Others changed what stands at its path.
    pub(crate) fn overtake(&mut self)
        ensures { upload_seen self.new ≡ overtaken (upload_seen self.old) }
    {
        self.keep = overtaken_keep(self.keep);
    }

    /// What was settled is put into the tree and answered so; or it is refused as the direct run would refuse it there now, and
    /// nothing is. The tree looks at the path before it is asked of it. Where the look finds that others changed what stands there, nothing is put
    /// there of an upload that broke.
    fn install(
        self,
        tree: &mut T,
        root: &Path<A>,
        rights: Rights,
        moment: Moment,
        text: FixedReply,
    ) -> Result<FixedReply, Fault>
        ensures { (s : Session) → s.table ≡ T.table tree.old → s.root ≡ root.now → s.rights ≡ rights
            → Ends (installs moment.seconds self.path self.keep self.decoder.decoder text s) s (T.table tree.new) result (T.failures tree.old) (T.failures tree.new) }
    {
        let Upload {
            path,
            keep,
            decoder,
        } = self;
        let Ok(is_changed) = look_at_end(tree, root, &path, &decoder.sink().draft, text) else {
            return Err(Fault::Device);
        };
        if is_changed {
            return Ok(text);
        }
        if let Some(why) = end_refusal(tree, root, &path, keep, decoder.len(), rights) {
            return Ok(why);
        }
        let kept = kept_at(tree, root, &path, keep);
        let failures = tree.device_failures();
        let Came { draft } = decoder.into_sink();
        match tree.put(root, &path, kept, draft, moment) {
            Ok(()) => Ok(text),
            Err(_) => Err(fault_by(failures, tree.device_failures())),
        }
    }
}

impl Arrived {
    /// So many octets were taken, the limits were not passed, and this is to be said.
    fn of(count: usize, told: Told) -> Arrived
        ensures { (result.received.count ≡ count) × (result.received.told ≡ told) × (result.is_over ≡ false) }
    {
        Arrived {
            received: Received { count, told },
            is_over: false,
        }
    }
}

/// Looks at the path of an upload that ends. Whether another thing stands there than as one began that broke.
fn look_at_end<A: Allocator + Copy, T: Tree<A>>(
    tree: &mut T,
    root: &Path<A>,
    path: &Path<A>,
    draft: &T::Draft,
    text: FixedReply,
) -> Result<bool, Broken>
    ensures same { NoStray (T.failures tree.old) (T.failures tree.new) → T.table tree.new ≡ T.table tree.old }
    ensures changed { NoStray (T.failures tree.old) (T.failures tree.new) → IfOk result (λ is_changed. is_changed ≡ false) }
    ensures steady { OnOk result (IsSteady (T.failures tree.old) (T.failures tree.new)) }
    ensures failed { OnErr result (TellsOne (T.failures tree.old) (T.failures tree.new)) }
{
    if is_broken(text) {
        return tree.look_since(root, path, draft);
    }
    let _ = tree.look(root, path, Sight::Path)?;
    Ok(false)
}

/// Whether it is the reply of an upload that broke.
fn is_broken(text: FixedReply) -> bool {
    matches!(text, FixedReply::Broken)
}

/// Whether the file passes its limit with what was heard.
fn is_over(heard: Decoded) -> bool
    ensures { result ≡ is_over heard }
{
    match heard {
        Decoded::Over => true,
        Decoded::More | Decoded::Faulty(_) | Decoded::NoMemory => false,
    }
}

/// The text of a marker, in a place of its own.
fn copied(text: &[u8]) -> ArrayVec<u8, MARKER_LIMIT>
    requires { length text.now ≤ MARKER_LIMIT }
    ensures { result.items ≡ text.now }
{
    let mut copy = ArrayVec::new();
    copy.try_extend_from_slice(text).unwrap();
    copy
}
