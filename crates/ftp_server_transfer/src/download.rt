// A download: the octets of a file as it was when it was opened, from a place on, as its data connection carries them (RFC 959, section 3).
ghost use Rattle.std.specs.Prelude.{◌≡◌, ◌≤◌, ◌<◌, ◌+◌, ◌⊎◌, ◌↔◌, ◌^◌, ◌++◌, ℕ, List, [], IfOk, IsTrue, OnErr, OnOk, drop, false, length, min, take, true};
ghost use Rattle.ftp_wire.specs.Encoding.{still_to_give};
ghost use Rattle.ftp_server_model.specs.Transfer.{file_wire};
ghost use Rattle.ftp_server_transfer.specs.Download.{wire_given_by, is_plain};
ghost use Rattle.ftp_tree.specs.Change.{IsSteady, NoStray, TellsOne};

use ftp_server_replies::Given;
use ftp_settings::{Kind, Mode, Representation, Structure};
use ftp_tree::{Broken, Tree};
use ftp_wire::{Encoded, Encoder};
use std::alloc::Allocator;

/// The most octets of a file that are read at once where they do not go as they are.
const WINDOW: usize = 8_192;

/// A file that is sent, as it was when it was opened. It holds no octet of the file but those in one block.
#[derive(Drop)]
pub struct Download<A: Allocator + Copy, T: Tree<A>> {
    pub(crate) file: T::Open,
    /// The place in the file of the next octet that is given or encoded.
    pub(crate) at: u64,
    /// None where octets go as they are, and are read straight into the room.
    pub(crate) encoder: Option<Encoder>,
}

impl<A: Allocator + Copy, T: Tree<A>> Download<A, T> {
    ghost use Rattle.ftp_server_transfer.specs.Download.{rest_of};

    /// An open file from a place on, in a representation; own markers count from that place, wherever the representation has them.
    pub fn new(file: T::Open, at: u64, settings: Representation) -> Download<A, T>
        // Witness: an equation, where memory was not refused.
        ensures { rest_of T.opened result ≡ file_wire settings at (drop at (T.opened file)) }
    {
        // An open file has fewer than 2^64 octets, so markers can count them.
        let _len = T::open_len(&file);
        Download {
            file,
            at,
            encoder: encoder_of(settings, at),
        }
    }

    /// Gives octets, as many as there is room for and as are left, and says how many; fewer only where the device failed. Where it strayed, nothing is
    /// said of what is given but that there was room for it.
    pub fn give(&mut self, tree: &mut T, room: &mut [u8]) -> Given
        // Witness of within: over a whole listing they leave one text.
        // Witness of within, most, lost: bounds of the count; `edits/octets_that_were_not_read_are_given`.
        ensures within { result.count ≤ length room.old }
        // Witness of gave, rest, full: equations, unless the device failed or strayed; `edits/an_octet_is_skipped`,
        // `edits/octets_of_another_place_are_read`, `edits/a_download_gives_one_octet`.
        ensures gave { NoStray (T.failures tree.old) (T.failures tree.new) → take result.count room.new ≡ take result.count (rest_of T.opened self.old) }
        ensures most { NoStray (T.failures tree.old) (T.failures tree.new) → result.count ≤ length (rest_of T.opened self.old) }
        ensures rest { NoStray (T.failures tree.old) (T.failures tree.new) → rest_of T.opened self.new ≡ drop result.count (rest_of T.opened self.old) }
        ensures full { NoStray (T.failures tree.old) (T.failures tree.new) → result.lost ≡ false → result.count ≡ min (length room.old) (length (rest_of T.opened self.old)) }
        ensures lost { NoStray (T.failures tree.old) (T.failures tree.new) → result.lost ≡ true → result.count < length (rest_of T.opened self.old) }
        // Witness of table, steady, failed: the tree stays as it is, and the count of failures tells; `TreeTransfer::give` needs them.
        ensures table { T.table tree.new ≡ T.table tree.old }
        ensures steady { result.lost ≡ false → IsSteady (T.failures tree.old) (T.failures tree.new) }
        ensures failed { result.lost ≡ true → TellsOne (T.failures tree.old) (T.failures tree.new) }
    {
        let len = T::open_len(&self.file);
        let mut made = 0;
        while made < room.len() && !self.is_given_out() {
            let (_, free) = room.split_at_mut(made);
            let given = self.step(tree, len, free);
            made += given.count;
            if given.lost {
                return Given {
                    count: made,
                    lost: true,
                };
            }
        }
        Given {
            count: made,
            lost: false,
        }
    }

    /// Whether all is given.
    pub fn is_given_out(&self) -> bool
        ensures { IsTrue result ↔ (rest_of T.opened self.now ≡ []) }
    {
        let at_end = T::open_len(&self.file) <= self.at;
        match &self.encoder {
            Some(encoder) => encoder.is_out(at_end),
            None => at_end,
        }
    }

    /// Gives octets of what comes next of the file, which has `len` octets. Where the device failed all is as it was.
    fn step(&mut self, tree: &mut T, len: u64, room: &mut [u8]) -> Given
        requires some { 0 < length room.old }
        requires left { 0 < length (rest_of T.opened self.old) }
        requires len { len ≡ length (T.opened self.old.file) }
        ensures within { result.count ≤ length room.old }
        ensures text { NoStray (T.failures tree.old) (T.failures tree.new) → rest_of T.opened self.old ≡ take result.count room.new ++ rest_of T.opened self.new }

        // Something is given, or it has come further in the file, or the device failed.
        ensures goes { result.lost ≡ false → (0 < result.count) ⊎ ((self.old.at < self.new.at) × (self.new.at ≤ length (T.opened self.old.file))) }
        ensures on { self.old.at ≤ self.new.at }
        ensures left { result.lost ≡ true → 0 < length (rest_of T.opened self.new) }
        ensures file { T.opened self.new.file ≡ T.opened self.old.file }
        ensures table { T.table tree.new ≡ T.table tree.old }
        ensures steady { result.lost ≡ false → IsSteady (T.failures tree.old) (T.failures tree.new) }
        ensures failed { result.lost ≡ true → TellsOne (T.failures tree.old) (T.failures tree.new) }
    {
        match self.read_on(tree, len, room) {
            Ok(moved) => {
                self.at += moved.taken as u64;
                Given {
                    count: moved.made,
                    lost: false,
                }
            }
            Err(_) => Given {
                count: 0,
                lost: true,
            },
        }
    }

    /// Reads what comes next of the file, and says how many octets of it were taken, and how many were made. It stays at its place.
    fn read_on(&mut self, tree: &mut T, len: u64, room: &mut [u8]) -> Result<Encoded, Broken>
        requires some { 0 < length room.old }
        requires left { 0 < length (rest_of T.opened self.old) }
        requires len { len ≡ length (T.opened self.old.file) }
        ensures within { IfOk result (λ moved. (moved.made ≤ length room.old) × (moved.taken ≤ length (drop self.old.at (T.opened self.old.file)))) }
        ensures text { NoStray (T.failures tree.old) (T.failures tree.new) → IfOk result (λ moved. rest_of T.opened self.old
            ≡ take moved.made room.new ++ wire_given_by self.new.encoder (drop (self.old.at + moved.taken) (T.opened self.old.file))) }
        ensures some { IfOk result (λ moved. 0 < moved.taken + moved.made) }
        ensures back { OnErr result (self.new.encoder ≡ self.old.encoder) }
        ensures file { (T.opened self.new.file ≡ T.opened self.old.file) × (self.new.at ≡ self.old.at) }
        ensures table { T.table tree.new ≡ T.table tree.old }
        ensures steady { OnOk result (IsSteady (T.failures tree.old) (T.failures tree.new)) }
        ensures failed { OnErr result (TellsOne (T.failures tree.old) (T.failures tree.new)) }
    {
        match &mut self.encoder {
            Some(encoder) => Self::encode(encoder, tree, &mut self.file, self.at, len, room),
            None => Self::read_plain(tree, &mut self.file, self.at, room),
        }
    }

    /// Reads octets of a file of `len` octets from a place on, and puts them through an encoder.
    fn encode(
        encoder: &mut Encoder,
        tree: &mut T,
        file: &mut T::Open,
        at: u64,
        len: u64,
        room: &mut [u8],
    ) -> Result<Encoded, Broken>
        requires some { 0 < length room.old }
        requires left { 0 < length (still_to_give encoder.old (drop at (T.opened file.old))) }
        requires len { len ≡ length (T.opened file.old) }
        ensures within { IfOk result (λ moved. (moved.made ≤ length room.old) × (moved.taken ≤ length (drop at (T.opened file.old)))) }
        ensures text { NoStray (T.failures tree.old) (T.failures tree.new) → IfOk result (λ moved. still_to_give encoder.old (drop at (T.opened file.old))
            ≡ take moved.made room.new ++ still_to_give encoder.new (drop (at + moved.taken) (T.opened file.old))) }
        ensures some { IfOk result (λ moved. 0 < moved.taken + moved.made) }
        ensures back { OnErr result (encoder.new ≡ encoder.old) }
        ensures file { T.opened file.new ≡ T.opened file.old }
        ensures table { T.table tree.new ≡ T.table tree.old }
        ensures steady { OnOk result (IsSteady (T.failures tree.old) (T.failures tree.new)) }
        ensures failed { OnErr result (TellsOne (T.failures tree.old) (T.failures tree.new)) }
    {
        let mut buffer = [0u8; WINDOW];
        let (window, _) = buffer.split_at_mut(room.len().min(WINDOW));
        let count = tree.read(file, at, window)?;
        let (piece, _) = window.split_at(count);
        let left = len.saturating_sub(at);
        let last = left <= piece.len() as u64;
        Ok(encoder.put(piece, last, room))
    }

    /// Reads octets of a file from a place on into the room.
    fn read_plain(
        tree: &mut T,
        file: &mut T::Open,
        at: u64,
        room: &mut [u8],
    ) -> Result<Encoded, Broken>
        requires some { 0 < length room.old }
        requires left { 0 < length (drop at (T.opened file.old)) }
        ensures within { IfOk result (λ moved. (moved.made ≤ length room.old) × (moved.taken ≤ length (drop at (T.opened file.old)))) }
        ensures text { NoStray (T.failures tree.old) (T.failures tree.new) → IfOk result (λ moved. drop at (T.opened file.old) ≡ take moved.made room.new ++ drop (at + moved.taken) (T.opened file.old)) }
        ensures some { IfOk result (λ moved. 0 < moved.taken + moved.made) }
        ensures file { T.opened file.new ≡ T.opened file.old }
        ensures table { T.table tree.new ≡ T.table tree.old }
        ensures steady { OnOk result (IsSteady (T.failures tree.old) (T.failures tree.new)) }
        ensures failed { OnErr result (TellsOne (T.failures tree.old) (T.failures tree.new)) }
    {
        let count = tree.read(file, at, room)?;
        Ok(Encoded {
            taken: count,
            made: count,
        })
    }
}

/// What encodes a file from a place on; nothing does where its octets go as they are.
fn encoder_of(settings: Representation, at: u64) -> Option<Encoder>
    ensures { (file : List ℕ) → at + length file < 2 ^ 64 → wire_given_by result file ≡ file_wire settings at file }
{
    if is_plain(settings) {
        return None;
    }
    Some(Encoder::marked(settings, at))
}

/// Whether the octets of a file go as they are: in type I, file structure and stream mode.
fn is_plain(settings: Representation) -> bool
    ensures { result ≡ is_plain settings }
{
    matches!(
        settings,
        Representation {
            kind: Kind::Image,
            structure: Structure::File,
            mode: Mode::Stream
        }
    )
}
