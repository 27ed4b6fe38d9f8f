// The two readers, one behind the other, and what they fill.
ghost use Rattle.std.specs.Prelude.{◌≡◌, ◌+◌, ◌<◌, ◌≤◌, ◌++◌, ℕ, List, [], length, take, IfErr, OnOk};
ghost use Rattle.ftp_repr.specs.Items.{signs};
ghost use Rattle.ftp_repr.specs.Received.{lent_octets};
ghost use Rattle.ftp_mode.specs.Said.{file_signs};
ghost use Rattle.ftp_mode.specs.Deframing.{part_said, owed, reading, last_marker};
ghost use Rattle.ftp_wire.specs.Hearing.{Hears, TellsNothing};
ghost use Rattle.ftp_wire.specs.Decoder.{no_octets};

use crate::decoded::{Decoded, Taken};
use crate::sink::Sink;
use ftp_mode::{Deframer, Part};
use ftp_repr::{Item, Lent, Receiver};
use ftp_settings::Representation;
use std::alloc::AllocError;

pub(crate) const RETURN: [u8; 1] = [13];

/// A decoder that may owe ends in the middle of a step.
#[derive(Drop)]
pub struct Intake<S: Sink> {
    pub(crate) deframer: Deframer,
    pub(crate) receiver: Receiver,
    pub(crate) sink: S,
}

/// Why an item was not taken whole: how many octets of it were, and what came with the next.
#[derive(Clone, Copy)]
struct Stopped {
    at: usize,
    heard: Decoded,
}

impl<S: Sink> Intake<S> {
    ghost use Rattle.ftp_wire.specs.Taking.{decoder_at, settled, Stops, EndsShort, KeepsRoom, HasNoRoom};

    pub(crate) fn new(settings: Representation, sink: S) -> Intake<S>
        ensures decoder { decoder_at S.octets result ≡ record (no_octets settings) { content = S.octets sink } }
        ensures owes { owed result.deframer ≡ [] }
    {
        Intake {
            deframer: Deframer::new(settings.mode, settings.structure),
            receiver: Receiver::new(settings.kind, settings.structure),
            sink,
        }
    }

    /// Reads octets until one tells something, or all are read.
    pub(crate) fn hear(&mut self, piece: &[u8], room: u64) -> Taken
        requires owes { owed self.old.deframer ≡ [] }
        ensures hears { Hears (length (decoder_at S.octets self.old).content + room) (decoder_at S.octets self.old) (take result.count piece.now)
            result.mark (last_marker self.new.deframer) result.heard (decoder_at S.octets self.new) }
        ensures within { result.count ≤ length piece.now }
        ensures some { 0 < length piece.now → 0 < result.count }
        ensures all { TellsNothing result.mark result.heard → result.count ≡ length piece.now }
    {
        let mut left = room;
        let mut at = 0;
        while at < piece.len() {
            let (_, rest) = piece.split_at(at);
            let taken = self.step(rest, &mut left);
            at += taken.count;
            if !taken.tells_nothing() {
                return Taken { count: at, ..taken };
            }
        }
        Taken {
            count: at,
            mark: None,
            heard: Decoded::More,
        }
    }

    /// Forgets the ends that are owed.
    pub(crate) fn forget_ends(&mut self)
        ensures owes { owed self.new.deframer ≡ [] }
        ensures decoder { decoder_at S.octets self.new ≡ decoder_at S.octets self.old }
        ensures marker { last_marker self.new.deframer ≡ last_marker self.old.deframer }
    {
        while let Some(_end) = self.deframer.owed_part() {}
    }

    /// Takes octets in front of a piece, up to those of one part and the ends behind it.
    fn step(&mut self, piece: &[u8], room: &mut u64) -> Taken
        requires owes { owed self.old.deframer ≡ [] }
        requires some { 0 < length piece.now }
        ensures hears { Hears (length (decoder_at S.octets self.old).content + room.old) (decoder_at S.octets self.old) (take result.count piece.now)
            result.mark (last_marker self.new.deframer) result.heard (decoder_at S.octets self.new) }
        ensures within { result.count ≤ length piece.now }
        ensures some { 0 < result.count }
        ensures owes { TellsNothing result.mark result.heard → owed self.new.deframer ≡ [] }
        ensures room { TellsNothing result.mark result.heard → KeepsRoom S.octets self.old room.old self.new room.new }
    {
        let step = match self.deframer.feed(piece) {
            Ok(step) => step,
            Err(fault) => return Taken {
                count: self.deframer.taken_with_fault().max(1),
                mark: None,
                heard: Decoded::Faulty(fault),
            },
        };
        let mark = match step.part {
            Part::Marker => Some(self.sink.len()),
            _ => None,
        };
        let item = item_of(step.part);
        if let Err(stopped) = self.settle(item, room) {
            return Taken {
                count: step.taken - item.len() + stopped.at + 1,
                mark: None,
                heard: stopped.heard,
            };
        }
        let heard = self.settle_ends(room);
        Taken {
            count: step.taken,
            mark,
            heard,
        }
    }

    /// Settles the ends that are owed.
    fn settle_ends(&mut self, room: &mut u64) -> Decoded
        ensures reading { reading self.new.deframer ≡ reading self.old.deframer }
        ensures marker { last_marker self.new.deframer ≡ last_marker self.old.deframer }
        ensures ends { EndsShort S.octets self.old room.old result self.new room.new }
    {
        while let Some(part) = self.deframer.owed_part() {
            if let Err(stopped) = self.settle(item_of(part), room) {
                return stopped.heard;
            }
        }
        Decoded::More
    }

    /// Settles what an item says, while there is room for it.
    fn settle(&mut self, item: Item<'_>, room: &mut u64) -> Result<(), Stopped>
        ensures deframer { self.new.deframer ≡ self.old.deframer }
        ensures ok { OnOk result (decoder_at S.octets self.new ≡ settled (decoder_at S.octets self.old) (signs item.entry)) }
        ensures room { OnOk result (KeepsRoom S.octets self.old room.old self.new room.new) }
        ensures err { IfErr result (λ stopped.
            Stops (length (decoder_at S.octets self.old).content + room.old) (decoder_at S.octets self.old) (signs item.entry) stopped) }
    {
        let mut rest = item;
        while !rest.is_empty() {
            let at = item.len() - rest.len();
            let lent = self.receiver.next(rest);
            if let Err(stopped) = self.grow(lent, room) {
                return Err(Stopped {
                    at: at + stopped.at,
                    heard: stopped.heard,
                });
            }
            rest = lent.rest;
        }
        Ok(())
    }

    /// Puts behind the file what was lent, if there is room for all of it. If not, so many octets or ends had room.
    fn grow(&mut self, lent: Lent<'_>, room: &mut u64) -> Result<(), Stopped>
        ensures readers { (self.new.deframer ≡ self.old.deframer) × (self.new.receiver ≡ self.old.receiver) }
        ensures ok { OnOk result (S.octets self.new.sink ≡ S.octets self.old.sink ++ lent_octets lent.entry) }
        ensures room { OnOk result (room.new + length (lent_octets lent.entry) ≡ room.old) }
        ensures err { IfErr result (λ stopped. HasNoRoom lent.entry room.old stopped) }
    {
        let left = *room;
        let behind = left.saturating_sub(u64::from(lent.with_return));
        let count = lent.octets.len() as u64;
        if count > behind || (lent.with_return && left == 0) {
            return Err(Stopped {
                at: behind as usize,
                heard: Decoded::Over,
            });
        }
        if self.put(lent).is_err() {
            return Err(Stopped {
                at: 0,
                heard: Decoded::NoMemory,
            });
        }
        *room = behind - count;
        Ok(())
    }

    /// Puts behind the file what was lent.
    fn put(&mut self, lent: Lent<'_>) -> Result<(), AllocError>
        ensures readers { (self.new.deframer ≡ self.old.deframer) × (self.new.receiver ≡ self.old.receiver) }
        ensures ok { OnOk result (S.octets self.new.sink ≡ S.octets self.old.sink ++ lent_octets lent.entry) }
    {
        if lent.with_return {
            self.sink.push(&RETURN)?;
        }
        self.sink.push(lent.octets)
    }
}

/// What a part says of the file: a marker is no part of it.
fn item_of<'a>(part: Part<'a>) -> Item<'a>
    ensures { (text : List ℕ) → signs result ≡ file_signs (part_said part.entry text) }
{
    match part {
        Part::Need | Part::Marker => Item::Octets(&[]),
        Part::Data(octets) => Item::Octets(octets),
        Part::EndRecord => Item::EndRecord,
        Part::EndFile => Item::EndFile,
    }
}
