// A data connection: what stands of its stream, and which octets of a room are on their way over it.
ghost use Rattle.std.specs.Prelude.{◌≡◌, ◌≢◌, ◌≤◌, ◌<◌, IsTrue, IfErr, IfOk, OnOk, OnErr, false, true, length, take, Some, None};
ghost use Rattle.std.specs.Option.{is_some};
ghost use Rattle.std.specs.Io.KnownBytes.{Appends, Consumes, IsAtEnd, Keeps};
ghost use Rattle.ftp_ports.specs.Asking.{Leaves};
ghost use Rattle.std.specs.IoError.{error_kind};
ghost use Rattle.ftp_ports.specs.Halting.{fate_by, fate_halted};
ghost use Rattle.ftp_ports.specs.Whole.{IsCut, IsWhole};

use crate::limits::DATA_PIECE_LIMIT;
use crate::ports::{Beside, Duplex, For, Ports, Ready};
use crate::whole::{Fate, Rest, whole_of};
use std::io::{Error, ErrorKind};

/// The fewest octets of a download that are taken at once, unless it ends before.
const LEAST_PIECE: usize = 32_768;

/// What part of the octets that went so far is taken at once.
const PART: usize = 8;

/// Why a read or a write of a data connection moved no octet.
#[derive(Clone, Copy)]
pub enum Halt {
    /// It was interrupted.
    Again,
    /// It would wait, and the control connection has octets, or ended.
    Spoken,
    /// The data connection broke, or there is none.
    Broken,
}

/// A data connection, if there is one, and which octets of a room are on their way over it: those that were taken from this end and are not
/// written yet. The room is the caller's.
pub struct DataConnection<S> {
    stream: Option<S>,
    at: usize,
    end: usize,
    rest: Rest,
    /// How many octets went over it.
    went: usize,
    fate: Fate,
    ghost order: { at ≤ end },
    ghost within: { end ≤ 262144 },
}

impl<S: Duplex> DataConnection<S> {
    ghost use Rattle.ftp_ports.specs.Asking.{Adds, Drops, Replaces, is_lost, told_lost};
    ghost use Rattle.ftp_ports.specs.Carrying.{Sends, carried_of, left_of, on_their_way};

    /// No data connection.
    pub fn new() -> DataConnection<S>
        // Witness of whole: equations.
        ensures whole { IsWhole result.at result.end result.rest result.fate }
        ensures none { result.stream ≡ None }
        ensures sound { result.fate ≡ Fate.Sound }
    {
        DataConnection {
            stream: None,
            at: 0,
            end: 0,
            rest: Rest::Nothing,
            went: 0,
            fate: Fate::Sound,
        }
    }

    /// It is open now, and this end has more octets for it or not; one that stood before is reset.
    pub fn begin<P: Ports<Stream = S>>(&mut self, ports: &mut P, stream: S, rest: Rest)
        ensures all { self.new.at ≡ self.new.end }
        ensures rest { self.new.rest ≡ rest }
        ensures stands { self.new.stream ≡ Some stream }
        ensures sound { self.new.fate ≡ Fate.Sound }
        // Witness of asked: equations.
        ensures asked { Replaces S.remaining S.contents self.old.stream (P.history ports.old) (P.history ports.new) }
    {
        self.at = self.end;
        self.rest = rest;
        self.went = 0;
        self.fate = Fate::Sound;
        if let Some(before) = self.stream.replace(stream) {
            ports.reset(before);
        }
    }

    /// This end has more octets for it.
    pub fn more(&mut self)
        // Witness: equations: `see` of `ftp_driver`.
        ensures rest { self.new.rest ≡ Rest.More }
        ensures at { self.new.at ≡ self.old.at }
        ensures end { self.new.end ≡ self.old.end }
        ensures stream { self.new.stream ≡ self.old.stream }
        ensures fate { self.new.fate ≡ self.old.fate }
    {
        self.rest = Rest::More;
    }

    /// Whether this end had more octets for it when it gave last, when it was seen to want to send, or when it was opened.
    pub fn rest(&self) -> Rest
        ensures { result ≡ self.now.rest }
    {
        self.rest
    }

    /// Whether octets were taken that are not written yet.
    pub fn has_unwritten(&self) -> bool
        // Witness: `fill` of `ftp_driver`: `took`.
        ensures some { IsTrue result → self.now.at < self.now.end }
        ensures none { result ≡ false → self.now.at ≡ self.now.end }
    {
        self.at < self.end
    }

    /// Whether one stands.
    pub fn stands(&self) -> bool
        ensures { result ≡ is_some self.now.stream }
    {
        self.stream.is_some()
    }

    /// What became of it.
    pub fn fate(&self) -> Fate
        ensures { result ≡ self.now.fate }
    {
        self.fate
    }

    /// This end was told that it broke, or that the other end closed it.
    pub fn told(&mut self, fate: Fate)
        // Witness: equations: `tell_end` of `ftp_driver`.
        ensures told { self.new.fate ≡ fate }
        ensures at { self.new.at ≡ self.old.at }
        ensures end { self.new.end ≡ self.old.end }
        ensures rest { self.new.rest ≡ self.old.rest }
        ensures stream { self.new.stream ≡ self.old.stream }
    {
        self.fate = fate;
    }

    /// How many octets are to be taken at once: an eighth of those that went so far, within 32,768 and 262,144. So the last octets, behind which
    /// nothing is heard until they are written, are few beside what the system took already, and it mostly has room for them.
    pub fn piece(&self) -> usize
        // Witness: `fill` of `ftp_driver` (most); `rows_ends`: two pieces of 32,768 (least).
        ensures least { 32768 ≤ result }
        ensures most { result ≤ 262144 }
    {
        (self.went / PART).clamp(LEAST_PIECE, DATA_PIECE_LIMIT)
    }

    /// The first octets of the room, so many, were taken from this end, where all before were written, and it has more or not.
    pub fn took(&mut self, count: usize, rest: Rest)
        requires all { self.old.at ≡ self.old.end }
        requires within { count ≤ 262144 }
        ensures at { self.new.at ≡ 0 }
        ensures end { self.new.end ≡ count }
        ensures rest { self.new.rest ≡ rest }
        ensures stream { self.new.stream ≡ self.old.stream }
        ensures fate { self.new.fate ≡ self.old.fate }
    {
        self.at = 0;
        self.end = count;
        self.rest = rest;
    }

    /// The octets of the room that are on their way.
    fn unwritten<'r>(&self, room: &'r [u8]) -> &'r [u8]
        requires { self.now.end ≤ length room.now }
        ensures { result.now ≡ on_their_way self.now room.now }
    {
        let (front, _) = room.split_at(self.end);
        let (_, unwritten) = front.split_at(self.at);
        unwritten
    }

    /// Writes octets of the room that are on their way, as many as one write takes.
    pub fn write(&mut self, room: &[u8]) -> Result<(), Halt>
        requires { self.old.end ≤ length room.now }
        // Witness of sends, err, same, end, rest, stands, fate, none: `edits/octets_count_as_written_that_the_stream_did_not_take.edit`,
        // `edits/each_write_begins_at_the_front_of_the_room.edit` (sends).
        ensures sends { Sends (carried_of S.contents self.old) (carried_of S.contents self.new) (on_their_way self.old room.now) (on_their_way self.new room.now) }
        ensures err { OnErr result (Keeps (carried_of S.contents self.old) (carried_of S.contents self.new)) }
        // Witness of apart: as of `read`.
        ensures apart { Keeps (left_of S.remaining self.old) (left_of S.remaining self.new) }
        ensures same { OnErr result (on_their_way self.new room.now ≡ on_their_way self.old room.now) }
        ensures end { self.new.end ≡ self.old.end }
        ensures rest { self.new.rest ≡ self.old.rest }
        ensures stands { is_some self.new.stream ≡ is_some self.old.stream }
        ensures fate { is_some self.old.stream ≡ true → self.new.fate ≡ fate_by result self.old.fate }
        ensures none { is_some self.old.stream ≡ false → self.new.fate ≡ self.old.fate }
    {
        let unwritten = self.unwritten(room);
        let Some(stream) = &mut self.stream else {
            return Err(Halt::Broken);
        };
        let count = match write_some(stream, unwritten) {
            Ok(count) => count,
            Err(halt) => {
                self.fate = fate_by(halt, self.fate);
                return Err(halt);
            }
        };
        self.at += count;
        self.went = self.went.saturating_add(count);
        Ok(())
    }

    /// Reads once, where it is open; none is the end of the data connection.
    pub fn read(&mut self, room: &mut [u8]) -> Result<usize, Halt>
        // Witness of within, ok, end, open, err, at, length, rest, stands, fate, none: as those of `get`; equations; `come` of `ftp_driver` (open):
        // an end is told only of one that stands.
        ensures within { IfOk result (λ count. count ≤ length room.new) }
        ensures ok { IfOk result (λ count. Consumes (left_of S.remaining self.old) (left_of S.remaining self.new) (take count room.new)) }
        ensures end { IfOk result (λ count. count ≡ 0 → 0 < length room.new → IsAtEnd (left_of S.remaining self.new)) }
        ensures open { IfOk result (λ count. is_some self.old.stream ≡ true) }
        ensures err { OnErr result (Keeps (left_of S.remaining self.old) (left_of S.remaining self.new)) }
        // Witness of apart: `IsRead`, `AreOctetsWritten` of `Channel`: `near_turns_happen` of `ftp_pair_memory`.
        ensures apart { Keeps (carried_of S.contents self.old) (carried_of S.contents self.new) }
        ensures at { self.new.at ≡ self.old.at }
        ensures length { self.new.end ≡ self.old.end }
        ensures rest { self.new.rest ≡ self.old.rest }
        ensures stands { is_some self.new.stream ≡ is_some self.old.stream }
        ensures fate { is_some self.old.stream ≡ true → self.new.fate ≡ fate_by result self.old.fate }
        ensures none { is_some self.old.stream ≡ false → self.new.fate ≡ self.old.fate }
    {
        let Some(stream) = &mut self.stream else {
            return Err(Halt::Broken);
        };
        match read_some(stream, room) {
            Ok(count) => Ok(count),
            Err(halt) => {
                self.fate = fate_by(halt, self.fate);
                Err(halt)
            }
        }
    }

    /// Waits until octets can be read or written, or where `hears` until the control connection is to be served. Where none stands, the next
    /// read or write says so.
    pub fn wait<P: Ports<Stream = S>>(&mut self, ports: &mut P, what: For, hears: bool) -> Ready
        // Witness of left, written, asked: equations.
        ensures left { Keeps (left_of S.remaining self.old) (left_of S.remaining self.new) }
        ensures written { Keeps (carried_of S.contents self.old) (carried_of S.contents self.new) }
        ensures at { self.new.at ≡ self.old.at }
        ensures end { self.new.end ≡ self.old.end }
        ensures rest { self.new.rest ≡ self.old.rest }
        ensures stands { is_some self.new.stream ≡ is_some self.old.stream }
        ensures fate { self.new.fate ≡ self.old.fate }
        ensures asked { Adds (P.history ports.old) (P.history ports.new) (told_lost (is_lost result hears)) }
    {
        match &mut self.stream {
            Some(stream) => ports.wait(stream, what, hears),
            None => Ready::Data,
        }
    }

    /// Whether octets can be read or written now, or what is awaited of the control connection is there. Where none stands, the next read or write
    /// says so.
    pub fn looks<P: Ports<Stream = S>>(&mut self, ports: &mut P, what: For, beside: Beside) -> bool
        // Witness: equations; `edits/one_that_does_not_stand_is_waited_for.edit` (later).
        ensures left { left_of S.remaining self.new ≡ left_of S.remaining self.old }
        ensures written { carried_of S.contents self.new ≡ carried_of S.contents self.old }
        ensures at { self.new.at ≡ self.old.at }
        ensures end { self.new.end ≡ self.old.end }
        ensures rest { self.new.rest ≡ self.old.rest }
        ensures stands { is_some self.new.stream ≡ is_some self.old.stream }
        ensures fate { self.new.fate ≡ self.old.fate }
        ensures asked { P.history ports.new ≡ P.history ports.old }
        ensures later { result ≡ false → P.waits ports.new }
    {
        match &mut self.stream {
            Some(stream) => ports.looks_at(stream, what, beside),
            None => true,
        }
    }

    /// Puts another stream in the place of the one that stands, and gives that; where none stands, it gives the other one back. So one who has a stream
    /// in memory brings it what came.
    pub fn exchange(&mut self, stream: S) -> Result<S, S>
        // Witness: equations: `exchange` of `ftp_driver`.
        ensures ok { IfOk result (λ before. (self.old.stream ≡ Some before) × (self.new.stream ≡ Some stream)) }
        ensures err { IfErr result (λ kept. (kept ≡ stream) × (self.old.stream ≡ None) × (self.new.stream ≡ None)) }
        ensures at { self.new.at ≡ self.old.at }
        ensures end { self.new.end ≡ self.old.end }
        ensures rest { self.new.rest ≡ self.old.rest }
        ensures fate { self.new.fate ≡ self.old.fate }
    {
        match &mut self.stream {
            Some(place) => Ok(std::mem::replace(place, stream)),
            None => Err(stream),
        }
    }

    /// Closes it, if it is open, and the port that is listened at: by an end where all that was to go is written, and else by a reset.
    pub fn close<P: Ports<Stream = S>>(&mut self, ports: &mut P)
        // Witness: equations; with which stream `Ports` is called is said by its type, too: `edits/unwritten_octets_are_followed_by_an_end.edit`,
        // `a_download_that_is_cut_is_followed_by_an_end`, `a_whole_download_is_reset`, `a_failed_data_connection_is_followed_by_an_end`.
        ensures whole { IsWhole self.new.at self.new.end self.new.rest self.new.fate }
        ensures none { self.new.stream ≡ None }
        ensures sound { self.new.fate ≡ Fate.Sound }
        ensures asked { Leaves S.remaining S.contents self.old.stream self.old.at self.old.end self.old.rest self.old.fate (P.history ports.old) (P.history ports.new) }
    {
        let (at, end, rest, fate) = (self.at, self.end, self.rest, self.fate);
        self.at = self.end;
        self.rest = Rest::Nothing;
        self.fate = Fate::Sound;
        match self.stream.take() {
            Some(stream) => close_by(ports, stream, at, end, rest, fate),
            None => ports.close(None),
        }
    }

    /// Resets it, if it is open, and closes the port that is listened at: octets that are not written yet are dropped.
    pub fn reset<P: Ports<Stream = S>>(&mut self, ports: &mut P)
        // Witness: as of `close`.
        ensures whole { IsWhole self.new.at self.new.end self.new.rest self.new.fate }
        ensures none { self.new.stream ≡ None }
        ensures sound { self.new.fate ≡ Fate.Sound }
        ensures asked { Drops S.remaining S.contents self.old.stream (P.history ports.old) (P.history ports.new) }
    {
        self.at = self.end;
        self.rest = Rest::Nothing;
        self.fate = Fate::Sound;
        match self.stream.take() {
            Some(stream) => ports.reset(stream),
            None => ports.close(None),
        }
    }

    /// Closes it for good.
    pub fn finish<P: Ports<Stream = S>>(self, ports: &mut P)
        // Witness: an equation.
        ensures { Leaves S.remaining S.contents self.stream self.at self.end self.rest self.fate (P.history ports.old) (P.history ports.new) }
    {
        let DataConnection {
            stream,
            at,
            end,
            rest,
            went: _,
            fate,
        } = self;
        match stream {
            Some(stream) => close_by(ports, stream, at, end, rest, fate),
            None => ports.close(None),
        }
    }
}

/// Closes a data connection of whose octets those up to `end` were taken and those up to `at` are written.
fn close_by<P: Ports>(
    ports: &mut P,
    stream: P::Stream,
    at: usize,
    end: usize,
    rest: Rest,
    fate: Fate,
)
    requires { at ≤ end }
    ensures { Leaves P.Stream.remaining P.Stream.contents (Some stream) at end rest fate (P.history ports.old) (P.history ports.new) }
{
    match whole_of(stream, at, end, rest, fate) {
        Ok(whole) => ports.close(Some(whole)),
        Err(cut) => ports.reset(cut),
    }
}

/// One read: how many octets it gave.
fn read_some<S: Duplex>(stream: &mut S, room: &mut [u8]) -> Result<usize, Halt>
    ensures within { IfOk result (λ count. count ≤ length room.new) }
    ensures ok { IfOk result (λ count. Consumes (S.remaining stream.old) (S.remaining stream.new) (take count room.new)) }
    ensures end { IfOk result (λ count. count ≡ 0 → 0 < length room.new → IsAtEnd (S.remaining stream.new)) }
    ensures err { OnErr result (Keeps (S.remaining stream.old) (S.remaining stream.new)) }
    ensures apart { Keeps (S.contents stream.old) (S.contents stream.new) }
{
    match stream.receive(room) {
        Ok(count) => Ok(count),
        Err(error) => Err(halt_of(&error)),
    }
}

/// One write: how many octets it took, none only of none.
fn write_some<S: Duplex>(stream: &mut S, octets: &[u8]) -> Result<usize, Halt>
    ensures within { IfOk result (λ count. count ≤ length octets.now) }
    ensures ok { IfOk result (λ count. Appends (S.contents stream.old) (S.contents stream.new) (take count octets.now)) }
    ensures err { OnErr result (Keeps (S.contents stream.old) (S.contents stream.new)) }
    ensures apart { Keeps (S.remaining stream.old) (S.remaining stream.new) }
{
    if octets.is_empty() {
        return Ok(0);
    }
    match stream.send(octets) {
        Ok(0) => Err(Halt::Broken),
        Ok(count) => Ok(count),
        Err(error) => Err(halt_of(&error)),
    }
}

/// What became of a data connection where a read or a write moved none.
fn fate_by(halt: Halt, before: Fate) -> Fate
    ensures { result ≡ fate_halted halt before }
{
    match halt {
        Halt::Broken => Fate::Failed,
        Halt::Again | Halt::Spoken => before,
    }
}

/// What an error of a data connection tells.
fn halt_of(error: &Error) -> Halt
    ensures waits { error_kind error.now ≡ ErrorKind.WouldBlock → result ≡ Halt.Spoken }
    ensures again { error_kind error.now ≡ ErrorKind.Interrupted → result ≡ Halt.Again }
    ensures broken { error_kind error.now ≢ ErrorKind.WouldBlock → error_kind error.now ≢ ErrorKind.Interrupted → result ≡ Halt.Broken }
{
    match error.kind() {
        ErrorKind::WouldBlock => Halt::Spoken,
        ErrorKind::Interrupted => Halt::Again,
        _ => Halt::Broken,
    }
}
