ghost use Rattle.std.specs.Prelude.{◌≡◌, ◌≢◌, ◌+◌, ◌<◌, ◌≤◌, ◌⊎◌, ◌++◌, ℕ, List, [], ◌∷◌, ◌-◌, ◌^◌, ◌↔◌, min, length, take, drop, IfOk, IfErr, OnOk, OnErr, IsOk, IsTrue, IsFalse, true, IfSome, IfNone, slice_index};
ghost use Rattle.ftp_mode.specs.Block.{ends_of};
ghost use Rattle.ftp_mode.specs.Count.{count_on};
ghost use Rattle.ftp_mode.specs.Reading.{Reading, start, at_wire_end, broken_state, going, failed, after_block, is_complete};
ghost use Rattle.ftp_mode.specs.Deframing.{reading, owed, last_marker, taken_with_fault, part_said, gave_said, Hears, Fails, Bites, Reads, Refuses, IsControl};

use crate::Mode;
use crate::descriptor::{END_OF_FILE, END_OF_RECORD, RESTART_MARKER, SUSPECTED_ERRORS};
use crate::escape::{BOTH_CODE, ESCAPE, FILE_CODE, RECORD_CODE};
use crate::fault::FrameFault;
use crate::step::{Part, Step};
use arrayvec::ArrayVec;
use ftp_repr::{Structure, first_ff};
use ftp_settings::{MARKER_LIMIT, is_marker_octet};

/// Where in a text the next octet stands.
#[derive(Clone, Copy)]
enum State {
    /// In the data of stream mode and file structure.
    Plain,
    /// In the data of stream mode with records.
    Outside,
    /// Behind an escape octet.
    Escaped,
    /// At a descriptor.
    Head,
    /// At the higher octet of a count, behind this descriptor.
    High(u8),
    /// At the lower octet of a count, behind this descriptor and the higher octet.
    Low(u8, u8),
    /// In the data of a block with this descriptor, so many octets before the last.
    Inside(u8, u16),
    /// The same in a marker.
    Marking(u8, u8),
    /// Behind the end of file.
    Ended,
    Failed(FrameFault),
}

/// Ends that were read and not yet given.
#[derive(Clone, Copy)]
enum Owed {
    Nothing,
    Record,
    Both,
    File,
}

/// What a few octets gave before any ends.
#[derive(Clone, Copy)]
enum Gave {
    Nothing,
    /// Themselves.
    Octets,
    /// The marker that the last of them ends.
    Marker,
}

/// A few octets in front of a piece, and what they gave.
#[derive(Clone, Copy)]
struct Bite {
    taken: usize,
    gave: Gave,
}

/// Reads the octets of a data connection, in any pieces (RFC 959, sections 3.4.1 and 3.4.2). It takes no memory.
#[derive(Drop)]
pub struct Deframer {
    state: State,
    owed: Owed,
    place: u64,
    with_fault: usize,
    pub(crate) marker: ArrayVec<u8, MARKER_LIMIT>,
}

impl Deframer {
    /// A reader of one file in this mode and structure.
    pub fn new(mode: Mode, structure: Structure) -> Deframer
        // Witness: equations; `edits/stream_of_a_file_has_escapes`.
        ensures state { reading result ≡ start mode structure }
        ensures owes { owed result ≡ [] }
    {
        let state = match mode {
            Mode::Block => State::Head,
            Mode::Stream => match structure {
                Structure::File => State::Plain,
                Structure::Record => State::Outside,
            },
        };
        Deframer {
            state,
            owed: Owed::Nothing,
            place: 0,
            with_fault: 0,
            marker: ArrayVec::new(),
        }
    }

    /// Reads wire octets until they give a part or the piece is used up.
    ///
    /// `piece` has the next octets of the data connection, any number of them; `taken` counts those used. A part may
    /// come with none taken: an end that stood behind another. Data is lent from `piece`; octets behind the end of
    /// file are taken and say nothing. Faults name their place, in wire octets from 0, and come with the octets taken
    /// up to the wrong one, which `taken_with_fault` counts. After one, each call answers it again and takes nothing.
    pub fn feed<'a>(&mut self, piece: &'a [u8]) -> Result<Step<'a>, FrameFault>
        // Witness of ok: `edits/deframer_that_takes_nothing`; `tool_codec::frame`, `done`; `edits/end_of_both_ends_the_file_alone`,
        // `end_of_file_in_a_header_is_passed_over`, `suspected_errors_are_read`.
        ensures ok { IfOk result (λ step. Hears self.old piece.now step self.new) }
        // Witness of err: `edits/what_is_behind_a_fault_is_taken`, `a_fault_met_before_takes_octets`.
        // Witness of err: `edits/fault_place_counts_from_the_piece`; `tool_codec::frame`, `done`; `edits/marker_octets_not_checked`.
        ensures err { IfErr result (λ fault. Fails self.old piece.now (taken_with_fault self.new) fault self.new) }
    {
        if let Some(part) = self.owed_part() {
            return Ok(Step { taken: 0, part });
        }
        if let State::Failed(fault) = self.state {
            self.with_fault = 0;
            return Err(fault);
        }
        let mut at = 0;
        while at < piece.len() {
            let (_, rest) = piece.split_at(at);
            let bite = match self.bite(rest) {
                Ok(bite) => bite,
                Err(fault) => {
                    self.with_fault = at + 1;
                    return Err(fault);
                }
            };
            let (octets, _) = rest.split_at(bite.taken);
            at += bite.taken;
            if let Some(part) = part_of(bite.gave, octets) {
                return Ok(Step { taken: at, part });
            }
            if let Some(part) = self.owed_part() {
                return Ok(Step { taken: at, part });
            }
        }
        Ok(Step {
            taken: at,
            part: Part::Need,
        })
    }

    /// The marker that `feed` gave last, until the next call of it.
    pub fn marker(&self) -> &[u8]
        // Witness: equations; `edits/marker_is_lent_empty`.
        ensures { result.now ≡ last_marker self.now }
    {
        self.marker.as_slice()
    }

    /// How many octets of its piece `feed` took with the fault that it gave last: the last of them is the wrong one.
    ///
    /// None where the fault was met before.
    pub fn taken_with_fault(&self) -> usize
        // Witness: equations; `edits/marker_is_lent_empty`.
        ensures { result ≡ taken_with_fault self.now }
    {
        self.with_fault
    }

    /// The connection has ended: a fault where the end of file is missing (RFC 959, section 3.4).
    ///
    /// In stream mode and file structure the end of the connection is the end of file. After a fault each call
    /// answers it again.
    pub fn end(&mut self) -> Result<(), FrameFault>
        // Witness of state, ok, err: an equation, and two that `state` decides; `edits/record_link_that_ends_is_the_end_of_file`.
        ensures state { reading self.new ≡ at_wire_end (reading self.old) }
        ensures ok { OnOk result (is_complete (reading self.new)) }
        ensures err { IfErr result (λ fault. reading self.new ≡ failed fault) }
        ensures owes { owed self.new ≡ owed self.old }
    {
        match self.state {
            State::Plain | State::Ended => Ok(()),
            State::Failed(fault) => Err(fault),
            _ => {
                self.state = State::Failed(FrameFault::EndedEarly);
                Err(FrameFault::EndedEarly)
            }
        }
    }

    /// Whether a file that ends here is whole: the end of file came, or the end of the connection is it.
    pub fn is_complete(&self) -> bool
        ensures { is_complete (reading self.now) ↔ (result ≡ true) }
    {
        match self.state {
            State::Plain | State::Ended => true,
            _ => false,
        }
    }

    /// The connection broke: no octet follows. What was read stays to be given.
    pub fn broken(&mut self)
        // Witness: equations; `edits/broken_reader_goes_on`.
        ensures state { reading self.new ≡ broken_state (reading self.old) }
        ensures owes { owed self.new ≡ owed self.old }
    {
        match self.state {
            State::Ended | State::Failed(_) => {}
            _ => self.state = State::Failed(FrameFault::EndedEarly),
        }
    }

    /// Takes the first end that was read and not yet given, as the next `feed` would.
    pub fn owed_part<'a>(&mut self) -> Option<Part<'a>>
        // Witness: `feed`, whose clauses rest on them.
        ensures some { IfSome result (λ part. (text : List ℕ) → part_said part text ++ owed self.new ≡ owed self.old) }
        ensures one { IfSome result (λ part. (text : List ℕ) → length (part_said part text) ≡ 1) }
        ensures none { IfNone result (owed self.old ≡ []) }
        ensures state { reading self.new ≡ reading self.old }
        ensures marker { last_marker self.new ≡ last_marker self.old }
        ensures owes { IfNone result (self.new ≡ self.old) }
    {
        match self.owed {
            Owed::Nothing => None,
            Owed::Record => {
                self.owed = Owed::Nothing;
                Some(Part::EndRecord)
            }
            Owed::Both => {
                self.owed = Owed::File;
                Some(Part::EndRecord)
            }
            Owed::File => {
                self.owed = Owed::Nothing;
                Some(Part::EndFile)
            }
        }
    }

    /// Takes the octets in front of a piece that give data, or one other.
    fn bite(&mut self, piece: &[u8]) -> Result<Bite, FrameFault>
        requires some { 0 < length piece.now }
        requires owes { owed self.old ≡ [] }
        ensures ok { IfOk result (λ bite. Bites self.old piece.now bite self.new) }
        ensures err { IfErr result (λ fault. Refuses self.old (slice_index piece.now 0) fault self.new) }
    {
        match self.state {
            State::Plain => Ok(self.all(piece, Gave::Octets)),
            State::Ended => Ok(self.all(piece, Gave::Nothing)),
            State::Outside => Ok(self.outside(piece)),
            State::Inside(descriptor, before_last) => Ok(self.inside(
                piece,
                descriptor,
                before_last,
            )),
            State::Escaped
            | State::Head
            | State::High(_)
            | State::Low(_, _)
            | State::Marking(_, _)
            | State::Failed(_) => {
                match self.octet(piece[0]) {
                    Ok(gave) => Ok(Bite { taken: 1, gave }),
                    Err(fault) => Err(fault),
                }
            }
        }
    }

    fn moved(&mut self, count: usize)
        ensures place { self.new.place ≡ count_on self.old.place count }
        ensures state { self.new.state ≡ self.old.state }
        ensures owes { self.new.owed ≡ self.old.owed }
        ensures marker { last_marker self.new ≡ last_marker self.old }
    {
        self.place = self.place.saturating_add(count as u64);
    }

    /// Takes a piece whole, as data or behind the end of file.
    fn all(&mut self, piece: &[u8], gave: Gave) -> Bite
        requires some { 0 < length piece.now }
        requires owes { owed self.old ≡ [] }
        requires place { ((self.old.state ≡ State.Plain) × (gave ≡ Gave.Octets)) ⊎ ((self.old.state ≡ State.Ended) × (gave ≡ Gave.Nothing)) }
        ensures { Bites self.old piece.now result self.new }
    {
        self.moved(piece.len());
        Bite {
            taken: piece.len(),
            gave,
        }
    }

    /// Takes the data before an escape octet, or that octet.
    fn outside(&mut self, piece: &[u8]) -> Bite
        requires some { 0 < length piece.now }
        requires owes { owed self.old ≡ [] }
        requires place { self.old.state ≡ State.Outside }
        ensures { Bites self.old piece.now result self.new }
    {
        let run = first_ff(piece);
        if run > 0 {
            self.moved(run);
            return Bite {
                taken: run,
                gave: Gave::Octets,
            };
        }
        self.moved(1);
        self.state = State::Escaped;
        Bite {
            taken: 1,
            gave: Gave::Nothing,
        }
    }

    /// Takes the data of a block.
    fn inside(&mut self, piece: &[u8], descriptor: u8, before_last: u16) -> Bite
        requires some { 0 < length piece.now }
        requires owes { owed self.old ≡ [] }
        requires place { self.old.state ≡ State.Inside descriptor before_last }
        ensures { Bites self.old piece.now result self.new }
    {
        let left = usize::from(before_last) + 1;
        if piece.len() < left {
            self.moved(piece.len());
            self.state = State::Inside(descriptor, (left - piece.len() - 1) as u16);
            return Bite {
                taken: piece.len(),
                gave: Gave::Octets,
            };
        }
        self.moved(left);
        self.close(descriptor);
        Bite {
            taken: left,
            gave: Gave::Octets,
        }
    }

    /// Ends a block: its ends are owed.
    fn close(&mut self, descriptor: u8)
        ensures state { reading self.new ≡ going self.old.place (after_block descriptor) }
        ensures owes { owed self.new ≡ ends_of descriptor }
        ensures place { self.new.place ≡ self.old.place }
        ensures marker { last_marker self.new ≡ last_marker self.old }
    {
        let record = descriptor & END_OF_RECORD != 0;
        if descriptor & END_OF_FILE != 0 {
            self.state = State::Ended;
            self.owed = if record { Owed::Both } else { Owed::File };
        } else {
            self.state = State::Head;
            self.owed = if record { Owed::Record } else { Owed::Nothing };
        }
    }

    /// Takes an octet that is no data of a file as it stands there.
    fn octet(&mut self, octet: u8) -> Result<Gave, FrameFault>
        requires owes { owed self.old ≡ [] }
        requires place { IsControl self.old.state }
        ensures ok { IfOk result (λ gave. Reads self.old octet gave self.new) }
        ensures err { IfErr result (λ fault. Refuses self.old octet fault self.new) }
    {
        match self.state {
            State::Escaped => self.code(octet),
            State::Head => self.descriptor(octet),
            State::High(descriptor) => {
                self.moved(1);
                self.state = State::Low(descriptor, octet);
                Ok(Gave::Nothing)
            }
            State::Low(descriptor, high) => self.count(descriptor, high, octet),
            State::Marking(descriptor, before_last) => self.marker_octet(
                descriptor,
                before_last,
                octet,
            ),
            State::Failed(fault) => Err(fault),
            State::Plain | State::Outside | State::Inside(_, _) | State::Ended => Ok(Gave::Nothing),
        }
    }

    /// Fails at the present octet, or so many before it.
    fn fail(&mut self, fault: FrameFault) -> FrameFault
        ensures fault { result ≡ fault }
        ensures state { reading self.new ≡ failed fault }
        ensures owes { owed self.new ≡ owed self.old }
    {
        self.state = State::Failed(fault);
        fault
    }

    /// The octet behind an escape octet.
    fn code(&mut self, octet: u8) -> Result<Gave, FrameFault>
        requires owes { owed self.old ≡ [] }
        requires place { self.old.state ≡ State.Escaped }
        ensures ok { IfOk result (λ gave. Reads self.old octet gave self.new) }
        ensures err { IfErr result (λ fault. Refuses self.old octet fault self.new) }
    {
        let place = self.place;
        self.moved(1);
        self.state = State::Outside;
        match octet {
            ESCAPE => return Ok(Gave::Octets),
            RECORD_CODE => self.owed = Owed::Record,
            FILE_CODE => {
                self.state = State::Ended;
                self.owed = Owed::File;
            }
            BOTH_CODE => {
                self.state = State::Ended;
                self.owed = Owed::Both;
            }
            _ => return Err(self.fail(FrameFault::BadEscape(place))),
        }
        Ok(Gave::Nothing)
    }

    fn descriptor(&mut self, octet: u8) -> Result<Gave, FrameFault>
        requires owes { owed self.old ≡ [] }
        requires place { self.old.state ≡ State.Head }
        ensures ok { IfOk result (λ gave. Reads self.old octet gave self.new) }
        ensures err { IfErr result (λ fault. Refuses self.old octet fault self.new) }
    {
        let place = self.place;
        if octet & SUSPECTED_ERRORS != 0 {
            return Err(self.fail(FrameFault::Suspect(place)));
        }
        self.moved(1);
        self.state = State::High(octet);
        Ok(Gave::Nothing)
    }

    /// The last octet of a header.
    fn count(&mut self, descriptor: u8, high: u8, low: u8) -> Result<Gave, FrameFault>
        requires owes { owed self.old ≡ [] }
        requires place { self.old.state ≡ State.Low descriptor high }
        ensures ok { IfOk result (λ gave. Reads self.old low gave self.new) }
        ensures err { IfErr result (λ fault. Refuses self.old low fault self.new) }
    {
        let place = self.place;
        let count = u16::from(high) * 256 + u16::from(low);
        self.moved(1);
        if descriptor & RESTART_MARKER != 0 {
            if count == 0 || usize::from(count) > MARKER_LIMIT {
                return Err(self.fail(FrameFault::BadMarker(place.saturating_sub(2))));
            }
            self.marker.clear();
            self.state = State::Marking(descriptor, (count - 1) as u8);
        } else if count == 0 {
            self.close(descriptor);
        } else {
            self.state = State::Inside(descriptor, count - 1);
        }
        Ok(Gave::Nothing)
    }

    fn marker_octet(
        &mut self,
        descriptor: u8,
        before_last: u8,
        octet: u8,
    ) -> Result<Gave, FrameFault>
        requires owes { owed self.old ≡ [] }
        requires place { self.old.state ≡ State.Marking descriptor before_last }
        ensures ok { IfOk result (λ gave. Reads self.old octet gave self.new) }
        ensures err { IfErr result (λ fault. Refuses self.old octet fault self.new) }
    {
        let place = self.place;
        if !is_marker_octet(octet) || self.marker.len() >= MARKER_LIMIT {
            return Err(self.fail(FrameFault::BadMarker(place)));
        }
        self.moved(1);
        self.marker.push(octet);
        if before_last == 0 {
            self.close(descriptor);
            return Ok(Gave::Marker);
        }
        self.state = State::Marking(descriptor, before_last - 1);
        Ok(Gave::Nothing)
    }
}

/// The part that a few octets gave, or none.
fn part_of<'a>(gave: Gave, octets: &'a [u8]) -> Option<Part<'a>>
    ensures some { IfSome result (λ part. (text : List ℕ) → part_said part text ≡ gave_said gave octets.now text) }
    ensures full { 0 < length octets.now → IfSome result (λ part. (text : List ℕ) → 0 < length (part_said part text)) }
    ensures none { IfNone result (gave ≡ Gave.Nothing) }
{
    match gave {
        Gave::Nothing => None,
        Gave::Octets => Some(Part::Data(octets)),
        Gave::Marker => Some(Part::Marker),
    }
}
