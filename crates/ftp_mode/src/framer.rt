ghost use Rattle.std.specs.Prelude.{◌≡◌, ◌≢◌, ◌+◌, ◌/◌, ◌%◌, ◌<◌, ◌≤◌, ◌⊎◌, ◌↔◌, ◌++◌, ℕ, List, [], ◌∷◌, length, take, drop, map, slice_index, ◌-◌, IsTrue, IsFalse, true, false, Some, None};
ghost use Rattle.ftp_repr.specs.Signs.{Sign, octet as sign, end_record, end_file};
ghost use Rattle.ftp_repr.specs.Items.{signs, given_signs};
ghost use Rattle.ftp_mode.specs.Block.{block_text, marker_text};
ghost use Rattle.ftp_mode.specs.Writing.{blank_writing, with_marks, is_due, due_text, marked, counted_on, counted_far, IsCount, IsFar, writer, write_step, closed, manner};
ghost use Rattle.ftp_mode.specs.Framing.{writing, counting, owed_block, owed_octets, still_to_write, is_open, IsClear, Takes, Waits, AreRun, FillsBlock, TakesRun};

use crate::block_output::copy_to;
use crate::descriptor::{END_OF_BOTH, END_OF_FILE, END_OF_RECORD, GOES_ON, RESTART_MARKER};
use crate::escape::{BOTH_CODE, ESCAPE, FILE_CODE, RECORD_CODE};
use arrayvec::ArrayVec;
use ftp_repr::{Item, first_ff};
use ftp_settings::{Mode, Structure};
use itoa::Buffer;

/// How much of an item was taken, and how many octets of the room were made.
#[derive(Clone, Copy, PartialEq, Eq)]
pub struct Moved {
    pub taken: usize,
    pub made: usize,
}

impl Moved {
    /// What is left of the item, or nothing: it is to be put again.
    pub fn rest<'a>(self, item: Item<'a>) -> Option<Item<'a>>
        requires { self.taken ≤ length (signs item) }
        // Witness: `rest` leaves one row of signs; `tool_codec::frame`, `done`, needs both.
        ensures rest { given_signs result ≡ drop self.taken (signs item.entry) }

        // Of the end of file all is left, or it was taken.
        ensures end { item.entry ≡ Item.EndFile → (result ≡ Some Item.EndFile) ⊎ ((result ≡ None) × (self.taken ≡ 1)) }
    {
        match item {
            Item::Octets(octets) => {
                let (_, rest) = octets.split_at(self.taken);
                if rest.is_empty() {
                    return None;
                }
                Some(Item::Octets(rest))
            }
            Item::EndRecord | Item::EndFile => {
                if self.taken == 0 {
                    return Some(item);
                }
                None
            }
        }
    }
}

/// Where in its text a framer stands.
#[derive(Clone, Copy, PartialEq, Eq)]
pub(crate) enum Stage {
    /// Stream mode, file structure: octets go as they are.
    Copying,
    /// Stream mode with records: between two items.
    Free,
    /// The same, behind an end of record that is not yet written.
    Held,
    /// Block mode: data may follow in the block.
    Filling,
    /// A record ends with the block, and perhaps the file.
    AtRecord,
    /// The block is written with this descriptor, so many of its octets are out, and then the next is filled.
    Leaving(u8, usize),
    /// The same, and it is the last.
    Last(u8, usize),
    /// The end of file was taken.
    Closed,
}

/// Own restart markers.
#[derive(Clone, Copy)]
pub(crate) enum Marks {
    /// Not in this mode and structure.
    Never,
    /// None are asked for.
    Unmarked,
    /// The place of the last marker, or the start, and that of the next octet, in octets of the file.
    Counted(u64, u64),
}

/// How a framer writes octets.
#[derive(Clone, Copy, PartialEq, Eq)]
pub enum Manner {
    /// As they are, and nothing for an end: stream mode with file structure.
    Copies,
    /// With escape octets: stream mode with records.
    Escapes,
    /// In blocks.
    Blocks,
    /// Not at all: the end of file was taken.
    Closed,
}

/// File octets between two own markers.
const MARKED: u64 = 65_536;

/// The most octets of a written block.
pub(crate) const BLOCK_LIMIT: usize = 8192;

/// Octets before those of a block: a descriptor and a count.
pub(crate) const HEADER: usize = 3;

/// Writes items as the octets of a data connection, into rooms of any size (RFC 959, sections 3.4.1 and 3.4.2).
///
/// It takes no memory: it holds one block.
#[derive(Drop)]
pub struct Framer {
    pub(crate) stage: Stage,
    pub(crate) marks: Marks,
    pub(crate) owed: ArrayVec<u8, 23>,
    pub(crate) block: ArrayVec<u8, BLOCK_LIMIT>,
}

impl Framer {
    /// A writer of one file in this mode and structure.
    pub fn new(mode: Mode, structure: Structure) -> Framer
        // Witness: equations; `edits/stream_of_a_file_is_written_with_escapes`.
        ensures state { writing result ≡ blank_writing mode structure }
        ensures owes { owed_octets result ≡ [] }
    {
        let stage = match mode {
            Mode::Block => Stage::Filling,
            Mode::Stream => match structure {
                Structure::File => Stage::Copying,
                Structure::Record => Stage::Free,
            },
        };
        let marks = match structure {
            Structure::File => Marks::Unmarked,
            Structure::Record => Marks::Never,
        };
        Framer {
            stage,
            marks,
            owed: ArrayVec::new(),
            block: ArrayVec::new(),
        }
    }

    /// Writes an item, or the front of it, into the room. The item's rest is to be put again.
    ///
    /// `taken` counts octets of the item; of an end it is 1 once the end needs no further call. `made` counts the
    /// octets of the room that were written. Behind the end of file items are taken and nothing is written.
    pub fn put(&mut self, item: Item<'_>, room: &mut [u8]) -> Moved
        // Witness of within, text: `edits/a_count_goes_low_octet_first`; `tool_codec::frame`, `done`: over a whole file they leave one text;
        // `edits/escape_octet_not_doubled`, `a_run_goes_past_an_escape_octet`, `block_below_its_size`, `last_block_forgets_its_record`,
        // `end_of_record_and_file_go_as_two_escapes`, `marker_at_the_start_of_the_file`, `a_run_passes_a_marker`,
        // `a_slice_of_a_block_is_given_again`.
        ensures within { (result.taken ≤ length (signs item.entry)) × (result.made ≤ length room.old) }
        ensures text { (more : List Sign) → still_to_write self.old (signs item.entry ++ more)
            ≡ take result.made room.new ++ still_to_write self.new (drop result.taken (signs item.entry) ++ more) }
        // Witness of some: `edits/framer_that_takes_nothing`.
        ensures some { 0 < length room.old → 0 < length (signs item.entry) → 0 < result.taken + result.made }

        // The end of file is taken once all is out.
        // Witness of out: `tool_codec::frame`, `done`: after the end nothing is left; `edits/end_is_taken_before_it_is_out`.
        ensures out { item.entry ≡ Item.EndFile → result.taken ≡ 1 → owed_octets self.new ≡ [] }

        // Nothing but the end of file closes it.
        // Witness of goes_on, closes, closed: `ftp_wire::is_out`: what is still to be given is none just where it says so.
        ensures goes_on { (item.entry ≡ Item.EndFile) ⊎ (manner (writing self.new) ≡ manner (writing self.old)) }
        ensures closes { (manner (writing self.new) ≡ Manner.Closed) ⊎ (manner (writing self.new) ≡ manner (writing self.old)) }
        ensures closed { item.entry ≡ Item.EndFile → result.taken ≡ 1 → manner (writing self.new) ≡ Manner.Closed }
    {
        let first = self.pour(room, 0);
        if !self.is_clear() {
            return Moved {
                taken: 0,
                made: first,
            };
        }
        match item {
            Item::Octets(piece) => self.put_octets(piece, room, first),
            Item::EndRecord => {
                let taken = usize::from(self.end_record());
                let made = self.pour(room, first);
                Moved { taken, made }
            }
            Item::EndFile => {
                self.end_file();
                let made = self.pour(room, first);
                Moved {
                    taken: usize::from(self.is_clear()),
                    made,
                }
            }
        }
    }

    /// Asks for own restart markers, which count the octets of the file from `start` at the next one.
    ///
    /// A marker stands at each multiple of 65,536 above the start and before the end of the file. It is for type I
    /// and the start of a file; without effect but in block mode and file structure.
    pub fn mark(&mut self, start: u64)
        // Witness: equations; `edits/marks_count_from_nothing`.
        ensures state { writing self.new ≡ with_marks start (writing self.old) }
        ensures owes { owed_octets self.new ≡ owed_octets self.old }
    {
        self.marks = match self.marks {
            Marks::Never => Marks::Never,
            Marks::Unmarked | Marks::Counted(_, _) => Marks::Counted(start, start),
        };
    }

    /// How octets are written from now on.
    pub fn manner(&self) -> Manner
        ensures { result ≡ manner (writing self.now) }
    {
        match self.stage {
            Stage::Copying => Manner::Copies,
            Stage::Free | Stage::Held => Manner::Escapes,
            Stage::Filling | Stage::AtRecord | Stage::Leaving(_, _) => Manner::Blocks,
            Stage::Last(_, _) | Stage::Closed => Manner::Closed,
        }
    }

    /// How many octets are decided and not yet out.
    pub fn owed_len(&self) -> usize
        ensures { result ≡ length (owed_octets self.now) }
    {
        match self.stage {
            Stage::Leaving(_, place) => self.len_from(place) + self.owed.len(),
            Stage::Last(_, place) => self.len_from(place) + self.owed.len(),
            _ => self.owed.len(),
        }
    }

    /// How many octets of the written block stand from a place on.
    fn len_from(&self, place: usize) -> usize
        ensures len { (d : ℕ) → result ≡ length (drop place (block_text d self.now.block.items)) }
        ensures few { result ≤ BLOCK_LIMIT + HEADER }
    {
        (self.block.len() + HEADER).saturating_sub(place)
    }

    pub(crate) fn is_open(&self) -> bool
        ensures { result ≡ is_open self.now.stage }
    {
        !matches!(self.stage, Stage::Leaving(_, _) | Stage::Last(_, _))
    }

    /// Whether all that was decided is out.
    pub(crate) fn is_clear(&self) -> bool
        ensures { IsTrue result ↔ IsClear self.now }
    {
        self.is_open() && self.owed.is_empty()
    }

    /// Takes an octet, or decides what goes before it.
    fn octet(&mut self, octet: u8) -> bool
        requires { IsClear self.old }
        ensures yes { IsTrue result → Takes self.old (sign octet) self.new }
        ensures no { IsFalse result → Waits self.old (sign octet) self.new }
    {
        match self.stage {
            Stage::Copying => {
                self.owed.push(octet);
                true
            }
            Stage::Free | Stage::Held => {
                self.escaped(octet);
                true
            }
            Stage::Filling => self.fill(octet),
            Stage::AtRecord => {
                self.stage = Stage::Leaving(END_OF_RECORD, 0);
                false
            }
            Stage::Leaving(_, _) | Stage::Last(_, _) | Stage::Closed => true,
        }
    }

    /// An octet between records.
    fn escaped(&mut self, octet: u8)
        requires clear { IsClear self.old }
        requires stage { (self.old.stage ≡ Stage.Free) ⊎ (self.old.stage ≡ Stage.Held) }
        ensures { Takes self.old (sign octet) self.new }
    {
        if self.stage == Stage::Held {
            self.owed.push(ESCAPE);
            self.owed.push(RECORD_CODE);
        }
        self.stage = Stage::Free;
        if octet == ESCAPE {
            self.owed.push(ESCAPE);
        }
        self.owed.push(octet);
    }

    /// An octet in a block.
    fn fill(&mut self, octet: u8) -> bool
        requires clear { IsClear self.old }
        requires stage { self.old.stage ≡ Stage.Filling }
        ensures yes { IsTrue result → Takes self.old (sign octet) self.new }
        ensures no { IsFalse result → Waits self.old (sign octet) self.new }
    {
        if self.is_due() {
            self.due();
            return false;
        }
        if self.block.len() == BLOCK_LIMIT {
            self.stage = Stage::Leaving(GOES_ON, 0);
            return false;
        }
        self.block.push(octet);
        self.count(1);
        true
    }

    /// Counts octets of the file, where own markers are asked for.
    fn count(&mut self, octets: usize)
        ensures marks { counting self.new.marks ≡ counted_far (counting self.old.marks) octets }
        ensures fits { IsCount (counting self.old.marks) }
        ensures stage { self.new.stage ≡ self.old.stage }
        ensures block { self.new.block.items ≡ self.old.block.items }
        ensures owes { self.new.owed.items ≡ self.old.owed.items }
    {
        match self.marks {
            Marks::Never | Marks::Unmarked => {}
            Marks::Counted(since, count) => {
                self.marks = Marks::Counted(since, count.saturating_add(octets as u64));
            }
        }
    }

    /// How many octets in front go into the block with nothing written before them.
    fn fill_len(&self, piece: &[u8]) -> usize
        ensures within { result ≤ length piece.now }
        ensures fills { 0 < result → FillsBlock self.now result }
    {
        match self.stage {
            Stage::Filling => piece
                .len()
                .min(BLOCK_LIMIT - self.block.len())
                .min(self.to_marker()),
            _ => 0,
        }
    }

    /// As many octets as come before the next marker, or fewer.
    fn to_marker(&self) -> usize
        ensures { IsFar (counting self.now.marks) result }
    {
        if self.is_due() {
            return 0;
        }
        match self.marks {
            Marks::Never | Marks::Unmarked => usize::MAX,
            Marks::Counted(_, count) => (MARKED - count % MARKED) as usize,
        }
    }

    /// Takes octets for which there is place in the block.
    fn fill_run(&mut self, piece: &[u8])
        requires clear { IsClear self.old }
        requires fills { FillsBlock self.old (length piece.now) }
        ensures { TakesRun self.old piece.now self.new }
    {
        let _ = self.block.try_extend_from_slice(piece);
        self.count(piece.len());
    }

    /// Whether a marker stands before the next octet.
    fn is_due(&self) -> bool
        ensures { result ≡ is_due (counting self.now.marks) }
    {
        match self.marks {
            Marks::Never | Marks::Unmarked => false,
            Marks::Counted(since, count) => since < count && count % MARKED == 0,
        }
    }

    /// Decides the block, and the marker behind it.
    fn due(&mut self)
        requires clear { IsClear self.old }
        requires due { is_due (counting self.old.marks) ≡ true }
        ensures stage { self.new.stage ≡ Stage.Leaving 0 0 }
        ensures block { self.new.block.items ≡ self.old.block.items }
        ensures owes { self.new.owed.items ≡ due_text (counting self.old.marks) }
        ensures marks { counting self.new.marks ≡ marked (counting self.old.marks) }
    {
        self.stage = Stage::Leaving(GOES_ON, 0);
        if let Marks::Counted(_, count) = self.marks {
            self.marks = Marks::Counted(count, count);
            self.put_marker(count);
        }
    }

    /// The block of a marker.
    fn put_marker(&mut self, count: u64)
        requires { self.old.owed.items ≡ [] }
        ensures owes { self.new.owed.items ≡ marker_text count }
        ensures stage { self.new.stage ≡ self.old.stage }
        ensures block { self.new.block.items ≡ self.old.block.items }
        ensures marks { self.new.marks ≡ self.old.marks }
    {
        let mut buffer = Buffer::new();
        let text = buffer.format(count).as_bytes();
        self.owed.push(RESTART_MARKER);
        self.owed.push(0);
        self.owed.push(text.len() as u8);
        let _ = self.owed.try_extend_from_slice(text);
    }

    /// Takes an end of record, or decides what goes before it.
    fn end_record(&mut self) -> bool
        requires { IsClear self.old }
        ensures yes { IsTrue result → Takes self.old end_record self.new }
        ensures no { IsFalse result → Waits self.old end_record self.new }
    {
        match self.stage {
            Stage::Free => self.stage = Stage::Held,
            Stage::Held => {
                self.owed.push(ESCAPE);
                self.owed.push(RECORD_CODE);
            }
            Stage::Filling => self.stage = Stage::AtRecord,
            Stage::AtRecord => {
                self.stage = Stage::Leaving(END_OF_RECORD, 0);
                return false;
            }
            Stage::Copying | Stage::Leaving(_, _) | Stage::Last(_, _) | Stage::Closed => {}
        }
        true
    }

    /// Takes the end of file. Given once more it changes nothing.
    fn end_file(&mut self)
        requires { IsClear self.old }
        ensures text { Takes self.old end_file self.new }
        ensures closed { writing self.new ≡ closed }
    {
        match self.stage {
            Stage::Copying => self.stage = Stage::Closed,
            Stage::Free => self.close(FILE_CODE),
            Stage::Held => self.close(BOTH_CODE),
            Stage::Filling => self.stage = Stage::Last(END_OF_FILE, 0),
            Stage::AtRecord => self.stage = Stage::Last(END_OF_BOTH, 0),
            Stage::Leaving(_, _) | Stage::Last(_, _) | Stage::Closed => {}
        }
    }

    fn close(&mut self, code: u8)
        requires { self.old.owed.items ≡ [] }
        ensures stage { self.new.stage ≡ Stage.Closed }
        ensures owes { self.new.owed.items ≡ ESCAPE ∷ code ∷ [] }
    {
        self.stage = Stage::Closed;
        self.owed.push(ESCAPE);
        self.owed.push(code);
    }

    /// Takes octets; behind an octet or an end that goes by itself a run too.
    fn put_octets(&mut self, piece: &[u8], room: &mut [u8], at: usize) -> Moved
        requires clear { IsClear self.old }
        requires within { at ≤ length room.old }
        ensures within { (result.taken ≤ length piece.now) × (at ≤ result.made) × (result.made ≤ length room.old) }
        ensures text { (more : List Sign) → take at room.old ++ still_to_write self.old (map sign piece.now ++ more)
            ≡ take result.made room.new ++ still_to_write self.new (drop result.taken (map sign piece.now) ++ more) }
        ensures manner { manner (writing self.new) ≡ manner (writing self.old) }
        ensures some { at < length room.old → 0 < length piece.now → at < result.taken + result.made }
    {
        let first = self.put_some(piece, room, at);
        if first.taken > 1 || !self.is_clear() {
            return first;
        }
        let (_, rest) = piece.split_at(first.taken);
        let more = self.put_some(rest, room, first.made);
        Moved {
            taken: first.taken + more.taken,
            made: more.made,
        }
    }

    /// Takes octets that go into the block or, as they are, into the room; where none stands in front, the first octet or
    /// what goes before it.
    fn put_some(&mut self, piece: &[u8], room: &mut [u8], at: usize) -> Moved
        requires clear { IsClear self.old }
        requires within { at ≤ length room.old }
        ensures within { (result.taken ≤ length piece.now) × (at ≤ result.made) × (result.made ≤ length room.old) }
        ensures text { (more : List Sign) → take at room.old ++ still_to_write self.old (map sign piece.now ++ more)
            ≡ take result.made room.new ++ still_to_write self.new (drop result.taken (map sign piece.now) ++ more) }
        ensures manner { manner (writing self.new) ≡ manner (writing self.old) }
        ensures some { at < length room.old → 0 < length piece.now → at < result.taken + result.made }
    {
        let fills = self.fill_len(piece);
        if fills > 0 {
            let (front, _) = piece.split_at(fills);
            self.fill_run(front);
            return Moved {
                taken: fills,
                made: at,
            };
        }
        let run = self.copy_run(piece, room, at);
        if run > 0 {
            return Moved {
                taken: run,
                made: at + run,
            };
        }
        self.put_first(piece, room, at)
    }

    /// Copies the octets in front that go as they are, as far as there is room, and says how many.
    fn copy_run(&self, piece: &[u8], room: &mut [u8], at: usize) -> usize
        requires clear { IsClear self.now }
        requires within { at ≤ length room.old }
        ensures within { (result ≤ length piece.now) × (at + result ≤ length room.old) }
        ensures text { (more : List Sign) → take at room.old ++ still_to_write self.now (map sign piece.now ++ more)
            ≡ take (at + result) room.new ++ still_to_write self.now (drop result (map sign piece.now) ++ more) }
    {
        let (front, _) = piece.split_at(piece.len().min(room.len() - at));
        let run = self.run_len(front);
        let (octets, _) = front.split_at(run);
        copy_to(room, at, octets);
        run
    }

    /// How many octets in front go as they are.
    fn run_len(&self, piece: &[u8]) -> usize
        ensures within { result ≤ length piece.now }
        ensures run { AreRun (writing self.now) (take result piece.now) }
    {
        match self.stage {
            Stage::Copying => piece.len(),
            Stage::Free => first_ff(piece),
            Stage::Held
            | Stage::Filling
            | Stage::AtRecord
            | Stage::Leaving(_, _)
            | Stage::Last(_, _)
            | Stage::Closed => 0,
        }
    }

    /// Takes the first octet, or decides what goes before it.
    fn put_first(&mut self, piece: &[u8], room: &mut [u8], at: usize) -> Moved
        requires clear { IsClear self.old }
        requires within { at ≤ length room.old }
        ensures within { (result.taken ≤ length piece.now) × (at ≤ result.made) × (result.made ≤ length room.old) }
        ensures text { (more : List Sign) → take at room.old ++ still_to_write self.old (map sign piece.now ++ more)
            ≡ take result.made room.new ++ still_to_write self.new (drop result.taken (map sign piece.now) ++ more) }
        ensures manner { manner (writing self.new) ≡ manner (writing self.old) }
        ensures some { at < length room.old → 0 < length piece.now → at < result.taken + result.made }
    {
        if piece.is_empty() {
            return Moved { taken: 0, made: at };
        }
        if self.octet(piece[0]) {
            let made = self.pour(room, at);
            return Moved { taken: 1, made };
        }
        let made = self.pour(room, at);
        Moved { taken: 0, made }
    }
}
