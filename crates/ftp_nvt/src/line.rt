ghost use Rattle.std.specs.Prelude.{◌≡◌, ◌≢◌, ◌+◌, ◌-◌, ◌<◌, ◌≤◌, ◌⊎◌, ◌++◌, ◌∷◌, []};
ghost use Rattle.std.specs.Prelude.{length, take, slice_index, IfOk, vec_len, vec_capacity};

use crate::event::{Event, Heard};
use crate::run::{plain_run, skipped_run};
use crate::telnet::IAC;
use std::alloc::{AllocError, Allocator};

pub const NUL: u8 = 0;

pub const LF: u8 = 10;

pub const CR: u8 = 13;

/// Where in a line a buffer stands.
#[derive(Clone, Copy, PartialEq, Eq)]
pub enum Stage {
    /// At its start; the text is still that of the line before.
    Start,
    /// In a line that keeps the limit so far.
    Inside,
    /// The same, right behind a CR.
    AfterReturn,
    /// In a line that passed the limit.
    Past,
}

/// The unfinished line of an ear: reads octets that Telnet octets were taken out of.
#[derive(Drop)]
pub struct LineBuffer<A: Allocator + Copy> {
    limit: usize,
    count: usize,
    stage: Stage,
    text: Vec<u8, A>,
    ghost within: { count ≤ limit },
    ghost fits: { vec_len text ≤ count },
    ghost room: { vec_capacity text ≡ limit },
}

impl<A: Allocator + Copy> LineBuffer<A> {
    ghost use Rattle.ftp_nvt.specs.Event.{event_list};
    ghost use Rattle.ftp_nvt.specs.Fold.{line_at};
    ghost use Rattle.ftp_nvt.specs.LineBuffer.{ReadsBite, CanHaveRead, Reads, Steps};
    ghost use Rattle.ftp_nvt.specs.Lines.{IsNoneOf};

    /// A buffer that has read nothing, with room for `limit` octets.
    pub(crate) fn new(alloc: A, limit: usize) -> Result<LineBuffer<A>, AllocError>
        ensures read { IfOk result (λ buffer. CanHaveRead buffer []) }
        ensures limit { IfOk result (λ buffer. buffer.limit ≡ limit) }
    {
        let text = Vec::with_capacity(alloc, limit)?;
        Ok(LineBuffer {
            limit,
            count: 0,
            stage: Stage::Start,
            text,
        })
    }

    /// The text of the line that was read last.
    pub(crate) fn text(&self) -> &[u8]
        ensures { result.now ≡ self.now.text.items }
    {
        self.text.as_slice()
    }

    /// How many octets of text the line that is being read has so far.
    pub(crate) fn unfinished(&self) -> usize
        ensures { result ≡ length (line_at self.now.stage self.now.count self.now.text.items).text }
    {
        match self.stage {
            Stage::Start | Stage::Past => 0,
            Stage::Inside | Stage::AfterReturn => self.text.len(),
        }
    }

    /// Reads a run of octets in front of an IAC that adds no line, or one octet.
    pub(crate) fn bite(&mut self, piece: &[u8]) -> Heard
        requires some { 0 < length piece.now }
        requires bare { slice_index piece.now 0 ≢ IAC }
        ensures { ReadsBite self.old piece.now result self.new }
    {
        match self.stage {
            Stage::Start => {
                self.begin();
                self.run(piece)
            }
            Stage::Inside => self.run(piece),
            Stage::AfterReturn => self.first(piece),
            Stage::Past => self.skip(piece),
        }
    }

    /// Reads an octet 255 that was doubled.
    pub(crate) fn doubled(&mut self) -> Event
        ensures { Reads self.old (IAC ∷ []) (event_list result self.new.text.items) self.new }
    {
        match self.stage {
            Stage::Start => {
                self.begin();
                self.octet(IAC)
            }
            Stage::Past => Event::More,
            _ => self.octet(IAC),
        }
    }

    // Makes room for a new line.
    fn begin(&mut self)
        requires { self.old.stage ≡ Stage.Start }
        ensures reads { Reads self.old [] [] self.new }
        ensures stage { self.new.stage ≡ Stage.Inside }
    {
        self.text.clear();
        self.count = 0;
        self.stage = Stage::Inside;
    }

    // Skips a line that is too long, up to its LF.
    fn skip(&mut self, piece: &[u8]) -> Heard
        requires some { 0 < length piece.now }
        requires bare { slice_index piece.now 0 ≢ IAC }
        requires stage { self.old.stage ≡ Stage.Past }
        ensures { ReadsBite self.old piece.now result self.new }
    {
        let taken = skipped_run(piece);
        if taken < piece.len() && piece[taken] == LF {
            self.stage = Stage::Start;
            return Heard {
                taken: taken + 1,
                event: Event::More,
            };
        }
        Heard {
            taken,
            event: Event::More,
        }
    }

    // Reads the octets in front of the next CR, LF or IAC as far as they keep the limit, or one octet.
    fn run(&mut self, piece: &[u8]) -> Heard
        requires some { 0 < length piece.now }
        requires bare { slice_index piece.now 0 ≢ IAC }
        requires stage { self.old.stage ≡ Stage.Inside }
        ensures { ReadsBite self.old piece.now result self.new }
    {
        let taken = plain_run(piece).min(self.limit - self.count);
        if taken == 0 {
            return self.first(piece);
        }
        let (plain, _) = piece.split_at(taken);
        self.put_run(plain);
        Heard {
            taken,
            event: Event::More,
        }
    }

    // Reads octets without CR and LF that keep the limit.
    fn put_run(&mut self, plain: &[u8])
        requires { self.old.count + length plain.now ≤ self.old.limit }
        ensures count { self.new.count ≡ self.old.count + length plain.now }
        ensures text { self.new.text.items ≡ self.old.text.items ++ plain.now }
        ensures stage { self.new.stage ≡ self.old.stage }
        ensures limit { self.new.limit ≡ self.old.limit }
    {
        for octet in plain {
            self.count += 1;
            self.text.push_reserved(*octet);
        }
    }

    // Reads the first octet of a piece.
    fn first(&mut self, piece: &[u8]) -> Heard
        requires some { 0 < length piece.now }
        requires bare { slice_index piece.now 0 ≢ IAC }
        requires stage { (self.old.stage ≡ Stage.Inside) ⊎ (self.old.stage ≡ Stage.AfterReturn) }
        ensures { ReadsBite self.old piece.now result self.new }
    {
        let event = self.octet(piece[0]);
        Heard { taken: 1, event }
    }

    // Reads one octet of a line that keeps the limit so far.
    fn octet(&mut self, octet: u8) -> Event
        requires { (self.old.stage ≡ Stage.Inside) ⊎ (self.old.stage ≡ Stage.AfterReturn) }
        ensures { Steps self.old octet result self.new }
    {
        if self.count == self.limit {
            self.stage = if octet == LF {
                Stage::Start
            } else {
                Stage::Past
            };
            return Event::TooLong;
        }
        match octet {
            LF => self.end(),
            NUL => self.nul(),
            CR => self.put(CR, Stage::AfterReturn),
            _ => self.put(octet, Stage::Inside),
        }
    }

    // Ends a line, whose text has no CR of a CR LF.
    fn end(&mut self) -> Event
        ensures event { result ≡ Event.Line }
        ensures stage { self.new.stage ≡ Stage.Start }
        ensures after_return { (self.old.stage ≡ Stage.AfterReturn)
            → self.new.text.items ≡ take (length self.old.text.items - 1) self.old.text.items }
        ensures inside { (self.old.stage ≡ Stage.Inside) → self.new.text.items ≡ self.old.text.items }
        ensures limit { self.new.limit ≡ self.old.limit }
    {
        if let Stage::AfterReturn = self.stage {
            self.text.truncate(self.text.len().saturating_sub(1));
        }
        self.stage = Stage::Start;
        Event::Line
    }

    // Reads a NUL, which belongs to the CR right before it.
    fn nul(&mut self) -> Event
        requires stage { (self.old.stage ≡ Stage.Inside) ⊎ (self.old.stage ≡ Stage.AfterReturn) }
        requires room { self.old.count < self.old.limit }
        ensures { Steps self.old 0 result self.new }
    {
        match self.stage {
            Stage::AfterReturn => {
                self.count += 1;
                self.stage = Stage::Inside;
                Event::More
            }
            _ => self.put(NUL, Stage::Inside),
        }
    }

    // Reads an octet into the text.
    fn put(&mut self, octet: u8, stage: Stage) -> Event
        requires { self.old.count < self.old.limit }
        ensures event { result ≡ Event.More }
        ensures count { self.new.count ≡ self.old.count + 1 }
        ensures text { self.new.text.items ≡ self.old.text.items ++ octet ∷ [] }
        ensures stage { self.new.stage ≡ stage }
        ensures limit { self.new.limit ≡ self.old.limit }
    {
        self.count += 1;
        self.text.push_reserved(octet);
        self.stage = stage;
        Event::More
    }
}
