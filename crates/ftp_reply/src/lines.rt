//! The texts of a reply's lines, in one buffer.
ghost use Rattle.std.specs.Prelude.{◌≡◌, ◌+◌, ◌<◌, ◌≤◌, ◌++◌, ◌∷◌, [], List, length, OnOk, OnErr, IfOk, IsSome, ◌↔◌, option_copied, slice_get, take, drop};
ghost use Rattle.ftp_reply.specs.Lines.{octets_of, joined, AreWithin, are_within};

use arrayvec::ArrayVec;
use std::alloc::{AllocError, Allocator};
use std::marker::Model;
use std::mem;

/// How many lines a reply has at most.
pub const MAX_LINES: usize = 64;

/// How many octets the texts of a reply's lines have together at most.
pub const MAX_OCTETS: usize = 8192;

/// Stands between two lines of a buffer.
pub const LF: u8 = 10;

/// The texts of up to 64 lines, of up to 8,192 octets together. Contracts see them as a list of texts.
#[derive(Drop)]
pub struct Lines<A: Allocator + Copy> {
    /// The lines, an LF between two.
    buffer: Vec<u8, A>,
    /// The length of each.
    lens: ArrayVec<u16, MAX_LINES>,
}

impl<A: Allocator + Copy> Model for Lines<A> {
    ghost use Rattle.std.specs.Prelude.{ℕ, List};
    ghost use Rattle.ftp_reply.specs.Lines.{lines_at, AreCutAtFeeds, AreWithin};

    ghost Value = { List (List ℕ) };

    ghost view = { λ lines. lines_at lines.buffer.items lines.lens.items };

    ghost invariant = { λ lines. AreCutAtFeeds lines.buffer.items lines.lens.items
        × AreWithin (lines_at lines.buffer.items lines.lens.items) };
}

impl<A: Allocator + Copy> Lines<A> {
    /// No line. Takes no memory.
    pub fn new(alloc: A) -> Lines<A>
        ensures { result ≡ [] }
    {
        Lines {
            buffer: Vec::new(alloc),
            lens: ArrayVec::new(),
        }
    }

    /// The number of lines.
    pub fn len(&self) -> usize
        ensures count { result ≡ length self.now }
        // Witness of within: caller: `Lines::has_room`, lone.
        ensures within { result ≤ MAX_LINES }
    {
        self.lens.len()
    }

    /// The lines' octets together, without the LF between two.
    pub fn octets(&self) -> usize
        ensures count { result ≡ octets_of self.now }
        // Witness of within: caller: `Lines::has_room`, lone.
        ensures within { result ≤ MAX_OCTETS }
    {
        if self.lens.is_empty() {
            return 0;
        }
        self.buffer.len() + 1 - self.lens.len()
    }

    /// The lines joined by LF.
    pub fn joined(&self) -> &[u8]
        ensures { result.now ≡ joined self.now }
    {
        self.buffer.as_slice()
    }

    /// Puts a line behind the others. Without memory all is as before.
    pub fn push(&mut self, line: &[u8]) -> Result<(), AllocError>
        requires { AreWithin (self.old ++ line.now ∷ []) }
        ensures ok { OnOk result (self.new ≡ self.old ++ line.now ∷ []) }
        ensures err { OnErr result (self.new ≡ self.old) }
    {
        self.buffer.reserve(line.len() + 1)?;
        if !self.lens.is_empty() {
            self.buffer.push_reserved(LF);
        }
        self.buffer.extend_from_slice(line).unwrap();
        self.lens.push(line.len() as u16);
        Ok(())
    }

    /// Whether the limits allow one more line with this text.
    pub fn has_room(&self, line: &[u8]) -> bool
        ensures { result ≡ are_within (self.now ++ line.now ∷ []) }
    {
        self.len() < MAX_LINES && line.len() <= MAX_OCTETS - self.octets()
    }

    /// Hands the lines out with one more behind them, and is without lines then. Without memory all is as before.
    pub fn finish(&mut self, line: &[u8]) -> Result<Lines<A>, AllocError>
    where
        A: Copy,
        requires { AreWithin (self.old ++ line.now ∷ []) }
        ensures ok { IfOk result (λ lines. lines ≡ self.old ++ line.now ∷ []) }
        ensures none { OnOk result (self.new ≡ []) }
        ensures err { OnErr result (self.new ≡ self.old) }
    {
        let none = Lines::new(*self.buffer.allocator());
        self.push(line)?;
        Ok(mem::replace(self, none))
    }

    /// The text of a line, counted from 0.
    pub fn get(&self, index: usize) -> Option<&[u8]>
        // Witness: equation, equivalence.
        ensures text { option_copied result ≡ slice_get self.now index }
        ensures some { IsSome result ↔ (index < length self.now) }
    {
        if index >= self.lens.len() {
            return None;
        }
        let mut rest = self.buffer.as_slice();
        for i in 0..index {
            rest = cut(rest, self.lens.as_slice()[i]).1;
        }
        Some(cut(rest, self.lens.as_slice()[index]).0)
    }
}

/// The next line of this length, and what stands behind the LF after it.
fn cut(buffer: &[u8], len: u16) -> (&[u8], &[u8])
    ensures line { result.0.now ≡ take len buffer.now }
    ensures rest { result.1.now ≡ drop (len + 1) buffer.now }
{
    let (line, rest) = buffer.split_at(buffer.len().min(usize::from(len)));
    let (_, rest) = rest.split_at(rest.len().min(1));
    (line, rest)
}
