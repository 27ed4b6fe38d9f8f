//! A reply: its code and the texts of its lines.
ghost use Rattle.std.specs.Prelude.{◌≡◌, ◌<◌, ◌≤◌, ◌++◌, ◌∷◌, [], length, IfOk, OnOk, OnErr};
ghost use Rattle.ftp_reply.specs.Lines.{joined, AreWithin};
ghost use Rattle.ftp_reply.specs.Reply.{IsCode};

use crate::lines::{Lines, MAX_OCTETS};
use std::alloc::{AllocError, Allocator};

/// A reply of one line or of several (RFC 959, section 4.2).
#[derive(Drop)]
pub struct Reply<A: Allocator + Copy> {
    /// From 100 to 599.
    pub code: u16,
    /// The text of each line; of the first and the last what follows the code and the octet after it.
    pub lines: Lines<A>,
    pub ghost in_range: { IsCode code },
    pub ghost some: { 0 < length lines },
    pub ghost within: { AreWithin lines },
}

impl<A: Allocator + Copy> Reply<A> {
    /// A reply of one line.
    pub fn new(alloc: A, code: u16, text: &[u8]) -> Result<Reply<A>, AllocError>
        requires code { IsCode code }
        requires within { length text.now ≤ MAX_OCTETS }
        ensures code { IfOk result (λ reply. reply.code ≡ code) }
        ensures lines { IfOk result (λ reply. reply.lines ≡ text.now ∷ []) }
    {
        let mut lines = Lines::new(alloc);
        lines.push(text)?;
        Ok(Reply { code, lines })
    }

    /// Puts a line behind the others. Without memory all is as before.
    pub fn push(&mut self, text: &[u8]) -> Result<(), AllocError>
        requires { AreWithin (self.old.lines ++ text.now ∷ []) }
        ensures ok { OnOk result (self.new.lines ≡ self.old.lines ++ text.now ∷ []) }
        ensures err { OnErr result (self.new.lines ≡ self.old.lines) }
        ensures code { self.new.code ≡ self.old.code }
    {
        self.lines.push(text)
    }

    /// The text: its lines joined by LF.
    pub fn text(&self) -> &[u8]
        ensures { result.now ≡ joined self.now.lines }
    {
        self.lines.joined()
    }
}
