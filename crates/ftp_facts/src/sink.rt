// What the line of an entry is written into.
ghost use Rattle.std.specs.Prelude.{◌≡◌, ◌++◌, ℕ, List, [], OnErr, OnOk, refl};
ghost use Rattle.ftp_facts.specs.Sink.{WritesPart, Writes};

use std::alloc::{AllocError, Allocator};

/// What the line of an entry is written into: octets in memory, or those that a control connection is owed.
pub trait LineSink {
    /// The octets that it has.
    ghost held: { Self → List ℕ };

    /// A text as it stands there: as it is, or as Telnet has it.
    ghost form: { List ℕ → List ℕ };

    /// The room that it has for certain, of which an octet takes two at most: none, where memory may be refused.
    ghost left: { Self → ℕ };

    /// Writes a text behind what it has. Refused, a part of it may stand there.
    fn write_text(&mut self, text: &[u8]) -> Result<(), AllocError>
        // Witness: caller: `write_entry_line`, `ok` and `err`.
        ensures ok { OnOk result (Writes held form left text.now self.old self.new) }
        ensures err { OnErr result (WritesPart held left text.now self.old self.new) };

    /// Texts one after another stand there as one.
    ghost joins: { (front back : List ℕ) → form (front ++ back) ≡ form front ++ form back };

    /// No text is no octets.
    ghost empty: { form [] ≡ [] };
}

impl<A: Allocator + Copy> LineSink for Vec<u8, A> {
    ghost held = { λ octets. octets.items };

    ghost form = { λ text. text };

    ghost left = { λ octets. 0 };

    ghost joins = { λ front back. refl };

    ghost empty = { refl };

    fn write_text(&mut self, text: &[u8]) -> Result<(), AllocError> {
        self.extend_from_slice(text)
    }
}
