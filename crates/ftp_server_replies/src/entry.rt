// The reply to MLST (RFC 3659, section 7), which is owed piece by piece and takes no memory.
ghost use Rattle.std.specs.Prelude.{◌≡◌, ◌+◌, ◌≤◌, ◌++◌, [], ◌∷◌, codes, flat_map, length};
ghost use Rattle.ftp_ends.specs.Reply.{reply_octets};
ghost use Rattle.ftp_facts.specs.Entry.{listed_lent};
ghost use Rattle.ftp_nvt.specs.Lines.{written_octet};
ghost use Rattle.ftp_server_model.specs.Entries.{listed_line};

use crate::fixed_replies::FIXED_LIMIT;
use crate::output::Output;
use ftp_facts::{Facts, LentEntry, LineSink, write_entry_line};
use ftp_server_model::{FREE_ROOM, OUTPUT_ROOM};
use std::alloc::{AllocError, Allocator};

/// The most octets of the line of an entry: of its facts, a space and a pathname.
const ENTRY_LIMIT: usize = 1200;

impl<A: Allocator + Copy> Output<A> {
    /// Owes the reply to MLST: the facts in force of an entry, and its pathname (RFC 3659, section 7.2).
    pub fn put_listed(&mut self, entry: LentEntry<'_>, facts: Facts)
        requires room { length self.old + FREE_ROOM ≤ OUTPUT_ROOM }
        requires few { length (listed_line facts (listed_lent entry)) ≤ ENTRY_LIMIT }
        // Witness: as of `put_here`.
        ensures { self.new ≡ self.old ++ reply_octets (record {
          code = 250;
          lines = codes "Listing" ∷ (32 ∷ listed_line facts (listed_lent entry.entry)) ∷ codes "End" ∷ [];
        }) }
    {
        self.put(b"250-Listing\r\n ");
        self.put_entry(entry, facts);
        self.put(b"\r\n250 End\r\n");
    }

    /// Owes the line of an entry; there is room for it.
    fn put_entry(&mut self, entry: LentEntry<'_>, facts: Facts)
        requires room { length self.old + FREE_ROOM ≤ OUTPUT_ROOM + FIXED_LIMIT }
        requires few { length (listed_line facts (listed_lent entry)) ≤ ENTRY_LIMIT }
        ensures octets { self.new ≡ self.old ++ flat_map written_octet (listed_line facts (listed_lent entry.entry)) }
        ensures room { length self.new + FIXED_LIMIT ≤ OUTPUT_ROOM }
    {
        let _ = write_entry_line(entry, facts, self);
    }
}

/// Octets of a line, as Telnet has them. It is full where its room is.
impl<A: Allocator + Copy> LineSink for Output<A> {
    ghost use Rattle.std.specs.Prelude.{◌-◌, refl};
    ghost use Rattle.std.proofs.lemmas.Grind.{flat_map-append};
    ghost use Rattle.ftp_server_model.specs.declared.room.TheConstants.{OUTPUT_ROOM};

    ghost held = { λ output. output };

    ghost form = { flat_map written_octet };

    ghost left = { λ output. OUTPUT_ROOM - length output };

    ghost joins = { flat_map-append written_octet };

    ghost empty = { refl };

    fn write_text(&mut self, text: &[u8]) -> Result<(), AllocError> {
        if text.len() > (OUTPUT_ROOM - self.len()) / 2 {
            return Err(AllocError);
        }
        self.put_text(text);
        Ok(())
    }
}
