ghost use Rattle.std.specs.Prelude.{◌≡◌, ◌<◌, ◌≤◌, ◌++◌, ℕ, List, [], length, drop, None, true, false, IsTrue, IfSome};
ghost use Rattle.ftp_repr.specs.Items.{given_signs};
ghost use Rattle.ftp_repr.specs.Sending.{sender_form, has_sent_end, still_to_send, StandsFor, is_end};
ghost use Rattle.ftp_repr.specs.declared.item.Item.TheVariants.{EndFile};

use crate::item::Item;
use crate::run::plain_run;
use ftp_settings::{Kind, Structure};

const LINE_END: [u8; 2] = [13, 10];

const RETURN: [u8; 2] = [13, 0];

/// Cuts a file into items, lent from the pieces that it comes in. It takes no memory.
#[derive(Clone, Copy, PartialEq, Eq)]
pub struct Sender {
    kind: Kind,
    structure: Structure,
    ended: bool,
}

impl Sender {
    /// A sender of a file of this type and structure, at its first octet.
    pub fn new(kind: Kind, structure: Structure) -> Sender
        // Witness: equations; `edits/sender_begins_at_its_end`.
        ensures form { sender_form result ≡ record { kind = kind; structure = structure } }
        ensures fresh { has_sent_end result ≡ false }
    {
        Sender {
            kind,
            structure,
            ended: false,
        }
    }

    /// Whether the end of file was given: nothing follows it.
    pub fn is_over(&self) -> bool
        ensures { result ≡ has_sent_end self.now }
    {
        self.ended
    }

    /// The next item of the file, and how many octets of the piece it stands for.
    ///
    /// `piece` has the next octets of the file, any number of them, and `last` says that none follow it. Octets are
    /// lent from the piece, or are CR LF and CR NUL for one octet of it (RFC 959, section 3.1.1.1); in records an LF
    /// is an end of record (section 3.1.2.2). Once the last piece is empty the item is the end of file; octets that
    /// are given behind it are taken, and nothing comes of them.
    pub fn next<'a>(&mut self, piece: &'a [u8], last: bool) -> (usize, Option<Item<'a>>)
        // What was still to be given is what is given now and then what is still to be given, whatever follows.
        // Witness of gives: `edits/sender_leaves_a_return_alone`; `tool_codec::frame`, `done`.
        ensures gives { (more : List ℕ) → (IsTrue last → more ≡ []) →
            still_to_send self.old (piece.now ++ more)
            ≡ given_signs result.1 ++ still_to_send self.new (drop result.0 piece.now ++ more) }
        // Witness of within, form, some: `tool_codec::frame`, `done` (it cuts the piece there, goes on in the same form, and ends);
        // `edits/sender_takes_nothing`.
        ensures within { result.0 ≤ length piece.now }
        ensures form { sender_form self.new ≡ sender_form self.old }

        // Given octets it takes one at least, given the end it takes that; an item is never empty.
        ensures some { 0 < length piece.now → 0 < result.0 }
        // Witness of ends, full: `rows_lines::nothing_follows_the_end`; `edits/sender_gives_its_end_again`.
        ensures ends { IsTrue last → piece.now ≡ [] → has_sent_end self.new ≡ true }
        ensures full { given_signs result.1 ≡ [] → result.1 ≡ None }

        // What an item stands for, and that only the end of file changes the sender, once.
        // Witness of part, same, end, over: `ftp_wire::put`, `text`: it puts the rest of an item again by them.
        ensures part { IfSome result.1 (λ item. StandsFor (sender_form self.old) piece.now result.0 item) }
        ensures same { is_end result.1 ≡ false → self.new ≡ self.old }
        ensures end { is_end result.1 ≡ true → has_sent_end self.new ≡ true }
        ensures over { has_sent_end self.old ≡ true → result.1 ≡ None }
    {
        if self.ended {
            return (piece.len(), None);
        }
        if piece.is_empty() {
            if last {
                self.ended = true;
                return (0, Some(Item::EndFile));
            }
            return (0, None);
        }
        let run = plain_run(self.kind, self.structure, piece);
        if run > 0 {
            let (front, _) = piece.split_at(run);
            return (run, Some(Item::Octets(front)));
        }
        if piece[0] == 13 {
            return (1, Some(Item::Octets(&RETURN)));
        }
        match self.structure {
            Structure::File => (1, Some(Item::Octets(&LINE_END))),
            Structure::Record => (1, Some(Item::EndRecord)),
        }
    }
}
