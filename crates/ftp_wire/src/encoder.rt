// The encoder: a sender and a framer behind it.
ghost use Rattle.std.specs.Prelude.{◌≡◌, ◌≢◌, ◌+◌, ◌*◌, ◌<◌, ◌≤◌, ◌⊎◌, ◌^◌, ◌↔◌, ◌++◌, ℕ, List, [], length, take, drop, map, Some, None, true, false, IsTrue, if◌then◌else◌};
ghost use Rattle.ftp_repr.specs.Signs.{octet as sign};
ghost use Rattle.ftp_repr.specs.Sending.{has_sent_end, sender_form, still_to_send};
ghost use Rattle.ftp_settings.specs.Representation.{form_of, has_markers};
ghost use Rattle.ftp_mode.specs.Block.{marked_text};
ghost use Rattle.ftp_mode.specs.Framing.{owed_octets, writing};
ghost use Rattle.ftp_mode.specs.Writing.{manner};
ghost use Rattle.ftp_mode.specs.declared.framer.Manner.TheVariants.{Closed, Copies};
ghost use Rattle.ftp_settings.specs.declared.representation.Structure.TheVariants.{File};
ghost use Rattle.ftp_mode.specs.Wire.{wire};

use ftp_mode::{Framer, Manner};
use ftp_repr::{Item, Sender};
use ftp_settings::Representation;

/// How many octets of the file were taken, and how many octets of the room were made.
#[derive(Clone, Copy, PartialEq, Eq)]
pub struct Encoded {
    pub taken: usize,
    pub made: usize,
}

/// Writes a file as the octets of a data connection, in any representation (RFC 959, sections 3.1 and 3.4).
///
/// It takes no memory: it holds one block.
#[derive(Drop)]
pub struct Encoder {
    sender: Sender,
    pub(crate) framer: Framer,
    /// The second octet of CR LF or CR NUL, where the first is out and the second had no room.
    pub(crate) half: Option<u8>,
    ghost over: { has_sent_end sender ≡ true → (half ≡ None) × (manner (writing framer) ≡ Closed) },
    ghost going: { has_sent_end sender ≡ false → manner (writing framer) ≢ Closed },
    ghost copies: { manner (writing framer) ≡ Copies → (sender_form sender).structure ≡ File },
}

impl Encoder {
    ghost use Rattle.ftp_wire.specs.Encoding.{half_signs, still_to_give, is_done, left_to_do, HasMore};

    /// The wire of a file in a representation, without own restart markers.
    pub fn new(settings: Representation) -> Encoder
        // Witness: equations; `edits/an_encoder_begins_in_another_mode`.
        ensures text { (file : List ℕ) → still_to_give result file ≡ wire settings.mode (form_of settings) file }
        ensures going { is_done result ≡ false }
    {
        Encoder {
            sender: Sender::new(settings.kind, settings.structure),
            framer: Framer::new(settings.mode, settings.structure),
            half: None,
        }
    }

    /// The same with own restart markers, wherever the representation has them. They count the octets of the file from
    /// `start`, which is the place of the first one that is given (own choice; RFC 959, section 3.5).
    pub fn marked(settings: Representation, start: u64) -> Encoder
        // Witness: equations; `edits/own_markers_are_left_out`.
        ensures text { (file : List ℕ) → start + length file < 2 ^ 64 → still_to_give result file
            ≡ (if has_markers settings then marked_text start file else wire settings.mode (form_of settings) file) }
        ensures going { is_done result ≡ false }
    {
        let mut framer = Framer::new(settings.mode, settings.structure);
        if settings.has_markers() {
            framer.mark(start);
        }
        Encoder {
            sender: Sender::new(settings.kind, settings.structure),
            framer,
            half: None,
        }
    }

    /// Whether the end of the file is out: nothing is given any more, whatever is put.
    pub fn is_done(&self) -> bool
        // Witness: an equation; what follows from it.
        ensures value { result ≡ is_done self.now }
        ensures none { IsTrue result → (file : List ℕ) → still_to_give self.now file ≡ [] }
    {
        self.sender.is_over() && self.framer.owed_len() == 0
    }

    /// Whether nothing is still to be given. `at_end` says that no octet of the file is still to come.
    ///
    /// A file that ends with nothing behind its octets, as in stream mode with file structure, may be out before its end was put.
    pub fn is_out(&self, at_end: bool) -> bool
        // Witness: an equation; `edits/an_end_in_blocks_is_nothing`.
        ensures { (file : List ℕ) → (IsTrue at_end ↔ (file ≡ [])) → IsTrue result ↔ (still_to_give self.now file ≡ []) }
    {
        if self.framer.owed_len() > 0 {
            return false;
        }
        match self.framer.manner() {
            Manner::Closed => true,
            Manner::Copies => at_end && self.half.is_none(),
            Manner::Escapes | Manner::Blocks => false,
        }
    }

    /// Writes as much of the file as there is room for.
    ///
    /// `piece` has the next octets of the file, any number of them, and `last` says that none follow it. `taken` counts
    /// those that are not to be put again, `made` the octets of the room that were written.
    pub fn put(&mut self, piece: &[u8], last: bool, room: &mut [u8]) -> Encoded
        // Witness of within, text: over a whole file they leave one text; `edits/a_second_octet_is_given_as_the_next_one`,
        // `edits/octets_without_room_are_passed_over`.
        ensures within { (result.taken ≤ length piece.now) × (result.made ≤ length room.old) }

        // What was still to be given is what is given now and then what is still to be given, whatever follows.
        ensures text { (more : List ℕ) → (IsTrue last → more ≡ []) → still_to_give self.old (piece.now ++ more)
            ≡ take result.made room.new ++ still_to_give self.new (drop result.taken piece.now ++ more) }

        // The room is full, or the piece is used up and, behind the last one, all is out.
        // Witness of all, some: `edits/an_encoder_that_takes_nothing`.
        ensures all { (result.made ≡ length room.old) ⊎ ((result.taken ≡ length piece.now) × (IsTrue last → is_done self.new ≡ true)) }
        ensures some { IsTrue last → 0 < length room.old → 0 < length (still_to_give self.old piece.now) → 0 < result.made }
    {
        let mut taken = 0;
        let mut made = 0;
        while made < room.len() && self.has_more(piece.len() - taken, last) {
            let (_, rest) = piece.split_at(taken);
            let (_, free) = room.split_at_mut(made);
            let step = self.step(rest, last, free);
            taken += step.taken;
            made += step.made;
        }
        Encoded { taken, made }
    }

    /// Whether something is to be done, with so many octets of the file at hand.
    fn has_more(&self, octets: usize, last: bool) -> bool
        ensures { IsTrue result ↔ HasMore self.now octets last }
    {
        if self.sender.is_over() {
            return octets > 0 || self.framer.owed_len() > 0;
        }
        self.half.is_some() || octets > 0 || last
    }

    /// Writes the next item, or what had no room of the one before.
    fn step(&mut self, piece: &[u8], last: bool, room: &mut [u8]) -> Encoded
        ensures within { (result.taken ≤ length piece.now) × (result.made ≤ length room.old) }
        ensures text { (more : List ℕ) → (IsTrue last → more ≡ []) → still_to_give self.old (piece.now ++ more)
            ≡ take result.made room.new ++ still_to_give self.new (drop result.taken piece.now ++ more) }
        ensures some { 0 < length room.old → HasMore self.old (length piece.now) last →
            left_to_do self.new < left_to_do self.old + (2 * result.taken + result.made) }
    {
        if self.sender.is_over() {
            return Encoded {
                taken: piece.len(),
                made: self.put_end(self.sender, room),
            };
        }
        if let Some(octet) = self.half {
            return self.put_half(octet, room);
        }
        let mut sender = self.sender;
        match sender.next(piece, last) {
            (count, None) => {
                self.sender = sender;
                Encoded {
                    taken: count,
                    made: 0,
                }
            }
            (count, Some(Item::Octets(octets))) => {
                if octets.len() != count {
                    return self.put_pair(octets, room);
                }
                let written = self.framer.put(Item::Octets(octets), room);
                Encoded {
                    taken: written.taken,
                    made: written.made,
                }
            }
            (_, Some(Item::EndRecord)) => {
                let written = self.framer.put(Item::EndRecord, room);
                Encoded {
                    taken: written.taken,
                    made: written.made,
                }
            }
            (_, Some(Item::EndFile)) => Encoded {
                taken: 0,
                made: self.put_end(sender, room),
            },
        }
    }

    /// Writes the end of the file, behind which the sender is this one, or what of it had no room.
    fn put_end(&mut self, over: Sender, room: &mut [u8]) -> usize
        requires over { (has_sent_end over ≡ true) × (sender_form over ≡ sender_form self.old.sender) }
        requires none { self.old.half ≡ None }
        ensures within { result ≤ length room.old }
        ensures text { (file : List ℕ) → still_to_send self.old.sender file ≡ still_to_send self.old.sender [] →
            still_to_give self.old file ≡ take result room.new ++ still_to_give self.new file }
        ensures some { 0 < length room.old → (has_sent_end self.old.sender ≡ true → 0 < length (owed_octets self.old.framer)) →
            left_to_do self.new < left_to_do self.old + result }
        ensures less { left_to_do self.new ≤ left_to_do self.old }
    {
        let written = self.framer.put(Item::EndFile, room);
        if self.framer.manner() == Manner::Closed {
            self.sender = over;
        }
        written.made
    }

    /// Writes a second octet.
    fn put_half(&mut self, octet: u8, room: &mut [u8]) -> Encoded
        requires { self.old.half ≡ Some octet }
        ensures within { (result.taken ≡ 0) × (result.made ≤ length room.old) }
        ensures text { (file : List ℕ) →
            still_to_give self.old file ≡ take result.made room.new ++ still_to_give self.new file }
        ensures some { 0 < length room.old → left_to_do self.new < left_to_do self.old + result.made }
    {
        let written = self.framer.put(Item::Octets(&[octet]), room);
        if written.taken == 1 {
            self.half = None;
        }
        Encoded {
            taken: 0,
            made: written.made,
        }
    }

    /// Writes CR LF or CR NUL, which stands for one octet of the file. That one is taken with the first of the two.
    fn put_pair(&mut self, pair: &[u8], room: &mut [u8]) -> Encoded
        requires going { (self.old.half ≡ None) × (has_sent_end self.old.sender ≡ false) }
        requires two { length pair.now ≡ 2 }
        ensures within { (result.taken ≤ 1) × (result.made ≤ length room.old) }
        ensures text { (piece more : List ℕ) → still_to_send self.old.sender (piece ++ more) ≡ map sign pair.now ++ still_to_send self.old.sender (drop 1 piece ++ more)
            → still_to_give self.old (piece ++ more) ≡ take result.made room.new ++ still_to_give self.new (drop result.taken piece ++ more) }
        ensures some { 0 < length room.old → left_to_do self.new < left_to_do self.old + (2 * result.taken + result.made) }
    {
        let written = self.framer.put(Item::Octets(pair), room);
        let made = written.made;
        if written.taken == 0 {
            return Encoded { taken: 0, made };
        }
        if written.taken == 1 {
            self.half = Some(pair[1]);
        }
        Encoded { taken: 1, made }
    }
}
