ghost use Rattle.std.specs.Prelude.{◌≡◌, ◌≢◌, ◌+◌, ◌<◌, ◌≤◌, ◌⊎◌, ◌++◌, ℕ, List, [], ◌∷◌, false, length, take, drop, map, IfOk, OnOk, OnErr, vec_len, vec_capacity};
ghost use Rattle.ftp_repr.specs.Signs.{Sign, octet as sign, end_record, end_file};
ghost use Rattle.ftp_repr.specs.Items.{signs};
ghost use Rattle.ftp_repr.specs.Receiving.{fresh, over};
ghost use Rattle.ftp_repr.specs.Received.{ReceivesSigns, Lends, SignsLackRoom, lent_octets, receiver_form, taking_at_stage};
ghost use Rattle.ftp_settings.specs.declared.representation.Kind.TheVariants.{Ascii};

use crate::fault::ReprFault;
use crate::item::{Item, Lent};
use crate::run::before_return;
use ftp_settings::{Kind, Structure};
use std::alloc::{AllocError, Allocator};

const FEED: [u8; 1] = [10];

/// Where in a file a receiver stands.
#[derive(Clone, Copy, PartialEq, Eq)]
enum Stage {
    /// All that came is settled.
    Settled,
    /// Behind a CR that the next sign settles.
    Held,
    /// The end came, or the wire broke.
    Over,
}

/// Puts a file together from items. The file grows at the end of a vector of the caller's.
#[derive(Clone, Copy, PartialEq, Eq)]
pub struct Receiver {
    kind: Kind,
    structure: Structure,
    stage: Stage,
}

impl Receiver {
    /// A receiver of a file of this type and structure, before its first item.
    pub fn new(kind: Kind, structure: Structure) -> Receiver
        // Witness: equations; `edits/receiver_begins_with_a_return`.
        ensures form { receiver_form result ≡ record { kind = kind; structure = structure } }
        ensures fresh { taking_at_stage result ≡ fresh }
    {
        Receiver {
            kind,
            structure,
            stage: Stage::Settled,
        }
    }

    /// Whether a CR is held, which what comes next settles.
    pub fn holds_return(&self) -> bool
        ensures { result ≡ (taking_at_stage self.now).held }
    {
        match self.stage {
            Stage::Held => true,
            Stage::Settled | Stage::Over => false,
        }
    }

    /// Puts at the end of the file what the item settles.
    ///
    /// In type A, CR LF is LF, CR NUL is CR, and any other CR or LF is itself (RFC 959, section 3.1.1.1). In records
    /// an end of record is an LF (section 3.1.2.2); else it is passed over. A CR that nothing came behind stays open
    /// until the next item. Nothing comes of items behind the end of file.
    /// Without memory all is as before.
    pub fn take<A: Allocator + Copy>(
        &mut self,
        item: Item<'_>,
        out: &mut Vec<u8, A>,
    ) -> Result<(), ReprFault>
        // Witness of ok, err: equations of the receiver and the vector; `edits/refused_growth_changes_the_receiver`,
        // `refused_growth_leaves_its_octets`.
        ensures ok { OnOk result (ReceivesSigns self.old (signs item.entry) self.new out.old.items out.new.items) }
        ensures err { OnErr result ((self.new ≡ self.old) × (out.new.items ≡ out.old.items)) }

        // Only where room is missing for what the item settles.
        // Witness of full: `edits/receiver_always_refuses`; `rows_lines::nothing_settled_needs_no_room`.
        ensures full { OnErr result (SignsLackRoom self.old (signs item.entry) (vec_capacity out.old) (vec_len out.old)) }
        // Witness of capacity: `rows_lines::an_item_keeps_the_room`.
        ensures capacity { vec_capacity out.old ≤ vec_capacity out.new }
    {
        let before = *self;
        let len = out.len();
        match self.add(item, out) {
            Ok(()) => Ok(()),
            Err(_) => {
                out.truncate(len);
                *self = before;
                Err(ReprFault::Memory)
            }
        }
    }

    /// The wire ended as its file does, as by the end of the connection in stream mode with file structure
    /// (RFC 959, section 3.4.1): the same as an end of file. An unpaired CR is kept.
    /// Without memory all is as before.
    pub fn end<A: Allocator + Copy>(&mut self, out: &mut Vec<u8, A>) -> Result<(), ReprFault>
        // Witness of ok, err: equations; `edits/clean_end_is_an_end_of_record`.
        ensures ok { OnOk result (ReceivesSigns self.old (end_file ∷ []) self.new out.old.items out.new.items) }
        ensures err { OnErr result ((self.new ≡ self.old) × (out.new.items ≡ out.old.items)) }
        // Witness of full, capacity: `rows_lines::nothing_settled_needs_no_room`, `an_item_keeps_the_room`.
        ensures full { OnErr result (SignsLackRoom self.old (end_file ∷ []) (vec_capacity out.old) (vec_len out.old)) }
        ensures capacity { vec_capacity out.old ≤ vec_capacity out.new }
    {
        self.take(Item::EndFile, out)
    }

    /// The wire broke: nothing follows, and an unpaired CR is dropped. What was put at the end of the file stays.
    pub fn broken(&mut self)
        // Witness: equations; `edits/broken_keeps_an_unpaired_return`.
        ensures form { receiver_form self.new ≡ receiver_form self.old }
        ensures over { taking_at_stage self.new ≡ over }
    {
        self.stage = Stage::Over; // a held CR goes with it
    }

    /// Takes octets or an end in front of an item, and lends what they settle of the file. Takes no memory.
    ///
    /// Given an item that is not empty it takes one octet or the end at least. What one call lends and what calls with
    /// the rest lend, one behind the other, is what `take` puts at the end of a file.
    pub fn next<'a>(&mut self, item: Item<'a>) -> Lent<'a>
        // Witness: `Receiver::take`, whose clauses rest on it; `edits/return_nul_is_kept_as_two`, `file_structure_keeps_an_end_of_record`,
        // `a_run_is_lent_with_its_return`, `a_line_end_keeps_its_return`.
        ensures { Lends self.old (signs item.entry) result self.new }
    {
        if let Stage::Over = self.stage {
            return whole(false, &[], item.len());
        }
        match item {
            Item::Octets(piece) => match self.kind {
                Kind::Ascii => self.next_line(piece),
                Kind::Image => whole(false, piece, piece.len()),
            },
            Item::EndRecord => self.next_record_end(),
            Item::EndFile => self.next_file_end(),
        }
    }

    fn next_record_end<'a>(&mut self) -> Lent<'a>
        requires going { self.old.stage ≢ Stage.Over }
        ensures { Lends self.old (end_record ∷ []) result self.new }
    {
        match (self.structure, self.stage) {
            (Structure::File, _) => whole(false, &[], 1),
            (Structure::Record, Stage::Held) => {
                self.stage = Stage::Settled;
                whole(true, &FEED, 1)
            }
            (Structure::Record, _) => whole(false, &FEED, 1),
        }
    }

    fn next_file_end<'a>(&mut self) -> Lent<'a>
        requires going { self.old.stage ≢ Stage.Over }
        ensures { Lends self.old (end_file ∷ []) result self.new }
    {
        let held = self.stage;
        self.stage = Stage::Over;
        match held {
            Stage::Held => whole(true, &[], 1),
            Stage::Settled | Stage::Over => whole(false, &[], 1),
        }
    }

    /// Octets in type A.
    fn next_line<'a>(&mut self, piece: &'a [u8]) -> Lent<'a>
        requires going { self.old.stage ≢ Stage.Over }
        requires ascii { self.old.kind ≡ Ascii }
        ensures { Lends self.old (map sign piece.now) result self.new }
    {
        if piece.is_empty() {
            return whole(false, piece, 0);
        }
        if let Stage::Held = self.stage {
            return self.next_held(piece);
        }
        self.next_run(piece)
    }

    /// Octets in type A behind a CR: CR LF is LF, CR NUL is CR, and any other CR is itself.
    fn next_held<'a>(&mut self, piece: &'a [u8]) -> Lent<'a>
        requires some { 0 < length piece.now }
        requires held { self.old.stage ≡ Stage.Held }
        requires ascii { self.old.kind ≡ Ascii }
        ensures { Lends self.old (map sign piece.now) result self.new }
    {
        self.stage = Stage::Settled;
        let first = piece[0];
        if first == 0 {
            return part(true, &[], 1, piece);
        }
        let run = self.next_run(piece);
        if first == 10 {
            return run;
        }
        Lent {
            with_return: true,
            ..run
        }
    }

    /// Octets in type A with no CR before them: a run up to a CR, and this.
    fn next_run<'a>(&mut self, piece: &'a [u8]) -> Lent<'a>
        requires some { 0 < length piece.now }
        requires settled { self.old.stage ≡ Stage.Settled }
        requires ascii { self.old.kind ≡ Ascii }
        ensures lends { Lends self.old (map sign piece.now) result self.new }
        ensures plain { result.with_return ≡ false }
    {
        let run = before_return(piece);
        let (front, _) = piece.split_at(run);
        if run == piece.len() {
            return whole(false, front, run);
        }
        self.stage = Stage::Held;
        part(false, front, run + 1, piece)
    }

    /// Puts at the end of the file what the item settles, or some of it.
    fn add<A: Allocator + Copy>(
        &mut self,
        item: Item<'_>,
        out: &mut Vec<u8, A>,
    ) -> Result<(), AllocError>
        ensures ok { OnOk result (ReceivesSigns self.old (signs item.entry) self.new out.old.items out.new.items) }
        ensures err { OnErr result ((rest : List ℕ) × (out.new.items ≡ out.old.items ++ rest)) }
        ensures full { OnErr result (SignsLackRoom self.old (signs item.entry) (vec_capacity out.old) (vec_len out.old)) }
        ensures capacity { vec_capacity out.old ≤ vec_capacity out.new }
    {
        let mut rest = item;
        while !rest.is_empty() {
            let lent = self.next(rest);
            put(lent, out)?;
            rest = lent.rest;
        }
        Ok(())
    }
}

/// Puts what was lent at the end of the file, or some of it.
fn put<A: Allocator + Copy>(lent: Lent<'_>, out: &mut Vec<u8, A>) -> Result<(), AllocError>
    ensures ok { OnOk result (out.new.items ≡ out.old.items ++ lent_octets lent.entry) }
    ensures err { OnErr result ((rest : List ℕ) × (out.new.items ≡ out.old.items ++ rest)) }
    ensures full { OnErr result (vec_capacity out.old < vec_len out.old + length (lent_octets lent.entry)) }
    ensures capacity { vec_capacity out.old ≤ vec_capacity out.new }
{
    if lent.with_return {
        out.push(13)?;
    }
    out.extend_from_slice(lent.octets)?;
    Ok(())
}

/// These octets, and nothing left of an item of so many.
fn whole<'a>(with_return: bool, octets: &'a [u8], taken: usize) -> Lent<'a>
    ensures with_return { result.with_return ≡ with_return }
    ensures octets { result.octets.now ≡ octets.now }
    ensures taken { result.taken ≡ taken }
    ensures rest { signs result.rest ≡ [] }
{
    Lent {
        with_return,
        octets,
        taken,
        rest: Item::Octets(&[]),
    }
}

/// These octets, and what is left of a piece of which so many were taken.
fn part<'a>(with_return: bool, octets: &'a [u8], taken: usize, piece: &'a [u8]) -> Lent<'a>
    requires { taken ≤ length piece.now }
    ensures with_return { result.with_return ≡ with_return }
    ensures octets { result.octets.now ≡ octets.now }
    ensures taken { result.taken ≡ taken }
    ensures rest { signs result.rest ≡ map sign (drop taken piece.now) }
{
    let (_, rest) = piece.split_at(taken);
    Lent {
        with_return,
        octets,
        taken,
        rest: Item::Octets(rest),
    }
}
