// A listing that is given.
ghost use Rattle.std.specs.Prelude.{◌≡◌, ◌<◌, ◌≤◌, ◌+◌, ◌⊎◌, ◌↔◌, ◌++◌, [], length, take, true, false, is_some, IsTrue, IfOk, OnOk, OnErr, Some};
ghost use Rattle.ftp_path.specs.Path.{text_limit};
ghost use Rattle.ftp_tree.specs.Tree.{entries_at, kind_at, node_at, under};
ghost use Rattle.ftp_server_model.specs.Held.{lines_limit};
ghost use Rattle.ftp_server_model.specs.Listing.{listing_form, listing_wire, list_lines, lines_file};
ghost use Rattle.ftp_mode.specs.Wire.{wire};
ghost use Rattle.ftp_direct.specs.Direct.{is_file, names_for};
ghost use Rattle.ftp_server_transfer.specs.Lines.{lines_of, lines_from};

use crate::line::{What, put_next};
use ftp_direct::{is_file, last_name, put_node};
use ftp_path::Path;
use ftp_settings::{Kind, Mode, Representation, Structure};
use ftp_tree::{DirEntries, NodeKind, Tree};
use ftp_wire::Encoder;
use std::alloc::{AllocError, Allocator};
use std::mem;

/// What came of a call.
#[derive(Clone, Copy)]
pub struct Made {
    /// So many octets of the room were made.
    pub made: usize,
    /// The next lines had no memory.
    pub refused: bool,
}

/// The octets of a listing that are still to be given. It holds some lines, some behind them, and the directory's entries as they
/// were when it began, from which it makes the others.
#[derive(Drop)]
pub struct Listing<A: Allocator + Copy> {
    alloc: A,
    pub(crate) what: What<A>,
    pub(crate) path: Path<A>,
    /// What the directory showed; nothing of what is no directory.
    pub(crate) entries: DirEntries<A>,
    pub(crate) encoder: Encoder,
    /// The lines that are being given, and how many of their octets were taken.
    pub(crate) lines: Vec<u8, A>,
    given: usize,
    /// Those behind them; no octets where there are none.
    pub(crate) ahead: Vec<u8, A>,
    /// The place of the first entry that was not looked at; none where no further line is to be made.
    place: Option<usize>,
    ghost within: { given ≤ length lines.items },
    ghost known: { is_some place ≡ true → 0 < length ahead.items },
    ghost few: { length lines.items ≤ lines_limit },
    ghost few_ahead: { length ahead.items ≤ lines_limit },
}

impl<A: Allocator + Copy> Listing<A> {
    ghost use Rattle.ftp_server_transfer.specs.Rest.{rest_of, text_left};

    /// The listing of what stands at a path, in the mode in force. Whatever becomes of the tree after that, it stays what it is.
    pub fn new<T: Tree<A>>(
        alloc: A,
        tree: &T,
        root: &Path<A>,
        path: Path<A>,
        what: What<A>,
        mode: Mode,
    ) -> Result<Listing<A>, AllocError>
        // Witness: an equation, where memory was not refused.
        ensures { IfOk result (λ listing. let part = under (T.table tree.now) root.now in
            rest_of listing ≡ listing_wire mode (lines_of what part path)) }
    {
        let mut ahead = Vec::new(alloc);
        if put_own(tree, root, &path, &what, &mut ahead)? {
            let entries = DirEntries::none(alloc);
            return Ok(Listing::begun(alloc, what, path, entries, mode, ahead, None));
        }
        let entries = tree.entries(root, &path)?;
        let place = put_next(&path, &what, &entries, 0, &mut ahead)?;
        Ok(Listing::begun(alloc, what, path, entries, mode, ahead, place))
    }

    /// The listing whose first lines are these, and whose others are made from a place on.
    fn begun(
        alloc: A,
        what: What<A>,
        path: Path<A>,
        entries: DirEntries<A>,
        mode: Mode,
        ahead: Vec<u8, A>,
        place: Option<usize>,
    ) -> Listing<A>
        requires known { is_some place ≡ true → 0 < length ahead.items }
        requires few { length ahead.items ≤ lines_limit }
        ensures { rest_of result ≡ wire mode listing_form (ahead.items ++ lines_file (lines_from what path entries place)) }
    {
        let settings = Representation {
            kind: Kind::Ascii,
            structure: Structure::File,
            mode,
        };
        Listing {
            alloc,
            what,
            path,
            entries,
            encoder: Encoder::new(settings),
            lines: Vec::new(alloc),
            given: 0,
            ahead,
            place,
        }
    }

    /// Gives octets until the room is full or all is out. Where the next lines had no memory all that was still to be given stays
    /// so, and something is.
    pub fn give(&mut self, room: &mut [u8]) -> Made
        // Witness of within, gives, all: over a whole listing they leave one text.
        ensures within { result.made ≤ length room.old }
        ensures gives { rest_of self.old ≡ take result.made room.new ++ rest_of self.new }
        ensures all { result.refused ≡ false → (result.made ≡ length room.old) ⊎ (rest_of self.new ≡ []) }
        // Witness of refused: bounds what a refusal may leave.
        ensures refused { result.refused ≡ true → 0 < length (rest_of self.new) }
    {
        let mut made = 0;
        while made < room.len() && !self.is_given_out() {
            if self.advance().is_err() {
                return Made {
                    made,
                    refused: true,
                };
            }
            let (_, free) = room.split_at_mut(made);
            made += self.give_lines(free);
        }
        Made {
            made,
            refused: false,
        }
    }

    /// Whether nothing is still to be given.
    pub fn is_given_out(&self) -> bool
        ensures { IsTrue result ↔ (rest_of self.now ≡ []) }
    {
        self.encoder.is_out(self.is_text_out())
    }

    /// Whether no octet of the text is left.
    fn is_text_out(&self) -> bool
        ensures { IsTrue result ↔ (text_left self.now ≡ []) }
    {
        self.is_used_up() && self.ahead.is_empty()
    }

    /// Whether all octets of the lines were taken.
    fn is_used_up(&self) -> bool
        ensures { IsTrue result ↔ (self.now.given ≡ length self.now.lines.items) }
    {
        self.given == self.lines.len()
    }

    /// Where the lines are used up those behind them take their place, and next ones are made.
    fn advance(&mut self) -> Result<(), AllocError>
        ensures rest { (text_left self.new ≡ text_left self.old) × (self.new.encoder ≡ self.old.encoder) }
        ensures ready { OnOk result ((self.new.given < length self.new.lines.items) ⊎ (length self.new.ahead.items ≡ 0)) }
        ensures left { OnErr result (0 < length self.new.ahead.items) }
    {
        if !self.is_used_up() || self.ahead.is_empty() {
            return Ok(());
        }
        self.lines.clear();
        self.given = 0;
        let Some(place) = self.place else {
            mem::swap(&mut self.lines, &mut self.ahead);
            return Ok(());
        };
        match put_next(
            &self.path,
            &self.what,
            &self.entries,
            place,
            &mut self.lines,
        ) {
            Ok(next) => {
                mem::swap(&mut self.lines, &mut self.ahead);
                self.place = next;
                Ok(())
            }
            Err(fault) => {
                self.lines.clear();
                Err(fault)
            }
        }
    }

    /// Gives octets of the lines, and of the end where none are behind them.
    fn give_lines(&mut self, room: &mut [u8]) -> usize
        requires ready { (self.old.given < length self.old.lines.items) ⊎ (length self.old.ahead.items ≡ 0) }
        ensures within { result ≤ length room.old }
        ensures gives { rest_of self.old ≡ take result room.new ++ rest_of self.new }
        ensures some { 0 < length room.old → 0 < length (rest_of self.old) → length (text_left self.new) < length (text_left self.old) + result }
    {
        let (_, rest) = self.lines.as_slice().split_at(self.given);
        let encoded = self.encoder.put(rest, self.ahead.is_empty(), room);
        self.given += encoded.taken;
        encoded.made
    }
}

/// Puts what is listed without a directory's entries: of LIST the line of a file, or none where nothing stands; of NLST the text
/// that named a file. Says whether that is all; else nothing is put, and the lines are those of the directory's entries.
#[tactic(auto, using(crate::proofs::ListingLemmas::of_lines, crate::proofs::ListingLemmas::of_names, crate::proofs::ListingLemmas::of_entries))]
fn put_own<A: Allocator + Copy, T: Tree<A>>(
    tree: &T,
    root: &Path<A>,
    path: &Path<A>,
    what: &What<A>,
    line: &mut Vec<u8, A>,
) -> Result<bool, AllocError>
    requires empty { line.old.items ≡ [] }
    ensures own { IfOk result (λ is_all. is_all ≡ true → lines_file (lines_of what.now (under (T.table tree.now) root.now) path.now) ≡ line.new.items) }
    ensures others { IfOk result (λ is_all. is_all ≡ false → let part = under (T.table tree.now) root.now in
        (line.new.items ≡ []) × (lines_of what.now part path.now ≡ lines_from what.now path.now (entries_at part path.now) (Some 0))) }
    ensures few { OnOk result (length line.new.items ≤ lines_limit) }
{
    match what {
        What::Lines => put_own_line(tree, root, path, line),
        What::Names(text) => put_own_name(tree, root, path, text.as_slice(), line),
        What::Entries(_) => Ok(false),
    }
}

/// The same of LIST.
#[tactic(auto, using(crate::proofs::ListingLemmas::first_own, crate::proofs::ListingLemmas::first_none))]
fn put_own_line<A: Allocator + Copy, T: Tree<A>>(
    tree: &T,
    root: &Path<A>,
    path: &Path<A>,
    line: &mut Vec<u8, A>,
) -> Result<bool, AllocError>
    requires empty { line.old.items ≡ [] }
    ensures own { IfOk result (λ is_all. is_all ≡ true → lines_file (list_lines (under (T.table tree.now) root.now) path.now) ≡ line.new.items) }
    ensures others { IfOk result (λ is_all. is_all ≡ false → (line.new.items ≡ []) × (kind_at (under (T.table tree.now) root.now) path.now ≡ Some NodeKind.Dir)) }
    ensures few { OnOk result (length line.new.items ≤ lines_limit) }
{
    match tree.kind(root, path) {
        Some(NodeKind::File) => {
            put_node(tree, root, path, last_name(path), line)?;
            line.push(b'\n')?;
            Ok(true)
        }
        Some(NodeKind::Dir) => Ok(false),
        None => Ok(true),
    }
}

/// The same of NLST.
#[tactic(auto, using(crate::proofs::ListingLemmas::first_name))]
fn put_own_name<A: Allocator + Copy, T: Tree<A>>(
    tree: &T,
    root: &Path<A>,
    path: &Path<A>,
    text: &[u8],
    line: &mut Vec<u8, A>,
) -> Result<bool, AllocError>
    requires short { length text.now ≤ text_limit }
    requires empty { line.old.items ≡ [] }
    ensures own { IfOk result (λ is_all. is_all ≡ true → lines_file (names_for (under (T.table tree.now) root.now) path.now text.now) ≡ line.new.items) }
    ensures others { IfOk result (λ is_all. is_all ≡ false → (line.new.items ≡ []) × (is_file (node_at (under (T.table tree.now) root.now) path.now) ≡ false)) }
    ensures few { OnOk result (length line.new.items ≤ lines_limit) }
{
    if !is_file(tree, root, path) {
        return Ok(false);
    }
    line.extend_from_slice(text)?;
    line.push(b'\n')?;
    Ok(true)
}
