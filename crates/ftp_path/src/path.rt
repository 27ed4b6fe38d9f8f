// A path: the names on the way from the root, kept as one text.
ghost use Rattle.std.specs.Prelude.{◌≡◌, ◌≤◌, [], IsTrue, IfOk, IfErr, OnOk, if◌then◌else◌, length};
ghost use Rattle.ftp_path.specs.Kept.{IsJoined, IsKept, names_of};
ghost use Rattle.ftp_path.specs.Path.{IsPathText, fits, is_path_text, is_rooted, is_within, joined, moved_path, parent, resolved, text_of};

use crate::fault::PathFault;
use crate::limits::TEXT_LIMIT;
use crate::name::{is_path_text, is_rooted};
use crate::walk::{Walk, parent_len};
use std::alloc::{AllocError, Allocator};
use std::marker::Model;

/// A list of names from the root on, each a `Name`, whose canonical text has at most 900 octets. That something
/// stands there is not said.
pub struct Path<A: Allocator + Copy> {
    octets: Vec<u8, A>,
}

/// By hand: a derived drop is proved again in each crate that lets a path go.
impl<A: Allocator + Copy> Drop for Path<A> {
    fn drop(self) {
        let Self { octets: _ } = self;
    }
}

impl<A: Allocator + Copy> Model for Path<A> {
    ghost use Rattle.std.specs.Prelude.{ℕ, List};

    ghost Value = { List (List ℕ) };

    ghost use Rattle.ftp_path.specs.Kept.{IsKept, names_of};

    ghost view = { λ path. names_of path.octets.items };

    ghost invariant = { λ path. IsKept path.octets.items };
}

impl<A: Allocator + Copy> Path<A> {
    /// The root's. Takes no memory.
    pub fn root(alloc: A) -> Path<A>
        ensures { result ≡ [] }
    {
        Path {
            octets: Vec::new(alloc),
        }
    }

    /// The path that a text names: from the root where it begins with `/`, else from this path. Empty components
    /// and `.` are dropped, `..` drops one and stays at the root.
    ///
    /// `NotText` where `is_path_text` says no; `TooBig` where a component that is left has over 255 octets or the
    /// canonical text over 900; else `Memory`.
    pub fn resolve(&self, alloc: A, text: &[u8]) -> Result<Path<A>, PathFault>
        // Witness of text: a caller's clause, that of `root_of` of `tool_accounts`; `any_text_is_followed`.
        ensures text { OnOk result (IsPathText text.now) }
        // Witness of ok, fault: equations; `no_path_text_is_told_as_too_long`.
        ensures ok { IfOk result (λ path. (path ≡ resolved self.now text.now) × IsTrue (fits path)) }
        ensures fault { IfErr result (λ fault. fault ≡
            (if is_path_text text.now then (if fits (resolved self.now text.now) then PathFault.Memory else PathFault.TooBig) else PathFault.NotText)) }
    {
        if !is_path_text(text) {
            return Err(PathFault::NotText);
        }
        let walk = self.walk(text);
        if !walk.fits() {
            return Err(PathFault::TooBig);
        }
        match Vec::from_slice(alloc, walk.octets()) {
            Ok(octets) => Ok(Path { octets }),
            Err(_) => Err(PathFault::Memory),
        }
    }

    /// The canonical text: `/`, or `/` before each name. Lends it, and takes no memory.
    pub fn text(&self) -> &[u8]
        ensures text { result.now ≡ text_of self.now }
        // Witness of path_text, bound: they follow from `text`, for a path within the limits.
        ensures path_text { IsPathText result.now }
        ensures bound { length result.now ≤ TEXT_LIMIT }
    {
        if self.octets.is_empty() {
            b"/".as_slice()
        } else {
            self.octets.as_slice()
        }
    }

    /// Follows a text's components from here or from the root.
    fn walk(&self, text: &[u8]) -> Walk
        requires { IsPathText text.now }
        ensures { result ≡ resolved self.now text.now }
    {
        let mut walk = self.start(text);
        walk.follow_all(text);
        walk
    }

    /// Where a text starts: at the root, or here.
    fn start(&self, text: &[u8]) -> Walk
        ensures place { result ≡ (if is_rooted text.now then [] else self.now) }
        ensures within { length (joined result) ≤ TEXT_LIMIT }
    {
        if is_rooted(text) {
            return Walk::at_root();
        }
        Walk::at(self.octets.as_slice())
    }

    /// Its names joined, `/` before each: no octets for the root. Lends them, for the functions of `key`.
    pub fn key(&self) -> &[u8]
        // Witness: together an equation: what is kept is its names joined.
        ensures kept { IsKept result.now }
        ensures names { names_of result.now ≡ self.now }
    {
        self.octets.as_slice()
    }

    /// The same of the parent, which of the root is the root. Lends them.
    pub fn parent_key(&self) -> &[u8]
        // Witness of joined, names: together an equation.
        ensures joined { IsJoined result.now }
        ensures names { names_of result.now ≡ parent self.now }
        // Witness of fits: it says of the path what `resolve` says in `ok`.
        ensures fits { IsTrue (fits self.now) }
    {
        &self.octets.as_slice()[..parent_len(self.octets.as_slice())]
    }

    /// Goes to the parent, which of the root is the root. Takes no memory.
    pub fn up(&mut self)
        ensures { self.new ≡ parent self.old }
    {
        let kept = parent_len(self.octets.as_slice());
        self.octets.truncate(kept);
    }

    /// The same path, in memory of its own.
    pub fn copy<B: Allocator + Copy>(&self, alloc: B) -> Result<Path<B>, AllocError>
        ensures { IfOk result (λ path. path ≡ self.now) }
    {
        let octets = Vec::from_slice(alloc, self.octets.as_slice())?;
        Ok(Path { octets })
    }

    /// Whether this path is within the limits once what stands at `from` is called `to`.
    pub fn fits_moved<B: Allocator + Copy, C: Allocator + Copy>(
        &self,
        from: &Path<B>,
        to: &Path<C>,
    ) -> bool
        requires { IsTrue (is_within from.now self.now) }
        ensures { result ≡ fits (moved_path from.now to.now self.now) }
    {
        let (path, from, to) = (self.key(), from.key(), to.key());
        path.len() - from.len() + to.len() <= TEXT_LIMIT
    }

    /// Where this path leads then, in memory of its own.
    pub fn moved<B: Allocator + Copy, C: Allocator + Copy, D: Allocator + Copy>(
        &self,
        alloc: D,
        from: &Path<B>,
        to: &Path<C>,
    ) -> Result<Path<D>, AllocError>
        requires within { IsTrue (is_within from.now self.now) }
        requires fits { IsTrue (fits (moved_path from.now to.now self.now)) }
        ensures { IfOk result (λ path. path ≡ moved_path from.now to.now self.now) }
    {
        let (path, from, to) = (self.key(), from.key(), to.key());
        let mut octets = Vec::from_slice(alloc, to)?;
        octets.extend_from_slice(&path[from.len()..])?;
        Ok(Path { octets })
    }
}
