// Octets in pages, as one list of octets.
ghost use Rattle.std.specs.Prelude.{◌≡◌, ◌≤◌, ◌<◌, ◌++◌, [], OnErr, OnOk, drop, length, take};

use crate::pages::run::{self, Page};
use std::alloc::{AllocError, Allocator};
use std::marker::Model;
use std::mem;

/// A list of octets, kept in pages of 4,096: a push moves no octet but its own.
pub struct Pages<A: Allocator + Copy> {
    pages: Vec<Page<A>, A>,
    len: u64,
}

/// By hand: a derived drop is proved again, page by page, in each crate that lets octets go.
impl<A: Allocator + Copy> Drop for Pages<A> {
    fn drop(self) {
        let Self { pages: _, len: _ } = self;
    }
}

impl<A: Allocator + Copy> Model for Pages<A> {
    ghost use Rattle.std.specs.Prelude.{ℕ, List};

    ghost Value = { List ℕ };

    ghost use Rattle.std.specs.Prelude.{◌≡◌, length};
    ghost use Rattle.std.specs.List.{concat};
    ghost use Rattle.ftp_tree_memory.specs.pages.Pages.{IsPaged, page_octets};

    ghost view = { λ octets. concat (page_octets octets.pages.items) };

    ghost invariant = { λ octets. IsPaged (page_octets octets.pages.items) × (octets.len ≡ length (concat (page_octets octets.pages.items))) };
}

impl<A: Allocator + Copy> Pages<A> {
    /// No octets. Takes no memory.
    pub fn new(alloc: A) -> Pages<A>
        ensures { result ≡ [] }
    {
        Pages {
            pages: Vec::new(alloc),
            len: 0,
        }
    }

    /// How many octets there are.
    pub fn len(&self) -> u64
        ensures { result ≡ length self.now }
    {
        self.len
    }

    /// Takes the octets out. Takes no memory.
    pub fn take(&mut self, alloc: A) -> Pages<A>
        ensures taken { result ≡ self.old }
        ensures left { self.new ≡ [] }
    {
        mem::replace(self, Pages::new(alloc))
    }

    /// Some of the octets from a place on, at most `max` of them and at most to the end of a page: none only at the end, or where
    /// `max` is 0. Lends them.
    pub fn piece(&self, at: u64, max: usize) -> &[u8]
        // Witness: `Content::of` of `ftp_tree_memory`, whose clause `front` needs all three.
        ensures octets { result.now ≡ take (length result.now) (drop at self.now) }
        ensures most { length result.now ≤ max }
        ensures some { 0 < max → at < length self.now → 0 < length result.now }
    {
        run::piece(self.pages.as_slice(), at, max)
    }
}

impl<A: Allocator + Copy> Pages<A> {
    /// Puts octets behind those that stand. Refused memory, it leaves those.
    pub fn push(&mut self, octets: &[u8]) -> Result<(), AllocError>
        ensures ok { OnOk result (self.new ≡ self.old ++ octets.now) }
        ensures err { OnErr result (self.new ≡ self.old) }
    {
        let Some(len) = self.len.checked_add(octets.len() as u64) else {
            return Err(AllocError);
        };
        run::push_all(&mut self.pages, self.len, octets)?;
        self.len = len;
        Ok(())
    }
}
