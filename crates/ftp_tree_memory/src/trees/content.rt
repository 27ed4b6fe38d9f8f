// The octets of a file that is not installed yet.
ghost use Rattle.std.specs.Prelude.{◌≡◌, ◌≤◌, ◌<◌, ◌+◌, ◌^◌, ◌++◌, [], None, IfErr, IfOk, OnErr, OnOk, drop, length, take, unwrap_or};
ghost use Rattle.ftp_tree.specs.Tree.{front_refusal, octets_or_none, under};

use crate::pages::Pages;
use crate::trees::held::HeldTree;
use crate::trees::kept::Kept;
use ftp_path::Path;
use ftp_tree::{Draft, TreeFault};
use ftp_tree_nodes::Holder;
use std::alloc::{AllocError, Allocator};
use std::marker::Model;
use std::mem;
use std::rc::Rc;

/// The octets of a file, as they are gathered before it is installed. A file's own are held by each who has it open too.
pub struct Content<A: Allocator + Copy> {
    kept: Kept<A>,
}

/// By hand: a derived drop is proved again, page by page, in each crate that lets a content go.
impl<A: Allocator + Copy> Drop for Content<A> {
    fn drop(self) {
        let Self { kept: _ } = self;
    }
}

impl<A: Allocator + Copy> Model for Content<A> {
    ghost use Rattle.std.specs.Prelude.{ℕ, List};
    ghost use Rattle.ftp_tree_memory.specs.trees.Kept.{octets_of};

    ghost Value = { List ℕ };

    ghost view = { λ content. octets_of content.kept };
}

impl<A: Allocator + Copy> Draft for Content<A> {
    ghost octets = { λ content. content };

    fn len(&self) -> u64 {
        Content::len(self)
    }

    fn push(&mut self, more: &[u8]) -> Result<(), AllocError> {
        Content::push(self, more)
    }
}

impl<A: Allocator + Copy> Holder for Content<A> {
    ghost octets = { λ content. content };

    fn len(&self) -> u64 {
        Content::len(self)
    }
}

impl<A: Allocator + Copy> Content<A> {
    /// No octets. Takes no memory.
    pub fn new(alloc: A) -> Content<A>
        ensures { result ≡ [] }
    {
        Content {
            kept: Kept::Own(Pages::new(alloc)),
        }
    }

    /// How many octets it has.
    pub fn len(&self) -> u64
        ensures { result ≡ length self.now }
    {
        match &self.kept {
            Kept::Own(pages) => pages.len(),
            Kept::Shared(pages) => pages.as_ref().len(),
        }
    }

    /// Takes its octets out.
    pub(crate) fn take(&mut self, alloc: A) -> Content<A>
        ensures taken { result ≡ self.old }
        ensures left { self.new ≡ [] }
    {
        mem::replace(self, Content::new(alloc))
    }

    /// Some of its octets from a place on, at most `max` of them and at most to the end of a page. Lends them.
    pub fn piece(&self, at: u64, max: usize) -> &[u8]
        // Witness: `piece` of `MemTree` needs them.
        // Witness: as of `piece`.
        ensures octets { result.now ≡ take (length result.now) (drop at self.now) }
        ensures most { length result.now ≤ max }
        ensures some { 0 < max → at < length self.now → 0 < length result.now }
    {
        match &self.kept {
            Kept::Own(pages) => pages.piece(at, max),
            Kept::Shared(pages) => pages.as_ref().piece(at, max),
        }
    }

    /// Copies its octets from a place on into the front of the room, as many as go there, and says how many.
    pub(crate) fn read(&self, at: u64, room: &mut [u8]) -> usize
        ensures octets { take result room.new ≡ take result (drop at self.now) }
        ensures most { (result ≤ length room.old) × (result ≤ length (drop at self.now)) }
        ensures some { 0 < length room.old → at < length self.now → 0 < result }
    {
        let Some(left) = self.len().checked_sub(at) else {
            return 0;
        };
        let count = left.min(room.len() as u64) as usize;
        self.fill(at, &mut room[..count]);
        count
    }

    /// Fills room with its octets from a place on, where it has so many.
    fn fill(&self, at: u64, room: &mut [u8])
        requires within { at + length room.old ≤ length self.now }
        requires fits { at + length room.old < 2 ^ 64 }
        ensures { room.new ≡ take (length room.old) (drop at self.now) }
    {
        let mut done = 0;
        while done < room.len() {
            let piece = self.piece(at + done as u64, room.len() - done);
            copy_to(room, done, piece);
            done += piece.len();
        }
    }
}

impl<A: Allocator + Copy> Content<A> {
    /// From now on several may hold its octets, and none are added. Refused memory, it is as it was.
    pub(crate) fn settle(&mut self, alloc: A) -> Result<(), AllocError>
        ensures { self.new ≡ self.old }
    {
        match mem::replace(&mut self.kept, Kept::Own(Pages::new(alloc))) {
            Kept::Own(pages) => match Rc::new(alloc, pages) {
                Ok(pages) => {
                    self.kept = Kept::Shared(pages);
                    Ok(())
                }
                Err(failed) => {
                    self.kept = Kept::Own(failed.value);
                    Err(AllocError)
                }
            },
            shared => {
                self.kept = shared;
                Ok(())
            }
        }
    }

    /// One holds its octets alone again, and may add to them, where nobody else holds them.
    pub(crate) fn unsettle(&mut self, alloc: A)
        ensures { self.new ≡ self.old }
    {
        self.kept = match mem::replace(&mut self.kept, Kept::Own(Pages::new(alloc))) {
            Kept::Own(pages) => Kept::Own(pages),
            Kept::Shared(pages) => match Rc::try_unwrap(pages) {
                Ok(pages) => Kept::Own(pages),
                Err(pages) => Kept::Shared(pages),
            },
        };
    }

    /// The same octets, held by one more: what becomes of this content does not change them. Octets that are not settled are
    /// refused as for want of memory.
    pub(crate) fn share(&self) -> Result<Content<A>, AllocError>
        ensures { IfOk result (λ other. other ≡ self.now) }
    {
        match &self.kept {
            Kept::Own(_) => Err(AllocError),
            Kept::Shared(pages) => {
                let pages = pages.clone()?;
                Ok(Content {
                    kept: Kept::Shared(pages),
                })
            }
        }
    }
}

impl<A: Allocator + Copy> Content<A> {
    /// The first octets of the file at a path below a root.
    ///
    /// Refused: `Absent`, `WrongKind` of a directory, `BadOffset` where the file has fewer, then `Memory`.
    pub fn of<B: Allocator + Copy, C: Allocator + Copy, D: Allocator + Copy, T: HeldTree<B>>(
        alloc: A,
        tree: &T,
        root: &Path<C>,
        path: &Path<D>,
        count: u64,
    ) -> Result<Content<A>, TreeFault>
        ensures none { OnOk result (front_refusal (under (T.table tree.now) root.now) path.now count ≡ None) }
        ensures front { IfOk result (λ content. content ≡ take count (octets_or_none (under (T.table tree.now) root.now) path.now)) }
        ensures fault { IfErr result (λ fault. fault ≡ unwrap_or (front_refusal (under (T.table tree.now) root.now) path.now count) TreeFault.Memory) }
    {
        if let Some(fault) = front_refusal(tree, root, path, count) {
            return Err(fault);
        }
        let mut content = Content::new(alloc);
        while content.len() < count {
            let left = count - content.len();
            let piece = tree.piece(root, path, content.len(), left as usize);
            let Ok(_) = content.push(piece) else {
                return Err(TreeFault::Memory);
            };
        }
        Ok(content)
    }

    /// Puts octets after those that it has. Refused memory, it is as it was; so are octets that several hold.
    pub fn push(&mut self, octets: &[u8]) -> Result<(), AllocError>
        ensures ok { OnOk result (self.new ≡ self.old ++ octets.now) }
        ensures err { OnErr result (self.new ≡ self.old) }
    {
        match &mut self.kept {
            Kept::Own(pages) => pages.push(octets),
            Kept::Shared(_) => Err(AllocError),
        }
    }

    /// Puts the octets of another content after those that it has. Refused memory, it has some of them.
    pub(crate) fn push_all(&mut self, more: &Content<A>) -> Result<(), AllocError>
        ensures { OnOk result (self.new ≡ self.old ++ more.now) }
    {
        let mut at = 0;
        while at < more.len() {
            let piece = more.piece(at, usize::MAX);
            self.push(piece)?;
            at += piece.len() as u64;
        }
        Ok(())
    }
}

/// Copies octets to the room from a place on.
fn copy_to(room: &mut [u8], at: usize, octets: &[u8])
    requires { at + length octets.now ≤ length room.old }
    ensures { take (at + length octets.now) room.new ≡ take at room.old ++ octets.now }
{
    room[at..at + octets.len()].copy_from_slice(octets);
}

/// The first reason, memory aside, why so many octets of a file cannot be had.
fn front_refusal<B: Allocator + Copy, C: Allocator + Copy, D: Allocator + Copy, T: HeldTree<B>>(
    tree: &T,
    root: &Path<C>,
    path: &Path<D>,
    count: u64,
) -> Option<TreeFault>
    ensures { result ≡ front_refusal (under (T.table tree.now) root.now) path.now count }
{
    let Some(size) = tree.size(root, path) else {
        return match tree.kind(root, path) {
            None => Some(TreeFault::Absent),
            Some(_) => Some(TreeFault::WrongKind),
        };
    };
    if count > size {
        return Some(TreeFault::BadOffset);
    }
    None
}
