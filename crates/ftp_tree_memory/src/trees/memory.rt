// A tree in memory: nodes whose files have their octets at hand.
ghost use Rattle.std.specs.Prelude.{◌≡◌, ◌≤◌, ◌++◌, [], IfOk, OnErr, OnOk, None, length, take};
ghost use Rattle.ftp_tree.specs.Change.{never_strayed};
ghost use Rattle.ftp_tree.specs.Tree.{install_refusal, installed, octets_or_none, root_alone, root_within, under, with_part};

use crate::trees::content::Content;
use crate::trees::held::HeldTree;
use ftp_facts::Moment;
use ftp_path::{Name, Path};
use ftp_tree::{Broken, DirEntries, Limits, NodeKind, Sight, SureTree, Tree, TreeFault};
use ftp_tree_nodes::{Nodes, Standing};
use std::alloc::{AllocError, Allocator};
use std::marker::Model;

/// A tree that is kept in memory. It has no device, so its count of device failures stays at 0.
pub struct MemTree<A: Allocator + Copy> {
    pub(crate) nodes: Nodes<A, Content<A>>,
    pub(crate) alloc: A,
}

/// By hand: a derived drop is made anew in each crate that lets a tree go, and with it all that is generic over trees.
impl<A: Allocator + Copy> Drop for MemTree<A> {
    fn drop(self) {
        let Self { nodes: _, alloc: _ } = self;
    }
}

impl<A: Allocator + Copy> Model for MemTree<A> {
    ghost use Rattle.ftp_tree.specs.Tree.{Table};
    ghost use Rattle.ftp_tree.specs.Rows.{table_code};

    ghost Value = { Table };

    ghost coded = { table_code };

    ghost view = { λ tree. tree.nodes };
}

impl<A: Allocator + Copy> Tree<A> for MemTree<A> {
    type Open = Content<A>;

    type Draft = Content<A>;

    ghost table = { λ tree. tree };

    ghost failures = { λ tree. never_strayed 0 };

    ghost opened = { λ content. content };

    fn look<B: Allocator + Copy, C: Allocator + Copy>(
        &mut self,
        _root: &Path<B>,
        _path: &Path<C>,
        _sight: Sight,
    ) -> Result<bool, Broken> {
        Ok(false)
    }

    fn look_since<B: Allocator + Copy, C: Allocator + Copy>(
        &mut self,
        _root: &Path<B>,
        _path: &Path<C>,
        _draft: &Content<A>,
    ) -> Result<bool, Broken> {
        Ok(false)
    }

    fn kind<B: Allocator + Copy, C: Allocator + Copy>(
        &self,
        root: &Path<B>,
        path: &Path<C>,
    ) -> Option<NodeKind> {
        self.nodes.kind(root, path)
    }

    fn size<B: Allocator + Copy, C: Allocator + Copy>(
        &self,
        root: &Path<B>,
        path: &Path<C>,
    ) -> Option<u64> {
        self.nodes.size(root, path)
    }

    fn stamp<B: Allocator + Copy, C: Allocator + Copy>(
        &self,
        root: &Path<B>,
        path: &Path<C>,
    ) -> Option<Moment> {
        self.nodes.stamp(root, path)
    }

    fn open<B: Allocator + Copy, C: Allocator + Copy>(
        &mut self,
        root: &Path<B>,
        path: &Path<C>,
    ) -> Result<Content<A>, TreeFault> {
        match self.nodes.file(root, path) {
            Err(fault) => Err(fault),
            Ok(content) => match content.share() {
                Ok(file) => Ok(file),
                Err(_) => Err(TreeFault::Memory),
            },
        }
    }

    fn open_len(file: &Content<A>) -> u64 {
        file.len()
    }

    fn read(&mut self, file: &mut Content<A>, at: u64, room: &mut [u8]) -> Result<usize, Broken> {
        Ok(file.read(at, room))
    }

    fn nth_name<B: Allocator + Copy, C: Allocator + Copy>(
        &self,
        root: &Path<B>,
        path: &Path<C>,
        place: usize,
    ) -> Option<Name<'_>> {
        self.nodes.nth_name(root, path, place)
    }

    fn entries<B: Allocator + Copy, C: Allocator + Copy>(
        &self,
        root: &Path<B>,
        path: &Path<C>,
    ) -> Result<DirEntries<A>, AllocError> {
        self.nodes.entries(root, path)
    }

    fn room<B: Allocator + Copy, C: Allocator + Copy>(
        &self,
        root: &Path<B>,
        path: &Path<C>,
    ) -> Result<u64, TreeFault> {
        self.nodes.room(root, path)
    }

    fn most<B: Allocator + Copy, C: Allocator + Copy>(
        &self,
        root: &Path<B>,
        path: &Path<C>,
    ) -> u64 {
        self.nodes.most(root, path)
    }

    fn device_failures(&self) -> u64 {
        0
    }

    fn fits<B: Allocator + Copy>(&self, root: &Path<B>) -> bool {
        self.nodes.fits(root)
    }

    fn make_dir<B: Allocator + Copy, C: Allocator + Copy>(
        &mut self,
        root: &Path<B>,
        path: &Path<C>,
    ) -> Result<(), TreeFault> {
        self.nodes.make_dir(root, path)
    }

    fn remove_dir<B: Allocator + Copy, C: Allocator + Copy>(
        &mut self,
        root: &Path<B>,
        path: &Path<C>,
    ) -> Result<(), TreeFault> {
        if let Some(fault) = self.remove_refusal(root, path) {
            return Err(fault);
        }
        self.take_away(root, path);
        Ok(())
    }

    fn delete<B: Allocator + Copy, C: Allocator + Copy>(
        &mut self,
        root: &Path<B>,
        path: &Path<C>,
    ) -> Result<(), TreeFault> {
        if let Some(fault) = self.delete_refusal(root, path) {
            return Err(fault);
        }
        self.take_away(root, path);
        Ok(())
    }

    fn rename<B: Allocator + Copy, C: Allocator + Copy, D: Allocator + Copy>(
        &mut self,
        root: &Path<B>,
        from: &Path<C>,
        to: &Path<D>,
    ) -> Result<(), TreeFault> {
        if let Some(fault) = self.rename_refusal(root, from, to) {
            return Err(fault);
        }
        match self.nodes.move_all(root, from, to) {
            Ok(()) => Ok(()),
            Err(_) => Err(TreeFault::Memory),
        }
    }

    fn rename_onto<B: Allocator + Copy, C: Allocator + Copy, D: Allocator + Copy>(
        &mut self,
        root: &Path<B>,
        from: &Path<C>,
        to: &Path<D>,
    ) -> Result<(), TreeFault> {
        if let Some(fault) = self.onto_refusal(root, from, to) {
            return Err(fault);
        }
        self.move_onto(root, from, to);
        Ok(())
    }

    fn begin<B: Allocator + Copy, C: Allocator + Copy>(
        &mut self,
        _root: &Path<B>,
        _path: &Path<C>,
        _keep: u64,
    ) -> Result<Content<A>, TreeFault> {
        Ok(Content::new(self.alloc))
    }

    fn put<B: Allocator + Copy, C: Allocator + Copy>(
        &mut self,
        root: &Path<B>,
        path: &Path<C>,
        keep: u64,
        came: Content<A>,
        moment: Moment,
    ) -> Result<(), TreeFault> {
        if let Some(fault) = self.put_refusal(root, path, keep, &came) {
            return Err(fault);
        }
        let Ok(mut whole) = self.behind_kept(root, path, keep, came) else {
            return Err(TreeFault::Memory);
        };
        match self.put_file(root, path, &mut whole, moment) {
            Ok(()) => Ok(()),
            Err(_) => Err(TreeFault::Memory),
        }
    }
}

impl<A: Allocator + Copy> SureTree<A> for MemTree<A> {
    ghost use Rattle.std.specs.Prelude.{refl};

    ghost never = { λ tree. refl };
}

impl<A: Allocator + Copy> HeldTree<A> for MemTree<A> {
    #[tactic(auto, unfolding(ftp_tree::specs::Tree::octets_or_none, ftp_tree::specs::Tree::octets_at))]
    fn piece<B: Allocator + Copy, C: Allocator + Copy>(
        &self,
        root: &Path<B>,
        path: &Path<C>,
        at: u64,
        max: usize,
    ) -> &[u8] {
        match self.nodes.standing(root, path) {
            Some(Standing::File(content, _)) => content.piece(at, max),
            Some(Standing::Dir) | None => b"".as_slice(),
        }
    }

    fn install<B: Allocator + Copy, C: Allocator + Copy>(
        &mut self,
        root: &Path<B>,
        path: &Path<C>,
        content: &mut Content<A>,
        moment: Moment,
    ) -> Result<(), TreeFault> {
        if let Some(fault) = self.install_refusal(root, path, content.len()) {
            return Err(fault);
        }
        match self.put_file(root, path, content, moment) {
            Ok(()) => Ok(()),
            Err(_) => Err(TreeFault::Memory),
        }
    }
}

impl<A: Allocator + Copy> MemTree<A> {
    /// The root alone, within the default limits. Takes no memory.
    #[tactic(auto, unfolding(ftp_tree::specs::Tree::root_alone))]
    pub fn new(alloc: A) -> MemTree<A>
        ensures { result ≡ root_alone }
    {
        MemTree::within(alloc, Limits::DEFAULT)
    }

    /// The root alone, within some limits. Takes no memory.
    pub fn within(alloc: A, limits: Limits) -> MemTree<A>
        ensures { result ≡ root_within limits }
    {
        MemTree {
            nodes: Nodes::within(alloc, limits),
            alloc,
        }
    }

    /// The first octets of the file at a path, `keep` of them if it has so many, and then those that came.
    #[tactic(auto, unfolding(ftp_tree::specs::Tree::octets_or_none, ftp_tree::specs::Tree::octets_at))]
    pub(crate) fn behind_kept<B: Allocator + Copy, C: Allocator + Copy>(
        &self,
        root: &Path<B>,
        path: &Path<C>,
        keep: u64,
        came: Content<A>,
    ) -> Result<Content<A>, AllocError>
        ensures { IfOk result (λ whole. whole ≡ take keep (octets_or_none (under self.now root.now) path.now) ++ came) }
    {
        match self.nodes.standing(root, path) {
            Some(Standing::File(content, _)) => behind(self.alloc, content, keep, came),
            Some(Standing::Dir) | None => Ok(came),
        }
    }

    /// Puts a file where no refusal applies. Its octets are taken out of the content, unless memory is refused.
    fn put_file<B: Allocator + Copy, C: Allocator + Copy>(
        &mut self,
        root: &Path<B>,
        path: &Path<C>,
        content: &mut Content<A>,
        moment: Moment,
    ) -> Result<(), AllocError>
        requires { install_refusal (under self.old root.now) path.now (length content.old) ≡ None }
        ensures ok { OnOk result ((self.new ≡ with_part self.old root.now (installed (under self.old root.now) path.now content.old moment.seconds)) × (content.new ≡ [])) }
        ensures err { OnErr result ((self.new ≡ self.old) × (content.new ≡ content.old)) }
    {
        content.settle(self.alloc)?;
        let octets = content.take(self.alloc);
        if let Err(octets) = self.nodes.put_file(root, path, octets, moment) {
            *content = octets;
            content.unsettle(self.alloc);
            return Err(AllocError);
        }
        Ok(())
    }
}

/// The first octets of a content, `keep` of them if it has so many, and then those that came.
fn behind<A: Allocator + Copy>(
    alloc: A,
    content: &Content<A>,
    keep: u64,
    came: Content<A>,
) -> Result<Content<A>, AllocError>
    ensures { IfOk result (λ whole. whole ≡ take keep content.now ++ came) }
{
    let kept = keep.min(content.len());
    if kept == 0 {
        return Ok(came);
    }
    let mut whole = front(alloc, content, kept)?;
    whole.push_all(&came)?;
    Ok(whole)
}

/// So many octets of a content, from its first one on.
fn front<A: Allocator + Copy>(
    alloc: A,
    content: &Content<A>,
    count: u64,
) -> Result<Content<A>, AllocError>
    requires { count ≤ length content.now }
    ensures { IfOk result (λ front. front ≡ take count content.now) }
{
    let mut front = Content::new(alloc);
    while front.len() < count {
        let left = count - front.len();
        let piece = content.piece(front.len(), left as usize);
        front.push(piece)?;
    }
    Ok(front)
}
