// A tree in memory and the folder that keeps it.
ghost use Rattle.std.specs.Prelude.{◌≡◌, ◌++◌, ◌⊎◌, None, OnOk, OnErr, IfErr, [], length, take, true};
ghost use Rattle.ftp_tree.specs.Change.{IsDone, IsRefused, Refuses, Tells, never_strayed};
ghost use Rattle.ftp_tree.specs.Sound.{IsSoundTree};
ghost use Rattle.ftp_tree.specs.Tree.{freed, installed, made, moved, octets_or_none, removed, under, with_part};
ghost use Rattle.ftp_tree.specs.Tree.{delete_refusal, install_refusal, make_refusal, onto_refusal, remove_refusal, rename_refusal};
ghost use Rattle.ftp_tree_memory.specs.trees.Folder.{IsPathFree, IsKept, Mirrors, SparesUnknown, changed_below};

use crate::trees::content::Content;
use crate::trees::device::Folder;
use crate::trees::held::HeldTree;
use crate::trees::memory::MemTree;
use ftp_facts::Moment;
use ftp_path::{Name, Path};
use ftp_tree::{Broken, DirEntries, NodeKind, Sight, SureTree, Tree, TreeFault};
use std::alloc::{AllocError, Allocator};

/// A tree in memory, and a folder to which each change goes first. All that a change needs of memory is had, then the folder
/// makes the change, and then the tree does, which can't fail: so where the folder fails the tree is as it was, and a folder
/// that kept the tree before a call keeps it after it.
pub struct Mirror<A: Allocator + Copy, D: Folder> {
    tree: MemTree<A>,
    folder: D,
}

/// By hand: a derived drop is proved again wherever a mirror is let go, and what is generic over it is compiled again.
impl<A: Allocator + Copy, D: Folder> Drop for Mirror<A, D> {
    fn drop(self) {
        let Self { tree: _, folder: _ } = self;
    }
}

impl<A: Allocator + Copy, D: Folder> Mirror<A, D> {
    /// A tree, and the folder that is to keep it: whether it does so far is its owner's matter. Takes no memory.
    pub fn new(tree: MemTree<A>, folder: D) -> Mirror<A, D>
        ensures tree { result.tree ≡ tree }
        ensures folder { result.folder ≡ folder }
    {
        Mirror { tree, folder }
    }

    /// The tree and the folder, which are no mirror any more.
    pub fn into_parts(self) -> (MemTree<A>, D)
        ensures { result ≡ (self.tree, self.folder) }
    {
        let Self { tree, folder } = self;
        (tree, folder)
    }

    /// The folder.
    pub fn folder(&self) -> &D
        ensures { result.now ≡ self.now.folder }
    {
        &self.folder
    }
}

impl<A: Allocator + Copy, D: Folder> Tree<A> for Mirror<A, D> {
    type Open = Content<A>;

    type Draft = Content<A>;

    ghost table = { λ mirror. mirror.tree };

    ghost failures = { λ mirror. never_strayed (D.failures mirror.folder) };

    ghost opened = { λ content. content };

    fn look<B: Allocator + Copy, C: Allocator + Copy>(
        &mut self,
        _root: &Path<B>,
        _path: &Path<C>,
        _sight: Sight,
    ) -> Result<bool, Broken> {
        Ok(false)
    }

    fn look_since<B: Allocator + Copy, C: Allocator + Copy>(
        &mut self,
        _root: &Path<B>,
        _path: &Path<C>,
        _draft: &Content<A>,
    ) -> Result<bool, Broken> {
        Ok(false)
    }

    fn kind<B: Allocator + Copy, C: Allocator + Copy>(
        &self,
        root: &Path<B>,
        path: &Path<C>,
    ) -> Option<NodeKind> {
        self.tree.kind(root, path)
    }

    fn size<B: Allocator + Copy, C: Allocator + Copy>(
        &self,
        root: &Path<B>,
        path: &Path<C>,
    ) -> Option<u64> {
        self.tree.size(root, path)
    }

    fn stamp<B: Allocator + Copy, C: Allocator + Copy>(
        &self,
        root: &Path<B>,
        path: &Path<C>,
    ) -> Option<Moment> {
        self.tree.stamp(root, path)
    }

    fn open<B: Allocator + Copy, C: Allocator + Copy>(
        &mut self,
        root: &Path<B>,
        path: &Path<C>,
    ) -> Result<Content<A>, TreeFault> {
        self.tree.open(root, path)
    }

    fn open_len(file: &Content<A>) -> u64 {
        file.len()
    }

    fn read(&mut self, file: &mut Content<A>, at: u64, room: &mut [u8]) -> Result<usize, Broken> {
        Ok(file.read(at, room))
    }

    fn nth_name<B: Allocator + Copy, C: Allocator + Copy>(
        &self,
        root: &Path<B>,
        path: &Path<C>,
        place: usize,
    ) -> Option<Name<'_>> {
        self.tree.nth_name(root, path, place)
    }

    fn entries<B: Allocator + Copy, C: Allocator + Copy>(
        &self,
        root: &Path<B>,
        path: &Path<C>,
    ) -> Result<DirEntries<A>, AllocError> {
        self.tree.entries(root, path)
    }

    fn room<B: Allocator + Copy, C: Allocator + Copy>(
        &self,
        root: &Path<B>,
        path: &Path<C>,
    ) -> Result<u64, TreeFault> {
        self.tree.room(root, path)
    }

    fn most<B: Allocator + Copy, C: Allocator + Copy>(
        &self,
        root: &Path<B>,
        path: &Path<C>,
    ) -> u64 {
        self.tree.most(root, path)
    }

    fn device_failures(&self) -> u64 {
        self.folder.failures()
    }

    fn fits<B: Allocator + Copy>(&self, root: &Path<B>) -> bool {
        self.tree.fits(root)
    }

    fn make_dir<B: Allocator + Copy, C: Allocator + Copy>(
        &mut self,
        root: &Path<B>,
        path: &Path<C>,
    ) -> Result<(), TreeFault>
        // Witness of done: as of `make_dir`.
        ensures done { OnOk result (let part = under self.old.tree root.now in IsDone (make_refusal part path.now)
            (with_part self.old.tree root.now (made part path.now)) self.new.tree (never_strayed (D.failures self.old.folder)) (never_strayed (D.failures self.new.folder))) }
        ensures refused { IfErr result (λ fault. let part = under self.old.tree root.now in IsRefused (make_refusal part path.now) fault
            self.old.tree self.new.tree (never_strayed (D.failures self.old.folder)) (never_strayed (D.failures self.new.folder))) }
        // Witness of mirrors: `a_directory_is_made_in_the_tree_alone.edit`, `a_file_is_deleted_in_the_tree_alone.edit`,
        // `a_folder_moves_onto_a_file_as_if_none_stood_there.edit`.
        ensures mirrors { Mirrors (D.kept self.old.folder) self.old.tree → Mirrors (D.kept self.new.folder) self.new.tree }
    {
        if let Some(fault) = self.tree.make_refusal(root, path) {
            return Err(fault);
        }
        if self.tree.make_place(root, path).is_err() {
            return Err(TreeFault::Memory);
        }
        if self.folder.make_dir(root, path).is_err() {
            self.tree.take_away(root, path);
            return Err(TreeFault::Device);
        }
        Ok(())
    }

    fn remove_dir<B: Allocator + Copy, C: Allocator + Copy>(
        &mut self,
        root: &Path<B>,
        path: &Path<C>,
    ) -> Result<(), TreeFault>
        // Witness of done: as of `make_dir`.
        ensures done { OnOk result (let part = under self.old.tree root.now in IsDone (remove_refusal part path.now)
            (with_part self.old.tree root.now (removed part path.now)) self.new.tree (never_strayed (D.failures self.old.folder)) (never_strayed (D.failures self.new.folder))) }
        ensures refused { IfErr result (λ fault. let part = under self.old.tree root.now in IsRefused (remove_refusal part path.now) fault
            self.old.tree self.new.tree (never_strayed (D.failures self.old.folder)) (never_strayed (D.failures self.new.folder))) }
        // Witness of mirrors: as of `make_dir`.
        ensures mirrors { Mirrors (D.kept self.old.folder) self.old.tree → Mirrors (D.kept self.new.folder) self.new.tree }
    {
        if let Some(fault) = self.tree.remove_refusal(root, path) {
            return Err(fault);
        }
        if self.folder.remove_dir(root, path).is_err() {
            return Err(TreeFault::Device);
        }
        self.tree.take_away(root, path);
        Ok(())
    }

    fn delete<B: Allocator + Copy, C: Allocator + Copy>(
        &mut self,
        root: &Path<B>,
        path: &Path<C>,
    ) -> Result<(), TreeFault>
        // Witness of done: as of `make_dir`.
        ensures done { OnOk result (let part = under self.old.tree root.now in IsDone (delete_refusal part path.now)
            (with_part self.old.tree root.now (removed part path.now)) self.new.tree (never_strayed (D.failures self.old.folder)) (never_strayed (D.failures self.new.folder))) }
        ensures refused { IfErr result (λ fault. let part = under self.old.tree root.now in IsRefused (delete_refusal part path.now) fault
            self.old.tree self.new.tree (never_strayed (D.failures self.old.folder)) (never_strayed (D.failures self.new.folder))) }
        // Witness of mirrors: as of `make_dir`.
        ensures mirrors { Mirrors (D.kept self.old.folder) self.old.tree → Mirrors (D.kept self.new.folder) self.new.tree }
    {
        if let Some(fault) = self.tree.delete_refusal(root, path) {
            return Err(fault);
        }
        if self.folder.delete(root, path).is_err() {
            return Err(TreeFault::Device);
        }
        self.tree.take_away(root, path);
        Ok(())
    }

    fn rename<B: Allocator + Copy, C: Allocator + Copy, E: Allocator + Copy>(
        &mut self,
        root: &Path<B>,
        from: &Path<C>,
        to: &Path<E>,
    ) -> Result<(), TreeFault>
        // Witness of done: as of `make_dir`.
        ensures done { OnOk result (let part = under self.old.tree root.now in IsDone (rename_refusal part from.now to.now)
            (with_part self.old.tree root.now (moved part from.now to.now)) self.new.tree (never_strayed (D.failures self.old.folder)) (never_strayed (D.failures self.new.folder))) }
        ensures refused { IfErr result (λ fault. let part = under self.old.tree root.now in IsRefused (rename_refusal part from.now to.now) fault
            self.old.tree self.new.tree (never_strayed (D.failures self.old.folder)) (never_strayed (D.failures self.new.folder))) }
        // Witness of mirrors: as of `make_dir`.
        ensures mirrors { Mirrors (D.kept self.old.folder) self.old.tree → Mirrors (D.kept self.new.folder) self.new.tree }
    {
        if let Some(fault) = self.tree.rename_refusal(root, from, to) {
            return Err(fault);
        }
        if self.tree.make_place(root, to).is_err() {
            return Err(TreeFault::Memory);
        }
        if self.folder.rename(root, from, to).is_err() {
            self.tree.take_away(root, to);
            return Err(TreeFault::Device);
        }
        self.tree.move_over(root, from, to);
        Ok(())
    }

    fn rename_onto<B: Allocator + Copy, C: Allocator + Copy, E: Allocator + Copy>(
        &mut self,
        root: &Path<B>,
        from: &Path<C>,
        to: &Path<E>,
    ) -> Result<(), TreeFault>
        // Witness of done: as of `make_dir`.
        ensures done { OnOk result (let part = under self.old.tree root.now in IsDone (onto_refusal part from.now to.now)
            (with_part self.old.tree root.now (moved (freed true part from.now to.now) from.now to.now)) self.new.tree
            (never_strayed (D.failures self.old.folder)) (never_strayed (D.failures self.new.folder))) }
        ensures refused { IfErr result (λ fault. let part = under self.old.tree root.now in IsRefused (onto_refusal part from.now to.now) fault
            self.old.tree self.new.tree (never_strayed (D.failures self.old.folder)) (never_strayed (D.failures self.new.folder))) }
        ensures sound { IsSoundTree self.old.tree }
        // Witness of mirrors: as of `make_dir`.
        ensures mirrors { Mirrors (D.kept self.old.folder) self.old.tree → Mirrors (D.kept self.new.folder) self.new.tree }
    {
        if let Some(fault) = self.tree.onto_refusal(root, from, to) {
            return Err(fault);
        }
        if self.folder.rename_onto(root, from, to).is_err() {
            return Err(TreeFault::Device);
        }
        self.tree.move_onto(root, from, to);
        Ok(())
    }

    fn begin<B: Allocator + Copy, C: Allocator + Copy>(
        &mut self,
        _root: &Path<B>,
        _path: &Path<C>,
        _keep: u64,
    ) -> Result<Content<A>, TreeFault> {
        Ok(Content::new(self.tree.alloc))
    }

    fn put<B: Allocator + Copy, C: Allocator + Copy>(
        &mut self,
        root: &Path<B>,
        path: &Path<C>,
        keep: u64,
        came: Content<A>,
        moment: Moment,
    ) -> Result<(), TreeFault>
        ensures done { OnOk result (let part = under self.old.tree root.now in let octets = take keep (octets_or_none part path.now) ++ came in IsDone (install_refusal part path.now (length octets))
            (with_part self.old.tree root.now (installed part path.now octets moment.seconds)) self.new.tree (never_strayed (D.failures self.old.folder)) (never_strayed (D.failures self.new.folder))) }
        ensures refused { IfErr result (λ fault. let part = under self.old.tree root.now in let octets = take keep (octets_or_none part path.now) ++ came in IsRefused (install_refusal part path.now (length octets)) fault
            self.old.tree self.new.tree (never_strayed (D.failures self.old.folder)) (never_strayed (D.failures self.new.folder))) }
        ensures told { Tells result (never_strayed (D.failures self.old.folder)) (never_strayed (D.failures self.new.folder)) }
        // Witness of mirrors: as of `make_dir`.
        ensures mirrors { Mirrors (D.kept self.old.folder) self.old.tree → Mirrors (D.kept self.new.folder) self.new.tree }
        // Witness of spares: `what_came_into_the_folder_meanwhile_is_replaced.edit`.
        ensures spares { OnOk result (SparesUnknown self.old.tree (D.kept self.old.folder) root.now path.now) }
    {
        if let Some(fault) = self.tree.put_refusal(root, path, keep, &came) {
            return Err(fault);
        }
        let Ok(mut whole) = self.tree.behind_kept(root, path, keep, came) else {
            return Err(TreeFault::Memory);
        };
        self.put_file(root, path, &mut whole, moment)
    }
}

impl<A: Allocator + Copy, D: Folder> SureTree<A> for Mirror<A, D> {
    ghost use Rattle.std.specs.Prelude.{refl};

    ghost never = { λ mirror. refl };
}

impl<A: Allocator + Copy, D: Folder> HeldTree<A> for Mirror<A, D> {
    fn piece<B: Allocator + Copy, C: Allocator + Copy>(
        &self,
        root: &Path<B>,
        path: &Path<C>,
        at: u64,
        max: usize,
    ) -> &[u8] {
        self.tree.piece(root, path, at, max)
    }

    fn install<B: Allocator + Copy, C: Allocator + Copy>(
        &mut self,
        root: &Path<B>,
        path: &Path<C>,
        content: &mut Content<A>,
        moment: Moment,
    ) -> Result<(), TreeFault>
        // Witness of done, refused: as of `install`.
        ensures done { OnOk result (let part = under self.old.tree root.now in IsDone (install_refusal part path.now (length content.old))
            (with_part self.old.tree root.now (installed part path.now content.old moment.seconds)) self.new.tree (never_strayed (D.failures self.old.folder)) (never_strayed (D.failures self.new.folder))) }
        ensures refused { IfErr result (λ fault. let part = under self.old.tree root.now in IsRefused (install_refusal part path.now (length content.old)) fault
            self.old.tree self.new.tree (never_strayed (D.failures self.old.folder)) (never_strayed (D.failures self.new.folder))) }
        // Witness of taken, back: as of `install`.
        ensures taken { OnOk result (content.new ≡ []) }
        ensures back { OnErr result (content.new ≡ content.old) }
        // Witness of mirrors: as of `make_dir`.
        ensures mirrors { Mirrors (D.kept self.old.folder) self.old.tree → Mirrors (D.kept self.new.folder) self.new.tree }
        // Witness of spares: `what_came_into_the_folder_meanwhile_is_replaced.edit`.
        ensures spares { OnOk result (SparesUnknown self.old.tree (D.kept self.old.folder) root.now path.now) }
    {
        if let Some(fault) = self.tree.install_refusal(root, path, content.len()) {
            return Err(fault);
        }
        self.put_file(root, path, content, moment)
    }
}

impl<A: Allocator + Copy, D: Folder> Mirror<A, D> {
    /// Puts a file where no refusal applies: all memory is had first, with what lets its octets be shared.
    fn put_file<B: Allocator + Copy, C: Allocator + Copy>(
        &mut self,
        root: &Path<B>,
        path: &Path<C>,
        content: &mut Content<A>,
        moment: Moment,
    ) -> Result<(), TreeFault>
        requires { install_refusal (under self.old.tree root.now) path.now (length content.old) ≡ None }
        ensures done { OnOk result (IsDone None (with_part self.old.tree root.now (installed (under self.old.tree root.now) path.now content.old moment.seconds))
            self.new.tree (never_strayed (D.failures self.old.folder)) (never_strayed (D.failures self.new.folder))) }
        ensures refused { IfErr result (λ fault. IsRefused None fault self.old.tree self.new.tree (never_strayed (D.failures self.old.folder)) (never_strayed (D.failures self.new.folder))) }
        ensures taken { OnOk result (content.new ≡ []) }
        ensures back { OnErr result (content.new ≡ content.old) }
        ensures mirrors { Mirrors (D.kept self.old.folder) self.old.tree → Mirrors (D.kept self.new.folder) self.new.tree }
        ensures spares { OnOk result (SparesUnknown self.old.tree (D.kept self.old.folder) root.now path.now) }
    {
        let alloc = self.tree.alloc;
        if content.settle(alloc).is_err() {
            return Err(TreeFault::Memory);
        }
        match self.put_settled(root, path, content, moment) {
            Ok(()) => Ok(()),
            Err(fault) => {
                content.unsettle(alloc);
                Err(fault)
            }
        }
    }

    /// The same, of octets that can be shared.
    fn put_settled<B: Allocator + Copy, C: Allocator + Copy>(
        &mut self,
        root: &Path<B>,
        path: &Path<C>,
        content: &mut Content<A>,
        moment: Moment,
    ) -> Result<(), TreeFault>
        requires { install_refusal (under self.old.tree root.now) path.now (length content.old) ≡ None }
        ensures done { OnOk result (IsDone None (with_part self.old.tree root.now (installed (under self.old.tree root.now) path.now content.old moment.seconds))
            self.new.tree (never_strayed (D.failures self.old.folder)) (never_strayed (D.failures self.new.folder))) }
        ensures refused { IfErr result (λ fault. IsRefused None fault self.old.tree self.new.tree (never_strayed (D.failures self.old.folder)) (never_strayed (D.failures self.new.folder))) }
        ensures taken { OnOk result (content.new ≡ []) }
        ensures back { OnErr result (content.new ≡ content.old) }
        ensures mirrors { Mirrors (D.kept self.old.folder) self.old.tree → Mirrors (D.kept self.new.folder) self.new.tree }
        ensures spares { OnOk result (SparesUnknown self.old.tree (D.kept self.old.folder) root.now path.now) }
    {
        if self.tree.kind(root, path).is_some() {
            return put_over(
                &mut self.tree,
                &mut self.folder,
                root,
                path,
                content,
                moment,
            );
        }
        if self.tree.make_place(root, path).is_err() {
            return Err(TreeFault::Memory);
        }
        if let Err(fault) = put_new(
            &mut self.tree,
            &mut self.folder,
            root,
            path,
            content,
            moment,
        ) {
            self.tree.take_away(root, path);
            return Err(fault);
        }
        Ok(())
    }
}

/// Writes a file to the folder over what stands there, and then puts it in the place of what stands in the tree.
fn put_over<A: Allocator + Copy, B: Allocator + Copy, C: Allocator + Copy, D: Folder>(
    tree: &mut MemTree<A>,
    folder: &mut D,
    root: &Path<B>,
    path: &Path<C>,
    content: &mut Content<A>,
    moment: Moment,
) -> Result<(), TreeFault>
    requires { let part = under tree.old root.now in (delete_refusal part path.now ≡ None) ⊎ (remove_refusal part path.now ≡ None) }
    ensures tree { OnOk result (tree.new ≡ with_part tree.old root.now (installed (under tree.old root.now) path.now content.old moment.seconds)) }
    ensures taken { OnOk result (content.new ≡ []) }
    ensures kept { OnOk result (IsKept (changed_below root.now (λ part. installed part path.now content.old moment.seconds)) (D.kept folder.old) (D.kept folder.new) (D.failures folder.old) (D.failures folder.new)) }
    ensures same { OnErr result ((tree.new ≡ tree.old) × (content.new ≡ content.old) × (D.kept folder.new ≡ D.kept folder.old)) }
    ensures fault { IfErr result (λ fault. Refuses None fault (never_strayed (D.failures folder.old)) (never_strayed (D.failures folder.new))) }
{
    if !tree.can_count(content.len()) {
        return Err(TreeFault::Memory);
    }
    if folder.write(root, path, content, moment).is_err() {
        return Err(TreeFault::Device);
    }
    tree.put_over(root, path, content, moment);
    Ok(())
}

/// Writes a file to the folder where nothing stands, and then puts it in the place that was made for it in the tree.
fn put_new<A: Allocator + Copy, B: Allocator + Copy, C: Allocator + Copy, D: Folder>(
    tree: &mut MemTree<A>,
    folder: &mut D,
    root: &Path<B>,
    path: &Path<C>,
    content: &mut Content<A>,
    moment: Moment,
) -> Result<(), TreeFault>
    requires { let part = under tree.old root.now in (delete_refusal part path.now ≡ None) ⊎ (remove_refusal part path.now ≡ None) }
    ensures tree { OnOk result (tree.new ≡ with_part tree.old root.now (installed (under tree.old root.now) path.now content.old moment.seconds)) }
    ensures taken { OnOk result (content.new ≡ []) }
    ensures kept { OnOk result (IsKept (changed_below root.now (λ part. installed part path.now content.old moment.seconds)) (D.kept folder.old) (D.kept folder.new) (D.failures folder.old) (D.failures folder.new)) }
    ensures free { OnOk result (IsPathFree (D.kept folder.old) root.now path.now) }
    ensures same { OnErr result ((tree.new ≡ tree.old) × (content.new ≡ content.old) × (D.kept folder.new ≡ D.kept folder.old)) }
    ensures fault { IfErr result (λ fault. Refuses None fault (never_strayed (D.failures folder.old)) (never_strayed (D.failures folder.new))) }
{
    if !tree.can_count(content.len()) {
        return Err(TreeFault::Memory);
    }
    if folder.write_new(root, path, content, moment).is_err() {
        return Err(TreeFault::Device);
    }
    tree.put_over(root, path, content, moment);
    Ok(())
}
