// The tree of a disk.
ghost use Rattle.std.specs.Prelude.{◌≡◌, [], ◌≤◌, ◌<◌, ◌+◌, ◌++◌, IfErr, IfOk, None, OnErr, OnOk, drop, false, length, take, true};
ghost use Rattle.ftp_tree.specs.Change.{IsDone, IsRefused, IsSteady, NoStray, Tells, TellsOne, never_strayed, next_count};
ghost use Rattle.ftp_tree.specs.Sound.{IsSoundTree};
ghost use Rattle.ftp_tree.specs.Tree.{delete_refusal, freed, install_refusal, installed, made, make_refusal, moved, node_at};
ghost use Rattle.ftp_tree.specs.Tree.{octets_or_none, onto_refusal, remove_refusal, removed, rename_refusal, under, with_part};
ghost use Rattle.ftp_disk_tree.specs.Asked.{asked, asked_move, place_of};
ghost use Rattle.ftp_disk_tree.specs.declared.answer.Answer.{Answer};
ghost use Rattle.ftp_disk_tree.specs.Note.{taken};
ghost use Rattle.ftp_disk_tree.specs.Put.{IsPut};
ghost use Rattle.ftp_disk_tree.specs.Since.{IsThing, StraysSince};
ghost use Rattle.ftp_disk_tree.specs.Stray.{strays_between, strays_found};
ghost use Rattle.ftp_disk_scan.specs.loading.Held.{fit};

use crate::changing::{
    begin_at, delete_at, make_at, open_at, remove_at, rename_at, rename_onto_at,
};
use crate::device::Device;
use crate::draft::DiskDraft;
use crate::left::Left;
use crate::opened::DiskOpen;
use crate::record::Record;
use crate::thing::thing_at;
use ftp_disk_host::Host;
use ftp_disk_scan::{Compared, Dirs, Findings, Held, LeftOut, Version, look_at, take_up};
use ftp_facts::Moment;
use ftp_path::{Name, Path};
use ftp_tree::{Broken, DirEntries, Draft, Limits, NodeKind, Sight, Tree, TreeFault};
use ftp_tree_nodes::Nodes;
use std::alloc::{AllocError, Allocator, Global};
use std::io;

/// Who else changes the folder of a tree.
#[derive(Clone, Copy, Debug, PartialEq, Eq)]
pub enum Others {
    /// Others change it too, so that a look finds what they did.
    Change,
    /// Nobody else changes it: a look does nothing.
    Keep,
}

/// A tree of which names, sizes and moments are in memory, and octets on a disk. All that a change needs of memory is had first, then the disk is
/// changed, and then the names are, which can't fail.
pub struct DiskTree<'a, H: Host, K: Held> {
    pub(crate) device: Device<'a, H, K>,
    pub(crate) nodes: Nodes<Global, Version<K>>,
    pub(crate) dirs: Dirs,
    pub(crate) others: Others,
    /// The number of the last version.
    pub(crate) version: u64,
    pub(crate) left: Left,
    /// What the last look compared, if it came to an end.
    pub(crate) compared: Compared,
    /// What the host was asked of names, and did.
    pub(crate) names: Record,
}

/// By hand: a derived drop is proved again wherever a tree is let go, and what is generic over it is compiled again.
impl<'a, H: Host, K: Held> Drop for DiskTree<'a, H, K> {
    fn drop(self) {
        let Self {
            device: _,
            nodes: _,
            dirs: _,
            others: _,
            version: _,
            left: _,
            compared: _,
            names: _,
        } = self;
    }
}

/// A tree that tells why a call on its device failed, and what a look left out.
pub trait Explains {
    /// Why the last call that failed did, once.
    fn reason(&self) -> Option<io::Error>;

    /// What others brought and a look left out for a limit, once.
    fn left_out(&self) -> Option<&LeftOut>;
}

impl<'a, H: Host, K: Held> Explains for DiskTree<'a, H, K> {
    fn reason(&self) -> Option<io::Error> {
        self.device.host().reason()
    }

    fn left_out(&self) -> Option<&LeftOut> {
        if self.left.is_new.replace(false) {
            Some(&self.left.last)
        } else {
            None
        }
    }
}

impl<'a, H: Host, K: Held> DiskTree<'a, H, K> {
    /// A tree of what was found on a disk; `version` is the number of the last version among it.
    pub(crate) fn over(
        host: &'a H,
        nodes: Nodes<Global, Version<K>>,
        dirs: Dirs,
        others: Others,
        version: u64,
    ) -> DiskTree<'a, H, K>
        ensures nodes { result.nodes ≡ nodes }
        ensures device { result.device ≡ never_strayed 0 }
    {
        DiskTree {
            device: Device::new(host),
            nodes,
            dirs,
            others,
            version,
            left: Left::nothing(),
            compared: Compared::none(),
            names: Record::new(),
        }
    }

    /// How much it may hold.
    pub fn limits(&self) -> Limits
        ensures { result ≡ self.now.nodes.limits }
    {
        self.nodes.limits()
    }

    /// Looks, and takes up what it finds. What is found is a stray before it is. Whether another thing stands at the path then: a file is told from
    /// another by device, inode, length and moment.
    fn look_again<B: Allocator + Copy, C: Allocator + Copy>(
        &mut self,
        root: &Path<B>,
        path: &Path<C>,
        sight: Sight,
    ) -> io::Result<bool>
        ensures same { NoStray self.old.device self.new.device → self.new.nodes ≡ self.old.nodes }
        ensures changed { NoStray self.old.device self.new.device → IfOk result (λ is_changed. is_changed ≡ false) }
        ensures steady { IsSteady self.old.device self.new.device }
        ensures strays { self.new.device.strays ≡ self.old.device.strays + strays_found self.new.compared.pairs }
    {
        self.compared = Compared::none();
        let host = self.device.host();
        let findings = look_at(host, &self.nodes, &mut self.dirs, root, path, sight)?;
        self.compared.adopt(findings.compared());
        if findings.is_empty() {
            return Ok(false);
        }
        let stood = thing_at(&self.nodes, root, path);
        self.take(findings)?;
        Ok(!stood.is_same(thing_at(&self.nodes, root, path)))
    }

    /// Takes up what a look found, which is a stray.
    fn take(&mut self, findings: Findings) -> io::Result<()>
        ensures strays { self.new.device.strays ≡ self.old.device.strays + 1 }
        ensures told { self.new.device.told ≡ self.old.device.told }
        ensures compared { self.new.compared ≡ self.old.compared }
    {
        self.device.changed();
        let (taken, left) = take_up(
            self.device.host(),
            &mut self.nodes,
            &mut self.dirs,
            &mut self.version,
            findings,
        );
        self.left.see(left);
        taken
    }
}

impl<'a, H: Host, K: Held> Tree<Global> for DiskTree<'a, H, K> {
    type Open = DiskOpen<H>;

    type Draft = DiskDraft<'a, H>;

    ghost table = { λ tree. tree.nodes };

    ghost failures = { λ tree. tree.device };

    ghost opened = { λ file. fit file.len (K.holds file.version) };

    #[tactic(auto, using(crate::proofs::StrayLemmas::nothing_found, crate::proofs::StrayLemmas::found_once))]
    fn look<B: Allocator + Copy, C: Allocator + Copy>(
        &mut self,
        root: &Path<B>,
        path: &Path<C>,
        sight: Sight,
    ) -> Result<bool, Broken>
        ensures same { NoStray self.old.device self.new.device → self.new.nodes ≡ self.old.nodes }
        ensures changed { NoStray self.old.device self.new.device → IfOk result (λ is_changed. is_changed ≡ false) }
        ensures steady { OnOk result (IsSteady self.old.device self.new.device) }
        ensures failed { OnErr result (TellsOne self.old.device self.new.device) }
        // Witness of strays, once, alone: `a_look_strays_twice`, `a_look_that_finds_nothing_strays`, `a_look_looks_where_nobody_else_changes`.
        ensures strays { self.new.device.strays ≡ self.old.device.strays + strays_found self.new.compared.pairs }
        ensures once { self.new.device.strays ≤ self.old.device.strays + 1 }
        ensures alone { self.old.others ≡ Others.Keep → (self.new.nodes ≡ self.old.nodes) × (self.new.device ≡ self.old.device) }
    {
        if let Others::Keep = self.others {
            self.compared = Compared::none();
            return Ok(false);
        }
        match self.look_again(root, path, sight) {
            Ok(is_changed) => Ok(is_changed),
            Err(error) => {
                self.device.fail(error);
                Err(Broken)
            }
        }
    }

    fn look_since<B: Allocator + Copy, C: Allocator + Copy>(
        &mut self,
        root: &Path<B>,
        path: &Path<C>,
        draft: &DiskDraft<'a, H>,
    ) -> Result<bool, Broken>
        ensures same { NoStray self.old.device self.new.device → self.new.nodes ≡ self.old.nodes }
        ensures changed { NoStray self.old.device self.new.device → IfOk result (λ is_changed. is_changed ≡ false) }
        ensures steady { OnOk result (IsSteady self.old.device self.new.device) }
        ensures failed { OnErr result (TellsOne self.old.device self.new.device) }
        // Witness of since: `edits/a_look_since_strays_at_will`.
        ensures since { OnOk result (StraysSince K.holds draft.now.stood (node_at (under self.new.nodes root.now) path.now)
            (self.old.device.strays + strays_found self.new.compared.pairs) self.new.device.strays) }
    {
        self.look(root, path, Sight::Path)?;
        let is_same = draft.stood.is_same(thing_at(&self.nodes, root, path));
        if !is_same {
            self.device.changed();
        }
        Ok(!is_same)
    }

    fn kind<B: Allocator + Copy, C: Allocator + Copy>(
        &self,
        root: &Path<B>,
        path: &Path<C>,
    ) -> Option<NodeKind> {
        self.nodes.kind(root, path)
    }

    fn size<B: Allocator + Copy, C: Allocator + Copy>(
        &self,
        root: &Path<B>,
        path: &Path<C>,
    ) -> Option<u64> {
        self.nodes.size(root, path)
    }

    fn stamp<B: Allocator + Copy, C: Allocator + Copy>(
        &self,
        root: &Path<B>,
        path: &Path<C>,
    ) -> Option<Moment> {
        self.nodes.stamp(root, path)
    }

    fn open<B: Allocator + Copy, C: Allocator + Copy>(
        &mut self,
        root: &Path<B>,
        path: &Path<C>,
    ) -> Result<DiskOpen<H>, TreeFault> {
        let (number, look) = match self.nodes.file(root, path) {
            Ok(version) => (version.number, version.look),
            Err(fault) => return Err(fault),
        };
        match open_at(self.device.host(), root, path, look) {
            Ok(file) => Ok(DiskOpen {
                file,
                version: number,
                len: look.len,
            }),
            Err(error) => {
                self.device.fail(error);
                Err(TreeFault::Device)
            }
        }
    }

    #[tactic(auto, using(ftp_disk_scan::proofs::loading::HeldLemmas::length_fit))]
    fn open_len(file: &DiskOpen<H>) -> u64 {
        file.len
    }

    #[tactic(auto, using(ftp_disk_scan::proofs::loading::HeldLemmas::length_fit))]
    fn read(&mut self, file: &mut DiskOpen<H>, at: u64, room: &mut [u8]) -> Result<usize, Broken>
        ensures octets { NoStray self.old.device self.new.device →
            IfOk result (λ count. take count room.new ≡ take count (drop at (fit file.old.len (K.holds file.old.version)))) }
        ensures most { IfOk result (λ count. (count ≤ length room.old) × (count ≤ length (drop at (fit file.old.len (K.holds file.old.version))))) }
        ensures some { IfOk result (λ count. 0 < length room.old → at < length (fit file.old.len (K.holds file.old.version)) → 0 < count) }
        ensures file { fit file.new.len (K.holds file.new.version) ≡ fit file.old.len (K.holds file.old.version) }
        ensures table { self.new.nodes ≡ self.old.nodes }
        ensures steady { OnOk result (IsSteady self.old.device self.new.device) }
        ensures failed { OnErr result (TellsOne self.old.device self.new.device) }
        ensures strays { IfOk result (λ count. self.new.device.strays ≡ self.old.device.strays
            + strays_between (take count (drop at (fit file.old.len (K.holds file.old.version)))) (take count room.new)) }
    {
        let left = file.len.saturating_sub(at) as usize;
        let want = left.min(room.len());
        if want == 0 {
            return Ok(0);
        }
        let (front, _) = room.split_at_mut(want);
        self.device.read(file, at, front)
    }

    fn nth_name<B: Allocator + Copy, C: Allocator + Copy>(
        &self,
        root: &Path<B>,
        path: &Path<C>,
        place: usize,
    ) -> Option<Name<'_>> {
        self.nodes.nth_name(root, path, place)
    }

    fn entries<B: Allocator + Copy, C: Allocator + Copy>(
        &self,
        root: &Path<B>,
        path: &Path<C>,
    ) -> Result<DirEntries<Global>, AllocError> {
        self.nodes.entries(root, path)
    }

    fn room<B: Allocator + Copy, C: Allocator + Copy>(
        &self,
        root: &Path<B>,
        path: &Path<C>,
    ) -> Result<u64, TreeFault> {
        self.nodes.room(root, path)
    }

    fn most<B: Allocator + Copy, C: Allocator + Copy>(
        &self,
        root: &Path<B>,
        path: &Path<C>,
    ) -> u64 {
        self.nodes.most(root, path)
    }

    fn device_failures(&self) -> u64 {
        self.device.told()
    }

    fn fits<B: Allocator + Copy>(&self, root: &Path<B>) -> bool {
        self.nodes.fits(root)
    }

    fn make_dir<B: Allocator + Copy, C: Allocator + Copy>(
        &mut self,
        root: &Path<B>,
        path: &Path<C>,
    ) -> Result<(), TreeFault>
        ensures done { OnOk result (let part = under self.old.nodes root.now in
            IsDone (make_refusal part path.now) (with_part self.old.nodes root.now (made part path.now)) self.new.nodes self.old.device self.new.device) }
        ensures refused { IfErr result (λ fault.
            IsRefused (make_refusal (under self.old.nodes root.now) path.now) fault self.old.nodes self.new.nodes self.old.device self.new.device) }
        // Witness of asked: `edits/a_directory_is_made_in_memory_alone`.
        ensures asked { OnOk result (self.new.names.events ≡ asked Answer.Made (place_of root.now path.now) self.old.names.events) }
        ensures unasked { OnErr result (self.new.names.events ≡ self.old.names.events) }
    {
        if let Some(fault) = self.nodes.make_refusal(root, path) {
            return Err(fault);
        }
        if self.nodes.make_place(root, path).is_err() {
            return Err(TreeFault::Memory);
        }
        if let Err(error) = make_at(
            self.device.host(),
            &mut self.dirs,
            &mut self.names,
            root,
            path,
        ) {
            self.nodes.take_away(root, path);
            self.device.fail(error);
            return Err(TreeFault::Device);
        }
        Ok(())
    }

    fn remove_dir<B: Allocator + Copy, C: Allocator + Copy>(
        &mut self,
        root: &Path<B>,
        path: &Path<C>,
    ) -> Result<(), TreeFault>
        ensures done { OnOk result (let part = under self.old.nodes root.now in
            IsDone (remove_refusal part path.now) (with_part self.old.nodes root.now (removed part path.now)) self.new.nodes self.old.device self.new.device) }
        ensures refused { IfErr result (λ fault.
            IsRefused (remove_refusal (under self.old.nodes root.now) path.now) fault self.old.nodes self.new.nodes self.old.device self.new.device) }
        // Witness of asked: `edits/a_directory_is_removed_in_memory_alone`.
        ensures asked { OnOk result (self.new.names.events ≡ asked Answer.Emptied (place_of root.now path.now) self.old.names.events) }
        ensures unasked { OnErr result (self.new.names.events ≡ self.old.names.events) }
    {
        if let Some(fault) = self.nodes.remove_refusal(root, path) {
            return Err(fault);
        }
        if let Err(error) = remove_at(
            self.device.host(),
            &mut self.dirs,
            &mut self.names,
            root,
            path,
        ) {
            self.device.fail(error);
            return Err(TreeFault::Device);
        }
        self.nodes.take_away(root, path);
        Ok(())
    }

    fn delete<B: Allocator + Copy, C: Allocator + Copy>(
        &mut self,
        root: &Path<B>,
        path: &Path<C>,
    ) -> Result<(), TreeFault>
        ensures done { OnOk result (let part = under self.old.nodes root.now in
            IsDone (delete_refusal part path.now) (with_part self.old.nodes root.now (removed part path.now)) self.new.nodes self.old.device self.new.device) }
        ensures refused { IfErr result (λ fault.
            IsRefused (delete_refusal (under self.old.nodes root.now) path.now) fault self.old.nodes self.new.nodes self.old.device self.new.device) }
        // Witness of asked: `edits/a_file_is_deleted_in_memory_alone`.
        ensures asked { OnOk result (self.new.names.events ≡ asked Answer.Removed (place_of root.now path.now) self.old.names.events) }
        ensures unasked { OnErr result (self.new.names.events ≡ self.old.names.events) }
    {
        if let Some(fault) = self.nodes.delete_refusal(root, path) {
            return Err(fault);
        }
        if let Err(error) = delete_at(
            self.device.host(),
            &mut self.dirs,
            &mut self.names,
            root,
            path,
        ) {
            self.device.fail(error);
            return Err(TreeFault::Device);
        }
        self.nodes.take_away(root, path);
        Ok(())
    }

    fn rename<B: Allocator + Copy, C: Allocator + Copy, D: Allocator + Copy>(
        &mut self,
        root: &Path<B>,
        from: &Path<C>,
        to: &Path<D>,
    ) -> Result<(), TreeFault>
        ensures done { OnOk result (let part = under self.old.nodes root.now in
            IsDone (rename_refusal part from.now to.now) (with_part self.old.nodes root.now (moved part from.now to.now))
            self.new.nodes self.old.device self.new.device) }
        ensures refused { IfErr result (λ fault.
            IsRefused (rename_refusal (under self.old.nodes root.now) from.now to.now) fault self.old.nodes self.new.nodes self.old.device self.new.device) }
        // Witness of asked: `edits/a_move_is_made_in_memory_alone`.
        ensures asked { OnOk result (self.new.names.events ≡
            asked_move Answer.Came (place_of root.now from.now) (place_of root.now to.now) self.old.names.events) }
        ensures unasked { OnErr result (self.new.names.events ≡ self.old.names.events) }
    {
        if let Some(fault) = self.nodes.rename_refusal(root, from, to) {
            return Err(fault);
        }
        if self.nodes.make_place(root, to).is_err() {
            return Err(TreeFault::Memory);
        }
        if let Err(error) = rename_at(
            self.device.host(),
            &mut self.dirs,
            &mut self.names,
            root,
            from,
            to,
        ) {
            self.nodes.take_away(root, to);
            self.device.fail(error);
            return Err(TreeFault::Device);
        }
        self.nodes.move_over(root, from, to);
        Ok(())
    }

    fn rename_onto<B: Allocator + Copy, C: Allocator + Copy, D: Allocator + Copy>(
        &mut self,
        root: &Path<B>,
        from: &Path<C>,
        to: &Path<D>,
    ) -> Result<(), TreeFault>
        ensures done { OnOk result (let part = under self.old.nodes root.now in
            IsDone (onto_refusal part from.now to.now) (with_part self.old.nodes root.now (moved (freed true part from.now to.now) from.now to.now))
            self.new.nodes self.old.device self.new.device) }
        ensures refused { IfErr result (λ fault.
            IsRefused (onto_refusal (under self.old.nodes root.now) from.now to.now) fault self.old.nodes self.new.nodes self.old.device self.new.device) }
        ensures sound { IsSoundTree self.old.nodes }
        // Witness of asked: `edits/a_file_moves_onto_another_in_memory_alone`.
        ensures asked { OnOk result (self.new.names.events ≡
            asked_move Answer.CameOver (place_of root.now from.now) (place_of root.now to.now) self.old.names.events) }
        ensures unasked { OnErr result (self.new.names.events ≡ self.old.names.events) }
    {
        if let Some(fault) = self.nodes.onto_refusal(root, from, to) {
            return Err(fault);
        }
        if let Err(error) = rename_onto_at(
            self.device.host(),
            &mut self.dirs,
            &mut self.names,
            root,
            from,
            to,
        ) {
            self.device.fail(error);
            return Err(TreeFault::Device);
        }
        self.nodes.move_onto(root, from, to);
        Ok(())
    }

    fn begin<B: Allocator + Copy, C: Allocator + Copy>(
        &mut self,
        root: &Path<B>,
        path: &Path<C>,
        keep: u64,
    ) -> Result<DiskDraft<'a, H>, TreeFault>
        ensures none { IfOk result (λ draft. taken draft.written.events ≡ []) }
        ensures done { OnOk result ((self.new.nodes ≡ self.old.nodes) × (self.new.device ≡ self.old.device)) }
        ensures refused { IfErr result (λ fault. IsRefused None fault self.old.nodes self.new.nodes self.old.device self.new.device) }
        // Witness of stood: `look_since` compares with it.
        ensures stood { IfOk result (λ draft. IsThing K.holds draft.stood (node_at (under self.old.nodes root.now) path.now)) }
    {
        let host = self.device.host();
        let stood = thing_at(&self.nodes, root, path);
        match begin_at(host, root, path, self.old_file(root, path, keep)) {
            Ok(part) => Ok(DiskDraft::new(host, part, stood)),
            Err(error) => {
                self.device.fail(error);
                Err(TreeFault::Device)
            }
        }
    }

    fn put<B: Allocator + Copy, C: Allocator + Copy>(
        &mut self,
        root: &Path<B>,
        path: &Path<C>,
        keep: u64,
        came: DiskDraft<'a, H>,
        moment: Moment,
    ) -> Result<(), TreeFault>
        ensures done { NoStray self.old.device self.new.device → OnOk result (let part = under self.old.nodes root.now in
            let octets = take keep (octets_or_none part path.now) ++ taken came.entry.written.events in
            IsDone (install_refusal part path.now (length octets)) (with_part self.old.nodes root.now (installed part path.now octets moment.seconds))
            self.new.nodes self.old.device self.new.device) }
        ensures refused { NoStray self.old.device self.new.device → IfErr result (λ fault. let part = under self.old.nodes root.now in
            let octets = take keep (octets_or_none part path.now) ++ taken came.entry.written.events in
            IsRefused (install_refusal part path.now (length octets)) fault self.old.nodes self.new.nodes self.old.device self.new.device) }
        ensures told { Tells result self.old.device self.new.device }
        // Witness of put: equations.
        ensures put { OnOk result (let part = under self.old.nodes root.now in
            let octets = take keep (octets_or_none part path.now) ++ taken came.entry.written.events in
            IsPut K.holds self.new.version self.old.nodes self.new.nodes root.now path.now octets moment.seconds self.old.device self.new.device) }
        ensures version { OnOk result (self.new.version ≡ next_count self.old.version) }
    {
        if let Some(fault) = self.nodes.put_refusal(root, path, keep, came.len()) {
            return Err(fault);
        }
        match self.old_file(root, path, keep) {
            Some(old) => self.put_at(root, path, Some(old.look), old.front, came, moment),
            None => self.put_new(root, path, came, moment),
        }
    }
}
