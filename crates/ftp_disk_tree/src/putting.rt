// How a draft becomes a file of the tree of a disk.
ghost use Rattle.std.specs.Prelude.{◌≡◌, ◌≤◌, ◌+◌, ◌⊎◌, ◌++◌, None, IfErr, OnErr, OnOk, length, take};
ghost use Rattle.std.specs.Option.{MatchOption};
ghost use Rattle.ftp_tree.specs.Change.{IsRefused, next_count, one_failure_more};
ghost use Rattle.ftp_tree.specs.Tree.{delete_refusal, install_refusal, node_at, octets_or_none, remove_refusal, under};
ghost use Rattle.ftp_disk_tree.specs.Note.{taken};
ghost use Rattle.ftp_disk_tree.specs.Put.{IsPut};
ghost use Rattle.ftp_disk_tree.specs.Stray.{strays_between, front_of};
ghost use Rattle.ftp_disk_scan.specs.loading.Held.{fit};

use crate::answer::{Front, Putting};
use crate::disk::DiskTree;
use crate::draft::DiskDraft;
use ftp_disk_host::{Host, Look};
use ftp_disk_scan::{Held, Version, below_of, parent_of};
use ftp_facts::Moment;
use ftp_path::Path;
use ftp_tree::{Broken, TreeFault};
use std::alloc::Allocator;

/// The file in whose place another is put: how it looked, and which octets of it are kept.
#[derive(Clone, Copy)]
pub(crate) struct Old {
    pub(crate) look: Look,
    pub(crate) front: Front,
}

impl<'a, H: Host, K: Held> DiskTree<'a, H, K> {
    /// The file at a path, of which `keep` octets are kept if it has so many.
    pub(crate) fn old_file<B: Allocator + Copy, C: Allocator + Copy>(
        &self,
        root: &Path<B>,
        path: &Path<C>,
        keep: u64,
    ) -> Option<Old>
        ensures { let part = under self.now.nodes root.now in MatchOption result (¬ (delete_refusal part path.now ≡ None))
            (λ old. (delete_refusal part path.now ≡ None) × (front_of K.holds old.front ≡ take keep (octets_or_none part path.now))
            × (old.front.count ≤ old.front.len)) }
    {
        match self.nodes.file(root, path) {
            Ok(version) => Some(Old {
                look: version.look,
                front: Front {
                    version: version.number,
                    len: version.look.len,
                    count: keep.min(version.look.len),
                },
            }),
            Err(_) => None,
        }
    }

    /// Puts a draft where nothing stands and no refusal applies.
    pub(crate) fn put_new<B: Allocator + Copy, C: Allocator + Copy>(
        &mut self,
        root: &Path<B>,
        path: &Path<C>,
        came: DiskDraft<'a, H>,
        moment: Moment,
    ) -> Result<(), TreeFault>
        requires free { install_refusal (under self.old.nodes root.now) path.now (length (taken came.written.events)) ≡ None }
        requires absent { node_at (under self.old.nodes root.now) path.now ≡ None }
        ensures put { OnOk result (IsPut K.holds self.new.version self.old.nodes self.new.nodes root.now path.now (taken came.entry.written.events)
            moment.seconds self.old.device self.new.device) }
        ensures version { OnOk result (self.new.version ≡ next_count self.old.version) }
        ensures refused { IfErr result (λ fault. IsRefused None fault self.old.nodes self.new.nodes self.old.device self.new.device) }
    {
        if self.nodes.make_place(root, path).is_err() {
            return Err(TreeFault::Memory);
        }
        if let Err(fault) = self.put_at(root, path, None, Front::NONE, came, moment) {
            self.nodes.take_away(root, path);
            return Err(fault);
        }
        Ok(())
    }

    /// Puts a draft in the place of a file or of an empty directory, after the front that is kept: over the file that looked so, or where the disk has
    /// nothing.
    pub(crate) fn put_at<B: Allocator + Copy, C: Allocator + Copy>(
        &mut self,
        root: &Path<B>,
        path: &Path<C>,
        over: Option<Look>,
        front: Front,
        mut came: DiskDraft<'a, H>,
        moment: Moment,
    ) -> Result<(), TreeFault>
        requires loose { let part = under self.old.nodes root.now in (delete_refusal part path.now ≡ None) ⊎ (remove_refusal part path.now ≡ None) }
        requires within { front.count ≤ front.len }
        ensures put { OnOk result (IsPut K.holds self.new.version self.old.nodes self.new.nodes root.now path.now
            (front_of K.holds front ++ taken came.entry.written.events) moment.seconds self.old.device self.new.device) }
        ensures version { OnOk result (self.new.version ≡ next_count self.old.version) }
        ensures refused { IfErr result (λ fault. IsRefused None fault self.old.nodes self.new.nodes self.old.device self.new.device) }
    {
        let Some(len) = front.count.checked_add(came.len) else {
            return Err(TreeFault::Memory);
        };
        if !self.nodes.can_count(len) {
            return Err(TreeFault::Memory);
        }
        self.version = self.version.wrapping_add(1);
        let putting = Putting {
            version: self.version,
            len,
            front,
        };
        let Ok(look) = self.put_part(root, path, over, &mut came, putting, moment) else {
            return Err(TreeFault::Device);
        };
        let content = Version::new(self.version, Look { len, ..look });
        self.nodes.put_over(root, path, content, moment);
        Ok(())
    }

    /// Gives a draft's part the name of a path, after which its directory is listed anew.
    fn put_part<B: Allocator + Copy, C: Allocator + Copy>(
        &mut self,
        root: &Path<B>,
        path: &Path<C>,
        over: Option<Look>,
        draft: &mut DiskDraft<'a, H>,
        putting: Putting,
        moment: Moment,
    ) -> Result<Look, Broken>
        ensures strays { OnOk result (self.new.device.strays ≡ self.old.device.strays
            + strays_between (fit putting.len (K.holds putting.version)) (front_of K.holds putting.front ++ taken draft.old.written.events)) }
        ensures told { OnOk result (self.new.device.told ≡ self.old.device.told) }
        ensures failed { OnErr result (self.new.device ≡ one_failure_more self.old.device) }
        ensures same { (self.new.nodes ≡ self.old.nodes) × (self.new.version ≡ self.old.version) }
    {
        let below = match below_of(self.device.host().memory(), root, path) {
            Ok(below) => below,
            Err(error) => {
                self.device.fail(error);
                return Err(Broken);
            }
        };
        let look = self
            .device
            .put(below.as_str(), over, draft, putting, moment)?;
        self.dirs.changed(parent_of(below.as_str()).as_bytes());
        Ok(look)
    }
}
