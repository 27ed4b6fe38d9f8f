// How an open file stands, beside its octets: enough to tell that others changed these.
ghost use Rattle.std.specs.Prelude.{◌≡◌, true, false};
ghost use Rattle.ftp_disk_host.specs.Standing.{KeepsOctets, TellsWhy};

use crate::host::Look;
use crate::place::look_of;
use std::fs::Metadata;
use std::os::unix::fs::MetadataExt;

/// How a file looks, whether the name by which it was opened leads to it, how many names it has, and who may do what with it.
#[derive(Clone, Copy, Debug, PartialEq, Eq)]
pub(crate) struct Standing {
    pub(crate) look: Look,
    pub(crate) is_named: bool,
    pub(crate) links: u64,
    pub(crate) mode: u32,
    pub(crate) owner: u32,
    pub(crate) group: u32,
}

impl Standing {
    /// How a file stands by what the system tells of it.
    pub(crate) fn of(found: &Metadata, is_named: bool) -> Standing {
        Standing {
            look: look_of(found),
            is_named,
            links: found.nlink(),
            mode: found.mode(),
            owner: found.uid(),
            group: found.gid(),
        }
    }

    /// Whether the octets of a file that stands so now are those that it had before, by what a system tells.
    pub(crate) fn keeps_octets(&self, now: &Standing) -> bool
        ensures kept { result ≡ true → KeepsOctets self.now now.now }
        ensures other { result ≡ false → ¬ (KeepsOctets self.now now.now) }
    {
        if now.look.len != self.look.len || now.look.modified != self.look.modified {
            return false;
        }
        if now.look.touched == self.look.touched {
            return true;
        }
        self.tells_why(now)
    }

    /// Whether a name that leads elsewhere, other names, permissions or another owner tell why the inode of a file was touched.
    fn tells_why(&self, now: &Standing) -> bool
        ensures told { result ≡ true → TellsWhy self.now now.now }
        ensures untold { result ≡ false → ¬ (TellsWhy self.now now.now) }
    {
        now.is_named != self.is_named
            || now.links != self.links
            || now.mode != self.mode
            || now.owner != self.owner
            || now.group != self.group
    }
}
