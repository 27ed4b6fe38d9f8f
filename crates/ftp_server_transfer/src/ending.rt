// What an upload keeps of the file that stands at its path, how many octets may come behind that, why what came can't be put there at its end,
// and what a call that a tree refuses is told as.
ghost use Rattle.std.specs.Prelude.{◌≡◌, ◌≤◌, ◌⊎◌, ◌+◌, ℕ, List, is_none, is_some, length, nat_le, not, take};
ghost use Rattle.std.specs.Option.{IfSome, option_map};
ghost use Rattle.ftp_tree.specs.Change.{Failures, next_count};
ghost use Rattle.ftp_server_model.specs.Keep.{is_overtaken, kept_count, kept_of, lacks, overtaken_keep};
ghost use Rattle.ftp_server_model.specs.Machine.{end_refusal};
ghost use Rattle.ftp_server_model.specs.View.{Session};
ghost use Rattle.ftp_server_model.specs.Walk.{refusal_text};
ghost use Rattle.ftp_server_replies.specs.Fault.{Counted};
ghost use Rattle.ftp_server_transfer.specs.Receiving.{Leaves};
ghost use Rattle.ftp_tree.specs.Tree.{octets_or_none, octets_refusal, under};

use ftp_direct::{len_at, may_put_at};
use ftp_operation::Rights;
use ftp_path::Path;
use ftp_server_model::{FixedReply, Keep};
use ftp_server_replies::{Fault, room_text};
use ftp_tree::Tree;
use std::alloc::Allocator;

/// How many octets the restart markers of an upload count before those that came.
pub(crate) fn kept_count(keep: Keep) -> u64
    ensures { result ≡ kept_count keep }
{
    match keep {
        Keep::First(count) | Keep::FirstOvertaken(count) => count,
        Keep::All(count) | Keep::AllOvertaken(count) => count,
    }
}

/// Whether others changed what stands at the path.
pub(crate) fn is_overtaken(keep: Keep) -> bool
    ensures { result ≡ is_overtaken keep }
{
    match keep {
        Keep::First(_) | Keep::All(_) => false,
        Keep::FirstOvertaken(_) | Keep::AllOvertaken(_) => true,
    }
}

/// The same once others changed that.
pub(crate) fn overtaken_keep(keep: Keep) -> Keep
    ensures { result ≡ overtaken_keep keep }
{
    match keep {
        Keep::First(count) | Keep::FirstOvertaken(count) => Keep::FirstOvertaken(count),
        Keep::All(count) | Keep::AllOvertaken(count) => Keep::AllOvertaken(count),
    }
}

/// How many octets may come behind so many of the file at a path, whether or not the tree takes a file there. `None` where those
/// alone pass a limit.
pub(crate) fn room_behind<
    A: Allocator + Copy,
    B: Allocator + Copy,
    C: Allocator + Copy,
    T: Tree<A>,
>(tree: &T, root: &Path<B>, path: &Path<C>, keep: u64) -> Option<u64>
    ensures room { IfSome result (λ room. Leaves (under (T.table tree.now) root.now) path.now keep room) }
    ensures none { is_none result ≡ is_some (octets_refusal (under (T.table tree.now) root.now) path.now keep) }
{
    let most = tree.most(root, path);
    if most < keep {
        return None;
    }
    Some(most - keep)
}

/// How many first octets of the file that stands at a path now are kept; fewer stand there where REST kept more than there are.
pub(crate) fn kept_at<A: Allocator + Copy, T: Tree<A>>(
    tree: &T,
    root: &Path<A>,
    path: &Path<A>,
    keep: Keep,
) -> u64
    ensures octets { let octets = octets_or_none (under (T.table tree.now) root.now) path.now in take result octets ≡ kept_of keep octets }
    ensures lacks { let octets = octets_or_none (under (T.table tree.now) root.now) path.now in lacks keep octets ≡ not (nat_le result (length octets)) }
{
    match keep {
        Keep::First(count) | Keep::FirstOvertaken(count) => count,
        Keep::All(_) | Keep::AllOvertaken(_) => len_at(tree, root, path),
    }
}

/// Why so many octets that came can't be put at a path now, by an account that may change so much: the reply that tells it.
///
/// Asked in this order: whether the account may put a file there, whether as many octets stand there as are kept, whether the tree
/// takes a file there, whether it is within the limits of octets.
pub(crate) fn end_refusal<A: Allocator + Copy, T: Tree<A>>(
    tree: &T,
    root: &Path<A>,
    path: &Path<A>,
    keep: Keep,
    count: u64,
    rights: Rights,
) -> Option<FixedReply>
    ensures { (s : Session) (octets : List ℕ) → s.table ≡ T.table tree.now → s.root ≡ root.now → s.rights ≡ rights → length octets ≡ count
        → result ≡ option_map refusal_text (end_refusal path.now keep octets s) }
{
    // A path is within the limits of paths, whatever its parent's key is.
    let _key = path.parent_key();
    if !may_put_at(tree, root, path, rights) {
        return Some(FixedReply::NotAllowed);
    }
    let kept = kept_at(tree, root, path, keep);
    if len_at(tree, root, path) < kept {
        return Some(FixedReply::NameRefused);
    }
    match tree.room(root, path) {
        Ok(room) => {
            if passes(room, kept, count) {
                return Some(FixedReply::TooMuch);
            }
            None
        }
        Err(fault) => Some(room_text(fault)),
    }
}

/// Whether so many octets behind so many that are kept are more than there is room for.
fn passes(room: u64, kept: u64, count: u64) -> bool
    ensures { result ≡ not (nat_le (kept + count) room) }
{
    if room < kept {
        return true;
    }
    room - kept < count
}

/// What a refused call of a tree is told as, by the count of device failures before it and after it.
pub(crate) fn fault_by(before: u64, after: u64) -> Fault
    requires { (after ≡ before) ⊎ (after ≡ next_count before) }
    ensures { (old new : Failures) → old.told ≡ before → new.told ≡ after → old.strays ≤ new.strays → Counted result old new }
{
    if after == before {
        Fault::Memory
    } else {
        Fault::Device
    }
}
